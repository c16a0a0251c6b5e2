//! The procedures of a program, by name and by number.
ghost use Rattle.std.specs.Prelude.{◌≡◌, ◌↔◌, ◌<◌, length, slice_get, Some, IsTrue, IfOk, IfErr};
ghost use Rattle.std.specs.Prelude.{IfSome, IfNone, Contains};
ghost use Rattle.pw_procs.specs.Registering.{place_of_name};
ghost use Rattle.pw_procs.specs.Procedure.{procedure_of, procedures_of, stored_names};
ghost use Rattle.pw_procs.specs.Registering.{IsBadName, IsFaultAfter, IsFaultlessAfter};
ghost use Rattle.pw_procs.specs.Registering.{AreRegistered, IsRegistryFault};

use crate::name_table::NameTable;
use crate::stored::Stored;
use pw_info::is_name;
use std::alloc::{AllocError, Allocator, Global};

const MOST_PROCEDURES: usize = 64;

/// Why a list of procedures makes no registry, with the number of each fault.
#[derive(Clone, Copy, Debug, PartialEq, Eq)]
pub enum RegistryFault {
    /// 1: an earlier procedure has the name.
    DuplicateName,
    /// 2: no procedure may have the name: it is not a name, or it is `sum`, `product` or
    /// `conditional`.
    BadName,
    /// 3: there are more than 64.
    TooMany,
    /// 4: a growth was refused.
    Memory,
}

/// Procedures with different names, each with a number, from 0 in the order of the list.
#[derive(Drop)]
pub struct Registry<A: Allocator = Global> {
    entries: Vec<Stored>,
    names: NameTable<A>,
    ghost named: { names ≡ stored_names entries.items },
    ghost registered: { AreRegistered (stored_names entries.items) },
}

// Whether no procedure may have this name.
fn is_bad_name(name: &[u8]) -> bool
    ensures { IsTrue result ↔ IsBadName name.now }
{
    !is_name(name)
        || name == b"sum".as_slice()
        || name == b"product".as_slice()
        || name == b"conditional".as_slice()
}

// Whether a procedure has this name.
fn is_named(entries: &[Stored], name: &[u8]) -> bool
    ensures { IsTrue result ↔ Contains (stored_names entries.now) name.now }
{
    for entry in entries {
        if entry.name().as_bytes() == name {
            return true;
        }
    }
    false
}

// What is wrong with a name after the procedures before it.
fn fault_after(before: &[Stored], name: &[u8]) -> Option<RegistryFault>
    ensures none { IfNone result (IsFaultlessAfter (stored_names before.now) name.now) }
    ensures fault { IfSome result (λ fault. IsFaultAfter (stored_names before.now) name.now fault) }
{
    if is_bad_name(name) {
        return Some(RegistryFault::BadName);
    }
    if is_named(before, name) {
        return Some(RegistryFault::DuplicateName);
    }
    None
}

// The first fault of the list, apart from memory.
fn first_fault(entries: &[Stored]) -> Option<RegistryFault>
    ensures none { IfNone result (AreRegistered (stored_names entries.now)) }
    ensures fault { IfSome result (λ fault. IsRegistryFault (stored_names entries.now) fault) }
{
    if entries.len() > MOST_PROCEDURES {
        return Some(RegistryFault::TooMany);
    }
    for place in 0..entries.len() {
        if let Some(fault) = fault_after(&entries[..place], entries[place].name().as_bytes()) {
            return Some(fault);
        }
    }
    None
}

// The names of the procedures, in order.
fn names_of<A: Allocator + Copy>(alloc: A, entries: &[Stored]) -> Result<NameTable<A>, AllocError>
    requires { AreRegistered (stored_names entries.now) }
    ensures { IfOk result (λ names. names ≡ stored_names entries.now) }
{
    let mut names = NameTable::new(alloc);
    for entry in entries {
        names.add(entry.name())?;
    }
    Ok(names)
}

impl<A: Allocator + Copy> Registry<A> {
    ghost use Rattle.pw_procs.specs.Registry.{procedures_in, names_in};

    /// The registry of these procedures: at most 64, each under a name that a procedure may have,
    /// no two under the same name. Otherwise the list is handed back with its first fault: too many
    /// procedures; then, from the first procedure on, a bad name or the name of an earlier
    /// procedure; and last, out of memory.
    pub fn new(alloc: A, entries: Vec<Stored>) -> Result<Registry<A>, (RegistryFault, Vec<Stored>)>
        ensures holds { IfOk result (λ made. procedures_in made ≡ procedures_of entries.items) }
        ensures names { IfOk result (λ made. AreRegistered (stored_names entries.items)) }
        ensures fault { IfErr result (λ e. IsRegistryFault (stored_names entries.items) e.0) }
        ensures back { IfErr result (λ e. e.1 ≡ entries) }
    {
        if let Some(fault) = first_fault(&entries) {
            return Err((fault, entries));
        }
        match names_of(alloc, &entries) {
            Ok(names) => Ok(Registry { entries, names }),
            Err(AllocError) => Err((RegistryFault::Memory, entries)),
        }
    }

    /// The allocator on which its procedures are kept.
    pub fn allocator(&self) -> Global {
        *self.entries.allocator()
    }

    /// The number of procedures.
    pub fn len(&self) -> usize
        ensures { result ≡ length (procedures_in self.now) }
    {
        self.entries.len()
    }

    /// The number of the procedure of this name, if there is one.
    pub fn find(&self, name: &[u8]) -> Option<u8>
        ensures place { result ≡ place_of_name (names_in self.now) name.now }
        ensures found { IfSome result (λ n. slice_get (names_in self.now) n ≡ Some name.now) }
        ensures within { IfSome result (λ n. n < length (procedures_in self.now)) }
        ensures none { IfNone result (Contains (names_in self.now) name.now → ⊥) }
    {
        let number = self.names.find(name)?;
        Some(number as u8)
    }

    /// The procedure of this number.
    pub fn get(&self, number: u8) -> &Stored
        requires { number < length (procedures_in self.now) }
        ensures { slice_get (procedures_in self.now) number ≡ Some (procedure_of result.now) }
    {
        &self.entries[number as usize]
    }
}
