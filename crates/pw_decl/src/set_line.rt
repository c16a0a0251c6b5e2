//! The line of a declaration that declares a set kind.
ghost use Rattle.std.specs.Prelude.{◌≡◌, ◌↔◌, ◌+◌, ◌<◌, None, true, length, min, IsTrue};
ghost use Rattle.std.specs.Prelude.{IfSome, IfNone, IfOk, IfErr, OnOk, OnErr};
ghost use Rattle.std.specs.List.{list_all, list_any, IsDistinct};
ghost use Rattle.std.specs.Str.{bytes_eq};
ghost use Rattle.pw_info.specs.Name.{is_name};
ghost use Rattle.pw_kinds.specs.Places.{most_members, IsSize};
ghost use Rattle.pw_procs.specs.Registering.{place_of_name};
ghost use Rattle.pw_decl.specs.Declaration.{Set, kind_names};
ghost use Rattle.pw_decl.specs.Limits.{most_sets};
ghost use Rattle.pw_decl.specs.inside.Fields.{declared};
ghost use Rattle.pw_decl.specs.inside.Fields.{outside};
ghost use Rattle.pw_decl.specs.inside.SentenceFaults.{DeclaresSentence, IsFaultless, IsToldOf};

use crate::decl_fault::DeclFaultKind;
use crate::declaration::Declaration;
use crate::version::MOST_MEMBERS;
use pw_info::{Words, read_name};
use pw_procs::NameTable;
use std::alloc::{AllocError, Allocator};

const MOST_SETS: u8 = 32;

const FEWEST_MEMBERS: usize = 2;

// Whether the word is among the words.
fn is_among(word: &[u8], mut words: Words<'_>) -> bool
    ensures { result ≡ list_any (bytes_eq word.now) words.entry }
{
    while let Some(other) = words.next() {
        if word == other {
            return true;
        }
    }
    false
}

// Whether no two words are equal. A line has few words, so each is searched for among those after
// it, without memory.
fn are_distinct(mut words: Words<'_>) -> bool
    ensures { IsTrue result ↔ IsDistinct bytes_eq words.entry }
{
    while let Some(word) = words.next() {
        if is_among(word, words.again()) {
            return false;
        }
    }
    true
}

// The number of words, counted only up to one member too many in the latest version.
fn count(mut words: Words<'_>) -> usize
    ensures { result ≡ min (length words.entry) (most_members + 1) }
{
    let mut count = 0;
    while count <= MOST_MEMBERS && words.next().is_some() {
        count += 1;
    }
    count
}

// The names of the members, which differ.
fn name_members<A: Allocator + Copy>(
    alloc: A,
    mut members: Words<'_>,
) -> Result<NameTable<A>, AllocError>
    requires names { list_all is_name members ≡ true }
    requires distinct { IsDistinct bytes_eq members }
    ensures { IfOk result (λ table. table ≡ members.entry) }
{
    let mut table = NameTable::new(alloc);
    while let Some(word) = members.next() {
        let Some(name) = read_name(word) else {
            unreachable!("each member is a name");
        };
        table.add(name)?;
    }
    Ok(table)
}

// The first fault of a line that declares a set kind of this name with these members.
fn set_fault<A: Allocator + Copy>(
    declaration: &Declaration<'_, A>,
    name: &str,
    members: Words<'_>,
) -> Option<DeclFaultKind>
    ensures some { IfSome result (IsToldOf (outside declaration.now)
        (Set name.now members.entry)) }
    ensures none { IfNone result (IsFaultless (outside declaration.now)
        (Set name.now members.entry)) }
    ensures fresh { IfNone result (place_of_name (kind_names (declared declaration.now)) name.now
        ≡ None) }
    ensures distinct { IfNone result (IsDistinct bytes_eq members.entry) }
    ensures room { IfNone result (length (declared declaration.now).sets < most_sets) }
    ensures size { IfNone result (IsSize (length members.entry)) }
{
    if declaration.has_kind(name.as_bytes()) || !are_distinct(members.again()) {
        return Some(DeclFaultKind::DuplicateName);
    }
    let size = count(members.again());
    if size < FEWEST_MEMBERS {
        return Some(DeclFaultKind::WrongArguments);
    }
    if declaration.sets() >= MOST_SETS || size > declaration.version().most_members() {
        return Some(DeclFaultKind::Limit);
    }
    None
}

/// Declares a set kind of this name with these members, which are names.
pub(crate) fn declare_set<A: Allocator + Copy>(
    alloc: A,
    declaration: &mut Declaration<'_, A>,
    name: &str,
    members: Words<'_>,
) -> Result<(), DeclFaultKind>
    requires names { list_all is_name members ≡ true }
    ensures ok { OnOk result (DeclaresSentence (outside declaration.old) (Set name.now members.entry)
        (outside declaration.new)) }
    ensures err { IfErr result (IsToldOf (outside declaration.old) (Set name.now members.entry)) }
    ensures unchanged { OnErr result ((declared declaration.new) ≡
        (declared declaration.old)) }
{
    if let Some(why) = set_fault(declaration, name, members.again()) {
        return Err(why);
    }
    let Ok(table) = name_members(alloc, members) else {
        return Err(DeclFaultKind::Memory);
    };
    match declaration.add_set(name, table) {
        Ok(()) => Ok(()),
        Err(_) => Err(DeclFaultKind::Memory),
    }
}
