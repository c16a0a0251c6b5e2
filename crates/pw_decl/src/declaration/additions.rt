//! Questions that the reader of a text asks of a declaration so far, and additions that it makes.
ghost use Rattle.std.specs.Prelude.{◌≡◌, ◌↔◌, ◌+◌, ◌++◌, ◌∷◌, [], None, Some, ◌<◌, ◌≤◌, IsTrue};
ghost use Rattle.std.specs.Prelude.{length, vec_len, vec_capacity, is_some, IfSome, IfNone, OnOk};
ghost use Rattle.std.specs.Prelude.{OnErr};
ghost use Rattle.pw_kinds.specs.Places.{IsSize};
ghost use Rattle.pw_info.specs.declared.kind.Kind.{Kind as KindOfCell};
ghost use Rattle.pw_info.specs.SetNames.{AreNames, IsNamed};
ghost use Rattle.pw_procs.specs.Registering.{place_of_name};
ghost use Rattle.pw_decl.specs.Compound.{size_of_callable, sizes_of};
ghost use Rattle.pw_decl.specs.Declaration.{kind_names, members_of, NamesKind, IsCallable};
ghost use Rattle.pw_decl.specs.Declaration.{with_version, with_user, with_premise, with_cell};
ghost use Rattle.pw_decl.specs.Declaration.{with_set, with_compound};
ghost use Rattle.pw_decl.specs.Limits.{most_users, most_premises, most_cells, most_sets};
ghost use Rattle.pw_decl.specs.Limits.{most_compounds};
ghost use Rattle.pw_decl.specs.Prelude.{prelude_compounds};
ghost use Rattle.pw_decl.specs.inside.Held.{IsFlattened};
ghost use Rattle.pw_decl.specs.inside.Held.{compound_of, size_of};
ghost use Rattle.pw_decl.specs.inside.Opened.{IsOpen, open_of};
ghost use Rattle.pw_decl.specs.WellDeclared.{IsSmall};

use super::Declaration;
use crate::built_in::{BUILT_IN_SETS, PRELUDE_COMPOUNDS, built_in_kind};
use crate::compound::{Compound, OpenCompound, Size};
use crate::flat_call::Flattened;
use crate::step::Callable;
use crate::version::Version;
use pw_info::{Kind, SetKind};
use pw_procs::NameTable;
use std::alloc::{AllocError, Allocator};

const MOST_COMPOUNDS: usize = 64;

// Adds the name of a compound, and makes room for the compound and its flattened form. If it fails,
// no name is added.
fn add_compound_name<A: Allocator + Copy>(
    names: &mut NameTable<A>,
    name: &str,
    compounds: &mut Vec<Compound<A>, A>,
    flattened: &mut Vec<Flattened<A>, A>,
) -> Result<(), AllocError>
    requires { place_of_name names.old name.now ≡ None }
    ensures ok { OnOk result (names.new ≡ names.old ++ name.now ∷ []) }
    ensures err { OnErr result (names.new ≡ names.old) }
    ensures compounds { compounds.new.items ≡ compounds.old.items }
    ensures flattened { flattened.new.items ≡ flattened.old.items }
    ensures room { OnOk result (vec_len compounds.new < vec_capacity compounds.new) }
    ensures room_flattened { OnOk result (vec_len flattened.new < vec_capacity flattened.new) }
{
    compounds.reserve(1)?;
    flattened.reserve(1)?;
    names.add(name)?;
    Ok(())
}

// Adds a compound and its flattened form, for both of which there is room.
fn push_compound<A: Allocator + Copy>(
    compounds: &mut Vec<Compound<A>, A>,
    compound: Compound<A>,
    all_flattened: &mut Vec<Flattened<A>, A>,
    flattened: Flattened<A>,
)
    requires room { vec_len compounds.old < vec_capacity compounds.old }
    requires room_flattened { vec_len all_flattened.old < vec_capacity all_flattened.old }
    ensures compounds { compounds.new.items ≡ compounds.old.items ++ compound ∷ [] }
    ensures flattened { all_flattened.new.items ≡ all_flattened.old.items ++ flattened ∷ [] }
{
    compounds.push(compound).unwrap();
    all_flattened.push(flattened).unwrap();
}

// What a compound that ends leaves: its name, and what it holds. Drops the rest.
fn ended<A: Allocator + Copy>(opened: OpenCompound<A>) -> (String<A>, Compound<A>)
    ensures name { result.0 ≡ opened.name }
    ensures compound { result.1 ≡ opened.compound }
{
    (opened.name, opened.compound)
}

// Adds the name of a compound, the compound and its flattened form. If it fails, nothing is added.
fn add_ended<A: Allocator + Copy>(
    names: &mut NameTable<A>,
    name: &str,
    compounds: &mut Vec<Compound<A>, A>,
    compound: Compound<A>,
    all_flattened: &mut Vec<Flattened<A>, A>,
    flattened: Flattened<A>,
) -> Result<(), AllocError>
    requires { place_of_name names.old name.now ≡ None }
    ensures name { OnOk result (names.new ≡ names.old ++ name.now ∷ []) }
    ensures compound { OnOk result (compounds.new.items ≡ compounds.old.items ++ compound ∷ []) }
    ensures flattened { OnOk result (all_flattened.new.items
        ≡ all_flattened.old.items ++ flattened ∷ []) }
    ensures no_name { OnErr result (names.new ≡ names.old) }
    ensures no_compound { OnErr result (compounds.new.items ≡ compounds.old.items) }
    ensures no_flattened { OnErr result (all_flattened.new.items ≡ all_flattened.old.items) }
{
    add_compound_name(names, name, compounds, all_flattened)?;
    push_compound(compounds, compound, all_flattened, flattened);
    Ok(())
}

// Adds a name, and what belongs to it. If it fails, nothing is added.
fn add_named<T: Drop, A: Allocator + Copy>(
    names: &mut NameTable<A>,
    name: &str,
    items: &mut Vec<T, A>,
    item: T,
) -> Result<(), AllocError>
    requires { place_of_name names.old name.now ≡ None }
    ensures name { OnOk result (names.new ≡ names.old ++ name.now ∷ []) }
    ensures item { OnOk result (items.new.items ≡ items.old.items ++ item ∷ []) }
    ensures no_name { OnErr result (names.new ≡ names.old) }
    ensures no_item { OnErr result (items.new.items ≡ items.old.items) }
{
    items.reserve(1)?;
    names.add(name)?;
    items.push(item).unwrap();
    Ok(())
}

// Adds the name of a set kind, and makes room for the names of its members. If it fails, no name is
// added.
fn add_set_name<A: Allocator + Copy>(
    names: &mut NameTable<A>,
    name: &str,
    sets: &mut Vec<NameTable<A>, A>,
) -> Result<(), AllocError>
    requires { place_of_name names.old name.now ≡ None }
    ensures ok { OnOk result (names.new ≡ names.old ++ name.now ∷ []) }
    ensures err { OnErr result (names.new ≡ names.old) }
    ensures sets { sets.new.items ≡ sets.old.items }
    ensures room { OnOk result (vec_len sets.new < vec_capacity sets.new) }
{
    sets.reserve(1)?;
    names.add(name)?;
    Ok(())
}

// Adds the name of a set kind, and the names of its members. If it fails, nothing is added.
fn add_named_set<A: Allocator + Copy>(
    names: &mut NameTable<A>,
    name: &str,
    sets: &mut Vec<NameTable<A>, A>,
    members: NameTable<A>,
) -> Result<(), AllocError>
    requires { place_of_name names.old name.now ≡ None }
    ensures name { OnOk result (names.new ≡ names.old ++ name.now ∷ []) }
    ensures set { OnOk result (sets.new.items ≡ sets.old.items ++ members ∷ []) }
    ensures no_name { OnErr result (names.new ≡ names.old) }
    ensures no_set { OnErr result (sets.new.items ≡ sets.old.items) }
{
    add_set_name(names, name, sets)?;
    sets.push(members).unwrap();
    Ok(())
}

impl<A: Allocator + Copy> Declaration<'_, A> {
    ghost use Rattle.pw_decl.specs.inside.Fields.{declared};

    /// The size of what the callable, which must exist, expands to.
    pub(crate) fn size(&self, callable: Callable) -> Size
        requires { IsCallable (declared self.now) callable }
        ensures size { size_of result ≡ size_of_callable (sizes_of
            (declared self.now).compounds) callable }
        ensures small { IsSmall (size_of result) }
    {
        match callable {
            Callable::Stored(_) => Size {
                instances: 1,
                inner_cells: 0,
            },
            Callable::Compound(number) => self.compounds[usize::from(number)].size,
        }
    }

    /// Whether no further compound may be added.
    pub(crate) fn is_full(&self) -> bool
        ensures { IsTrue result
            ↔ (prelude_compounds + most_compounds ≤ length (declared self.now).compounds) }
    {
        self.compounds.len() >= PRELUDE_COMPOUNDS + MOST_COMPOUNDS
    }

    /// The kind of this name, if there is one: `interval`, `exact`, `bool`, `sign` or a declared
    /// set kind.
    pub(crate) fn kind(&self, name: &[u8]) -> Option<Kind>
        ensures some { IfSome result (λ kind. NamesKind (declared self.now) name.now kind) }
        ensures known { IfSome result (λ kind. IsNamed (members_of (declared self.now)) kind) }
        ensures none { IfNone result ((kind : KindOfCell)
            → NamesKind (declared self.now) name.now kind → ⊥) }
    {
        if let Some(kind) = built_in_kind(name) {
            return Some(kind);
        }
        let place = self.set_names.find(name)?;
        Some(Kind::Members(SetKind {
            number: BUILT_IN_SETS + place as u8,
            size: self.sets[place].len() as u8,
        }))
    }

    /// Whether there is a kind of this name.
    pub(crate) fn has_kind(&self, name: &[u8]) -> bool
        ensures { result ≡ is_some (place_of_name (kind_names (declared self.now)) name.now) }
    {
        built_in_kind(name).is_some() || self.set_names.find(name).is_some()
    }

    /// The version of the declaration.
    pub(crate) fn version(&self) -> Version
        ensures { result ≡ (declared self.now).version }
    {
        self.version
    }

    /// Sets the version of the declaration.
    pub(crate) fn set_version(&mut self, version: Version)
        ensures { (declared self.new) ≡ with_version (declared self.old) version }
    {
        self.version = version;
    }

    /// Adds a user. Fails only when out of memory; then nothing changes.
    pub(crate) fn add_user(&mut self, name: &str) -> Result<(), AllocError>
        requires fresh { place_of_name (declared self.old).users name.now ≡ None }
        requires room { length (declared self.old).users < most_users }
        ensures ok { OnOk result ((declared self.new) ≡ with_user
            (declared self.old) name.now) }
        ensures err { OnErr result ((declared self.new) ≡ (declared self.old)) }
    {
        self.users.add(name)?;
        Ok(())
    }

    /// Adds a premise that belongs to this user, if any. Fails only when out of memory; then
    /// nothing changes.
    pub(crate) fn add_premise(&mut self, name: &str, owner: Option<u8>) -> Result<(), AllocError>
        requires fresh { place_of_name (declared self.old).premises name.now ≡ None }
        requires room { length (declared self.old).premises < most_premises }
        requires user { IfSome owner (λ user. user < length (declared self.old).users) }
        ensures ok { OnOk result ((declared self.new) ≡ with_premise
            (declared self.old) name.now owner) }
        ensures err { OnErr result ((declared self.new) ≡ (declared self.old)) }
    {
        add_named(&mut self.premises, name, &mut self.owners, owner)?;
        Ok(())
    }

    /// Adds a cell of this kind. Fails only when out of memory; then nothing changes.
    pub(crate) fn add_cell(&mut self, name: &str, kind: Kind) -> Result<(), AllocError>
        requires fresh { place_of_name (declared self.old).cells name.now ≡ None }
        requires room { length (declared self.old).cells < most_cells }
        requires known { IsNamed (members_of (declared self.old)) kind }
        ensures ok { OnOk result ((declared self.new) ≡ with_cell
            (declared self.old) name.now kind) }
        ensures err { OnErr result ((declared self.new) ≡ (declared self.old)) }
    {
        add_named(&mut self.cells, name, &mut self.kinds, kind)?;
        Ok(())
    }

    /// Adds a set kind with these members, 2 to 128. Fails only when out of memory; then nothing
    /// changes.
    pub(crate) fn add_set(&mut self, name: &str, members: NameTable<A>) -> Result<(), AllocError>
        requires fresh { place_of_name (kind_names (declared self.old)) name.now ≡ None }
        requires room { length (declared self.old).sets < most_sets }
        requires size { IsSize (length members) }
        requires names { AreNames members }
        ensures ok { OnOk result ((declared self.new) ≡ with_set
            (declared self.old) name.now members) }
        ensures err { OnErr result ((declared self.new) ≡ (declared self.old)) }
    {
        add_named_set(&mut self.set_names, name, &mut self.sets, members)?;
        Ok(())
    }

    /// Adds an open compound, which ends here, with its flattened form. Fails only when out of
    /// memory; then nothing changes.
    pub(crate) fn add_compound(
        &mut self,
        opened: OpenCompound<A>,
        flattened: Flattened<A>,
    ) -> Result<(), AllocError>
        requires kept { IsOpen (declared self.old) opened }
        requires flat { IsFlattened (declared self.old).compounds
            (compound_of opened.compound) flattened }
        ensures ok { OnOk result ((declared self.new) ≡ with_compound (declared self.old)
            (open_of opened).name (open_of opened).compound) }
        ensures err { OnErr result ((declared self.new) ≡ (declared self.old)) }
    {
        let (name, compound) = ended(opened);
        add_ended(
            &mut self.compound_names,
            name.as_str(),
            &mut self.compounds,
            compound,
            &mut self.flattened,
            flattened,
        )
    }
}
