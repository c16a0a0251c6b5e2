//! What a declaration declares: users, premises, cells, set kinds and compounds, by name and by
//! number.
ghost use Rattle.std.specs.Prelude.{◌≡◌, ◌↔◌, ◌+◌, ◌-◌, [], All, None, Some, ◌<◌, ◌≤◌, IsTrue};
ghost use Rattle.std.specs.Prelude.{length, slice_get, Contains, IfSome, IfNone};
ghost use Rattle.pw_kinds.specs.Places.{most_members};
ghost use Rattle.pw_info.specs.SetNames.{IsNamed};
ghost use Rattle.pw_procs.specs.Registry.{cells_of};
ghost use Rattle.pw_procs.specs.Registering.{place_of_name};
ghost use Rattle.pw_procs.specs.Registry.{procedures_in};
ghost use Rattle.pw_decl.specs.declared.step.Callable.TheVariants as callables;
ghost use Rattle.pw_decl.specs.Compound.{kinds_at, sizes_of};
ghost use Rattle.pw_decl.specs.Declaration.{nothing_declared, owner_of, kind_at, members_of};
ghost use Rattle.pw_decl.specs.Declaration.{callable_named, IsCallable, Takes};
ghost use Rattle.pw_decl.specs.Limits.{most_users, most_premises, most_cells, most_sets};
ghost use Rattle.pw_decl.specs.Limits.{most_compounds, most_inner_cells};
ghost use Rattle.pw_decl.specs.Prelude.{prelude_compounds};
ghost use Rattle.pw_decl.specs.Expansion.{inner_kinds_of};
ghost use Rattle.pw_decl.specs.inside.Held.{AreCallsOf};
ghost use Rattle.pw_decl.specs.inside.Held.{steps_of};
ghost use Rattle.pw_decl.specs.WellDeclared.{IsWellDeclared};
ghost use Rattle.std.proofs.Props.{props};
ghost use Rattle.pw_decl.specs.inside.Held.{named_prop};
ghost use Rattle.pw_decl.specs.Expansion.{inner_after};
ghost use Rattle.pw_decl.specs.inside.Held.{calls_held, calls_of, inner_held};
ghost use Rattle.pw_decl.specs.inside.Held.{compounds_of, declared_from, sizes_held};

use crate::built_in::{BUILT_IN_SETS, PRELUDE_COMPOUNDS, built_in_member, built_in_place};
use crate::compound::Compound;
use crate::flat_call::{FlatCall, Flattened, MOST_CELLS};
use crate::step::{Callable, Step};
use crate::version::Version;
use pw_info::{Kind, KindNames};
use pw_procs::{Arguments, NameTable, Registry, are_equal_kinds};
use std::alloc::{Allocator, Global};

mod additions;

/// Users, premises and cells, each numbered from 0 in the order of their lines. Each premise has
/// the user that it belongs to, if any, and each cell has its kind. Set kinds have the names of
/// their members, and are numbered from 2 in the order of their lines, after `bool` and `sign`.
/// There are at most 64 users, 1,024 cells and 32 declared set kinds; in the first version at most
/// 64 premises and sets of 2 to 64 members, in the second at most 512 premises and sets of 2 to 128
/// members; and at most 64 compounds, numbered from 3 in the order of their lines, after `sum`,
/// `product` and `conditional`. A declaration is read over a registry, and compounds call the
/// registry's procedures.
#[derive(Drop)]
pub struct Declaration<'r, A: Allocator = Global> {
    registry: &'r Registry,
    version: Version,
    users: NameTable<A>,
    premises: NameTable<A>,
    owners: Vec<Option<u8>, A>,
    cells: NameTable<A>,
    kinds: Vec<Kind, A>,
    // The names of the declared set kinds.
    set_names: NameTable<A>,
    // The names of the members of each declared set kind.
    sets: Vec<NameTable<A>, A>,
    compound_names: NameTable<A>,
    compounds: Vec<Compound<A>, A>,
    // The flattened form of each compound.
    flattened: Vec<Flattened<A>, A>,
    ghost well: { IsWellDeclared (declared_from registry.now version users premises owners.items cells kinds.items
        set_names sets.items compound_names compounds.items) } by { Prim.hlevel (props, named_prop) },
    ghost sized: { sizes_held compounds.items ≡ sizes_of (compounds_of compounds.items) },
    ghost calls: { calls_held flattened.items ≡ calls_of (compounds_of compounds.items) },
    ghost inner: { inner_held flattened.items ≡ inner_after [] (compounds_of compounds.items) },
}

impl<'r, A: Allocator + Copy> Declaration<'r, A> {
    ghost use Rattle.pw_decl.specs.inside.Fields.{declared, StepsAre};

    /// An empty declaration, in the first version. Takes no memory.
    pub(crate) fn new(alloc: A, registry: &'r Registry) -> Declaration<'r, A>
        ensures { declared result ≡ nothing_declared (procedures_in registry.entry.now) }
    {
        Declaration {
            registry,
            version: Version::One,
            users: NameTable::new(alloc),
            premises: NameTable::new(alloc),
            owners: Vec::new(alloc),
            cells: NameTable::new(alloc),
            kinds: Vec::new(alloc),
            set_names: NameTable::new(alloc),
            sets: Vec::new(alloc),
            compound_names: NameTable::new(alloc),
            compounds: Vec::new(alloc),
            flattened: Vec::new(alloc),
        }
    }

    /// The registry over which the declaration was read.
    pub fn registry(&self) -> &'r Registry
        ensures { procedures_in result.now ≡ (declared self.now).procedures }
    {
        self.registry
    }

    /// Properties of every declaration: it keeps its limits, the members of sets have names, and
    /// the kinds of cells are declared.
    pub fn limits(&self)
        ensures { IsWellDeclared (declared self.now) }
    {
        // Reads a field, so that the properties of every declaration are known.
        let _users = &self.users;
    }

    /// The number of users, at most 64.
    pub fn users(&self) -> u8
        ensures count { result ≡ length (declared self.now).users }
        ensures most { result ≤ most_users }
    {
        self.users.len() as u8
    }

    /// The number of premises: at most 64 in the first version, at most 512 in the second.
    pub fn premises(&self) -> u16
        ensures count { result ≡ length (declared self.now).premises }
        ensures most { result ≤ most_premises }
    {
        self.premises.len() as u16
    }

    /// The number of cells, at most 1,024.
    pub fn cells(&self) -> u32
        ensures count { result ≡ length (declared self.now).cells }
        ensures most { result ≤ most_cells }
    {
        self.cells.len() as u32
    }

    /// The number of declared set kinds, at most 32. `bool` and `sign` do not count.
    pub fn sets(&self) -> u8
        ensures count { result ≡ length (declared self.now).sets }
        ensures most { result ≤ most_sets }
    {
        self.sets.len() as u8
    }

    /// The number of declared compounds, at most 64. `sum`, `product` and `conditional` do not
    /// count.
    pub fn compounds(&self) -> u8
        ensures count { result ≡ length (declared self.now).compounds - prelude_compounds }
        ensures most { result ≤ most_compounds }
    {
        self.compounds.len().saturating_sub(PRELUDE_COMPOUNDS) as u8
    }

    /// The callable of this name, if there is one, which a line may call or attach: a procedure of
    /// the registry, `sum`, `product`, `conditional`, or a declared compound.
    pub fn callable(&self, name: &[u8]) -> Option<Callable>
        ensures named { result ≡ callable_named (declared self.now) name.now }
        ensures there { IfSome result (λ callable. IsCallable (declared self.now) callable) }
    {
        if let Some(number) = self.registry.find(name) {
            return Some(Callable::Stored(number));
        }
        let number = self.compound_names.find(name)?;
        Some(Callable::Compound(number as u8))
    }

    /// Whether the callable, which must exist, takes cells of these kinds: a procedure takes its
    /// inputs and then its output, a compound its parameters.
    pub fn accepts(&self, callable: Callable, kinds: &[Kind]) -> bool
        requires { IsCallable (declared self.now) callable }
        ensures { IsTrue result ↔ Takes (declared self.now) callable kinds.now }
    {
        match callable {
            Callable::Stored(number) => self.registry.get(number).signature().accepts(kinds),
            Callable::Compound(number) => {
                are_equal_kinds(kinds, &self.compounds[usize::from(number)].parameters)
            }
        }
    }

    /// Whether the callable, which must exist, takes the cells at these places, where `kinds` are
    /// the kinds of all cells. The places must exist.
    pub fn accepts_at(&self, callable: Callable, kinds: &[Kind], places: Arguments) -> bool
        requires there { IsCallable (declared self.now) callable }
        requires places { All (λ place. place < length kinds.now) (cells_of places) }
        ensures { IsTrue result ↔ Takes (declared self.now) callable (kinds_at kinds.now
            (cells_of places)) }
    {
        let places = places.cells();
        let mut given = [Kind::Interval; MOST_CELLS];
        for number in 0..places.len() {
            given[number] = kinds[places[number] as usize];
        }
        self.accepts(callable, &given[..places.len()])
    }

    /// The lines of the compound of this number, which must exist.
    pub fn steps(&self, compound: u8) -> &[Step]
        requires { compound < length (declared self.now).compounds }
        ensures { StepsAre (declared self.now) compound (steps_of result.now) }
    {
        &self.compounds[usize::from(compound)].steps
    }

    /// The flattened compound of this number, which must exist, as calls of procedures over places: its
    /// parameters from 0, and after them its inner cells.
    pub fn flat_calls(&self, compound: u8) -> &[FlatCall]
        requires { compound < length (declared self.now).compounds }
        ensures { AreCallsOf (declared self.now).compounds compound result.now }
    {
        &self.flattened[usize::from(compound)].calls
    }

    /// The kinds of the inner cells of the flattened compound of this number, which must exist: at most
    /// 256, in the order in which they are made.
    pub fn inner_kinds(&self, compound: u8) -> &[Kind]
        requires { compound < length (declared self.now).compounds }
        ensures kinds { result.now ≡ inner_kinds_of (declared self.now).compounds
            (callables.Compound compound) }
        ensures most { length result.now ≤ most_inner_cells }
    {
        &self.flattened[usize::from(compound)].inner
    }

    /// The kinds of the inner cells that the callable, which must exist, makes, at most 256: a procedure
    /// makes none.
    pub fn inner_kinds_of(&self, callable: Callable) -> &[Kind]
        requires { IsCallable (declared self.now) callable }
        ensures kinds { result.now ≡ inner_kinds_of (declared self.now).compounds callable }
        ensures most { length result.now ≤ most_inner_cells }
    {
        match callable {
            Callable::Stored(_) => &[],
            Callable::Compound(compound) => self.inner_kinds(compound),
        }
    }

    /// The number of the user of this name, if there is one.
    pub fn user(&self, name: &[u8]) -> Option<u8>
        ensures number { result ≡ place_of_name (declared self.now).users name.now }
        ensures within { IfSome result (λ number. number < length (declared self.now).users) }
        ensures limit { IfSome result (λ number. number < most_users) }
    {
        let number = self.users.find(name)?;
        Some(number as u8)
    }

    /// The number of the premise of this name, if there is one.
    pub fn premise(&self, name: &[u8]) -> Option<u16>
        ensures number { result ≡ place_of_name (declared self.now).premises name.now }
        ensures within { IfSome result (λ number. number < length (declared self.now).premises) }
        ensures limit { IfSome result (λ number. number < most_premises) }
    {
        let number = self.premises.find(name)?;
        Some(number as u16)
    }

    /// The number of the cell of this name, if there is one.
    pub fn cell(&self, name: &[u8]) -> Option<u32>
        ensures number { result ≡ place_of_name (declared self.now).cells name.now }
        ensures within { IfSome result (λ number. number < length (declared self.now).cells) }
        ensures limit { IfSome result (λ number. number < most_cells) }
    {
        let number = self.cells.find(name)?;
        Some(number as u32)
    }

    /// The name of the user of this number, who must exist.
    pub fn user_name(&self, user: u8) -> &str
        requires { user < length (declared self.now).users }
        ensures name { slice_get (declared self.now).users user ≡ Some result.now }
        ensures own { place_of_name (declared self.now).users result.now ≡ Some user }
    {
        self.users.name(usize::from(user))
    }

    /// The name of the premise of this number, which must exist.
    pub fn premise_name(&self, premise: u16) -> &str
        requires { premise < length (declared self.now).premises }
        ensures name { slice_get (declared self.now).premises premise ≡ Some result.now }
        ensures own { place_of_name (declared self.now).premises result.now ≡ Some premise }
    {
        self.premises.name(usize::from(premise))
    }

    /// The name of the cell of this number, which must exist.
    pub fn cell_name(&self, cell: u32) -> &str
        requires { cell < length (declared self.now).cells }
        ensures name { slice_get (declared self.now).cells cell ≡ Some result.now }
        ensures own { place_of_name (declared self.now).cells result.now ≡ Some cell }
    {
        self.cells.name(cell as usize)
    }

    /// The number of the user that the premise of this number, which must exist, belongs to, if any.
    pub fn owner(&self, premise: u16) -> Option<u8>
        requires { premise < length (declared self.now).premises }
        ensures owner { result ≡ owner_of (declared self.now) premise }
        ensures user { IfSome result (λ user. user < length (declared self.now).users) }
    {
        self.owners[usize::from(premise)]
    }

    /// The kinds of the cells, at most 1,024, by cell number.
    pub fn kinds(&self) -> &[Kind]
        ensures kinds { result.now ≡ (declared self.now).kinds }
        ensures each { length (declared self.now).kinds ≡ length (declared self.now).cells }
        ensures most { length result.now ≤ most_cells }
    {
        &self.kinds
    }

    /// The kind of the cell of this number, which must exist.
    pub fn cell_kind(&self, cell: u32) -> Kind
        requires { cell < length (declared self.now).cells }
        ensures kind { result ≡ kind_at (declared self.now) cell }
        ensures named { IsNamed (members_of (declared self.now)) result }
    {
        self.kinds[cell as usize]
    }
}

impl<A: Allocator + Copy> KindNames for Declaration<'_, A> {
    ghost use Rattle.pw_decl.specs.inside.Fields.{declared};

    ghost members = { λ d. members_of (declared d) };

    fn member(&self, set: u8, place: u8) -> &str {
        if set < BUILT_IN_SETS {
            return built_in_member(set, place);
        }
        self.sets[usize::from(set - BUILT_IN_SETS)].name(usize::from(place))
    }

    fn place(&self, set: u8, name: &[u8]) -> Option<u8> {
        if set < BUILT_IN_SETS {
            return built_in_place(set, name);
        }
        let sets = self.sets.as_slice();
        let declared = usize::from(set - BUILT_IN_SETS);
        if declared >= sets.len() {
            return None;
        }
        place_in(&sets[declared], name)
    }
}

// The place of the name in a list of at most 128 names.
fn place_in<A: Allocator + Copy>(names: &NameTable<A>, name: &[u8]) -> Option<u8>
    requires { length names.now ≤ most_members }
    ensures found { IfSome result (λ place. slice_get names.now place ≡ Some name.now) }
    ensures none { IfNone result (Contains names.now name.now → ⊥) }
{
    let place = names.find(name)?;
    Some(place as u8)
}
