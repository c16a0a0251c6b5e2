//! Nogoods: noted sets of premises that contradict themselves.
ghost use Rattle.std.specs.Prelude.{◌≡◌, ◌<◌, ◌↔◌, ◌⊎◌, ◌||◌, [], true, false, drop};
ghost use Rattle.std.specs.Prelude.{All, Contains, IfNone, IfSome, OnErr, OnOk};
ghost use Rattle.std.specs.FinSet.{insert, is_subset};
ghost use Rattle.pw_premises.specs.Premises.{Premises, most_premises};
ghost use Rattle.pw_reasons.specs.Combinations.{groups_of};
ghost use Rattle.pw_reasons.specs.inside.PairRows.{pair};
ghost use Rattle.pw_reasons.specs.inside.Products.{worldviews_beside};
ghost use Rattle.pw_reasons.specs.Nogood.{covers};

use crate::family::Family;
use crate::groups::Groups;
use crate::pairs::Pairs;
use crate::products::Products;
use pw_premises::PremiseSet;
use std::alloc::{AllocError, Allocator, Global};
use std::marker::Model;

/// Sets of premises, noted by callers who found that something is contradictory if exactly these are
/// believed: so it is in every worldview that includes one of the sets. The type does not test it.
///
/// (Radul and Sussman, *The Art of the Propagator*, on nogood sets.)
#[derive(Drop)]
pub struct Nogoods<A: Allocator = Global> {
    alloc: A,
    // Those of exactly two premises.
    pairs: Pairs<A>,
    // Others that were noted each by itself.
    family: Family<A>,
    // Those that were noted together, with one premise of each of some groups.
    products: Products<A>,
}

impl<A: Allocator> Model for Nogoods<A> {
    ghost use Rattle.std.specs.Prelude.{◌++◌, List};
    ghost use Rattle.std.specs.Coded.{coded_list, coded_ℕ};
    ghost use Rattle.std.specs.FinSet as set;
    ghost use Rattle.pw_premises.specs.Premises.{Premises};
    ghost use Rattle.pw_reasons.specs.inside.Families.{sets_of};

    ghost Value = { List Premises };

    ghost coded = { coded_list (set.code coded_ℕ) };

    ghost view = { λ a. a.pairs ++ (sets_of a.family ++ a.products) };
}

impl<A: Allocator + Copy> Nogoods<A> {
    /// No sets. Takes no memory.
    pub fn new(alloc: A) -> Nogoods<A>
        ensures { result ≡ [] }
    {
        Nogoods {
            alloc,
            pairs: Pairs::new(alloc),
            family: Family::Nothing,
            products: Products::new(alloc),
        }
    }

    /// Notes a set of premises, and answers whether it was news. It was not news if a noted set is
    /// a subset of it; then nothing changes, and no memory is taken. Noted sets that include it may
    /// stay or go, since it covers what they cover. Fails only when out of memory; then nothing
    /// changes.
    pub fn note(&mut self, premises: &PremiseSet) -> Result<bool, AllocError>
        ensures known { (result ≡ Ok false) ↔ (covers self.old premises.now ≡ true) }
        ensures same { result ≡ Ok false → self.new ≡ self.old }
        ensures covered { OnOk result ((w : Premises)
            → covers self.new w ≡ (is_subset premises.now w || covers self.old w)) }
        // Each set that is noted afterwards was noted before, or is this set.
        ensures within { (noted : Premises) → Contains self.new noted
            → (noted ≡ premises.now) ⊎ Contains self.old noted }
        ensures err { OnErr result (self.new ≡ self.old) }
    {
        if self.covers(premises) {
            return Ok(false);
        }
        self.note_new(premises)?;
        Ok(true)
    }

    // Notes a set of premises, without a look at whether a noted set is a subset of it: the caller
    // knows that none is. Fails only when out of memory; then nothing changes.
    pub(crate) fn note_new(&mut self, premises: &PremiseSet) -> Result<(), AllocError>
        ensures covered { OnOk result ((w : Premises)
            → covers self.new w ≡ (is_subset premises.now w || covers self.old w)) }
        ensures within { (noted : Premises) → Contains self.new noted
            → (noted ≡ premises.now) ⊎ Contains self.old noted }
        ensures err { OnErr result (self.new ≡ self.old) }
    {
        match two_of(premises) {
            Some((lesser, greater)) => self.pairs.add(lesser, greater),
            None => self.family.add(self.alloc, premises),
        }
    }

    // Notes each set of the fixed premises with one of each group, from this place on. Fails only
    // when out of memory; then nothing changes.
    pub(crate) fn note_with_each(
        &mut self,
        fixed: &PremiseSet,
        groups: &Groups,
        place: usize,
    ) -> Result<(), AllocError>
        ensures covered { OnOk result ((w : Premises) → covers self.new w
            ≡ (covers (worldviews_beside fixed.now (drop place (groups_of groups.now))) w
            || covers self.old w)) }
        ensures within { (noted : Premises) → Contains self.new noted
            → Contains (worldviews_beside fixed.now (drop place (groups_of groups.now))) noted
            ⊎ Contains self.old noted }
        ensures err { OnErr result (self.new ≡ self.old) }
    {
        if place >= groups.len() {
            return self.note_new(fixed);
        }
        self.products.add(fixed, groups, place)
    }

    // Announces which premises later questions are about, for speed. Others may be asked about too.
    pub(crate) fn expect(&mut self, premises: &PremiseSet)
        ensures { self.new ≡ self.old }
    {
        self.products.expect(premises);
    }

    /// Whether a noted set is a subset of these premises. Takes no memory.
    pub fn covers(&self, premises: &PremiseSet) -> bool
        ensures { result ≡ covers self.now premises.now }
    {
        self.covering(premises).is_some()
    }

    // A noted set that is a subset of these premises, if there is one.
    pub(crate) fn covering(&self, premises: &PremiseSet) -> Option<PremiseSet>
        ensures some { IfSome result (λ noted. Contains self.now noted
            × (is_subset noted premises.now ≡ true)) }
        ensures none { IfNone result (covers self.now premises.now ≡ false) }
    {
        if let Some(pair) = self.pairs.within(premises) {
            return Some(pair);
        }
        match self.family.within(premises) {
            Some(set) => Some(set),
            None => self.products.within(premises),
        }
    }

    // Whether a noted set is a subset of these premises with one more. None is a subset of them
    // without it.
    pub(crate) fn covers_with(&self, before: &PremiseSet, premise: u16) -> bool
        requires premise { premise < most_premises }
        requires before { covers self.now before.now ≡ false }
        ensures { result ≡ covers self.now (insert before.now premise) }
    {
        if self.pairs.covers_with(before, premise) {
            return true;
        }
        let mut premises = *before;
        premises.insert(premise);
        self.family.covers(&premises) || self.products.covers(&premises)
    }

    // Whether each combination of the groups from this place on, with what is believed, is covered
    // by sets that were noted together. False says nothing.
    pub(crate) fn covers_each(&self, believed: &PremiseSet, groups: &Groups, place: usize) -> bool
        ensures { result ≡ true → All (λ w. covers self.now w ≡ true)
            (worldviews_beside believed.now (drop place (groups_of groups.now))) }
    {
        self.products.covers_each(believed, groups, place)
    }
}

// The two premises of the set, the lesser one first, if it has exactly two.
fn two_of(premises: &PremiseSet) -> Option<(u16, u16)>
    ensures same { IfSome result (λ two. pair two.0 two.1 ≡ premises.now) }
    ensures rise { IfSome result (λ two. two.0 < two.1) }
    ensures in_range { IfSome result (λ two. two.1 < most_premises) }
{
    let mut numbers = premises.numbers();
    let lesser = numbers.next()?;
    let greater = numbers.next()?;
    match numbers.next() {
        Some(_) => None,
        None => Some((lesser, greater)),
    }
}
