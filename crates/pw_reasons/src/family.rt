//! Families of sets of premises.

ghost use Rattle.std.specs.Prelude.{◌≡◌, ◌∷◌, ◌<◌, [], ℕ, true, false};
ghost use Rattle.std.specs.Prelude.{Contains, IfNone, IfOk, IfSome, OnErr, OnOk};
ghost use Rattle.std.specs.FinSet.{contains, insert, is_subset};
ghost use Rattle.pw_premises.specs.Premises.{most_premises};
ghost use Rattle.pw_reasons.specs.Nogood.{covers};
ghost use Rattle.pw_reasons.specs.inside.Families.{HasOneMore, joined_with, sets_of};

use pw_premises::PremiseSet;
use std::alloc::{AllocError, Allocator};

// A family of sets of premises: a tree, so that a search passes few of many sets. Sets that have the
// same premises along a path share its branches.
#[cycle(family)]
#[derive(Drop)]
pub(crate) enum Family<A: Allocator> {
    // No set.
    Nothing,
    // The set of no premise, alone.
    Nil,
    // The sets of a branch.
    Split(Box<Branch<A>, A>),
}

// The sets that have a premise, kept without it, and the sets that lack it. A set is added where its
// path ends, so no premise comes twice on a path, and no path is longer than the number of premises.
#[cycle(family)]
#[derive(Drop)]
pub(crate) struct Branch<A: Allocator> {
    premise: u16,
    with: Family<A>,
    without: Family<A>,
}

impl<A: Allocator + Copy> Family<A> {
    // A set of the family that is a subset of these premises, if there is one.
    pub(crate) fn within(&self, premises: &PremiseSet) -> Option<PremiseSet>
        ensures some { IfSome result (λ set. Contains (sets_of self.now) set
            × (is_subset set premises.now ≡ true)) }
        ensures none { IfNone result (covers (sets_of self.now) premises.now ≡ false) }
    {
        // The proof needs the numbers: they show that each is below 512.
        let _numbers = premises.numbers();
        let mut found = PremiseSet::empty();
        if self.find(premises, &mut found) {
            Some(found)
        } else {
            None
        }
    }

    // Whether a set of the family is a subset of these premises; then `found` is one. (As a result
    // the set would take room, and be cleared, at each branch.)
    fn find(&self, premises: &PremiseSet, found: &mut PremiseSet) -> bool
        requires in_range { (q : ℕ) → contains premises.now q ≡ true → q < most_premises }
        ensures some { result ≡ true → Contains (sets_of self.now) found.new
            × (is_subset found.new premises.now ≡ true) }
        ensures none { result ≡ false → covers (sets_of self.now) premises.now ≡ false }
    {
        match self {
            Family::Nothing => false,
            Family::Nil => {
                *found = PremiseSet::empty();
                true
            }
            Family::Split(branch) => {
                if premises.contains(branch.premise) && branch.with.find(premises, found) {
                    found.insert(branch.premise);
                    return true;
                }
                branch.without.find(premises, found)
            }
        }
    }

    // Whether a set of the family is a subset of these premises.
    pub(crate) fn covers(&self, premises: &PremiseSet) -> bool
        ensures { result ≡ covers (sets_of self.now) premises.now }
    {
        match self {
            Family::Nothing => false,
            Family::Nil => true,
            Family::Split(branch) => {
                if premises.contains(branch.premise) && branch.with.covers(premises) {
                    return true;
                }
                branch.without.covers(premises)
            }
        }
    }

    // Adds a set at the end of its path. Fails only when out of memory; then nothing changes.
    pub(crate) fn add(&mut self, alloc: A, premises: &PremiseSet) -> Result<(), AllocError>
        ensures more { OnOk result (HasOneMore (sets_of self.old) (sets_of self.new) premises.now) }
        ensures err { OnErr result (self.new ≡ self.old) }
    {
        // As in `within`.
        let _numbers = premises.numbers();
        self.add_past(alloc, premises, &mut PremiseSet::empty())
    }

    // The same where each set of the family stands for itself with the premises passed, which are
    // some of those of the new set. (A copy of the set without them would cost more at each branch.)
    fn add_past(
        &mut self,
        alloc: A,
        premises: &PremiseSet,
        passed: &mut PremiseSet,
    ) -> Result<(), AllocError>
        requires in_range { (q : ℕ) → contains premises.now q ≡ true → q < most_premises }
        requires passed { is_subset passed.old premises.now ≡ true }
        ensures more { OnOk result (HasOneMore (joined_with passed.old (sets_of self.old))
            (joined_with passed.old (sets_of self.new)) premises.now) }
        ensures err { OnErr result (self.new ≡ self.old) }
    {
        match self {
            Family::Nothing => {
                *self = chain(alloc, &premises.difference(*passed))?;
                Ok(())
            }
            Family::Nil => Ok(()),
            Family::Split(branch) => {
                if passes(premises, branch.premise, passed) {
                    branch.with.add_past(alloc, premises, passed)
                } else {
                    branch.without.add_past(alloc, premises, passed)
                }
            }
        }
    }
}

// Counts the premise among those passed, if the set has it, and answers whether it does.
#[inline(always)]
#[tactic(auto, using(crate::proofs::FamilyLemmas::one_more_passed))]
fn passes(premises: &PremiseSet, premise: u16, passed: &mut PremiseSet) -> bool
    requires in_range { (q : ℕ) → contains premises.now q ≡ true → q < most_premises }
    requires part { is_subset passed.old premises.now ≡ true }
    ensures part { is_subset passed.new premises.now ≡ true }
    ensures more { result ≡ true → passed.new ≡ insert passed.old premise }
    ensures same { result ≡ false → passed.new ≡ passed.old }
{
    let has = premises.contains(premise);
    if has {
        passed.insert(premise);
    }
    has
}

// The family of this set alone.
fn chain<A: Allocator + Copy>(alloc: A, premises: &PremiseSet) -> Result<Family<A>, AllocError>
    ensures alone { IfOk result (λ family. sets_of family ≡ premises.now ∷ []) }
{
    let mut family = Family::Nil;
    for premise in premises.numbers() {
        let branch = Box::new(
            alloc,
            Branch {
                premise,
                with: family,
                without: Family::Nothing,
            },
        )?;
        family = Family::Split(branch);
    }
    Ok(family)
}
