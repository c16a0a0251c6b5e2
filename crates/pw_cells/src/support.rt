//! The widths in which a cell holds the supports of its facts.

ghost use Rattle.std.specs.Prelude.{◌≡◌};
ghost use Rattle.std.specs.FinSet as set;
ghost use Rattle.pw_premises.specs.Premises.{Premises};
ghost use Rattle.pw_premises.specs.PremiseSubsets.{has_same_numbers};

use pw_premises::{NarrowSet, PremiseSet};
use std::hash::Hash;

/// A set of premises, stored narrow or wide. Contracts see the same set in both widths.
pub(crate) trait Support: Copy + Eq + Hash {
    // The set of premises.
    ghost premises: { Self → Premises };
    // The support of a set, in this width.
    ghost held: { Premises → Self };
    // The set determines the support.
    ghost again: { (s : Self) → held (premises s) ≡ s };

    // No premise.
    fn empty() -> Self
        ensures { premises result ≡ set.empty };

    // Whether each premise of this support is in the other.
    fn is_subset(&self, other: &Self) -> bool
        ensures { result ≡ set.is_subset (premises self.now) (premises other.now) };

    // Whether each premise of this support is in the worldview.
    fn is_within(&self, worldview: &PremiseSet) -> bool
        ensures { result ≡ set.is_subset (premises self.now) worldview.now };

    // The premises that are in this support or in the other.
    fn join(self, other: Self) -> Self
        ensures { premises result ≡ set.union (premises self) (premises other) };

    // The same premises, in a set of any premises.
    fn widen(self) -> PremiseSet
        ensures { result ≡ premises self };

    // Supports are equal if their sets are.
    ghost same: { (s t : Self) → Self.PartialEq.eq s t ≡ has_same_numbers (premises s) (premises t) };
}

impl Support for NarrowSet {
    ghost use Rattle.std.specs.Prelude.{refl};

    ghost premises = { λ s. s };

    ghost held = { λ s. s };

    ghost again = { λ s. refl };

    #[inline(always)]
    fn empty() -> NarrowSet {
        NarrowSet::empty()
    }

    #[inline(always)]
    fn is_subset(&self, other: &NarrowSet) -> bool {
        NarrowSet::is_subset(self, other)
    }

    #[inline(always)]
    fn is_within(&self, worldview: &PremiseSet) -> bool {
        NarrowSet::is_within(self, worldview)
    }

    #[inline(always)]
    fn join(self, other: NarrowSet) -> NarrowSet {
        NarrowSet::join(self, other)
    }

    #[inline(always)]
    fn widen(self) -> PremiseSet {
        NarrowSet::widen(self)
    }

    ghost same = { λ s t. refl };
}

impl Support for PremiseSet {
    ghost use Rattle.std.specs.Prelude.{refl};

    ghost premises = { λ s. s };

    ghost held = { λ s. s };

    ghost again = { λ s. refl };

    #[inline(always)]
    fn empty() -> PremiseSet {
        PremiseSet::empty()
    }

    #[inline(always)]
    fn is_subset(&self, other: &PremiseSet) -> bool {
        PremiseSet::is_subset(self, other)
    }

    #[inline(always)]
    fn is_within(&self, worldview: &PremiseSet) -> bool {
        PremiseSet::is_subset(self, worldview)
    }

    #[inline(always)]
    fn join(self, other: PremiseSet) -> PremiseSet {
        PremiseSet::join(self, other)
    }

    #[inline(always)]
    fn widen(self) -> PremiseSet {
        self
    }

    ghost same = { λ s t. refl };
}
