//! Sets of premises in as little room as they need.

ghost use Rattle.std.specs.Prelude.{◌≡◌, ◌<◌, ℕ, true, IfOk, IsOk};
ghost use Rattle.std.specs.FinSet as set;

use crate::narrow_set::NarrowSet;
use crate::premise_set::PremiseSet;
use std::alloc::{AllocError, Global};
use std::marker::Model;

/// A set of premises in as little room as it needs: one word while all its premises are below 64,
/// and otherwise a box. Contracts see it as a set of premises.
#[derive(Debug, Drop)]
pub struct CompactSet {
    width: Width,
}

// A set, in one width or the other.
#[derive(Debug, Drop)]
enum Width {
    Narrow(NarrowSet),
    Wide(Box<PremiseSet>),
}

impl Model for CompactSet {
    ghost use Rattle.std.specs.FinSet as set;
    ghost use Rattle.std.specs.Coded.{coded_ℕ};
    ghost use Rattle.pw_premises.specs.Premises.{Premises};

    ghost Value = { Premises };

    ghost coded = { set.code coded_ℕ };

    ghost use Rattle.pw_premises.specs.inside.Widths.{set_in};

    ghost view = { λ a. set_in a.width };
}

impl CompactSet {
    /// The same premises. Fails only when out of memory; takes no memory if all are below 64.
    pub fn of(alloc: Global, premises: &PremiseSet) -> Result<CompactSet, AllocError>
        ensures same { IfOk result (λ compact. compact ≡ premises.now) }
        ensures free { ((p : ℕ) → set.contains premises.now p ≡ true → p < 64) → IsOk result }
    {
        let width = match NarrowSet::of(premises) {
            Some(narrow) => Width::Narrow(narrow),
            None => Width::Wide(Box::new(alloc, *premises)?),
        };
        Ok(CompactSet { width })
    }

    /// Whether each premise of this set is in the other.
    #[inline(always)]
    pub fn is_subset(&self, other: &PremiseSet) -> bool
        ensures subset { result ≡ set.is_subset self.now other.now }
    {
        match &self.width {
            Width::Narrow(narrow) => narrow.is_within(other),
            Width::Wide(wide) => wide.is_subset(other),
        }
    }

    /// The same premises, in a set that takes no memory of its own.
    #[inline(always)]
    pub fn widen(&self) -> PremiseSet
        ensures same { result ≡ self.now }
    {
        match &self.width {
            Width::Narrow(narrow) => narrow.widen(),
            Width::Wide(wide) => **wide,
        }
    }
}
