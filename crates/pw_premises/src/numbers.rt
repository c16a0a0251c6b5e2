//! The numbers of a set of premises, one after another.

ghost use Rattle.std.specs.Iterator.{YieldsFirst, YieldsLast, item_count};

use crate::premise_set::PremiseSet;
use std::marker::Model;

/// The remaining numbers of a set, in rising order, or in falling order from the back.
#[derive(Clone, Debug, Drop)]
pub struct Numbers {
    pub(crate) left: PremiseSet,
}

impl Model for Numbers {
    ghost use Rattle.std.specs.Prelude.{ℕ, List};
    ghost use Rattle.pw_premises.specs.Premises.{numbers_of};

    ghost Value = { List ℕ };

    ghost view = { λ a. numbers_of a.left };
}

impl Iterator for Numbers {
    type Item = u16;

    ghost next_gives = { YieldsFirst (λ left. left) };

    ghost remaining = { item_count (λ left. left) };

    #[tactic(auto, using(crate::proofs::NumberLists::first_of_numbers, crate::proofs::NumberLists::numbers_of_empty))]
    fn next(&mut self) -> Option<u16> {
        let least = self.left.least()?;
        self.left = self.left.without(least);
        Some(least)
    }
}

impl DoubleEndedIterator for Numbers {
    ghost next_back_gives = { YieldsLast (λ left. left) };

    #[tactic(auto, using(crate::proofs::NumberLists::last_of_numbers, crate::proofs::NumberLists::fewer_without_last, crate::proofs::NumberLists::numbers_of_empty))]
    fn next_back(&mut self) -> Option<u16> {
        let greatest = self.left.greatest()?;
        self.left = self.left.without(greatest);
        Some(greatest)
    }
}
