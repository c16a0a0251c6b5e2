//! The numbers of the instances of batches, one after another.
ghost use Rattle.std.specs.Prelude.{◌≡◌, ◌++◌};
ghost use Rattle.std.specs.Iterator.{YieldsFirst, item_count};
ghost use Rattle.pw_network.specs.Batches.{numbers_in};

use crate::batch::{Batch, Batches};
use crate::instance_numbers::InstanceNumbers;
use std::alloc::{Allocator, Global};
use std::marker::Model;

/// The remaining numbers of the instances that read a cell, or that write it, in rising order.
#[derive(Drop)]
pub struct BatchNumbers<'n, A: Allocator = Global> {
    // Those of the batch at hand.
    numbers: InstanceNumbers<'n>,
    // The batches after it.
    batches: Batches<'n, A>,
}

impl<'n, A: Allocator> Model for BatchNumbers<'n, A> {
    ghost use Rattle.std.specs.Prelude.{ℕ, List, ◌++◌};
    ghost use Rattle.pw_network.specs.Batches.{numbers_in};

    ghost Value = { List ℕ };

    ghost view = { λ a. a.numbers ++ numbers_in a.batches };
}

impl<'n, A: Allocator> BatchNumbers<'n, A> {
    // These numbers, and after them those of the batches.
    pub(crate) fn new(numbers: InstanceNumbers<'n>, batches: Batches<'n, A>) -> BatchNumbers<'n, A>
        ensures { result ≡ numbers.entry ++ numbers_in batches.entry }
    {
        BatchNumbers { numbers, batches }
    }
}

impl<'n, A: Allocator + Copy> Iterator for BatchNumbers<'n, A> {
    type Item = usize;

    ghost next_gives = { YieldsFirst (λ left. left) };

    ghost remaining = { item_count (λ left. left) };

    fn next(&mut self) -> Option<usize> {
        loop {
            if let Some(number) = self.numbers.next() {
                return Some(number);
            }
            match self.batches.next()? {
                Batch::One(number) => return Some(number),
                Batch::Many(numbers) => self.numbers = numbers,
            }
        }
    }
}
