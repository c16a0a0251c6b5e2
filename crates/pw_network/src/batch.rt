//! The instances that read a declared cell, or that write it, batch by batch.
ghost use Rattle.std.specs.Prelude.{◌≡◌, [], map};
ghost use Rattle.std.specs.Iterator.{YieldsFirst, item_count};
ghost use Rattle.pw_network.specs.Batches.{numbers_in};
ghost use Rattle.pw_network.specs.inside.Batches.{AreThere, batch_of};
ghost use Rattle.pw_network.specs.inside.Lists.{listed_by};

use crate::batch_numbers::BatchNumbers;
use crate::instance_lists::InstanceLists;
use crate::instance_numbers::InstanceNumbers;
use std::alloc::{Allocator, Global};
use std::marker::Model;

/// Instances of one attachment that read a cell, or that write it.
#[derive(Drop)]
pub enum Batch<'n> {
    /// The instance of this number.
    One(usize),
    /// The instances of these numbers, in rising order.
    Many(InstanceNumbers<'n>),
}

// The calls of an attachment that read one of its cells, or that write it.
#[derive(Clone, Copy, Debug)]
pub(crate) struct Calls {
    // The number of the first instance of the attachment.
    pub(crate) first: u32,
    // The number of the list of the calls.
    pub(crate) list: u32,
}

// In the list of a declared cell, a number below this is that of an instance, and from this one on that
// of `Calls`, which count from here.
pub(crate) const LEAST_CALLS: u32 = 1 << 31;

/// The remaining instances that read a declared cell, or that write it. The numbers of all of them, one
/// batch after another, are in rising order.
#[derive(Drop)]
pub struct Batches<'n, A: Allocator = Global> {
    numbers: InstanceNumbers<'n>,
    calls: &'n [Calls],
    lists: &'n InstanceLists<A>,
}

impl<'n, A: Allocator> Model for Batches<'n, A> {
    ghost use Rattle.std.specs.Prelude.{List, map};
    ghost use Rattle.pw_network.specs.declared.batch.Batch.{Batch};
    ghost use Rattle.pw_network.specs.inside.Batches.{AreThere, batch_of};
    ghost use Rattle.pw_network.specs.inside.Lists.{listed_by};

    ghost Value = { List Batch };

    ghost view = { λ a. map (batch_of a.calls.now (map listed_by a.lists.now.links.items)) a.numbers };

    ghost invariant = { λ a. AreThere a.calls.now a.numbers };
}

impl<'n, A: Allocator> Batches<'n, A> {
    // The batches of these numbers.
    #[inline(always)]
    pub(crate) fn new(
        numbers: InstanceNumbers<'n>,
        calls: &'n [Calls],
        lists: &'n InstanceLists<A>,
    ) -> Batches<'n, A>
        requires { AreThere calls.now numbers }
        ensures { result ≡ map (batch_of calls.now (map listed_by lists.now.links.items)) numbers.entry }
    {
        Batches {
            numbers,
            calls,
            lists,
        }
    }

    // No batches.
    pub(crate) fn none(lists: &'n InstanceLists<A>) -> Batches<'n, A>
        ensures { result ≡ [] }
    {
        Batches::new(InstanceNumbers::none(), &[], lists)
    }

    /// The numbers of all these instances, one batch after another.
    pub fn numbers(self) -> BatchNumbers<'n, A>
        ensures { result ≡ numbers_in self.entry }
    {
        BatchNumbers::new(InstanceNumbers::none(), self)
    }
}

impl<'n, A: Allocator + Copy> Iterator for Batches<'n, A> {
    type Item = Batch<'n>;

    ghost next_gives = { YieldsFirst (λ left. left) };

    ghost remaining = { item_count (λ left. left) };

    #[inline(always)]
    fn next(&mut self) -> Option<Batch<'n>> {
        let number = self.numbers.next()?;
        if number < LEAST_CALLS as usize {
            return Some(Batch::One(number));
        }
        let calls = self.calls[number - LEAST_CALLS as usize];
        Some(Batch::Many(self.lists.numbers(calls.list, calls.first)))
    }
}
