//! The facts that came to be kept of the cells of a store lately.

ghost use Rattle.std.specs.Prelude.{◌≡◌, ◌⊎◌, ◌+◌, ◌++◌, ◌∷◌, ◌<◌, [], None, Some, IfSome, IfNone, IsTrue, length};
ghost use Rattle.pw_cells.specs.inside.Lately.{IsAfterArrival, IsForgotten, most_past, since_in};

use crate::arrival::Arrival;
use std::alloc::Allocator;
use std::marker::Model;

// This many facts are remembered. When there is no room for one more, all are forgotten.
const MOST: usize = 4096;

// So many facts can be forgotten, far more than ever come.
const MOST_PAST: u64 = u64::MAX - 16_384;

// The last facts that came, in their order, and the number of those that came before them.
#[derive(Drop)]
pub(crate) struct Arrivals<A: Allocator> {
    past: u64,
    list: Vec<Arrival, A>,
}

impl<A: Allocator> Model for Arrivals<A> {
    ghost use Rattle.std.specs.Prelude.{◌≤◌, ◌+◌, length, IsTrue};
    ghost use Rattle.pw_facts.specs.contracts.fact.Fact as facts;
    ghost use Rattle.pw_cells.specs.Cells.{Arrivals};
    ghost use Rattle.pw_cells.specs.inside.OneCell.{arrivals_code};
    ghost use Rattle.pw_cells.specs.inside.Lately.{most_past};

    ghost Value = { Arrivals };

    ghost coded = { arrivals_code facts.the_row.coded };

    ghost view = { λ a. record { past = a.past; list = a.list.items } };

    ghost invariant = { λ a. (length a.list.items ≤ 4096) × (a.past ≤ most_past + 4097) };
}

impl<A: Allocator + Copy> Arrivals<A> {
    // Nothing came yet. Takes no memory, and so remembers nothing.
    pub(crate) fn new(alloc: A) -> Arrivals<A>
        ensures { result ≡ record { past = 0; list = [] } }
    {
        Arrivals {
            past: 0,
            list: Vec::new(alloc),
        }
    }

    // Makes room to remember facts, unless there is. If memory is refused, none is remembered.
    #[inline(always)]
    pub(crate) fn start(&mut self)
        ensures { self.new ≡ self.old }
    {
        if self.list.capacity() == 0 {
            let _ = self.list.reserve_exact(MOST);
        }
    }

    // The number of facts that came so far.
    #[inline(always)]
    pub(crate) fn count(&self) -> u64
        ensures { result ≡ self.now.past + length self.now.list }
    {
        self.past + self.list.len() as u64
    }

    // Whether one more can be counted.
    #[inline(always)]
    pub(crate) fn can_count(&self) -> bool
        ensures { IsTrue result → self.now.past < most_past }
    {
        self.past < MOST_PAST
    }

    // A fact came. It is remembered, or forgotten with all others.
    #[inline(always)]
    pub(crate) fn note(&mut self, arrival: Arrival)
        requires { self.old.past < most_past }
        ensures { IsAfterArrival arrival self.old self.new ⊎ IsForgotten self.old self.new }
    {
        if self.list.len() < self.list.capacity() && self.list.len() < MOST {
            self.list.push_reserved(arrival);
            return;
        }
        self.forget();
    }

    // A fact came, and is forgotten with all others.
    #[inline(always)]
    pub(crate) fn forget(&mut self)
        requires { self.old.past < most_past }
        ensures { IsForgotten self.old self.new }
    {
        self.past += self.list.len() as u64 + 1;
        self.list.clear();
    }

    // Those that came after the first `count`, if all of them are remembered.
    pub(crate) fn since(&self, count: u64) -> Option<&[Arrival]>
        ensures some { IfSome result (λ list. since_in self.now count ≡ Some list.now) }
        ensures none { IfNone result (since_in self.now count ≡ None) }
    {
        if count < self.past {
            return None;
        }
        let first = (count - self.past) as usize;
        Some(&self.list[first.min(self.list.len())..])
    }
}
