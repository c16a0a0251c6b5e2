//! The instances that read a cell, or that write it, one after another.
ghost use Rattle.std.specs.Prelude.{◌≡◌, ◌+◌, [], drop, map};
ghost use Rattle.std.specs.Iterator.{YieldsFirst, item_count};
ghost use Rattle.pw_network.specs.inside.Lists.{IsWalk, next_of, numbers_for, listed_by};

use crate::instance_lists::Link;
use std::marker::Model;

/// The remaining numbers of the instances that read a cell, or that write it, in rising order.
#[derive(Drop)]
pub struct InstanceNumbers<'n> {
    links: &'n [Link],
    list: u32,
    // The place of the next link of the list: past their end if none is left.
    at: u32,
    // The number of the first instance, from which the links count.
    first: u32,
}

impl<'n> Model for InstanceNumbers<'n> {
    ghost use Rattle.std.specs.Prelude.{ℕ, ◌+◌, List, drop, map};

    ghost Value = { List ℕ };

    ghost use Rattle.pw_network.specs.inside.Lists.{IsWalk, next_of, numbers_for, listed_by};

    ghost view = { λ a. map (λ n. a.first + n) (numbers_for a.list (drop a.at (map listed_by a.links.now))) };

    ghost invariant = { λ a. IsWalk (map listed_by a.links.now) (map next_of a.links.now) a.list a.at };
}

impl<'n> InstanceNumbers<'n> {
    // No numbers.
    pub(crate) fn none() -> InstanceNumbers<'n>
        ensures { result ≡ [] }
    {
        InstanceNumbers::new(&[], 0, 0, 0)
    }

    // The numbers of the instances of a list, from this place on. It is the place of one of them, if
    // any is left. They count from the instance of number `first`.
    pub(crate) fn new(links: &'n [Link], list: u32, at: u32, first: u32) -> InstanceNumbers<'n>
        requires { IsWalk (map listed_by links.now) (map next_of links.now) list at }
        ensures { result ≡ map (λ n. first + n) (numbers_for list (drop at (map listed_by
            links.now))) }
    {
        InstanceNumbers {
            links,
            list,
            at,
            first,
        }
    }
}

impl Iterator for InstanceNumbers<'_> {
    type Item = usize;

    ghost next_gives = { YieldsFirst (λ left. left) };

    ghost remaining = { item_count (λ left. left) };

    fn next(&mut self) -> Option<usize> {
        if (self.at as usize) < self.links.len() {
            let link = self.links[self.at as usize];
            self.at = link.next;
            Some(self.first as usize + link.number as usize)
        } else {
            None
        }
    }
}
