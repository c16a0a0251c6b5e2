//! Lists of instances: those that read a cell, those that write it, or the calls of a compound that
//! read one of its places.
ghost use Rattle.std.proofs.Props.{props};
ghost use Rattle.std.specs.Prelude.{◌≡◌, ◌+◌, ◌<◌, ◌≤◌, ◌++◌, ◌∷◌, [], drop, length, map};
ghost use Rattle.std.specs.Prelude.{slice_set};
ghost use Rattle.std.specs.Prelude.{IfOk, OnOk, nat_eq, vec_len, vec_capacity};
ghost use Rattle.std.specs.List.{list_any};
ghost use Rattle.pw_network.specs.inside.Lists.{AddsNumber, AddsNumberTo, AreLinked, IsWalk};
ghost use Rattle.pw_network.specs.inside.Lists.{listed_by, next_of, no_place, numbers_for};

use crate::instance_numbers::InstanceNumbers;
use std::alloc::{AllocError, Allocator, Global};

#[derive(Clone, Copy, Debug)]
pub(crate) struct Link {
    // The number of its list.
    pub(crate) list: u32,
    // The number of the instance.
    pub(crate) number: u32,
    // The place of the next link of the list.
    pub(crate) next: u32,
}

// The places of the first and the last link of a list. They are past the end if it is empty.
#[derive(Clone, Copy, Debug)]
pub(crate) struct Ends {
    pub(crate) first: u32,
    pub(crate) last: u32,
}

// Means no link: no table has a link at this place. No list has this number.
const NONE: u32 = u32::MAX;

// Lists of instances by number, each in the order in which they were appended. All lists are in one
// table, so room in the table is room for any of them. A table is so short that a place takes 32
// bits.
#[derive(Drop)]
pub(crate) struct InstanceLists<A: Allocator = Global> {
    links: Vec<Link, A>,
    ends: Vec<Ends, A>,
    ghost few: { vec_len links ≤ no_place },
    ghost few_lists: { vec_len ends ≤ no_place },
    ghost linked: { AreLinked (map listed_by links.items) (map next_of links.items) ends.items } by { Prim.hlevel props },
}

impl<A: Allocator + Copy> InstanceLists<A> {
    // This many empty lists. Fails only when out of memory.
    pub(crate) fn new(alloc: A, count: usize) -> Result<InstanceLists<A>, AllocError>
        requires few { count ≤ no_place }
        ensures links { IfOk result (λ lists. lists.links.items ≡ []) }
        ensures lists { IfOk result (λ lists. vec_len lists.ends ≡ count) }
    {
        let none = Ends {
            first: NONE,
            last: NONE,
        };
        Ok(InstanceLists {
            links: Vec::new(alloc),
            ends: vec![in alloc; none; count]?,
        })
    }

    // The number of lists.
    #[inline(always)]
    pub(crate) fn len(&self) -> usize
        ensures { result ≡ vec_len self.now.ends }
    {
        self.ends.len()
    }

    // Makes room for this many more lists and links. Fails only when out of memory; what would not
    // have a number or a place of 32 bits counts as that. The lists are unchanged.
    pub(crate) fn reserve(&mut self, lists: usize, links: usize) -> Result<(), AllocError>
        ensures links { self.new.links.items ≡ self.old.links.items }
        ensures lists { vec_len self.new.ends ≡ vec_len self.old.ends }
        ensures room_for_links { OnOk result (vec_len self.new.links + links ≤ vec_capacity
            self.new.links) }
        ensures few_links { OnOk result (vec_len self.new.links + links ≤ no_place) }
        ensures room_for_lists { OnOk result (vec_len self.new.ends + lists ≤ vec_capacity
            self.new.ends) }
        ensures few_lists { OnOk result (vec_len self.new.ends + lists ≤ no_place) }
    {
        reserve_below(&mut self.links, links, NONE)?;
        reserve_below(&mut self.ends, lists, NONE)
    }

    // Adds `count` empty lists.
    pub(crate) fn add(&mut self, count: usize)
        requires room { vec_len self.old.ends + count ≤ vec_capacity self.old.ends }
        requires few { vec_len self.old.ends + count ≤ no_place }
        ensures links { self.new.links ≡ self.old.links }
        ensures lists { vec_len self.new.ends ≡ vec_len self.old.ends + count }
    {
        let none = Ends {
            first: NONE,
            last: NONE,
        };
        let _ = self.ends.resize(self.ends.len() + count, none);
    }

    // Appends an instance to the list of each of these cells below `count`, only once if a cell is
    // named twice. The list of cell 0 has the number `base`.
    #[inline(always)]
    pub(crate) fn append(&mut self, number: u32, cells: &[u32], base: u32, count: u32)
        requires here { base + count ≤ vec_len self.old.ends }
        requires room { vec_len self.old.links + length cells.now ≤ vec_capacity self.old.links }
        requires few { vec_len self.old.links + length cells.now ≤ no_place }
        ensures added { AddsNumber base count cells.now number (map listed_by
            self.old.links.items) (map listed_by self.new.links.items) }
        ensures lists { vec_len self.new.ends ≡ vec_len self.old.ends }
        ensures links { vec_len self.new.links ≤ vec_len self.old.links + length cells.now }
        ensures room { vec_capacity self.old.links ≤ vec_capacity self.new.links }
    {
        for place in 0..cells.len() {
            let cell = cells[place];
            if cell >= count {
                continue;
            }
            if has(&cells[..place], cell) {
                continue;
            }
            self.link(number, base + cell);
        }
    }

    // Appends an instance to a list, if there is one of this number.
    #[inline(always)]
    pub(crate) fn append_to(&mut self, number: u32, list: u32)
        requires room { vec_len self.old.links < vec_capacity self.old.links }
        requires few { vec_len self.old.links < no_place }
        ensures added { AddsNumberTo (vec_len self.old.ends) list number (map listed_by
            self.old.links.items) (map listed_by self.new.links.items) }
        ensures lists { vec_len self.new.ends ≡ vec_len self.old.ends }
        ensures links { vec_len self.new.links ≤ vec_len self.old.links + 1 }
        ensures room { vec_capacity self.old.links ≤ vec_capacity self.new.links }
    {
        if (list as usize) < self.ends.len() {
            self.link(number, list);
        }
    }

    // Appends an instance to a list.
    #[inline(always)]
    fn link(&mut self, number: u32, list: u32)
        requires here { list < vec_len self.old.ends }
        requires room { vec_len self.old.links < vec_capacity self.old.links }
        requires few { vec_len self.old.links < no_place }
        ensures listed { map listed_by self.new.links.items ≡ map listed_by
            self.old.links.items ++ record { list = list; number = number } ∷ [] }
        ensures lists { vec_len self.new.ends ≡ vec_len self.old.ends }
        ensures links { vec_len self.new.links ≡ vec_len self.old.links + 1 }
        ensures room { vec_capacity self.old.links ≤ vec_capacity self.new.links }
    {
        let at = self.links.len() as u32;
        let ends = self.ends[list as usize];
        lead(&mut self.links, ends.last as usize, at);
        self.ends[list as usize] = Ends {
            first: ends.first.min(at),
            last: at,
        };
        self.links.push_reserved(Link {
            list,
            number,
            next: NONE,
        });
    }

    // The instances of a list, in the order in which they were appended. They count from the instance
    // of number `first`. None if there is no list of this number.
    pub(crate) fn numbers(&self, list: u32, first: u32) -> InstanceNumbers<'_>
        ensures { result ≡ map (λ n. first + n) (numbers_for list (map listed_by
            self.now.links.items)) }
    {
        let at = self.first(list);
        InstanceNumbers::new(&self.links, list, at, first)
    }

    // The place of the first link of a list.
    fn first(&self, list: u32) -> u32
        ensures walk { IsWalk (map listed_by self.now.links.items) (map next_of
            self.now.links.items) list result }
        ensures all { numbers_for list (drop result (map listed_by self.now.links.items))
            ≡ numbers_for list (map listed_by self.now.links.items) }
    {
        if list as usize >= self.ends.len() {
            return NONE;
        }
        self.ends[list as usize].first
    }
}

// Makes room for this many more items. Fails only when out of memory; more than `most` items in all count
// as that. The items are unchanged.
pub(crate) fn reserve_below<T, A: Allocator>(
    list: &mut Vec<T, A>,
    count: usize,
    most: u32,
) -> Result<(), AllocError>
    ensures items { list.new.items ≡ list.old.items }
    ensures len { vec_len list.new ≡ vec_len list.old }
    ensures room { OnOk result (vec_len list.new + count ≤ vec_capacity list.new) }
    ensures few { OnOk result (vec_len list.new + count ≤ most) }
{
    let most = most as usize;
    if count > most || list.len() > most - count {
        return Err(AllocError);
    }
    list.reserve(count)
}

// Whether the cell is one of these.
pub(crate) fn has(cells: &[u32], cell: u32) -> bool
    ensures { result ≡ list_any (nat_eq cell) cells.now }
{
    cells.iter().any(|other| cell == *other)
}

// Sets the next place of the link at a place, if there is a link at that place.
fn lead<A: Allocator>(links: &mut Vec<Link, A>, place: usize, next: u32)
    ensures listed { map listed_by links.new.items ≡ map listed_by links.old.items }
    ensures nexts { map next_of links.new.items ≡ slice_set (map next_of links.old.items) place next }
    ensures len { vec_len links.new ≡ vec_len links.old }
    ensures room { vec_capacity links.new ≡ vec_capacity links.old }
{
    if place < links.len() {
        let link = links[place];
        links[place] = Link {
            list: link.list,
            number: link.number,
            next,
        };
    }
}
