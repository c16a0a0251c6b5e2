//! A list of premises for each cell, in one width or the other.

ghost use Rattle.std.specs.Prelude.{◌≡◌, ◌<◌, ◌++◌, ◌∷◌, [], length, set, IfOk, IfSome, OnOk, OnErr, take};
ghost use Rattle.std.specs.FinSet.{is_subset, union};
ghost use Rattle.pw_settle.specs.Settled.{support_at};

use pw_premises::{NarrowSet, PremiseSet};
use std::alloc::{AllocError, Allocator};
use std::marker::Model;

// The premises that the information about each cell rests on, in the order of the cells. As long as
// no premise from 64 on came, each takes one word.
#[derive(Drop)]
pub(crate) struct SupportList<A: Allocator> {
    lists: Widths<A>,
}

// The premises of the cells, in one width or the other.
#[derive(Drop)]
enum Widths<A: Allocator> {
    Narrow(Vec<NarrowSet, A>),
    Wide(Vec<PremiseSet, A>),
}

impl<A: Allocator> Model for SupportList<A> {
    ghost use Rattle.std.specs.Prelude.{List};
    ghost use Rattle.std.specs.Coded.{coded_list, coded_ℕ};
    ghost use Rattle.std.specs.FinSet as sets;
    ghost use Rattle.pw_premises.specs.Premises.{Premises};
    ghost use Rattle.pw_settle.specs.inside.SupportLists.{supports_in};

    ghost Value = { List Premises };

    ghost coded = { coded_list (sets.code coded_ℕ) };

    ghost view = { λ a. supports_in a.lists };
}

impl<A: Allocator + Copy> SupportList<A> {
    // No supports yet, with room for those of this many cells. Fails only when out of memory.
    pub(crate) fn with_capacity(alloc: A, count: usize) -> Result<SupportList<A>, AllocError>
        ensures { IfOk result (λ list. list ≡ []) }
    {
        Ok(SupportList {
            lists: Widths::Narrow(Vec::with_capacity(alloc, count)?),
        })
    }

    // The same premises. Fails only when out of memory.
    pub(crate) fn copied(&self, alloc: A) -> Result<SupportList<A>, AllocError>
        ensures { IfOk result (λ list. list ≡ self.now) }
    {
        let lists = match &self.lists {
            Widths::Narrow(list) => Widths::Narrow(copied(alloc, list.as_slice())?),
            Widths::Wide(list) => Widths::Wide(copied(alloc, list.as_slice())?),
        };
        Ok(SupportList { lists })
    }

    // Appends the premises of one cell more. If memory is refused, nothing changes.
    #[inline(always)]
    pub(crate) fn push(&mut self, support: PremiseSet) -> Result<(), AllocError>
        ensures ok { OnOk result (self.new ≡ self.old ++ support ∷ []) }
        ensures err { OnErr result (self.new ≡ self.old) }
    {
        match &mut self.lists {
            Widths::Narrow(list) => match NarrowSet::of(&support) {
                Some(narrow) => list.push(narrow)?,
                None => {
                    let mut wide = widened(*list.allocator(), list.as_slice(), list.capacity())?;
                    wide.push(support)?;
                    self.lists = Widths::Wide(wide);
                }
            },
            Widths::Wide(list) => list.push(support)?,
        }
        Ok(())
    }

    // Appends premises below 64 of one cell more. If memory is refused, nothing changes.
    #[inline(always)]
    pub(crate) fn push_narrow(&mut self, support: NarrowSet) -> Result<(), AllocError>
        ensures ok { OnOk result (self.new ≡ self.old ++ support ∷ []) }
        ensures err { OnErr result (self.new ≡ self.old) }
    {
        match &mut self.lists {
            Widths::Narrow(list) => list.push(support)?,
            Widths::Wide(list) => list.push(support.widen())?,
        }
        Ok(())
    }

    // Puts these premises in place of those of a cell. If memory is refused, nothing changes.
    #[inline(always)]
    pub(crate) fn replace(&mut self, place: usize, support: PremiseSet) -> Result<(), AllocError>
        requires { place < length self.old }
        ensures ok { OnOk result (self.new ≡ set self.old place support) }
        ensures err { OnErr result (self.new ≡ self.old) }
    {
        match &mut self.lists {
            Widths::Narrow(list) => match NarrowSet::of(&support) {
                Some(narrow) => list[place] = narrow,
                None => {
                    let mut wide = widened(*list.allocator(), list.as_slice(), list.capacity())?;
                    wide[place] = support;
                    self.lists = Widths::Wide(wide);
                }
            },
            Widths::Wide(list) => list[place] = support,
        }
        Ok(())
    }
}

impl<A: Allocator> SupportList<A> {
    // Drops the premises of all but the first cells, as many as this.
    pub(crate) fn truncate(&mut self, count: usize)
        ensures { self.new ≡ take count self.old }
    {
        match &mut self.lists {
            Widths::Narrow(list) => list.truncate(count),
            Widths::Wide(list) => list.truncate(count),
        }
    }

    // The premises of the cells, if each list takes one word.
    #[inline(always)]
    pub(crate) fn narrow(&self) -> Option<&[NarrowSet]>
        ensures { IfSome result (λ list. list.now ≡ self.now) }
    {
        match &self.lists {
            Widths::Narrow(list) => Some(list.as_slice()),
            Widths::Wide(_) => None,
        }
    }

    // Puts these premises, which are below 64, in place of those of a cell.
    #[inline(always)]
    pub(crate) fn put_narrow(&mut self, place: usize, support: NarrowSet)
        requires { place < length self.old }
        ensures { self.new ≡ set self.old place support }
    {
        match &mut self.lists {
            Widths::Narrow(list) => list[place] = support,
            Widths::Wide(list) => list[place] = support.widen(),
        }
    }

    // Adds these premises, which are below 64, to those of a cell.
    #[inline(always)]
    pub(crate) fn join_narrow(&mut self, place: usize, support: NarrowSet)
        requires { place < length self.old }
        ensures { self.new ≡ set self.old place (union (support_at self.old place) support) }
    {
        match &mut self.lists {
            Widths::Narrow(list) => list[place] = list[place].join(support),
            Widths::Wide(list) => list[place] = list[place].join(support.widen()),
        }
    }

    // The premises of the cell at this place.
    #[inline(always)]
    pub(crate) fn get(&self, place: usize) -> PremiseSet
        requires { place < length self.now }
        ensures { result ≡ support_at self.now place }
    {
        match &self.lists {
            Widths::Narrow(list) => list[place].widen(),
            Widths::Wide(list) => list[place],
        }
    }

    // Whether the premises of the cell at this place are all in the worldview.
    #[inline(always)]
    pub(crate) fn is_within(&self, place: usize, worldview: &PremiseSet) -> bool
        requires { place < length self.now }
        ensures { result ≡ is_subset (support_at self.now place) worldview.now }
    {
        match &self.lists {
            Widths::Narrow(list) => list[place].is_within(worldview),
            Widths::Wide(list) => list[place].is_subset(worldview),
        }
    }
}

// The same items, in a list of their own. Fails only when out of memory.
pub(crate) fn copied<T: Copy, A: Allocator>(alloc: A, items: &[T]) -> Result<Vec<T, A>, AllocError>
    ensures { IfOk result (λ copy. copy.items ≡ items.now) }
{
    let mut copy = Vec::with_capacity(alloc, items.len())?;
    copy.extend_from_slice(items)?;
    Ok(copy)
}

// The same premises, in sets of any premises, with room for this many. Fails only when out of memory.
#[cold]
#[inline(never)]
fn widened<A: Allocator>(
    alloc: A,
    list: &[NarrowSet],
    room: usize,
) -> Result<Vec<PremiseSet, A>, AllocError>
    ensures { IfOk result (λ wide. wide.items ≡ list.now) }
{
    let mut wide = Vec::with_capacity(alloc, room)?;
    for support in list {
        wide.push(support.widen())?;
    }
    Ok(wide)
}
