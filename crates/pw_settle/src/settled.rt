//! The values of cells in a worldview.
ghost use Rattle.std.specs.Prelude.{◌≡◌, ◌<◌, IfOk, IfSome, length};
ghost use Rattle.std.specs.FinSet.{is_subset};
ghost use Rattle.pw_settle.specs.Settled.{info_at, support_at};

use crate::known::Known;
use pw_cells::NarrowFact;
use pw_facts::Fact;
use pw_info::Info;
use pw_premises::PremiseSet;
use std::alloc::{AllocError, Allocator, Global};
use std::marker::Model;

/// The value of each cell that a network had, in the worldview in which it was settled.
#[derive(Drop)]
pub struct Settled<A: Allocator = Global> {
    pub(crate) known: Known<A>,
    pub(crate) worldview: PremiseSet,
    // The number of instances that the network had then.
    pub(crate) instances: usize,
    pub(crate) calls: u128,
    // It marks what the store kept when they were found.
    pub(crate) mark: u64,
}

impl<A: Allocator> Model for Settled<A> {
    ghost use Rattle.pw_info.specs.contracts.info.Info as informations;
    ghost use Rattle.pw_settle.specs.Settled.{Settled};
    ghost use Rattle.pw_settle.specs.inside.Known.{settled_code};
    ghost use Rattle.std.specs.Prelude.{◌≡◌, length};

    ghost Value = { Settled };

    ghost coded = { settled_code informations.the_row.coded };

    ghost view = { λ a. record {
      infos = a.known.infos.items;
      supports = a.known.supports;
      worldview = a.worldview;
      instances = a.instances;
      calls = a.calls;
      mark = a.mark;
    } };

    ghost invariant = { λ a. length a.known.supports ≡ length a.known.infos.items };
}

impl<A: Allocator> Settled<A> {
    /// The value of the cell, which the network had, with premises that it rests on.
    pub fn value(&self, cell: u32) -> Fact
        requires { cell < length self.now.infos }
        ensures info { result.info ≡ info_at self.now.infos cell }
        ensures support { result.support ≡ support_at self.now.supports cell }
    {
        Fact {
            info: self.known.infos[cell as usize],
            support: self.known.supports.get(cell as usize),
        }
    }

    /// The information about the cell, which the network had.
    pub fn info(&self, cell: u32) -> Info
        requires { cell < length self.now.infos }
        ensures { result ≡ info_at self.now.infos cell }
    {
        self.known.infos[cell as usize]
    }

    // The value, if the premises of all values are below 64.
    #[inline(always)]
    pub(crate) fn narrow_value(&self, cell: u32) -> Option<NarrowFact>
        requires { cell < length self.now.infos }
        ensures info { IfSome result (λ fact. fact.info ≡ info_at self.now.infos cell) }
        ensures support { IfSome result (λ fact. fact.support ≡ support_at self.now.supports cell) }
    {
        let support = self.known.supports.narrow()?[cell as usize];
        let info = self.known.infos[cell as usize];
        Some(NarrowFact { info, support })
    }

    // Whether the value of the cell rests on premises of the worldview alone.
    pub(crate) fn rests_within(&self, cell: u32, worldview: &PremiseSet) -> bool
        requires { cell < length self.now.infos }
        ensures { result ≡ is_subset (support_at self.now.supports cell) worldview.now }
    {
        self.known.supports.is_within(cell as usize, worldview)
    }

    // The information about each cell, in the order of the cells.
    pub(crate) fn infos(&self) -> &[Info]
        ensures { result.now ≡ self.now.infos }
    {
        &self.known.infos
    }

    /// The number of cells that have a value: those that the network had.
    pub fn cells(&self) -> usize
        ensures { result ≡ length self.now.infos }
    {
        self.known.infos.len()
    }

    /// The worldview in which these are the values.
    pub fn worldview(&self) -> &PremiseSet
        ensures { result.now ≡ self.now.worldview }
    {
        &self.worldview
    }

    /// The number of procedure calls made to find them.
    pub fn calls(&self) -> u128
        ensures { result ≡ self.now.calls }
    {
        self.calls
    }
}

impl<A: Allocator + Copy> Settled<A> {
    // The values, to go on from. Fails only when out of memory.
    pub(crate) fn known(&self, alloc: A) -> Result<Known<A>, AllocError>
        ensures infos { IfOk result (λ known. known.infos.items ≡ self.now.infos) }
        ensures supports { IfOk result (λ known. known.supports ≡ self.now.supports) }
    {
        self.known.copied(alloc)
    }
}
