//! What a question settled in one worldview.
ghost use Rattle.std.specs.Prelude.{◌≡◌, ◌<◌, ◌↔◌, IsTrue, OnErr, OnOk, length, true};
ghost use Rattle.pw_info.specs.Information.{kind_of};
ghost use Rattle.pw_network.specs.Wiring.{wiring};
ghost use Rattle.pw_settle.specs.Growth.{KeepsMore, RestOnUpstreamAfter, StaysUpstreamAfter};
ghost use Rattle.pw_settle.specs.Settled.{IsSettled, info_at};
ghost use Rattle.pw_settle.specs.Sound.{IsSoundFor};
ghost use Rattle.pw_sessions.specs.Snapshot.{IsAfterTell, IsCurrent, IsSnapshotOf, SayAlready};
ghost use Rattle.pw_sessions.specs.Snapshot.{after_entry};
ghost use Rattle.pw_sessions.specs.inside.Steps.{CallsDueAgain};

use pw_cells::CellStore;
use pw_facts::Fact;
use pw_network::Network;
use pw_premises::PremiseSet;
use pw_settle::{Settled, Workspace, resettle_since};
use std::alloc::{AllocError, Allocator, Global};
use std::marker::Model;

// The values of one worldview, and whether they are known to be current.
#[derive(Drop)]
pub(crate) struct Snapshot<A: Allocator = Global> {
    pub(super) values: Settled<A>,
    pub(super) is_current: bool,
    // The number of the settling that used it last: of two snapshots, the one with the smaller number
    // is given up first.
    pub(super) last_use: u64,
}

impl<A: Allocator> Model for Snapshot<A> {
    ghost use Rattle.pw_info.specs.contracts.info.Info as informations;
    ghost use Rattle.pw_settle.specs.inside.Known.{settled_code};
    ghost use Rattle.pw_sessions.specs.Snapshot.{Snapshot};
    ghost use Rattle.pw_sessions.specs.Snapshot.{snapshot_code};

    ghost Value = { Snapshot };

    ghost coded = { snapshot_code (settled_code informations.the_row.coded) };

    ghost view = { λ a. record { values = a.values; is_current = a.is_current } };
}

impl<A: Allocator> Snapshot<A> {
    // Something was attached under these premises. If it is visible in the worldview of the values,
    // they may not be current.
    pub(super) fn note_entry(&mut self, support: &PremiseSet)
        ensures { self.new ≡ after_entry support.now self.old }
    {
        if support.is_subset(self.values.worldview()) {
            self.is_current = false;
        }
    }

    // Whether the values already say what the fact, which is of the cell's kind, shows about the
    // cell in their worldview.
    fn say_already(&self, cell: u32, fact: &Fact) -> bool
        requires there { cell < length self.now.values.infos }
        requires kind { kind_of (info_at self.now.values.infos cell) ≡ kind_of fact.now.info }
        ensures { IsTrue result ↔ SayAlready cell fact.now self.now.values }
    {
        !fact.support.is_subset(self.values.worldview())
            || self.values.value(cell).info.implies(&fact.info)
    }

    // A fact of the cell's kind was told about the cell. If the values say less than it shows, they
    // may not be current.
    pub(super) fn note_tell(&mut self, cell: u32, fact: &Fact)
        requires there { cell < length self.old.values.infos }
        requires kind { kind_of (info_at self.old.values.infos cell) ≡ kind_of fact.now.info }
        ensures { IsAfterTell cell fact.now self.old self.new }
    {
        if !self.say_already(cell, fact) {
            self.is_current = false;
        }
    }
}

impl<A: Allocator + Copy> Snapshot<A> {
    // Settles again in the worldview of the values, which are current then. Fails only when out of
    // memory; then they are not known to be, and those that were are unchanged.
    pub(super) fn settle_again(
        &mut self,
        workspace: &mut Workspace<A>,
        network: &Network<'_, '_, A>,
        store: &mut CellStore<A>,
    ) -> Result<(), AllocError>
        requires sound { IsSoundFor (wiring network.now) store.old }
        requires fits { IsSnapshotOf (wiring network.now) store.old self.old }
        ensures worldview { self.new.values.worldview ≡ self.old.values.worldview }
        ensures settled { OnOk result (IsSettled (wiring network.now) store.old
            self.old.values.worldview self.new.values) }
        ensures known { OnOk result (self.new.is_current ≡ true) }
        ensures current { OnOk result (IsCurrent (wiring network.now) store.new self.new.values) }
        ensures due { OnOk result (CallsDueAgain (wiring network.now) store.old store.new
            self.old.values self.new.values) }
        ensures none { OnOk result (IsCurrent (wiring network.now) store.old self.old.values
            → self.new.values.calls ≡ 0) }
        ensures unchanged { OnErr result (IsCurrent (wiring network.now) store.old self.old.values
            → self.new.values ≡ self.old.values) }
        ensures fits { IsSnapshotOf (wiring network.now) store.new self.new }
        ensures grows { KeepsMore (wiring network.now) store.old store.new }
        ensures upstream { StaysUpstreamAfter (wiring network.now) self.old.values.supports store.old
            store.new }
        ensures lie { RestOnUpstreamAfter (wiring network.now) self.old.values.supports
            store.old self.new.values.supports }
    {
        let outcome = resettle_since(&mut self.values, workspace, network, store);
        self.is_current = outcome.is_ok();
        outcome
    }
}
