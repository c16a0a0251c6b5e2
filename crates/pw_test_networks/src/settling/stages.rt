//! Settlings in stages. Each stage attaches and tells more, and then settles a worldview from the
//! values that the stage before found.

ghost use Rattle.std.specs.Prelude.{◌≡◌, ◌+◌, ◌≤◌, ◌++◌, IfOk, IfSome, OnOk, length, map};
ghost use Rattle.pw_cells.specs.Cells.{most_store_cells, new_cell};
ghost use Rattle.pw_network.specs.Wiring.{wiring};
ghost use Rattle.pw_network.specs.Network.{cells_in};
ghost use Rattle.pw_settle.specs.Growth.{IsFitting};
ghost use Rattle.pw_settle.specs.Sound.{IsSoundFor};
ghost use Rattle.pw_test_networks.specs.Settling.{LeavesFitting};

use super::{Matter, Shown, all_told, answer_of, is_told, settle_once, store_of, tell_each};
use crate::networks::{Attachment, named_in};
use pw_cells::CellStore;
use pw_decl::Declaration;
use pw_info::{Info, Kind};
use pw_network::Network;
use pw_premises::PremiseSet;
use pw_settle::{Settled, resettle};
use pw_testing::worlds::{OverDeclaration, over_text};
use std::alloc::{AllocError, Global};
use std::test::Fail;

/// How many of the attachments and of the tells of a matter have come at a stage, and the worldview
/// to settle then.
#[derive(Clone, Copy)]
pub struct Stage {
    pub attached: usize,
    pub told: usize,
    pub worldview: PremiseSet,
}

impl Stage {
    /// The stage at which the first `attached` attachments and the first `told` tells have come.
    pub fn new(attached: usize, told: usize, worldview: PremiseSet) -> Stage {
        Stage {
            attached,
            told,
            worldview,
        }
    }
}

// The elements of a list from one place up to another.
fn between<T>(list: &[T], from: usize, to: usize) -> &[T] {
    let to = to.min(list.len());
    &list[from.min(to)..to]
}

impl<'a> Matter<'a> {
    /// What has come at a stage.
    pub fn until(&self, stage: &Stage) -> Matter<'a> {
        Matter {
            text: self.text,
            attachments: between(self.attachments, 0, stage.attached),
            tells: between(self.tells, 0, stage.told),
        }
    }
}

// Adds new cells of these kinds.
fn add_cells(store: &mut CellStore, kinds: &[Kind]) -> Result<(), AllocError>
    requires { length store.old.cells + length kinds.now ≤ most_store_cells }
    ensures { OnOk result (store.new.cells ≡ store.old.cells ++ map new_cell kinds.now) }
{
    store.add_cells(kinds)?;
    Ok(())
}

// Attaches a callable to declared cells, and adds its inner cells to the store.
fn attach_one(
    network: &mut Network<'_, '_>,
    store: &mut CellStore,
    attachment: &Attachment<'_>,
) -> Result<(), Fail>
    requires { IsSoundFor (wiring network.old) store.old }
    ensures sound { OnOk result (IsSoundFor (wiring network.new) store.new) }
    ensures fits { OnOk result (LeavesFitting (wiring network.old) store.old
        (wiring network.new) store.new) }
{
    let (callable, cells) = named_in(network, attachment).ok_or("wrong names")?;
    let Ok(()) = network.attach(attachment.line, callable, cells, attachment.support) else {
        return Err("not attached".into());
    };
    let kinds = network.declaration().inner_kinds_of(callable);
    add_cells(store, kinds)?;
    Ok(())
}

// Attaches callables to declared cells, and adds their inner cells to the store.
fn attach_each(
    network: &mut Network<'_, '_>,
    store: &mut CellStore,
    attachments: &[Attachment<'_>],
) -> Result<(), Fail>
    requires { IsSoundFor (wiring network.old) store.old }
    ensures sound { OnOk result (IsSoundFor (wiring network.new) store.new) }
    ensures fits { OnOk result (LeavesFitting (wiring network.old) store.old
        (wiring network.new) store.new) }
{
    for attachment in attachments {
        attach_one(network, store, attachment)?;
    }
    Ok(())
}

// Settles a worldview from the last values.
fn resettle_once(
    alloc: Global,
    last: Settled,
    network: &Network<'_, '_>,
    store: &mut CellStore,
    worldview: &PremiseSet,
) -> Result<Settled, AllocError>
    requires sound { IsSoundFor (wiring network.now) store.old }
    requires fits { IsFitting (wiring network.now) store.old last }
    ensures sound { IsSoundFor (wiring network.now) store.new }
    ensures cells { IfOk result (λ settled.
        length settled.infos ≡ cells_in (wiring network.now)) }
    ensures fits { IfOk result (IsFitting (wiring network.now) store.new) }
{
    let settled = resettle(alloc, last, network, store, worldview)?;
    Ok(settled)
}

// Settles a worldview, from the last values if there are any.
fn settle_next(
    alloc: Global,
    last: Option<Settled>,
    network: &Network<'_, '_>,
    store: &mut CellStore,
    worldview: &PremiseSet,
) -> Result<Settled, AllocError>
    requires sound { IsSoundFor (wiring network.now) store.old }
    requires fits { IfSome last (IsFitting (wiring network.now) store.old) }
    ensures sound { IsSoundFor (wiring network.now) store.new }
    ensures cells { IfOk result (λ settled.
        length settled.infos ≡ cells_in (wiring network.now)) }
    ensures fits { IfOk result (IsFitting (wiring network.now) store.new) }
{
    match last {
        Some(last) => resettle_once(alloc, last, network, store, worldview),
        None => settle_once(alloc, network, store, worldview),
    }
}

// Settlings in stages over one network and one store.
#[derive(Drop)]
struct Staged<'a> {
    alloc: Global,
    matter: Matter<'a>,
    stages: &'a [Stage],
}

impl Staged<'_> {
    // Attaches and tells what comes after one stage, up to another.
    fn come(
        &self,
        network: &mut Network<'_, '_>,
        store: &mut CellStore,
        before: &Stage,
        stage: &Stage,
    ) -> Result<(), Fail>
        requires { IsSoundFor (wiring network.old) store.old }
        ensures sound { OnOk result (IsSoundFor (wiring network.new) store.new) }
        ensures fits { OnOk result (LeavesFitting (wiring network.old) store.old
            (wiring network.new) store.new) }
    {
        let attachments = between(self.matter.attachments, before.attached, stage.attached);
        attach_each(network, store, attachments)?;
        let tells = between(self.matter.tells, before.told, stage.told);
        tell_each(network, store, tells)?;
        Ok(())
    }

    // Settles the worldview of a stage, from the last values if there are any, and shows what it
    // comes to.
    fn settle_stage(
        &self,
        last: Option<Settled>,
        network: &Network<'_, '_>,
        store: &mut CellStore,
        worldview: &PremiseSet,
        shown: &mut Shown,
    ) -> Result<Settled, AllocError>
        requires sound { IsSoundFor (wiring network.now) store.old }
        requires fits { IfSome last (IsFitting (wiring network.now) store.old) }
        ensures sound { OnOk result (IsSoundFor (wiring network.now) store.new) }
        ensures fits { IfOk result (IsFitting (wiring network.now) store.new) }
    {
        let seen = [*worldview, PremiseSet::empty(), PremiseSet::first(5)];
        let before = all_told(self.alloc, store, &seen)?;
        let settled = settle_next(self.alloc, last, network, store, worldview)?;
        self.show(network, store, &seen, &before, &settled, shown)?;
        Ok(settled)
    }

    // Shows what a settling came to, and whether the told facts are as they were before it.
    fn show(
        &self,
        network: &Network<'_, '_>,
        store: &CellStore,
        seen: &[PremiseSet],
        before: &[Info],
        settled: &Settled,
        shown: &mut Shown,
    ) -> Result<(), AllocError>
        requires { length settled.now.infos ≡ cells_in (wiring network.now) }
    {
        if !is_told(self.alloc, store, seen, before)? {
            shown.is_told_the_same = false;
        }
        shown
            .answers
            .push(answer_of(self.alloc, network, settled)?)?;
        Ok(())
    }

    // Goes through the stages, over a network to which nothing is attached yet and a store of its
    // cells.
    fn settle_all(
        &self,
        network: &mut Network<'_, '_>,
        store: &mut CellStore,
    ) -> Result<Shown, Fail>
        requires { IsSoundFor (wiring network.old) store.old }
    {
        let mut shown = Shown {
            answers: Vec::new(self.alloc),
            kept: Vec::new(self.alloc),
            is_told_the_same: true,
        };
        self.settle_each(network, store, &mut shown)?;
        Ok(shown)
    }

    // The same, for an owner of what is shown.
    fn settle_each(
        &self,
        network: &mut Network<'_, '_>,
        store: &mut CellStore,
        shown: &mut Shown,
    ) -> Result<(), Fail>
        requires { IsSoundFor (wiring network.old) store.old }
    {
        let mut before = Stage::new(0, 0, PremiseSet::empty());
        let mut last = None;
        for stage in self.stages {
            self.come(network, store, &before, stage)?;
            let settled = self.settle_stage(last, network, store, &stage.worldview, shown)?;
            last = Some(settled);
            before = *stage;
        }
        Ok(())
    }
}

// Makes the network and the store, and goes through the stages.
fn settle_over(task: &Staged<'_>, declaration: &Declaration<'_>) -> Result<Shown, Fail> {
    let mut network = Network::new(task.alloc, declaration)?;
    let mut store = store_of(task.alloc, &network)?;
    task.settle_all(&mut network, &mut store)
}

impl OverDeclaration<Global> for Staged<'_> {
    type Answer = Result<Shown, Fail>;

    fn over(self, declaration: &Declaration<'_>) -> Result<Shown, Fail> {
        settle_over(&self, declaration)
    }
}

/// Settles the worldviews of these stages one after another, over a network and a store to which
/// the matter comes in stages. Each settling after the first goes on from the values of the one
/// before.
pub fn settled_in_stages(
    alloc: Global,
    matter: Matter<'_>,
    stages: &[Stage],
) -> Result<Shown, Fail> {
    let task = Staged {
        alloc,
        matter,
        stages,
    };
    over_text(alloc, alloc, matter.text, task)?
}
