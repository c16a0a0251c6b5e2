//! Tests of reasons. Each makes a network, tells facts, and asks in a worldview why a cell has its
//! value. Then it asks what was noted.

mod noting;
mod rows;

ghost use Rattle.std.specs.Prelude.{◌<◌};
ghost use Rattle.pw_network.specs.Wiring.{wiring};
ghost use Rattle.pw_network.specs.Network.{cells_in};
ghost use Rattle.pw_reasons.specs.Nogood.{AreNogoods};
ghost use Rattle.pw_settle.specs.Sound.{IsSoundFor};

use crate::networks::{attach_named, cell_of};
use crate::settling::{Matter, all_told, is_told, store_told};
use pw_cells::CellStore;
use pw_decl::Declaration;
use pw_network::Network;
use pw_premises::PremiseSet;
use pw_reasons::{Nogoods, reason};
use pw_settle::settle;
use pw_testing::worlds::{OverDeclaration, over_text};
use std::alloc::{AllocError, Global};
use std::test::Fail;

/// What the question came to.
#[derive(Drop)]
pub struct Answer {
    pub reason: PremiseSet,
    /// Whether each of the sets asked for is covered afterwards.
    pub covered: Vec<bool>,
    /// Whether the told facts stayed as they were.
    pub is_told_the_same: bool,
}

// Settles the worldview, and finds the reason.
fn reason_once(
    alloc: Global,
    network: &Network<'_, '_>,
    store: &mut CellStore,
    nogoods: &mut Nogoods,
    worldview: &PremiseSet,
    cell: u32,
) -> Result<PremiseSet, AllocError>
    requires sound { IsSoundFor (wiring network.now) store.old }
    requires nogoods { AreNogoods (wiring network.now) store.old nogoods.old }
    requires cell { cell < cells_in (wiring network.now) }
{
    let settled = settle(alloc, network, store, worldview)?;
    reason(alloc, network, store, nogoods, &settled, cell)
}

/// Whether each of these sets is covered.
pub fn all_covered(
    alloc: Global,
    nogoods: &Nogoods,
    asked: &[PremiseSet],
) -> Result<Vec<bool>, AllocError> {
    let mut covered = Vec::new(alloc);
    for premises in asked {
        covered.push(nogoods.covers(premises))?;
    }
    Ok(covered)
}

// A question for the reason of a cell, and the sets asked for afterwards.
#[derive(Drop)]
struct Asking<'a> {
    alloc: Global,
    matter: Matter<'a>,
    worldview: &'a PremiseSet,
    cell: &'a str,
    asked: &'a [PremiseSet],
}

impl Asking<'_> {
    // Finds the reason, and says whether the told facts stayed as they were.
    fn reason(
        &self,
        network: &Network<'_, '_>,
        store: &mut CellStore,
        nogoods: &mut Nogoods,
        cell: u32,
    ) -> Result<(PremiseSet, bool), AllocError>
        requires sound { IsSoundFor (wiring network.now) store.old }
        requires nogoods { AreNogoods (wiring network.now) store.old nogoods.old }
        requires cell { cell < cells_in (wiring network.now) }
    {
        let (alloc, worldview) = (self.alloc, self.worldview);
        let before = all_told(alloc, store, &[*worldview])?;
        let reason = reason_once(alloc, network, store, nogoods, worldview, cell)?;
        Ok((reason, is_told(alloc, store, &[*worldview], &before)?))
    }

    // Finds the reason over this store, and sees what was noted.
    fn answer(
        &self,
        network: &Network<'_, '_>,
        store: &mut CellStore,
        cell: u32,
    ) -> Result<Answer, AllocError>
        requires sound { IsSoundFor (wiring network.now) store.old }
        requires cell { cell < cells_in (wiring network.now) }
    {
        let mut nogoods = Nogoods::new(self.alloc);
        let (reason, is_told_the_same) = self.reason(network, store, &mut nogoods, cell)?;
        Ok(Answer {
            reason,
            covered: all_covered(self.alloc, &nogoods, self.asked)?,
            is_told_the_same,
        })
    }

    // Tells the facts, and finds the reason.
    fn ask(&self, network: &Network<'_, '_>) -> Result<Answer, Fail> {
        let cell = cell_of(network, self.cell)?;
        let mut store = store_told(self.alloc, network, self.matter.tells)?;
        Ok(self.answer(network, &mut store, cell)?)
    }
}

// Makes the network, and finds the reason.
fn ask_over(task: &Asking<'_>, declaration: &Declaration<'_>) -> Result<Answer, Fail> {
    let mut network = Network::new(task.alloc, declaration)?;
    attach_named(&mut network, task.matter.attachments)?;
    task.ask(&network)
}

impl OverDeclaration<Global> for Asking<'_> {
    type Answer = Result<Answer, Fail>;

    fn over(self, declaration: &Declaration<'_>) -> Result<Answer, Fail> {
        ask_over(&self, declaration)
    }
}

/// Why the cell has its value in the worldview, and which of these sets are covered then.
pub fn reason_of(
    alloc: Global,
    matter: Matter<'_>,
    worldview: PremiseSet,
    cell: &str,
    asked: &[PremiseSet],
) -> Result<Answer, Fail> {
    let task = Asking {
        alloc,
        matter,
        worldview: &worldview,
        cell,
        asked,
    };
    over_text(alloc, alloc, matter.text, task)?
}
