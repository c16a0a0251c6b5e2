//! Tests of settling. Each makes a network, tells facts, and settles worldviews one after another
//! over one store.

mod calls;
mod drawing;
mod going_on;
mod growing;
mod large;
mod rounds;
mod rows;
mod since;
mod stages;

ghost use Rattle.std.specs.Prelude.{◌≡◌, ◌<◌, IfOk, OnOk, length};
ghost use Rattle.pw_info.specs.Information.{kind_of};
ghost use Rattle.pw_cells.specs.Cells.{kind_in_store};
ghost use Rattle.pw_network.specs.Wiring.{wiring};
ghost use Rattle.pw_network.specs.Network.{cells_in};
ghost use Rattle.pw_settle.specs.Growth.{IsFitting};
ghost use Rattle.pw_settle.specs.Sound.{IsSoundFor};
ghost use Rattle.pw_test_networks.specs.Settling.{LeavesFitting};

use crate::networks::{Attachment, attach_named, cell_of, kinds_of};
use pw_cells::CellStore;
use pw_decl::Declaration;
use pw_facts::Fact;
use pw_info::Info;
use pw_network::Network;
use pw_premises::PremiseSet;
use pw_settle::{Settled, settle};
use pw_testing::facts::{fact, is_of_kind};
use pw_testing::worlds::{OverDeclaration, over_text};
use std::alloc::{AllocError, Global};
use std::test::Fail;

/// A fact that a test tells of a declared cell, by its name.
#[derive(Clone, Copy)]
pub struct Tell<'a> {
    pub cell: &'a str,
    pub fact: Fact,
}

/// The fact that a cell of intervals lies from `lo` to `hi`, under these premises.
pub fn told<'a>(cell: &'a str, lo: i64, hi: i64, support: PremiseSet) -> Tell<'a> {
    Tell {
        cell,
        fact: fact(lo, hi, support),
    }
}

/// A declaration, what is attached to its cells, and what is told of them.
#[derive(Clone, Copy)]
pub struct Matter<'a> {
    pub text: &'a str,
    pub attachments: &'a [Attachment<'a>],
    pub tells: &'a [Tell<'a>],
}

/// What a settling answered: how often it called procedures, and the value of each cell.
#[derive(Drop)]
pub struct Answer {
    pub calls: u128,
    pub values: Vec<Fact>,
}

/// What several settlings over one store came to.
#[derive(Drop)]
pub struct Shown {
    /// What each answered.
    pub answers: Vec<Answer>,
    /// What the store keeps afterwards of the cells asked for, in the worldviews asked for.
    pub kept: Vec<Fact>,
    /// Whether the told facts stayed as they were in each of the worldviews, after each settling.
    pub is_told_the_same: bool,
}

/// A store of the network's cells.
pub fn store_of(alloc: Global, network: &Network<'_, '_>) -> Result<CellStore, Fail>
    ensures { IfOk result (λ store. IsSoundFor (wiring network.now) store) }
{
    let kinds = kinds_of(alloc, network)?;
    let mut store = CellStore::new(alloc);
    store.add_cells(&kinds)?;
    Ok(store)
}

// Tells a fact of a cell that is there.
fn tell_once(
    network: &Network<'_, '_>,
    store: &mut CellStore,
    cell: u32,
    fact: Fact,
) -> Result<(), AllocError>
    requires sound { IsSoundFor (wiring network.now) store.old }
    requires there { cell < length store.old.cells }
    requires kind { kind_of fact.info ≡ kind_in_store store.old cell }
    ensures sound { IsSoundFor (wiring network.now) store.new }
    ensures fits { LeavesFitting (wiring network.now) store.old (wiring network.now) store.new }
{
    // The network is the one that the store is for.
    let _instances = network.instances();
    store.tell(cell, fact)?;
    Ok(())
}

// Tells a fact of a declared cell.
fn tell_fact(network: &Network<'_, '_>, store: &mut CellStore, tell: &Tell<'_>) -> Result<(), Fail>
    requires { IsSoundFor (wiring network.now) store.old }
    ensures sound { OnOk result (IsSoundFor (wiring network.now) store.new) }
    ensures fits { OnOk result (LeavesFitting (wiring network.now) store.old
        (wiring network.now) store.new) }
{
    let cell = cell_of(network, tell.cell)?;
    if cell >= store.cells() || !is_of_kind(&tell.fact.info, store.kind(cell)) {
        return Err("a fact of another kind".into());
    }
    tell_once(network, store, cell, tell.fact)?;
    Ok(())
}

/// Tells facts of declared cells.
pub fn tell_each(
    network: &Network<'_, '_>,
    store: &mut CellStore,
    tells: &[Tell<'_>],
) -> Result<(), Fail>
    requires { IsSoundFor (wiring network.now) store.old }
    ensures sound { OnOk result (IsSoundFor (wiring network.now) store.new) }
    ensures fits { OnOk result (LeavesFitting (wiring network.now) store.old
        (wiring network.now) store.new) }
{
    for tell in tells {
        tell_fact(network, store, tell)?;
    }
    Ok(())
}

/// A store of the network's cells, in which these facts were told.
pub fn store_told(
    alloc: Global,
    network: &Network<'_, '_>,
    tells: &[Tell<'_>],
) -> Result<CellStore, Fail>
    ensures { IfOk result (λ store. IsSoundFor (wiring network.now) store) }
{
    let mut store = store_of(alloc, network)?;
    tell_each(network, &mut store, tells)?;
    Ok(store)
}

/// What the store is told of each cell, in one worldview after another.
pub fn all_told(
    alloc: Global,
    store: &CellStore,
    worldviews: &[PremiseSet],
) -> Result<Vec<Info>, AllocError> {
    let mut list = Vec::new(alloc);
    for worldview in worldviews {
        for cell in 0..store.cells() {
            list.push(store.told(cell, worldview))?;
        }
    }
    Ok(list)
}

/// Whether the told facts show the same as before, in these worldviews.
pub fn is_told(
    alloc: Global,
    store: &CellStore,
    worldviews: &[PremiseSet],
    before: &[Info],
) -> Result<bool, AllocError> {
    let told = all_told(alloc, store, worldviews)?;
    Ok(told.as_slice() == before)
}

// The values of all cells of the network that was settled.
fn values_of(
    alloc: Global,
    network: &Network<'_, '_>,
    settled: &Settled,
) -> Result<Vec<Fact>, AllocError>
    requires { length settled.now.infos ≡ cells_in (wiring network.now) }
{
    let mut values = Vec::new(alloc);
    for cell in 0..network.cells() {
        values.push(settled.value(cell))?;
    }
    Ok(values)
}

// Settles a worldview.
fn settle_once(
    alloc: Global,
    network: &Network<'_, '_>,
    store: &mut CellStore,
    worldview: &PremiseSet,
) -> Result<Settled, AllocError>
    requires { IsSoundFor (wiring network.now) store.old }
    ensures sound { IsSoundFor (wiring network.now) store.new }
    ensures cells { IfOk result (λ settled.
        length settled.infos ≡ cells_in (wiring network.now)) }
    ensures fits { IfOk result (IsFitting (wiring network.now) store.new) }
{
    let settled = settle(alloc, network, store, worldview)?;
    Ok(settled)
}

// What the values of a settling show.
fn answer_of(
    alloc: Global,
    network: &Network<'_, '_>,
    settled: &Settled,
) -> Result<Answer, AllocError>
    requires { length settled.now.infos ≡ cells_in (wiring network.now) }
{
    Ok(Answer {
        calls: settled.calls(),
        values: values_of(alloc, network, settled)?,
    })
}

// Settles a worldview. Answers what the values show.
fn settle_and_show(
    alloc: Global,
    network: &Network<'_, '_>,
    store: &mut CellStore,
    worldview: &PremiseSet,
) -> Result<Answer, AllocError>
    requires { IsSoundFor (wiring network.now) store.old }
    ensures { OnOk result (IsSoundFor (wiring network.now) store.new) }
{
    let settled = settle_once(alloc, network, store, worldview)?;
    answer_of(alloc, network, &settled)
}

// What the store keeps of these cells in these worldviews.
fn kept_of(
    alloc: Global,
    network: &Network<'_, '_>,
    store: &mut CellStore,
    asked: &[(&str, PremiseSet)],
) -> Result<Vec<Fact>, Fail> {
    let mut kept = Vec::new(alloc);
    for (name, worldview) in asked {
        let cell = cell_of(network, name)?;
        if cell >= store.cells() {
            return Err("no such cell".into());
        }
        kept.push(store.kept(cell, worldview))?;
    }
    Ok(kept)
}

// Settlings over one store.
#[derive(Drop)]
struct Settling<'a> {
    alloc: Global,
    matter: Matter<'a>,
    worldviews: &'a [PremiseSet],
    asked: &'a [(&'a str, PremiseSet)],
}

impl Settling<'_> {
    // Settles the worldviews one after another, and says whether the told facts stayed as they were.
    fn answers(
        &self,
        network: &Network<'_, '_>,
        store: &mut CellStore,
    ) -> Result<(Vec<Answer>, bool), AllocError>
        requires { IsSoundFor (wiring network.now) store.old }
    {
        let before = all_told(self.alloc, store, self.worldviews)?;
        let mut answers = Vec::new(self.alloc);
        let is_told_the_same = self.add_answers(network, store, &before, &mut answers)?;
        Ok((answers, is_told_the_same))
    }

    // Adds what each settling answers, and says whether the told facts stayed as they were before.
    fn add_answers(
        &self,
        network: &Network<'_, '_>,
        store: &mut CellStore,
        before: &[Info],
        answers: &mut Vec<Answer>,
    ) -> Result<bool, AllocError>
        requires { IsSoundFor (wiring network.now) store.old }
    {
        let mut is_told_the_same = true;
        for worldview in self.worldviews {
            answers.push(settle_and_show(self.alloc, network, store, worldview)?)?;
            if !is_told(self.alloc, store, self.worldviews, before)? {
                is_told_the_same = false;
            }
        }
        Ok(is_told_the_same)
    }

    // Settles the worldviews, over a store in which the facts were told.
    fn settle_all(&self, network: &Network<'_, '_>) -> Result<Shown, Fail> {
        let mut store = store_told(self.alloc, network, self.matter.tells)?;
        self.settle_told(network, &mut store)
    }

    // The same, for an owner of the store.
    fn settle_told(&self, network: &Network<'_, '_>, store: &mut CellStore) -> Result<Shown, Fail>
        requires { IsSoundFor (wiring network.now) store.old }
    {
        let (answers, is_told_the_same) = self.answers(network, store)?;
        Ok(Shown {
            answers,
            kept: kept_of(self.alloc, network, store, self.asked)?,
            is_told_the_same,
        })
    }
}

// Makes the network, and settles the worldviews.
fn settle_over(task: &Settling<'_>, declaration: &Declaration<'_>) -> Result<Shown, Fail> {
    let mut network = Network::new(task.alloc, declaration)?;
    attach_named(&mut network, task.matter.attachments)?;
    task.settle_all(&network)
}

impl OverDeclaration<Global> for Settling<'_> {
    type Answer = Result<Shown, Fail>;

    fn over(self, declaration: &Declaration<'_>) -> Result<Shown, Fail> {
        settle_over(&self, declaration)
    }
}

/// Settles these worldviews one after another. Answers what they came to, and what the store then
/// keeps of the cells asked for.
pub fn settled(
    alloc: Global,
    matter: Matter<'_>,
    worldviews: &[PremiseSet],
    asked: &[(&str, PremiseSet)],
) -> Result<Shown, Fail> {
    let task = Settling {
        alloc,
        matter,
        worldviews,
        asked,
    };
    over_text(alloc, alloc, matter.text, task)?
}
