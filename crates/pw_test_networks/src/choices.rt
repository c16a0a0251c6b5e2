//! Tests of choices. Each makes a network, tells facts, and chooses from groups of premises in a
//! worldview. Then it asks what was noted.

mod groups;
mod rows;

ghost use Rattle.std.specs.Prelude.{◌<◌, All, IsTrue};
ghost use Rattle.pw_network.specs.Wiring.{wiring};
ghost use Rattle.pw_premises.specs.Premises.{most_premises};
ghost use Rattle.pw_reasons.specs.Combinations.{groups_of};
ghost use Rattle.pw_reasons.specs.Nogood.{AreNogoods};
ghost use Rattle.pw_settle.specs.Sound.{IsSoundFor};

use crate::networks::attach_named;
use crate::reasons::all_covered;
use crate::settling::{Matter, all_told, is_told, store_told};
use pw_cells::CellStore;
use pw_decl::Declaration;
use pw_network::Network;
use pw_premises::PremiseSet;
use pw_reasons::{Groups, Nogoods, Picks, choose};
use pw_testing::worlds::{OverDeclaration, over_text};
use std::alloc::Global;
use std::test::Fail;

/// What a choice came to.
#[derive(Drop)]
pub struct Choice {
    pub chosen: Option<Picks>,
    /// Whether each of the sets asked for is covered afterwards.
    pub covered: Vec<bool>,
    /// Whether the told facts stayed as they were.
    pub is_told_the_same: bool,
}

/// Whether just these premises were chosen. None stands for no choice.
pub fn is_chosen(choice: &Choice, premises: Option<&[u16]>) -> bool {
    match (&choice.chosen, premises) {
        (Some(picks), Some(premises)) => picks.premises() == premises,
        (None, None) => true,
        _ => false,
    }
}

/// The groups, if these are one to six of one to four premises, and none stands twice.
pub fn groups_from(lists: &[&[u16]]) -> Option<Groups> {
    let mut groups = Groups::one(lists.first()?)?;
    for list in lists.iter().skip(1) {
        groups = groups.with(list)?;
    }
    Some(groups)
}

// Whether each of the premises is below 512.
fn are_below(premises: &[u16]) -> bool
    ensures { IsTrue result → All (λ premise. premise < most_premises) premises.now }
{
    for &premise in premises {
        if premise >= 512 {
            return false;
        }
    }
    true
}

// Whether each premise of the groups is below 512.
fn are_premises(groups: &Groups) -> bool
    ensures { IsTrue result → All (All (λ premise. premise < most_premises))
        (groups_of groups.now) }
{
    for place in 0..groups.len() {
        if !are_below(groups.group(place)) {
            return false;
        }
    }
    true
}

// Chooses in a network that the store is sound for, if the groups are of premises.
fn choose_once(
    alloc: Global,
    network: &Network<'_, '_>,
    store: &mut CellStore,
    nogoods: &mut Nogoods,
    worldview: &PremiseSet,
    groups: &Groups,
) -> Result<Option<Picks>, Fail>
    requires sound { IsSoundFor (wiring network.now) store.old }
    requires nogoods { AreNogoods (wiring network.now) store.old nogoods.old }
{
    if !are_premises(groups) {
        return Err("no premises".into());
    }
    Ok(choose(alloc, network, store, nogoods, worldview, groups)?)
}

// A choice in a worldview, and the sets asked for afterwards.
#[derive(Drop)]
struct Choosing<'a> {
    alloc: Global,
    matter: Matter<'a>,
    worldview: &'a PremiseSet,
    groups: &'a Groups,
    asked: &'a [PremiseSet],
}

impl Choosing<'_> {
    // Chooses, and says whether the told facts stayed as they were.
    fn choose(
        &self,
        network: &Network<'_, '_>,
        store: &mut CellStore,
        nogoods: &mut Nogoods,
    ) -> Result<(Option<Picks>, bool), Fail>
        requires sound { IsSoundFor (wiring network.now) store.old }
        requires nogoods { AreNogoods (wiring network.now) store.old nogoods.old }
    {
        let (alloc, worldview) = (self.alloc, self.worldview);
        let before = all_told(alloc, store, &[*worldview])?;
        let chosen = choose_once(alloc, network, store, nogoods, worldview, self.groups)?;
        Ok((chosen, is_told(alloc, store, &[*worldview], &before)?))
    }

    // Chooses over this store, and sees what was noted.
    fn answer(&self, network: &Network<'_, '_>, store: &mut CellStore) -> Result<Choice, Fail>
        requires { IsSoundFor (wiring network.now) store.old }
    {
        let mut nogoods = Nogoods::new(self.alloc);
        let (chosen, is_told_the_same) = self.choose(network, store, &mut nogoods)?;
        Ok(Choice {
            chosen,
            covered: all_covered(self.alloc, &nogoods, self.asked)?,
            is_told_the_same,
        })
    }

    // Tells the facts, and chooses.
    fn ask(&self, network: &Network<'_, '_>) -> Result<Choice, Fail> {
        let mut store = store_told(self.alloc, network, self.matter.tells)?;
        self.answer(network, &mut store)
    }
}

// Makes the network, and chooses.
fn ask_over(task: &Choosing<'_>, declaration: &Declaration<'_>) -> Result<Choice, Fail> {
    let mut network = Network::new(task.alloc, declaration)?;
    attach_named(&mut network, task.matter.attachments)?;
    task.ask(&network)
}

impl OverDeclaration<Global> for Choosing<'_> {
    type Answer = Result<Choice, Fail>;

    fn over(self, declaration: &Declaration<'_>) -> Result<Choice, Fail> {
        ask_over(&self, declaration)
    }
}

/// What is chosen from the groups in the worldview, and which of these sets are covered then.
pub fn chosen_from(
    alloc: Global,
    matter: Matter<'_>,
    worldview: PremiseSet,
    lists: &[&[u16]],
    asked: &[PremiseSet],
) -> Result<Choice, Fail> {
    let groups = groups_from(lists).ok_or("no groups")?;
    let task = Choosing {
        alloc,
        matter,
        worldview: &worldview,
        groups: &groups,
        asked,
    };
    over_text(alloc, alloc, matter.text, task)?
}
