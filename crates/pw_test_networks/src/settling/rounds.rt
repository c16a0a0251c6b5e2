//! Values by rounds, as the definition has them. At first nothing is known. Each round adds to what
//! is known of each cell what is told of it, and what each visible instance answers to what was
//! known before the round. The rounds end when one changes nothing.

use super::stages::Stage;
use super::{Matter, Tell};
use crate::networks::{attach_named, cell_of};
use pw_decl::Declaration;
use pw_info::{Info, Kind};
use pw_network::{Instance, Network};
use pw_premises::PremiseSet;
use pw_testing::facts::is_of_kind;
use pw_testing::worlds::{OverDeclaration, over_text};
use std::alloc::{AllocError, Global};
use std::test::Fail;

// The most rounds that are made for a worldview.
const MOST_ROUNDS: u32 = 5_000;

// Adds an information to what is known of a cell.
fn add(known: &mut Vec<Info>, cell: u32, info: &Info) -> Result<(), Fail> {
    let held = known.get_mut(cell as usize).ok_or("no cell")?;
    if !is_of_kind(held, info.kind()) {
        return Err("of another kind".into());
    }
    *held = held.meet(info);
    Ok(())
}

// Adds a told fact, if it is visible.
fn add_told(
    network: &Network<'_, '_>,
    tell: &Tell<'_>,
    worldview: &PremiseSet,
    known: &mut Vec<Info>,
) -> Result<(), Fail> {
    if !tell.fact.support.is_subset(worldview) {
        return Ok(());
    }
    let cell = cell_of(network, tell.cell)?;
    add(known, cell, &tell.fact.info)
}

// Adds what an instance answers to what was known before the round, if the instance is visible.
fn add_answer(
    network: &Network<'_, '_>,
    instance: &Instance,
    worldview: &PremiseSet,
    before: &[Info],
    known: &mut Vec<Info>,
) -> Result<(), Fail> {
    if !instance.support().is_subset(worldview) {
        return Ok(());
    }
    let mut inputs = [Info::nothing(Kind::Interval); 8];
    let cells = instance.inputs();
    if cells.len() > 8 {
        return Err("too many inputs".into());
    }
    for place in 0..cells.len() {
        inputs[place] = *before.get(cells[place] as usize).ok_or("no cell")?;
    }
    let answer = answer_on(network, instance.procedure, &inputs[..cells.len()])?;
    add(known, instance.output, &answer)
}

// What a procedure answers to these inputs.
fn answer_on(network: &Network<'_, '_>, number: u8, inputs: &[Info]) -> Result<Info, Fail> {
    let registry = network.declaration().registry();
    if usize::from(number) >= registry.len() {
        return Err("no procedure".into());
    }
    let procedure = registry.get(number);
    if !procedure.signature().fits(inputs) {
        return Err("inputs that do not fit".into());
    }
    Ok(procedure.call(inputs))
}

// What is known after a round.
fn round(
    alloc: Global,
    network: &Network<'_, '_>,
    tells: &[Tell<'_>],
    worldview: &PremiseSet,
    before: &[Info],
) -> Result<Vec<Info>, Fail> {
    let mut known = Vec::from_slice(alloc, before)?;
    add_each(network, tells, worldview, before, &mut known)?;
    Ok(known)
}

// Adds the told facts and the answers of the instances, which see only what was known before the round.
fn add_each(
    network: &Network<'_, '_>,
    tells: &[Tell<'_>],
    worldview: &PremiseSet,
    before: &[Info],
    known: &mut Vec<Info>,
) -> Result<(), Fail> {
    for tell in tells {
        add_told(network, tell, worldview, known)?;
    }
    for instance in network.instances() {
        add_answer(network, instance, worldview, before, known)?;
    }
    Ok(())
}

// Nothing known, of each cell.
fn nothing(alloc: Global, network: &Network<'_, '_>) -> Result<Vec<Info>, AllocError> {
    let mut known = Vec::new(alloc);
    for cell in 0..network.cells() {
        known.push(Info::nothing(network.kind(cell)))?;
    }
    Ok(known)
}

// What is known of each cell when a round changes nothing. None if that takes too many rounds.
fn known_at_last(
    alloc: Global,
    network: &Network<'_, '_>,
    tells: &[Tell<'_>],
    worldview: &PremiseSet,
) -> Result<Option<Vec<Info>>, Fail> {
    let mut known = nothing(alloc, network)?;
    for _ in 0..MOST_ROUNDS {
        let next = round(alloc, network, tells, worldview, &known)?;
        if next == known {
            return Ok(Some(known));
        }
        known = next;
    }
    Ok(None)
}

/// Whether some of the values took too many rounds.
pub fn took_too_long(values: &[Option<Vec<Info>>]) -> bool {
    values.iter().any(|known| known.is_none())
}

// The values in some worldviews.
#[derive(Drop)]
struct ByRounds<'a> {
    alloc: Global,
    matter: Matter<'a>,
    worldviews: &'a [PremiseSet],
}

// Makes the network, and the values in the worldviews.
fn values_over(
    task: &ByRounds<'_>,
    declaration: &Declaration<'_>,
) -> Result<Vec<Option<Vec<Info>>>, Fail> {
    let mut network = Network::new(task.alloc, declaration)?;
    attach_named(&mut network, task.matter.attachments)?;
    task.values(&network)
}

impl ByRounds<'_> {
    // The values of the cells of the network in each of the worldviews.
    fn values(&self, network: &Network<'_, '_>) -> Result<Vec<Option<Vec<Info>>>, Fail> {
        let mut values = Vec::new(self.alloc);
        for worldview in self.worldviews {
            let known = known_at_last(self.alloc, network, self.matter.tells, worldview)?;
            values.push(known)?;
        }
        Ok(values)
    }
}

impl OverDeclaration<Global> for ByRounds<'_> {
    type Answer = Result<Vec<Option<Vec<Info>>>, Fail>;

    fn over(self, declaration: &Declaration<'_>) -> Result<Vec<Option<Vec<Info>>>, Fail> {
        values_over(&self, declaration)
    }
}

/// The values of all cells by rounds, in each of these worldviews. None of a worldview that takes
/// too many rounds.
pub fn by_rounds(
    alloc: Global,
    matter: Matter<'_>,
    worldviews: &[PremiseSet],
) -> Result<Vec<Option<Vec<Info>>>, Fail> {
    let task = ByRounds {
        alloc,
        matter,
        worldviews,
    };
    over_text(alloc, alloc, matter.text, task)?
}

/// The values of all cells by rounds at each of these stages, of all that has come by then. None of
/// a stage that takes too many rounds.
pub fn by_rounds_at(
    alloc: Global,
    matter: Matter<'_>,
    stages: &[Stage],
) -> Result<Vec<Option<Vec<Info>>>, Fail> {
    let mut values = Vec::new(alloc);
    for stage in stages {
        let mut known = by_rounds(alloc, matter.until(stage), &[stage.worldview])?;
        values.push(known.pop().unwrap_or(None))?;
    }
    Ok(values)
}
