//! Values by rounds. At first nothing is known. Each round adds to what is known of each cell what
//! is told of it, and what each visible instance answers to what was known before the round. The
//! rounds end when one changes nothing.

use super::entries::{Entries, Instance, Told};
use pw_info::{Info, Kind};
use pw_premises::PremiseSet;
use pw_procs::Registry;
use pw_testing::facts::is_of_kind;
use std::alloc::AllocError;
use std::test::Fail;

// The most rounds that are made for a worldview.
const MOST_ROUNDS: u32 = 300;

// Adds an information to what is known of a cell.
fn add(known: &mut [Info], cell: usize, info: &Info) -> Result<(), Fail> {
    let held = known.get_mut(cell).ok_or("no cell")?;
    if !is_of_kind(held, info.kind()) {
        return Err("of another kind".into());
    }
    *held = held.meet(info);
    Ok(())
}

// Adds a told fact, if it is visible.
fn add_told(told: &Told, worldview: &PremiseSet, known: &mut [Info]) -> Result<(), Fail> {
    if !told.support.is_subset(worldview) {
        return Ok(());
    }
    add(known, told.cell, &told.info)
}

// What the procedure answers to what is known of its inputs.
fn answer_of(
    registry: &Registry,
    procedure: u8,
    cells: &[usize],
    before: &[Info],
) -> Result<Info, Fail> {
    let mut inputs = [Info::nothing(Kind::Interval); 8];
    if cells.len() > 8 {
        return Err("too many inputs".into());
    }
    for place in 0..cells.len() {
        inputs[place] = *before.get(cells[place]).ok_or("no cell")?;
    }
    if usize::from(procedure) >= registry.len() {
        return Err("no procedure".into());
    }
    let stored = registry.get(procedure);
    if !stored.signature().fits(&inputs[..cells.len()]) {
        return Err("inputs that do not fit".into());
    }
    Ok(stored.call(&inputs[..cells.len()]))
}

// Adds what an instance answers to what was known before the round, if the instance is visible.
fn add_answer(
    registry: &Registry,
    instance: &Instance,
    worldview: &PremiseSet,
    before: &[Info],
    known: &mut [Info],
) -> Result<(), Fail> {
    if !instance.support.is_subset(worldview) {
        return Ok(());
    }
    let [inputs @ .., output] = instance.cells.as_slice() else {
        return Err("no output".into());
    };
    let answer = answer_of(registry, instance.procedure, inputs, before)?;
    add(known, *output, &answer)
}

impl Entries {
    // Nothing known, of each cell.
    fn nothing(&self) -> Result<Vec<Info>, AllocError> {
        let mut known = Vec::new(self.alloc);
        for cell in &self.cells {
            known.push(Info::nothing(cell.sort.kind()))?;
        }
        Ok(known)
    }

    // What is known after a round.
    fn round(
        &self,
        registry: &Registry,
        worldview: &PremiseSet,
        before: &[Info],
    ) -> Result<Vec<Info>, Fail> {
        let mut known = Vec::from_slice(self.alloc, before)?;
        self.add_all(registry, worldview, before, &mut known)?;
        Ok(known)
    }

    // Adds the told facts and the answers of the instances, which see only what was known before.
    fn add_all(
        &self,
        registry: &Registry,
        worldview: &PremiseSet,
        before: &[Info],
        known: &mut [Info],
    ) -> Result<(), Fail> {
        for told in &self.told {
            add_told(told, worldview, known)?;
        }
        for instance in &self.instances {
            add_answer(registry, instance, worldview, before, known)?;
        }
        Ok(())
    }

    /// What is known of each cell in the worldview when a round changes nothing. None if that takes
    /// too many rounds.
    pub fn values(
        &self,
        registry: &Registry,
        worldview: &PremiseSet,
    ) -> Result<Option<Vec<Info>>, Fail> {
        let mut known = self.nothing()?;
        for _ in 0..MOST_ROUNDS {
            let next = self.round(registry, worldview, &known)?;
            if next == known {
                return Ok(Some(known));
            }
            known = next;
        }
        Ok(None)
    }
}
