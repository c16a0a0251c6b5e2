//! What a user chooses: every combination of alternatives is listed, and tried by rounds in this
//! order.

use super::alternatives::{Alternatives, Group};
use super::answers::Answer;
use super::drawing::{Action, Command};
use super::entries::{Cell, Entries};
use pw_info::Info;
use pw_premises::PremiseSet;
use pw_procs::Registry;
use std::alloc::{AllocError, Global};
use std::test::Fail;

// Adds to the list what was taken so far with each premise of the group after it.
fn add_each(
    alloc: Global,
    list: &mut Vec<Vec<u16>>,
    taken: &[u16],
    group: &Group,
) -> Result<(), AllocError> {
    for premise in group.premises() {
        let mut longer = Vec::from_slice(alloc, taken)?;
        longer.push(*premise)?;
        list.push(longer)?;
    }
    Ok(())
}

// Each of the combinations with each premise of the group after it.
fn extended(
    alloc: Global,
    combinations: &[Vec<u16>],
    group: &Group,
) -> Result<Vec<Vec<u16>>, AllocError> {
    let mut list = Vec::new(alloc);
    for taken in combinations {
        add_each(alloc, &mut list, taken, group)?;
    }
    Ok(list)
}

// All combinations of one premise from each group. The last group changes fastest.
fn combinations_of(
    alloc: Global,
    alternatives: &Alternatives,
) -> Result<Vec<Vec<u16>>, AllocError> {
    let mut list = Vec::new(alloc);
    list.push(Vec::new(alloc))?;
    for group in alternatives.groups() {
        list = extended(alloc, &list, group)?;
    }
    Ok(list)
}

impl Cell {
    // Whether it is a declared cell, or an inner cell of an attachment that is visible.
    fn is_visible(&self, worldview: &PremiseSet) -> bool {
        match &self.attached {
            Some((_, support)) => support.is_subset(worldview),
            None => true,
        }
    }
}

impl Entries {
    // Whether no visible cell is contradictory in the worldview. None if that takes too many rounds.
    fn is_consistent(
        &self,
        registry: &Registry,
        worldview: &PremiseSet,
    ) -> Result<Option<bool>, Fail> {
        let Some(values) = self.values(registry, worldview)? else {
            return Ok(None);
        };
        Ok(Some(self.are_consistent(worldview, &values)))
    }

    // Whether no visible cell is contradictory, if the cells have these values.
    fn are_consistent(&self, worldview: &PremiseSet, values: &[Info]) -> bool {
        for (cell, value) in self.cells.iter().zip(values.iter()) {
            if value.is_contradiction() && cell.is_visible(worldview) {
                return false;
            }
        }
        true
    }

    // The first of these combinations under which nothing is contradictory.
    fn first_consistent(
        &self,
        registry: &Registry,
        beliefs: PremiseSet,
        alternatives: &Alternatives,
        combinations: &[Vec<u16>],
    ) -> Result<Option<Answer>, Fail> {
        for taken in combinations {
            let worldview = alternatives.worldview(beliefs, taken);
            let Some(is_consistent) = self.is_consistent(registry, &worldview)? else {
                return Ok(None);
            };
            if is_consistent {
                let taken = Vec::from_slice(self.alloc, taken)?;
                return Ok(Some(Answer::Chose(Some(taken))));
            }
        }
        Ok(Some(Answer::Chose(None)))
    }

    /// The first combination of the alternatives under which nothing is contradictory, for a user
    /// of these beliefs. None if that takes too many rounds.
    pub fn choice(
        &self,
        registry: &Registry,
        beliefs: PremiseSet,
        alternatives: &Alternatives,
    ) -> Result<Option<Answer>, Fail> {
        let combinations = combinations_of(self.alloc, alternatives)?;
        self.first_consistent(registry, beliefs, alternatives, &combinations)
    }

    /// Takes in what the user of the command chose: what was taken is believed from now on, in place
    /// of all premises of the groups.
    pub fn accept_choice(&mut self, command: &Command, answer: &Answer) {
        let Action::Choose(alternatives) = &command.action else {
            return;
        };
        if let Answer::Chose(Some(taken)) = answer {
            let beliefs = self.beliefs(command.user);
            self.set_beliefs(command.user, alternatives.worldview(beliefs, taken));
        }
    }
}
