//! The answer to each command, from what the lines before it left, by rounds.

use super::declared::CELLS;
use super::drawing::{Action, Command};
use super::entries::{Cell, Entries};
use pw_info::Info;
use pw_premises::PremiseSet;
use pw_procs::Registry;
use pw_sessions::{Refusal, Reply};
use std::alloc::{AllocError, Allocator, Global};
use std::test::Fail;

/// An answer to a command.
#[derive(Debug, PartialEq, Eq, Drop)]
pub enum Answer {
    Done,
    Value(Info),
    Because(Info, PremiseSet),
    /// Contradictory declared cells, and lines of attachments that have a contradictory inner cell.
    Listed(Vec<u32>, Vec<u32>),
    Believes(PremiseSet),
    /// The premises taken, in the order of the groups.
    Chose(Option<Vec<u16>>),
    NoMemory,
    /// Refused for another reason.
    Refused,
    /// The line says no command.
    Blank,
    /// The line says other groups than those that were drawn.
    OtherGroups,
    /// How often procedures were called; if wanted, at most so often.
    Calls(u128),
}

impl Answer {
    /// The answer that a reply gives. A line that says no command gets no reply.
    pub fn given<A: Allocator>(
        alloc: Global,
        reply: &Option<Reply<A>>,
    ) -> Result<Answer, AllocError> {
        let Some(reply) = reply else {
            return Ok(Answer::Blank);
        };
        Ok(match reply {
            Reply::Done => Answer::Done,
            Reply::Value(info) => Answer::Value(*info),
            Reply::Because(info, reason) => Answer::Because(*info, *reason),
            Reply::Listed(conflicts) => Answer::Listed(
                Vec::from_slice(alloc, conflicts.cells())?,
                Vec::from_slice(alloc, conflicts.lines())?,
            ),
            Reply::Believes(premises) => Answer::Believes(*premises),
            Reply::Chose(None) => Answer::Chose(None),
            Reply::Chose(Some(picks)) => {
                Answer::Chose(Some(Vec::from_slice(alloc, picks.premises())?))
            }
            Reply::Refused(Refusal::Memory) => Answer::NoMemory,
            Reply::Refused(_) => Answer::Refused,
        })
    }
}

// Adds the line of the attachment that has this inner cell, if the attachment is visible and its
// line is not the last one in the list.
fn add_line(lines: &mut Vec<u32>, cell: &Cell, worldview: &PremiseSet) -> Result<(), AllocError> {
    if let Some((line, support)) = &cell.attached
        && support.is_subset(worldview)
        && lines.last() != Some(line)
    {
        lines.push(*line)?;
    }
    Ok(())
}

// Whether the value at this place is contradictory, if there is one.
fn is_contradiction(values: &[Info], place: usize) -> bool {
    match values.get(place) {
        Some(value) => value.is_contradiction(),
        None => false,
    }
}

// The declared cells whose values are contradictory.
fn contradictory_cells(alloc: Global, values: &[Info]) -> Result<Vec<u32>, AllocError> {
    let mut cells = Vec::new(alloc);
    for place in 0..CELLS.len() {
        if is_contradiction(values, place) {
            cells.push(place as u32)?;
        }
    }
    Ok(cells)
}

impl Entries {
    // The lines of visible attachments that have an inner cell whose value is contradictory.
    fn contradictory_lines(
        &self,
        worldview: &PremiseSet,
        values: &[Info],
    ) -> Result<Vec<u32>, AllocError> {
        let mut lines = Vec::new(self.alloc);
        for place in CELLS.len()..self.cells.len() {
            if is_contradiction(values, place) {
                add_line(&mut lines, &self.cells[place], worldview)?;
            }
        }
        Ok(lines)
    }

    /// The value of a cell in the worldview. None if that takes too many rounds.
    pub fn value(
        &self,
        registry: &Registry,
        worldview: &PremiseSet,
        cell: usize,
    ) -> Result<Option<Info>, Fail> {
        let Some(values) = self.values(registry, worldview)? else {
            return Ok(None);
        };
        Ok(Some(*values.get(cell).ok_or("no cell")?))
    }

    // The value of a cell in the worldview, and its reason. From the last premise of the worldview
    // to the first, it takes out each one without which the value stays.
    fn because(
        &self,
        registry: &Registry,
        worldview: &PremiseSet,
        cell: usize,
    ) -> Result<Option<Answer>, Fail> {
        let Some(value) = self.value(registry, worldview, cell)? else {
            return Ok(None);
        };
        let mut left = *worldview;
        for premise in worldview.numbers().rev() {
            let smaller = left.without(premise);
            let Some(without) = self.value(registry, &smaller, cell)? else {
                return Ok(None);
            };
            if without == value {
                left = smaller;
            }
        }
        Ok(Some(Answer::Because(value, left)))
    }

    // What is contradictory in the worldview.
    fn conflicts(
        &self,
        registry: &Registry,
        worldview: &PremiseSet,
    ) -> Result<Option<Answer>, Fail> {
        let Some(values) = self.values(registry, worldview)? else {
            return Ok(None);
        };
        let cells = contradictory_cells(self.alloc, &values)?;
        let lines = self.contradictory_lines(worldview, &values)?;
        Ok(Some(Answer::Listed(cells, lines)))
    }

    /// The answer to a command, from what the lines so far left. None if that takes too many
    /// rounds.
    pub fn answer(&self, registry: &Registry, command: &Command) -> Result<Option<Answer>, Fail> {
        let beliefs = self.beliefs(command.user);
        match command.action {
            Action::Beliefs => Ok(Some(Answer::Believes(beliefs))),
            Action::Ask(cell) => {
                let value = self.value(registry, &beliefs, cell)?;
                Ok(value.map(Answer::Value))
            }
            Action::Why(cell) => self.because(registry, &beliefs, cell),
            Action::Conflicts => self.conflicts(registry, &beliefs),
            Action::Choose(alternatives) => self.choice(registry, beliefs, &alternatives),
            _ => Ok(Some(Answer::Done)),
        }
    }

    /// Whether the command takes no memory, so that it is never refused.
    pub fn takes_no_memory(&self, command: &Command) -> bool {
        match command.action {
            Action::Believe(_) | Action::Doubt(_) | Action::Beliefs => true,
            Action::Ask(cell) => !self.is_written(cell, &self.beliefs(command.user)),
            _ => false,
        }
    }
}
