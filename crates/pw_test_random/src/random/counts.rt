//! How much was compared.

use super::answers::Answer;
use super::fresh::Freshness;

/// What was compared.
#[derive(Clone, Copy, Debug)]
pub struct Counts {
    pub lines: u32,
    pub refused: u32,
    pub values: u32,
    pub contradictions: u32,
    pub reasons: u32,
    pub cells_in_conflict: u32,
    pub lines_in_conflict: u32,
    /// Choices that answered premises, and those that answered none.
    pub chosen: u32,
    pub chosen_none: u32,
    /// Questions that called no procedure since their user was fresh, and those of them after a
    /// choice that answered none.
    pub fresh: u32,
    pub fresh_after_none: u32,
    /// Growths that were asked for before the first line, and in all.
    pub growths_before: u64,
    pub growths: u64,
}

// Adds 1 to the count if this holds.
fn count_if(count: &mut u32, holds: bool) {
    *count = count.saturating_add(u32::from(holds));
}

impl Counts {
    /// Nothing compared.
    pub fn none() -> Counts {
        Counts {
            lines: 0,
            refused: 0,
            values: 0,
            contradictions: 0,
            reasons: 0,
            cells_in_conflict: 0,
            lines_in_conflict: 0,
            chosen: 0,
            chosen_none: 0,
            fresh: 0,
            fresh_after_none: 0,
            growths_before: 0,
            growths: 0,
        }
    }

    /// Counts an answer.
    pub fn count(&mut self, answer: &Answer) {
        count_if(&mut self.lines, true);
        match answer {
            Answer::Value(info) => {
                let says = !info.is_nothing() && !info.is_contradiction();
                count_if(&mut self.values, says);
            }
            Answer::Because(info, reason) => {
                count_if(&mut self.contradictions, info.is_contradiction());
                count_if(&mut self.reasons, !reason.is_empty());
            }
            Answer::Listed(cells, lines) => {
                count_if(&mut self.cells_in_conflict, !cells.is_empty());
                count_if(&mut self.lines_in_conflict, !lines.is_empty());
            }
            Answer::Chose(taken) => {
                count_if(&mut self.chosen, taken.is_some());
                count_if(&mut self.chosen_none, taken.is_none());
            }
            Answer::NoMemory => count_if(&mut self.refused, true),
            _ => {}
        }
    }

    /// Counts a question that settles, of a user of whom this is known.
    pub fn count_settling(&mut self, freshness: Freshness) {
        count_if(&mut self.fresh, freshness != Freshness::Unknown);
        let is_after_none = freshness == Freshness::FreshAfterNone;
        count_if(&mut self.fresh_after_none, is_after_none);
    }

    /// The counts of both, growths left out.
    pub fn and(&self, other: &Counts) -> Counts {
        Counts {
            lines: self.lines.saturating_add(other.lines),
            refused: self.refused.saturating_add(other.refused),
            values: self.values.saturating_add(other.values),
            contradictions: self.contradictions.saturating_add(other.contradictions),
            reasons: self.reasons.saturating_add(other.reasons),
            cells_in_conflict: self
                .cells_in_conflict
                .saturating_add(other.cells_in_conflict),
            lines_in_conflict: self
                .lines_in_conflict
                .saturating_add(other.lines_in_conflict),
            chosen: self.chosen.saturating_add(other.chosen),
            chosen_none: self.chosen_none.saturating_add(other.chosen_none),
            fresh: self.fresh.saturating_add(other.fresh),
            fresh_after_none: self.fresh_after_none.saturating_add(other.fresh_after_none),
            growths_before: 0,
            growths: 0,
        }
    }
}
