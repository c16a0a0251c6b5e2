//! Cuts a sequence short in which a reply differs. It leaves out commands one by one, the last
//! first, as long as some reply differs.

use super::drawing::COMMANDS;
use super::lines::line_of;
use super::playing::{Difference, Outcome, Play, played};
use std::alloc::{AllocError, Global};
use std::test::Fail;

/// Which commands are left, and the reply that differs then.
#[derive(Drop)]
pub struct Cut {
    pub is_given: Vec<bool>,
    pub difference: Difference,
}

// Whether the command at each place is at a line up to this one.
fn given_until(alloc: Global, line: u32) -> Result<Vec<bool>, AllocError> {
    let mut is_given = Vec::new(alloc);
    for place in 0..COMMANDS {
        is_given.push(place < line as usize)?;
    }
    Ok(is_given)
}

// The same commands but for the one at this place.
fn without(alloc: Global, is_given: &[bool], place: usize) -> Result<Vec<bool>, AllocError> {
    let mut fewer = Vec::from_slice(alloc, is_given)?;
    if let Some(it) = fewer.get_mut(place) {
        *it = false;
    }
    Ok(fewer)
}

// The reply that differs if just these commands are given, if there is one.
fn difference_of(
    alloc: Global,
    play: &Play<'_>,
    is_given: &[bool],
) -> Result<Option<Difference>, Fail> {
    let cut = Play {
        seed: play.seed,
        is_given,
        refused: play.refused,
    };
    match played(alloc, &cut)? {
        Outcome::Differs(difference) => Ok(Some(difference)),
        _ => Ok(None),
    }
}

impl Cut {
    // Leaves out the command at this place, if some reply differs without it.
    fn leave_out(&mut self, alloc: Global, play: &Play<'_>, place: usize) -> Result<(), Fail> {
        let fewer = without(alloc, &self.is_given, place)?;
        if let Some(difference) = difference_of(alloc, play, &fewer)? {
            self.difference = difference;
            self.is_given = fewer;
        }
        Ok(())
    }
}

/// The sequence up to the reply that differs. It leaves out each command without which some reply
/// still differs.
pub fn cut_short(alloc: Global, play: &Play<'_>, found: Difference) -> Result<Cut, Fail> {
    let mut cut = Cut {
        is_given: given_until(alloc, found.line)?,
        difference: found,
    };
    for place in (0..cut.is_given.len()).rev() {
        cut.leave_out(alloc, play, place)?;
    }
    Ok(cut)
}

/// The lines that a sequence gives, each with its number.
pub fn lines_given(alloc: Global, play: &Play<'_>) -> Result<String, AllocError> {
    let mut text = String::new(alloc);
    let mut number = 0u32;
    for place in 0..COMMANDS {
        number = number.saturating_add(1);
        if let Some(command) = play.command(place) {
            let line = line_of(alloc, &command)?;
            write!(text, "{number} {line}\n")?;
        }
    }
    Ok(text)
}
