//! The line that says a command.

use super::alternatives::{Alternatives, Group};
use super::declared::{CELLS, PREMISES, USERS};
use super::drawing::{Action, Command, Known};
use pw_premises::PremiseSet;
use std::alloc::{AllocError, Global};

// Adds a blank and a word.
fn add_word(line: &mut String, word: &str) -> Result<(), AllocError> {
    line.push(' ')?;
    line.push_str(word)
}

// Adds a blank and the name of a cell.
fn add_cell(line: &mut String, cell: usize) -> Result<(), AllocError> {
    match CELLS.get(cell) {
        Some((name, _)) => add_word(line, name),
        None => add_word(line, "?"),
    }
}

// Adds blanks and the names of the premises.
fn add_premises(line: &mut String, premises: &PremiseSet) -> Result<(), AllocError> {
    for premise in premises.numbers() {
        match PREMISES.get(usize::from(premise)) {
            Some(name) => add_word(line, name)?,
            None => add_word(line, "?")?,
        }
    }
    Ok(())
}

// Adds what the fact or the attachment rests on.
fn add_support(line: &mut String, support: &PremiseSet) -> Result<(), AllocError> {
    if support.is_empty() {
        return Ok(());
    }
    line.push_str(" under")?;
    add_premises(line, support)
}

// Adds the names of members of a set.
fn add_members(line: &mut String, names: &[&str], mask: u128) -> Result<(), AllocError> {
    let mut rest = mask;
    let mut mark = '{';
    line.push(' ')?;
    for name in names {
        if rest % 2 == 1 {
            line.push(mark)?;
            line.push_str(*name)?;
            mark = ',';
        }
        rest /= 2;
    }
    line.push('}')
}

// Adds a blank and the names of the premises of a group.
fn add_group(line: &mut String, group: &Group) -> Result<(), AllocError> {
    let mut mark = ' ';
    for premise in group.premises() {
        line.push(mark)?;
        line.push_str(PREMISES.get(usize::from(*premise)).unwrap_or(&"?"))?;
        mark = '|';
    }
    Ok(())
}

// Adds the groups, each after a blank.
fn add_groups(line: &mut String, alternatives: &Alternatives) -> Result<(), AllocError> {
    for group in alternatives.groups() {
        add_group(line, group)?;
    }
    Ok(())
}

// Adds what is told.
fn add_known(line: &mut String, known: &Known) -> Result<(), AllocError> {
    match known {
        Known::Between(lo, hi) => write!(line, " {lo}..{hi}"),
        Known::Exactly(number) => write!(line, " {number}"),
        Known::Truth(mask) => add_members(line, &["false", "true"], *mask),
        Known::Colors(mask) => add_members(line, &["red", "green", "blue"], *mask),
    }
}

// Adds what the user does.
fn add_action(line: &mut String, action: &Action) -> Result<(), AllocError> {
    match action {
        Action::Tell(cell, known, support) => {
            line.push_str(" tell")?;
            add_cell(line, *cell)?;
            add_known(line, known)?;
            add_support(line, support)
        }
        Action::Attach(callable, ends, support) => {
            line.push_str(" attach")?;
            add_word(line, callable.name())?;
            for cell in ends.places() {
                add_cell(line, *cell)?;
            }
            add_support(line, support)
        }
        Action::Believe(premises) => {
            line.push_str(" believe")?;
            add_premises(line, premises)
        }
        Action::Doubt(premises) => {
            line.push_str(" doubt")?;
            add_premises(line, premises)
        }
        Action::Beliefs => line.push_str(" beliefs"),
        Action::Ask(cell) => {
            line.push_str(" ask")?;
            add_cell(line, *cell)
        }
        Action::Why(cell) => {
            line.push_str(" why")?;
            add_cell(line, *cell)
        }
        Action::Conflicts => line.push_str(" conflicts"),
        Action::Choose(alternatives) => {
            line.push_str(" choose")?;
            add_groups(line, alternatives)
        }
    }
}

/// The line that says the command.
pub fn line_of(alloc: Global, command: &Command) -> Result<String, AllocError> {
    let mut line = String::new(alloc);
    line.push_str(USERS.get(command.user).unwrap_or(&"?"))?;
    add_action(&mut line, &command.action)?;
    Ok(line)
}
