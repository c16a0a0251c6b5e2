//! The kinds of the cells that a callable takes, by their names.

use crate::form::is_one_of;
use pw_info::Words;

/// The names and kinds of the remaining cells.
#[derive(Drop)]
pub(crate) struct Shape<'a> {
    words: Words<'a>,
    // Whether they stand in a row of the table, where further words follow them.
    is_row: bool,
}

impl<'a> Shape<'a> {
    /// The cells of a row of the table: a procedure, or a compound that every declaration has.
    pub(crate) fn of_row(row: &'a [u8]) -> Shape<'a> {
        let mut words = Words::new(row);
        words.next();
        Shape {
            words,
            is_row: true,
        }
    }

    /// The parameters of the compound that the line begins.
    pub(crate) fn of_line(line: &'a [u8]) -> Shape<'a> {
        let mut words = Words::new(line);
        words.next();
        words.next();
        Shape {
            words,
            is_row: false,
        }
    }

    /// The kind of the next cell, where `S` in a row means any kind.
    pub(crate) fn next(&mut self) -> Option<&'a [u8]> {
        self.words.next()?;
        let kind = self.words.next()?;
        if self.is_row && is_one_of(kind, &[b"way", b"ways"]) {
            self.words = Words::new(b"");
            return None;
        }
        Some(kind)
    }

    /// Whether `S` means any kind.
    pub(crate) fn is_of_row(&self) -> bool {
        self.is_row
    }
}
