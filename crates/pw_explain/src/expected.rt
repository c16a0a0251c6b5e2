//! What was expected in place of the word at fault.
ghost use Rattle.std.specs.Prelude.{OnOk};
ghost use Rattle.pw_explain.specs.Explanation.{GoesOn};

use crate::sort::Sort;
use std::alloc::{AllocError, Allocator};

/// What was expected in place of a word, or of a line.
#[derive(Clone, Copy, Debug, PartialEq, Eq)]
pub enum Expected<'a> {
    /// A text that is not too long.
    ShortText,
    /// A line of a declaration that is not too long.
    ShortLine,
    /// A line of a transcript that is not too long.
    ShortCommand,
    /// Memory that was not refused.
    Memory,
    /// A byte that a line may have.
    AllowedByte,
    /// The header of a declaration.
    Header,
    /// The end of a compound.
    End,
    /// The first word of a line outside compounds.
    FirstWord,
    /// A name.
    Name,
    /// A name that is not reserved.
    FreeName,
    /// The end of the line.
    NoWord,
    /// `of` and a user, or the end of the line.
    Of,
    /// `under` and premises, or the end of the line.
    Under,
    /// A declared user.
    User,
    /// A declared kind.
    Kind,
    /// What may begin a line in a compound.
    Call,
    /// A cell of the compound.
    CompoundCell,
    /// Two members or more.
    Members,
    /// A parameter.
    Parameter,
    /// A name that no line declares: one that every declaration has was given.
    NewThanBuiltIn(&'static str),
    /// A name that no line declares: the line of this number declares it.
    NewThanLine(u32, &'static str),
    /// A name that the line does not have yet.
    NewThanWord(&'static str),
    /// Not one more.
    NoMore(&'static str),
    /// A command.
    Command,
    /// A declared cell.
    Cell,
    /// A procedure or a compound.
    Callable,
    /// A declared premise.
    Premise,
    /// A premise that this user may use.
    OwnPremise(&'a [u8]),
    /// A premise that the line does not name before.
    Once,
    /// A group of premises.
    Group,
    /// A word for an information.
    AnyInformation,
    /// A word for an information of this kind.
    Information(&'a [u8]),
    /// A cell of this kind.
    CellOfKind(&'a [u8]),
    /// No further cell.
    NoCell(&'a [u8]),
    /// Cells that this callable takes.
    CellsOf(&'a [u8]),
}

/// The word for a name of this sort.
pub(crate) fn sort_word(sort: Sort) -> &'static str {
    match sort {
        Sort::User => "user",
        Sort::Premise => "premise",
        Sort::Set => "set",
        Sort::Cell => "cell",
        Sort::Compound => "compound",
        Sort::Local => "local cell",
    }
}

// Adds a word between backquotes, and a text after it.
fn add_quoted<A: Allocator>(
    text: &mut Vec<u8, A>,
    before: &str,
    word: &[u8],
    after: &str,
) -> Result<(), AllocError>
    ensures { OnOk result (GoesOn text.old.items text.new.items) }
{
    text.extend_from_slice(before.as_bytes())?;
    text.extend_from_slice(word)?;
    text.extend_from_slice(after.as_bytes())
}

impl<'a> Expected<'a> {
    // The text, if it is always the same.
    fn fixed_text(&self) -> &'static str {
        match *self {
            Expected::ShortText => "at most 1,048,576 bytes in all",
            Expected::ShortLine => "at most 4,096 bytes in a line",
            Expected::ShortCommand => "at most 1,024 bytes in a line",
            Expected::Memory => "more memory",
            Expected::AllowedByte => "a blank or visible ASCII",
            Expected::Header => "the header, `workbench 1` or `workbench 2`",
            Expected::End => "`end` after the lines of the compound",
            Expected::FirstWord => "user, premise, set, cell or compound",
            Expected::Name => "a name: 1 to 32 bytes of a-z, 0-9 and _, the first a letter",
            Expected::FreeName => "a name that is not reserved",
            Expected::NoWord => "no further word",
            Expected::Of => "`of` and a user, or no further word",
            Expected::Under => "`under` and premises, or no further word",
            Expected::User => "a declared user",
            Expected::Kind => "a kind: interval, exact, bool, sign or a set declared above",
            Expected::Call =>
                "a procedure, a compound that is built in or ended above, local or end",
            Expected::CompoundCell => "a parameter or a local cell of the compound",
            Expected::Members => "at least 2 members",
            Expected::Parameter => "a parameter and its kind",
            Expected::Command => {
                "a command: tell, attach, believe, doubt, beliefs, ask, why, conflicts or choose"
            }
            Expected::Cell => "a declared cell",
            Expected::Callable => "a procedure or a compound",
            Expected::Premise => "a declared premise",
            Expected::Once => "each premise only once in the line",
            Expected::Group => "names of premises with one | between each two",
            Expected::AnyInformation => "information of the kind of the cell",
            _ => "",
        }
    }

    // Adds the text with a word of it.
    fn add_with_word<A: Allocator>(&self, text: &mut Vec<u8, A>) -> Result<(), AllocError>
        ensures { OnOk result (GoesOn text.old.items text.new.items) }
    {
        match *self {
            Expected::NewThanBuiltIn(what) => add_quoted(
                text,
                "a new name; every declaration has this ",
                what.as_bytes(),
                "",
            ),
            Expected::NewThanWord(what) => add_quoted(
                text,
                "a new name; this line has the ",
                what.as_bytes(),
                " already",
            ),
            Expected::NoMore(most) => add_quoted(text, "at most ", most.as_bytes(), ""),
            Expected::OwnPremise(user) => add_quoted(
                text,
                "a premise of `",
                user,
                "` or of no user",
            ),
            Expected::Information(kind) => add_information(text, kind),
            Expected::CellOfKind(kind) => add_quoted(text, "a cell of the kind `", kind, "`"),
            Expected::NoCell(callable) => add_quoted(text, "no further cell for `", callable, "`"),
            Expected::CellsOf(callable) => add_quoted(text, "cells that `", callable, "` takes"),
            _ => Ok(()),
        }
    }

    /// Adds the text to a text.
    pub(crate) fn add<A: Allocator + Copy>(
        &self,
        alloc: A,
        text: &mut Vec<u8, A>,
    ) -> Result<(), AllocError>
        ensures { OnOk result (GoesOn text.old.items text.new.items) }
    {
        if let Expected::NewThanLine(line, what) = *self {
            let told = format!(in alloc; "a new name; line {line} declares this {what}")?;
            return text.extend_from_slice(told.as_bytes());
        }
        text.extend_from_slice(self.fixed_text().as_bytes())?;
        self.add_with_word(text)
    }
}

// Adds what spells an information of this kind.
fn add_information<A: Allocator>(text: &mut Vec<u8, A>, kind: &[u8]) -> Result<(), AllocError>
    ensures { OnOk result (GoesOn text.old.items text.new.items) }
{
    let forms = if kind == b"interval".as_slice() {
        "`: N or LO..HI from -1000000 to 1000000, nothing or contradiction"
    } else if kind == b"exact".as_slice() {
        "`: N from -1000000000 to 1000000000, nothing or contradiction"
    } else {
        "`: {A,B} of its members, nothing or contradiction"
    };
    add_quoted(text, "information of the kind `", kind, forms)
}
