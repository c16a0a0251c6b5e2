//! What is wrong with a declaration.

use thiserror::Error;

/// What is wrong with a line of a declaration.
#[derive(Clone, Copy, Debug, PartialEq, Eq, Error)]
pub enum DeclFaultKind {
    /// The line has a byte that no line may have, or its words fit no form at that place.
    #[error("syntax")]
    Syntax,
    /// A user, premise, kind, cell or callable of this name exists already, or a cell of the
    /// compound does, or a member of a set or a parameter is named twice.
    #[error("duplicate name")]
    DuplicateName,
    /// No user, kind or callable has this name, or no cell of the compound has it.
    #[error("unknown name")]
    UnknownName,
    /// A set has fewer than 2 members, a compound has no parameter, or a callable does not accept
    /// the cells of a call.
    #[error("wrong arguments")]
    WrongArguments,
    /// The text or the line is too long, there is one user, premise, set, cell or compound too
    /// many, a set has more members than its version allows, a compound more than 8 parameters, or
    /// it expands to more than 256 instances or 256 inner cells.
    #[error("limit")]
    Limit,
    /// A compound is not ended.
    #[error("missing end")]
    MissingEnd,
    /// Out of memory.
    #[error("memory")]
    Memory,
}

/// Where a declaration is at fault, and what is wrong there.
///
/// Lines count from 1. Line 0 means the text as a whole, or the compounds that every declaration
/// has.
#[derive(Clone, Copy, Debug, PartialEq, Eq, Error)]
#[error("declaration line {line}: {why}")]
pub struct DeclFault {
    /// The number of the line.
    pub line: u32,
    /// What is wrong.
    pub why: DeclFaultKind,
}
