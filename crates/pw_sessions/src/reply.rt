//! Replies to lines.

use pw_info::Info;
use pw_premises::PremiseSet;
use pw_reasons::{Conflicts, Picks};
use std::alloc::{Allocator, Global};
use thiserror::Error;

/// Why a line is refused. If several refusals apply to a line, it gets the first of them, in the
/// order line too long, syntax, unknown user, unknown command, unknown cell, unknown procedure,
/// wrong information, wrong arguments, unknown premise, not your premise, memory.
#[derive(Clone, Copy, Debug, PartialEq, Eq, Error)]
pub enum Refusal {
    /// A byte that is neither a blank nor visible ASCII, a single word, or words that do not fit
    /// the command's form.
    #[error("syntax")]
    Syntax,
    /// The first word is no declared user.
    #[error("unknown user")]
    UnknownUser,
    /// The second word is no command.
    #[error("unknown command")]
    UnknownCommand,
    /// A cell that is not declared.
    #[error("unknown cell")]
    UnknownCell,
    /// An attachment of something that is neither a procedure nor a compound.
    #[error("unknown procedure")]
    UnknownProcedure,
    /// An attachment to cells of kinds, or to a number of cells, that the callable does not take.
    #[error("wrong arguments")]
    WrongArguments,
    /// A premise that is not declared.
    #[error("unknown premise")]
    UnknownPremise,
    /// A tell under a premise of another user.
    #[error("not your premise")]
    NotYourPremise,
    /// A word that spells no information of the cell's kind.
    #[error("wrong information")]
    WrongInformation,
    /// More than 1,024 bytes.
    #[error("line too long")]
    LineTooLong,
    /// A growth of memory was refused.
    #[error("memory")]
    Memory,
}

/// The reply to a line.
#[derive(Drop)]
pub enum Reply<A: Allocator = Global> {
    /// A command that tells or changes something was carried out.
    Done,
    /// The known information about the cell that was asked for.
    Value(Info),
    /// The known information about the cell, and the premises that it needs.
    Because(Info, PremiseSet),
    /// What is contradictory.
    Listed(Conflicts<A>),
    /// The premises that the user believes.
    Believes(PremiseSet),
    /// The premises of the combination that the user believes now; None if something is
    /// contradictory under each combination.
    Chose(Option<Picks>),
    /// The line was refused, and changed nothing that a reply shows.
    Refused(Refusal),
}
