//! The faults that end the program with status 1, and their lines.

use pw_decl::DeclFault;
use pw_transcript::RunFault;
use std::alloc::{AllocError, AllocFailed, Allocator};
use thiserror::Error;

/// A fault that ends the program with status 1. Its text is its line on standard error.
#[derive(Clone, Copy, Debug, PartialEq, Eq, Error)]
pub enum Fault<'a> {
    /// The file of this name could not be opened, or a read of the declaration failed.
    #[error("cannot read {0}")]
    CannotRead(&'a str),
    /// The declaration is at fault.
    #[error(transparent)]
    Declaration(#[from] DeclFault),
    /// A read of the transcript or a write to standard output failed, or the run ended at a limit or
    /// for lack of memory.
    #[error(transparent)]
    Run(#[from] RunFault),
    /// Lines of the transcript are refused, and were explained.
    #[error("transcript: refused lines")]
    RefusedLines,
    /// Out of memory, elsewhere than in the run and while the text of the declaration is read as one.
    #[error("memory")]
    Memory,
}

impl<'a> From<AllocError> for Fault<'a> {
    fn from(_: AllocError) -> Fault<'a> {
        Fault::Memory
    }
}

impl<'a, T: Drop> From<AllocFailed<T>> for Fault<'a> {
    fn from(_: AllocFailed<T>) -> Fault<'a> {
        Fault::Memory
    }
}

/// The line of a fault, without its line end. Fails only when out of memory.
pub fn fault_line<A: Allocator + Copy>(
    alloc: A,
    fault: &Fault<'_>,
) -> Result<String<A>, AllocError> {
    fault.to_string(alloc)
}
