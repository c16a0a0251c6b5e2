//! What is contradictory.
ghost use Rattle.std.specs.Prelude.{◌≡◌};

use std::alloc::{Allocator, Global};
use std::marker::Model;

/// What is contradictory in a worldview: declared cells by number, and attachments by line.
#[derive(Drop)]
pub struct Conflicts<A: Allocator = Global> {
    pub(crate) cells: Vec<u32, A>,
    pub(crate) lines: Vec<u32, A>,
}

impl<A: Allocator> Model for Conflicts<A> {
    ghost use Rattle.pw_reasons.specs.Conflicts.{Conflicts};
    ghost use Rattle.pw_reasons.specs.inside.Reasoning.{conflicts_code};

    ghost Value = { Conflicts };

    ghost coded = { conflicts_code };

    ghost view = { λ a. record { cells = a.cells.items; lines = a.lines.items } };
}

impl<A: Allocator> Conflicts<A> {
    /// The declared cells whose value is a contradiction, in declared order.
    pub fn cells(&self) -> &[u32]
        ensures { result.now ≡ self.now.cells }
    {
        &self.cells
    }

    /// The lines of the attachments that have an inner cell whose value is a contradiction, in
    /// rising order, each once.
    pub fn lines(&self) -> &[u32]
        ensures { result.now ≡ self.now.lines }
    {
        &self.lines
    }
}
