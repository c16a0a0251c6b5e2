//! Compounds as they are kept, ended or open, and where the reader of a text is.

use crate::step::Step;
use pw_info::Kind;
use pw_procs::NameTable;
use std::alloc::{Allocator, Global};

/// The place of a line.
#[derive(Drop)]
pub(crate) enum Place<A: Allocator = Global> {
    /// Before the header.
    BeforeHeader,
    /// Outside any compound.
    Outside,
    /// Inside a compound.
    Inside(OpenCompound<A>),
}

/// The number of procedure instances and the number of inner cells that something expands to.
#[derive(Clone, Copy, Debug, PartialEq, Eq)]
pub(crate) struct Size {
    pub(crate) instances: u32,
    pub(crate) inner_cells: u32,
}

/// The kinds of the parameters, the lines, and the size of the expansion.
#[derive(Drop)]
pub(crate) struct Compound<A: Allocator = Global> {
    pub(crate) parameters: Vec<Kind, A>,
    pub(crate) steps: Vec<Step, A>,
    pub(crate) size: Size,
}

/// A compound that has begun and not ended.
#[derive(Drop)]
pub(crate) struct OpenCompound<A: Allocator = Global> {
    pub(crate) name: String<A>,
    // The names of the parameters, and then of the private cells so far.
    pub(crate) names: NameTable<A>,
    // The kinds of the same.
    pub(crate) kinds: Vec<Kind, A>,
    pub(crate) compound: Compound<A>,
}
