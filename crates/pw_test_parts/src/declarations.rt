//! Tests of declarations: what is read back, and faults.

mod faults;
mod questions;
mod reading_back;

use pw_decl::{DeclFault, Declaration};
use pw_testing::worlds::{OverDeclaration, over_declaration};
use std::alloc::{Allocator, Global};
use std::test::Fail;

/// How many of each thing are declared.
#[derive(Clone, Copy, PartialEq, Eq)]
pub struct Counts {
    pub users: u8,
    pub premises: u16,
    pub cells: u32,
    pub sets: u8,
    pub compounds: u8,
}

// Counts what a declaration declares.
#[derive(Drop)]
struct Counting;

impl<A: Allocator + Copy> OverDeclaration<A> for Counting {
    type Answer = Counts;

    fn over(self, declaration: &Declaration<'_, A>) -> Counts {
        Counts {
            users: declaration.users(),
            premises: declaration.premises(),
            cells: declaration.cells(),
            sets: declaration.sets(),
            compounds: declaration.compounds(),
        }
    }
}

/// Counts what the text declares, or answers its first fault. Two of the procedures have these
/// names. The growths of the declaration are those of `memory`.
pub fn counted<A: Allocator + Copy>(
    alloc: Global,
    memory: A,
    names: [&str; 2],
    text: &str,
) -> Result<Result<Counts, DeclFault>, Fail> {
    over_declaration(alloc, memory, names, text, Counting)
}
