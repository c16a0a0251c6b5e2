//! Declarations for tests: texts that several tests share, and tasks that run over a declaration
//! once its text is read.

use crate::procedures::{OverRegistry, SOUND, over_procedures};
use pw_decl::{DeclFault, Declaration, read_declaration};
use pw_procs::Registry;
use std::alloc::{Allocator, Global};
use std::test::Fail;

// The lines that declare two users and the premises that they may tell under, and then these lines.
macro_rules! world {
    ($($line:literal)*) => {
        concat!(
            "workbench 1\n# general\nuser ann\nuser bob\npremise a\npremise b\npremise c\npremise mine of bob\n",
            $($line, "\n",)*
        )
    };
}

/// Two interval cells.
pub const WORLD: &str = world! { "cell x interval" "cell y interval" };

/// Cells of each kind, and a compound with an inner cell.
pub const GENERAL: &str = world! {
    "set color red green blue"
    "cell x interval"
    "cell y interval"
    "cell t interval"
    "cell k exact"
    "cell m exact"
    "cell e bool"
    "cell g color"
    "cell w color"
    "cell q sign"
    "compound apart p interval q interval"
    "local d interval"
    "copy p d"
    "copy q d"
    "end"
};

/// What a test does over a declaration.
pub trait OverDeclaration<A: Allocator> {
    /// What the task answers.
    type Answer;

    /// Does the task.
    fn over(self, declaration: &Declaration<'_, A>) -> Self::Answer;
}

// Reads a declaration, and then runs the task over it.
#[derive(Drop)]
struct Reading<'a, A: Allocator, T> {
    memory: A,
    text: &'a str,
    task: T,
}

impl<A: Allocator + Copy, T: OverDeclaration<A> + Drop> OverRegistry for Reading<'_, A, T> {
    type Answer = Result<T::Answer, DeclFault>;

    fn over(self, registry: &Registry) -> Result<T::Answer, DeclFault> {
        let Reading { memory, text, task } = self;
        let declaration = read_declaration(memory, text.as_bytes(), registry)?;
        Ok(task.over(&declaration))
    }
}

/// Runs the task over the declaration of this text, or answers the first fault of the text. Two of
/// the procedures have these names. The growths of the declaration are those of `memory`.
pub fn over_declaration<A: Allocator + Copy, T: OverDeclaration<A> + Drop>(
    alloc: Global,
    memory: A,
    names: [&str; 2],
    text: &str,
    task: T,
) -> Result<Result<T::Answer, DeclFault>, Fail> {
    over_procedures(alloc, names, Reading { memory, text, task })
}

/// Runs the task over the declaration of this text, which has no fault.
pub fn over_text<A: Allocator + Copy, T: OverDeclaration<A> + Drop>(
    alloc: Global,
    memory: A,
    text: &str,
    task: T,
) -> Result<T::Answer, Fail> {
    match over_declaration(alloc, memory, SOUND, text, task)? {
        Ok(answer) => Ok(answer),
        Err(_) => Err("no declaration".into()),
    }
}
