//! Declarations over the standard procedures: a text is read over them, and the declaration that it
//! spells is lent to a task.
ghost use Rattle.std.specs.Prelude.{List, IfOk, IfErr, ⊤};
ghost use Rattle.pw_procs.specs.Procedure.{Procedure};
ghost use Rattle.pw_decl.specs.BuiltIn.{HasPrelude};
ghost use Rattle.pw_decl.specs.Declaration.{Declared};
ghost use Rattle.pw_decl.specs.inside.Fields.{declared};
ghost use Rattle.pw_standard.specs.Lending.{IsFaultOverStandard, IsOverText, IsReadOver};
ghost use Rattle.pw_standard.specs.Procedures.{AreStandard};

use crate::procedures::{OverRegistry, over_standard};
use pw_decl::{DeclFault, DeclFaultKind, Declaration, read_declaration};
use pw_procs::Registry;
use std::alloc::Global;

/// A task over a declaration that was read over the standard procedures.
pub trait OverDeclaration {
    /// What the task answers.
    type Answer;

    // What it promises of its answer over this declaration, if an `impl` says so.
    ghost promise: { Self → Declared → Self.Answer → Type 0 } = { λ _ _ _. ⊤ };

    /// The answer of the task. The procedures of the declaration are the fifteen standard ones, and
    /// its first compounds are `sum`, `product` and `conditional`.
    fn over(self, declaration: &Declaration<'_>) -> Self::Answer
        requires standard { AreStandard (declared declaration.now).procedures }
        requires prelude { HasPrelude (declared declaration.now) }
        ensures { promise self (declared declaration.now) result };
}

// Reads the text over a registry, and lends the declaration to a task.
#[derive(Drop)]
struct Reading<'a, T> {
    alloc: Global,
    text: &'a [u8],
    task: T,
}

impl<T: OverDeclaration + Drop> OverRegistry for Reading<'_, T> {
    type Answer = Result<T::Answer, DeclFault>;

    ghost promise = { λ reading _. IsReadOver (T.promise reading.task) reading.text.now };

    fn over(self, registry: &Registry) -> Result<T::Answer, DeclFault> {
        let Reading { alloc, text, task } = self;
        let declaration = match read_declaration(alloc, text, registry) {
            Ok(declaration) => declaration,
            Err(fault) => return Err(fault),
        };
        Ok(task.over(&declaration))
    }
}

/// Reads the text of a declaration over the fifteen standard procedures, lends the declaration to
/// the task, and answers what the task answers.
///
/// The error is the first fault of the text, or `DeclFaultKind::Memory`, at line 0 if memory runs
/// out before the text is read.
pub fn over_text<T: OverDeclaration + Drop>(
    alloc: Global,
    text: &[u8],
    task: T,
) -> Result<T::Answer, DeclFault>
    ensures ok { IfOk result (IsOverText (T.promise task) text.now) }
    ensures err { IfErr result (IsFaultOverStandard text.now) }
{
    match over_standard(alloc, Reading { alloc, text, task }) {
        Ok(read) => read,
        Err(_) => Err(DeclFault {
            line: 0,
            why: DeclFaultKind::Memory,
        }),
    }
}
