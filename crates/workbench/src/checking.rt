//! What `check` says of a declaration.
ghost use Rattle.std.specs.Prelude.{OnOk, IfErr};
ghost use Rattle.pw_procs.specs.Registry.{procedures_in};
ghost use Rattle.workbench.specs.Ending.{IsDeclaration, IsToldOfText};

use crate::fault::Fault;
use pw_decl::{Declaration, read_declaration};
use pw_procs::Registry;
use std::alloc::{AllocError, Allocator};

// The line that says how much is declared, without its line end.
fn count_line<A: Allocator + Copy>(
    alloc: A,
    declaration: &Declaration<'_, A>,
) -> Result<String<A>, AllocError> {
    let (users, premises) = (declaration.users(), declaration.premises());
    let (cells, sets) = (declaration.cells(), declaration.sets());
    let compounds = declaration.compounds();
    format!(in alloc;
        "ok users {users} premises {premises} cells {cells} sets {sets} compounds {compounds}"
    )
}

/// The line that says how much a declaration of this text declares, without its line end; or the
/// fault.
pub fn check_line<A: Allocator + Copy>(
    alloc: A,
    text: &[u8],
    registry: &Registry,
) -> Result<String<A>, Fault<'static>>
    ensures ok { OnOk result (IsDeclaration (procedures_in registry.now) text.now) }
    ensures err { IfErr result (IsToldOfText (procedures_in registry.now) text.now) }
{
    match read_declaration(alloc, text, registry) {
        Ok(declaration) => match count_line(alloc, &declaration) {
            Ok(line) => Ok(line),
            Err(_) => Err(Fault::Memory),
        },
        Err(fault) => Err(Fault::Declaration(fault)),
    }
}
