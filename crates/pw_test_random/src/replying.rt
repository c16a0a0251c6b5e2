//! The reply to a line over a workbench.

ghost use Rattle.std.specs.Prelude.{◌+◌, ◌≤◌};
ghost use Rattle.pw_decl.specs.inside.Fields.{declared};
ghost use Rattle.pw_sessions.specs.inside.Fields.{state};
ghost use Rattle.pw_transcript.specs.Limits.{most_lines};
ghost use Rattle.pw_transcript.specs.inside.Answering.{IsLeft};

use pw_decl::Declaration;
use pw_sessions::{Reply, Workbench};
use pw_transcript::read_command;
use std::alloc::Allocator;

/// The reply to the line of this number, if it says a command.
pub fn reply_to<A: Allocator + Copy>(
    declaration: &Declaration<'_, A>,
    number: u32,
    line: &[u8],
    workbench: &mut Workbench<'_, '_, A>,
) -> Option<Reply<A>>
    requires left { IsLeft (declared declaration.now) number (state workbench.old) }
    requires most { number ≤ most_lines }
    ensures { IsLeft (declared declaration.now) (number + 1) (state workbench.new) }
{
    // Cells have kinds whose members are named.
    declaration.limits();
    match read_command(line, declaration) {
        Ok(Some(command)) => Some(workbench.command(number, &command)),
        _ => None,
    }
}
