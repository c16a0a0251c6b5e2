//! A transcript from end to end: its lines in, their replies out.

ghost use Rattle.std.specs.Prelude.{◌≡◌, [], true, false, IfOk, OnOk, IsErrOf};
ghost use Rattle.pw_decl.specs.inside.Fields.{declared};
ghost use Rattle.pw_transcript.specs.FromScratch.{RepliesToAll, RepliesToEnded, RepliesUpToLimit};
ghost use Rattle.pw_transcript.specs.FromScratch.{RepliesInPart};
ghost use Rattle.pw_transcript.specs.inside.Gathering.{output_of, held_of, GatheredPasses};
ghost use Rattle.pw_transcript.specs.inside.Running.{progress, AnsweredSoFar, IsRunning};

use crate::gathered::Gathered;
use crate::input::Input;
use crate::progress::{Fed, Progress};
use pw_decl::Declaration;
use pw_info::Output;
use pw_network::Network;
use pw_sessions::Workbench;
use std::alloc::Allocator;
use thiserror::Error;

// The greatest number of bytes that a run answers.
const MOST_BYTES: u32 = 67_108_864;

// The greatest number of bytes that are taken at once.
const CHUNK: usize = 65_536;

/// The number of lines, and the number of replies.
#[derive(Clone, Copy, Debug, PartialEq, Eq)]
pub struct Lines {
    /// The number of lines.
    pub lines: u32,
    /// The number of replies. Blank lines and comments get none.
    pub replies: u32,
}

/// Why a run ended before its input did.
#[derive(Clone, Copy, Debug, PartialEq, Eq, Error)]
pub enum RunFault {
    /// The input failed.
    #[error("transcript: read fault")]
    Read,
    /// The output failed.
    #[error("transcript: write fault")]
    Write,
    /// Memory was refused before the first byte was taken.
    #[error("transcript: memory")]
    Memory,
    /// There are more than 67,108,864 bytes, or there is a byte after 1,000,000 ended lines.
    #[error("transcript: limit")]
    Limit,
}

// Answers all lines of the input, of which nothing has come so far. Takes it chunk by chunk, and
// answers each chunk before it takes the next.
fn answer_all<A: Allocator + Copy, I: Input, O: Output>(
    so_far: &mut Progress<'_, '_, A>,
    declaration: &Declaration<'_, A>,
    input: &mut I,
    output: &mut Gathered<'_, O>,
) -> Result<Lines, RunFault>
    requires start { AnsweredSoFar (GatheredPasses O.passes) (declared declaration.now) output.old output.old
        (progress so_far.old) [] }
    requires running { IsRunning (declared declaration.now) (progress so_far.old) }
    requires empty { held_of output.old ≡ [] }
    ensures ok { IfOk result (RepliesToAll I.takes (GatheredPasses O.passes)
        (declared declaration.now) input.old input.new output.old output.new) }
    ensures ended { OnOk result (I.has_ended input.new ≡ true) }
    ensures nothing_left { OnOk result (I.nothing_left input.new) }
    ensures works { OnOk result (O.has_failed (output_of output.new).now ≡ false) }
    ensures passed_on { OnOk result (held_of output.new ≡ []) }
    ensures read { IsErrOf result RunFault.Read → RepliesToEnded I.takes (GatheredPasses O.passes)
        (declared declaration.now) input.old input.new output.old output.new }
    ensures read_failed { IsErrOf result RunFault.Read → I.has_failed input.new ≡ true }
    ensures read_passed_on { IsErrOf result RunFault.Read → held_of output.new ≡ [] }
    ensures write { IsErrOf result RunFault.Write →
        RepliesInPart I.takes (GatheredPasses O.passes) (declared declaration.now) I.has_ended
        input.old input.new output.old output.new }
    ensures write_failed { IsErrOf result RunFault.Write
        → O.has_failed (output_of output.new).now ≡ true }
    ensures limit { IsErrOf result RunFault.Limit → RepliesUpToLimit I.takes (GatheredPasses
        O.passes) (declared declaration.now) input.old input.new output.old output.new }
    ensures limit_passed_on { IsErrOf result RunFault.Limit → held_of output.new ≡ [] }
    ensures no_memory { IsErrOf result RunFault.Memory → ⊥ }
{
    let mut chunk = [0u8; CHUNK];
    let mut total = 0u32;
    loop {
        let room = CHUNK.min((MOST_BYTES + 1 - total) as usize);
        let taken = match input.take(&mut chunk[..room]) {
            Ok(taken) => taken,
            Err(_) => return Err(RunFault::Read),
        };
        if taken == 0 {
            break;
        }
        let kept = taken.min((MOST_BYTES - total) as usize);
        let fed = match so_far.feed(declaration, &chunk[..kept], output) {
            Ok(fed) => fed,
            Err(_) => return Err(RunFault::Write),
        };
        match output.flush() {
            Ok(()) => {}
            Err(_) => return Err(RunFault::Write),
        }
        match fed {
            Fed::Whole => {}
            Fed::PastLimit => return Err(RunFault::Limit),
        }
        // A byte after the last one that is looked at.
        if kept < taken {
            return Err(RunFault::Limit);
        }
        total += taken as u32;
    }
    match so_far.end(declaration, output) {
        Ok(()) => {}
        Err(_) => return Err(RunFault::Write),
    }
    match output.flush() {
        Ok(()) => Ok(so_far.counts),
        Err(_) => Err(RunFault::Write),
    }
}

/// Answers the lines of the input, one after another, until its end, and writes the replies to the
/// output. The result counts the lines and the replies.
///
/// What is taken is answered before more is taken, and the replies written are passed on then. A
/// line ends at a line feed; the last line needs none. There are at most 1,000,000 lines and
/// 67,108,864 bytes. At most 67,108,865 bytes are taken, and at most 65,536 past the limits. A
/// failure ends the run with
/// - `Memory`, if there is no memory for the cells and the users' beliefs: neither the input nor
///   the output is touched,
/// - `Read`, if the input failed: the replies to all lines that ended are written then,
/// - `Write`, if the output failed, or had failed before: a front of the replies is written then,
///   to lines that ended, and to a last line without a line feed only if the input has ended,
/// - `Limit`, at a byte after 1,000,000 ended lines, or at the 67,108,865th byte: the replies to
///   all lines that end before it are written then.
pub fn run<A: Allocator + Copy, I: Input, O: Output>(
    alloc: A,
    declaration: &Declaration<'_, A>,
    input: &mut I,
    output: &mut O,
) -> Result<Lines, RunFault>
    ensures ok { IfOk result (RepliesToAll I.takes O.passes
        (declared declaration.now) input.old input.new output.old output.new) }
    ensures ended { OnOk result (I.has_ended input.new ≡ true) }
    ensures nothing_left { OnOk result (I.nothing_left input.new) }
    ensures works { OnOk result (O.has_failed output.new ≡ false) }
    ensures read { IsErrOf result RunFault.Read → RepliesToEnded I.takes O.passes
        (declared declaration.now) input.old input.new output.old output.new }
    ensures read_failed { IsErrOf result RunFault.Read → I.has_failed input.new ≡ true }
    ensures write { IsErrOf result RunFault.Write → RepliesInPart I.takes O.passes
        (declared declaration.now) I.has_ended input.old input.new output.old output.new }
    ensures write_failed { IsErrOf result RunFault.Write → O.has_failed output.new ≡ true }
    ensures memory { IsErrOf result RunFault.Memory → (input.new ≡ input.old)
        × (output.new ≡ output.old) }
    ensures limit { IsErrOf result RunFault.Limit → RepliesUpToLimit I.takes O.passes
        (declared declaration.now) input.old input.new output.old output.new }
{
    if output.failed() {
        return Err(RunFault::Write);
    }
    let Ok(network) = Network::new(alloc, declaration) else {
        return Err(RunFault::Memory);
    };
    let Ok(workbench) = Workbench::new(alloc, declaration, network) else {
        return Err(RunFault::Memory);
    };
    let mut so_far = Progress::new(workbench);
    let mut gathered = Gathered::new(output);
    answer_all(&mut so_far, declaration, input, &mut gathered)
}
