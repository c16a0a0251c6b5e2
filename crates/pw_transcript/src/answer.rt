//! The answer to one line.

ghost use Rattle.std.specs.Prelude.{◌≡◌, ◌+◌, ◌≤◌, true, false, codes, IfOk};
ghost use Rattle.std.specs.Prelude.{OnOk, OnErr, option_map};
ghost use Rattle.std.specs.Option.{option_copied};
ghost use Rattle.std.specs.Str.{bytes_eq};
ghost use Rattle.pw_decl.specs.inside.Fields.{declared};
ghost use Rattle.pw_sessions.specs.Reply.{Refused, Says};
ghost use Rattle.pw_sessions.specs.Workbench.{Workbench as Workbenches};
ghost use Rattle.pw_sessions.specs.inside.Fields.{state};
ghost use Rattle.pw_transcript.specs.Limits.{most_lines};
ghost use Rattle.pw_transcript.specs.Sentence.{Ask};
ghost use Rattle.pw_transcript.specs.inside.Answering.{AnswersLine, IsLeft, IsNextLine, ReadsAs, ReadsHeld};
ghost use Rattle.pw_transcript.specs.inside.Answering.{FailsInHeldReply, PassesHeldReply};
ghost use Rattle.pw_transcript.specs.inside.Forms.{cell_form, said_form, sentence_by, tell_form};
ghost use Rattle.pw_transcript.specs.inside.Forms.{sentence_form};

use crate::command_text::line_words;
use crate::reply_text::write_reply;
use crate::sentence::{is_ask, is_tell};
use crate::spoken::{read_ask, read_other, read_tell};
use pw_decl::Declaration;
use pw_info::{Failed, Output, Words};
use pw_sessions::{Command, Refusal, Reply, Workbench};
use std::alloc::Allocator;

// Answers a line that says this command. Inlined, so that what answers one command alone makes no
// room for the values that others need.
#[inline(always)]
fn answer_command<A: Allocator + Copy, O: Output>(
    declaration: &Declaration<'_, A>,
    number: u32,
    command: &Command,
    workbench: &mut Workbench<'_, '_, A>,
    output: &mut O,
) -> Result<bool, Failed>
    requires { IsNextLine (declared declaration.now) number
        (λ held. ReadsHeld (declared declaration.now) held (Says command.now)) (state workbench.old) }
    ensures { AnswersLine O.passes (declared declaration.now) O.has_failed number
        (λ held. ReadsHeld (declared declaration.now) held (Says command.now))
        (state workbench.old) (state workbench.new) output.old output.new result }
{
    // Cells have kinds whose members have names.
    declaration.limits();
    let reply = workbench.command(number, command);
    match write_reply(number, &reply, declaration, output) {
        Ok(()) => Ok(true),
        Err(fault) => Err(fault),
    }
}

// Answers a refused line. It does not take the workbench, since such a line never changes it. Never
// inlined: few lines are refused.
#[inline(never)]
fn answer_refused<A: Allocator + Copy, O: Output>(
    declaration: &Declaration<'_, A>,
    number: u32,
    refusal: Refusal,
    output: &mut O,
) -> Result<bool, Failed>
    ensures { (workbench : Workbenches) → IsLeft (declared declaration.now) number workbench
        → AnswersLine O.passes (declared declaration.now) O.has_failed number
        (λ held. ReadsHeld (declared declaration.now) held (Refused refusal))
        workbench workbench output.old output.new result }
{
    // Cells have kinds whose members have names.
    declaration.limits();
    let reply: Reply<A> = Reply::Refused(refusal);
    match write_reply(number, &reply, declaration, output) {
        Ok(()) => Ok(true),
        Err(fault) => Err(fault),
    }
}

// Answers a line that tells. Each of the commands that most lines have is answered by a function of
// its own, which makes room for its values alone. A line that was read is answered at once: a
// reading that waits in one place for commands and refusals would be copied there.
#[inline(never)]
fn answer_tell<A: Allocator + Copy, O: Output>(
    declaration: &Declaration<'_, A>,
    number: u32,
    user: &[u8],
    rest: Words<'_>,
    workbench: &mut Workbench<'_, '_, A>,
    output: &mut O,
) -> Result<bool, Failed>
    requires { IsNextLine (declared declaration.now) number
        (ReadsAs (declared declaration.now) (option_map (sentence_by user.now) (tell_form rest)))
        (state workbench.old) }
    ensures { AnswersLine O.passes (declared declaration.now) O.has_failed number
        (ReadsAs (declared declaration.now) (option_map (sentence_by user.now) (tell_form rest.entry)))
        (state workbench.old) (state workbench.new) output.old output.new result }
{
    match read_tell(declaration, user, rest) {
        Ok(command) => answer_command(declaration, number, &command, workbench, output),
        Err(refusal) => answer_refused(declaration, number, refusal, output),
    }
}

// Answers a line that asks.
#[inline(never)]
fn answer_ask<A: Allocator + Copy, O: Output>(
    declaration: &Declaration<'_, A>,
    number: u32,
    user: &[u8],
    rest: Words<'_>,
    workbench: &mut Workbench<'_, '_, A>,
    output: &mut O,
) -> Result<bool, Failed>
    requires { IsNextLine (declared declaration.now) number
        (ReadsAs (declared declaration.now) (option_map (sentence_by user.now) (cell_form Ask rest)))
        (state workbench.old) }
    ensures { AnswersLine O.passes (declared declaration.now) O.has_failed number
        (ReadsAs (declared declaration.now) (option_map (sentence_by user.now) (cell_form Ask rest.entry)))
        (state workbench.old) (state workbench.new) output.old output.new result }
{
    match read_ask(declaration, user, rest) {
        Ok(command) => answer_command(declaration, number, &command, workbench, output),
        Err(refusal) => answer_refused(declaration, number, refusal, output),
    }
}

// Answers a line of any other command, or of none.
#[inline(never)]
fn answer_other<A: Allocator + Copy, O: Output>(
    declaration: &Declaration<'_, A>,
    number: u32,
    user: &[u8],
    name: &[u8],
    rest: Words<'_>,
    workbench: &mut Workbench<'_, '_, A>,
    output: &mut O,
) -> Result<bool, Failed>
    requires tell { bytes_eq name.now (codes "tell") ≡ false }
    requires ask { bytes_eq name.now (codes "ask") ≡ false }
    requires next { IsNextLine (declared declaration.now) number
        (ReadsAs (declared declaration.now) (option_map (sentence_by user.now) (said_form name.now rest)))
        (state workbench.old) }
    ensures { AnswersLine O.passes (declared declaration.now) O.has_failed number
        (ReadsAs (declared declaration.now)
        (option_map (sentence_by user.now) (said_form name.now rest.entry)))
        (state workbench.old) (state workbench.new) output.old output.new result }
{
    match read_other(declaration, user, name, rest) {
        Ok(command) => answer_command(declaration, number, &command, workbench, output),
        Err(refusal) => answer_refused(declaration, number, refusal, output),
    }
}

// Answers a line of these words, after the one that names the user.
#[inline(always)]
fn answer_named<A: Allocator + Copy, O: Output>(
    declaration: &Declaration<'_, A>,
    number: u32,
    user: &[u8],
    name: &[u8],
    rest: Words<'_>,
    workbench: &mut Workbench<'_, '_, A>,
    output: &mut O,
) -> Result<bool, Failed>
    requires { IsNextLine (declared declaration.now) number
        (ReadsAs (declared declaration.now) (option_map (sentence_by user.now) (said_form name.now rest)))
        (state workbench.old) }
    ensures { AnswersLine O.passes (declared declaration.now) O.has_failed number
        (ReadsAs (declared declaration.now)
        (option_map (sentence_by user.now) (said_form name.now rest.entry)))
        (state workbench.old) (state workbench.new) output.old output.new result }
{
    if is_tell(name) {
        answer_tell(declaration, number, user, rest, workbench, output)
    } else if is_ask(name) {
        answer_ask(declaration, number, user, rest, workbench, output)
    } else {
        answer_other(declaration, number, user, name, rest, workbench, output)
    }
}

// Answers a line of these words.
#[inline(always)]
fn answer_words<A: Allocator + Copy, O: Output>(
    declaration: &Declaration<'_, A>,
    number: u32,
    mut words: Words<'_>,
    workbench: &mut Workbench<'_, '_, A>,
    output: &mut O,
) -> Result<bool, Failed>
    requires { IsNextLine (declared declaration.now) number
        (ReadsAs (declared declaration.now) (sentence_form words)) (state workbench.old) }
    ensures { AnswersLine O.passes (declared declaration.now) O.has_failed number
        (ReadsAs (declared declaration.now) (sentence_form words.entry))
        (state workbench.old) (state workbench.new) output.old output.new result }
{
    let Some(user) = words.next() else {
        return answer_refused(declaration, number, Refusal::Syntax, output);
    };
    let Some(name) = words.next() else {
        return answer_refused(declaration, number, Refusal::Syntax, output);
    };
    answer_named(declaration, number, user, name, words, workbench, output)
}

/// Answers the line of this number: its reply, if it gets one, is passed to the output. The line is
/// passed in if it has at most 1,024 bytes. The result is whether there was a reply. On `Failed`
/// the output failed, and a front of the reply was passed.
pub(crate) fn answer_line<A: Allocator + Copy, O: Output>(
    declaration: &Declaration<'_, A>,
    number: u32,
    line: Option<&[u8]>,
    workbench: &mut Workbench<'_, '_, A>,
    output: &mut O,
) -> Result<bool, Failed>
    requires left { IsLeft (declared declaration.now) number (state workbench.old) }
    requires most { number ≤ most_lines }
    ensures ok { IfOk result (PassesHeldReply O.passes (declared declaration.now) number
        (option_copied line.entry) (state workbench.old) (state workbench.new)
        output.old output.new) }
    ensures err { OnErr result (FailsInHeldReply O.passes (declared declaration.now) number
        (option_copied line.entry) (state workbench.old) output.old output.new) }
    ensures failed { OnErr result (O.has_failed output.new ≡ true) }
    ensures works { OnOk result (O.has_failed output.old ≡ false
        → O.has_failed output.new ≡ false) }
    ensures left { IsLeft (declared declaration.now) (number + 1) (state workbench.new) }
{
    // Cells have kinds whose members have names.
    declaration.limits();
    let Some(line) = line else {
        return answer_refused(declaration, number, Refusal::LineTooLong, output);
    };
    match line_words(line) {
        Ok(Some(words)) => answer_words(declaration, number, words, workbench, output),
        Ok(None) => Ok(false),
        Err(refusal) => answer_refused(declaration, number, refusal, output),
    }
}
