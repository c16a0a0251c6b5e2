//! What `explain` prints of one line of a transcript.
ghost use Rattle.std.specs.Prelude.{◌≡◌, ◌++◌, IfOk, IfSome, IfNone};
ghost use Rattle.pw_info.specs.Passing.{Writes};
ghost use Rattle.pw_decl.specs.inside.Fields.{declared};
ghost use Rattle.pw_sessions.specs.Reply as replies;
ghost use Rattle.pw_transcript.specs.ReplyText.{text_of_reply};
ghost use Rattle.workbench.specs.Explaining.{IsBlockOf, IsNotRefused, IsToldOf, title_of};

use pw_decl::Declaration;
use pw_explain::{explain_refusal, write_explanation, write_line};
use pw_info::{Failed, Output, Writing, put_all};
use pw_sessions::{Refusal, Reply};
use pw_transcript::{read_command, write_reply};
use std::alloc::{AllocError, Allocator};

// Writes the reply that refuses a line.
fn write_refused<A: Allocator + Copy, O: Output>(
    number: u32,
    refusal: Refusal,
    declaration: &Declaration<'_, A>,
    output: &mut O,
) -> Result<(), Failed>
    ensures { Writes O.passes O.has_failed output.old output.new result
        (text_of_reply (declared declaration.now) number (replies.Refused refusal)) }
{
    let reply: Reply<A> = Reply::Refused(refusal);
    write_reply(number, &reply, declaration, output)
}

// Writes the first line of a block.
#[tactic(auto, using(pw_info::proofs::PassingFacts::first_fails, pw_info::proofs::PassingFacts::second_writes))]
fn write_title<A: Allocator + Copy, O: Output>(
    number: u32,
    refusal: Refusal,
    declaration: &Declaration<'_, A>,
    output: &mut O,
) -> Result<(), Failed>
    ensures { Writes O.passes O.has_failed output.old output.new result
        (title_of (declared declaration.now) number refusal) }
{
    put_all(output, b"transcript line ")?;
    write_refused(number, refusal, declaration, output)
}

// The first line of a block, with its line end.
fn title<A: Allocator + Copy>(
    alloc: A,
    number: u32,
    refusal: Refusal,
    declaration: &Declaration<'_, A>,
) -> Result<Vec<u8, A>, AllocError>
    ensures { IfOk result (λ title. title.items ≡ title_of (declared declaration.now) number refusal) }
{
    let mut output = Writing::new(Vec::new(alloc));
    match write_title(number, refusal, declaration, &mut output) {
        Ok(()) => Ok(output.into_writer()),
        Err(_) => Err(AllocError),
    }
}

// The lines of a block after the first.
fn told<A: Allocator + Copy>(
    alloc: A,
    table: &[u8],
    text: &[u8],
    declaration: &Declaration<'_, A>,
    line: &[u8],
    refusal: Refusal,
) -> Result<Vec<u8, A>, AllocError>
    ensures { IfOk result (λ told.
        IsToldOf (declared declaration.now) refusal line.now told.items) }
{
    let explanation = explain_refusal(table, text, declaration, line, refusal);
    let mut told = Vec::new(alloc);
    write_line(&mut told, line, explanation.spot)?;
    write_explanation(alloc, &mut told, &explanation)?;
    Ok(told)
}

// Both together.
fn joined<A: Allocator>(mut front: Vec<u8, A>, rest: Vec<u8, A>) -> Result<Vec<u8, A>, AllocError>
    ensures { IfOk result (λ all. all.items ≡ front.items ++ rest.items) }
{
    front.extend_from_slice(&rest)?;
    Ok(front)
}

/// What `explain` prints of the line of this number: None unless `run` refuses the line, and
/// otherwise a block, which begins with the reply of `run`.
///
/// `table` is the table of the procedures, and `text` that of the declaration.
pub fn block_of<A: Allocator + Copy>(
    alloc: A,
    table: &[u8],
    text: &[u8],
    declaration: &Declaration<'_, A>,
    number: u32,
    line: &[u8],
) -> Result<Option<Vec<u8, A>>, AllocError>
    ensures some { IfOk result (λ told. IfSome told (λ block.
        IsBlockOf (declared declaration.now) number line.now block.items)) }
    ensures none { IfOk result (λ told. IfNone told
        (IsNotRefused (declared declaration.now) line.now)) }
{
    let refusal = match read_command(line, declaration) {
        Ok(None) => return Ok(None),
        Ok(Some(_)) => return Ok(None),
        Err(refusal) => refusal,
    };
    let title = title(alloc, number, refusal, declaration)?;
    let told = told(alloc, table, text, declaration, line, refusal)?;
    let block = joined(title, told)?;
    Ok(Some(block))
}
