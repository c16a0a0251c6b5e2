//! Sessions: rows of what users say and what they are answered. A row with an empty answer gets no
//! reply.

use pw_decl::Declaration;
use pw_info::{Output, Writing};
use pw_testing::texts::{ended, joined};
use pw_testing::worlds::{OverDeclaration, over_text};
use pw_transcript::{Input, Lines, Reading, RunFault, run};
use std::alloc::{AllocError, Allocator, Global};
use std::process::Abort;
use std::test::Fail;

// Answers a transcript over a declaration. The run's growths are those of `memory`.
#[derive(Drop)]
struct Running<'a, A: Allocator, I, O> {
    memory: A,
    input: &'a mut I,
    output: &'a mut O,
}

impl<A: Allocator + Copy, I: Input, O: Output> OverDeclaration<A> for Running<'_, A, I, O> {
    type Answer = Result<Result<Lines, RunFault>, Fail>;

    fn over(self, declaration: &Declaration<'_, A>) -> Result<Result<Lines, RunFault>, Fail> {
        let Running {
            memory,
            input,
            output,
        } = self;
        if input.failed() || input.ended() || output.failed() {
            return Err("an end does not work".into());
        }
        Ok(run(memory, declaration, input, output))
    }
}

/// What a run over the declaration of this text comes to. Its own growths are those of `memory`,
/// and those of the declaration are those of `reading`.
pub fn run_over<A: Allocator + Copy, I: Input, O: Output>(
    alloc: Global,
    reading: A,
    memory: A,
    declaration: &str,
    input: &mut I,
    output: &mut O,
) -> Result<Result<Lines, RunFault>, Fail> {
    let running = Running {
        memory,
        input,
        output,
    };
    over_text(alloc, reading, declaration, running)?
}

/// The same with ample memory.
pub fn run_amply<I: Input, O: Output>(
    alloc: Global,
    declaration: &str,
    input: &mut I,
    output: &mut O,
) -> Result<Result<Lines, RunFault>, Fail> {
    run_over(alloc, alloc, alloc, declaration, input, output)
}

/// What a run over the declaration of this text came to, and what it wrote. Its own growths are
/// those of `memory`, and those of the declaration are those of `reading`.
pub fn outcome<A: Allocator + Copy>(
    alloc: Global,
    reading: A,
    memory: A,
    declaration: &str,
    transcript: &str,
) -> Result<(Result<Lines, RunFault>, String), Fail> {
    let mut input = Reading::new(transcript.as_bytes());
    let mut output = Writing::new(Vec::new(alloc));
    let answer = run_over(alloc, reading, memory, declaration, &mut input, &mut output)?;
    Ok((answer, String::from_utf8(output.into_writer())?))
}

/// What users say in a session, line by line. The last line is not ended.
pub fn said(alloc: Global, rows: &[(&str, &str)]) -> Result<String, AllocError> {
    let mut lines = Vec::new(alloc);
    for (line, _) in rows {
        lines.push(*line)?;
    }
    joined(alloc, &lines)
}

/// The same, with the last line ended too.
pub fn whole(alloc: Global, rows: &[(&str, &str)]) -> Result<String, AllocError> {
    let mut lines = Vec::new(alloc);
    for (line, _) in rows {
        lines.push(*line)?;
    }
    ended(alloc, &lines)
}

/// The replies of a session, each with the number of its line.
pub fn answered(alloc: Global, rows: &[(&str, &str)]) -> Result<String, AllocError> {
    let mut text = String::new(alloc);
    let mut number = 0u32;
    for (_, reply) in rows {
        number = number.saturating_add(1);
        if !reply.is_empty() {
            let line = format!(in alloc; "{number}: {reply}\n")?;
            text.push_str(line.as_str())?;
        }
    }
    Ok(text)
}

/// Checks that a run over the declaration answers the transcript by these replies.
pub fn answers_text<R: Abort + AllocGlobal>(
    rt: &R,
    declaration: &str,
    transcript: &str,
    wanted: &str,
) -> Result<(), Fail> {
    let (answer, got) = outcome(rt.alloc(), rt.alloc(), rt.alloc(), declaration, transcript)?;
    assert!(rt;
        answer.is_ok() && got.as_str() == wanted,
        "{answer:?}\ndeclaration:\n{declaration}\ntranscript:\n{transcript}\nexpected:\n{wanted}\ngot:\n{got}"
    );
    Ok(())
}

/// Checks that a run over the declaration answers the session as its rows say, with the last line
/// ended and not.
pub fn answers<R: Abort + AllocGlobal>(
    rt: &R,
    declaration: &str,
    rows: &[(&str, &str)],
) -> Result<(), Fail> {
    let wanted = answered(rt.alloc(), rows)?;
    let unended = said(rt.alloc(), rows)?;
    answers_text(rt, declaration, unended.as_str(), wanted.as_str())?;
    let ended = ended(rt.alloc(), &[unended.as_str()])?;
    answers_text(rt, declaration, ended.as_str(), wanted.as_str())
}
