//! Sessions over an allocator that refuses growths. A line that runs out of memory counts as blank.

mod again;
mod calm;
mod turns;
mod with_output;

use super::worked::Session;
use crate::sessions::{answered, outcome, whole};
use pw_testing::Refusing;
use pw_transcript::{Lines, RunFault};
use std::alloc::Global;
use std::process::Abort;
use std::test::Fail;

// What a run came to.
#[derive(Drop)]
struct Outcome {
    answer: Result<Lines, RunFault>,
    written: String,
}

// What a run over the session comes to with this allocator. It gives back all memory that it took,
// that of the declaration too.
fn run_with<R: Abort + AllocGlobal>(
    rt: &R,
    session: Session<'_>,
    refusing: &Refusing<Global>,
) -> Result<Outcome, Fail> {
    let alloc = rt.alloc();
    let ample = Refusing::nth(alloc, 0);
    let transcript = whole(alloc, session.rows)?;
    let (answer, written) = outcome(
        alloc,
        &ample,
        refusing,
        session.declaration,
        transcript.as_str(),
    )?;
    assert_eq!(rt; ample.given_back(), ample.taken());
    assert_eq!(rt; refusing.given_back(), refusing.taken());
    Ok(Outcome { answer, written })
}

// The number of lines of a run that ended well, and the number of its replies.
fn counts_of(answer: Result<Lines, RunFault>) -> Result<(usize, usize), RunFault> {
    match answer {
        Ok(Lines { lines, replies }) => Ok((lines as usize, replies as usize)),
        Err(fault) => Err(fault),
    }
}

// Checks that a run over `lines` lines wrote these replies.
fn wrote<R: Abort>(rt: &R, outcome: &Outcome, lines: usize, replies: &str, at: u64) {
    let counts = (lines, replies.lines().count());
    assert_eq!(rt; outcome.written.as_str(), replies, "at {at}");
    assert_eq!(rt; counts_of(outcome.answer), Ok(counts), "at {at}");
}

// The number of growths that a run over the first `lines` lines of the session asks for. Checks
// that it answers them as the rows say.
fn growths_of<R: Abort + AllocGlobal>(
    rt: &R,
    session: Session<'_>,
    lines: usize,
) -> Result<u64, Fail> {
    let first = Session {
        declaration: session.declaration,
        rows: session.rows.get(..lines).ok_or("there are fewer lines")?,
    };
    let counting = Refusing::nth(rt.alloc(), 0);
    let outcome = run_with(rt, first, &counting)?;
    let replies = answered(rt.alloc(), first.rows)?;
    wrote(rt, &outcome, lines, replies.as_str(), 0);
    Ok(counting.calls())
}
