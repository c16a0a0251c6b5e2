//! A refused growth and a failing output in one run. The run writes a front of what it writes where
//! the growth alone is refused.

use super::super::worked::{COPYING, Session};
use super::{Outcome, growths_of, run_with};
use crate::ends::{Drip, Failing, Sink};
use crate::sessions::{run_over, said};
use pw_info::{Output, Writing};
use pw_testing::Refusing;
use pw_transcript::{Lines, Reading, RunFault};
use std::process::Abort;
use std::test::Fail;

// The growth to refuse, the byte at which the output fails, and how often it does.
#[derive(Clone, Copy)]
struct Fault {
    growth: u64,
    byte: usize,
    failing: Failing,
}

// What a run with a fault came to: its answer, whether the output failed, and what the output took.
#[derive(Drop)]
struct Faulty {
    answer: Result<Lines, RunFault>,
    output_failed: bool,
    written: Vec<u8>,
}

// What a run over the session with this fault comes to. It gives back all memory that it took.
fn run_faulty<R: Abort + AllocGlobal>(
    rt: &R,
    session: Session<'_>,
    fault: Fault,
) -> Result<Faulty, Fail> {
    let (growth, byte, alloc) = (fault.growth, fault.byte, rt.alloc());
    let (ample, refusing) = (Refusing::nth(alloc, 0), Refusing::nth(alloc, growth));
    let transcript = said(alloc, session.rows)?;
    let mut input = Reading::new(Drip::new(transcript.as_str(), usize::MAX));
    let mut output = Writing::new(Sink::new(alloc, byte, fault.failing));
    let answer = run_over(
        alloc,
        &ample,
        &refusing,
        session.declaration,
        &mut input,
        &mut output,
    )?;
    assert_eq!(rt; ample.given_back(), ample.taken(), "at {growth} and {byte}");
    assert_eq!(rt;
        refusing.given_back(),
        refusing.taken(),
        "at {growth} and {byte}"
    );
    Ok(Faulty {
        answer,
        output_failed: output.failed(),
        written: output.into_writer().text,
    })
}

// Checks that a run over the session with this fault writes what it writes where the growth alone
// is refused, up to the byte.
fn writes_a_front<R: Abort + AllocGlobal>(
    rt: &R,
    session: Session<'_>,
    fault: Fault,
    alone: &Outcome,
) -> Result<(), Fail> {
    let (growth, byte) = (fault.growth, fault.byte);
    let run = run_faulty(rt, session, fault)?;
    let wanted = alone.written.as_bytes();
    let fails = byte < wanted.len();
    assert_eq!(rt; run.output_failed, fails, "at {growth} and {byte}");
    let ends = if fails {
        Err(RunFault::Write)
    } else {
        alone.answer
    };
    assert_eq!(rt; run.answer, ends, "at {growth} and {byte}");
    let front = &wanted[..byte.min(wanted.len())];
    assert_eq!(rt; run.written.as_slice(), front, "at {growth} and {byte}");
    Ok(())
}

// Checks this at each byte at which the output may fail, and once where it does not fail.
fn writes_each_front<R: Abort + AllocGlobal>(
    rt: &R,
    session: Session<'_>,
    growth: u64,
    failing: Failing,
) -> Result<(), Fail> {
    let alone = run_with(rt, session, &Refusing::nth(rt.alloc(), growth))?;
    for byte in 0..=alone.written.len() {
        let fault = Fault {
            growth,
            byte,
            failing,
        };
        writes_a_front(rt, session, fault, &alone)?;
    }
    Ok(())
}

// Checks this for each growth of the run.
fn writes_fronts_whichever_growth<R: Abort + AllocGlobal>(
    rt: &R,
    session: Session<'_>,
    failing: Failing,
) -> Result<(), Fail> {
    let growths = growths_of(rt, session, session.rows.len())?;
    for growth in 1..growths.saturating_add(1) {
        writes_each_front(rt, session, growth, failing)?;
    }
    Ok(())
}

#[test]
fn a_growth_refused_and_an_output_that_fails_once(rt: HostRuntime) -> Result<(), Fail> {
    writes_fronts_whichever_growth(&rt, COPYING, Failing::Once)
}

#[test]
fn a_growth_refused_and_an_output_that_fails_for_good(rt: HostRuntime) -> Result<(), Fail> {
    writes_fronts_whichever_growth(&rt, COPYING, Failing::ForGood)
}
