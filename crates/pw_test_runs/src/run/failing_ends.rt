//! Ends that fail, once or for good. The first failure ends the run. What was passed before it
//! stays.

use super::worked::SWITCHING;
use crate::ends::{Drip, Failing, Sink};
use crate::sessions::{answered, run_amply, said, whole};
use pw_info::{Output, Writing};
use pw_testing::worlds::{GENERAL, WORLD};
use pw_transcript::{Input, Lines, Reading, RunFault};
use std::alloc::Global;
use std::process::Abort;
use std::test::Fail;

#[test]
fn a_failing_input_leaves_the_replies_to_ended_lines(rt: HostRuntime) -> Result<(), Fail> {
    let transcript = said(rt.alloc(), &[("ann ask x", ""), ("ann ask x", "")])?;
    // It fails within the second line, and would give the rest of it afterwards.
    let mut input = Reading::new(Drip::new(transcript.as_str(), 16));
    let mut output = Writing::new(Vec::new(rt.alloc()));
    let answer = run_amply(rt.alloc(), GENERAL, &mut input, &mut output)?;
    assert_eq!(rt; answer, Err(RunFault::Read));
    assert!(rt; input.failed() && !output.failed());
    assert_eq!(rt; input.reader().given, 16);
    let wanted = answered(rt.alloc(), &[("ann ask x", "nothing")])?;
    assert_eq!(rt; output.into_writer().as_slice(), wanted.as_bytes());
    Ok(())
}

// What a run over the transcript comes to if the output fails once, at this byte: whether the run
// answers all, whether the output failed, and what it took.
fn taken_until(
    alloc: Global,
    transcript: &str,
    breaks_at: usize,
) -> Result<(bool, bool, Vec<u8>), Fail> {
    let mut input = Reading::new(transcript.as_bytes());
    let mut output = Writing::new(Sink::new(alloc, breaks_at, Failing::Once));
    let answer = run_amply(alloc, WORLD, &mut input, &mut output)?;
    let failed = output.failed();
    Ok((answer.is_ok(), failed, output.into_writer().text))
}

// More replies than are held back at once.
#[test]
fn many_replies_are_passed_on_or_a_front(rt: HostRuntime) -> Result<(), Fail> {
    let rows = [("ann ask x", "nothing"); 2000];
    let transcript = said(rt.alloc(), &rows)?;
    let wanted = answered(rt.alloc(), &rows)?;
    let wanted = wanted.as_bytes();
    assert_eq!(rt; wanted.len(), 26_893);
    for breaks_at in [0, 1, 16_383, 16_384, 16_385, 26_892, 26_893, 26_894usize] {
        let (all, failed, text) = taken_until(rt.alloc(), transcript.as_str(), breaks_at)?;
        assert_eq!(rt; all, breaks_at >= wanted.len(), "at {breaks_at}");
        assert_eq!(rt; failed, !all, "at {breaks_at}");
        let front = &wanted[..breaks_at.min(wanted.len())];
        assert_eq!(rt; text.as_slice(), front, "at {breaks_at}");
    }
    Ok(())
}

#[test]
fn each_fault_has_its_text(rt: HostRuntime) -> Result<(), Fail> {
    for (fault, text) in [
        (RunFault::Read, "transcript: read fault"),
        (RunFault::Write, "transcript: write fault"),
        (RunFault::Memory, "transcript: memory"),
        (RunFault::Limit, "transcript: limit"),
    ] {
        assert_eq!(rt; fault.to_string(rt.alloc())?.as_str(), text);
    }
    Ok(())
}

// What a run came to that moved one byte at a time.
#[derive(Drop)]
struct Dripped {
    answer: Result<Lines, RunFault>,
    // How many bytes the input gave, whether it failed, and whether it ended.
    given: usize,
    input_failed: bool,
    input_ended: bool,
    // Whether the output failed, and what it took.
    output_failed: bool,
    written: Vec<u8>,
}

// A run whose input fails at one byte, and its output at another.
fn drip(
    alloc: Global,
    transcript: &str,
    input_breaks_at: usize,
    output_breaks_at: usize,
    failing: Failing,
) -> Result<Dripped, Fail> {
    let mut input = Reading::new(Drip::failing(transcript, input_breaks_at, failing));
    let mut output = Writing::new(Sink::new(alloc, output_breaks_at, failing));
    let answer = run_amply(alloc, GENERAL, &mut input, &mut output)?;
    Ok(Dripped {
        answer,
        given: input.reader().given,
        input_failed: input.failed(),
        input_ended: input.ended(),
        output_failed: output.failed(),
        written: output.into_writer().text,
    })
}

// How many lines end before this byte of the text.
fn ended_before(text: &[u8], byte: usize) -> usize {
    let front = &text[..byte.min(text.len())];
    front.iter().filter(|it| **it == b'\n').count()
}

// Checks that a run without a failure answers each line.
fn answers_all<R: Abort + AllocGlobal>(rt: &R, run: &Dripped) -> Result<(), Fail> {
    let wanted = answered(rt.alloc(), SWITCHING.rows)?;
    let all = Lines {
        lines: 17,
        replies: 17,
    };
    assert_eq!(rt; run.answer, Ok(all));
    assert_eq!(rt; run.written.as_slice(), wanted.as_bytes());
    assert!(rt; run.input_ended && !run.input_failed && !run.output_failed);
    Ok(())
}

// Checks that a run whose input fails at this byte takes no more of it, and writes the replies to
// just the lines that ended before.
fn answers_ended_lines<R: Abort + AllocGlobal>(
    rt: &R,
    transcript: &str,
    run: &Dripped,
    breaks_at: usize,
) -> Result<(), Fail> {
    let lines = ended_before(transcript.as_bytes(), breaks_at);
    let rows = SWITCHING.rows.get(..lines).ok_or("there are more lines")?;
    let wanted = answered(rt.alloc(), rows)?;
    assert_eq!(rt; run.answer, Err(RunFault::Read), "at {breaks_at}");
    assert_eq!(rt; run.written.as_slice(), wanted.as_bytes(), "at {breaks_at}");
    assert_eq!(rt; run.given, breaks_at);
    assert!(rt;
        run.input_failed && !run.input_ended && !run.output_failed,
        "at {breaks_at}"
    );
    Ok(())
}

// Checks this at each take. Then checks a run without a failure: one take more than there are bytes
// gives the end.
fn input_fails_at_each_take<R: Abort + AllocGlobal>(
    rt: &R,
    transcript: &str,
    failing: Failing,
) -> Result<(), Fail> {
    for breaks_at in 0..=transcript.len() {
        let run = drip(rt.alloc(), transcript, breaks_at, usize::MAX, failing)?;
        answers_ended_lines(rt, transcript, &run, breaks_at)?;
    }
    let breaks_at = transcript.len().saturating_add(1);
    let run = drip(rt.alloc(), transcript, breaks_at, usize::MAX, failing)?;
    answers_all(rt, &run)
}

// Checks that a run whose output fails at this byte writes the replies up to it. The run has taken
// the line whose reply failed, up to its line feed or to the end of the input, and no more.
fn writes_a_front<R: Abort>(
    rt: &R,
    transcript: &[u8],
    wanted: &[u8],
    run: &Dripped,
    breaks_at: usize,
) {
    let front = &wanted[..breaks_at.min(wanted.len())];
    assert_eq!(rt; run.answer, Err(RunFault::Write), "at {breaks_at}");
    assert_eq!(rt; run.written.as_slice(), front, "at {breaks_at}");
    assert!(rt; run.output_failed && !run.input_failed, "at {breaks_at}");
    let taken = &transcript[..run.given.min(transcript.len())];
    assert!(rt; run.input_ended || taken.ends_with(b"\n"), "at {breaks_at}");
    let is_cut_off = run.input_ended && !taken.ends_with(b"\n");
    let lines = ended_before(transcript, run.given).saturating_add(usize::from(is_cut_off));
    assert_eq!(rt;
        lines,
        ended_before(wanted, breaks_at).saturating_add(1),
        "at {breaks_at}"
    );
}

// Checks this at each put, and then a run without a failure.
fn output_fails_at_each_put<R: Abort + AllocGlobal>(
    rt: &R,
    transcript: &str,
    failing: Failing,
) -> Result<(), Fail> {
    let wanted = answered(rt.alloc(), SWITCHING.rows)?;
    for breaks_at in 0..wanted.len() {
        let run = drip(rt.alloc(), transcript, usize::MAX, breaks_at, failing)?;
        writes_a_front(
            rt,
            transcript.as_bytes(),
            wanted.as_bytes(),
            &run,
            breaks_at,
        );
    }
    let run = drip(rt.alloc(), transcript, usize::MAX, wanted.len(), failing)?;
    answers_all(rt, &run)
}

#[test]
fn an_input_fails_at_each_take(rt: HostRuntime) -> Result<(), Fail> {
    let cut_off = said(rt.alloc(), SWITCHING.rows)?;
    let whole = whole(rt.alloc(), SWITCHING.rows)?;
    input_fails_at_each_take(&rt, cut_off.as_str(), Failing::Once)?;
    input_fails_at_each_take(&rt, whole.as_str(), Failing::Once)
}

#[test]
fn an_input_fails_from_each_take_on(rt: HostRuntime) -> Result<(), Fail> {
    let cut_off = said(rt.alloc(), SWITCHING.rows)?;
    let whole = whole(rt.alloc(), SWITCHING.rows)?;
    input_fails_at_each_take(&rt, cut_off.as_str(), Failing::ForGood)?;
    input_fails_at_each_take(&rt, whole.as_str(), Failing::ForGood)
}

#[test]
fn an_output_fails_at_each_put(rt: HostRuntime) -> Result<(), Fail> {
    let cut_off = said(rt.alloc(), SWITCHING.rows)?;
    let whole = whole(rt.alloc(), SWITCHING.rows)?;
    output_fails_at_each_put(&rt, cut_off.as_str(), Failing::Once)?;
    output_fails_at_each_put(&rt, whole.as_str(), Failing::Once)
}

#[test]
fn an_output_fails_from_each_put_on(rt: HostRuntime) -> Result<(), Fail> {
    let cut_off = said(rt.alloc(), SWITCHING.rows)?;
    let whole = whole(rt.alloc(), SWITCHING.rows)?;
    output_fails_at_each_put(&rt, cut_off.as_str(), Failing::ForGood)?;
    output_fails_at_each_put(&rt, whole.as_str(), Failing::ForGood)
}
