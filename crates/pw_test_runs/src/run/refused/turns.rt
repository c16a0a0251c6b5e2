//! Runs over an allocator that refuses each allocation growth in turn, alone or with all later
//! ones. Either a run ends before it writes anything, or it answers each line as if the lines that
//! ran out of memory were blank. Where one growth is refused alone, that is at most one line: the
//! one that asked for it.

use super::super::worked::{
    APART, BUILDING, COLORING, COPYING, DISAGREEING, NARROWING, SUMMING, SWITCHING, Session, TWICE,
};
use super::{Outcome, counts_of, growths_of, run_with};
use pw_testing::Refusing;
use pw_transcript::RunFault;
use std::alloc::Global;
use std::process::Abort;
use std::test::Fail;

// Which growths are refused beside the one whose turn it is.
#[derive(Clone, Copy)]
enum Others {
    None,
    Later,
}

// The replies of a run: the lines that ran out of memory, and the other replies.
#[derive(Drop)]
struct Replies {
    refused: Vec<usize>,
    others: String,
}

// Splits what a run wrote into lines that ran out of memory and other replies.
fn told_apart(alloc: Global, written: &str) -> Result<Replies, Fail> {
    let mut refused = Vec::new(alloc);
    let mut others = String::new(alloc);
    for reply in written.lines() {
        if let Some(number) = reply.strip_suffix(": refused 11 memory") {
            refused.push(number.parse::<usize>()?)?;
        } else {
            others.push_str(reply)?;
            others.push('\n')?;
        }
    }
    Ok(Replies { refused, others })
}

// The rows, with those of the refused lines made blank.
fn blanked<'a>(
    alloc: Global,
    rows: &[(&'a str, &'a str)],
    refused: &[usize],
) -> Result<Vec<(&'a str, &'a str)>, Fail> {
    let mut left = Vec::new(alloc);
    let mut line = 0usize;
    for row in rows {
        line = line.saturating_add(1);
        left.push(if refused.contains(&line) {
            ("", "")
        } else {
            *row
        })?;
    }
    Ok(left)
}

// Checks that the other replies are those of a run with ample memory over the session with the
// refused lines made blank.
fn are_as_if_blank<R: Abort + AllocGlobal>(
    rt: &R,
    session: Session<'_>,
    replies: &Replies,
    at: u64,
) -> Result<(), Fail> {
    let rows = blanked(rt.alloc(), session.rows, &replies.refused)?;
    let blank = Session {
        declaration: session.declaration,
        rows: &rows,
    };
    let ample = run_with(rt, blank, &Refusing::nth(rt.alloc(), 0))?;
    assert_eq!(rt; replies.others.as_str(), ample.written.as_str(), "at {at}");
    Ok(())
}

// Checks that a run that ended well answered each line as if the refused lines were blank. Answers
// which lines were refused.
fn refused_in<R: Abort + AllocGlobal>(
    rt: &R,
    session: Session<'_>,
    outcome: &Outcome,
    at: u64,
) -> Result<Vec<usize>, Fail> {
    let replies = told_apart(rt.alloc(), outcome.written.as_str())?;
    let counts = (session.rows.len(), outcome.written.lines().count());
    assert_eq!(rt; counts_of(outcome.answer), Ok(counts), "at {at}");
    are_as_if_blank(rt, session, &replies, at)?;
    Ok(replies.refused)
}

// Refuses this growth, and checks what the run does. `growths` has the number of growths that runs
// ask for by the end of each line. Answers how many lines ran out of memory.
fn is_refused_in_turn<R: Abort + AllocGlobal>(
    rt: &R,
    session: Session<'_>,
    growths: &[u64],
    at: u64,
    others: Others,
) -> Result<usize, Fail> {
    let refusing = match others {
        Others::None => Refusing::nth(rt.alloc(), at),
        Others::Later => Refusing::all_from(rt.alloc(), at),
    };
    let outcome = run_with(rt, session, &refusing)?;
    // The line that asks for the growth; 0 while the run is set up.
    let asking = growths.iter().filter(|by_then| **by_then < at).count();
    if asking == 0 {
        assert_eq!(rt; outcome.answer, Err(RunFault::Memory), "at {at}");
        assert_eq!(rt; outcome.written.as_str(), "", "at {at}");
        return Ok(0);
    }
    let refused = refused_in(rt, session, &outcome, at)?;
    match others {
        Others::None => assert!(rt;
            refused.is_empty() || refused.as_slice() == [asking].as_slice(),
            "at {at}"
        ),
        Others::Later => assert!(rt; refused.iter().all(|line| *line >= asking), "at {at}"),
    }
    Ok(refused.len())
}

// Refuses each growth of a run over the session in turn, and checks what the run does.
fn each_is_refused_in_turn<R: Abort + AllocGlobal>(
    rt: &R,
    session: Session<'_>,
    others: Others,
) -> Result<(), Fail> {
    let mut growths = Vec::new(rt.alloc());
    let setting_up = growths_of(rt, session, 0)?;
    let mut asked = setting_up;
    growths.push(setting_up)?;
    for lines in 1..=session.rows.len() {
        asked = growths_of(rt, session, lines)?;
        growths.push(asked)?;
    }
    let mut refused = 0usize;
    for at in 1..asked.saturating_add(1) {
        let lines = is_refused_in_turn(rt, session, &growths, at, others)?;
        refused = refused.saturating_add(lines);
    }
    assert!(rt;
        setting_up > 0 && refused > 0,
        "{refused} lines of {asked} growths"
    );
    Ok(())
}

#[test]
fn a_growth_for_the_building(rt: HostRuntime) -> Result<(), Fail> {
    each_is_refused_in_turn(&rt, BUILDING, Others::None)
}

#[test]
fn all_later_growths_for_the_building(rt: HostRuntime) -> Result<(), Fail> {
    each_is_refused_in_turn(&rt, BUILDING, Others::Later)
}

#[test]
fn a_growth_for_two_who_disagree(rt: HostRuntime) -> Result<(), Fail> {
    each_is_refused_in_turn(&rt, DISAGREEING, Others::None)
}

#[test]
fn all_later_growths_for_two_who_disagree(rt: HostRuntime) -> Result<(), Fail> {
    each_is_refused_in_turn(&rt, DISAGREEING, Others::Later)
}

#[test]
fn a_growth_for_a_long_settling(rt: HostRuntime) -> Result<(), Fail> {
    each_is_refused_in_turn(&rt, NARROWING, Others::None)
}

#[test]
fn all_later_growths_for_a_long_settling(rt: HostRuntime) -> Result<(), Fail> {
    each_is_refused_in_turn(&rt, NARROWING, Others::Later)
}

#[test]
fn a_growth_for_the_switch(rt: HostRuntime) -> Result<(), Fail> {
    each_is_refused_in_turn(&rt, SWITCHING, Others::None)
}

#[test]
fn all_later_growths_for_the_switch(rt: HostRuntime) -> Result<(), Fail> {
    each_is_refused_in_turn(&rt, SWITCHING, Others::Later)
}

#[test]
fn a_growth_for_the_sum(rt: HostRuntime) -> Result<(), Fail> {
    each_is_refused_in_turn(&rt, SUMMING, Others::None)
}

#[test]
fn all_later_growths_for_the_sum(rt: HostRuntime) -> Result<(), Fail> {
    each_is_refused_in_turn(&rt, SUMMING, Others::Later)
}

#[test]
fn a_growth_for_a_compound_attached_twice(rt: HostRuntime) -> Result<(), Fail> {
    each_is_refused_in_turn(&rt, TWICE, Others::None)
}

#[test]
fn all_later_growths_for_a_compound_attached_twice(rt: HostRuntime) -> Result<(), Fail> {
    each_is_refused_in_turn(&rt, TWICE, Others::Later)
}

#[test]
fn a_growth_for_an_inner_cell(rt: HostRuntime) -> Result<(), Fail> {
    each_is_refused_in_turn(&rt, APART, Others::None)
}

#[test]
fn a_growth_for_a_copy(rt: HostRuntime) -> Result<(), Fail> {
    each_is_refused_in_turn(&rt, COPYING, Others::None)
}

#[test]
fn a_growth_for_neighbours_in_two_colors(rt: HostRuntime) -> Result<(), Fail> {
    each_is_refused_in_turn(&rt, COLORING, Others::None)
}

#[test]
fn all_later_growths_for_neighbours_in_two_colors(rt: HostRuntime) -> Result<(), Fail> {
    each_is_refused_in_turn(&rt, COLORING, Others::Later)
}
