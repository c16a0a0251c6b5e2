//! The longest line, the most lines and the most bytes that a run answers.

use crate::ends::{Lined, Repeated};
use crate::sessions::{answers, run_amply};
use pw_info::Writing;
use pw_testing::worlds::WORLD;
use pw_transcript::{Lines, Reading, RunFault};
use std::alloc::Global;
use std::test::Fail;

#[test]
fn a_line_may_have_1024_bytes(rt: HostRuntime) -> Result<(), Fail> {
    for (spaces, reply) in [
        (1015usize, "nothing"),
        (1016, "refused 10 line too long"),
        (200_000, "refused 10 line too long"),
    ] {
        let mut line = String::from_str(rt.alloc(), "ann ask x")?;
        for _ in 0..spaces {
            line.push(' ')?;
        }
        answers(
            &rt,
            WORLD,
            &[(line.as_str(), reply), ("ann ask x", "nothing")],
        )?;
    }
    Ok(())
}

// What a run comes to over one byte repeated and then a rest, what it wrote, and how many of the
// repeated bytes were left.
fn outcome_over(
    alloc: Global,
    repeated: Repeated<'_>,
) -> Result<(Result<Lines, RunFault>, String, u64), Fail> {
    let mut input = Reading::new(repeated);
    let mut output = Writing::new(Vec::new(alloc));
    let answer = run_amply(alloc, WORLD, &mut input, &mut output)?;
    let left = input.into_reader().left;
    Ok((answer, String::from_utf8(output.into_writer())?, left))
}

#[test]
fn a_run_answers_a_million_lines(rt: HostRuntime) -> Result<(), Fail> {
    let million = Lines {
        lines: 1_000_000,
        replies: 0,
    };
    for (left, rest, wanted) in [
        (1_000_000u64, "", Ok(million)),
        (1_000_000, "ann ask x", Err(RunFault::Limit)),
        (1_000_001, "", Err(RunFault::Limit)),
    ] {
        let repeated = Repeated {
            byte: b'\n',
            left,
            rest: rest.as_bytes(),
        };
        let (answer, written, _) = outcome_over(rt.alloc(), repeated)?;
        assert_eq!(rt; answer, wanted, "at {left} and {rest}");
        assert_eq!(rt; written.as_str(), "", "at {left} and {rest}");
    }
    Ok(())
}

#[test]
fn a_run_answers_67108864_bytes(rt: HostRuntime) -> Result<(), Fail> {
    let one = Lines {
        lines: 1,
        replies: 1,
    };
    for (left, rest, wanted, text) in [
        (67_108_864u64, "", Ok(one), "1: refused 10 line too long\n"),
        (67_108_864, "\n", Err(RunFault::Limit), ""),
    ] {
        let repeated = Repeated {
            byte: b'x',
            left,
            rest: rest.as_bytes(),
        };
        let (answer, written, _) = outcome_over(rt.alloc(), repeated)?;
        assert_eq!(rt; answer, wanted, "at {left} and {rest}");
        assert_eq!(rt; written.as_str(), text, "at {left} and {rest}");
    }
    Ok(())
}

#[test]
fn an_endless_input_is_cut_at_its_67108865th_byte(rt: HostRuntime) -> Result<(), Fail> {
    let endless = Repeated {
        byte: b'x',
        left: u64::MAX,
        rest: b"",
    };
    let (answer, written, left) = outcome_over(rt.alloc(), endless)?;
    assert_eq!(rt; answer, Err(RunFault::Limit));
    assert_eq!(rt; written.as_str(), "");
    assert_eq!(rt; left, u64::MAX - 67_108_865);
    Ok(())
}

#[test]
fn a_run_answers_65536_lines_of_1023_spaces(rt: HostRuntime) -> Result<(), Fail> {
    let mut line = [b' '; 1024];
    line[1023] = b'\n';
    let all = Lines {
        lines: 65_536,
        replies: 0,
    };
    for (rest, wanted) in [("", Ok(all)), ("\n", Err(RunFault::Limit))] {
        let mut input = Reading::new(Lined {
            line: &line,
            left: 65_536,
            rest: rest.as_bytes(),
        });
        let mut output = Writing::new(Vec::new(rt.alloc()));
        let answer = run_amply(rt.alloc(), WORLD, &mut input, &mut output)?;
        assert_eq!(rt; answer, wanted);
        assert_eq!(rt; output.into_writer().len(), 0);
    }
    Ok(())
}
