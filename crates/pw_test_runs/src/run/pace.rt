//! When a run passes replies on: before it waits for the next line, even if it takes few bytes at
//! once.

use crate::ends::{Asking, Counting, Drip};
use crate::sessions::{answered, answers, run_amply, said};
use pw_info::{Output, Writing};
use pw_testing::worlds::WORLD;
use pw_transcript::{Input, Lines, Reading};
use std::cell::Cell;
use std::test::Fail;

#[test]
fn takes_of_one_byte_give_the_same_replies(rt: HostRuntime) -> Result<(), Fail> {
    let rows = [
        ("ann tell x 1..2 under a", "ok"),
        ("", ""),
        ("# a comment", ""),
        ("bob tell x 2..4 under b\r", "ok"),
        ("ann ask x", "2"),
        ("ann doubt b", "ok"),
        ("ann  ask\tx", "1..2"),
    ];
    answers(&rt, WORLD, &rows)?;
    let transcript = said(rt.alloc(), &rows)?;
    let wanted = answered(rt.alloc(), &rows)?;
    let mut input = Reading::new(Drip::new(transcript.as_str(), usize::MAX));
    let mut output = Writing::new(Vec::new(rt.alloc()));
    let answer = run_amply(rt.alloc(), WORLD, &mut input, &mut output)?;
    assert_eq!(rt;
        answer,
        Ok(Lines {
            lines: 7,
            replies: 5
        })
    );
    assert!(rt; input.ended() && !input.failed() && !output.failed());
    assert_eq!(rt; output.into_writer().as_slice(), wanted.as_bytes());
    Ok(())
}

#[test]
fn a_line_is_answered_before_the_next_is_taken(rt: HostRuntime) -> Result<(), Fail> {
    let written = Cell::new(0);
    let differs = Cell::new(false);
    let mut input = Reading::new(Asking {
        lines: &[
            ("ann tell x 1..2", 0),
            ("ann ask x", 6),
            ("# nothing", 14),
            ("bob ask x", 14),
        ],
        given: 0,
        written: &written,
        differs: &differs,
    });
    let mut output = Writing::new(Counting { written: &written });
    let answer = run_amply(rt.alloc(), WORLD, &mut input, &mut output)?;
    assert_eq!(rt;
        answer,
        Ok(Lines {
            lines: 4,
            replies: 3
        })
    );
    assert_eq!(rt; written.get(), 22);
    assert!(rt; !differs.get());
    Ok(())
}
