//! Tests of how often commands call procedures, one line after another over one workbench.

ghost use Rattle.std.specs.Prelude.{◌≡◌, ◌+◌, ◌≤◌};
ghost use Rattle.pw_decl.specs.inside.Fields.{declared};
ghost use Rattle.pw_sessions.specs.inside.Fields.{state};
ghost use Rattle.pw_transcript.specs.Limits.{most_lines};
ghost use Rattle.pw_transcript.specs.inside.Answering.{IsLeft};

use crate::replying::reply_to;
use pw_decl::Declaration;
use pw_network::Network;
use pw_sessions::Workbench;
use pw_testing::worlds::{GENERAL, OverDeclaration, over_text};
use std::alloc::{Allocator, Global};
use std::process::Abort;
use std::test::Fail;

// How often the line of this number called procedures. One that says no command calls none.
fn calls_of<A: Allocator + Copy>(
    declaration: &Declaration<'_, A>,
    number: u32,
    line: &[u8],
    workbench: &mut Workbench<'_, '_, A>,
) -> u128
    requires left { IsLeft (declared declaration.now) number (state workbench.old) }
    requires most { number ≤ most_lines }
    ensures { IsLeft (declared declaration.now) (number + 1) (state workbench.new) }
{
    match reply_to(declaration, number, line, workbench) {
        Some(_) => workbench.last_calls(),
        None => 0,
    }
}

// How often each of the lines called procedures, over a new workbench.
fn calls_over(
    alloc: Global,
    declaration: &Declaration<'_>,
    lines: &[&str],
    workbench: &mut Workbench<'_, '_>,
) -> Result<Vec<u128>, Fail>
    requires left { IsLeft (declared declaration.now) 1 (state workbench.old) }
{
    let mut calls = Vec::new(alloc);
    let mut number = 1;
    for line in lines {
        if number > 1_000_000 {
            return Err("too many lines".into());
        }
        let of_line = calls_of(declaration, number, line.as_bytes(), workbench);
        calls.push(of_line)?;
        number += 1;
    }
    Ok(calls)
}

// How often each of the lines called procedures, over one workbench.
fn calls_of_each(
    alloc: Global,
    declaration: &Declaration<'_>,
    lines: &[&str],
) -> Result<Vec<u128>, Fail> {
    let network = Network::new(alloc, declaration)?;
    let mut workbench = Workbench::new(alloc, declaration, network)?;
    calls_over(alloc, declaration, lines, &mut workbench)
}

// Lines over one workbench.
#[derive(Drop)]
struct Counting<'a> {
    alloc: Global,
    lines: &'a [&'a str],
}

impl OverDeclaration<Global> for Counting<'_> {
    type Answer = Result<Vec<u128>, Fail>;

    fn over(self, declaration: &Declaration<'_>) -> Result<Vec<u128>, Fail> {
        calls_of_each(self.alloc, declaration, self.lines)
    }
}

// How often each of the lines called procedures.
fn calls_over_general(alloc: Global, lines: &[&str]) -> Result<Vec<u128>, Fail> {
    over_text(alloc, alloc, GENERAL, Counting { alloc, lines })?
}

// Ann attaches a sum over x, y and t, tells of its cells and asks for t. Bob, who believes the
// same, asks for t too.
const SUM: &[&str] = &[
    "ann attach sum x y t",
    "ann tell x 1..2",
    "ann tell y 10",
    "ann ask t",
    "ann ask t",
    "bob ask t",
    "ann tell x 1",
    "ann ask t",
    "ann tell t 0..100",
    "ann ask t",
    "ann doubt a",
    "ann ask t",
    "ann conflicts",
];

// Checks how often these lines called procedures.
fn are_of_the_sum<R: Abort>(rt: &R, calls: &[u128]) -> Result<(), Fail> {
    let Some(calls) = calls.get(..13) else {
        return Err("a line is missing".into());
    };
    // Lines that ask nothing settle nothing.
    assert_eq!(rt;
        [calls[0], calls[1], calls[2], calls[6], calls[8], calls[10]],
        [0; 6]
    );
    // Nothing was settled before: each of the three instances is called.
    assert!(rt; calls[3] >= 3);
    // The same again; the other user, who believes the same.
    assert_eq!(rt; [calls[4], calls[5]], [0, 0]);
    // Two instances read x; t loses one value, and has two readers.
    assert!(rt; 2 <= calls[7] && calls[7] <= 4);
    // What was told of t last follows already: it is no news.
    assert_eq!(rt; calls[9], 0);
    // Beliefs that were doubted: a smaller worldview settles anew. Then all is known.
    assert_eq!(rt; [calls[11], calls[12]], [3, 0]);
    Ok(())
}

#[test]
fn who_is_fresh_calls_nothing(rt: HostRuntime) -> Result<(), Fail> {
    let calls = calls_over_general(rt.alloc(), SUM)?;
    are_of_the_sum(&rt, &calls)
}

// Ann goes to other worldviews and back, and bob into one where she was.
const RETURNING: &[&str] = &[
    "ann attach sum x y t",
    "ann tell x 1..2",
    "ann tell y 10",
    "ann ask t",
    "ann doubt a",
    "ann ask t",
    "ann believe a",
    "ann ask t",
    "bob doubt a",
    "bob ask t",
    "bob tell x 1",
    "bob ask t",
    "ann ask t",
    "bob doubt b",
    "bob ask t",
    "bob believe b",
    "bob ask t",
    "ann ask t",
];

// Checks how often these lines called procedures.
fn are_of_returning<R: Abort>(rt: &R, calls: &[u128]) -> Result<(), Fail> {
    let Some(calls) = calls.get(..18) else {
        return Err("a line is missing".into());
    };
    // Nothing was settled before. Then the worldview is a smaller one, and all is kept already.
    assert!(rt; calls[3] >= 3);
    assert_eq!(rt; calls[5], 3);
    // Back where all is known, and the other user where ann was.
    assert_eq!(rt; [calls[7], calls[9]], [0, 0]);
    // Two instances read x; t loses one value, and has two readers.
    assert!(rt; 2 <= calls[11] && calls[11] <= 4);
    // In ann's worldview x and t have changed; nothing more is found.
    assert_eq!(rt; calls[12], 3);
    // A smaller worldview; and back in each.
    assert_eq!(rt; [calls[14], calls[16], calls[17]], [3, 0, 0]);
    Ok(())
}

#[test]
fn who_returns_goes_on_from_there(rt: HostRuntime) -> Result<(), Fail> {
    let calls = calls_over_general(rt.alloc(), RETURNING)?;
    are_of_returning(&rt, &calls)
}

// Ann chooses where nothing is consistent, where another premise is, and where her beliefs are. She
// asks for y after each.
const CHOOSING: &[&str] = &[
    "ann attach copy x y",
    "ann tell x 1 under a",
    "ann tell x 2 under b",
    "ann tell x 9",
    "ann ask y",
    "ann choose a|b",
    "ann ask y",
    "ann choose a|b|c",
    "ann ask y",
    "ann choose c",
    "ann ask y",
    "bob choose a|b",
    "ann ask y",
];

// Checks how often these lines called procedures.
fn are_of_choosing<R: Abort>(rt: &R, calls: &[u128]) -> Result<(), Fail> {
    let Some(calls) = calls.get(..13) else {
        return Err("a line is missing".into());
    };
    // A choice counts no calls.
    assert_eq!(rt; [calls[5], calls[7], calls[9], calls[11]], [0; 4]);
    // Nothing was settled before.
    assert!(rt; calls[4] >= 1);
    // Nothing was chosen, and beliefs are as they were.
    assert_eq!(rt; calls[6], 0);
    // Other beliefs were chosen: the visible instance is called.
    assert!(rt; calls[8] >= 1);
    // The same beliefs were chosen, and then another user chose.
    assert_eq!(rt; [calls[10], calls[12]], [0, 0]);
    Ok(())
}

#[test]
fn who_chose_none_is_still_fresh(rt: HostRuntime) -> Result<(), Fail> {
    let calls = calls_over_general(rt.alloc(), CHOOSING)?;
    are_of_choosing(&rt, &calls)
}
