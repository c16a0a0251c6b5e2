//! A compound of many calls, settled in stages: which of its calls are due is known beforehand.

use super::stages::{Stage, settled_in_stages};
use super::{Matter, Shown, told};
use crate::networks::{Attachment, at_line};
use pw_premises::PremiseSet;
use pw_testing::facts::fact;
use std::alloc::Global;
use std::test::Fail;

// A compound of 17 calls: 16 of them read p, and one reads q.
const LARGE: &str = "workbench 1\ncell x interval\ncell y interval\ncell t interval\n\
compound large p interval q interval\n\
copy p q\ncopy p q\ncopy p q\ncopy p q\ncopy p q\ncopy p q\ncopy p q\ncopy p q\ncopy p q\n\
copy p q\ncopy p q\ncopy p q\ncopy p q\ncopy p q\ncopy p q\ncopy p q\ncopy q p\nend\n";

// The compound is attached under no premise, and again under a premise. The second stage has one more
// tell about x, the third has nothing new, and the worldview of the last has the premise.
fn attached_twice(alloc: Global) -> Result<Shown, Fail> {
    let (none, a) = (PremiseSet::empty(), PremiseSet::one(0));
    let under_a = Attachment {
        line: 2,
        callable: "large",
        cells: &["x", "t"],
        support: a,
    };
    let matter = Matter {
        text: LARGE,
        attachments: &[at_line(1, "large", &["x", "y"]), under_a],
        tells: &[told("x", 1, 9, none), told("x", 2, 3, none)],
    };
    let stages = [
        Stage::new(2, 1, none),
        Stage::new(2, 2, none),
        Stage::new(2, 2, none),
        Stage::new(2, 2, a),
    ];
    settled_in_stages(alloc, matter, &stages)
}

// At the second stage the calls that read x are due, and the one that reads y once y is known better.
// At the fourth one, those that came into sight.
#[test]
fn many_calls_are_due_once(rt: HostRuntime) -> Result<(), Fail> {
    let shown = attached_twice(rt.alloc())?;
    let calls = shown.answers.iter().map(|answer| answer.calls);
    assert!(rt; calls.eq([17, 17, 0, 17].iter().copied()));
    Ok(())
}

// The value of x carries to y, and to t in the worldview that has the premise.
#[test]
fn many_calls_find_what_one_finds(rt: HostRuntime) -> Result<(), Fail> {
    let shown = attached_twice(rt.alloc())?;
    let none = PremiseSet::empty();
    let second = shown.answers.get(1).ok_or("no stage")?;
    let last = shown.answers.get(3).ok_or("no stage")?;
    let (y, hidden) = (second.values.get(1), second.values.get(2));
    assert_eq!(rt; y.ok_or("no cell")?.info, fact(2, 3, none).info);
    assert!(rt; hidden.ok_or("no cell")?.info.is_nothing());
    let seen = last.values.get(2).ok_or("no cell")?;
    assert_eq!(rt; seen.info, fact(2, 3, none).info);
    Ok(())
}
