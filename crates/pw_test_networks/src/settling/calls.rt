//! Small networks, settled in stages, whose counts of calls are known beforehand. At each stage
//! after the first, an instance is due if it is new to the values found before, or reads a cell of
//! which more is known now.

use super::stages::{Stage, settled_in_stages};
use super::{Matter, Shown, Tell, told};
use crate::networks::{Attachment, at_line};
use pw_info::Info;
use pw_premises::PremiseSet;
use pw_testing::facts::fact;
use pw_testing::worlds::GENERAL;
use std::alloc::Global;
use std::test::Fail;

// What the stages come to with these attachments and tells.
fn shown_at(
    alloc: Global,
    attachments: &[Attachment<'_>],
    tells: &[Tell<'_>],
    stages: &[Stage],
) -> Result<Shown, Fail> {
    let matter = Matter {
        text: GENERAL,
        attachments,
        tells,
    };
    settled_in_stages(alloc, matter, stages)
}

// How often procedures were called at a stage, from 0.
fn calls_at(shown: &Shown, stage: usize) -> Result<u128, Fail> {
    let answer = shown.answers.get(stage).ok_or("no stage")?;
    Ok(answer.calls)
}

// What was found of a cell, by its number, at a stage.
fn found_at(shown: &Shown, stage: usize, cell: usize) -> Result<Info, Fail> {
    let answer = shown.answers.get(stage).ok_or("no stage")?;
    let value = answer.values.get(cell).ok_or("no cell")?;
    Ok(value.info)
}

// Two of the three instances of a sum read each of its cells. What is told of x makes those two
// due. They find one number of t where there were two, which may make two more due.
#[test]
fn a_tell_of_a_summand_calls_two_to_four(rt: HostRuntime) -> Result<(), Fail> {
    let none = PremiseSet::empty();
    let shown = shown_at(
        rt.alloc(),
        &[at_line(1, "sum", &["x", "y", "t"])],
        &[
            told("x", 1, 2, none),
            told("y", 10, 10, none),
            told("x", 1, 1, none),
        ],
        &[
            Stage::new(1, 2, none),
            Stage::new(1, 3, none),
            Stage::new(1, 3, none),
        ],
    )?;
    assert_eq!(rt; found_at(&shown, 0, 2)?, fact(11, 12, none).info);
    assert_eq!(rt; found_at(&shown, 1, 2)?, fact(11, 11, none).info);
    assert_eq!(rt; found_at(&shown, 2, 2)?, fact(11, 11, none).info);
    let calls = calls_at(&shown, 1)?;
    assert!(rt; calls >= 2 && calls <= 4, "{calls} calls");
    assert_eq!(rt; calls_at(&shown, 2)?, 0);
    Ok(())
}

// The hidden instance is not called, though it reads the cell too.
#[test]
fn a_tell_calls_the_visible_reader(rt: HostRuntime) -> Result<(), Fail> {
    let none = PremiseSet::empty();
    let hidden = Attachment {
        line: 2,
        callable: "copy",
        cells: &["x", "t"],
        support: PremiseSet::one(0),
    };
    let shown = shown_at(
        rt.alloc(),
        &[at_line(1, "copy", &["x", "y"]), hidden],
        &[told("x", 1, 9, none), told("x", 2, 3, none)],
        &[Stage::new(2, 1, none), Stage::new(2, 2, none)],
    )?;
    assert_eq!(rt; found_at(&shown, 1, 1)?, fact(2, 3, none).info);
    assert!(rt; found_at(&shown, 1, 2)?.is_nothing());
    assert_eq!(rt; calls_at(&shown, 1)?, 1);
    Ok(())
}

// The second copy says what the first said.
#[test]
fn an_attachment_that_changes_nothing_is_called_once(rt: HostRuntime) -> Result<(), Fail> {
    let none = PremiseSet::empty();
    let shown = shown_at(
        rt.alloc(),
        &[
            at_line(1, "copy", &["x", "y"]),
            at_line(2, "copy", &["x", "y"]),
        ],
        &[told("x", 1, 9, none)],
        &[
            Stage::new(1, 1, none),
            Stage::new(2, 1, none),
            Stage::new(2, 1, none),
        ],
    )?;
    assert_eq!(rt; found_at(&shown, 1, 1)?, fact(1, 9, none).info);
    assert_eq!(rt; calls_at(&shown, 1)?, 1);
    assert_eq!(rt; calls_at(&shown, 2)?, 0);
    Ok(())
}

// In the larger worldview the second copy comes into sight, and nobody reads what it finds. In a
// still larger one there is nothing more to see.
#[test]
fn what_comes_into_sight_is_called(rt: HostRuntime) -> Result<(), Fail> {
    let (none, a, both) = (
        PremiseSet::empty(),
        PremiseSet::one(0),
        PremiseSet::first(2),
    );
    let under_a = Attachment {
        line: 2,
        callable: "copy",
        cells: &["x", "t"],
        support: a,
    };
    let shown = shown_at(
        rt.alloc(),
        &[at_line(1, "copy", &["x", "y"]), under_a],
        &[told("x", 1, 9, none)],
        &[
            Stage::new(2, 1, none),
            Stage::new(2, 1, a),
            Stage::new(2, 1, both),
        ],
    )?;
    assert_eq!(rt; found_at(&shown, 1, 2)?, fact(1, 9, none).info);
    assert_eq!(rt; calls_at(&shown, 1)?, 1);
    assert_eq!(rt; calls_at(&shown, 2)?, 0);
    Ok(())
}

// Four instances are visible under a premise, and three without it. What was found with the premise
// says nothing of these three.
#[test]
fn where_the_worldview_is_not_within_all_visible_are_called(rt: HostRuntime) -> Result<(), Fail> {
    let (none, a) = (PremiseSet::empty(), PremiseSet::one(0));
    let under_a = Attachment {
        line: 2,
        callable: "copy",
        cells: &["k", "m"],
        support: a,
    };
    let shown = shown_at(
        rt.alloc(),
        &[at_line(1, "sum", &["x", "y", "t"]), under_a],
        &[told("x", 1, 2, none), told("y", 10, 10, none)],
        &[Stage::new(2, 2, a), Stage::new(2, 2, none)],
    )?;
    assert_eq!(rt; found_at(&shown, 1, 2)?, fact(11, 12, none).info);
    assert!(rt; calls_at(&shown, 1)? >= 3);
    Ok(())
}
