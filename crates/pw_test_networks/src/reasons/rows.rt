//! Small sessions whose reasons are known beforehand.

use super::reason_of;
use crate::networks::at_line;
use crate::settling::{Matter, told};
use pw_premises::PremiseSet;
use pw_testing::worlds::{GENERAL, WORLD};
use std::test::Fail;

#[test]
fn what_contradicts_itself_is_noted(rt: HostRuntime) -> Result<(), Fail> {
    let (a, b) = (PremiseSet::one(0), PremiseSet::one(1));
    let matter = Matter {
        text: WORLD,
        attachments: &[],
        tells: &[told("x", 1, 2, a), told("x", 3, 4, b)],
    };
    let answer = reason_of(
        rt.alloc(),
        matter,
        PremiseSet::first(4),
        "x",
        &[a.join(b), a],
    )?;
    assert_eq!(rt; answer.reason, a.join(b));
    assert_eq!(rt; answer.covered.as_slice(), [true, false].as_slice());
    Ok(())
}

#[test]
fn what_is_consistent_is_not_noted(rt: HostRuntime) -> Result<(), Fail> {
    let (a, b, c, mine) = (
        PremiseSet::one(0),
        PremiseSet::one(1),
        PremiseSet::one(2),
        PremiseSet::one(3),
    );
    let matter = Matter {
        text: WORLD,
        attachments: &[],
        tells: &[
            told("x", 5, 7, c),
            told("x", 5, 9, a),
            told("x", 0, 7, b),
            told("x", 5, 7, mine),
        ],
    };
    let answer = reason_of(
        rt.alloc(),
        matter,
        PremiseSet::first(4),
        "x",
        &[a.join(b), PremiseSet::first(4)],
    )?;
    assert_eq!(rt; answer.reason, a.join(b));
    assert_eq!(rt; answer.covered.as_slice(), [false, false].as_slice());
    Ok(())
}

#[test]
fn the_reason_of_another_cell_is_noted(rt: HostRuntime) -> Result<(), Fail> {
    let (a, b, c) = (PremiseSet::one(0), PremiseSet::one(1), PremiseSet::one(2));
    let matter = Matter {
        text: GENERAL,
        attachments: &[at_line(1, "copy", &["x", "y"])],
        tells: &[told("x", 5, 6, a), told("y", 5, 9, b), told("y", 7, 8, c)],
    };
    let answer = reason_of(
        rt.alloc(),
        matter,
        PremiseSet::first(4),
        "y",
        &[a.join(c), a.join(b)],
    )?;
    assert_eq!(rt; answer.reason, a.join(c));
    assert_eq!(rt; answer.covered.as_slice(), [true, false].as_slice());
    Ok(())
}
