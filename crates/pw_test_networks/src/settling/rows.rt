//! Small sessions whose values and counts of calls are known beforehand.

use super::{Matter, settled, told};
use crate::networks::at_line;
use pw_premises::PremiseSet;
use pw_testing::facts::fact;
use pw_testing::worlds::GENERAL;
use std::test::Fail;

#[test]
fn a_second_settling_calls_each_instance_once(rt: HostRuntime) -> Result<(), Fail> {
    let (none, all) = (PremiseSet::empty(), PremiseSet::first(4));
    let matter = Matter {
        text: GENERAL,
        attachments: &[at_line(1, "sum", &["x", "y", "t"])],
        tells: &[told("x", 1, 2, none), told("y", 10, 10, none)],
    };
    let shown = settled(rt.alloc(), matter, &[all, all], &[("t", none)])?;
    let calls = shown.answers.get(1).map(|answer| answer.calls);
    assert_eq!(rt; calls, Some(3));
    assert_eq!(rt; shown.kept.as_slice(), [fact(11, 12, none)].as_slice());
    Ok(())
}

#[test]
fn smaller_worldviews_keep_what_they_were_told(rt: HostRuntime) -> Result<(), Fail> {
    let (a, b, c, mine) = (
        PremiseSet::one(0),
        PremiseSet::one(1),
        PremiseSet::one(2),
        PremiseSet::one(3),
    );
    let matter = Matter {
        text: GENERAL,
        attachments: &[],
        tells: &[
            told("x", 5, 7, c),
            told("x", 5, 9, a),
            told("x", 0, 7, b),
            told("x", 5, 7, mine),
        ],
    };
    let three = PremiseSet::first(3);
    let asked = [("x", a.join(b)), ("x", three), ("x", a)];
    let shown = settled(rt.alloc(), matter, &[three], &asked)?;
    for (kept, (lo, hi)) in shown.kept.iter().zip([(5, 7), (5, 7), (5, 9)].iter()) {
        assert_eq!(rt; kept.info, fact(*lo, *hi, a).info);
    }
    assert_eq!(rt; shown.kept.len(), 3);
    Ok(())
}

#[test]
fn upstream_support_is_small(rt: HostRuntime) -> Result<(), Fail> {
    let (a, b) = (PremiseSet::one(0), PremiseSet::one(1));
    let matter = Matter {
        text: GENERAL,
        attachments: &[at_line(3, "copy", &["x", "y"])],
        tells: &[told("x", 5, 5, a), told("x", 1, 9, b)],
    };
    let shown = settled(rt.alloc(), matter, &[PremiseSet::first(4)], &[("y", a)])?;
    assert_eq!(rt; shown.kept.as_slice(), [fact(5, 5, a)].as_slice());
    Ok(())
}

#[test]
fn a_long_settling_is_not_made_again(rt: HostRuntime) -> Result<(), Fail> {
    let (none, all) = (PremiseSet::empty(), PremiseSet::first(4));
    let matter = Matter {
        text: GENERAL,
        attachments: &[at_line(3, "adder", &["x", "y", "x"])],
        tells: &[told("x", 0, 1_000_000, none), told("y", 1, 1, none)],
    };
    let shown = settled(rt.alloc(), matter, &[all, all], &[("x", all)])?;
    let calls = shown.answers.get(1).map(|answer| answer.calls);
    assert_eq!(rt; calls, Some(1));
    assert_eq!(rt; shown.kept.len(), 1);
    assert!(rt; shown.kept.iter().all(|kept| kept.info.is_contradiction()));
    Ok(())
}
