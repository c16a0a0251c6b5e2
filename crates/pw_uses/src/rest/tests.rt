//! What is left of a sum, over the text of a declaration.

use super::rest_of_sum;
use crate::answer::HostFault;
use pw_decl::{DeclFault, DeclFaultKind};
use pw_info::Info;
use pw_kinds::Interval;
use std::test::Fail;

const CELLS: &str = "workbench 1\nuser ann\ncell x interval\ncell y interval\ncell t interval\n";

// An interval from one end to another.
fn from_to(lo: i64, hi: i64) -> Result<Interval, Fail> {
    match Interval::new(lo, hi) {
        Some(interval) => Ok(interval),
        None => Err("no interval".into()),
    }
}

// Of 10..12 in all, 3..4 are taken: 12 less 3 and 10 less 4 are left at the ends.
#[test]
fn rest_of_a_sum(rt: HostRuntime) -> Result<(), Fail> {
    let (taken, all) = (from_to(3, 4)?, from_to(10, 12)?);
    let left = rest_of_sum(rt.alloc(), CELLS.as_bytes(), taken, all);
    assert_eq!(rt; left, Ok(Info::of_interval(from_to(6, 9)?)));
    Ok(())
}

// A text without y, and one with a fault on line 2.
#[test]
fn texts_without_an_answer(rt: HostRuntime) -> Result<(), Fail> {
    let all = from_to(0, 9)?;
    let lacking = b"workbench 1\nuser ann\ncell x interval\ncell t interval\n";
    assert_eq!(rt;
        rest_of_sum(rt.alloc(), lacking, all, all),
        Err(HostFault::Lacking)
    );
    let fault = DeclFault {
        line: 2,
        why: DeclFaultKind::UnknownName,
    };
    let faulty = b"workbench 1\ncell x height\n";
    assert_eq!(rt;
        rest_of_sum(rt.alloc(), faulty, all, all),
        Err(HostFault::Declaration(fault))
    );
    Ok(())
}
