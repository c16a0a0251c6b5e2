//! Tests of `run`: what it writes for what it reads.

use crate::sessions::answers;
use pw_testing::worlds::WORLD;
use std::test::Fail;

mod failing_ends;
mod limits;
mod pace;
mod putting;
mod refused;
mod taking;
mod worked;
mod worldviews;

#[test]
fn memory_is_not_an_answer(rt: HostRuntime) -> Result<(), Fail> {
    let rows = [
        ("ann tell x 1..2 under a", "ok"),
        ("bob tell x 3..4 under b", "ok"),
        ("ann ask x", "contradiction"),
        ("ann doubt b", "ok"),
        ("ann ask x", "1..2"),
        ("bob ask x", "contradiction"),
        ("ann believe b", "ok"),
        ("ann ask x", "contradiction"),
        ("ann why x", "contradiction because a b"),
        ("bob conflicts", "conflicts x"),
    ];
    answers(&rt, WORLD, &rows)
}

#[test]
fn blank_lines_and_comments_get_no_reply(rt: HostRuntime) -> Result<(), Fail> {
    answers(&rt, WORLD, &[])?;
    answers(&rt, WORLD, &[("", ""), (" \t\r", ""), ("# ann ask x", "")])?;
    answers(&rt, WORLD, &[("", ""), ("", ""), ("ann ask x", "nothing")])
}

// A cell of each kind that the procedure takes.
const LIGHTS: &str = "workbench 1
user ann
set color red green blue
cell x interval
cell g color
";

#[test]
fn a_procedure_of_the_host(rt: HostRuntime) -> Result<(), Fail> {
    let rows = [
        ("ann attach light x g", "ok"),
        ("ann tell x 5..9", "ok"),
        ("ann ask g", "{red}"),
    ];
    answers(&rt, LIGHTS, &rows)
}
