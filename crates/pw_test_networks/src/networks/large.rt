//! Compounds of many calls: a cell lists those of an attachment at once.

use super::attaching::has_lines;
use super::{Attachment, Shown, at_line, attached};
use pw_premises::PremiseSet;
use std::alloc::Global;
use std::test::Fail;

// A compound of 16 calls. Of these, 0 4 5 7 8 10 14 read p, 2 4 6 9 12 read q, 5 6 11 13 read r and
// 1 3 15 read m. The calls 1 6 9 11 write p, 3 5 8 13 write q and 4 7 10 12 15 write r.
const LARGE: &str = "workbench 1\ncell x interval\ncell y interval\ncell t interval\n\
compound large p interval q interval r interval\nlocal m interval\n\
copy p m\ncopy m p\ncopy q m\ncopy m q\nadder p q r\nsubtractor r p q\nsubtractor r q p\n\
multiplier p p r\ncopy p q\ncopy q p\ncopy p r\ncopy r p\ncopy q r\ncopy r q\ncopy p m\ncopy m r\nend\n";

// The compound is attached between other callables: at line 2, at line 5 to the cells in another
// order, under a premise, and at line 7 with a cell named twice.
fn attached_thrice(alloc: Global) -> Result<Shown, Fail> {
    let under = Attachment {
        line: 5,
        callable: "large",
        cells: &["t", "x", "y"],
        support: PremiseSet::one(0),
    };
    let attachments = [
        at_line(1, "copy", &["x", "y"]),
        at_line(2, "large", &["x", "y", "t"]),
        at_line(3, "adder", &["x", "y", "t"]),
        under,
        at_line(7, "large", &["x", "x", "t"]),
        at_line(8, "copy", &["t", "x"]),
    ];
    attached(alloc, LARGE, &attachments)
}

#[test]
fn readers_of_many_calls(rt: HostRuntime) -> Result<(), Fail> {
    let shown = attached_thrice(rt.alloc())?;
    assert_eq!(rt; shown.fault, None);
    has_lines(
        &rt,
        shown.readers.as_str(),
        &[
            "x: 0 1 5 6 8 9 11 15 17 20 22 24 27 30 34 36 38 39 40 41 42 43 44 46 48",
            "y: 3 5 7 10 13 17 23 24 29 31",
            "t: 6 7 12 14 18 22 23 25 26 28 32 39 40 45 47 50",
            "2.0: 2 4 16",
            "5.0: 19 21 33",
            "7.0: 35 37 49",
        ],
    )
}

#[test]
fn writers_of_many_calls(rt: HostRuntime) -> Result<(), Fail> {
    let shown = attached_thrice(rt.alloc())?;
    has_lines(
        &rt,
        shown.writers.as_str(),
        &[
            "x: 2 7 10 12 21 23 26 31 35 37 39 40 42 43 45 47 50",
            "y: 0 4 6 9 14 22 25 28 30 33",
            "t: 5 8 11 13 16 17 19 24 27 29 38 41 44 46 49",
        ],
    )
}
