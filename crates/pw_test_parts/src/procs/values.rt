//! Calls of procedures whose values were found by hand. (The gate also tries each procedure of the
//! program on all small inputs.)

use pw_info::Info;
use pw_kinds::{Exact, Interval, Members};
use pw_procs::Meaning;

// Ends that leave no number possible, and ends that leave every number possible.
const NONE: (i64, i64) = (1, 0);

const WHOLE: (i64, i64) = (-1_000_000, 1_000_000);

// Truths, by their masks.
const NEITHER: u128 = 0;

const FALSE: u128 = 1;

const TRUE: u128 = 2;

const BOTH: u128 = 3;

/// The numbers between these ends; the contradiction if there are none, or if an end is out of
/// range.
pub fn from_to(ends: (i64, i64)) -> Info {
    Info::of_interval(Interval::new(ends.0, ends.1).unwrap_or(Interval::empty()))
}

/// The truths of a mask.
pub fn truths(mask: u128) -> Info {
    Info::of_members(0, Members::of(2, mask).unwrap_or(Members::empty(2)))
}

/// An exact number.
fn exact(n: i64) -> Info {
    Info::of_exact(Exact::one(n).unwrap_or(Exact::none()))
}

/// A call whose value is known. A procedure of one input takes the first.
#[derive(Debug, Drop)]
pub struct Call {
    pub meaning: Meaning,
    pub inputs: [Info; 2],
    pub want: Info,
}

impl Call {
    /// The inputs of the call.
    pub fn inputs(&self) -> &[Info] {
        match self.meaning {
            Meaning::Squarer
            | Meaning::Inverter
            | Meaning::Copy
            | Meaning::Point
            | Meaning::Fixed => &self.inputs[..1],
            _ => &self.inputs,
        }
    }
}

fn of_numbers(meaning: Meaning, x: (i64, i64), y: (i64, i64), want: (i64, i64)) -> Call {
    Call {
        meaning,
        inputs: [from_to(x), from_to(y)],
        want: from_to(want),
    }
}

fn of_order(meaning: Meaning, x: (i64, i64), y: (i64, i64), want: u128) -> Call {
    Call {
        meaning,
        inputs: [from_to(x), from_to(y)],
        want: truths(want),
    }
}

fn of_truths(meaning: Meaning, p: u128, q: u128, want: u128) -> Call {
    Call {
        meaning,
        inputs: [truths(p), truths(q)],
        want: truths(want),
    }
}

fn of_switch(p: u128, x: (i64, i64), want: (i64, i64)) -> Call {
    Call {
        meaning: Meaning::Switch,
        inputs: [truths(p), from_to(x)],
        want: from_to(want),
    }
}

/// Sums, differences, products and quotients.
pub fn number_calls() -> [Call; 12] {
    [
        of_numbers(Meaning::Adder, (900_000, 900_000), (200_000, 200_000), NONE),
        of_numbers(
            Meaning::Adder,
            (1_000_000, 1_000_000),
            (0, 0),
            (1_000_000, 1_000_000),
        ),
        of_numbers(Meaning::Subtractor, (1, 2), (5, 9), (-8, -3)),
        of_numbers(Meaning::Multiplier, (-2, 3), (-2, 3), (-6, 9)),
        of_numbers(
            Meaning::Multiplier,
            (999, 1000),
            (1001, 1002),
            (999_999, 1_000_000),
        ),
        of_numbers(Meaning::Squarer, (-2, 3), NONE, (0, 9)),
        of_numbers(Meaning::Divider, (-7, 7), (2, 3), (-3, 3)),
        of_numbers(Meaning::Divider, (6, 7), (-3, -2), (-3, -2)),
        of_numbers(Meaning::Divider, (1, 1), (2, 2), NONE),
        of_numbers(Meaning::Divider, (1, 1), (0, 2), WHOLE),
        of_numbers(Meaning::Divider, NONE, (0, 2), NONE),
        of_numbers(Meaning::Copy, (-3, 4), NONE, (-3, 4)),
    ]
}

/// Orders, equalities and truths.
pub fn truth_calls() -> [Call; 10] {
    [
        of_order(Meaning::AtMost, (1, 3), (3, 5), TRUE),
        of_order(Meaning::AtMost, (4, 5), (1, 3), FALSE),
        of_order(Meaning::AtMost, (1, 3), (2, 2), BOTH),
        of_order(Meaning::Equal, (1, 2), (2, 3), BOTH),
        of_order(Meaning::Equal, (1, 2), (3, 4), FALSE),
        of_truths(Meaning::Inverter, TRUE, NEITHER, FALSE),
        of_truths(Meaning::Conjoiner, FALSE, BOTH, FALSE),
        of_truths(Meaning::Conjoiner, FALSE, NEITHER, NEITHER),
        of_truths(Meaning::Disjoiner, BOTH, FALSE, BOTH),
        of_truths(Meaning::Disjoiner, BOTH, TRUE, TRUE),
    ]
}

/// Switches, and exact numbers.
pub fn other_calls() -> [Call; 9] {
    [
        of_switch(TRUE, (5, 6), (5, 6)),
        of_switch(FALSE, NONE, WHOLE),
        of_switch(NEITHER, (5, 5), NONE),
        of_switch(BOTH, (5, 5), WHOLE),
        Call {
            meaning: Meaning::Equal,
            inputs: [exact(7), exact(7)],
            want: truths(TRUE),
        },
        Call {
            meaning: Meaning::Point,
            inputs: [exact(1_000_001), exact(0)],
            want: from_to(NONE),
        },
        Call {
            meaning: Meaning::Point,
            inputs: [exact(-7), exact(0)],
            want: from_to((-7, -7)),
        },
        Call {
            meaning: Meaning::Fixed,
            inputs: [from_to((1, 2)), from_to(NONE)],
            want: Info::of_exact(Exact::any()),
        },
        Call {
            meaning: Meaning::Fixed,
            inputs: [from_to((2, 2)), from_to(NONE)],
            want: exact(2),
        },
    ]
}
