//! The declaration that sequences are drawn over, and the same in tables, which rounds read.

use pw_info::{Kind, SetKind};

/// Three users, premises of which the last is Bob's own, cells of four kinds, and compounds with
/// inner cells, one of which calls the other twice.
pub const WORLD: &str = "workbench 1
user ann
user bob
user cid
premise a
premise b
premise c
premise d
premise f
premise h
premise i
premise j
premise mine of bob
set color red green blue
cell x interval
cell y interval
cell z interval
cell t interval
cell k exact
cell m exact
cell e bool
cell n bool
cell g color
cell w color
compound apart p interval q interval
local d interval
copy p d
copy q d
end
compound chain p interval q interval
local s interval
apart p s
local u interval
sum p s u
apart u q
end
compound guarded p bool g color h color
local n bool
inverter p n
switch n g h
end
";

/// The users, in declared order.
pub const USERS: [&str; 3] = ["ann", "bob", "cid"];

/// The premises, in declared order.
pub const PREMISES: [&str; 9] = ["a", "b", "c", "d", "f", "h", "i", "j", "mine"];

/// How many premises there are.
pub const PREMISE_COUNT: u16 = 9;

/// How many premises everybody may tell under: those before the last, which is Bob's.
pub const GENERAL: u16 = 8;

/// The place of the user who may tell under each premise.
pub const BOB: usize = 1;

/// The sorts of cells.
#[derive(Clone, Copy, PartialEq, Eq, Debug)]
pub enum Sort {
    Interval,
    Exact,
    Truth,
    Color,
}

impl Sort {
    /// The kind of its informations.
    pub fn kind(self) -> Kind {
        match self {
            Sort::Interval => Kind::Interval,
            Sort::Exact => Kind::Exact,
            Sort::Truth => Kind::Members(SetKind { number: 0, size: 2 }),
            Sort::Color => Kind::Members(SetKind { number: 2, size: 3 }),
        }
    }

    /// The places of the declared cells of this sort.
    pub fn cells(self) -> &'static [usize] {
        match self {
            Sort::Interval => &[0, 1, 2, 3],
            Sort::Exact => &[4, 5],
            Sort::Truth => &[6, 7],
            Sort::Color => &[8, 9],
        }
    }
}

/// The cells, in declared order.
pub const CELLS: [(&str, Sort); 10] = [
    ("x", Sort::Interval),
    ("y", Sort::Interval),
    ("z", Sort::Interval),
    ("t", Sort::Interval),
    ("k", Sort::Exact),
    ("m", Sort::Exact),
    ("e", Sort::Truth),
    ("n", Sort::Truth),
    ("g", Sort::Color),
    ("w", Sort::Color),
];

/// What is attached, and what a step of a compound calls.
#[derive(Clone, Copy, PartialEq, Eq, Debug)]
pub enum Callable {
    Light,
    Adder,
    Subtractor,
    Multiplier,
    Divider,
    Inverter,
    Switch,
    Copy,
    AtMost,
    Sum,
    Product,
    Conditional,
    Apart,
    Chain,
    Guarded,
}

/// A step of a compound: a local cell, or a call over the parameters, from 0, and then the locals
/// so far.
#[derive(Clone, Copy)]
pub enum Step {
    Local(Sort),
    Call(Callable, &'static [usize]),
}

impl Callable {
    /// Its name.
    pub fn name(self) -> &'static str {
        match self {
            Callable::Light => "light",
            Callable::Adder => "adder",
            Callable::Subtractor => "subtractor",
            Callable::Multiplier => "multiplier",
            Callable::Divider => "divider",
            Callable::Inverter => "inverter",
            Callable::Switch => "switch",
            Callable::Copy => "copy",
            Callable::AtMost => "at_most",
            Callable::Sum => "sum",
            Callable::Product => "product",
            Callable::Conditional => "conditional",
            Callable::Apart => "apart",
            Callable::Chain => "chain",
            Callable::Guarded => "guarded",
        }
    }

    /// The steps of a compound; none of a procedure.
    pub fn steps(self) -> Option<&'static [Step]> {
        match self {
            Callable::Sum => Some(SUM),
            Callable::Product => Some(PRODUCT),
            Callable::Conditional => Some(CONDITIONAL),
            Callable::Apart => Some(APART),
            Callable::Chain => Some(CHAIN),
            Callable::Guarded => Some(GUARDED),
            _ => None,
        }
    }
}

const SUM: &[Step] = &[
    Step::Call(Callable::Adder, &[0, 1, 2]),
    Step::Call(Callable::Subtractor, &[2, 0, 1]),
    Step::Call(Callable::Subtractor, &[2, 1, 0]),
];

const PRODUCT: &[Step] = &[
    Step::Call(Callable::Multiplier, &[0, 1, 2]),
    Step::Call(Callable::Divider, &[2, 0, 1]),
    Step::Call(Callable::Divider, &[2, 1, 0]),
];

const CONDITIONAL: &[Step] = &[
    Step::Local(Sort::Truth),
    Step::Call(Callable::Inverter, &[0, 4]),
    Step::Call(Callable::Switch, &[0, 1, 3]),
    Step::Call(Callable::Switch, &[4, 2, 3]),
];

const APART: &[Step] = &[
    Step::Local(Sort::Interval),
    Step::Call(Callable::Copy, &[0, 2]),
    Step::Call(Callable::Copy, &[1, 2]),
];

const CHAIN: &[Step] = &[
    Step::Local(Sort::Interval),
    Step::Call(Callable::Apart, &[0, 2]),
    Step::Local(Sort::Interval),
    Step::Call(Callable::Sum, &[0, 2, 3]),
    Step::Call(Callable::Apart, &[3, 1]),
];

const GUARDED: &[Step] = &[
    Step::Local(Sort::Truth),
    Step::Call(Callable::Inverter, &[0, 3]),
    Step::Call(Callable::Switch, &[3, 1, 2]),
];
