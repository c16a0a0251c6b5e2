//! Pseudo-random networks, with facts to tell and worldviews to settle.

use super::{Tell, told};
use crate::networks::Attachment;
use pw_facts::Fact;
use pw_info::{Info, SetKind};
use pw_kinds::Exact;
use pw_premises::PremiseSet;
use pw_procs::members_of_mask;
use pw_testing::facts::fact;
use pw_testing::random::Random;

/// The declaration that networks are drawn over, with cells of each kind.
pub const WORLD: &str = "workbench 1
user ann
premise a
premise b
premise c
premise d
premise f
set color red green blue
cell x interval
cell y interval
cell z interval
cell t interval
cell k exact
cell m exact
cell e bool
cell n bool
cell g color
cell w color
compound apart p interval q interval
local d interval
copy p d
copy q d
end
";

const INTERVALS: [&str; 4] = ["x", "y", "z", "t"];

const EXACTS: [&str; 2] = ["k", "m"];

const TRUTHS: [&str; 2] = ["e", "n"];

const COLORS: [&str; 2] = ["g", "w"];

// One of the names.
fn name(random: &mut Random, names: &[&'static str]) -> &'static str {
    random.one_of(names, "")
}

// The names of the cells of some kind.
fn alike(random: &mut Random) -> &'static [&'static str] {
    match random.below(5) {
        0 => &EXACTS,
        1 => &TRUTHS,
        2 => &COLORS,
        _ => &INTERVALS,
    }
}

/// A random set of the five premises: each is in it with one chance in `chance`.
pub fn draw_premises(random: &mut Random, chance: u64) -> PremiseSet {
    random.premises(5, chance)
}

/// A worldview, and three to go on to: the same, a larger one, and one that does not include it.
pub fn draw_worldviews(random: &mut Random) -> (PremiseSet, [PremiseSet; 3]) {
    let number = random.below(5).min(4);
    let next = number.saturating_add(random.below(4)).saturating_add(1) % 5;
    let (one, other) = (PremiseSet::one(number as u16), PremiseSet::one(next as u16));
    let first = draw_premises(random, 2).join(one).difference(other);
    let larger = first.join(other).join(draw_premises(random, 2));
    let apart = draw_premises(random, 2).difference(one);
    (first, [first, larger, apart])
}

/// A callable and the cells to which it is attached, under premises.
#[derive(Clone, Copy)]
pub struct Drawn {
    callable: &'static str,
    cells: [&'static str; 4],
    count: usize,
    support: PremiseSet,
}

impl Drawn {
    /// The attachment at this line.
    pub fn at_line(&self, line: u32) -> Attachment<'_> {
        Attachment {
            line,
            callable: self.callable,
            cells: &self.cells[..self.count.min(4)],
            support: self.support,
        }
    }
}

// A callable over three cells of intervals.
fn draw_arithmetic(random: &mut Random) -> (&'static str, [&'static str; 4], usize) {
    let callables = [
        "adder",
        "subtractor",
        "multiplier",
        "divider",
        "sum",
        "product",
    ];
    let callable = name(random, &callables);
    let cells = [
        name(random, &INTERVALS),
        name(random, &INTERVALS),
        name(random, &INTERVALS),
        "",
    ];
    (callable, cells, 3)
}

// A callable and its cells.
fn draw_callable(random: &mut Random) -> (&'static str, [&'static str; 4], usize) {
    let kind = alike(random);
    let (truth, one, two) = (
        name(random, &TRUTHS),
        name(random, kind),
        name(random, kind),
    );
    let (number, other, third) = (
        name(random, &INTERVALS),
        name(random, &INTERVALS),
        name(random, &INTERVALS),
    );
    match random.below(11) {
        0 => ("light", [number, name(random, &COLORS), "", ""], 2),
        1 => ("inverter", [truth, name(random, &TRUTHS), "", ""], 2),
        2 => ("at_most", [number, other, truth, ""], 3),
        3 => ("switch", [truth, one, two, ""], 3),
        4 => ("copy", [one, two, "", ""], 2),
        5 => ("conditional", [truth, number, other, third], 4),
        6 => ("apart", [number, other, "", ""], 2),
        _ => draw_arithmetic(random),
    }
}

// An attachment.
fn draw(random: &mut Random) -> Drawn {
    let (callable, cells, count) = draw_callable(random);
    let support = draw_premises(random, 4);
    Drawn {
        callable,
        cells,
        count,
        support,
    }
}

/// Some attachments.
pub fn draw_attachments(random: &mut Random) -> [Drawn; 8] {
    [
        draw(random),
        draw(random),
        draw(random),
        draw(random),
        draw(random),
        draw(random),
        draw(random),
        draw(random),
    ]
}

// An information about a cell of some kind, with the name of the cell.
fn draw_info(random: &mut Random) -> (&'static str, Info) {
    match random.below(9) {
        0 => {
            let number = Exact::one(random.number(-2, 3)).unwrap_or(Exact::none());
            (name(random, &EXACTS), Info::of_exact(number))
        }
        1 => {
            let set = SetKind { number: 0, size: 2 };
            (
                name(random, &TRUTHS),
                members_of_mask(set, u128::from(random.below(2).saturating_add(1))),
            )
        }
        2 => {
            let set = SetKind { number: 2, size: 3 };
            (
                name(random, &COLORS),
                members_of_mask(set, u128::from(random.below(7).saturating_add(1))),
            )
        }
        _ => {
            let lo = random.number(-30, 50);
            let hi = lo.saturating_add(random.number(0, 60));
            let number = fact(lo, hi, PremiseSet::empty());
            (name(random, &INTERVALS), number.info)
        }
    }
}

// A fact.
fn draw_tell(random: &mut Random) -> Tell<'static> {
    let (cell, info) = draw_info(random);
    let support = draw_premises(random, 3);
    let fact = Fact { info, support };
    Tell { cell, fact }
}

// Bounds of a cell of intervals, mostly narrow, so that there are not too many rounds.
fn draw_bounds(random: &mut Random, cell: &'static str) -> Tell<'static> {
    let most = if random.below(4) == 0 { 1_000_000 } else { 500 };
    told(cell, -most, most, PremiseSet::empty())
}

/// Some facts.
pub fn draw_tells(random: &mut Random) -> [Tell<'static>; 12] {
    [
        draw_bounds(random, "x"),
        draw_bounds(random, "y"),
        draw_bounds(random, "z"),
        draw_bounds(random, "t"),
        draw_tell(random),
        draw_tell(random),
        draw_tell(random),
        draw_tell(random),
        draw_tell(random),
        draw_tell(random),
        draw_tell(random),
        draw_tell(random),
    ]
}
