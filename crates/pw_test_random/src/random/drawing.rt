//! Commands of several users, drawn from a seed.

use super::alternatives::{Alternatives, draw_alternatives};
use super::declared::{BOB, Callable, GENERAL, PREMISE_COUNT, Sort, USERS};
use pw_info::{Info, SetKind};
use pw_kinds::{Exact, Interval};
use pw_premises::PremiseSet;
use pw_procs::members_of_mask;
use pw_testing::random::Random;

/// How many commands a sequence has.
pub const COMMANDS: usize = 32;

/// What is told of a cell.
#[derive(Clone, Copy, Debug)]
pub enum Known {
    Between(i64, i64),
    Exactly(i64),
    Truth(u128),
    Colors(u128),
}

impl Known {
    /// The information that says it.
    pub fn info(self) -> Info {
        match self {
            Known::Between(lo, hi) => {
                Info::of_interval(Interval::new(lo, hi).unwrap_or(Interval::empty()))
            }
            Known::Exactly(number) => Info::of_exact(Exact::one(number).unwrap_or(Exact::none())),
            Known::Truth(mask) => members_of_mask(SetKind { number: 0, size: 2 }, mask),
            Known::Colors(mask) => members_of_mask(SetKind { number: 2, size: 3 }, mask),
        }
    }
}

/// The cells that something is attached to, by their places.
#[derive(Clone, Copy)]
pub struct Ends {
    places: [usize; 4],
    count: usize,
}

impl Ends {
    // Two cells.
    fn two(one: usize, other: usize) -> Ends {
        Ends {
            places: [one, other, 0, 0],
            count: 2,
        }
    }

    // Three cells.
    fn three(one: usize, other: usize, third: usize) -> Ends {
        Ends {
            places: [one, other, third, 0],
            count: 3,
        }
    }

    /// The places of the cells.
    pub fn places(&self) -> &[usize] {
        &self.places[..self.count.min(4)]
    }
}

/// What a user does.
#[derive(Clone, Copy)]
pub enum Action {
    Tell(usize, Known, PremiseSet),
    Attach(Callable, Ends, PremiseSet),
    Believe(PremiseSet),
    Doubt(PremiseSet),
    Beliefs,
    Ask(usize),
    Why(usize),
    Conflicts,
    Choose(Alternatives),
}

/// A command of a user, by the place among the users.
#[derive(Clone, Copy)]
pub struct Command {
    pub user: usize,
    pub action: Action,
}

// What is told of a cell of this sort.
fn draw_known(random: &mut Random, sort: Sort) -> Known {
    match sort {
        Sort::Interval => {
            let lo = random.number(-6, 12);
            Known::Between(lo, lo.saturating_add(random.number(0, 8)))
        }
        Sort::Exact => Known::Exactly(random.number(-1, 3)),
        Sort::Truth => Known::Truth(u128::from(random.below(2).saturating_add(1))),
        Sort::Color => Known::Colors(u128::from(random.below(7).saturating_add(1))),
    }
}

// A sort of cells, mostly intervals.
fn draw_sort(random: &mut Random) -> Sort {
    match random.below(8) {
        0 => Sort::Exact,
        1 => Sort::Truth,
        2 => Sort::Color,
        _ => Sort::Interval,
    }
}

// A cell of this sort.
fn draw_cell(random: &mut Random, sort: Sort) -> usize {
    random.one_of(sort.cells(), 0)
}

// Two cells of one sort.
fn draw_alike(random: &mut Random) -> (usize, usize) {
    let sort = draw_sort(random);
    (draw_cell(random, sort), draw_cell(random, sort))
}

// Premises under which the user may tell, mostly few.
fn draw_support(random: &mut Random, user: usize) -> PremiseSet {
    let support = random.premises(GENERAL, 8);
    if user == BOB && random.below(4) == 0 {
        return support.join(PremiseSet::one(GENERAL));
    }
    support
}

// One premise, and maybe others.
fn draw_premises(random: &mut Random) -> PremiseSet {
    let one = PremiseSet::one(random.below(9).min(8) as u16);
    one.join(random.premises(PREMISE_COUNT, 9))
}

// A callable over cells of intervals.
fn draw_arithmetic(random: &mut Random) -> (Callable, Ends) {
    let interval = Sort::Interval;
    let ends = Ends::three(
        draw_cell(random, interval),
        draw_cell(random, interval),
        draw_cell(random, interval),
    );
    let callable = match random.below(8) {
        0 => Callable::Adder,
        1 => Callable::Subtractor,
        2 => Callable::Multiplier,
        3 => Callable::Divider,
        4 => Callable::Product,
        _ => Callable::Sum,
    };
    (callable, ends)
}

// A callable over two or more cells, the first or the last of which is no interval.
fn draw_mixed(random: &mut Random) -> (Callable, Ends) {
    let truth = draw_cell(random, Sort::Truth);
    let (number, other) = (
        draw_cell(random, Sort::Interval),
        draw_cell(random, Sort::Interval),
    );
    let (color, light) = (
        draw_cell(random, Sort::Color),
        draw_cell(random, Sort::Color),
    );
    match random.below(6) {
        0 => (Callable::Light, Ends::two(number, light)),
        1 => (
            Callable::Inverter,
            Ends::two(truth, draw_cell(random, Sort::Truth)),
        ),
        2 => (Callable::AtMost, Ends::three(number, other, truth)),
        3 => (Callable::Guarded, Ends::three(truth, color, light)),
        _ => {
            let (one, two) = draw_alike(random);
            (Callable::Switch, Ends::three(truth, one, two))
        }
    }
}

// A callable with its cells.
fn draw_attached(random: &mut Random) -> (Callable, Ends) {
    match random.below(12) {
        0 | 1 => {
            let (one, two) = draw_alike(random);
            (Callable::Copy, Ends::two(one, two))
        }
        2 | 3 => {
            let interval = Sort::Interval;
            let ends = Ends::two(draw_cell(random, interval), draw_cell(random, interval));
            (Callable::Apart, ends)
        }
        4 => {
            let interval = Sort::Interval;
            let ends = Ends::two(draw_cell(random, interval), draw_cell(random, interval));
            (Callable::Chain, ends)
        }
        5 => draw_conditional(random),
        6 | 7 | 8 => draw_mixed(random),
        _ => draw_arithmetic(random),
    }
}

// A choice between two cells of intervals.
fn draw_conditional(random: &mut Random) -> (Callable, Ends) {
    let interval = Sort::Interval;
    let places = [
        draw_cell(random, Sort::Truth),
        draw_cell(random, interval),
        draw_cell(random, interval),
        draw_cell(random, interval),
    ];
    (Callable::Conditional, Ends { places, count: 4 })
}

// Something that changes what is told, attached or believed.
fn draw_change(random: &mut Random, user: usize) -> Action {
    match random.below(12) {
        0..=4 => {
            let sort = draw_sort(random);
            let cell = draw_cell(random, sort);
            let known = draw_known(random, sort);
            Action::Tell(cell, known, draw_support(random, user))
        }
        5..=8 => {
            let (callable, ends) = draw_attached(random);
            Action::Attach(callable, ends, draw_support(random, user))
        }
        9 => Action::Believe(draw_premises(random)),
        _ => Action::Doubt(draw_premises(random)),
    }
}

// A question.
fn draw_question(random: &mut Random) -> Action {
    let sort = draw_sort(random);
    let cell = draw_cell(random, sort);
    match random.below(14) {
        0 => Action::Beliefs,
        1..=4 => Action::Ask(cell),
        5..=8 => Action::Why(cell),
        9..=11 => Action::Conflicts,
        _ => Action::Choose(draw_alternatives(random)),
    }
}

// A command. Of a hundred commands, `questions` are questions.
fn draw(random: &mut Random, questions: u64) -> Command {
    let user = (random.below(USERS.len() as u64) as usize).min(2);
    let action = if random.below(100) < questions {
        draw_question(random)
    } else {
        draw_change(random, user)
    };
    Command { user, action }
}

// Mostly bounds of a cell of intervals under no premise, so that there are not too many rounds.
fn draw_bounds(random: &mut Random, cell: usize) -> Command {
    if random.below(12) == 0 {
        return draw(random, 0);
    }
    let most = random.number(10, 20);
    Command {
        user: 0,
        action: Action::Tell(
            cell,
            Known::Between(most.saturating_neg(), most),
            PremiseSet::empty(),
        ),
    }
}

/// The command at this place of the sequence of a seed: bounds first, then mostly changes, and then
/// mostly questions.
pub fn draw_command(seed: u64, place: usize) -> Command {
    let mut random = Random::at(seed, place as u64);
    match place {
        0..=3 => draw_bounds(&mut random, place),
        4..=13 => draw(&mut random, 20),
        _ => draw(&mut random, 60),
    }
}
