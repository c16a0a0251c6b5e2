//! A plain function for each meaning of the table. Each works on end points, corners and members,
//! and gives the value that the meaning has over all possible values of the inputs.
ghost use Rattle.std.specs.Prelude.{◌≡◌};
ghost use Rattle.pw_procs.specs.Slots.{FitSlots};
ghost use Rattle.pw_procs.specs.Values.{input};
ghost use Rattle.pw_procs.specs.Meaning.{inputs_of_meaning, sum_of, difference_of, product_of};
ghost use Rattle.pw_procs.specs.Meaning.{square_of, at_most_of, equality_of, negation_of};
ghost use Rattle.pw_procs.specs.Meaning.{conjunction_of, disjunction_of, switched, point_of};
ghost use Rattle.pw_procs.specs.Meaning.{fixed_of};
ghost use Rattle.pw_procs.specs.Meaning.{quotient_of};

mod exact_numbers;
mod inputs;
mod only;
mod products;
mod quotients;
mod rules;
mod sums;
mod truths;

use crate::meaning::Meaning;
use exact_numbers::{fixed_number, point_interval};
use inputs::{exact_at, interval_at, truths_at};
use products::{product, square};
use pw_info::Info;
use quotients::quotient;
pub use rules::by_rules;
use sums::{difference, sum};
use truths::{conjunction, disjunction, equality, negation, order};

/// Of intervals x and y: the hull of all `x + y`.
pub fn adder(inputs: &[Info]) -> Info
    requires { FitSlots (inputs_of_meaning Meaning.Adder) inputs.now }
    ensures { result ≡ sum_of (input inputs.now 0) (input inputs.now 1) }
{
    Info::of_interval(sum(interval_at(inputs, 0), interval_at(inputs, 1)))
}

/// Of intervals t and x: the hull of all `t - x`.
pub fn subtractor(inputs: &[Info]) -> Info
    requires { FitSlots (inputs_of_meaning Meaning.Subtractor) inputs.now }
    ensures { result ≡ difference_of (input inputs.now 0) (input inputs.now 1) }
{
    Info::of_interval(difference(interval_at(inputs, 0), interval_at(inputs, 1)))
}

/// Of intervals x and y: the hull of all `x * y`.
pub fn multiplier(inputs: &[Info]) -> Info
    requires { FitSlots (inputs_of_meaning Meaning.Multiplier) inputs.now }
    ensures { result ≡ product_of (input inputs.now 0) (input inputs.now 1) }
{
    Info::of_interval(product(interval_at(inputs, 0), interval_at(inputs, 1)))
}

/// Of an interval x: the hull of all `x * x`.
pub fn squarer(inputs: &[Info]) -> Info
    requires { FitSlots (inputs_of_meaning Meaning.Squarer) inputs.now }
    ensures { result ≡ square_of (input inputs.now 0) }
{
    Info::of_interval(square(interval_at(inputs, 0)))
}

/// Of intervals t and x: nothing if x may be 0; otherwise the whole numbers from the least `t / x`,
/// rounded up, to the greatest, rounded down.
pub fn divider(inputs: &[Info]) -> Info
    requires { FitSlots (inputs_of_meaning Meaning.Divider) inputs.now }
    ensures { result ≡ quotient_of (input inputs.now 0) (input inputs.now 1) }
{
    Info::of_interval(quotient(interval_at(inputs, 0), interval_at(inputs, 1)))
}

/// Of intervals x and y: whether `x <= y`, as far as it is known.
pub fn at_most(inputs: &[Info]) -> Info
    requires { FitSlots (inputs_of_meaning Meaning.AtMost) inputs.now }
    ensures { result ≡ at_most_of (input inputs.now 0) (input inputs.now 1) }
{
    order(interval_at(inputs, 0), interval_at(inputs, 1))
}

/// Of two informations x and y of one kind: whether `x = y`, as far as it is known.
pub fn equal(inputs: &[Info]) -> Info
    requires { FitSlots (inputs_of_meaning Meaning.Equal) inputs.now }
    ensures { result ≡ equality_of (input inputs.now 0) (input inputs.now 1) }
{
    equality(&inputs[0], &inputs[1])
}

/// Of a truth p: all `not p`.
pub fn inverter(inputs: &[Info]) -> Info
    requires { FitSlots (inputs_of_meaning Meaning.Inverter) inputs.now }
    ensures { result ≡ negation_of (input inputs.now 0) }
{
    negation(truths_at(inputs, 0))
}

/// Of truths p and q: all `p and q`.
pub fn conjoiner(inputs: &[Info]) -> Info
    requires { FitSlots (inputs_of_meaning Meaning.Conjoiner) inputs.now }
    ensures { result ≡ conjunction_of (input inputs.now 0) (input inputs.now 1) }
{
    conjunction(truths_at(inputs, 0), truths_at(inputs, 1))
}

/// Of truths p and q: all `p or q`.
pub fn disjoiner(inputs: &[Info]) -> Info
    requires { FitSlots (inputs_of_meaning Meaning.Disjoiner) inputs.now }
    ensures { result ≡ disjunction_of (input inputs.now 0) (input inputs.now 1) }
{
    disjunction(truths_at(inputs, 0), truths_at(inputs, 1))
}

/// Of a truth p and an information x: x if p is exactly true, the contradiction if p is
/// contradictory, and otherwise nothing.
pub fn switch(inputs: &[Info]) -> Info
    requires { FitSlots (inputs_of_meaning Meaning.Switch) inputs.now }
    ensures { result ≡ switched (input inputs.now 0) (input inputs.now 1) }
{
    let p = truths_at(inputs, 0);
    let x = inputs[1].copied();
    if p.is_empty() {
        return Info::contradiction(x.kind());
    }
    if p.contains(0) {
        return Info::nothing(x.kind());
    }
    x
}

/// Of an information x: x.
pub fn copy(inputs: &[Info]) -> Info
    requires { FitSlots (inputs_of_meaning Meaning.Copy) inputs.now }
    ensures { result ≡ input inputs.now 0 }
{
    inputs[0].copied()
}

/// Of an exact number: the interval of only that number.
pub fn point(inputs: &[Info]) -> Info
    requires { FitSlots (inputs_of_meaning Meaning.Point) inputs.now }
    ensures { result ≡ point_of (input inputs.now 0) }
{
    Info::of_interval(point_interval(exact_at(inputs, 0)))
}

/// Of an interval: its number if it has exactly one, and otherwise nothing.
pub fn fixed(inputs: &[Info]) -> Info
    requires { FitSlots (inputs_of_meaning Meaning.Fixed) inputs.now }
    ensures { result ≡ fixed_of (input inputs.now 0) }
{
    Info::of_exact(fixed_number(interval_at(inputs, 0)))
}
