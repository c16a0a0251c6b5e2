//! What a procedure means: one of a fixed list of operations, or a table of rules.
use crate::rule::Rule;

/// What a propagator says about its output: the value of a meaning is taken over all possible
/// values of its inputs. If an input is contradictory, the value is the contradiction, except for
/// `Switch`. (Radul and Sussman, *The Art of the Propagator*, on primitive propagators.)
#[derive(Debug, Drop)]
pub enum Meaning {
    /// Of intervals x and y: the hull of all `x + y`.
    Adder,
    /// Of intervals t and x: the hull of all `t - x`.
    Subtractor,
    /// Of intervals x and y: the hull of all `x * y`.
    Multiplier,
    /// Of an interval x: the hull of all `x * x`.
    Squarer,
    /// Of intervals t and x: nothing if x may be 0; otherwise the whole numbers from the least true
    /// quotient, rounded up, to the greatest, rounded down.
    Divider,
    /// Of intervals x and y: whether `x <= y`, as far as it is known.
    AtMost,
    /// Of two informations of one kind: whether `x = y`, as far as it is known.
    Equal,
    /// Of a truth: all `not p`.
    Inverter,
    /// Of two truths: all `p and q`.
    Conjoiner,
    /// Of two truths: all `p or q`.
    Disjoiner,
    /// Of a truth p and an information x: x if p is exactly true, the contradiction if p is
    /// contradictory, and otherwise nothing.
    Switch,
    /// Of an information x: x.
    Copy,
    /// Of an exact number: the interval of only that number.
    Point,
    /// Of an interval: its number if it has exactly one, and otherwise nothing.
    Fixed,
    /// The common part of the results of all rules that apply.
    Rules(Vec<Rule>),
}
