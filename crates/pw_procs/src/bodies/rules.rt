//! Procedures given by rules.
ghost use Rattle.std.specs.Prelude.{◌≡◌, map};
ghost use Rattle.std.specs.List.{list_all};
ghost use Rattle.pw_info.specs.Information.{kind_of};
ghost use Rattle.pw_procs.specs.Rules.{AreRules, value_of_rules, all_include};
ghost use Rattle.pw_procs.specs.Values.{is_possible};

use crate::rule::Rule;
use pw_info::{Info, Kind};

// Whether each guard includes its input.
fn applies(guards: &[Info], inputs: &[Info]) -> bool
    requires { map kind_of guards.now ≡ map kind_of inputs.now }
    ensures { result ≡ all_include guards.now inputs.now }
{
    for place in 0..inputs.len() {
        if !inputs[place].implies(&guards[place]) {
            return false;
        }
    }
    true
}

// Whether each input leaves some value possible.
fn are_possible(inputs: &[Info]) -> bool
    ensures { result ≡ list_all is_possible inputs.now }
{
    for input in inputs {
        if input.is_contradiction() {
            return false;
        }
    }
    true
}

/// The value of rules on inputs of the kinds of their guards: the common part of the results of all
/// rules whose guards all include their inputs, or the contradiction if an input is contradictory.
/// `output` is the kind of the results.
pub fn by_rules(output: Kind, rules: &[Rule], inputs: &[Info]) -> Info
    requires { AreRules (map kind_of inputs.now) output rules.now }
    ensures { result ≡ value_of_rules output rules.now inputs.now }
{
    if !are_possible(inputs) {
        return Info::contradiction(output);
    }
    let mut value = Info::nothing(output);
    for rule in rules {
        if applies(&rule.guards, inputs) {
            value = value.meet(&rule.result);
        }
    }
    value
}
