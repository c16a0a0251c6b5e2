//! The signatures of the meanings of the table.
ghost use Rattle.std.specs.Prelude.{◌≡◌, true, false, IfSome, IfNone};
ghost use Rattle.pw_procs.specs.Meaning.{is_given_by_rules, inputs_of_meaning, output_of_meaning};
ghost use Rattle.pw_procs.specs.Signature.{input_slots_of, output_slot_of};

use crate::kinds::truth_kind;
use crate::meaning::Meaning;
use crate::signature::{Signature, Slot};
use pw_info::Kind;

const NUMBER: Slot = Slot::Fixed(Kind::Interval);

const EXACT: Slot = Slot::Fixed(Kind::Exact);

/// The signature of a meaning. None for a meaning given by rules: its kinds are those of the rules.
pub fn signature_of(meaning: &Meaning) -> Option<Signature>
    ensures inputs { IfSome result (λ s. input_slots_of s ≡ inputs_of_meaning meaning.now) }
    ensures output { IfSome result (λ s. output_slot_of s ≡ output_of_meaning meaning.now) }
    ensures some { IfSome result (λ s. is_given_by_rules meaning.now ≡ false) }
    ensures none { IfNone result (is_given_by_rules meaning.now ≡ true) }
{
    let truth = Slot::Fixed(truth_kind());
    match meaning {
        Meaning::Adder | Meaning::Subtractor | Meaning::Multiplier | Meaning::Divider => {
            Signature::new(&[NUMBER, NUMBER], NUMBER)
        }
        Meaning::Squarer => Signature::new(&[NUMBER], NUMBER),
        Meaning::AtMost => Signature::new(&[NUMBER, NUMBER], truth),
        Meaning::Equal => Signature::new(&[Slot::Same, Slot::Same], truth),
        Meaning::Inverter => Signature::new(&[truth], truth),
        Meaning::Conjoiner | Meaning::Disjoiner => Signature::new(&[truth, truth], truth),
        Meaning::Switch => Signature::new(&[truth, Slot::Same], Slot::Same),
        Meaning::Copy => Signature::new(&[Slot::Same], Slot::Same),
        Meaning::Point => Signature::new(&[EXACT], NUMBER),
        Meaning::Fixed => Signature::new(&[NUMBER], EXACT),
        Meaning::Rules(_) => None,
    }
}
