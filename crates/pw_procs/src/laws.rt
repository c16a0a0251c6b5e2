//! Laws of the meanings. Each is the contract of a function that does nothing, and holds of every
//! meaning and all inputs.

ghost use Rattle.std.specs.Prelude.{◌≡◌, ℤ, pos, ◌+ℤ◌, ◌-ℤ◌, ◌*ℤ◌, Bool, true, false, not};
ghost use Rattle.pw_info.specs.declared.info.Info.{Info};
ghost use Rattle.pw_info.specs.Information.{nothing, contradiction};
ghost use Rattle.pw_procs.specs.declared.rule.Rule.{Rule};
ghost use Rattle.pw_procs.specs.declared.signature.Slot.{Slot};
ghost use Rattle.pw_procs.specs.declared.meaning.Meaning.{Meaning};
ghost use Rattle.pw_procs.specs.declared.meaning.Meaning.TheVariants.{Adder, Subtractor};
ghost use Rattle.pw_procs.specs.declared.meaning.Meaning.TheVariants.{Multiplier, Squarer, Divider};
ghost use Rattle.pw_procs.specs.Signature.{IsOfOutputKind};
ghost use Rattle.pw_procs.specs.Procedure.{Procedure};
ghost use Rattle.pw_procs.specs.Values.{image_of_one, image_of_two};
ghost use Rattle.pw_procs.specs.Values.{range, from_minus_to, any_number, no_number, just, exactly};
ghost use Rattle.pw_procs.specs.Values.{bool};
ghost use Rattle.pw_procs.specs.Meaning.{quotient_of};
ghost use Rattle.pw_procs.specs.Meaning.{sum_of, difference_of, product_of, square_of};
ghost use Rattle.pw_procs.specs.Meaning.{at_most_of, equality_of, negation_of, conjunction_of};
ghost use Rattle.pw_procs.specs.Meaning.{disjunction_of, point_of, fixed_of};
ghost use Rattle.pw_procs.specs.MeaningLaws.{IsMonotone, KeepsSolutionsOfOne, KeepsSolutionsOfTwo};
ghost use Rattle.pw_procs.specs.MeaningLaws.{SwitchPasses, SwitchWaits, RuleApplies, RuleWaits};
ghost use Rattle.pw_procs.specs.Laws.{ImageOfOneIsASet, ImageOfTwoIsASet, HullOfASet, HullOfOne};
ghost use Rattle.pw_procs.specs.Laws.{HullOfTwo, ValuesHaveTheOutputKind, KindsFitApart};
ghost use Rattle.pw_procs.specs.Laws.{AcceptedKindsGiveTheOutputKind};
ghost use Rattle.pw_procs.specs.Laws.{GoodNamesAreRefusedForMemoryAlone};
ghost use Rattle.pw_procs.specs.Laws.{ContradictoryInputsContradict};
ghost use Rattle.pw_procs.specs.Laws.{ContradictoryControlContradicts};

/// The hull of a set of numbers leaves exactly the numbers in range possible that lie between two
/// numbers of the set, or on one; and what an operation gives on possible values is a set of
/// exactly these numbers.
pub fn hull_lies_between()
    ensures image_of_one { ImageOfOneIsASet }
    ensures image_of_two { ImageOfTwoIsASet }
    ensures hull { HullOfASet }
    ensures hull_of_one { HullOfOne }
    ensures hull_of_two { HullOfTwo }
{}

/// The value of a meaning is of the kind of its output, if the inputs fit.
pub fn values_have_the_output_kind()
    ensures { ValuesHaveTheOutputKind }
{}

/// Kinds fit a signature if the kinds of the inputs and the kind of the output do, with one kind
/// for all slots of any kind.
pub fn kinds_fit_apart()
    ensures { KindsFitApart }
{}

/// A procedure gives values of the kind of its output. So if it accepts the kinds of some inputs
/// followed by one more kind, the inputs fit and its value is of that last kind.
pub fn procedures_give_their_output_kind()
    ensures kind { (procedure : Procedure) → IsOfOutputKind procedure.signature procedure.meaning }
    ensures accepted { AcceptedKindsGiveTheOutputKind }
{}

/// A list of procedures under names that a registry allows is refused only when out of memory.
pub fn good_names_are_refused_for_memory_alone()
    ensures { GoodNamesAreRefusedForMemoryAlone }
{}

/// More informed inputs give a value that is at least as informed.
pub fn meanings_are_monotone()
    ensures { (output : Slot) (meaning : Meaning) → IsMonotone output meaning }
{}

/// If some input is contradictory, the value is the contradiction; for a switch, if its truth is
/// contradictory.
pub fn contradictory_inputs_give_contradictions()
    ensures value { ContradictoryInputsContradict }
    ensures switch { ContradictoryControlContradicts }
{}

/// Numbers in range that satisfy the relation of an arithmetic meaning stay possible: if the inputs
/// allow theirs, the value allows the output's.
pub fn arithmetic_loses_no_solution()
    ensures adder { KeepsSolutionsOfTwo Adder (λ x y z. z ≡ x +ℤ y) }
    ensures subtractor { KeepsSolutionsOfTwo Subtractor (λ t x z. z ≡ t -ℤ x) }
    ensures multiplier { KeepsSolutionsOfTwo Multiplier (λ x y z. z ≡ x *ℤ y) }
    ensures squarer { KeepsSolutionsOfOne Squarer (λ x z. z ≡ x *ℤ x) }
    ensures divider { KeepsSolutionsOfTwo Divider (λ t x z. z *ℤ x ≡ t) }
{}

/// Examples: the definitions on small ranges of numbers.
pub fn examples_of_numbers()
    ensures sum { sum_of (range 1 2) (range 10 20) ≡ range 11 22 }
    ensures difference { difference_of (range 10 20) (range 1 2) ≡ range 8 19 }
    ensures product { product_of (from_minus_to 3 4) (range 2 2) ≡ from_minus_to 6 8 }
    ensures cut { product_of (range 333333 333334) (range 3 3) ≡ range 999999 1000000 }
    ensures square { square_of (from_minus_to 1 2) ≡ range 0 4 }
    ensures quotient { quotient_of (range 5 13) (range 2 2) ≡ range 3 6 }
    ensures no_quotient { quotient_of (range 7 7) (range 2 2) ≡ no_number }
    ensures by_zero { quotient_of (range 1 5) (from_minus_to 1 1) ≡ any_number }
    ensures none_by_zero { quotient_of no_number (from_minus_to 1 1) ≡ no_number }
    ensures point { point_of (exactly (pos 5)) ≡ range 5 5 }
    ensures fixed { fixed_of (range 5 5) ≡ exactly (pos 5) }
{}

/// Examples: the same for truths.
pub fn examples_of_truths()
    ensures at_most { at_most_of (range 1 5) (range 5 9) ≡ just true }
    ensures at_most_open { at_most_of (range 1 6) (range 5 9) ≡ nothing bool }
    ensures equal { equality_of (range 2 2) (range 2 2) ≡ just true }
    ensures parted { equality_of (range 1 2) (range 3 4) ≡ just false }
    ensures equal_open { equality_of (range 1 2) (range 2 3) ≡ nothing bool }
    ensures inverter { (b : Bool) → negation_of (just b) ≡ just (not b) }
    ensures conjoiner { conjunction_of (just false) (nothing bool) ≡ just false }
    ensures conjoiner_open { conjunction_of (just true) (nothing bool) ≡ nothing bool }
    ensures conjoiner_none { conjunction_of (just false) (contradiction bool) ≡ contradiction bool }
    ensures disjoiner { disjunction_of (nothing bool) (just true) ≡ just true }
    ensures disjoiner_open { disjunction_of (nothing bool) (just false) ≡ nothing bool }
{}

/// Examples: the same for switches and rules.
pub fn examples_of_switches_and_rules()
    ensures switch_true { (p x : Info) → SwitchPasses p x }
    ensures switch_false { (p x : Info) → SwitchWaits p x }
    ensures rule_applies { (rule : Rule) (guard x : Info) → RuleApplies rule guard x }
    ensures rule_waits { (rule : Rule) (guard x : Info) (v : ℤ) → RuleWaits rule guard x v }
{}
