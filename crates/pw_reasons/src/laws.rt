//! Laws of reasons and of nogoods. Each is the contract of a function that does nothing. The laws
//! of reasons hold of every value that grows with the beliefs.
ghost use Rattle.std.specs.Prelude.{◌≡◌};
ghost use Rattle.std.specs.Bool.{Decides};
ghost use Rattle.pw_info.specs.declared.info.Info.{Info};
ghost use Rattle.pw_reasons.specs.SameInfo.{same_info, is_contradiction};
ghost use Rattle.pw_info.specs.Information.{IsContradiction};
ghost use Rattle.pw_reasons.specs.Laws.{ReasonsArePremisesOfTheirWorldview};
ghost use Rattle.pw_reasons.specs.Laws.{ReasonsGiveTheSameValue, ReasonsAreIrredundant};
ghost use Rattle.pw_reasons.specs.Laws.{ReasonsKeepWhatIsNeeded, ValuesGrow, LargerNogoods};
ghost use Rattle.pw_reasons.specs.Laws.{WiderNogoods};

/// The test whether two informations are the same is exact, and so is the test for a contradiction.
pub fn tests_of_informations_are_exact()
    ensures same { (a b : Info) → Decides (same_info a b) (a ≡ b) }
    ensures contradiction { (a : Info) → Decides (is_contradiction a) (IsContradiction a) }
{}

/// A reason is a part of the worldview that gives the same value, and without any one of its
/// premises the value differs.
pub fn reasons_are_irredundant()
    ensures part { ReasonsArePremisesOfTheirWorldview }
    ensures same { ReasonsGiveTheSameValue }
    ensures needed { ReasonsAreIrredundant }
{}

/// The premises of the worldview that a reason has: exactly those where the premises before it,
/// with those of the reason after it, give another value than the worldview.
pub fn reasons_keep_what_is_needed()
    ensures { ReasonsKeepWhatIsNeeded }
{}

/// More is known about each cell of a network if more is believed. So the laws of reasons hold of
/// what `reason` answers: without any one of its premises the cell has another value.
pub fn values_grow()
    ensures { ValuesGrow }
{}

/// A nogood stays a nogood: if more is believed; and if more is attached, and no less is told about
/// any cell in the worldview of its premises.
pub fn nogoods_stay_nogoods()
    ensures larger { LargerNogoods }
    ensures wider { WiderNogoods }
{}
