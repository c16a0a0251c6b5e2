//! Laws of the kinds. Each is the contract of a function that does nothing, and holds of every
//! value of the kind.

ghost use Rattle.std.specs.Prelude.{◌≡◌, ℕ, ℤ, pos, negsuc, neg_ℤ, ◌&&◌, Bool, true, false, Some};
ghost use Rattle.std.specs.Prelude.{[], ◌∷◌};
ghost use Rattle.std.specs.Int.Signed.{le_z};
ghost use Rattle.std.specs.Ordering.{int_eq};
ghost use Rattle.pw_kinds.specs.Ranges.{is_in_interval_range, is_in_exact_range};
ghost use Rattle.pw_kinds.specs.declared.interval.Interval.{Interval};
ghost use Rattle.pw_kinds.specs.Interval.{allows, IsEmpty, IsWithin, IsFromTo, AreEnds};
ghost use Rattle.pw_kinds.specs.Interval.{PassesFromTo, SameValues};
ghost use Rattle.pw_kinds.specs.Interval.{IsClosest, closest, from_to, range, from_minus_to, whole};
ghost use Rattle.pw_kinds.specs.Interval.{empty, meet_of, least_of, greatest_of};
ghost use Rattle.pw_kinds.specs.declared.members.Members.{Members};
ghost use Rattle.pw_kinds.specs.Places.{IsSize};
ghost use Rattle.pw_kinds.specs.Members as members;
ghost use Rattle.pw_kinds.specs.Members.{at_places};
ghost use Rattle.pw_kinds.specs.declared.exact.Exact.{Exact};
ghost use Rattle.pw_kinds.specs.Exact as exact;
ghost use Rattle.pw_kinds.specs.Laws.{EndsGiveOneInterval, SameMembersAreEqual, ClosestMembersPass};
ghost use Rattle.pw_kinds.specs.Laws.{OnlyClosestMembersPass, AllMembersAllowEachPlace};
ghost use Rattle.pw_kinds.specs.Laws.{MergeOfMembersAllowsWhatBothAllow, MembersAllowPlaces};
ghost use Rattle.pw_kinds.specs.Laws.{MembersExampleMeet, MembersExampleApart};
ghost use Rattle.pw_kinds.specs.Laws.{MergeOfExactValuesAllowsWhatBothAllow};
ghost use Rattle.pw_kinds.specs.Laws.{ExactExampleClosestToTwo};

/// Intervals that leave the same numbers possible are equal.
pub fn same_values_are_equal()
    ensures { (i j : Interval) → SameValues i j → i ≡ j }
{}

/// The interval from one number to another leaves exactly the numbers between them possible, both
/// included, and no other interval does.
pub fn ends_give_an_interval()
    ensures values { (lo hi : ℤ) → AreEnds lo hi → IsFromTo (from_to lo hi) lo hi }
    ensures only { EndsGiveOneInterval }
{}

/// The closest interval to a test is the smallest one in which each number in range that passes is
/// possible.
pub fn closest_is_smallest()
    ensures { (p : ℤ → Bool) → IsClosest p (closest p) }
{}

/// The numbers that the definitions of the whole interval, of the empty one and of a merge leave
/// possible.
pub fn merge_is_intersection()
    ensures whole { (v : ℤ) → allows whole v ≡ is_in_interval_range v }
    ensures empty { IsEmpty empty }
    ensures meet { (i j : Interval) (v : ℤ) → allows (meet_of i j) v ≡ (allows i v && allows j v) }
{}

/// Examples: the definitions on small intervals.
pub fn interval_examples()
    ensures overlap { meet_of (range 5 9) (range 0 7) ≡ range 5 7 }
    ensures touch { meet_of (from_minus_to 3 2) (range 2 4) ≡ range 2 2 }
    ensures apart { meet_of (range 1 2) (range 3 4) ≡ empty }
    ensures within { IsWithin (range 5 5) (range 0 7) }
    ensures not_within { ¬ IsWithin (range 0 7) (range 5 9) }
    ensures least { least_of (from_minus_to 3 4) ≡ Some (neg_ℤ (pos 3)) }
    ensures greatest { greatest_of (from_minus_to 3 4) ≡ Some (pos 4) }
    ensures one { least_of (range 5 5) ≡ greatest_of (range 5 5) }
    ensures whole { whole ≡ from_minus_to 1000000 1000000 }
    ensures empty_within { (i : Interval) → IsWithin empty i }
    ensures whole_not_within { ¬ IsWithin whole empty }
    ensures closest { (p : ℤ → Bool) → PassesFromTo p (pos 2) (pos 5) → closest p ≡ range 2 5 }
    ensures none_in_range { closest (λ v. le_z (pos 1000001) v) ≡ empty }
{}

/// Members of sets of one size that leave the same places possible are equal.
pub fn same_members_are_equal()
    ensures { SameMembersAreEqual }
{}

/// The closest members to a test are those whose place passes, and any members like that are the
/// closest.
pub fn closest_members_are_those_that_pass()
    ensures closest { ClosestMembersPass }
    ensures only { OnlyClosestMembersPass }
{}

/// The places that the definitions of every member, of no member and of a merge leave possible.
pub fn merge_of_members_is_intersection()
    ensures full { AllMembersAllowEachPlace }
    ensures empty { (size : ℕ) → IsSize size → members.IsEmpty (members.empty size) }
    ensures size { (m n : Members) → members.size_of (members.meet_of m n) ≡ members.size_of m }
    ensures meet { MergeOfMembersAllowsWhatBothAllow }
    ensures places { MembersAllowPlaces }
{}

/// Examples: the definitions of members on a set of three.
pub fn members_examples()
    ensures full { members.full 3 ≡ at_places 3 (0 ∷ 1 ∷ 2 ∷ []) }
    ensures past { members.allows (members.full 3) (pos 3) ≡ false }
    ensures below { members.allows (members.full 3) (negsuc 0) ≡ false }
    ensures closest { members.closest 3 (λ v. le_z v (pos 1)) ≡ at_places 3 (0 ∷ 1 ∷ []) }
    ensures in_any_order { at_places 3 (2 ∷ 0 ∷ []) ≡ at_places 3 (0 ∷ 2 ∷ []) }
    ensures meet { MembersExampleMeet }
    ensures apart { MembersExampleApart }
    ensures sizes { ¬ (members.full 2 ≡ members.full 3) }
{}

/// Exact values that leave the same numbers possible are equal.
pub fn same_exact_values_are_equal()
    ensures { (e f : Exact) → exact.SameValues e f → e ≡ f }
{}

/// The closest exact value to a test is the most informed one in which each number in range that
/// passes is possible. A value that leaves exactly these numbers possible is the closest.
pub fn closest_exact_is_most_informed()
    ensures closest { (p : ℤ → Bool) → exact.IsClosest p (exact.closest p) }
    ensures just { (p : ℤ → Bool) (e : Exact) → exact.AllowsJust p e → e ≡ exact.closest p }
{}

/// The numbers that the definitions of one number, of any, of none and of a merge leave possible.
pub fn merge_of_exact_values_is_intersection()
    ensures one { (n : ℤ) → is_in_exact_range n ≡ true → exact.IsOne (exact.one n) n }
    ensures any { (v : ℤ) → exact.allows exact.any v ≡ is_in_exact_range v }
    ensures empty { exact.IsEmpty exact.empty }
    ensures meet { MergeOfExactValuesAllowsWhatBothAllow }
    ensures range { (e : Exact) (v : ℤ) → exact.allows e v ≡ true → is_in_exact_range v ≡ true }
{}

/// Examples: the definitions of exact values on small numbers.
pub fn exact_examples()
    ensures same { exact.meet_of (exact.one (pos 7)) (exact.one (pos 7)) ≡ exact.one (pos 7) }
    ensures other { exact.meet_of (exact.one (pos 7)) (exact.one (pos 8)) ≡ exact.empty }
    ensures closest_one { exact.closest (λ v. int_eq v (pos 7)) ≡ exact.one (pos 7) }
    ensures closest_two { ExactExampleClosestToTwo }
    ensures none_in_range { exact.closest (λ v. le_z (pos 1000000001) v) ≡ exact.empty }
    ensures apart { ¬ (exact.any ≡ exact.empty) }
{}
