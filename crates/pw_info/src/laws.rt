//! Laws of informations, of their ranks and texts, and of lines and words. Each is the contract of
//! a function that does nothing.

ghost use Rattle.std.specs.Prelude.{◌≡◌, ◌↔◌, ◌≤◌, ℕ, ℤ, pos, neg_ℤ, Bool, List, true, codes};
ghost use Rattle.std.specs.Fmt.{signed_decimal};
ghost use Rattle.pw_kinds.specs.Ranges.{interval_numbers};
ghost use Rattle.pw_info.specs.declared.info.Info.{Info};
ghost use Rattle.pw_info.specs.Information.{kind_of, meet, nothing, contradiction, closest};
ghost use Rattle.pw_info.specs.Information.{IsNothing, IsContradiction, Implies, SameValues};
ghost use Rattle.pw_info.specs.Information.{PassesMore};
ghost use Rattle.pw_info.specs.Name.{is_name, IsName};
ghost use Rattle.pw_info.specs.Number.{IsUpTo, SpellsNumber, greatest_number};
ghost use Rattle.pw_info.specs.Number.{SpellsNoRange, SpellsRange};
ghost use Rattle.pw_info.specs.Rank.{rank_of, most_rank};
ghost use Rattle.pw_info.specs.Spelling.{AtMostOne};
ghost use Rattle.pw_info.specs.Laws.{MergeAllowsWhatBothAllow, MergeIsAssociative};
ghost use Rattle.pw_info.specs.Laws.{ImplicationIsAntisymmetric, GainLowersTheRank};
ghost use Rattle.pw_info.specs.Laws.{SameOrLowerRank, OneSpelling, WrittenRangeIsSpelled};
ghost use Rattle.pw_info.specs.Laws.{OneInformation, TextIsASpelling, LinesAreOneList};
ghost use Rattle.pw_info.specs.Laws.{WordsAreOneList};

use crate::info::Info;
use crate::kind::Kind;

/// Informations of one kind that leave the same values possible are equal.
pub fn same_values_are_equal()
    ensures { (a b : Info) → kind_of a ≡ kind_of b → SameValues a b → a ≡ b }
{}

/// The values that the definitions of nothing, contradiction and merge leave possible.
pub fn merge_is_intersection()
    ensures nothing { (k : Kind) → IsNothing (nothing k) }
    ensures contradiction { (k : Kind) → IsContradiction (contradiction k) }
    ensures meet { MergeAllowsWhatBothAllow }
{}

/// Merge is commutative, associative and idempotent. Nothing is its unit, and the contradiction its
/// zero.
pub fn merge_is_a_semilattice()
    ensures commutative { (a b : Info) → kind_of a ≡ kind_of b → meet a b ≡ meet b a }
    ensures associative { MergeIsAssociative }
    ensures idempotent { (a : Info) → meet a a ≡ a }
    ensures unit { (a : Info) → meet a (nothing (kind_of a)) ≡ a }
    ensures zero { (a : Info) → meet a (contradiction (kind_of a)) ≡ contradiction (kind_of a) }
{}

/// Implication is a partial order on the informations of a kind. The first of two implies the
/// second exactly if the first is their merge, and each implies nothing.
pub fn implication_is_an_order()
    ensures reflexive { (a : Info) → Implies a a }
    ensures transitive { (a b c : Info) → Implies a b → Implies b c → Implies a c }
    ensures antisymmetric { ImplicationIsAntisymmetric }
    ensures merge { (a b : Info) → kind_of a ≡ kind_of b → (Implies a b ↔ (meet a b ≡ a)) }
    ensures nothing { (a : Info) (k : Kind) → kind_of a ≡ k → Implies a (nothing k) }
{}

/// The closest information of a kind to a test grows with the test.
pub fn closest_grows()
    ensures { (k : Kind) (p q : ℤ → Bool) → PassesMore k p q → Implies (closest k p) (closest k q) }
{}

/// A real gain of information lowers the rank: if the first of two informations of a kind implies
/// the second, it is the second, or has a lower rank.
pub fn gain_lowers_the_rank()
    ensures gain { GainLowersTheRank }
    ensures same_or_gain { SameOrLowerRank }
{}

/// Nothing has the greatest rank of its kind, which is at most that of intervals, 2,000,001. A
/// contradiction has rank 0.
pub fn rank_has_a_bound()
    ensures nothing { (k : Kind) → rank_of (nothing k) ≡ most_rank k }
    ensures contradiction { (k : Kind) → rank_of (contradiction k) ≡ 0 }
    ensures kind { (a : Info) → rank_of a ≤ most_rank (kind_of a) }
    ensures all { (a : Info) → rank_of a ≤ interval_numbers }
{}

/// The test of a name is the definition of a name.
pub fn name_test_is_exact()
    ensures { (word : List ℕ) → (is_name word ≡ true) ↔ IsName word }
{}

/// A word spells at most one number.
pub fn one_number()
    ensures { (word : List ℕ) → AtMostOne (SpellsNumber word) }
{}

/// The decimal digits of a number, after `-` if it is negative, spell it.
pub fn written_is_spelled()
    ensures { (n : ℤ) → IsUpTo greatest_number n → SpellsNumber (signed_decimal n) n }
{}

/// A number has one spelling: its decimal digits, after `-` if it is negative.
pub fn one_spelling()
    ensures { OneSpelling }
{}

/// A word spells at most one range.
pub fn one_range()
    ensures { (word : List ℕ) → AtMostOne (λ (ends : ℤ × ℤ). SpellsRange word ends.0 ends.1) }
{}

/// The text written for a range spells it.
pub fn written_range_is_spelled()
    ensures { WrittenRangeIsSpelled }
{}

/// The words `nothing` and `contradiction` spell no range, so they are free to name other things.
pub fn named_words_spell_no_range()
    ensures nothing { SpellsNoRange (codes "nothing") }
    ensures contradiction { SpellsNoRange (codes "contradiction") }
{}

/// Examples: what some words spell.
pub fn spelling_examples()
    ensures one_number { SpellsRange (codes "5") (pos 5) (pos 5) }
    ensures equal_ends { SpellsRange (codes "5..5") (pos 5) (pos 5) }
    ensures around_zero { SpellsRange (codes "-3..4") (neg_ℤ (pos 3)) (pos 4) }
    ensures falling { SpellsNoRange (codes "9..3") }
    ensures leading_zeros { SpellsNoRange (codes "007") }
    ensures minus_zero { SpellsNoRange (codes "-0") }
    ensures plus_sign { SpellsNoRange (codes "+1") }
    ensures no_upper_end { SpellsNoRange (codes "1..") }
    ensures no_lower_end { SpellsNoRange (codes "..2") }
    ensures three_dots { SpellsNoRange (codes "1...2") }
    ensures three_ends { SpellsNoRange (codes "1..2..3") }
    ensures set { SpellsNoRange (codes "{red}") }
    ensures empty { SpellsNoRange (codes "") }
{}

/// A word spells at most one information of a kind, if the members of each set have names.
pub fn one_information()
    ensures { OneInformation }
{}

/// The text written for an information spells it: reading it gives the same information.
pub fn text_is_a_spelling()
    ensures { TextIsASpelling }
{}

/// The lines of a text are the only list of lines that make up the text, with a line feed after
/// each of them except perhaps the last.
pub fn lines_are_one_list()
    ensures { LinesAreOneList }
{}

/// The words of a line are the only list of words that make up the line, with blanks between them.
pub fn words_are_one_list()
    ensures { WordsAreOneList }
{}
