//! Sets of premises below 64, each one word with a bit for each premise.

ghost use Rattle.std.specs.Prelude.{◌≡◌, ◌≤◌, ℕ, true, IfSome, IfNone};
ghost use Rattle.std.specs.FinSet as set;

use crate::premise_set::PremiseSet;
use std::hash::{Hash, Hasher};
use std::marker::Model;

/// A set of premises below 64, in one word. Contracts see it as a set of premises, as they see
/// `PremiseSet`.
#[derive(Clone, Copy, Debug)]
pub struct NarrowSet {
    word: u64,
}

impl Model for NarrowSet {
    ghost use Rattle.std.specs.Prelude.{◌<◌, ◌^◌};
    ghost use Rattle.std.specs.FinSet as set;
    ghost use Rattle.std.specs.Coded.{coded_ℕ};
    ghost use Rattle.pw_premises.specs.Premises.{Premises};
    ghost use Rattle.pw_premises.specs.inside.Words.{set_of_word, narrow_word_of};
    ghost use Rattle.pw_premises.specs.PremiseSets.{narrow_word_again};
    ghost use Rattle.std.proofs.Common.{ap};

    ghost Value = { Premises };

    ghost coded = { set.code coded_ℕ };

    ghost view = { λ a. set_of_word a.word };

    ghost invariant = { λ a. a.word < 2 ^ 64 };

    ghost inverse = { λ s. record { word = narrow_word_of s } };

    ghost inverse_ok = { λ a h. ap (λ w. record { word = w }) (narrow_word_again a.word h) };
}

impl NarrowSet {
    /// The set of no premise.
    #[inline]
    #[tactic(auto, using(crate::proofs::NarrowWords::none_in_word))]
    pub fn empty() -> NarrowSet
        ensures nothing { result ≡ set.empty }
    {
        NarrowSet { word: 0 }
    }

    /// The same premises, if all are below 64.
    #[inline]
    #[tactic(auto, using(crate::proofs::NarrowWords::narrow_of_words, crate::proofs::NarrowWords::past_first_word))]
    pub fn of(premises: &PremiseSet) -> Option<NarrowSet>
        ensures some { IfSome result (λ narrow. narrow ≡ premises.now) }
        ensures none { IfNone result ((p : ℕ) × (64 ≤ p) × (set.contains premises.now p ≡ true)) }
    {
        let rest = premises.words[1]
            | premises.words[2]
            | premises.words[3]
            | premises.words[4]
            | premises.words[5]
            | premises.words[6]
            | premises.words[7];
        if rest == 0 {
            Some(NarrowSet {
                word: premises.words[0],
            })
        } else {
            None
        }
    }

    /// The premises that are in this set or in the other.
    #[inline]
    #[tactic(auto, using(crate::proofs::NarrowWords::join_fits_word, crate::proofs::NarrowWords::join_in_word))]
    pub fn join(self, other: NarrowSet) -> NarrowSet
        ensures union { result ≡ set.union self other }
    {
        NarrowSet {
            word: self.word | other.word,
        }
    }

    /// Whether each premise of this set is in the other.
    #[inline]
    #[tactic(auto, using(crate::proofs::NarrowWords::subset_of_word))]
    pub fn is_subset(&self, other: &NarrowSet) -> bool
        ensures subset { result ≡ set.is_subset self.now other.now }
    {
        self.word & !other.word == 0
    }

    /// Whether each premise of this set is in the other, a set of any premises.
    #[inline]
    #[tactic(auto, using(crate::proofs::NarrowWords::subset_of_words))]
    pub fn is_within(&self, premises: &PremiseSet) -> bool
        ensures subset { result ≡ set.is_subset self.now premises.now }
    {
        self.word & !premises.words[0] == 0
    }

    /// The same premises, in a set of any premises.
    #[inline]
    #[tactic(auto, using(crate::proofs::NarrowWords::widened_in_words, crate::proofs::NarrowWords::widened_fits))]
    pub fn widen(self) -> PremiseSet
        ensures same { result ≡ self }
    {
        PremiseSet {
            words: [self.word, 0, 0, 0, 0, 0, 0, 0],
        }
    }
}

impl PartialEq for NarrowSet {
    ghost use Rattle.std.specs.Cmp.{partial_equiv_from_equiv};
    ghost use Rattle.pw_premises.specs.PremiseSubsets.{has_same_numbers, same_numbers_equiv};

    ghost eq = { has_same_numbers };

    ghost laws = { partial_equiv_from_equiv same_numbers_equiv };

    #[inline]
    #[tactic(auto, using(crate::proofs::NarrowWords::same_word))]
    fn eq(&self, other: &NarrowSet) -> bool {
        self.word == other.word
    }
}

impl Eq for NarrowSet {
    ghost use Rattle.pw_premises.specs.PremiseSubsets.{same_numbers_equiv};

    ghost laws = { same_numbers_equiv };
}

impl Hash for NarrowSet {
    ghost use Rattle.std.specs.Hash as fed;
    ghost use Rattle.std.proofs.Common.{ap};
    ghost use Rattle.pw_premises.specs.inside.Words.{narrow_word_of};
    ghost use Rattle.pw_premises.specs.PremiseSubsets.{same_numbers_equal};

    ghost hash_input = { λ s. fed.u64 (narrow_word_of s) };

    ghost respects_eq = { λ s t e. ap (λ u. fed.u64 (narrow_word_of u)) ((same_numbers_equal s t).0 e) };

    #[inline]
    #[tactic(auto, using(crate::proofs::NarrowWords::narrow_word_of_set))]
    fn hash<H: Hasher>(&self, state: &mut H) {
        state.write_u64(self.word);
    }
}
