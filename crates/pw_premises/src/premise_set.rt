//! Sets of premises, each eight words with a bit for each premise.

ghost use Rattle.std.specs.Prelude.{◌≡◌, ◌<◌, ◌≤◌, ◌↔◌, ◌+◌, ℕ, true, IsTrue, IfSome, IfNone};
ghost use Rattle.std.specs.Prelude.{Contains, length, nat_lt};
ghost use Rattle.std.specs.List.{range_with_len};
ghost use Rattle.std.specs.FinSet as set;
ghost use Rattle.pw_premises.specs.Premises.{numbers_of, IsLeast, IsGreatest};
ghost use Rattle.pw_premises.specs.Premises.{most_premises};
ghost use Rattle.pw_premises.specs.inside.Words.{has_bit};

use crate::numbers::Numbers;
use std::hash::{Hash, Hasher};
use std::marker::Model;

/// The number of premises that a set can hold.
const MOST_PREMISES: u16 = 512;

/// A set of premises, each named by its number below 512.
// The operations go over all eight words, with no early end and no loop: straight code is faster
// here than a test that could end it.
#[derive(Clone, Copy, Debug)]
pub struct PremiseSet {
    pub(crate) words: [u64; 8],
}

impl Model for PremiseSet {
    ghost use Rattle.std.specs.FinSet as set;
    ghost use Rattle.std.specs.Coded.{coded_ℕ};
    ghost use Rattle.pw_premises.specs.Premises.{Premises};
    ghost use Rattle.pw_premises.specs.inside.Words.{AreWords, set_of_words, words_of};
    ghost use Rattle.pw_premises.specs.PremiseSets.{words_again};
    ghost use Rattle.std.proofs.Common.{ap};

    ghost Value = { Premises };

    ghost coded = { set.code coded_ℕ };

    ghost view = { λ a. set_of_words a.words };

    ghost invariant = { λ a. AreWords a.words };

    ghost inverse = { λ s. record { words = words_of s } };

    ghost inverse_ok = { λ a h. ap (λ w. record { words = w }) (words_again a.words h) };
}

/// The bits of the numbers below `n`, in the word whose first bit is that of the number `start`.
#[tactic(auto, using(crate::proofs::PremiseWords::no_bit_below, crate::proofs::PremiseWords::all_bits_below, crate::proofs::PremiseWords::some_bits_below))]
fn below_from(start: u16, n: u16) -> u64
    ensures { (k : ℕ) → k < 64 → has_bit result k ≡ nat_lt (start + k) n }
{
    if n <= start {
        0
    } else if n - start >= 64 {
        u64::MAX
    } else {
        (1 << (n - start)) - 1
    }
}

impl PremiseSet {
    /// The set of no premise.
    #[inline(always)]
    #[tactic(auto, using(crate::proofs::PremiseWords::none_in_words, crate::proofs::PremiseWords::no_words))]
    pub fn empty() -> PremiseSet
        ensures nothing { result ≡ set.empty }
    {
        PremiseSet { words: [0; 8] }
    }

    /// The set of the premise `n` alone; `n` is below 512.
    #[inline]
    #[tactic(auto, using(crate::proofs::PremiseWords::one_in_words, crate::proofs::PremiseWords::one_fits))]
    pub fn one(n: u16) -> PremiseSet
        requires in_range { n < most_premises }
        ensures single { result ≡ set.insert set.empty n }
    {
        let mut words = [0; 8];
        words[n as usize / 64] = 1 << (n % 64);
        PremiseSet { words }
    }

    /// The set of the premises below `n`; `n` is at most 512.
    #[tactic(auto, using(crate::proofs::PremiseWords::first_in_words, crate::proofs::PremiseWords::first_fits))]
    pub fn first(n: u16) -> PremiseSet
        requires in_range { n ≤ most_premises }
        ensures below { result ≡ set.from_list (range_with_len 0 n) }
    {
        let words = [
            below_from(0, n),
            below_from(64, n),
            below_from(128, n),
            below_from(192, n),
            below_from(256, n),
            below_from(320, n),
            below_from(384, n),
            below_from(448, n),
        ];
        PremiseSet { words }
    }

    /// Adds the premise `n`; `n` is below 512.
    #[inline(always)]
    #[tactic(auto, using(crate::proofs::PremiseWords::with_in_words, crate::proofs::PremiseWords::with_fits))]
    pub fn insert(&mut self, n: u16)
        requires in_range { n < most_premises }
        ensures inserted { self.new ≡ set.insert self.old n }
    {
        self.words[n as usize / 64] |= 1 << (n % 64);
    }

    /// The premises that are in this set or in the other.
    #[inline(always)]
    #[tactic(auto, using(crate::proofs::PremiseWords::join_fits, crate::proofs::PremiseWords::join_in_words))]
    pub fn join(self, other: PremiseSet) -> PremiseSet
        ensures union { result ≡ set.union self other }
    {
        let words = [
            self.words[0] | other.words[0],
            self.words[1] | other.words[1],
            self.words[2] | other.words[2],
            self.words[3] | other.words[3],
            self.words[4] | other.words[4],
            self.words[5] | other.words[5],
            self.words[6] | other.words[6],
            self.words[7] | other.words[7],
        ];
        PremiseSet { words }
    }

    /// The premises of this set that are not in the other.
    #[inline(always)]
    #[tactic(auto, using(crate::proofs::PremiseWords::difference_fits, crate::proofs::PremiseWords::difference_in_words))]
    pub fn difference(self, other: PremiseSet) -> PremiseSet
        ensures difference { result ≡ set.difference self other }
    {
        let words = [
            self.words[0] & !other.words[0],
            self.words[1] & !other.words[1],
            self.words[2] & !other.words[2],
            self.words[3] & !other.words[3],
            self.words[4] & !other.words[4],
            self.words[5] & !other.words[5],
            self.words[6] & !other.words[6],
            self.words[7] & !other.words[7],
        ];
        PremiseSet { words }
    }

    /// The premises of this set except `n`; `n` may be any number, also one that is not in the set.
    #[tactic(auto, using(crate::proofs::PremiseWords::difference_of_one, crate::proofs::PremiseWords::without_past))]
    pub fn without(self, n: u16) -> PremiseSet
        ensures removed { result ≡ set.remove self n }
    {
        if n < MOST_PREMISES {
            self.difference(PremiseSet::one(n))
        } else {
            self
        }
    }

    /// Whether no premise is in this set.
    #[inline(always)]
    #[tactic(auto, using(crate::proofs::PremiseWords::empty_words))]
    pub fn is_empty(&self) -> bool
        ensures empty { IsTrue result ↔ (self.now ≡ set.empty) }
    {
        self.words[0]
            | self.words[1]
            | self.words[2]
            | self.words[3]
            | self.words[4]
            | self.words[5]
            | self.words[6]
            | self.words[7]
            == 0
    }

    /// The numbers of the premises of this set, each once, in rising order; all are below 512.
    #[tactic(auto, using(crate::proofs::NumberLists::numbers_are_members, crate::proofs::NumberLists::at_most_512_numbers))]
    pub fn numbers(&self) -> Numbers
        ensures list { result ≡ numbers_of self.now }
        ensures few { length result ≤ most_premises }
        ensures members { (q : ℕ) → Contains result q ↔ (set.contains self.now q ≡ true) }
    {
        // The proof needs the words: they show that each number is below 512.
        let _words = &self.words;
        Numbers { left: *self }
    }

    /// Whether the premise `n` is in this set; no premise from 512 on is.
    #[inline]
    #[tactic(auto, using(crate::proofs::PremiseWords::bit_in_words, crate::proofs::PremiseWords::past_words))]
    pub fn contains(&self, n: u16) -> bool
        ensures member { result ≡ set.contains self.now n }
    {
        n < MOST_PREMISES && (self.words[n as usize / 64] >> (n % 64)) & 1 == 1
    }

    /// Whether each premise of this set is in the other.
    #[inline(always)]
    pub fn is_subset(&self, other: &PremiseSet) -> bool
        ensures subset { result ≡ set.is_subset self.now other.now }
    {
        self.difference(*other).is_empty()
    }

    /// The least number of this set. None if the set is empty.
    pub(crate) fn least(&self) -> Option<u16>
        ensures some { IfSome result (λ n. IsLeast self.now n) }
        ensures none { IfNone result (self.now ≡ set.empty) }
    {
        for i in 0..8 {
            let word = self.words[i];
            if word != 0 {
                return Some(i as u16 * 64 + word.trailing_zeros() as u16);
            }
        }
        None
    }

    /// The greatest number of this set. None if the set is empty.
    pub(crate) fn greatest(&self) -> Option<u16>
        ensures some { IfSome result (λ n. IsGreatest self.now n) }
        ensures none { IfNone result (self.now ≡ set.empty) }
    {
        for back in 0..8 {
            let i = 7 - back;
            let word = self.words[i];
            if word != 0 {
                return Some(i as u16 * 64 + word.ilog2() as u16);
            }
        }
        None
    }
}

impl PartialEq for PremiseSet {
    ghost use Rattle.std.specs.Cmp.{partial_equiv_from_equiv};
    ghost use Rattle.pw_premises.specs.PremiseSubsets.{has_same_numbers, same_numbers_equiv};

    ghost eq = { has_same_numbers };

    ghost laws = { partial_equiv_from_equiv same_numbers_equiv };

    #[inline(always)]
    fn eq(&self, other: &PremiseSet) -> bool {
        self.difference(*other)
            .join(other.difference(*self))
            .is_empty()
    }
}

impl Eq for PremiseSet {
    ghost use Rattle.pw_premises.specs.PremiseSubsets.{same_numbers_equiv};

    ghost laws = { same_numbers_equiv };
}

impl Hash for PremiseSet {
    ghost use Rattle.std.specs.Hash as fed;
    ghost use Rattle.std.proofs.Common.{ap};
    ghost use Rattle.pw_premises.specs.inside.Words.{words_of};
    ghost use Rattle.pw_premises.specs.PremiseSubsets.{same_numbers_equal};

    ghost hash_input = { λ s. fed.slice fed.u64 (words_of s) };

    ghost respects_eq = { λ s t e. ap (λ u. fed.slice fed.u64 (words_of u))
        ((same_numbers_equal s t).0 e) };

    #[tactic(auto, using(crate::proofs::PremiseWords::words_of_set))]
    fn hash<H: Hasher>(&self, state: &mut H) {
        self.words.hash(state);
    }
}
