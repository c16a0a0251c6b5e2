//! Members of a set: which of them are still possible.
ghost use Rattle.std.specs.Prelude.{◌≡◌, ◌+◌, ◌^◌};
ghost use Rattle.pw_kinds.specs.Masks.{AreWords, bits_of_words};
ghost use Rattle.pw_kinds.specs.Places.{IsMask, IsSize};

use std::fmt;

/// The greatest number of members of a set, which is the number of bits in a mask.
const MOST_MEMBERS: u8 = 128;

/// What is known about one of the members of a set: which of them are still possible. A set has 2
/// to 128 members, and each is identified by its place, from 0 on. Two values that leave the same
/// places of sets of one size possible are equal.
#[derive(Clone, Copy, PartialEq, Eq)]
pub struct Members {
    size: u8,
    // The mask of the places that are possible, the lowest word first. (In words, since a `u128` may
    // lie only at multiples of 16 bytes.)
    first: u32,
    second: u32,
    third: u32,
    fourth: u32,
    ghost words: { AreWords first second third fourth },
    ghost places: { IsMask size (bits_of_words first second third fourth) },
}

/// A word has this many values.
const WORD: u128 = 1 << 32;

/// The mask of a set of `size` members in which every bit of a place is set.
fn full_mask(size: u8) -> u128
    requires { IsSize size }
    ensures { result + 1 ≡ 2 ^ size }
{
    u128::MAX >> (MOST_MEMBERS - size)
}

impl Members {
    ghost use Rattle.std.specs.Prelude.{ℕ, ℤ, pos, ◌<◌, ◌≤◌, ◌↔◌, ◌&&◌, ◌||◌, Bool, true, false};
    ghost use Rattle.std.specs.Prelude.{Some, IsTrue, IsSome, IfSome, IsBitSet};
    ghost use Rattle.std.specs.Ordering.{int_eq};
    ghost use Rattle.pw_kinds.specs.Places.{is_place, PassesBitsOf};
    ghost use Rattle.pw_kinds.specs.Members.{size_of, allows, IsEmpty, IsFull, IsWithin, full};
    ghost use Rattle.pw_kinds.specs.Members.{empty, meet_of, mask_in};

    // The members of a set of `size` members whose bits are set in a mask.
    fn of_mask(size: u8, mask: u128) -> Members
        requires { IsMask size mask }
        ensures size { size_of result ≡ size }
        ensures mask { mask_in result ≡ mask }
    {
        Members {
            size,
            first: (mask % WORD) as u32,
            second: (mask / WORD % WORD) as u32,
            third: (mask / WORD / WORD % WORD) as u32,
            fourth: (mask / WORD / WORD / WORD) as u32,
        }
    }

    // The mask of the possible members.
    fn bits(self) -> u128
        ensures { result ≡ mask_in self }
    {
        let upper = u128::from(self.third) + u128::from(self.fourth) * WORD;
        u128::from(self.first) + (u128::from(self.second) + upper * WORD) * WORD
    }

    /// Every member of a set of `size` members, which is 2 to 128.
    pub fn full(size: u8) -> Members
        requires { IsSize size }
        ensures size { size_of result ≡ size }
        ensures values { (v : ℤ) → allows result v ≡ is_place size v }
        ensures exact { result ≡ full size }
    {
        Members::of_mask(size, full_mask(size))
    }

    /// No member of a set of `size` members, which is 2 to 128.
    pub fn empty(size: u8) -> Members
        requires { IsSize size }
        ensures size { size_of result ≡ size }
        ensures values { IsEmpty result }
        ensures exact { result ≡ empty size }
    {
        Members::of_mask(size, 0)
    }

    /// The members whose bit of `mask` is set, bit k for place k, of a set of `size` members. None
    /// if no set has that size (2 to 128), or if a bit at or past the size is set.
    pub fn of(size: u8, mask: u128) -> Option<Members>
        ensures some { IsSome result ↔ (IsSize size × ((k : ℕ) → IsBitSet mask k → k < size)) }
        ensures size { IfSome result (λ m. size_of m ≡ size) }
        ensures values { IfSome result (λ m. PassesBitsOf mask (allows m)) }
    {
        if size < 2 || size > MOST_MEMBERS {
            return None;
        }
        if mask > full_mask(size) {
            return None;
        }
        Some(Members::of_mask(size, mask))
    }

    /// The number of members of the set.
    pub fn size(self) -> u8
        ensures { result ≡ size_of self }
    {
        self.size
    }

    /// A number whose bit k is set exactly if place k is possible.
    pub fn mask(self) -> u128
        ensures { (k : ℕ) → IsBitSet result k ↔ (allows self (pos k) ≡ true) }
    {
        self.bits()
    }

    /// Whether the member at this place is possible; no member is at a place at or past the size.
    pub fn contains(self, place: u8) -> bool
        ensures { result ≡ allows self (pos place) }
    {
        place < self.size && (self.bits() >> place) & 1 == 1
    }

    /// The same members, and the member at this place too. The place is below the size.
    pub fn with(self, place: u8) -> Members
        requires { place < size_of self }
        ensures size { size_of result ≡ size_of self }
        ensures values { (v : ℤ) → allows result v ≡ (allows self v || int_eq (pos place) v) }
    {
        Members::of_mask(self.size, self.bits() | (1 << place))
    }

    /// Whether no member is possible.
    pub fn is_empty(self) -> bool
        ensures { IsTrue result ↔ IsEmpty self }
    {
        self.bits() == 0
    }

    /// Whether every member is possible.
    pub fn is_full(self) -> bool
        ensures { IsTrue result ↔ IsFull self }
    {
        self.bits() == full_mask(self.size)
    }

    /// The merge of two of one size: the members that both leave possible.
    pub fn meet(self, other: Members) -> Members
        requires { size_of self ≡ size_of other }
        ensures size { size_of result ≡ size_of self }
        ensures values { (v : ℤ) → allows result v ≡ (allows self v && allows other v) }
        ensures exact { result ≡ meet_of self other }
    {
        Members::of_mask(self.size, self.bits() & other.bits())
    }

    /// Whether each member that is possible here is possible in the other, which has the same size.
    pub fn within(self, other: Members) -> bool
        requires { size_of self ≡ size_of other }
        ensures { IsTrue result ↔ IsWithin self other }
    {
        self.bits() & other.bits() == self.bits()
    }
}

// The words of the mask are a matter of layout: print the mask that they hold.
impl fmt::Debug for Members {
    fn fmt<W: fmt::Write>(&self, f: &mut fmt::Formatter<W>) -> fmt::Result {
        f.debug_struct("Members")
            .field("size", &self.size)
            .field("mask", &self.bits())
            .finish()
    }
}
