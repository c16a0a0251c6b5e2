//! Exact values: a whole number that is known exactly or not at all.
ghost use Rattle.std.specs.Prelude.{◌≤ℤ◌};
ghost use Rattle.pw_kinds.specs.Ranges.{exact_lowest, exact_highest};

/// A whole number from -1,000,000,000 to 1,000,000,000.
#[derive(Clone, Copy, Debug, PartialEq, Eq)]
pub struct Number {
    value: i64,
    ghost at_least: { exact_lowest ≤ℤ value },
    ghost at_most: { value ≤ℤ exact_highest },
}

/// What is known about a whole number between -1,000,000,000 and 1,000,000,000 that is known
/// exactly or not at all. Two that leave the same numbers possible are equal.
#[derive(Clone, Copy, Debug, PartialEq, Eq)]
pub enum Exact {
    /// Every number in range is possible.
    Any,
    /// Only this number is possible.
    One(Number),
    /// No number is possible.
    Empty,
}

impl Exact {
    ghost use Rattle.std.specs.Prelude.{◌≡◌, ℤ, ◌↔◌, ◌&&◌, Bool, true, false, Some, IsTrue, IsSome};
    ghost use Rattle.std.specs.Prelude.{IfSome};
    ghost use Rattle.pw_kinds.specs.Ranges.{IsInExactRange, is_in_exact_range};
    ghost use Rattle.pw_kinds.specs.Exact.{allows, IsEmpty, IsAny, IsOne, IsWithin, any, empty};
    ghost use Rattle.pw_kinds.specs.Exact.{meet_of};

    /// Every number in range.
    pub fn any() -> Exact
        ensures values { (v : ℤ) → allows result v ≡ is_in_exact_range v }
        ensures exact { result ≡ any }
    {
        Exact::Any
    }

    /// Only this number. None outside -1,000,000,000 to 1,000,000,000.
    pub fn one(n: i64) -> Option<Exact>
        ensures some { IsSome result ↔ IsInExactRange n }
        ensures values { IfSome result (λ e. IsOne e n) }
    {
        if n < -1_000_000_000 || n > 1_000_000_000 {
            return None;
        }
        Some(Exact::One(Number { value: n }))
    }

    /// No number.
    pub fn none() -> Exact
        ensures values { IsEmpty result }
        ensures exact { result ≡ empty }
    {
        Exact::Empty
    }

    /// Whether every number in range is possible.
    pub fn is_any(self) -> bool
        ensures { IsTrue result ↔ IsAny self }
    {
        matches!(self, Exact::Any)
    }

    /// Whether no number is possible.
    pub fn is_empty(self) -> bool
        ensures { IsTrue result ↔ IsEmpty self }
    {
        matches!(self, Exact::Empty)
    }

    /// The number, if exactly one is possible.
    pub fn number(self) -> Option<i64>
        ensures { (n : ℤ) → (result ≡ Some n) ↔ IsOne self n }
    {
        match self {
            Exact::One(number) => Some(number.value),
            _ => None,
        }
    }

    /// The merge of two: the numbers that both leave possible.
    pub fn meet(self, other: Exact) -> Exact
        ensures values { (v : ℤ) → allows result v ≡ (allows self v && allows other v) }
        ensures exact { result ≡ meet_of self other }
    {
        match (self, other) {
            (Exact::Any, known) | (known, Exact::Any) => known,
            (Exact::One(one), Exact::One(another)) if one.value == another.value => self,
            _ => Exact::Empty,
        }
    }

    /// Whether each number that is possible here is possible in the other.
    pub fn within(self, other: Exact) -> bool
        ensures { IsTrue result ↔ IsWithin self other }
    {
        match (self, other) {
            (Exact::Empty, _) | (_, Exact::Any) => true,
            (Exact::One(one), Exact::One(another)) => one.value == another.value,
            _ => false,
        }
    }
}
