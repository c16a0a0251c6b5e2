//! Intervals: a whole number that is known by its least and greatest possible values.
ghost use Rattle.pw_kinds.specs.Ranges.{IsSpan};

/// What is known about a whole number between -1,000,000 and 1,000,000: which numbers are still
/// possible, from a least to a greatest one, or none at all. Two intervals that leave the same
/// numbers possible are equal.
#[derive(Clone, Copy, Debug, PartialEq, Eq)]
pub struct Interval {
    lo: i64,
    hi: i64,
    ghost span: { IsSpan lo hi },
}

impl Interval {
    ghost use Rattle.std.specs.Prelude.{◌≡◌, ℤ, ◌≤ℤ◌, ◌↔◌, ◌&&◌, Bool, true, false, Some, IsTrue};
    ghost use Rattle.std.specs.Prelude.{IsSome, IfSome};
    ghost use Rattle.pw_kinds.specs.Ranges.{is_in_interval_range};
    ghost use Rattle.pw_kinds.specs.Interval.{allows, IsEmpty, IsWithin, IsFromTo, AreEnds};
    ghost use Rattle.pw_kinds.specs.Interval.{IsLeastOf, IsGreatestOf};
    ghost use Rattle.pw_kinds.specs.Interval.{empty, whole, meet_of, least_of, greatest_of};

    /// The numbers from `lo` to `hi`. None if `lo` is above `hi` or an end is outside -1,000,000 to
    /// 1,000,000.
    pub fn new(lo: i64, hi: i64) -> Option<Interval>
        ensures some { IsSome result ↔ AreEnds lo hi }
        ensures values { IfSome result (λ i. IsFromTo i lo hi) }
    {
        if lo > hi || lo < -1_000_000 || hi > 1_000_000 {
            return None;
        }
        Some(Interval { lo, hi })
    }

    /// Every number in range.
    pub fn whole() -> Interval
        ensures values { (v : ℤ) → allows result v ≡ is_in_interval_range v }
        ensures exact { result ≡ whole }
    {
        Interval {
            lo: -1_000_000,
            hi: 1_000_000,
        }
    }

    /// No number.
    pub fn empty() -> Interval
        ensures values { IsEmpty result }
        ensures exact { result ≡ empty }
    {
        // Its ends lie within those of any other interval.
        Interval {
            lo: 1_000_000,
            hi: -1_000_000,
        }
    }

    /// Whether no number is possible.
    pub fn is_empty(self) -> bool
        ensures { IsTrue result ↔ IsEmpty self }
    {
        self.lo > self.hi
    }

    /// The least number that is possible.
    pub fn lo(self) -> i64
        requires { IsEmpty self → ⊥ }
        ensures least { IsLeastOf self result }
        ensures exact { least_of self ≡ Some result }
    {
        self.lo
    }

    /// The greatest number that is possible.
    pub fn hi(self) -> i64
        requires { IsEmpty self → ⊥ }
        ensures greatest { IsGreatestOf self result }
        ensures exact { greatest_of self ≡ Some result }
    {
        self.hi
    }

    /// The merge of two: the numbers that both leave possible.
    pub fn meet(self, other: Interval) -> Interval
        ensures values { (v : ℤ) → allows result v ≡ (allows self v && allows other v) }
        ensures exact { result ≡ meet_of self other }
    {
        let lo = self.lo.max(other.lo);
        let hi = self.hi.min(other.hi);
        if hi < lo {
            return Interval::empty();
        }
        Interval { lo, hi }
    }

    /// Whether each number that is possible here is possible in the other.
    pub fn within(self, other: Interval) -> bool
        ensures { IsTrue result ↔ IsWithin self other }
    {
        // Neither difference is negative.
        ((self.lo - other.lo) | (other.hi - self.hi)) >= 0
    }
}
