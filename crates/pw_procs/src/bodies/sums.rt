//! Sums and differences of intervals, by their ends.
ghost use Rattle.std.specs.Prelude.{◌≡◌, ℤ, ◌≤ℤ◌, ◌&&◌};
ghost use Rattle.std.specs.Int.Signed.{le_z};
ghost use Rattle.pw_kinds.specs.Ranges.{is_in_interval_range, IsInIntervalRange};
ghost use Rattle.pw_kinds.specs.Interval.{allows, IsEmpty, IsLeastOf, IsGreatestOf};
ghost use Rattle.pw_info.specs.declared.info.Info.TheVariants as info;
ghost use Rattle.pw_procs.specs.Meaning.{sum_of, difference_of};

use pw_kinds::Interval;

/// The whole numbers from `lo` to `hi` that are in range.
pub(crate) fn from_to(lo: i64, hi: i64) -> Interval
    ensures { (v : ℤ) → allows result v ≡ (is_in_interval_range v && le_z lo v && le_z v hi) }
{
    match Interval::new(lo.max(-1_000_000), hi.min(1_000_000)) {
        Some(interval) => interval,
        None => Interval::empty(),
    }
}

/// The least and the greatest possible number.
pub(crate) fn ends(x: Interval) -> (i64, i64)
    requires { IsEmpty x → ⊥ }
    ensures least { IsLeastOf x result.0 }
    ensures greatest { IsGreatestOf x result.1 }
    ensures low { IsInIntervalRange result.0 }
    ensures high { IsInIntervalRange result.1 }
    ensures order { result.0 ≤ℤ result.1 }
{
    (x.lo(), x.hi())
}

/// The hull of all sums of a number of one interval and a number of the other.
pub(crate) fn sum(x: Interval, y: Interval) -> Interval
    ensures { info.Interval result ≡ sum_of (info.Interval x) (info.Interval y) }
{
    if x.is_empty() {
        return Interval::empty();
    }
    if y.is_empty() {
        return Interval::empty();
    }
    let (low, high) = ends(x);
    let (left, right) = ends(y);
    from_to(low + left, high + right)
}

/// The hull of all differences, a number of `t` minus a number of `x`.
pub(crate) fn difference(t: Interval, x: Interval) -> Interval
    ensures { info.Interval result ≡ difference_of (info.Interval t) (info.Interval x) }
{
    if t.is_empty() {
        return Interval::empty();
    }
    if x.is_empty() {
        return Interval::empty();
    }
    let (low, high) = ends(t);
    let (left, right) = ends(x);
    from_to(low - right, high - left)
}
