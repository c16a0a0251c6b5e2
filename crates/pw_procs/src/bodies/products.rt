//! Products and squares of intervals, by their corners.
ghost use Rattle.std.specs.Prelude.{◌≡◌, ℤ, ◌&&◌, ◌*ℤ◌};
ghost use Rattle.std.specs.Int.{int_min, int_max};
ghost use Rattle.std.specs.Int.Signed.{le_z};
ghost use Rattle.pw_kinds.specs.Ranges.{IsInIntervalRange, is_in_interval_range};
ghost use Rattle.pw_kinds.specs.Interval.{allows};
ghost use Rattle.pw_info.specs.declared.info.Info.TheVariants as info;
ghost use Rattle.pw_procs.specs.Meaning.{product_of, square_of};

use crate::bodies::sums::{ends, from_to};
use pw_kinds::Interval;

/// The product of two numbers in range.
fn times(a: i64, b: i64) -> i64
    requires first { IsInIntervalRange a }
    requires second { IsInIntervalRange b }
    ensures { result ≡ a *ℤ b }
{
    a * b
}

/// The numbers in range from the least to the greatest of four.
fn spanning(a: i64, b: i64, c: i64, d: i64) -> Interval
    ensures { (v : ℤ) → allows result v
        ≡ (is_in_interval_range v && le_z (int_min (int_min a b) (int_min c d)) v
        && le_z v (int_max (int_max a b) (int_max c d))) }
{
    from_to(a.min(b).min(c.min(d)), a.max(b).max(c.max(d)))
}

/// The hull of all products of a number of one interval and a number of the other.
pub(crate) fn product(x: Interval, y: Interval) -> Interval
    ensures { info.Interval result ≡ product_of (info.Interval x) (info.Interval y) }
{
    if x.is_empty() {
        return Interval::empty();
    }
    if y.is_empty() {
        return Interval::empty();
    }
    let (low, high) = ends(x);
    let (left, right) = ends(y);
    spanning(
        times(low, left),
        times(low, right),
        times(high, left),
        times(high, right),
    )
}

/// The hull of all squares.
pub(crate) fn square(x: Interval) -> Interval
    ensures { info.Interval result ≡ square_of (info.Interval x) }
{
    if x.is_empty() {
        return Interval::empty();
    }
    let (low, high) = ends(x);
    let (left, right) = (times(low, low), times(high, high));
    if low > 0 {
        return from_to(left, right);
    }
    if high < 0 {
        return from_to(right, left);
    }
    from_to(0, left.max(right))
}
