//! Quotients of intervals, by their corners.
ghost use Rattle.std.specs.Prelude.{◌≡◌, ℤ, pos, ◌<ℤ◌, ◌≤ℤ◌, ◌*ℤ◌, ◌&&◌, ◌||◌};
ghost use Rattle.std.specs.Int.Signed.{le_z};
ghost use Rattle.pw_kinds.specs.Ranges.{IsInIntervalRange, is_in_interval_range};
ghost use Rattle.pw_kinds.specs.Interval.{allows, IsEmpty};
ghost use Rattle.pw_info.specs.declared.info.Info.TheVariants as info;
ghost use Rattle.pw_procs.specs.Meaning.{quotient_of};

use crate::bodies::sums::{ends, from_to};
use pw_kinds::Interval;

// The true quotient of t by x, rounded down.
fn floor(t: i64, x: i64) -> i64
    requires range { IsInIntervalRange t }
    requires positive { pos 0 <ℤ x }
    ensures range { IsInIntervalRange result }
    ensures below { (q : ℤ) → le_z q result ≡ le_z (q *ℤ x) t }
{
    t.div_euclid(x)
}

// The true quotient of t by x, rounded up.
fn ceil(t: i64, x: i64) -> i64
    requires range { IsInIntervalRange t }
    requires positive { pos 0 <ℤ x }
    ensures { (q : ℤ) → le_z result q ≡ le_z t (q *ℤ x) }
{
    -floor(-t, x)
}

pub(crate) fn quotient(t: Interval, x: Interval) -> Interval
    ensures { info.Interval result ≡ quotient_of (info.Interval t) (info.Interval x) }
{
    if t.is_empty() {
        return t;
    }
    if x.is_empty() {
        return x;
    }
    possible_quotient(t, x)
}

// The quotient of intervals that both leave some number possible. Negating both changes no
// quotient.
fn possible_quotient(t: Interval, x: Interval) -> Interval
    requires dividend { IsEmpty t → ⊥ }
    requires divisor { IsEmpty x → ⊥ }
    ensures { info.Interval result ≡ quotient_of (info.Interval t) (info.Interval x) }
{
    let (t_lo, t_hi) = ends(t);
    let (x_lo, x_hi) = ends(x);
    if x_lo > 0 {
        return between(t_lo, t_hi, x_lo, x_hi);
    }
    if x_hi < 0 {
        return between(-t_hi, -t_lo, -x_hi, -x_lo);
    }
    Interval::whole()
}

// The least quotient of a number by a positive one from `x_lo` to `x_hi`, rounded up. The greatest
// divisor makes the quotient of a positive number least.
fn least_quotient(t: i64, x_lo: i64, x_hi: i64) -> i64
    requires range { IsInIntervalRange t }
    requires positive { pos 0 <ℤ x_lo }
    requires order { x_lo ≤ℤ x_hi }
    ensures { (q : ℤ) → le_z result q ≡ (le_z t (q *ℤ x_lo) || le_z t (q *ℤ x_hi)) }
{
    if t > 0 { ceil(t, x_hi) } else { ceil(t, x_lo) }
}

// The greatest quotient of a number by a positive one from `x_lo` to `x_hi`, rounded down.
fn greatest_quotient(t: i64, x_lo: i64, x_hi: i64) -> i64
    requires range { IsInIntervalRange t }
    requires positive { pos 0 <ℤ x_lo }
    requires order { x_lo ≤ℤ x_hi }
    ensures { (q : ℤ) → le_z q result ≡ (le_z (q *ℤ x_lo) t || le_z (q *ℤ x_hi) t) }
{
    if t > 0 {
        floor(t, x_lo)
    } else {
        floor(t, x_hi)
    }
}

// From the least quotient of a number from `t_lo` to `t_hi` by one from `x_lo` to `x_hi`, rounded
// up, to the greatest, rounded down. Both are reached at an end of the divisor.
fn between(t_lo: i64, t_hi: i64, x_lo: i64, x_hi: i64) -> Interval
    requires t_lo { IsInIntervalRange t_lo }
    requires t_hi { IsInIntervalRange t_hi }
    requires positive { pos 0 <ℤ x_lo }
    requires order { x_lo ≤ℤ x_hi }
    ensures { (q : ℤ) → allows result q ≡ (is_in_interval_range q
        && (le_z t_lo (q *ℤ x_lo) || le_z t_lo (q *ℤ x_hi))
        && (le_z (q *ℤ x_lo) t_hi || le_z (q *ℤ x_hi) t_hi)) }
{
    from_to(
        least_quotient(t_lo, x_lo, x_hi),
        greatest_quotient(t_hi, x_lo, x_hi),
    )
}
