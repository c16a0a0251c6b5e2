//! Between intervals and exact numbers.
ghost use Rattle.std.specs.Prelude.{◌≡◌};
ghost use Rattle.pw_info.specs.declared.info.Info.TheVariants as info;
ghost use Rattle.pw_procs.specs.Meaning.{point_of, fixed_of};

use pw_kinds::{Exact, Interval};

/// The interval of only an exact number.
pub(crate) fn point_interval(k: Exact) -> Interval
    ensures { info.Interval result ≡ point_of (info.Exact k) }
{
    if k.is_any() {
        return Interval::whole();
    }
    match k.number() {
        Some(n) => Interval::new(n, n).unwrap_or(Interval::empty()),
        None => Interval::empty(),
    }
}

/// The number of an interval that has exactly one.
pub(crate) fn fixed_number(x: Interval) -> Exact
    ensures { info.Exact result ≡ fixed_of (info.Interval x) }
{
    if x.is_empty() {
        return Exact::none();
    }
    let lo = x.lo();
    if lo != x.hi() {
        return Exact::any();
    }
    Exact::one(lo).unwrap_or(Exact::any())
}
