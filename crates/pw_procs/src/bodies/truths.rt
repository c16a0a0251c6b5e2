//! Truths about numbers and about truths.
ghost use Rattle.std.specs.Prelude.{◌≡◌, ℤ, pos, ◌<◌, true, false, not, ◌&&◌, ◌||◌};
ghost use Rattle.std.specs.Ordering.{int_eq};
ghost use Rattle.pw_kinds.specs.Members as members;
ghost use Rattle.pw_kinds.specs.Members.{size_of};
ghost use Rattle.pw_info.specs.declared.info.Info.TheVariants as info;
ghost use Rattle.pw_info.specs.Information.{kind_of};
ghost use Rattle.pw_procs.specs.Values.{some, is_true, HasTruths};
ghost use Rattle.pw_procs.specs.Meaning.{at_most_of, equality_of, negation_of, conjunction_of};
ghost use Rattle.pw_procs.specs.Meaning.{disjunction_of};

use crate::bodies::only::only_value;
use pw_info::Info;
use pw_kinds::{Interval, Members};

const FALSE: u8 = 0;

const TRUE: u8 = 1;

// The same members, and the member at this place too if `may_be`.
fn with_if(part: Members, place: u8, may_be: bool) -> Members
    requires { place < size_of part }
    ensures size { size_of result ≡ size_of part }
    ensures values { (v : ℤ) → members.allows result v
        ≡ (members.allows part v || (may_be && int_eq (pos place) v)) }
{
    if may_be {
        return part.with(place);
    }
    part
}

// A set of truths: it has `false` if `may_be_false`, and `true` if `may_be_true`.
fn truths(may_be_false: bool, may_be_true: bool) -> Info
    ensures { HasTruths may_be_false may_be_true result }
{
    let part = with_if(Members::empty(2), FALSE, may_be_false);
    Info::of_members(0, with_if(part, TRUE, may_be_true))
}

// Whether a possible value is true.
fn has_true(p: Members) -> bool
    ensures { result ≡ some (info.Members 0 p) is_true }
{
    p.contains(TRUE)
}

// Whether a possible value is not true.
fn has_false(p: Members) -> bool
    requires { size_of p ≡ 2 }
    ensures { result ≡ some (info.Members 0 p) (λ a. not (is_true a)) }
{
    p.contains(FALSE)
}

/// Whether `x <= y`, as far as it is known.
pub(crate) fn order(x: Interval, y: Interval) -> Info
    ensures { result ≡ at_most_of (info.Interval x) (info.Interval y) }
{
    if x.is_empty() || y.is_empty() {
        return truths(false, false);
    }
    truths(x.hi() > y.lo(), x.lo() <= y.hi())
}

/// Whether `x = y`, as far as it is known, of two informations of one kind.
pub(crate) fn equality(x: &Info, y: &Info) -> Info
    requires { kind_of x.now ≡ kind_of y.now }
    ensures { result ≡ equality_of x.now y.now }
{
    if x.is_contradiction() || y.is_contradiction() {
        return truths(false, false);
    }
    match (only_value(x), only_value(y)) {
        (Some(a), Some(b)) => truths(a != b, a == b),
        _ => truths(true, !x.meet(y).is_contradiction()),
    }
}

/// All `not p`.
pub(crate) fn negation(p: Members) -> Info
    requires { size_of p ≡ 2 }
    ensures { result ≡ negation_of (info.Members 0 p) }
{
    truths(has_true(p), has_false(p))
}

/// All `p and q`.
pub(crate) fn conjunction(p: Members, q: Members) -> Info
    requires first { size_of p ≡ 2 }
    requires second { size_of q ≡ 2 }
    ensures { result ≡ conjunction_of (info.Members 0 p) (info.Members 0 q) }
{
    if p.is_empty() || q.is_empty() {
        return truths(false, false);
    }
    truths(has_false(p) || has_false(q), has_true(p) && has_true(q))
}

/// All `p or q`.
pub(crate) fn disjunction(p: Members, q: Members) -> Info
    requires first { size_of p ≡ 2 }
    requires second { size_of q ≡ 2 }
    ensures { result ≡ disjunction_of (info.Members 0 p) (info.Members 0 q) }
{
    if p.is_empty() || q.is_empty() {
        return truths(false, false);
    }
    truths(has_false(p) && has_false(q), has_true(p) || has_true(q))
}
