//! The one value of an information that has exactly one.
ghost use Rattle.std.specs.Prelude.{◌≡◌, ◌↔◌, ℤ, pos, true, Some, IsTrue, IfSome, IfNone};
ghost use Rattle.pw_info.specs.Information.{allows};
ghost use Rattle.pw_kinds.specs.Interval as interval;
ghost use Rattle.pw_kinds.specs.Members as members;
ghost use Rattle.pw_procs.specs.Values.{PassesAlone};

use pw_info::Info;
use pw_kinds::{Interval, Members};

// The number, if exactly one is possible.
fn only_number(part: Interval) -> Option<i64>
    ensures { (v : ℤ) → (result ≡ Some v) ↔ PassesAlone (interval.allows part) v }
{
    if part.is_empty() {
        return None;
    }
    let number = part.lo();
    if number != part.hi() {
        return None;
    }
    Some(number)
}

// The first place that is possible.
fn first_place(part: Members) -> Option<u8>
    ensures found { IfSome result (λ k. members.allows part (pos k) ≡ true) }
    ensures none { IfNone result (members.IsEmpty part) }
{
    for place in 0..part.size() {
        if part.contains(place) {
            return Some(place);
        }
    }
    None
}

// Whether this place, which is possible, is the only possible one.
fn is_only(part: Members, place: u8) -> bool
    requires { members.allows part (pos place) ≡ true }
    ensures { IsTrue result ↔ ((w : ℤ) → members.allows part w ≡ true → w ≡ pos place) }
{
    part.within(Members::empty(part.size()).with(place))
}

// The place, if exactly one is possible.
fn only_place(part: Members) -> Option<i64>
    ensures { (v : ℤ) → (result ≡ Some v) ↔ PassesAlone (members.allows part) v }
{
    let Some(place) = first_place(part) else {
        return None;
    };
    if !is_only(part, place) {
        return None;
    }
    Some(i64::from(place))
}

/// The value, if exactly one is possible: a number, or the place of a member.
pub(crate) fn only_value(info: &Info) -> Option<i64>
    ensures { (v : ℤ) → (result ≡ Some v) ↔ PassesAlone (allows info.now) v }
{
    match *info {
        Info::Interval(part) => only_number(part),
        Info::Members { part, .. } => only_place(part),
        Info::Exact(part) => part.number(),
    }
}
