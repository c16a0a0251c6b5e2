//! Tests of intervals, members and exact numbers. A function tries one row, and a test goes through
//! the rows.

use pw_kinds::{Exact, Interval, Members};
use std::process::Abort;
use std::test::Fail;

fn from_to(lo: i64, hi: i64) -> Result<Interval, Fail> {
    Ok(Interval::new(lo, hi).ok_or("no such interval")?)
}

// Checks that an interval has these ends.
fn has_ends<R: Abort>(rt: &R, lo: i64, hi: i64) -> Result<(), Fail> {
    let interval = from_to(lo, hi)?;
    assert!(rt; !interval.is_empty(), "from {lo} to {hi}");
    assert!(rt;
        interval.lo() == lo && interval.hi() == hi,
        "from {lo} to {hi}"
    );
    Ok(())
}

#[test]
fn new_takes_ends_in_order_and_in_range(rt: HostRuntime) -> Result<(), Fail> {
    for (lo, hi) in [
        (9, 3),
        (-1_000_001, 0),
        (0, 1_000_001),
        (1_000_001, 1_000_001),
        (5, 4),
    ] {
        assert!(rt; Interval::new(lo, hi).is_none(), "from {lo} to {hi}");
    }
    for (lo, hi) in [(-1_000_000, 1_000_000), (5, 5), (-3, 4)] {
        has_ends(&rt, lo, hi)?;
    }
    Ok(())
}

#[test]
fn whole_and_empty(rt: HostRuntime) -> Result<(), Fail> {
    let whole = from_to(-1_000_000, 1_000_000)?;
    assert!(rt; Interval::whole() == whole && !whole.is_empty());
    assert!(rt; Interval::empty().is_empty());
    Ok(())
}

#[test]
fn interval_as_text(rt: HostRuntime) -> Result<(), Fail> {
    let text = format!(in rt.alloc(); "{:?}", from_to(-3, 4)?)?;
    assert_eq!(rt; text.as_str(), "Interval { lo: -3, hi: 4 }");
    Ok(())
}

// The interval of these ends; the empty one if there is none.
fn interval(ends: (i64, i64)) -> Interval {
    Interval::new(ends.0, ends.1).unwrap_or(Interval::empty())
}

#[test]
fn intervals_meet(rt: HostRuntime) {
    for (one, other, want) in [
        ((1, 2), (3, 4), (1, 0)),
        ((5, 9), (0, 7), (5, 7)),
        ((-2, 3), (-2, 3), (-2, 3)),
    ] {
        let met = interval(one).meet(interval(other));
        assert!(rt; met == interval(want), "{one:?} and {other:?}");
    }
}

#[test]
fn intervals_within(rt: HostRuntime) {
    for (one, other, want) in [
        ((5, 7), (5, 9), true),
        ((5, 9), (5, 7), false),
        ((1, 0), (5, 7), true),
        ((1, 0), (1, 0), true),
        ((5, 7), (1, 0), false),
        ((5, 9), (1, 0), false),
    ] {
        let is_within = interval(one).within(interval(other));
        assert!(rt; is_within == want, "{one:?} in {other:?}");
    }
}

fn members(size: u8, mask: u128) -> Result<Members, Fail> {
    Ok(Members::of(size, mask).ok_or("no such members")?)
}

// Checks that members have this size and this mask.
fn has_mask<R: Abort>(rt: &R, size: u8, mask: u128) -> Result<(), Fail> {
    let made = members(size, mask)?;
    assert!(rt;
        made.size() == size && made.mask() == mask,
        "{mask} of {size}"
    );
    Ok(())
}

#[test]
fn of_takes_masks_below_the_size(rt: HostRuntime) -> Result<(), Fail> {
    for (size, mask) in [
        (0, 0),
        (1, 1),
        (129, 0),
        (255, 1),
        (2, 4),
        (3, 9),
        (63, 1 << 63),
        (127, 1 << 127),
    ] {
        assert!(rt; Members::of(size, mask).is_none(), "{mask} of {size}");
    }
    for (size, mask) in [
        (2, 0),
        (2, 3),
        (3, 5),
        (64, 1 << 63),
        (127, 1 << 126),
        (128, u128::MAX),
    ] {
        has_mask(&rt, size, mask)?;
    }
    Ok(())
}

// Checks that all members of a set have this mask.
fn is_full<R: Abort>(rt: &R, size: u8, mask: u128) -> Result<(), Fail> {
    assert!(rt; size >= 2 && size <= 128);
    let full = Members::full(size);
    assert!(rt; full == members(size, mask)?, "of {size}");
    assert!(rt; full.is_full() && !full.is_empty(), "of {size}");
    Ok(())
}

// Checks that no members of a set have the mask 0.
fn is_empty<R: Abort>(rt: &R, size: u8) -> Result<(), Fail> {
    assert!(rt; size >= 2 && size <= 128);
    let none = Members::empty(size);
    assert!(rt; none == members(size, 0)?, "of {size}");
    assert!(rt; none.is_empty() && !none.is_full(), "of {size}");
    Ok(())
}

#[test]
fn full_and_empty(rt: HostRuntime) -> Result<(), Fail> {
    for (size, mask) in [(2, 3), (3, 7), (127, u128::MAX >> 1), (128, u128::MAX)] {
        is_full(&rt, size, mask)?;
        is_empty(&rt, size)?;
    }
    assert!(rt; !members(3, 3)?.is_full());
    assert!(rt; members(2, 3)?.is_full());
    Ok(())
}

#[test]
fn members_as_text(rt: HostRuntime) -> Result<(), Fail> {
    let text = format!(in rt.alloc(); "{:?}", members(3, 5)?)?;
    assert_eq!(rt; text.as_str(), "Members { size: 3, mask: 5 }");
    Ok(())
}

#[test]
fn contains_each_place(rt: HostRuntime) -> Result<(), Fail> {
    for (size, mask, place, want) in [
        (3, 5, 0, true),
        (3, 5, 1, false),
        (3, 5, 2, true),
        (3, 7, 3, false),
        (64, 1 << 63, 63, true),
        (128, 1 << 127, 127, true),
        (128, 1 << 127, 63, false),
        (128, u128::MAX, 128, false),
        (128, u128::MAX, 255, false),
    ] {
        assert_eq!(rt;
            members(size, mask)?.contains(place),
            want,
            "{place} in {mask} of {size}"
        );
    }
    Ok(())
}

// Checks the members with one more at this place.
fn is_with_one_more<R: Abort>(
    rt: &R,
    size: u8,
    mask: u128,
    place: u8,
    want: u128,
) -> Result<(), Fail> {
    let made = members(size, mask)?;
    assert!(rt; place < made.size());
    let wanted = members(size, want)?;
    assert!(rt; made.with(place) == wanted, "{place} to {mask} of {size}");
    Ok(())
}

#[test]
fn with_one_more(rt: HostRuntime) -> Result<(), Fail> {
    for (size, mask, place, want) in [
        (3, 0b001, 2u8, 0b101),
        (3, 0b101, 2, 0b101),
        (64, 1, 63, 1 << 63 | 1),
        (128, 1, 127, 1 << 127 | 1),
    ] {
        is_with_one_more(&rt, size, mask, place, want)?;
    }
    Ok(())
}

// Checks what two parts of three members have in common, and whether one is within the other.
fn members_compare<R: Abort>(
    rt: &R,
    one: u128,
    other: u128,
    both: u128,
    within: bool,
) -> Result<(), Fail> {
    let (own, others) = (members(3, one)?, members(3, other)?);
    assert!(rt; own.size() == others.size());
    let met = members(3, both)?;
    assert!(rt; own.meet(others) == met, "{one} and {other}");
    assert!(rt; own.within(others) == within, "{one} in {other}");
    Ok(())
}

#[test]
fn members_meet_and_within(rt: HostRuntime) -> Result<(), Fail> {
    for (one, other, both, within) in [
        (0b101, 0b110, 0b100, false),
        (0b010, 0b110, 0b010, true),
        (0b110, 0b010, 0b010, false),
        (0b001, 0b110, 0b000, false),
        (0b000, 0b110, 0b000, true),
        (0b111, 0b111, 0b111, true),
    ] {
        members_compare(&rt, one, other, both, within)?;
    }
    Ok(())
}

fn one(n: i64) -> Result<Exact, Fail> {
    Ok(Exact::one(n).ok_or("no such number")?)
}

// Checks that an exact number is this one.
fn is_number<R: Abort>(rt: &R, n: i64) -> Result<(), Fail> {
    let exact = one(n)?;
    assert!(rt; exact.number() == Some(n), "{n}");
    assert!(rt; !exact.is_any() && !exact.is_empty(), "{n}");
    Ok(())
}

#[test]
fn one_takes_numbers_in_range(rt: HostRuntime) -> Result<(), Fail> {
    for n in [-1_000_000_001, 1_000_000_001, i64::MIN, i64::MAX] {
        assert!(rt; Exact::one(n).is_none(), "{n}");
    }
    for n in [-1_000_000_000, -1, 0, 7, 1_000_000_000] {
        is_number(&rt, n)?;
    }
    Ok(())
}

#[test]
fn any_and_none(rt: HostRuntime) -> Result<(), Fail> {
    let (any, none) = (Exact::any(), Exact::none());
    assert!(rt; any.is_any() && !any.is_empty());
    assert!(rt; none.is_empty() && !none.is_any());
    assert_eq!(rt; (any.number(), none.number()), (None, None));
    let text = format!(in rt.alloc(); "{:?} {any:?} {none:?}", one(-3)?)?;
    assert_eq!(rt; text.as_str(), "One(Number { value: -3 }) Any Empty");
    Ok(())
}

// Checks what two exact values have in common, and whether one is within the other.
fn exact_values_compare<R: Abort>(rt: &R, own: Exact, other: Exact, both: Exact, within: bool) {
    assert!(rt; own.meet(other) == both, "{own:?} and {other:?}");
    assert!(rt; own.within(other) == within, "{own:?} in {other:?}");
}

#[test]
fn exact_values_meet_and_within(rt: HostRuntime) -> Result<(), Fail> {
    let (any, none, seven, eight) = (Exact::any(), Exact::none(), one(7)?, one(8)?);
    for (own, other, both, within) in [
        (seven, seven, seven, true),
        (seven, eight, none, false),
        (seven, any, seven, true),
        (any, seven, seven, false),
        (any, any, any, true),
        (none, any, none, true),
        (any, none, none, false),
        (none, seven, none, true),
        (seven, none, none, false),
        (none, none, none, true),
    ] {
        exact_values_compare(&rt, own, other, both, within);
    }
    Ok(())
}
