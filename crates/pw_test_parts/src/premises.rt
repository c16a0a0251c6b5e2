//! Tests of sets of premises.

ghost use Rattle.std.specs.Prelude.{◌<◌};

use pw_premises::PremiseSet;
use std::process::Abort;
use std::test::Fail;

#[test]
fn sets_of_few_premises(rt: HostRuntime) {
    let few = PremiseSet::first(3);
    for (n, within) in [
        (0u16, true),
        (1, true),
        (2, true),
        (3, false),
        (64, false),
        (511, false),
    ] {
        assert!(rt; few.contains(n) == within, "at {n}");
    }
    assert!(rt; PremiseSet::first(0) == PremiseSet::empty());
}

#[test]
fn sets_of_all_premises_and_of_the_last(rt: HostRuntime) {
    let (all, last) = (PremiseSet::first(512), PremiseSet::one(511));
    for (n, in_all, is_last) in [
        (0u16, true, false),
        (63, true, false),
        (64, true, false),
        (447, true, false),
        (511, true, true),
        (512, false, false),
        (65_535, false, false),
    ] {
        assert!(rt; all.contains(n) == in_all, "at {n}");
        assert!(rt; last.contains(n) == is_last, "at {n}");
    }
}

#[test]
fn sets_joined_and_taken_apart(rt: HostRuntime) {
    let (few, last) = (PremiseSet::first(3), PremiseSet::one(511));
    let two = PremiseSet::one(1).join(last);
    let both = few.join(two);
    assert!(rt; few.is_subset(&both) && two.is_subset(&both));
    assert!(rt; !both.is_subset(&few) && !both.is_subset(&two));
    assert!(rt; few.difference(two) == PremiseSet::one(0).join(PremiseSet::one(2)));
    assert!(rt; both.difference(few) == last && few != two);
}

// Checks that sets whose last premise is this one lose it.
fn loses_the_last<R: Abort>(rt: &R, n: u16)
    requires { n < 512 }
{
    let (first, one) = (PremiseSet::first(n + 1), PremiseSet::one(n));
    assert!(rt; first.without(n) == PremiseSet::first(n), "{n}");
    assert!(rt; !one.is_empty() && one.without(n).is_empty(), "{n}");
}

#[test]
fn sets_without_a_premise(rt: HostRuntime) {
    let few = PremiseSet::first(3);
    assert!(rt; few.without(1) == PremiseSet::one(0).join(PremiseSet::one(2)));
    assert!(rt; few.without(3) == few && few.without(512) == few && few.without(65_535) == few);
    for n in [63, 64, 511] {
        loses_the_last(&rt, n);
    }
    assert!(rt; !few.is_empty() && PremiseSet::empty().is_empty());
}

#[test]
fn debug_text(rt: HostRuntime) -> Result<(), Fail> {
    let text = format!(in rt.alloc(); "{:?}", PremiseSet::first(3))?;
    assert_eq!(rt;
        text.as_str(),
        "PremiseSet { words: [7, 0, 0, 0, 0, 0, 0, 0] }"
    );
    Ok(())
}

// Checks the numbers of a set from the front.
fn rises<R: Abort + AllocGlobal>(rt: &R, set: PremiseSet, wanted: &[u16]) -> Result<(), Fail> {
    let mut numbers = Vec::new(rt.alloc());
    for n in set.numbers() {
        numbers.push(n)?;
    }
    assert!(rt; numbers.as_slice() == wanted);
    Ok(())
}

// Checks the numbers of a set from the back.
fn falls<R: Abort + AllocGlobal>(rt: &R, set: PremiseSet, wanted: &[u16]) -> Result<(), Fail> {
    let mut numbers = Vec::new(rt.alloc());
    for n in set.numbers().rev() {
        numbers.push(n)?;
    }
    assert!(rt; numbers.as_slice() == wanted);
    Ok(())
}

#[test]
fn numbers_rise_and_fall_from_the_back(rt: HostRuntime) -> Result<(), Fail> {
    let few = PremiseSet::one(511)
        .join(PremiseSet::one(64))
        .join(PremiseSet::one(63))
        .join(PremiseSet::first(2));
    for (set, rising, falling) in [
        (PremiseSet::empty(), [].as_slice(), [].as_slice()),
        (PremiseSet::one(0), [0].as_slice(), [0].as_slice()),
        (PremiseSet::one(511), [511].as_slice(), [511].as_slice()),
        (
            few,
            [0, 1, 63, 64, 511].as_slice(),
            [511, 64, 63, 1, 0].as_slice(),
        ),
    ] {
        rises(&rt, set, rising)?;
        falls(&rt, set, falling)?;
    }
    assert!(rt; PremiseSet::first(512).numbers().count() == 512);
    Ok(())
}

#[test]
fn numbers_from_both_ends(rt: HostRuntime) {
    let mut left = PremiseSet::first(3).join(PremiseSet::one(400)).numbers();
    assert!(rt; left.next() == Some(0));
    assert!(rt; left.next_back() == Some(400));
    assert!(rt; left.next_back() == Some(2));
    assert!(rt; left.next() == Some(1));
    assert!(rt; left.next() == None);
    assert!(rt; left.next_back() == None);
}
