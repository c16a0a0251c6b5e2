//! Sets of premises that are noted, and the sets that they cover.

use pw_premises::PremiseSet;
use pw_reasons::Nogoods;
use pw_testing::Refusing;
use std::alloc::Allocator;
use std::process::Abort;
use std::test::Fail;

#[test]
fn a_noted_set_covers_what_includes_it(rt: HostRuntime) -> Result<(), Fail> {
    covers_what_includes_it(&rt, &mut Nogoods::new(rt.alloc()))
}

fn covers_what_includes_it(rt: &impl Abort, nogoods: &mut Nogoods) -> Result<(), Fail> {
    assert_eq!(rt; nogoods.note(&PremiseSet::first(2))?, true);
    assert_eq!(rt; nogoods.note(&PremiseSet::first(3))?, false);
    let more = PremiseSet::first(2).join(PremiseSet::one(3));
    assert!(rt; nogoods.covers(&more));
    assert!(rt; !nogoods.covers(&PremiseSet::one(0)));
    Ok(())
}

#[test]
fn a_smaller_set_covers_what_a_larger_did(rt: HostRuntime) -> Result<(), Fail> {
    covers_what_a_larger_did(&rt, &mut Nogoods::new(rt.alloc()))
}

fn covers_what_a_larger_did(rt: &impl Abort, nogoods: &mut Nogoods) -> Result<(), Fail> {
    assert_eq!(rt; nogoods.note(&PremiseSet::first(3))?, true);
    assert_eq!(rt; nogoods.note(&PremiseSet::one(5))?, true);
    assert_eq!(rt; nogoods.note(&PremiseSet::one(1))?, true);
    assert!(rt; nogoods.covers(&PremiseSet::first(3)) && nogoods.covers(&PremiseSet::one(5)));
    assert!(rt; nogoods.covers(&PremiseSet::one(1)) && !nogoods.covers(&PremiseSet::one(0)));
    Ok(())
}

#[test]
fn a_refused_note_notes_nothing(rt: HostRuntime) -> Result<(), Fail> {
    let refusing = Refusing::nth(rt.alloc(), 1);
    notes_only_at_the_second_try(&rt, &mut Nogoods::new(&refusing))
}

fn notes_only_at_the_second_try<A: Allocator + Copy>(
    rt: &impl Abort,
    nogoods: &mut Nogoods<A>,
) -> Result<(), Fail> {
    assert!(rt; nogoods.note(&PremiseSet::first(2)).is_err());
    assert!(rt; !nogoods.covers(&PremiseSet::first(512)));
    assert_eq!(rt; nogoods.note(&PremiseSet::first(2))?, true);
    assert!(rt; nogoods.covers(&PremiseSet::first(2)));
    Ok(())
}

#[test]
fn a_note_refused_midway_notes_nothing(rt: HostRuntime) -> Result<(), Fail> {
    let refusing = Refusing::nth(rt.alloc(), 2);
    let mut nogoods = Nogoods::new(&refusing);
    assert!(rt; nogoods.note(&PremiseSet::first(3)).is_err());
    assert!(rt; !nogoods.covers(&PremiseSet::first(512)));
    Ok(())
}

#[test]
fn what_is_covered_takes_no_memory(rt: HostRuntime) -> Result<(), Fail> {
    let refusing = Refusing::all_from(rt.alloc(), 2);
    notes_the_first_alone(&rt, &mut Nogoods::new(&refusing))?;
    assert_eq!(rt; refusing.calls(), 1);
    Ok(())
}

fn notes_the_first_alone<A: Allocator + Copy>(
    rt: &impl Abort,
    nogoods: &mut Nogoods<A>,
) -> Result<(), Fail> {
    assert_eq!(rt; nogoods.note(&PremiseSet::one(1))?, true);
    assert_eq!(rt; nogoods.note(&PremiseSet::first(3))?, false);
    Ok(())
}
