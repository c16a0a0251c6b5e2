//! What a store of facts remembers since a mark.
ghost use Rattle.std.specs.Prelude.{◌≡◌, [], ◌∷◌};
ghost use Rattle.pw_cells.specs.Cells.{kinds_of};

use super::{assert_news, keep, tell, two_cells};
use pw_cells::{Arrival, CellStore};
use pw_facts::Fact;
use pw_info::Kind;
use pw_premises::PremiseSet;
use pw_testing::facts::fact;
use std::alloc::AllocError;
use std::process::Abort;
use std::test::Fail;

// This many facts are remembered.
const REMEMBERED: u32 = 4096;

// A mark of what the store keeps now.
fn mark(store: &mut CellStore) -> u64
    requires { kinds_of store.old ≡ Kind.Interval ∷ Kind.Exact ∷ [] }
    ensures { kinds_of store.new ≡ Kind.Interval ∷ Kind.Exact ∷ [] }
{
    store.mark()
}

// Tells the same fact of the interval cell this many times.
fn tell_often(store: &mut CellStore, times: u32) -> Result<(), AllocError>
    requires { kinds_of store.old ≡ Kind.Interval ∷ Kind.Exact ∷ [] }
    ensures { kinds_of store.new ≡ Kind.Interval ∷ Kind.Exact ∷ [] }
{
    for _ in 0..times {
        store.tell(0, fact(1, 5, PremiseSet::one(0)))?;
    }
    Ok(())
}

// Whether this fact came about the interval cell.
fn is_of(arrival: &Arrival, wanted: &Fact) -> bool {
    arrival.cell() == 0
        && *arrival.info() == wanted.info
        && arrival.support().widen() == wanted.support
}

// How many facts came since a mark, if the store remembers.
fn came(store: &CellStore, mark: u64) -> Option<usize> {
    let arrivals = store.since(mark)?;
    Some(arrivals.len())
}

// Checks how many facts came since a mark.
fn assert_came<R: Abort>(rt: &R, store: &CellStore, mark: u64, wanted: Option<usize>) {
    assert_eq!(rt; came(store, mark), wanted);
}

// Checks the first and the last fact that came since a mark.
fn assert_in_order<R: Abort>(
    rt: &R,
    store: &CellStore,
    mark: u64,
    first: &Fact,
    last: &Fact,
) -> Result<(), Fail> {
    let arrivals = store.since(mark).ok_or("forgotten")?;
    let (Some(told), Some(kept)) = (arrivals.first(), arrivals.last()) else {
        return Err("nothing came".into());
    };
    assert!(rt; is_of(told, first));
    assert!(rt; is_of(kept, last));
    Ok(())
}

#[test]
fn what_was_told_and_kept_came_since(rt: HostRuntime) -> Result<(), Fail> {
    let (zero, one) = (PremiseSet::one(0), PremiseSet::one(1));
    let mut store = two_cells(rt.alloc())?;
    let first = mark(&mut store);
    assert_came(&rt, &store, first, Some(0));
    tell(&mut store, fact(5, 9, zero))?;
    let second = mark(&mut store);
    assert_news(&rt, &mut store, fact(6, 8, one), true)?;
    // What is known already does not come again.
    assert_news(&rt, &mut store, fact(6, 9, one), false)?;
    assert_came(&rt, &store, first, Some(2));
    assert_came(&rt, &store, second, Some(1));
    let third = mark(&mut store);
    assert_came(&rt, &store, third, Some(0));
    Ok(())
}

#[test]
fn what_came_is_told_in_its_order(rt: HostRuntime) -> Result<(), Fail> {
    let (zero, one) = (PremiseSet::one(0), PremiseSet::one(1));
    let mut store = two_cells(rt.alloc())?;
    let first = mark(&mut store);
    tell(&mut store, fact(5, 9, zero))?;
    keep(&mut store, fact(6, 8, one))?;
    assert_in_order(&rt, &store, first, &fact(5, 9, zero), &fact(6, 8, one))
}

#[test]
fn a_wide_fact_makes_the_store_forget(rt: HostRuntime) -> Result<(), Fail> {
    let mut store = two_cells(rt.alloc())?;
    let first = mark(&mut store);
    tell(&mut store, fact(5, 9, PremiseSet::one(64)))?;
    assert_came(&rt, &store, first, None);
    let second = mark(&mut store);
    tell(&mut store, fact(6, 9, PremiseSet::one(63)))?;
    assert_came(&rt, &store, second, Some(1));
    Ok(())
}

#[test]
fn one_fact_too_many_makes_the_store_forget(rt: HostRuntime) -> Result<(), Fail> {
    let mut store = two_cells(rt.alloc())?;
    let first = mark(&mut store);
    tell_often(&mut store, REMEMBERED)?;
    assert_came(&rt, &store, first, Some(4096));
    tell_often(&mut store, 1)?;
    assert_came(&rt, &store, first, None);
    let second = mark(&mut store);
    assert_came(&rt, &store, second, Some(0));
    tell_often(&mut store, 2)?;
    assert_came(&rt, &store, second, Some(2));
    Ok(())
}

#[test]
fn without_a_mark_nothing_is_remembered(rt: HostRuntime) -> Result<(), Fail> {
    let mut store = two_cells(rt.alloc())?;
    tell_often(&mut store, 3)?;
    assert_came(&rt, &store, 0, None);
    let first = mark(&mut store);
    assert_came(&rt, &store, first, Some(0));
    Ok(())
}
