//! Tests of the store of facts.
ghost use Rattle.std.specs.Prelude.{◌≡◌, ◌<◌, [], ◌∷◌, IfOk};
ghost use Rattle.pw_info.specs.Information.{kind_of};
ghost use Rattle.pw_cells.specs.Cells.{kinds_of};

use pw_cells::CellStore;
use pw_facts::Fact;
use pw_info::{Info, Kind};
use pw_premises::PremiseSet;
use pw_testing::facts::fact;
use std::alloc::{AllocError, Global};
use std::process::Abort;
use std::test::Fail;

mod contents;
mod marks;
mod refused;

// A store of an interval cell and an exact cell.
fn two_cells(alloc: Global) -> Result<CellStore, AllocError>
    ensures { IfOk result (λ store. kinds_of store ≡ Kind.Interval ∷ Kind.Exact ∷ []) }
{
    let mut store = CellStore::new(alloc);
    store.add_cells(&[Kind::Interval, Kind::Exact])?;
    Ok(store)
}

// Tells a fact of the interval cell. The store also has an exact cell.
fn tell(store: &mut CellStore, fact: Fact) -> Result<(), AllocError>
    requires cells { kinds_of store.old ≡ Kind.Interval ∷ Kind.Exact ∷ [] }
    requires kind { kind_of fact.info ≡ Kind.Interval }
    ensures { kinds_of store.new ≡ Kind.Interval ∷ Kind.Exact ∷ [] }
{
    store.tell(0, fact)
}

// Asks what was told of one of the two cells.
fn told(store: &CellStore, cell: u32, worldview: &PremiseSet) -> Info
    requires cells { kinds_of store.now ≡ Kind.Interval ∷ Kind.Exact ∷ [] }
    requires there { cell < 2 }
{
    store.told(cell, worldview)
}

// Asks what is kept of one of the two cells.
fn kept(store: &mut CellStore, cell: u32, worldview: &PremiseSet) -> Fact
    requires cells { kinds_of store.old ≡ Kind.Interval ∷ Kind.Exact ∷ [] }
    requires there { cell < 2 }
    ensures { kinds_of store.new ≡ Kind.Interval ∷ Kind.Exact ∷ [] }
{
    store.kept(cell, worldview)
}

// Asks whether one of the two cells may show more in a worldview than in the one before.
fn may_show_more(store: &CellStore, cell: u32, before: &PremiseSet, worldview: &PremiseSet) -> bool
    requires cells { kinds_of store.now ≡ Kind.Interval ∷ Kind.Exact ∷ [] }
    requires there { cell < 2 }
{
    store.may_show_more(cell, before, worldview)
}

// Asks, as a user of this number, what was told of one of the two cells.
fn recall(store: &mut CellStore, asker: u8, cell: u32, worldview: &PremiseSet) -> Info
    requires cells { kinds_of store.old ≡ Kind.Interval ∷ Kind.Exact ∷ [] }
    requires there { cell < 2 }
    ensures { kinds_of store.new ≡ Kind.Interval ∷ Kind.Exact ∷ [] }
{
    store.recall(asker, cell, worldview)
}

// Keeps a fact of the interval cell.
fn keep(store: &mut CellStore, fact: Fact) -> Result<bool, AllocError>
    requires cells { kinds_of store.old ≡ Kind.Interval ∷ Kind.Exact ∷ [] }
    requires kind { kind_of fact.info ≡ Kind.Interval }
    ensures { kinds_of store.new ≡ Kind.Interval ∷ Kind.Exact ∷ [] }
{
    store.keep(0, fact)
}

// Tells facts of the interval cell, one under each of the first premises alone: the number is at
// least that of the premise.
fn tell_under_each(store: &mut CellStore, premises: u16) -> Result<(), AllocError>
    requires { kinds_of store.old ≡ Kind.Interval ∷ Kind.Exact ∷ [] }
    ensures { kinds_of store.new ≡ Kind.Interval ∷ Kind.Exact ∷ [] }
{
    for premise in 0..premises.min(512) {
        store.tell(0, fact(i64::from(premise), 100, PremiseSet::one(premise)))?;
    }
    Ok(())
}

// Checks the ends of what was told of the interval cell.
fn assert_told<R: Abort>(rt: &R, store: &CellStore, worldview: &PremiseSet, ends: (i64, i64))
    requires { kinds_of store.now ≡ Kind.Interval ∷ Kind.Exact ∷ [] }
{
    let wanted = fact(ends.0, ends.1, *worldview);
    assert!(rt; told(store, 0, worldview) == wanted.info);
}

// Checks what is kept of one of the two cells.
fn assert_kept<R: Abort>(
    rt: &R,
    store: &mut CellStore,
    cell: u32,
    worldview: &PremiseSet,
    wanted: Fact,
)
    requires cells { kinds_of store.old ≡ Kind.Interval ∷ Kind.Exact ∷ [] }
    requires there { cell < 2 }
    ensures { kinds_of store.new ≡ Kind.Interval ∷ Kind.Exact ∷ [] }
{
    assert!(rt; kept(store, cell, worldview) == wanted);
}

// Checks the ends of what a user of this number recalls of the interval cell.
fn assert_recalled<R: Abort>(
    rt: &R,
    store: &mut CellStore,
    asker: u8,
    worldview: &PremiseSet,
    ends: (i64, i64),
)
    requires { kinds_of store.old ≡ Kind.Interval ∷ Kind.Exact ∷ [] }
    ensures { kinds_of store.new ≡ Kind.Interval ∷ Kind.Exact ∷ [] }
{
    let wanted = fact(ends.0, ends.1, *worldview);
    assert!(rt; recall(store, asker, 0, worldview) == wanted.info);
}

// Checks whether the interval cell may show more in a worldview than in the one before.
fn assert_shows_more<R: Abort>(
    rt: &R,
    store: &CellStore,
    before: &PremiseSet,
    worldview: &PremiseSet,
    more: bool,
)
    requires { kinds_of store.now ≡ Kind.Interval ∷ Kind.Exact ∷ [] }
{
    assert!(rt; may_show_more(store, 0, before, worldview) == more);
}

// Keeps a fact of the interval cell. Checks whether the fact is news.
fn assert_news<R: Abort>(
    rt: &R,
    store: &mut CellStore,
    fact: Fact,
    news: bool,
) -> Result<(), AllocError>
    requires cells { kinds_of store.old ≡ Kind.Interval ∷ Kind.Exact ∷ [] }
    requires kind { kind_of fact.info ≡ Kind.Interval }
    ensures { kinds_of store.new ≡ Kind.Interval ∷ Kind.Exact ∷ [] }
{
    assert!(rt; keep(store, fact)? == news);
    Ok(())
}

#[test]
fn cells_are_added_where_there_is_room(rt: HostRuntime) -> Result<(), Fail> {
    let mut store = CellStore::new(rt.alloc());
    store.reserve(2)?;
    let first = store.add_cells(&[Kind::Interval, Kind::Exact])?;
    assert!(rt; (first, store.cells(), store.kind(1)) == (0, 2, Kind::Exact));
    let next = store.add_cells(&[Kind::Interval])?;
    assert!(rt; next == 2);
    Ok(())
}

#[test]
fn subsumed_facts_are_no_news(rt: HostRuntime) -> Result<(), Fail> {
    let (zero, one, both) = (PremiseSet::one(0), PremiseSet::one(1), PremiseSet::first(2));
    let mut store = two_cells(rt.alloc())?;
    assert_news(&rt, &mut store, fact(5, 9, zero), true)?;
    assert_news(&rt, &mut store, fact(5, 9, both), false)?;
    assert_news(&rt, &mut store, fact(6, 9, one), true)?;
    assert_kept(&rt, &mut store, 0, &both, fact(6, 9, one));
    assert_kept(&rt, &mut store, 0, &zero, fact(5, 9, zero));
    let none = Fact {
        info: Info::nothing(Kind::Interval),
        support: PremiseSet::empty(),
    };
    assert_kept(&rt, &mut store, 0, &PremiseSet::empty(), none);
    Ok(())
}

#[test]
fn facts_of_one_support_are_told_together(rt: HostRuntime) -> Result<(), Fail> {
    let (zero, both) = (PremiseSet::one(0), PremiseSet::first(2));
    let mut store = two_cells(rt.alloc())?;
    tell(&mut store, fact(5, 9, zero))?;
    tell(&mut store, fact(7, 12, zero))?;
    assert_told(&rt, &store, &both, (7, 9));
    assert_kept(&rt, &mut store, 0, &both, fact(7, 9, zero));
    assert!(rt; told(&store, 0, &PremiseSet::one(1)).is_nothing());
    assert!(rt;
        told(&store, 1, &both).is_nothing() && kept(&mut store, 1, &both).info.is_nothing()
    );
    Ok(())
}

#[test]
fn facts_of_many_supports_are_told_together(rt: HostRuntime) -> Result<(), Fail> {
    let (three, all) = (PremiseSet::one(3), PremiseSet::first(512));
    let mut store = two_cells(rt.alloc())?;
    tell_under_each(&mut store, 20)?;
    tell_under_each(&mut store, 20)?;
    tell(&mut store, fact(50, 60, three))?;
    assert_told(&rt, &store, &three, (50, 60));
    assert_told(&rt, &store, &PremiseSet::first(3), (2, 100));
    assert_kept(&rt, &mut store, 0, &three, fact(50, 60, three));
    assert_kept(&rt, &mut store, 0, &all, fact(50, 60, three));
    assert_kept(
        &rt,
        &mut store,
        0,
        &PremiseSet::first(3),
        fact(2, 100, PremiseSet::one(2)),
    );
    Ok(())
}

#[test]
fn facts_of_wide_supports_are_told_with_the_others(rt: HostRuntime) -> Result<(), Fail> {
    let (five, far) = (PremiseSet::one(5), PremiseSet::one(100));
    let mut store = two_cells(rt.alloc())?;
    tell_under_each(&mut store, 20)?;
    tell(&mut store, fact(30, 90, far))?;
    tell(&mut store, fact(40, 80, five))?;
    assert_told(&rt, &store, &PremiseSet::first(5), (4, 100));
    assert_told(&rt, &store, &five, (40, 80));
    assert_kept(&rt, &mut store, 0, &five, fact(40, 80, five));
    assert_kept(&rt, &mut store, 0, &far, fact(30, 90, far));
    assert_kept(
        &rt,
        &mut store,
        0,
        &PremiseSet::first(512),
        fact(40, 80, five),
    );
    Ok(())
}

#[test]
fn more_may_be_kept_where_a_fact_comes_in(rt: HostRuntime) -> Result<(), Fail> {
    let (none, zero, one) = (PremiseSet::empty(), PremiseSet::one(0), PremiseSet::one(1));
    let (both, all) = (PremiseSet::first(2), PremiseSet::first(512));
    let mut store = two_cells(rt.alloc())?;
    tell(&mut store, fact(5, 9, zero))?;
    // The fact was told since; then it is among the kept ones.
    assert_shows_more(&rt, &store, &none, &zero, true);
    assert_shows_more(&rt, &store, &zero, &all, false);
    assert_kept(&rt, &mut store, 0, &both, fact(5, 9, zero));
    assert_shows_more(&rt, &store, &one, &both, true);
    assert_shows_more(&rt, &store, &zero, &all, false);
    assert_shows_more(&rt, &store, &zero, &one, false);
    // One fact is visible already, and the other one comes in.
    tell(&mut store, fact(6, 7, both))?;
    assert_shows_more(&rt, &store, &zero, &both, true);
    assert_shows_more(&rt, &store, &none, &one, false);
    assert!(rt; !may_show_more(&store, 1, &none, &all));
    Ok(())
}

#[test]
fn more_may_be_kept_where_a_wide_fact_comes_in(rt: HostRuntime) -> Result<(), Fail> {
    let (zero, far) = (PremiseSet::one(0), PremiseSet::one(100));
    let (below, all) = (PremiseSet::first(100), PremiseSet::first(512));
    let with_far = PremiseSet::first(101);
    let mut store = two_cells(rt.alloc())?;
    tell(&mut store, fact(5, 9, zero))?;
    tell(&mut store, fact(6, 20, far))?;
    assert_shows_more(&rt, &store, &below, &with_far, true);
    assert_shows_more(&rt, &store, &zero, &below, false);
    assert_kept(&rt, &mut store, 0, &far, fact(6, 20, far));
    assert_shows_more(&rt, &store, &below, &with_far, true);
    assert_shows_more(&rt, &store, &far, &all, true);
    assert_shows_more(&rt, &store, &zero, &below, false);
    Ok(())
}

#[test]
fn what_is_told_since_is_recalled(rt: HostRuntime) -> Result<(), Fail> {
    let (zero, one, both) = (PremiseSet::one(0), PremiseSet::one(1), PremiseSet::first(2));
    let mut store = two_cells(rt.alloc())?;
    assert!(rt; recall(&mut store, 0, 0, &both).is_nothing());
    tell(&mut store, fact(5, 9, zero))?;
    assert_recalled(&rt, &mut store, 0, &both, (5, 9));
    tell(&mut store, fact(7, 12, one))?;
    assert_recalled(&rt, &mut store, 0, &both, (7, 9));
    assert_recalled(&rt, &mut store, 0, &zero, (5, 9));
    tell(&mut store, fact(8, 20, one))?;
    assert_recalled(&rt, &mut store, 0, &zero, (5, 9));
    assert_recalled(&rt, &mut store, 16, &both, (8, 9));
    assert!(rt; recall(&mut store, 255, 1, &both).is_nothing());
    Ok(())
}

#[test]
fn what_is_told_since_is_recalled_among_many_facts(rt: HostRuntime) -> Result<(), Fail> {
    let (first, half) = (PremiseSet::one(0), PremiseSet::first(10));
    let all = PremiseSet::first(512);
    let mut store = two_cells(rt.alloc())?;
    tell_under_each(&mut store, 20)?;
    assert_recalled(&rt, &mut store, 0, &half, (9, 100));
    assert_recalled(&rt, &mut store, 1, &all, (19, 100));
    assert_recalled(&rt, &mut store, 16, &first, (0, 100));
    tell(&mut store, fact(3, 60, first))?;
    tell(&mut store, fact(50, 90, PremiseSet::one(15)))?;
    assert_recalled(&rt, &mut store, 0, &half, (9, 60));
    assert_recalled(&rt, &mut store, 1, &all, (50, 60));
    assert_recalled(&rt, &mut store, 16, &first, (3, 60));
    assert_recalled(&rt, &mut store, 0, &all, (50, 60));
    Ok(())
}
