//! A store of facts over an allocator that refuses each allocation growth in turn. A refusal
//! changes nothing, and the same call gets its answer once there is memory.
ghost use Rattle.std.specs.Prelude.{◌≡◌, [], ◌∷◌, OnOk};
ghost use Rattle.pw_info.specs.Information.{kind_of};
ghost use Rattle.pw_cells.specs.Cells.{kinds_of};

use pw_cells::CellStore;
use pw_facts::Fact;
use pw_info::{Info, Kind};
use pw_premises::PremiseSet;
use pw_testing::Refusing;
use pw_testing::facts::fact;
use std::alloc::{Allocator, Global};
use std::process::Abort;
use std::test::Fail;

// What the store shows of its first cell to one who believes the first two premises.
fn shown<A: Allocator + Copy>(store: &mut CellStore<A>) -> (Info, Fact)
    requires { kinds_of store.old ≡ Kind.Interval ∷ Kind.Exact ∷ [] }
    ensures { store.new ≡ store.old }
{
    let both = PremiseSet::first(2);
    (store.told(0, &both), store.kept(0, &both))
}

// Adds an interval cell and an exact one to a store without cells, a second time if memory is
// refused. Answers 1 if it was refused, and else 0.
fn add<A: Allocator + Copy>(store: &mut CellStore<A>) -> Result<u32, Fail>
    requires { store.old.cells ≡ [] }
    ensures { OnOk result (kinds_of store.new ≡ Kind.Interval ∷ Kind.Exact ∷ []) }
{
    let mut refused = 0;
    if store.reserve(1).is_err() {
        refused = 1;
        store.reserve(1)?;
    }
    let kinds = [Kind::Interval, Kind::Exact];
    if store.add_cells(&kinds).is_err() {
        (store.cells() == 0)
            .then_some(())
            .ok_or("a refused call added a cell")?;
        refused = 1;
        store.add_cells(&kinds)?;
    }
    Ok(refused)
}

// Tells a fact of the interval cell, a second time if memory is refused. Answers how often it was
// refused.
fn tell<A: Allocator + Copy>(store: &mut CellStore<A>, fact: &Fact) -> Result<u32, Fail>
    requires cells { kinds_of store.old ≡ Kind.Interval ∷ Kind.Exact ∷ [] }
    requires kind { kind_of fact.now.info ≡ Kind.Interval }
    ensures { kinds_of store.new ≡ Kind.Interval ∷ Kind.Exact ∷ [] }
{
    let before = shown(store);
    if store.tell(0, *fact).is_ok() {
        return Ok(0);
    }
    (shown(store) == before)
        .then_some(())
        .ok_or("a refused tell changed what is shown")?;
    store.tell(0, *fact)?;
    Ok(1)
}

// Keeps a fact of the interval cell, a second time if memory is refused. Answers how often it was
// refused.
fn keep<A: Allocator + Copy>(store: &mut CellStore<A>, fact: &Fact) -> Result<u32, Fail>
    requires cells { kinds_of store.old ≡ Kind.Interval ∷ Kind.Exact ∷ [] }
    requires kind { kind_of fact.now.info ≡ Kind.Interval }
    ensures { kinds_of store.new ≡ Kind.Interval ∷ Kind.Exact ∷ [] }
{
    let before = shown(store);
    if store.keep(0, *fact).is_ok() {
        return Ok(0);
    }
    (shown(store) == before)
        .then_some(())
        .ok_or("a refused keep changed what is shown")?;
    store.keep(0, *fact)?;
    Ok(1)
}

// Tells and keeps facts of the interval cell, each call a second time if memory is refused. One of
// them rests on a premise past 63, so the cell needs room for wide supports. Answers how often a call
// was refused.
fn tell_and_keep<A: Allocator + Copy>(store: &mut CellStore<A>) -> Result<u32, Fail>
    requires { kinds_of store.old ≡ Kind.Interval ∷ Kind.Exact ∷ [] }
    ensures { kinds_of store.new ≡ Kind.Interval ∷ Kind.Exact ∷ [] }
{
    let (zero, one) = (PremiseSet::one(0), PremiseSet::one(1));
    let told = tell(store, &fact(0, 9, zero))?;
    let kept = keep(store, &fact(3, 12, one))?;
    let wide = tell(store, &fact(2, 11, PremiseSet::one(200)))?;
    let again = tell(store, &fact(4, 10, one))?;
    Ok(
        told.saturating_add(kept)
            .saturating_add(wide)
            .saturating_add(again),
    )
}

// Fills a new store. Answers how often a call was refused, and what the store shows in the end.
fn shown_at_last<A: Allocator + Copy>(memory: A) -> Result<(u32, Info, Fact), Fail> {
    let mut store = CellStore::new(memory);
    let added = add(&mut store)?;
    let refused = tell_and_keep(&mut store)?;
    let (info, known) = shown(&mut store);
    Ok((added.saturating_add(refused), info, known))
}

// Checks what a store shows in the end over an allocator that refuses the growth of this number, and
// that there was no such growth if no call was refused. Answers how often a call was refused.
fn assert_shown_at_last<R: Abort>(
    rt: &R,
    refusing: &Refusing<Global>,
    at: u64,
) -> Result<u32, Fail> {
    let zero = PremiseSet::one(0);
    let (refused, info, known) = shown_at_last(refusing)?;
    assert!(rt; info == fact(4, 9, zero).info, "at {at}");
    assert!(rt; known == fact(4, 9, PremiseSet::first(2)), "at {at}");
    assert!(rt; refused > 0 || refusing.calls() < at, "at {at}");
    Ok(refused)
}

#[test]
fn a_refused_call_changes_nothing(rt: HostRuntime) -> Result<(), Fail> {
    let mut met = 0u32;
    for at in 1..40u64 {
        let refusing = Refusing::nth(rt.alloc(), at);
        if assert_shown_at_last(&rt, &refusing, at)? == 0 {
            break;
        }
        met = met.saturating_add(1);
    }
    assert!(rt; met > 2, "{met} growths were refused");
    Ok(())
}
