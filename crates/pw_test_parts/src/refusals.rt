//! Tests of refused growths: the allocator itself, and declarations on it.

use crate::declarations::{Counts, counted};
use pw_decl::DeclFaultKind;
use pw_testing::Refusing;
use pw_testing::procedures::SOUND;
use pw_testing::worlds::GENERAL;
use std::alloc::{Allocator, Global};
use std::process::Abort;
use std::test::Fail;

/// A list takes room for 4 small numbers first, then for 8, then for 16.
const PUSHES: u64 = 9;

/// The number of refused pushes. A refused push leaves the list as it was.
fn refused_pushes<A: Allocator>(alloc: A) -> u64 {
    let mut list = Vec::new(alloc);
    let mut refused = 0u64;
    for number in 0..PUSHES {
        if list.push(number).is_err() {
            refused = refused.saturating_add(1);
        }
    }
    refused
}

// Checks that `refused` pushes are refused, and that the list asks for three growths.
fn refuses<R: Abort>(rt: &R, refusing: &Refusing<Global>, refused: u64, at: u64) {
    assert!(rt; refused_pushes(refusing) == refused, "at {at}");
    assert!(rt; refusing.calls() == 3, "at {at}");
}

#[test]
fn each_growth_of_a_list_refused(rt: HostRuntime) {
    for at in 1..4u64 {
        let refusing = Refusing::nth(rt.alloc(), at);
        refuses(&rt, &refusing, 1, at);
    }
}

#[test]
fn no_growth_refused(rt: HostRuntime) {
    for at in [0u64, 4, u64::MAX] {
        refuses(&rt, &Refusing::nth(rt.alloc(), at), 0, at);
        refuses(&rt, &Refusing::all_from(rt.alloc(), at), 0, at);
    }
}

#[test]
fn every_later_growth_refused(rt: HostRuntime) {
    for (at, refused) in [(1u64, PUSHES), (2, 5), (3, 1)] {
        let refusing = Refusing::all_from(rt.alloc(), at);
        assert!(rt; refused_pushes(&refusing) == refused, "all from {at}");
    }
}

/// The form of a test under refusals: it raises `at` until a run meets no refusal.
#[test]
fn a_loop_ends_where_no_growth_is_refused(rt: HostRuntime) {
    let mut runs = 0u64;
    for at in 1..100u64 {
        let refusing = Refusing::nth(rt.alloc(), at);
        runs = at;
        let refused = refused_pushes(&refusing);
        if refusing.calls() < at {
            assert!(rt; refused == 0);
            break;
        }
        assert!(rt; refused == 1, "at {at}");
    }
    assert!(rt; runs == 4);
}

#[test]
fn what_is_held_is_not_given_back_yet(rt: HostRuntime) -> Result<(), Fail> {
    let refusing = Refusing::nth(rt.alloc(), 0);
    let mut list = Vec::new(&refusing);
    for number in 0..5u64 {
        list.push(number)?;
    }
    // Room for 4 numbers of 8 bytes, given back for room for 8 of them.
    assert!(rt; refusing.taken() == 96 && refusing.given_back() == 32);
    drop(list);
    assert!(rt; refusing.taken() == 96 && refusing.given_back() == 96);
    Ok(())
}

// Checks that what the pushes took is this, and that it was given back.
fn is_taken<R: Abort>(rt: &R, refusing: &Refusing<Global>, taken: u64, at: u64) {
    refused_pushes(refusing);
    assert!(rt; refusing.taken() == taken, "at {at}");
    assert!(rt; refusing.given_back() == taken, "at {at}");
}

// The next push asks again for a refused growth. The nine pushes ask for three growths in all.
#[test]
fn what_is_refused_is_not_taken(rt: HostRuntime) {
    for (at, taken) in [(0u64, 224u64), (1, 96), (2, 96), (3, 96), (4, 224)] {
        is_taken(&rt, &Refusing::nth(rt.alloc(), at), taken, at);
    }
    for (at, taken) in [(1u64, 0u64), (2, 32), (3, 96), (4, 224)] {
        is_taken(&rt, &Refusing::all_from(rt.alloc(), at), taken, at);
    }
}

// What the declaration declares.
const WHOLE: Counts = Counts {
    users: 2,
    premises: 4,
    cells: 9,
    sets: 1,
    compounds: 1,
};

// Checks that the reader reads the declaration whole if no growth was refused, and else reports
// that memory ran out. Checks that it gives back all memory that it took. Answers whether a growth
// was refused.
fn is_read_or_refused<R: Abort + AllocGlobal>(
    rt: &R,
    refusing: &Refusing<Global>,
    at: u64,
) -> Result<bool, Fail> {
    let read = counted(rt.alloc(), refusing, SOUND, GENERAL)?;
    assert!(rt; refusing.given_back() == refusing.taken(), "at {at}");
    let is_refused = refusing.calls() >= at;
    match read {
        Ok(counts) => assert!(rt; !is_refused && counts == WHOLE, "at {at}"),
        Err(fault) => {
            assert!(rt; is_refused && fault.why == DeclFaultKind::Memory, "at {at}");
        }
    }
    Ok(is_refused)
}

#[test]
fn a_declaration_is_read_or_memory_is_told(rt: HostRuntime) -> Result<(), Fail> {
    let mut met = 0u64;
    for at in 1..1000u64 {
        let alone = Refusing::nth(rt.alloc(), at);
        let later = Refusing::all_from(rt.alloc(), at);
        let is_refused = is_read_or_refused(&rt, &alone, at)?;
        assert!(rt;
            is_read_or_refused(&rt, &later, at)? == is_refused,
            "at {at}"
        );
        if !is_refused {
            break;
        }
        met = at;
    }
    assert!(rt; met > 40 && met < 999, "{met} growths were refused");
    Ok(())
}
