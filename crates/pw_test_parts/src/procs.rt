//! Tests of procedures: their values, signatures and cells.

use pw_info::{Info, Kind, SetKind};
use pw_kinds::{Exact, Interval, Members};
use pw_procs::{Arguments, Signature, Slot};
use std::process::Abort;
use std::test::Fail;

mod stored;
mod values;

// Checks that these are the cells of their arguments.
fn are_cells<R: Abort>(rt: &R, cells: &[u32]) -> Result<(), Fail> {
    let arguments = Arguments::of(cells).ok_or("no arguments")?;
    assert!(rt; arguments.cells() == cells);
    Ok(())
}

#[test]
fn one_to_nine_cells(rt: HostRuntime) -> Result<(), Fail> {
    let cells = [7, 0, 7, 1023, 1, 2, 3, 4, u32::MAX, 5];
    for count in [0, 10] {
        assert!(rt; Arguments::of(&cells[..count]).is_none(), "{count}");
    }
    for count in [1, 2, 8, 9] {
        are_cells(&rt, &cells[..count])?;
    }
    assert!(rt; Arguments::of(&[1]) != Arguments::of(&[1, 0]));
    Ok(())
}

const TRUTH: Kind = Kind::Members(SetKind { number: 0, size: 2 });

#[test]
fn slots_of_a_procedure(rt: HostRuntime) {
    let number = Slot::Fixed(Kind::Interval);
    assert!(rt; Signature::new(&[], number).is_none());
    assert!(rt; Signature::new(&[number; 9], number).is_none());
    assert!(rt; Signature::new(&[number], Slot::Same).is_none());
    assert!(rt; Signature::new(&[number; 8], number).is_some());
    assert!(rt; Signature::new(&[number, Slot::Same], Slot::Same).is_some());
}

// A switch: a truth, an information of any kind, and one of that kind out.
fn switch() -> Result<Signature, Fail> {
    let inputs = [Slot::Fixed(TRUTH), Slot::Same];
    Ok(Signature::new(&inputs, Slot::Same).ok_or("no signature")?)
}

#[test]
fn kinds_of_cells(rt: HostRuntime) -> Result<(), Fail> {
    let switch = switch()?;
    let sign = Kind::Members(SetKind { number: 1, size: 3 });
    for (kinds, accepted) in [
        ([TRUTH, sign, sign].as_slice(), true),
        ([TRUTH, TRUTH, TRUTH].as_slice(), true),
        ([TRUTH, Kind::Exact, Kind::Exact].as_slice(), true),
        ([TRUTH, Kind::Exact, Kind::Interval].as_slice(), false),
        ([TRUTH, TRUTH, sign].as_slice(), false),
        ([sign, TRUTH, TRUTH].as_slice(), false),
        ([TRUTH, sign].as_slice(), false),
        ([TRUTH, sign, sign, sign].as_slice(), false),
        ([].as_slice(), false),
    ] {
        assert!(rt; switch.accepts(kinds) == accepted, "{kinds:?}");
    }
    Ok(())
}

#[test]
fn informations_of_inputs(rt: HostRuntime) -> Result<(), Fail> {
    let equal = Signature::new(&[Slot::Same, Slot::Same], Slot::Fixed(TRUTH)).ok_or(
        "no signature",
    )?;
    let number = Info::of_interval(Interval::whole());
    let exact = Info::of_exact(Exact::any());
    let truth = Info::of_members(0, Members::full(2));
    for (inputs, fit) in [
        ([number, number].as_slice(), true),
        ([truth, truth].as_slice(), true),
        ([number, exact].as_slice(), false),
        ([truth, exact].as_slice(), false),
        ([exact].as_slice(), false),
        ([exact, exact, exact].as_slice(), false),
    ] {
        assert!(rt; equal.fits(inputs) == fit, "{inputs:?}");
    }
    Ok(())
}

#[test]
fn informations_of_inputs_of_a_switch(rt: HostRuntime) -> Result<(), Fail> {
    let exact = Info::of_exact(Exact::any());
    let truth = Info::of_members(0, Members::full(2));
    let switch = switch()?;
    assert!(rt; switch.fits(&[truth, exact]));
    assert!(rt; !switch.fits(&[exact, exact]));
    Ok(())
}
