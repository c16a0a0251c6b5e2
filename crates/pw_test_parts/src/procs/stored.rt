//! Each procedure by its stored closure, at the calls whose values were found by hand.

use super::values::{Call, from_to, number_calls, other_calls, truth_calls};
use pw_info::{Info, SetKind};
use pw_procs::{Body, Meaning, Registry, Stored, add_of_table, bodies, members_of_mask};
use pw_testing::procedures::{OverRegistry, SOUND, over_procedures};
use std::process::Abort;
use std::test::Fail;

// The name of the procedure of a meaning.
fn name_of(meaning: &Meaning) -> &'static str {
    match meaning {
        Meaning::Adder => "adder",
        Meaning::Subtractor => "subtractor",
        Meaning::Multiplier => "multiplier",
        Meaning::Squarer => "squarer",
        Meaning::Divider => "divider",
        Meaning::AtMost => "at_most",
        Meaning::Equal => "equal",
        Meaning::Inverter => "inverter",
        Meaning::Conjoiner => "conjoiner",
        Meaning::Disjoiner => "disjoiner",
        Meaning::Switch => "switch",
        Meaning::Copy => "copy",
        Meaning::Point => "point",
        Meaning::Fixed => "fixed",
        Meaning::Rules(_) => "rules",
    }
}

// What a procedure gives on inputs that fit.
fn given(stored: &Stored, inputs: &[Info]) -> Option<Info> {
    if !stored.signature().fits(inputs) {
        return None;
    }
    Some(stored.call(inputs))
}

// Checks that a procedure gives the value of a call.
fn is_given<R: Abort>(rt: &R, stored: &Stored, call: &Call) {
    assert!(rt; given(stored, call.inputs()) == Some(call.want), "{call:?}");
}

// Checks that a procedure gives the values of the calls of its name. Answers how many there are.
fn tell_calls<R: Abort>(rt: &R, stored: &Stored, calls: &[Call]) -> u32 {
    let mut called = 0u32;
    for call in calls {
        if name_of(&call.meaning) == stored.name() {
            called = called.saturating_add(1);
            is_given(rt, stored, call);
        }
    }
    called
}

// Checks this for each procedure of the list, and that there are some calls of each.
fn tell_all<R: Abort>(rt: &R, list: &[Stored], calls: &[Call]) {
    for stored in list {
        let called = tell_calls(rt, stored, calls);
        assert!(rt; called > 0, "no call of {}", stored.name());
    }
}

#[test]
fn numbers(rt: HostRuntime) -> Result<(), Fail> {
    let alloc = rt.alloc();
    let mut list = Vec::new(alloc);
    let body: Body = Box::new(alloc, bodies::adder)?;
    add_of_table(alloc, &mut list, "adder", Meaning::Adder, body)?;
    let body: Body = Box::new(alloc, bodies::subtractor)?;
    add_of_table(alloc, &mut list, "subtractor", Meaning::Subtractor, body)?;
    let body: Body = Box::new(alloc, bodies::multiplier)?;
    add_of_table(alloc, &mut list, "multiplier", Meaning::Multiplier, body)?;
    let body: Body = Box::new(alloc, bodies::squarer)?;
    add_of_table(alloc, &mut list, "squarer", Meaning::Squarer, body)?;
    let body: Body = Box::new(alloc, bodies::divider)?;
    add_of_table(alloc, &mut list, "divider", Meaning::Divider, body)?;
    let body: Body = Box::new(alloc, bodies::copy)?;
    add_of_table(alloc, &mut list, "copy", Meaning::Copy, body)?;
    tell_all(&rt, &list, &number_calls());
    Ok(())
}

#[test]
fn truths(rt: HostRuntime) -> Result<(), Fail> {
    let alloc = rt.alloc();
    let mut list = Vec::new(alloc);
    let body: Body = Box::new(alloc, bodies::at_most)?;
    add_of_table(alloc, &mut list, "at_most", Meaning::AtMost, body)?;
    let body: Body = Box::new(alloc, bodies::equal)?;
    add_of_table(alloc, &mut list, "equal", Meaning::Equal, body)?;
    let body: Body = Box::new(alloc, bodies::inverter)?;
    add_of_table(alloc, &mut list, "inverter", Meaning::Inverter, body)?;
    let body: Body = Box::new(alloc, bodies::conjoiner)?;
    add_of_table(alloc, &mut list, "conjoiner", Meaning::Conjoiner, body)?;
    let body: Body = Box::new(alloc, bodies::disjoiner)?;
    add_of_table(alloc, &mut list, "disjoiner", Meaning::Disjoiner, body)?;
    tell_all(&rt, &list, &truth_calls());
    Ok(())
}

#[test]
fn others(rt: HostRuntime) -> Result<(), Fail> {
    let alloc = rt.alloc();
    let mut list = Vec::new(alloc);
    let body: Body = Box::new(alloc, bodies::equal)?;
    add_of_table(alloc, &mut list, "equal", Meaning::Equal, body)?;
    let body: Body = Box::new(alloc, bodies::switch)?;
    add_of_table(alloc, &mut list, "switch", Meaning::Switch, body)?;
    let body: Body = Box::new(alloc, bodies::point)?;
    add_of_table(alloc, &mut list, "point", Meaning::Point, body)?;
    let body: Body = Box::new(alloc, bodies::fixed)?;
    add_of_table(alloc, &mut list, "fixed", Meaning::Fixed, body)?;
    tell_all(&rt, &list, &other_calls());
    Ok(())
}

// Checks that a procedure gives the members of these masks for these intervals.
fn tells<R: Abort>(rt: &R, stored: &Stored, set: SetKind, calls: &[((i64, i64), u128)]) {
    for (ends, mask) in calls {
        let got = given(stored, &[from_to(*ends)]);
        assert!(rt; got == Some(members_of_mask(set, *mask)), "{ends:?}");
    }
}

// Calls `light` over a registry.
#[derive(Drop)]
struct Lighting<'r, R> {
    rt: &'r R,
}

impl<R: Abort> OverRegistry for Lighting<'_, R> {
    type Answer = Result<(), Fail>;

    fn over(self, registry: &Registry) -> Result<(), Fail> {
        let number = registry.find(b"light").ok_or("no light")?;
        let calls = [
            ((5, 9), 0b001),
            ((9, 10), 0b011),
            ((0, 20), 0b111),
            ((0, 4), 0b001),
            ((1, 0), 0),
        ];
        let set = SetKind { number: 2, size: 3 };
        tells(self.rt, registry.get(number), set, &calls);
        Ok(())
    }
}

#[test]
fn light(rt: HostRuntime) -> Result<(), Fail> {
    over_procedures(rt.alloc(), SOUND, Lighting { rt: &rt })?
}
