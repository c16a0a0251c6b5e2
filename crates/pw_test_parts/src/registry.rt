//! Tests of registries: lists of procedures under several names; and fifteen procedures, under the
//! names of the program's, over an allocator that refuses growths. A refused registry hands the list
//! of procedures back whole, and the list makes a registry once there is memory.

use pw_info::{Info, Kind};
use pw_procs::{Body, Meaning, Registry, RegistryFault, Signature, Slot, Stored, bodies};
use pw_testing::Refusing;
use std::alloc::{Allocator, Global};
use std::process::Abort;
use std::test::Fail;

// The names of the program's procedures, in their order.
const NAMES: [&str; 15] = [
    "sign",
    "adder",
    "subtractor",
    "multiplier",
    "squarer",
    "divider",
    "at_most",
    "equal",
    "inverter",
    "conjoiner",
    "disjoiner",
    "switch",
    "copy",
    "point",
    "fixed",
];

// What a list of copying procedures under some names comes to: the fault, the number of procedures
// in the registry or in the list handed back, and the numbers of the last name and of `sum`.
#[derive(Clone, Copy, Debug, PartialEq, Eq)]
struct Outcome {
    fault: Option<RegistryFault>,
    len: usize,
    last: Option<u8>,
    sum: Option<u8>,
}

fn refused(fault: RegistryFault, len: usize) -> Outcome {
    Outcome {
        fault: Some(fault),
        len,
        last: None,
        sum: None,
    }
}

// The number of a name, if the procedure of that number has the name and copies.
fn find_copier(registry: &Registry, name: &str) -> Option<u8> {
    let number = registry.find(name.as_bytes())?;
    let copier = registry.get(number);
    let inputs = [Info::nothing(Kind::Exact)];
    let fits = copier.signature().fits(&inputs);
    if fits && copier.name() == name && copier.call(&inputs) == inputs[0] {
        return Some(number);
    }
    None
}

fn observe(registered: Result<Registry, (RegistryFault, Vec<Stored>)>, names: &[&str]) -> Outcome {
    match registered {
        Ok(registry) => Outcome {
            fault: None,
            len: registry.len(),
            last: match names {
                [.., last] => find_copier(&registry, last),
                [] => None,
            },
            sum: registry.find(b"sum"),
        },
        Err((fault, list)) => refused(fault, list.len()),
    }
}

fn register(alloc: Global, names: &[&str]) -> Result<Outcome, Fail> {
    let signature = Signature::new(&[Slot::Same], Slot::Same).ok_or("no signature")?;
    let mut list = Vec::new(alloc);
    for name in names {
        let body: Body = Box::new(alloc, bodies::copy)?;
        list.push(Stored::new(
            String::from_str(alloc, name)?,
            signature,
            Meaning::Copy,
            body,
        ))?;
    }
    Ok(observe(Registry::new(alloc, list), names))
}

#[test]
fn names_of_procedures(rt: HostRuntime) -> Result<(), Fail> {
    for (names, fault) in [
        (["adder", "adder"].as_slice(), RegistryFault::DuplicateName),
        (["Add"].as_slice(), RegistryFault::BadName),
        (["adder", "sum"].as_slice(), RegistryFault::BadName),
        (["product"].as_slice(), RegistryFault::BadName),
        (["conditional"].as_slice(), RegistryFault::BadName),
        (
            ["adder", "adder", "Add"].as_slice(),
            RegistryFault::DuplicateName,
        ),
        (["adder", "Add", "adder"].as_slice(), RegistryFault::BadName),
        (["adder"; 65].as_slice(), RegistryFault::TooMany),
    ] {
        assert!(rt; register(rt.alloc(), names)? == refused(fault, names.len()));
    }
    Ok(())
}

#[test]
fn numbers_of_procedures(rt: HostRuntime) -> Result<(), Fail> {
    for (names, last) in [
        ([].as_slice(), None),
        (["adder", "summer"].as_slice(), Some(1)),
        (NAMES.as_slice(), Some(14)),
    ] {
        let found = Outcome {
            fault: None,
            len: names.len(),
            last,
            sum: None,
        };
        assert!(rt; register(rt.alloc(), names)? == found);
    }
    Ok(())
}

// Checks that the registry finds each procedure by its name.
fn finds_all<R: Abort, A: Allocator + Copy>(rt: &R, registry: &Registry<A>) {
    for (number, name) in NAMES.iter().enumerate() {
        assert!(rt;
            registry.find(name.as_bytes()) == Some(number as u8),
            "{name}"
        );
    }
}

// Checks that the list has all procedures, in their order.
fn is_whole<R: Abort>(rt: &R, list: &[Stored], at: u64) {
    assert!(rt; list.len() == NAMES.len(), "at {at}");
    for (entry, name) in list.iter().zip(NAMES) {
        assert!(rt; entry.name() == name, "at {at}");
    }
}

// Refuses each growth in turn, with all later ones and then alone. Checks that the list comes back
// whole each time, and that it makes a registry in the end.
fn is_handed_back<R: Abort + AllocGlobal>(rt: &R, list: Vec<Stored>) -> Result<(), Fail> {
    let mut entries = list;
    for turn in 2..200u64 {
        let at = turn / 2;
        let refusing = if turn % 2 == 0 {
            Refusing::all_from(rt.alloc(), at)
        } else {
            Refusing::nth(rt.alloc(), at)
        };
        match Registry::new(&refusing, entries) {
            Ok(registry) => {
                assert!(rt; refusing.calls() < at && at > 15, "at {at}");
                finds_all(rt, &registry);
                return Ok(());
            }
            Err((fault, back)) => {
                assert!(rt; fault == RegistryFault::Memory, "at {at}");
                is_whole(rt, &back, at);
                entries = back;
            }
        }
        assert!(rt; refusing.given_back() == refusing.taken(), "at {at}");
    }
    Err("some growth was always refused".into())
}

#[test]
fn a_refused_registry_hands_its_list_back(rt: HostRuntime) -> Result<(), Fail> {
    let signature = Signature::new(&[Slot::Same], Slot::Same).ok_or("no signature")?;
    let mut list = Vec::new(rt.alloc());
    for name in NAMES {
        let body: Body = Box::new(rt.alloc(), bodies::copy)?;
        list.push(Stored::new(
            String::from_str(rt.alloc(), name)?,
            signature,
            Meaning::Copy,
            body,
        ))?;
    }
    is_handed_back(&rt, list)
}
