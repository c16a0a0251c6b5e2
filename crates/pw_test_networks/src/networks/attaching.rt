//! What attachments add to a network.

use super::{Attachment, at_line, attached};
use pw_info::{Kind, SetKind};
use pw_network::NetworkFault;
use pw_premises::PremiseSet;
use pw_testing::texts::ended;
use pw_testing::worlds::GENERAL;
use std::alloc::{AllocError, Global};
use std::process::Abort;
use std::test::Fail;

// Two measures of a building: its height, the length of its shadow.
const BUILDING: &str =
    "workbench 1\nuser ann\nuser bob\npremise shadow of ann\npremise super of bob\n\
cell h interval\ncell bs interval\ncell s interval\ncell p interval\ncell hh interval\n";

// Compounds of compounds.
pub const MANY: &str =
    "workbench 1\ncell x interval\ncell y interval\ncell t interval\ncell e bool\ncell f bool\n\
compound apart p interval q interval\nlocal d interval\ncopy p d\ncopy q d\nend\n\
compound deep a interval b interval\nlocal m interval\napart a m\nlocal n interval\napart m n\ncopy n b\nend\n\
compound deeper a interval b interval\ndeep a b\nlocal m interval\ndeep m a\nend\n\
compound bare a interval\nend\n";

/// Checks that the text has these lines, and no other.
pub fn has_lines<R: Abort + AllocGlobal>(rt: &R, text: &str, lines: &[&str]) -> Result<(), Fail> {
    let wanted = ended(rt.alloc(), lines)?;
    assert_eq!(rt; text, wanted.as_str());
    Ok(())
}

// Checks that these attachments to a network over the text give these instances and these readers.
fn gives<R: Abort + AllocGlobal>(
    rt: &R,
    text: &str,
    attachments: &[Attachment<'_>],
    instances: &[&str],
    readers: &[&str],
) -> Result<(), Fail> {
    let shown = attached(rt.alloc(), text, attachments)?;
    assert_eq!(rt; shown.fault, None);
    has_lines(rt, shown.instances.as_str(), instances)?;
    has_lines(rt, shown.readers.as_str(), readers)
}

// Checks that these attachments to `GENERAL` make one cell, of the kind `bool`.
fn makes_a_truth<R: Abort + AllocGlobal>(
    rt: &R,
    attachments: &[Attachment<'_>],
) -> Result<(), Fail> {
    let shown = attached(rt.alloc(), GENERAL, attachments)?;
    assert_eq!(rt; shown.kinds.len(), 10);
    let truth = Kind::Members(SetKind { number: 0, size: 2 });
    assert_eq!(rt; shown.kinds.get(9), Some(&truth), "of kind bool");
    Ok(())
}

// Checks that an attachment to `GENERAL`, at line 7, is refused and attaches nothing.
fn is_refused<R: Abort + AllocGlobal>(rt: &R, attachment: &[Attachment<'_>]) -> Result<(), Fail> {
    let shown = attached(rt.alloc(), GENERAL, attachment)?;
    assert_eq!(rt; shown.fault, Some((7, NetworkFault::WrongArguments)));
    assert_eq!(rt; (shown.kinds.len(), shown.instances.as_str()), (9, ""));
    Ok(())
}

#[test]
fn product_under_a_premise(rt: HostRuntime) -> Result<(), Fail> {
    let product = Attachment {
        line: 1,
        callable: "product",
        cells: &["h", "bs", "p"],
        support: PremiseSet::one(0),
    };
    gives(
        &rt,
        BUILDING,
        &[product],
        &[
            "1: multiplier h bs -> p under 0",
            "1: divider p h -> bs under 0",
            "1: divider p bs -> h under 0",
        ],
        &["h: 0 1", "bs: 0 2", "s:", "p: 1 2", "hh:"],
    )
}

#[test]
fn conditional_has_a_cell_of_its_own(rt: HostRuntime) -> Result<(), Fail> {
    let conditional = [at_line(7, "conditional", &["e", "x", "y", "t"])];
    gives(
        &rt,
        GENERAL,
        &conditional,
        &[
            "7: inverter e -> 7.0",
            "7: switch e x -> t",
            "7: switch 7.0 y -> t",
        ],
        &[
            "x: 1", "y: 2", "t:", "k:", "m:", "e: 0 1", "g:", "w:", "q:", "7.0: 2",
        ],
    )?;
    makes_a_truth(&rt, &conditional)?;
    let short = [at_line(7, "conditional", &["e", "x", "y"])];
    is_refused(&rt, &short)
}

#[test]
fn procedures_and_cells_named_twice(rt: HostRuntime) -> Result<(), Fail> {
    gives(
        &rt,
        MANY,
        &[
            at_line(1, "adder", &["x", "y", "x"]),
            at_line(2, "adder", &["x", "x", "t"]),
            at_line(5, "inverter", &["e", "e"]),
        ],
        &[
            "1: adder x y -> x",
            "2: adder x x -> t",
            "5: inverter e -> e",
        ],
        &["x: 0 1", "y: 0", "t:", "e: 2", "f:"],
    )
}

#[test]
fn writers_of_declared_cells(rt: HostRuntime) -> Result<(), Fail> {
    let attachments = [
        at_line(1, "adder", &["x", "y", "x"]),
        at_line(2, "adder", &["x", "x", "t"]),
        at_line(3, "deep", &["x", "y"]),
        at_line(4, "copy", &["y", "x"]),
    ];
    let shown = attached(rt.alloc(), MANY, &attachments)?;
    has_lines(
        &rt,
        shown.writers.as_str(),
        &["x: 0 7", "y: 6", "t: 1", "e:", "f:"],
    )
}

#[test]
fn inner_cells_are_met_depth_first(rt: HostRuntime) -> Result<(), Fail> {
    gives(
        &rt,
        MANY,
        &[at_line(3, "deep", &["x", "y"])],
        &[
            "3: copy x -> 3.1",
            "3: copy 3.0 -> 3.1",
            "3: copy 3.0 -> 3.3",
            "3: copy 3.2 -> 3.3",
            "3: copy 3.2 -> y",
        ],
        &[
            "x: 0", "y:", "t:", "e:", "f:", "3.0: 1 2", "3.1:", "3.2: 3 4", "3.3:",
        ],
    )
}

#[test]
fn a_local_met_again_is_another_cell(rt: HostRuntime) -> Result<(), Fail> {
    gives(
        &rt,
        MANY,
        &[at_line(4, "deeper", &["x", "y"])],
        &[
            "4: copy x -> 4.1",
            "4: copy 4.0 -> 4.1",
            "4: copy 4.0 -> 4.3",
            "4: copy 4.2 -> 4.3",
            "4: copy 4.2 -> y",
            "4: copy 4.4 -> 4.6",
            "4: copy 4.5 -> 4.6",
            "4: copy 4.5 -> 4.8",
            "4: copy 4.7 -> 4.8",
            "4: copy 4.7 -> x",
        ],
        &[
            "x: 0", "y:", "t:", "e:", "f:", "4.0: 1 2", "4.1:", "4.2: 3 4", "4.3:", "4.4: 5",
            "4.5: 6 7", "4.6:", "4.7: 8 9", "4.8:",
        ],
    )
}

#[test]
fn attachments_have_inner_cells_of_their_own(rt: HostRuntime) -> Result<(), Fail> {
    gives(
        &rt,
        MANY,
        &[
            at_line(2, "apart", &["x", "y"]),
            at_line(3, "bare", &["x"]),
            at_line(9, "apart", &["x", "x"]),
        ],
        &[
            "2: copy x -> 2.0",
            "2: copy y -> 2.0",
            "9: copy x -> 9.0",
            "9: copy x -> 9.0",
        ],
        &["x: 0 2 3", "y: 1", "t:", "e:", "f:", "2.0:", "9.0:"],
    )
}

// Checks that a callable does not take these cells of `MANY`, and that only what was attached
// before stays.
fn are_wrong<R: Abort + AllocGlobal>(rt: &R, callable: &str, cells: &[&str]) -> Result<(), Fail> {
    let tried = [at_line(1, "copy", &["x", "y"]), at_line(7, callable, cells)];
    let shown = attached(rt.alloc(), MANY, &tried)?;
    assert_eq!(rt;
        shown.fault,
        Some((7, NetworkFault::WrongArguments)),
        "{callable}"
    );
    assert_eq!(rt; shown.instances.as_str(), "1: copy x -> y\n");
    assert_eq!(rt; (shown.kinds.len(), shown.last_line), (5, 1));
    Ok(())
}

#[test]
fn wrong_arguments_attach_nothing(rt: HostRuntime) -> Result<(), Fail> {
    let wrong: [(&str, &[&str]); 5] = [
        ("conditional", &["e", "x", "y"]),
        ("conditional", &["x", "x", "y", "t"]),
        ("adder", &["x", "y", "e"]),
        ("adder", &["x", "y"]),
        ("apart", &["x", "e"]),
    ];
    for (callable, cells) in wrong {
        are_wrong(&rt, callable, cells)?;
    }
    Ok(())
}

// A header, two cells, and a compound `wide p interval q interval` that makes 256 calls.
fn with_calls(alloc: Global) -> Result<String, AllocError> {
    let mut text = String::from_str(alloc, WIDE)?;
    for _ in 0..256 {
        text.push_str("copy p q\n")?;
    }
    text.push_str("end\n")?;
    Ok(text)
}

// The same, with a compound that has 256 private cells.
fn with_locals(alloc: Global) -> Result<String, AllocError> {
    let mut text = String::from_str(alloc, WIDE)?;
    for number in 0..256 {
        writeln!(text, "local d{number} bool")?;
    }
    text.push_str("end\n")?;
    Ok(text)
}

const WIDE: &str =
    "workbench 1\ncell x interval\ncell y interval\ncompound wide p interval q interval\n";

// Checks that the compound with the most calls makes that many instances.
fn makes_256_calls<R: Abort + AllocGlobal>(rt: &R) -> Result<(), Fail> {
    let text = with_calls(rt.alloc())?;
    let shown = attached(rt.alloc(), &text, &[at_line(1, "wide", &["x", "y"])])?;
    let calls = "1: copy x -> y\n".repeat(rt.alloc(), 256)?;
    assert_eq!(rt; shown.instances, calls);
    assert_eq!(rt; shown.kinds.len(), 2);
    Ok(())
}

// Checks that the compound with the most private cells makes that many inner cells each time it is
// attached.
fn makes_256_cells<R: Abort + AllocGlobal>(rt: &R) -> Result<(), Fail> {
    let text = with_locals(rt.alloc())?;
    let twice = [
        at_line(1, "wide", &["x", "y"]),
        at_line(1_000_000, "wide", &["y", "x"]),
    ];
    let shown = attached(rt.alloc(), &text, &twice)?;
    assert_eq!(rt; (shown.kinds.len(), shown.last_line), (514, 1_000_000));
    assert!(rt; shown.instances.is_empty());
    assert!(rt; shown.readers.ends_with("1000000.254:\n1000000.255:\n"));
    Ok(())
}

#[test]
fn largest_expansions(rt: HostRuntime) -> Result<(), Fail> {
    makes_256_calls(&rt)?;
    makes_256_cells(&rt)
}
