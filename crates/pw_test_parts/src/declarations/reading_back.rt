//! Declarations that are read back.

use super::questions::{Answer, Question, asked};
use super::{Counts, counted};
use pw_decl::{Callable, Step};
use pw_info::{Kind, SetKind};
use pw_procs::Arguments;
use pw_testing::procedures::SOUND;
use pw_testing::texts::joined;
use std::process::Abort;
use std::test::Fail;

// Each form but sets, with blank lines, comments, tabs and CR LF.
const WORLD: [&str; 10] = [
    "# who\r",
    " \tworkbench\t1\r",
    "user ann\r",
    "\r",
    "user bob_2",
    "premise p of bob_2",
    "  # caf\u{e9}",
    "premise q",
    "cell ann interval ",
    "cell y interval",
];

// Two sets, and cells of each other kind.
const SETS: [&str; 7] = [
    "workbench 1",
    "set mood good bad",
    "set colour red green blue",
    "cell k exact",
    "cell e bool",
    "cell g colour",
    "cell q sign",
];

// Two compounds: the second calls the first.
const COMPOUNDS: [&str; 9] = [
    "workbench 1",
    "compound twice x interval t interval",
    "adder x x t",
    "end",
    "compound less x interval y interval p bool",
    "\tlocal\ts interval\r",
    "  twice x s",
    "at_most s y p",
    " end ",
];

// Checks that a declaration of these lines declares this many of each thing.
fn has_counts<R: Abort + AllocGlobal>(rt: &R, lines: &[&str], wanted: Counts) -> Result<(), Fail> {
    let text = joined(rt.alloc(), lines)?;
    let counts = counted(rt.alloc(), rt.alloc(), SOUND, text.as_str())?;
    assert!(rt;
        counts == Ok(wanted),
        "{} users, {} sets",
        wanted.users,
        wanted.sets
    );
    Ok(())
}

// Checks that a declaration of these lines answers a question so.
fn is_answered<R: Abort + AllocGlobal>(
    rt: &R,
    lines: &[&str],
    question: Question<'_>,
    answer: Option<Answer>,
) -> Result<(), Fail> {
    let given = asked(rt.alloc(), lines, question)?;
    assert!(rt; given == answer, "{question:?}");
    Ok(())
}

// Checks that a declaration of these lines answers each question as its row says.
fn answers<R: Abort + AllocGlobal>(
    rt: &R,
    lines: &[&str],
    rows: &[(Question<'_>, Option<Answer>)],
) -> Result<(), Fail> {
    for (question, answer) in rows {
        is_answered(rt, lines, *question, *answer)?;
    }
    Ok(())
}

#[test]
fn reads_counts_back(rt: HostRuntime) -> Result<(), Fail> {
    for (lines, users, premises, cells, sets, compounds) in [
        (WORLD.as_slice(), 2, 2, 2, 0, 0),
        (SETS.as_slice(), 0, 0, 4, 2, 0),
        (COMPOUNDS.as_slice(), 0, 0, 0, 0, 2),
    ] {
        let wanted = Counts {
            users,
            premises,
            cells,
            sets,
            compounds,
        };
        has_counts(&rt, lines, wanted)?;
    }
    Ok(())
}

#[test]
fn reads_users_back(rt: HostRuntime) -> Result<(), Fail> {
    let rows = [
        (Question::User("ann"), Some(Answer::Number(0))),
        (Question::User("bob_2"), Some(Answer::Number(1))),
        (Question::User("eve"), None),
        (Question::User("caf\u{e9}"), None),
    ];
    answers(&rt, &WORLD, &rows)
}

#[test]
fn reads_premises_back(rt: HostRuntime) -> Result<(), Fail> {
    let rows = [
        (Question::Premise("p"), Some(Answer::Number(0))),
        (Question::Premise("q"), Some(Answer::Number(1))),
        (Question::Premise("ann"), None),
        (Question::Owner("p"), Some(Answer::Number(1))),
        (Question::Owner("q"), None),
    ];
    answers(&rt, &WORLD, &rows)
}

#[test]
fn reads_cells_back(rt: HostRuntime) -> Result<(), Fail> {
    let rows = [
        (Question::Cell("ann"), Some(Answer::Number(0))),
        (Question::Cell("y"), Some(Answer::Number(1))),
        (Question::Cell("x"), None),
        (Question::KindOf("y"), Some(Answer::Kind(Kind::Interval))),
    ];
    answers(&rt, &WORLD, &rows)
}

#[test]
fn reads_kinds_back(rt: HostRuntime) -> Result<(), Fail> {
    let rows = [
        (Question::KindOf("k"), Some(Answer::Kind(Kind::Exact))),
        (
            Question::KindOf("e"),
            Some(Answer::Kind(Kind::Members(SetKind { number: 0, size: 2 }))),
        ),
        (
            Question::KindOf("g"),
            Some(Answer::Kind(Kind::Members(SetKind { number: 3, size: 3 }))),
        ),
        (
            Question::KindOf("q"),
            Some(Answer::Kind(Kind::Members(SetKind { number: 1, size: 3 }))),
        ),
    ];
    answers(&rt, &SETS, &rows)
}

#[test]
fn reads_members_back(rt: HostRuntime) -> Result<(), Fail> {
    for (set, name, place) in [
        (0u8, "false", Some(0u32)),
        (0, "true", Some(1)),
        (0, "neg", None),
        (1, "neg", Some(0)),
        (1, "zero", Some(1)),
        (1, "pos", Some(2)),
        (2, "bad", Some(1)),
        (3, "blue", Some(2)),
        (3, "bad", None),
        (4, "bad", None),
        (255, "red", None),
    ] {
        let answer = place.map(|place| Answer::Number(place));
        is_answered(&rt, &SETS, Question::Place(set, name), answer)?;
    }
    Ok(())
}

const BOOL: Kind = Kind::Members(SetKind { number: 0, size: 2 });

#[test]
fn reads_procedures_back(rt: HostRuntime) -> Result<(), Fail> {
    for (name, number) in [("adder", 1), ("at_most", 8)] {
        let answer = Some(Answer::Callable(Callable::Stored(number)));
        is_answered(&rt, &COMPOUNDS, Question::Callable(name), answer)?;
    }
    Ok(())
}

#[test]
fn reads_compounds_back(rt: HostRuntime) -> Result<(), Fail> {
    for (name, number) in [
        ("sum", 0),
        ("product", 1),
        ("conditional", 2),
        ("twice", 3),
        ("less", 4),
    ] {
        let answer = Some(Answer::Callable(Callable::Compound(number)));
        is_answered(&rt, &COMPOUNDS, Question::Callable(name), answer)?;
    }
    Ok(())
}

#[test]
fn reads_no_callable_of_another_name(rt: HostRuntime) -> Result<(), Fail> {
    for name in ["s", "Adder"] {
        is_answered(&rt, &COMPOUNDS, Question::Callable(name), None)?;
    }
    Ok(())
}

// Checks whether a callable takes cells of these kinds.
fn takes<R: Abort + AllocGlobal>(
    rt: &R,
    name: &str,
    kinds: &[Kind],
    accepted: bool,
) -> Result<(), Fail> {
    let answer = Some(Answer::Accepts(accepted));
    is_answered(rt, &COMPOUNDS, Question::Accepts(name, kinds), answer)
}

#[test]
fn procedures_take_cells_of_their_kinds(rt: HostRuntime) -> Result<(), Fail> {
    takes(&rt, "adder", &[Kind::Interval; 3], true)?;
    takes(&rt, "adder", &[Kind::Interval; 2], false)?;
    takes(&rt, "copy", &[BOOL, BOOL], true)?;
    takes(&rt, "copy", &[BOOL, Kind::Exact], false)
}

#[test]
fn compounds_take_cells_of_their_kinds(rt: HostRuntime) -> Result<(), Fail> {
    let kinds = [BOOL, Kind::Interval, Kind::Interval, Kind::Interval, BOOL];
    takes(&rt, "sum", &kinds[1..4], true)?;
    takes(&rt, "conditional", &kinds[..4], true)?;
    takes(&rt, "less", &kinds[2..], true)?;
    takes(&rt, "less", &kinds[1..4], false)?;
    takes(&rt, "less", &[], false)
}

// A call over these cells.
fn call(callable: Callable, cells: &[u32]) -> Option<Answer> {
    let arguments = Arguments::of(cells)?;
    Some(Answer::Step(Step::Call(callable, arguments)))
}

#[test]
fn reads_lines_of_compounds_back(rt: HostRuntime) -> Result<(), Fail> {
    let rows = [
        (
            Question::Step("twice", 0),
            call(Callable::Stored(1), &[0, 0, 1]),
        ),
        (Question::Step("twice", 1), None),
        (
            Question::Step("less", 0),
            Some(Answer::Step(Step::Local(Kind::Interval))),
        ),
        (
            Question::Step("less", 1),
            call(Callable::Compound(3), &[0, 3]),
        ),
        (
            Question::Step("less", 2),
            call(Callable::Stored(8), &[3, 1, 2]),
        ),
        (Question::Step("less", 3), None),
    ];
    answers(&rt, &COMPOUNDS, &rows)
}

#[test]
fn reads_lines_of_built_in_compounds_back(rt: HostRuntime) -> Result<(), Fail> {
    let rows = [
        (
            Question::Step("sum", 0),
            call(Callable::Stored(1), &[0, 1, 2]),
        ),
        (
            Question::Step("sum", 1),
            call(Callable::Stored(2), &[2, 0, 1]),
        ),
        (
            Question::Step("sum", 2),
            call(Callable::Stored(2), &[2, 1, 0]),
        ),
        (
            Question::Step("product", 0),
            call(Callable::Stored(3), &[0, 1, 2]),
        ),
        (
            Question::Step("product", 2),
            call(Callable::Stored(4), &[2, 1, 0]),
        ),
        (
            Question::Step("conditional", 0),
            Some(Answer::Step(Step::Local(BOOL))),
        ),
        (
            Question::Step("conditional", 1),
            call(Callable::Stored(5), &[0, 4]),
        ),
        (
            Question::Step("conditional", 2),
            call(Callable::Stored(6), &[0, 1, 3]),
        ),
        (
            Question::Step("conditional", 3),
            call(Callable::Stored(6), &[4, 2, 3]),
        ),
        (Question::Step("conditional", 4), None),
    ];
    answers(&rt, &["workbench 1"], &rows)
}
