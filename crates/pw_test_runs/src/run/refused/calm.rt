//! Commands that take no memory, with every growth refused: those on beliefs, an ask of a cell that
//! no instance under believed premises writes, and a choice of which all combinations are covered.

use super::super::worked::Session;
use super::{growths_of, run_with, wrote};
use crate::sessions::answered;
use pw_testing::Refusing;
use pw_testing::worlds::GENERAL;
use std::test::Fail;

// Users tell much of one cell, and an instance writes another cell under a premise. Then a user
// doubts that premise.
const CALM: Session<'_> = Session {
    declaration: GENERAL,
    rows: &[
        ("ann attach copy x y under a", "ok"),
        ("ann tell x 7 under b", "ok"),
        ("ann tell y 1..9 under c", "ok"),
        ("ann tell t 0..100", "ok"),
        ("ann tell t 0..90 under a", "ok"),
        ("ann tell t 0..80 under b", "ok"),
        ("ann tell t 0..70 under c", "ok"),
        ("ann tell t 0..60 under a b", "ok"),
        ("ann tell t 0..50 under a c", "ok"),
        ("ann tell t 0..40 under b c", "ok"),
        ("ann tell t 0..30 under a b c", "ok"),
        ("bob tell t 10..200 under mine", "ok"),
        // From here on nothing takes memory.
        ("ann ask t", "10..30"),
        ("ann doubt a b", "ok"),
        ("ann beliefs", "believes c mine"),
        ("ann ask x", "nothing"),
        ("ann ask y", "1..9"),
        ("ann ask t", "10..70"),
        ("ann ask t", "10..70"),
        ("ann doubt mine", "ok"),
        ("ann ask t", "0..70"),
        ("ann believe b", "ok"),
        ("ann ask x", "7"),
        ("ann ask y", "1..9"),
        ("ann ask t", "0..40"),
        ("bob ask t", "10..30"),
        ("bob beliefs", "believes a b c mine"),
        ("bob ask g", "nothing"),
    ],
};

// The number of lines that come first and take memory.
const FIRST: usize = 12;

#[test]
fn calm_commands_take_no_memory(rt: HostRuntime) -> Result<(), Fail> {
    let asked = growths_of(&rt, CALM, CALM.rows.len())?;
    assert_eq!(rt; growths_of(&rt, CALM, FIRST)?, asked);
    Ok(())
}

// A reason notes a set of premises that covers each combination of a choice.
const COVERED: Session<'_> = Session {
    declaration: GENERAL,
    rows: &[
        ("ann tell x 1 under c", "ok"),
        ("ann tell x 2", "ok"),
        ("ann why x", "contradiction because c"),
        // From here on nothing takes memory.
        ("ann choose a|b", "chose none"),
        ("ann beliefs", "believes a b c mine"),
    ],
};

#[test]
fn a_choice_of_covered_combinations_takes_no_memory(rt: HostRuntime) -> Result<(), Fail> {
    let asked = growths_of(&rt, COVERED, COVERED.rows.len())?;
    assert_eq!(rt; growths_of(&rt, COVERED, 3)?, asked);
    Ok(())
}

// The same commands among others, which run out of memory.
const AMONG_OTHERS: Session<'_> = Session {
    declaration: GENERAL,
    rows: &[
        ("ann attach copy x y under a", "ok"),
        ("ann ask y", "refused 11 memory"),
        ("ann doubt a b", "ok"),
        ("ann ask y", "nothing"),
        ("ann beliefs", "believes c mine"),
        ("ann believe b", "ok"),
        ("bob ask x", "nothing"),
        ("bob ask y", "refused 11 memory"),
        ("ann tell x 1", "refused 11 memory"),
        ("ann ask x", "nothing"),
        ("ann why x", "refused 11 memory"),
        ("ann conflicts", "refused 11 memory"),
        ("ann attach copy x y", "refused 11 memory"),
        ("ann ask y", "nothing"),
        ("bob beliefs", "believes a b c mine"),
        ("ann choose a|c", "refused 11 memory"),
        ("ann beliefs", "believes b c mine"),
    ],
};

#[test]
fn calm_commands_are_never_refused(rt: HostRuntime) -> Result<(), Fail> {
    let attached = growths_of(&rt, AMONG_OTHERS, 1)?;
    let refusing = Refusing::all_from(rt.alloc(), attached.saturating_add(1));
    let outcome = run_with(&rt, AMONG_OTHERS, &refusing)?;
    let replies = answered(rt.alloc(), AMONG_OTHERS.rows)?;
    wrote(&rt, &outcome, AMONG_OTHERS.rows.len(), replies.as_str(), 0);
    Ok(())
}
