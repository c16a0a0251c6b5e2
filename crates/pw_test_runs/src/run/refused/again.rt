//! Lines that run out of memory: they leave nothing, and a question gets its answer when it is
//! asked again.

use super::super::worked::{APART, Session};
use super::{growths_of, run_with, wrote};
use crate::sessions::answered;
use pw_testing::Refusing;
use pw_testing::worlds::GENERAL;
use std::alloc::Global;
use std::process::Abort;
use std::test::Fail;

const ASKING: Session<'_> = Session {
    declaration: GENERAL,
    rows: &[
        ("ann attach sum x y t", "ok"),
        ("ann tell x 1..2 under a", "ok"),
        ("bob tell y 10 under mine", "ok"),
        ("ann ask t", "11..12"),
        ("ann ask t", "11..12"),
    ],
};

const EXPLAINING: Session<'_> = Session {
    declaration: GENERAL,
    rows: &[
        ("ann attach sum x y t", "ok"),
        ("ann tell x 1..2 under a", "ok"),
        ("ann tell y 10 under b", "ok"),
        ("bob tell t 100 under c", "ok"),
        ("ann why t", "contradiction because a b c"),
        ("ann why t", "contradiction because a b c"),
    ],
};

const CONFLICTING: Session<'_> = Session {
    declaration: GENERAL,
    rows: &[
        ("ann tell x 1", "ok"),
        ("bob tell x 5 under a", "ok"),
        ("ann tell y 2", "ok"),
        ("ann attach apart x y", "ok"),
        ("ann conflicts", "conflicts x line 4"),
        ("ann conflicts", "conflicts x line 4"),
    ],
};

const CHOOSING: Session<'_> = Session {
    declaration: GENERAL,
    rows: &[
        ("ann attach copy x y", "ok"),
        ("ann tell x 1 under a", "ok"),
        ("ann tell y 2 under b", "ok"),
        ("bob tell y 1..9 under mine", "ok"),
        ("ann choose c a|b", "chose c a"),
        ("ann choose c a|b", "chose c a"),
    ],
};

const CHOOSING_NONE: Session<'_> = Session {
    declaration: GENERAL,
    rows: &[
        ("ann attach copy x y", "ok"),
        ("ann tell x 1 under a", "ok"),
        ("ann tell x 2 under b", "ok"),
        ("bob tell y 3 under mine", "ok"),
        ("ann choose a|b c", "chose none"),
        ("ann choose a|b c", "chose none"),
    ],
};

// The replies to the session if the line after the first `before` lines runs out of memory.
fn replies_without(alloc: Global, session: Session<'_>, before: usize) -> Result<String, Fail> {
    let mut rows = Vec::new(alloc);
    for row in session.rows {
        rows.push(*row)?;
    }
    let refused = rows.get_mut(before).ok_or("there are fewer lines")?;
    *refused = (refused.0, "refused 11 memory");
    Ok(answered(alloc, &rows)?)
}

// Refuses each growth in turn that the line after the first `before` lines asks for. Checks that
// the session gets these replies each time, or those of ample memory: then the growth only saves
// work. Answers how many growths only save work.
fn is_refused_alone<R: Abort + AllocGlobal>(
    rt: &R,
    session: Session<'_>,
    before: usize,
    replies: &str,
) -> Result<usize, Fail> {
    let first = growths_of(rt, session, before)?;
    let last = growths_of(rt, session, before.saturating_add(1))?;
    assert!(rt; first < last);
    let ample = answered(rt.alloc(), session.rows)?;
    let mut saving = 0usize;
    for at in first.saturating_add(1)..last.saturating_add(1) {
        let outcome = run_with(rt, session, &Refusing::nth(rt.alloc(), at))?;
        if outcome.written.as_str() == ample.as_str() {
            saving = saving.saturating_add(1);
        } else {
            wrote(rt, &outcome, session.rows.len(), replies, at);
        }
    }
    Ok(saving)
}

// Checks that the last line of the session gets its reply when the line before it, which says the
// same, runs out of memory. One growth of the first settling only saves work: that for the facts
// which the store remembers.
fn is_answered_again<R: Abort + AllocGlobal>(rt: &R, session: Session<'_>) -> Result<(), Fail> {
    let before = session.rows.len().saturating_sub(2);
    let replies = replies_without(rt.alloc(), session, before)?;
    let saving = is_refused_alone(rt, session, before, replies.as_str())?;
    assert_eq!(rt; saving, 1);
    Ok(())
}

#[test]
fn an_ask_is_answered_again(rt: HostRuntime) -> Result<(), Fail> {
    is_answered_again(&rt, ASKING)
}

#[test]
fn a_why_is_answered_again(rt: HostRuntime) -> Result<(), Fail> {
    is_answered_again(&rt, EXPLAINING)
}

#[test]
fn conflicts_are_listed_again(rt: HostRuntime) -> Result<(), Fail> {
    is_answered_again(&rt, CONFLICTING)
}

#[test]
fn a_choice_is_made_again(rt: HostRuntime) -> Result<(), Fail> {
    is_answered_again(&rt, CHOOSING)
}

#[test]
fn none_is_chosen_again(rt: HostRuntime) -> Result<(), Fail> {
    is_answered_again(&rt, CHOOSING_NONE)
}

// What a choice found to contradict itself is not tried again, so that this takes no memory.
#[test]
fn none_is_chosen_again_without_memory(rt: HostRuntime) -> Result<(), Fail> {
    let before = CHOOSING_NONE.rows.len().saturating_sub(1);
    let asked = growths_of(&rt, CHOOSING_NONE, CHOOSING_NONE.rows.len())?;
    assert_eq!(rt; growths_of(&rt, CHOOSING_NONE, before)?, asked);
    Ok(())
}

// The first growth that the attachment asks for is that of the store, before there is any inner
// cell or instance.
#[test]
fn an_attachment_that_memory_is_refused_to_leaves_nothing(rt: HostRuntime) -> Result<(), Fail> {
    let replies = "1: ok\n2: ok\n12: refused 11 memory\n13: conflicts none\n14: 1\n";
    assert_eq!(rt; is_refused_alone(&rt, APART, 11, replies)?, 0);
    Ok(())
}
