//! Random calls: commands of several users over one workbench, drawn from a seed, with growths of
//! memory refused among them. Each reply is the answer by rounds, or a refusal for memory if a
//! growth was refused during the command. What each user believes after it is compared too, and how
//! often it called procedures.
//!
//! A failing test names the seed, the line that differs and the refused growths, and prints the
//! lines that it takes. The sequence ends at the line that differs, and leaves out each command
//! without which some reply still differs. To replay a seed, set `FIRST` to it and `DRAWN` to 1. To
//! try more sequences, raise `DRAWN` and give the tests more time, as `rt try --test --seconds
//! 3600` does.

mod alternatives;
mod answers;
mod choices;
mod counts;
mod cutting;
mod declared;
mod drawing;
mod entries;
mod fresh;
mod lines;
mod playing;
mod refusing;
mod rounds;
mod showing;

use counts::Counts;
use cutting::{Cut, cut_short, lines_given};
use drawing::COMMANDS;
use playing::{Outcome, Play, played};
use pw_testing::random::Random;
use refusing::Refused;
use std::process::Abort;
use std::test::Fail;

// The first seed, and the number of sequences drawn from it on.
const FIRST: u64 = 0;

const DRAWN: u64 = 150;

// Ends the test as a reply differs, and prints the seed and the sequence cut short.
fn report_difference<R: Abort + AllocGlobal>(
    rt: &R,
    play: &Play<'_>,
    cut: &Cut,
) -> Result<(), Fail> {
    let left = Play {
        is_given: &cut.is_given,
        ..*play
    };
    let lines = lines_given(rt.alloc(), &left)?;
    let (seed, refused) = (play.seed, play.refused);
    let line = cut.difference.line;
    assert_eq!(rt;
        cut.difference.given,
        cut.difference.wanted,
        "seed {seed}, line {line}, {refused:?}\n{lines}"
    );
    Ok(())
}

// Ends the test if a reply differs from the answer by rounds, and prints the seed and the sequence
// cut short. Else answers what was compared, or nothing if that takes too many rounds.
fn compare<R: Abort + AllocGlobal>(rt: &R, play: &Play<'_>) -> Result<Option<Counts>, Fail> {
    let alloc = rt.alloc();
    match played(alloc, play)? {
        Outcome::Same(counts) => Ok(Some(counts)),
        Outcome::TooLong => Ok(None),
        Outcome::Differs(difference) => {
            let cut = cut_short(alloc, play, difference)?;
            report_difference(rt, play, &cut)?;
            Ok(None)
        }
    }
}

// Compares a sequence with ample memory, and twice with growths refused.
fn compare_drawn<R: Abort + AllocGlobal>(rt: &R, seed: u64) -> Result<Option<Counts>, Fail> {
    let mut play = Play {
        seed,
        is_given: &[true; COMMANDS],
        refused: Refused::none(),
    };
    let Some(counts) = compare(rt, &play)? else {
        return Ok(None);
    };
    let mut all = counts;
    let mut random = Random::at(seed, COMMANDS as u64);
    for _ in 0..2 {
        play.refused = Refused::drawn(&mut random, counts.growths_before, counts.growths);
        if let Some(more) = compare(rt, &play)? {
            all = all.and(&more);
        }
    }
    Ok(Some(all))
}

// Checks that a count of what was compared is at least this.
fn is_enough<R: Abort>(rt: &R, count: u32, least: u64, all: &Counts) {
    assert!(rt; u64::from(count) >= least, "{all:?}");
}

// Checks that enough answers of each kind were compared.
fn is_telling<R: Abort>(rt: &R, compared: u64, all: &Counts) {
    let half = DRAWN / 2;
    assert!(rt; compared >= half, "{compared} sequences were compared");
    is_enough(rt, all.values, half, all);
    is_enough(rt, all.reasons, half, all);
    is_enough(rt, all.cells_in_conflict, half, all);
    is_enough(rt, all.lines_in_conflict, half / 2, all);
    is_enough(rt, all.contradictions, half / 2, all);
    is_enough(rt, all.refused, half, all);
    is_enough(rt, all.chosen, half, all);
    is_enough(rt, all.chosen_none, half / 2, all);
    is_enough(rt, all.fresh, half, all);
    is_enough(rt, all.fresh_after_none, half / 20, all);
}

#[test]
fn replies_are_the_answers_by_rounds(rt: HostRuntime) -> Result<(), Fail> {
    let mut all = Counts::none();
    let mut compared = 0u64;
    for place in 0..DRAWN {
        if let Some(counts) = compare_drawn(&rt, FIRST.saturating_add(place))? {
            compared = compared.saturating_add(1);
            all = all.and(&counts);
        }
    }
    is_telling(&rt, compared, &all);
    Ok(())
}
