//! Pseudo-random networks, settled in several worldviews one after another over one store. The
//! values are those by rounds. Each is also the value by rounds under just the premises that it
//! rests on.

use super::drawing::{Drawn, WORLD, draw_attachments, draw_premises, draw_tells};
use super::rounds::{by_rounds, took_too_long};
use super::{Answer, Matter, settled};
use crate::networks::Attachment;
use pw_facts::Fact;
use pw_info::Info;
use pw_premises::PremiseSet;
use pw_testing::random::Random;
use std::alloc::{AllocError, Global};
use std::process::Abort;
use std::test::Fail;

// The least number of networks to compare, and the number drawn.
const COMPARED: u32 = 60;

const DRAWN: u64 = 90;

/// The attachments at the lines from 1 on.
pub fn in_lines<'a>(drawn: &'a [Drawn; 8]) -> [Attachment<'a>; 8] {
    [
        drawn[0].at_line(1),
        drawn[1].at_line(2),
        drawn[2].at_line(3),
        drawn[3].at_line(4),
        drawn[4].at_line(5),
        drawn[5].at_line(6),
        drawn[6].at_line(7),
        drawn[7].at_line(8),
    ]
}

// The premises that each value rests on.
fn supports_of(alloc: Global, values: &[Fact]) -> Result<Vec<PremiseSet>, AllocError> {
    let mut supports = Vec::new(alloc);
    for value in values {
        supports.push(value.support)?;
    }
    Ok(supports)
}

// Checks that this is what is known of the cell at this place.
fn is_known<R: Abort>(rt: &R, seed: u64, place: usize, known: &[Info], info: &Info) {
    assert_eq!(rt; known.get(place), Some(info), "seed {seed}, cell {place}");
}

// Whether a value is neither nothing nor a contradiction, and rests on premises.
fn says_by_premises(value: &Fact) -> bool {
    !value.info.is_nothing() && !value.info.is_contradiction() && !value.support.is_empty()
}

/// Checks that an answer has the values by rounds, each on premises of the worldview, and that they
/// are the values by rounds under these premises too. Answers how many of them are neither nothing
/// nor a contradiction, and rest on premises.
pub fn is_by_rounds<R: Abort + AllocGlobal>(
    rt: &R,
    seed: u64,
    matter: Matter<'_>,
    worldview: &PremiseSet,
    answer: &Answer,
    wanted: &[Info],
) -> Result<u32, Fail> {
    let supports = supports_of(rt.alloc(), &answer.values)?;
    let smaller = by_rounds(rt.alloc(), matter, &supports)?;
    assert_eq!(rt; answer.values.len(), wanted.len(), "seed {seed}");
    let mut telling = 0u32;
    for place in 0..answer.values.len().min(wanted.len()).min(smaller.len()) {
        let value = &answer.values[place];
        assert_eq!(rt; value.info, wanted[place], "seed {seed}, cell {place}");
        assert!(rt;
            value.support.is_subset(worldview),
            "seed {seed}, cell {place}"
        );
        if let Some(known) = &smaller[place] {
            is_known(rt, seed, place, known, &value.info);
        }
        if says_by_premises(value) {
            telling = telling.saturating_add(1);
        }
    }
    Ok(telling)
}

// Compares the values in several worldviews, unless that takes too many rounds. Answers how many of
// them say something by premises.
fn compare<R: Abort + AllocGlobal>(
    rt: &R,
    seed: u64,
    matter: Matter<'_>,
    worldviews: &[PremiseSet],
) -> Result<Option<u32>, Fail> {
    let wanted = by_rounds(rt.alloc(), matter, worldviews)?;
    if took_too_long(&wanted) {
        return Ok(None);
    }
    let shown = settled(rt.alloc(), matter, worldviews, &[])?;
    assert!(rt; shown.is_told_the_same, "seed {seed}");
    assert_eq!(rt; shown.answers.len(), wanted.len(), "seed {seed}");
    let mut telling = 0u32;
    for (place, answer) in shown.answers.iter().enumerate() {
        let (Some(Some(known)), Some(worldview)) = (wanted.get(place), worldviews.get(place)) else {
            return Err("no worldview".into());
        };
        let more = is_by_rounds(rt, seed, matter, worldview, answer, known)?;
        telling = telling.saturating_add(more);
    }
    Ok(Some(telling))
}

// Draws a network, and compares its values in five worldviews.
fn compare_drawn<R: Abort + AllocGlobal>(rt: &R, seed: u64) -> Result<Option<u32>, Fail> {
    let mut random = Random::at(seed, 0);
    let drawn = draw_attachments(&mut random);
    let attachments = in_lines(&drawn);
    let tells = draw_tells(&mut random);
    let most = random.below(7).saturating_add(2) as usize;
    let matter = Matter {
        text: WORLD,
        attachments: &attachments[..most.min(8)],
        tells: &tells,
    };
    let worldviews = [
        draw_premises(&mut random, 2),
        draw_premises(&mut random, 3),
        PremiseSet::first(5),
        draw_premises(&mut random, 2),
        PremiseSet::empty(),
    ];
    compare(rt, seed, matter, &worldviews)
}

#[test]
fn values_are_those_by_rounds(rt: HostRuntime) -> Result<(), Fail> {
    let (mut compared, mut telling) = (0u32, 0u32);
    for seed in 0..DRAWN {
        if let Some(more) = compare_drawn(&rt, seed)? {
            compared = compared.saturating_add(1);
            telling = telling.saturating_add(more);
        }
    }
    assert!(rt; compared >= COMPARED, "{compared} networks were compared");
    assert!(rt;
        telling >= compared,
        "{telling} values say something by premises"
    );
    Ok(())
}
