//! Pseudo-random networks, settled in a worldview. Then more is attached and told, and the settling
//! goes on from the values found: in the same worldview, in a larger one, and in one that does not
//! include the first. The values are those by rounds. Each is also the value by rounds under just
//! the premises that it rests on. A stage that adds nothing calls nothing.

use super::Matter;
use super::drawing::{WORLD, draw_attachments, draw_tells, draw_worldviews};
use super::growing::{in_lines, is_by_rounds};
use super::rounds::{by_rounds_at, took_too_long};
use super::stages::{Stage, settled_in_stages};
use pw_premises::PremiseSet;
use pw_testing::random::Random;
use std::process::Abort;
use std::test::Fail;

// The least number of walks through stages to compare, of the three that are drawn for each
// network.
const COMPARED: u32 = 150;

const DRAWN: u64 = 60;

// Compares the values at several stages, unless that takes too many rounds. The last stage brings
// nothing more. Answers how many of the values say something by premises.
fn compare<R: Abort + AllocGlobal>(
    rt: &R,
    seed: u64,
    matter: Matter<'_>,
    stages: &[Stage],
) -> Result<Option<u32>, Fail> {
    let wanted = by_rounds_at(rt.alloc(), matter, stages)?;
    if took_too_long(&wanted) {
        return Ok(None);
    }
    let shown = settled_in_stages(rt.alloc(), matter, stages)?;
    assert!(rt; shown.is_told_the_same, "seed {seed}");
    assert_eq!(rt; shown.answers.len(), wanted.len(), "seed {seed}");
    let mut telling = 0u32;
    for (place, answer) in shown.answers.iter().enumerate() {
        let (Some(Some(known)), Some(stage)) = (wanted.get(place), stages.get(place)) else {
            return Err("no stage".into());
        };
        let by_then = matter.until(stage);
        let more = is_by_rounds(rt, seed, by_then, &stage.worldview, answer, known)?;
        telling = telling.saturating_add(more);
    }
    let calls = shown.answers.last().map(|answer| answer.calls);
    assert_eq!(rt; calls, Some(0), "seed {seed}");
    Ok(Some(telling))
}

// How many of `most` attachments, and of twelve tells, have come by a first stage, by a second,
// and in all.
fn draw_parts(random: &mut Random, most: u64) -> [(usize, usize); 3] {
    let first = random.below(most);
    let left = most.saturating_sub(first);
    let second = first.saturating_add(random.below(left)).saturating_add(1);
    let told = random.below(6).saturating_add(4);
    [
        (first as usize, told as usize),
        (second as usize, told.saturating_add(2) as usize),
        (most as usize, 12),
    ]
}

// The stages: the first part in a first worldview; then, in a further one, another part, the rest,
// and nothing more.
fn stages_of(first: PremiseSet, further: PremiseSet, parts: &[(usize, usize); 3]) -> [Stage; 4] {
    [
        Stage::new(parts[0].0, parts[0].1, first),
        Stage::new(parts[1].0, parts[1].1, further),
        Stage::new(parts[2].0, parts[2].1, further),
        Stage::new(parts[2].0, parts[2].1, further),
    ]
}

// Goes on from a first worldview to three others. Answers how many walks were compared, and how
// many values say something by premises.
fn compare_all<R: Abort + AllocGlobal>(
    rt: &R,
    seed: u64,
    random: &mut Random,
    matter: Matter<'_>,
) -> Result<(u32, u32), Fail> {
    let parts = draw_parts(random, matter.attachments.len() as u64);
    let (first, worldviews) = draw_worldviews(random);
    let (mut compared, mut telling) = (0u32, 0u32);
    for further in worldviews {
        let stages = stages_of(first, further, &parts);
        if let Some(more) = compare(rt, seed, matter, &stages)? {
            compared = compared.saturating_add(1);
            telling = telling.saturating_add(more);
        }
    }
    Ok((compared, telling))
}

// Draws a network, and compares its walks through stages.
fn compare_drawn<R: Abort + AllocGlobal>(rt: &R, seed: u64) -> Result<(u32, u32), Fail> {
    let mut random = Random::at(seed, 0);
    let drawn = draw_attachments(&mut random);
    let attachments = in_lines(&drawn);
    let tells = draw_tells(&mut random);
    let most = random.below(7).saturating_add(2) as usize;
    let matter = Matter {
        text: WORLD,
        attachments: &attachments[..most.min(8)],
        tells: &tells,
    };
    compare_all(rt, seed, &mut random, matter)
}

#[test]
fn going_on_finds_the_values_by_rounds(rt: HostRuntime) -> Result<(), Fail> {
    let (mut compared, mut telling) = (0u32, 0u32);
    for seed in 0..DRAWN {
        let (walks, more) = compare_drawn(&rt, seed)?;
        compared = compared.saturating_add(walks);
        telling = telling.saturating_add(more);
    }
    assert!(rt; compared >= COMPARED, "{compared} walks were compared");
    assert!(rt;
        telling >= compared,
        "{telling} values say something by premises"
    );
    Ok(())
}
