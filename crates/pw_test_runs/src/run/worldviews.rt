//! Two users go through more worldviews than a workbench keeps values of, and come back to each.

use crate::sessions::answers_text;
use std::alloc::{AllocError, Global};
use std::test::Fail;

const COPIED: &str = "workbench 1
user ann
user bob
premise p0
premise p1
premise p2
premise p3
premise p4
premise p5
premise p6
cell x interval
cell y interval
";

const PREMISES: [&str; 7] = ["p0", "p1", "p2", "p3", "p4", "p5", "p6"];

// What is told of x under each premise: from 0 to this.
const MOST: [u32; 7] = [100, 90, 80, 70, 60, 50, 40];

// In this many turns ann is in each of the 128 worldviews twice.
const TURNS: u32 = 256;

// In this turn something is told that is news in each worldview.
const NEWS: u32 = 130;

// What was said, and what was answered, line by line.
#[derive(Drop)]
struct Talk {
    alloc: Global,
    lines: String,
    replies: String,
    number: u32,
}

impl Talk {
    fn say(&mut self, line: &str, reply: &str) -> Result<(), AllocError> {
        self.number = self.number.saturating_add(1);
        self.lines.push_str(line)?;
        self.lines.push('\n')?;
        let number = self.number;
        let answer = format!(in self.alloc; "{number}: {reply}\n")?;
        self.replies.push_str(answer.as_str())
    }
}

// A user, and which of the premises the user believes.
#[derive(Clone, Copy)]
struct User {
    name: &'static str,
    believed: [bool; 7],
}

impl User {
    // Doubts the premise of this place, or believes it again.
    fn turn(&mut self, talk: &mut Talk, place: usize) -> Result<(), AllocError> {
        let (Some(held), Some(premise)) = (self.believed.get_mut(place), PREMISES.get(place)) else {
            return Ok(());
        };
        *held = !*held;
        let word = if *held { "believe" } else { "doubt" };
        let name = self.name;
        let line = format!(in talk.alloc; "{name} {word} {premise}")?;
        talk.say(line.as_str(), "ok")
    }

    // What y is at most.
    fn most(&self) -> Option<u32> {
        let mut least = None;
        for (held, most) in self.believed.iter().zip(MOST.iter()) {
            if *held {
                least = Some(*most);
            }
        }
        least
    }

    // Asks for y.
    fn ask(&self, talk: &mut Talk, is_told: bool) -> Result<(), AllocError> {
        let name = self.name;
        let line = format!(in talk.alloc; "{name} ask y")?;
        let least = if is_told { 5 } else { 0 };
        let reply = match self.most() {
            Some(most) => format!(in talk.alloc; "{least}..{most}")?,
            None if is_told => String::from_str(talk.alloc, "5..1000")?,
            None => String::from_str(talk.alloc, "nothing")?,
        };
        talk.say(line.as_str(), reply.as_str())
    }
}

// Attaches, and tells of x under each premise.
fn begin(talk: &mut Talk) -> Result<(), AllocError> {
    talk.say("ann attach copy x y", "ok")?;
    for (premise, most) in PREMISES.iter().zip(MOST.iter()) {
        let line = format!(in talk.alloc; "bob tell x 0..{most} under {premise}")?;
        talk.say(line.as_str(), "ok")?;
    }
    Ok(())
}

#[test]
fn values_are_right_in_more_worldviews_than_are_kept(rt: HostRuntime) -> Result<(), Fail> {
    let mut talk = Talk {
        alloc: rt.alloc(),
        lines: String::new(rt.alloc()),
        replies: String::new(rt.alloc()),
        number: 0,
    };
    let all = [true; 7];
    let mut ann = User {
        name: "ann",
        believed: all,
    };
    let mut bob = User {
        name: "bob",
        believed: all,
    };
    begin(&mut talk)?;
    for turn in 1..=TURNS {
        // One premise at a time, so that each worldview comes once in 128 turns.
        let place = turn.trailing_zeros() as usize;
        ann.turn(&mut talk, if place < 7 { place } else { 6 })?;
        bob.turn(&mut talk, (turn % 7) as usize)?;
        if turn == NEWS {
            talk.say("bob tell x 5..1000", "ok")?;
        }
        ann.ask(&mut talk, turn >= NEWS)?;
        bob.ask(&mut talk, turn >= NEWS)?;
        ann.ask(&mut talk, turn >= NEWS)?;
    }
    answers_text(&rt, COPIED, talk.lines.as_str(), talk.replies.as_str())
}
