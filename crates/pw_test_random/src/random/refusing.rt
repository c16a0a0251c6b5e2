//! Growths that are refused in a run: one or two of them, or one and then all from another on.

use pw_testing::Refusing;
use pw_testing::random::Random;
use std::alloc::Global;

/// Which growths of a run are refused, by their numbers from 1; at 0 none. The second number counts
/// only growths that the first one lets pass.
#[derive(Clone, Copy, Debug)]
pub struct Refused {
    pub once: u64,
    pub again: u64,
    /// Whether all are refused from the second number on.
    pub all: bool,
}

impl Refused {
    /// None.
    pub fn none() -> Refused {
        Refused {
            once: 0,
            again: 0,
            all: false,
        }
    }

    /// Random growths among the first `growths`, after the first `before`.
    pub fn drawn(random: &mut Random, before: u64, growths: u64) -> Refused {
        let most = growths.saturating_sub(before);
        Refused {
            once: random.below(most).saturating_add(before).saturating_add(1),
            again: random.below(most).saturating_add(before).saturating_add(1),
            all: random.below(4) == 0,
        }
    }
}

/// The allocators of a run. The outer one refuses one growth and passes the others on. The inner
/// one refuses another of these, or all from one on.
#[derive(Clone, Copy)]
pub struct Watch<'o, 'i> {
    pub outer: &'o Refusing<&'i Refusing<Global>>,
    pub inner: &'i Refusing<Global>,
    pub refused: Refused,
}

impl Watch<'_, '_> {
    /// The number of growths asked for so far.
    pub fn asked(&self) -> u64 {
        self.outer.calls()
    }

    /// The number of them that were refused.
    pub fn met(&self) -> u64 {
        let once = has_come(self.outer.calls(), self.refused.once);
        let again = has_come(self.inner.calls(), self.refused.again);
        let again = if self.refused.all {
            again
        } else {
            again.min(1)
        };
        once.min(1).saturating_add(again)
    }
}

// How many of `calls` growths have a number of `from` or more; none if `from` is 0.
fn has_come(calls: u64, from: u64) -> u64 {
    if from == 0 {
        return 0;
    }
    calls.saturating_add(1).saturating_sub(from)
}

/// The allocator that refuses the second of these growths, or all from it on.
pub fn refusing_again(alloc: Global, refused: &Refused) -> Refusing<Global> {
    if refused.all {
        Refusing::all_from(alloc, refused.again)
    } else {
        Refusing::nth(alloc, refused.again)
    }
}
