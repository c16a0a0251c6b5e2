//! Random numbers that tests draw from.

use pw_premises::PremiseSet;
use rand::RngExt;
use rand::seq::IndexedRandom;
use rand_pcg::Pcg32;

/// Random numbers. From the same seed and place they are the same.
#[derive(Drop)]
pub struct Random {
    generator: Pcg32,
}

impl Random {
    /// The numbers of this place under a seed.
    pub fn at(seed: u64, place: u64) -> Random {
        Random {
            generator: Pcg32::new(seed, place),
        }
    }

    /// The next number below `bound`; 0 if `bound` is 0.
    pub fn below(&mut self, bound: u64) -> u64 {
        if bound == 0 {
            return 0;
        }
        self.generator.random_range(0..bound)
    }

    /// The next number from `lo` on, below `lo + bound`; `lo` if `bound` is 0.
    pub fn number(&mut self, lo: i64, bound: u32) -> i64 {
        lo.saturating_add(i64::try_from(self.below(u64::from(bound))).unwrap_or(0))
    }

    /// One of the items; `otherwise` if there are none.
    pub fn one_of<T: Copy>(&mut self, items: &[T], otherwise: T) -> T {
        match items.choose(&mut self.generator) {
            Some(item) => *item,
            None => otherwise,
        }
    }

    /// A set of the first `count` premises, 512 at most: each is in it with one chance in `chance`, and at 0
    /// each is.
    pub fn premises(&mut self, count: u16, chance: u64) -> PremiseSet {
        let mut premises = PremiseSet::empty();
        for premise in 0..count.min(512) {
            if self.below(chance) == 0 {
                premises = premises.join(PremiseSet::one(premise));
            }
        }
        premises
    }
}
