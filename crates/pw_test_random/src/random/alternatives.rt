//! Groups of premises to choose from, drawn at random.

use super::declared::PREMISE_COUNT;
use pw_premises::PremiseSet;
use pw_reasons::Groups;
use pw_testing::random::Random;

/// A group of premises, of which one is taken.
#[derive(Clone, Copy)]
pub struct Group {
    premises: [u16; 4],
    count: usize,
}

impl Group {
    // No premise.
    fn none() -> Group {
        Group {
            premises: [0; 4],
            count: 0,
        }
    }

    // Adds a premise after the others.
    fn add(&mut self, premise: u16) {
        if let Some(place) = self.premises.get_mut(self.count) {
            *place = premise;
            self.count = self.count.saturating_add(1);
        }
    }

    /// The premises, in order.
    pub fn premises(&self) -> &[u16] {
        &self.premises[..self.count.min(4)]
    }
}

/// Groups of premises, from each of which one is taken.
#[derive(Clone, Copy)]
pub struct Alternatives {
    groups: [Group; 6],
    count: usize,
}

/// The set of these premises.
pub fn set_of(premises: &[u16]) -> PremiseSet {
    let mut set = PremiseSet::empty();
    for premise in premises {
        if *premise < PREMISE_COUNT {
            set = set.join(PremiseSet::one(*premise));
        }
    }
    set
}

impl Alternatives {
    // No group.
    fn none() -> Alternatives {
        Alternatives {
            groups: [Group::none(); 6],
            count: 0,
        }
    }

    // Adds a group after the others.
    fn add(&mut self, group: Group) {
        if let Some(place) = self.groups.get_mut(self.count) {
            *place = group;
            self.count = self.count.saturating_add(1);
        }
    }

    /// The groups, in order.
    pub fn groups(&self) -> &[Group] {
        &self.groups[..self.count.min(6)]
    }

    // All premises of the groups.
    fn named(&self) -> PremiseSet {
        let mut set = PremiseSet::empty();
        for group in self.groups() {
            set = set.join(set_of(group.premises()));
        }
        set
    }

    /// What a user of these beliefs believes with these premises taken from the groups.
    pub fn worldview(&self, beliefs: PremiseSet, taken: &[u16]) -> PremiseSet {
        beliefs.difference(self.named()).join(set_of(taken))
    }

    /// The groups as a command has them, if a command may have them.
    pub fn said(&self) -> Option<Groups> {
        let [first, others @ ..] = self.groups() else {
            return None;
        };
        let mut groups = Groups::one(first.premises())?;
        for group in others {
            groups = groups.with(group.premises())?;
        }
        Some(groups)
    }
}

// Takes one of the premises that are left, if there is one.
fn draw_left(random: &mut Random, left: &mut PremiseSet) -> Option<u16> {
    let count = left.numbers().count() as u64;
    let premise = left.numbers().nth(random.below(count) as usize)?;
    *left = left.without(premise);
    Some(premise)
}

// A group of at most `size` of the premises that are left, in random order.
fn draw_group(random: &mut Random, size: u64, left: &mut PremiseSet) -> Group {
    let mut group = Group::none();
    for _ in 0..size {
        if let Some(premise) = draw_left(random, left) {
            group.add(premise);
        }
    }
    group
}

// Adds a group of one to four of the premises that are left, if there are any.
fn draw_next(random: &mut Random, left: &mut PremiseSet, alternatives: &mut Alternatives) {
    let size = random.below(4).saturating_add(1);
    if !left.is_empty() {
        alternatives.add(draw_group(random, size, left));
    }
}

/// One to six groups of one to four premises, none of them twice.
pub fn draw_alternatives(random: &mut Random) -> Alternatives {
    let mut left = PremiseSet::first(PREMISE_COUNT);
    let mut alternatives = Alternatives::none();
    for _ in 0..random.below(6).saturating_add(1) {
        draw_next(random, &mut left, &mut alternatives);
    }
    alternatives
}
