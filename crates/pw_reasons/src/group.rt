//! One group of premises to choose from.

ghost use Rattle.pw_reasons.specs.Groups.{most_in_a_group};
ghost use Rattle.pw_reasons.specs.inside.Held.{HoldsFew};

// The greatest number of premises in a group.
const MOST_IN_A_GROUP: usize = 4;

// Premises, by number, of which one is taken. Two groups with the same premises are equal.
#[derive(Clone, Copy, Debug, PartialEq, Eq)]
pub(crate) struct Group {
    held: [u16; 4],
    count: usize,
    ghost few: { HoldsFew most_in_a_group held count },
}

impl Group {
    ghost use Rattle.std.specs.Prelude.{◌≡◌, ◌↔◌, ◌≤◌, [], length, IsSome, IfSome};
    ghost use Rattle.pw_reasons.specs.Groups.{IsGroup};
    ghost use Rattle.pw_reasons.specs.inside.GroupsHeld.{no_group, premises_in};

    // No premise.
    pub(crate) fn none() -> Group
        ensures { result ≡ no_group }
    {
        Group {
            held: [0; 4],
            count: 0,
        }
    }

    // These premises, in order. None unless there are one to four.
    pub(crate) fn of(premises: &[u16]) -> Option<Group>
        ensures some { IsSome result ↔ IsGroup premises.now }
        ensures premises { IfSome result (λ group. premises_in group ≡ premises.now) }
    {
        if premises.is_empty() || premises.len() > MOST_IN_A_GROUP {
            return None;
        }
        let mut held = [0; 4];
        held[..premises.len()].copy_from_slice(premises);
        Some(Group {
            held,
            count: premises.len(),
        })
    }

    // The premises, in order.
    pub(crate) fn premises(&self) -> &[u16]
        ensures premises { result.now ≡ premises_in self.now }
        ensures most { length result.now ≤ most_in_a_group }
    {
        &self.held[..self.count]
    }
}
