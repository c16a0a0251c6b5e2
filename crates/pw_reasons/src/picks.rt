//! What was chosen.

ghost use Rattle.pw_reasons.specs.Groups.{most_groups};
ghost use Rattle.pw_reasons.specs.inside.Held.{HoldsFew};

/// One premise from each group, by number, in the order of the groups. Two values with the same
/// premises are equal.
#[derive(Clone, Copy, Debug, PartialEq, Eq)]
pub struct Picks {
    held: [u16; 6],
    count: usize,
    ghost few: { HoldsFew most_groups held count },
}

impl Picks {
    ghost use Rattle.std.specs.Prelude.{◌≡◌, ◌≤◌, ◌<◌, ◌++◌, ◌∷◌, [], length};
    ghost use Rattle.pw_reasons.specs.Combinations.{picked_in};

    // No premise.
    pub(crate) fn none() -> Picks
        ensures { picked_in result ≡ [] }
    {
        Picks {
            held: [0; 6],
            count: 0,
        }
    }

    // These premises, and one more after them. There are fewer than six.
    pub(crate) fn with(self, premise: u16) -> Picks
        requires { length (picked_in self) < most_groups }
        ensures { picked_in result ≡ picked_in self ++ premise ∷ [] }
    {
        let mut held = self.held;
        held[self.count] = premise;
        Picks {
            held,
            count: self.count + 1,
        }
    }

    /// The premises, in the order of the groups. Takes no memory.
    pub fn premises(&self) -> &[u16]
        ensures premises { result.now ≡ picked_in self.now }
        ensures most { length result.now ≤ most_groups }
    {
        &self.held[..self.count]
    }
}
