//! A bound on what the older facts of a cell say.
ghost use Rattle.std.specs.Prelude.{◌≡◌, ◌-◌, []};
ghost use Rattle.pw_info.specs.Information.{kind_of};
ghost use Rattle.pw_cells.specs.inside.OneCell.{Bounds};
ghost use Rattle.pw_cells.specs.inside.OneCell.{AreOfKind};

use crate::content::Content;
use crate::held::Held;
use crate::support::Support;
use pw_info::{Info, Kind};

// This many of the last facts are always gone over. A few are enough: the facts that came last
// mostly say the most.
const LATEST: usize = 4;

// How many of a list of facts are older ones, and an information that says at least as much as each
// of them. If more is known than this information says, no older fact need be examined.
#[derive(Clone, Copy)]
pub(crate) struct Bound {
    pub(crate) count: usize,
    pub(crate) info: Info,
}

impl Bound {
    // The bound of no facts of the kind.
    pub(crate) fn none(kind: Kind) -> Bound
        ensures { Bounds kind [] result }
    {
        Bound {
            count: 0,
            info: Info::nothing(kind),
        }
    }

    // `dropped` of the facts were dropped, from any places. At worst all of them were older ones,
    // so the count falls by that number.
    pub(crate) fn lower(&mut self, dropped: usize)
        ensures count { self.new.count ≡ self.old.count - dropped }
        ensures info { self.new.info ≡ self.old.info }
    {
        self.count = self.count.saturating_sub(dropped);
    }

    // From now on all facts but the last few are older ones.
    pub(crate) fn raise<C: Content, S: Support>(&mut self, facts: &[Held<C, S>])
        requires kinds { AreOfKind (kind_of self.old.info) facts.now }
        requires bounds { Bounds (kind_of self.old.info) facts.now self.old }
        ensures { Bounds (kind_of self.old.info) facts.now self.new }
    {
        while facts.len() - self.count > LATEST {
            self.info = self.info.meet(&facts[self.count].info());
            self.count += 1;
        }
    }
}
