//! The last answers on told facts. Facts told since are merged into them.

ghost use Rattle.std.specs.Prelude.{◌≡◌, None, List, All, IfSome, map};
ghost use Rattle.std.specs.Option.{option_map};
ghost use Rattle.pw_info.specs.Information.{kind_of};
ghost use Rattle.pw_cells.specs.Cells.{Cell, told_at};
ghost use Rattle.pw_cells.specs.inside.OneCell.{AreRight, IsRight, after_tell};

use crate::held::Held;
use crate::support::Support;
use pw_facts::Fact;
use pw_info::Info;
use pw_premises::{NarrowSet, PremiseSet};

// This many answers are cached.
const ANSWERS: usize = 16;

// The facts told about a cell, merged in a worldview.
#[derive(Clone, Copy)]
pub(crate) struct Recalled {
    pub(crate) cell: u32,
    pub(crate) worldview: PremiseSet,
    pub(crate) info: Info,
}

// The last answers, each at a place given by its asker. `None` before the first answer.
#[derive(Clone, Copy)]
pub(crate) struct Answers {
    pub(crate) slots: Option<[Recalled; ANSWERS]>,
}

impl Answers {
    // No answers.
    pub(crate) fn none() -> Answers
        ensures { result.slots ≡ None }
    {
        Answers { slots: None }
    }

    // The last answer to the asker, if it was on this cell in this worldview. If the answers are
    // right, it is the told information.
    pub(crate) fn find(&self, asker: u8, cell: u32, worldview: &PremiseSet) -> Option<Info>
        ensures { IfSome result (λ info. (cells : List Cell) → IfSome self.now.slots (AreRight
            cells) → info ≡ told_at cells cell worldview.now) }
    {
        let slots = self.slots.as_ref()?;
        let last = slots[usize::from(asker) % ANSWERS];
        if last.cell == cell && last.worldview == *worldview {
            Some(last.info)
        } else {
            None
        }
    }

    // Replaces the last answer to the asker by this one. If it is right, and the others were, all
    // are right.
    pub(crate) fn remember(&mut self, asker: u8, answer: Recalled)
        ensures { (cells : List Cell) → IfSome self.old.slots (AreRight cells) → IsRight cells
            answer → IfSome self.new.slots (AreRight cells) }
    {
        match &mut self.slots {
            Some(slots) => slots[usize::from(asker) % ANSWERS] = answer,
            None => self.slots = Some([answer; ANSWERS]),
        }
    }

    // Merges a fact that was told about the cell, and is of its kind, into the answers on the cell.
    #[inline(always)]
    pub(crate) fn take_in(&mut self, cell: u32, fact: &Fact)
        requires { IfSome self.old.slots (All (λ answer. answer.cell ≡ cell → kind_of answer.info ≡
            kind_of fact.now.info)) }
        ensures { self.new.slots ≡ option_map (map (after_tell cell fact.now)) self.old.slots }
    {
        if let Some(slots) = &mut self.slots {
            match NarrowSet::of(&fact.support) {
                Some(support) => take_into_each(slots, cell, &Held::on(&fact.info, support)),
                None => take_into_each(slots, cell, &Held::on(&fact.info, fact.support)),
            }
        }
    }
}

// Merges the fact into each of the answers on the cell.
fn take_into_each<S: Support>(answers: &mut [Recalled], cell: u32, fact: &Held<Info, S>)
    requires { All (λ answer. answer.cell ≡ cell → kind_of answer.info ≡ kind_of fact.now.info)
        answers.old }
    ensures { answers.new ≡ map (after_tell cell fact.now) answers.old }
{
    for place in 0..answers.len() {
        let answer = answers[place];
        // Mostly the answer says as much already, and is unchanged.
        if answer.cell == cell
            && fact.is_visible(&answer.worldview)
            && !answer.info.implies(fact.info_here())
        {
            answers[place].info = answer.info.meet(fact.info_here());
        }
    }
}
