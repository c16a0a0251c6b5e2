//! What a workbench shows after a line, beside its reply.

ghost use Rattle.std.specs.Prelude.{◌≤◌};
ghost use Rattle.pw_decl.specs.inside.Fields.{declared};
ghost use Rattle.pw_sessions.specs.inside.Fields.{state};
ghost use Rattle.pw_transcript.specs.inside.Answering.{IsLeft};

use super::answers::Answer;
use super::entries::Entries;
use pw_decl::Declaration;
use pw_premises::PremiseSet;
use pw_sessions::Workbench;
use std::alloc::Allocator;

/// What each user believes, and how often the line called procedures.
#[derive(Clone, Copy)]
pub struct Shown {
    beliefs: [PremiseSet; 3],
    calls: u128,
}

// What the user believes, who is declared; nothing of another user. The next line has this number.
fn believed<A: Allocator + Copy>(
    declaration: &Declaration<'_, A>,
    number: u32,
    workbench: &Workbench<'_, '_, A>,
    user: u8,
) -> PremiseSet
    requires left { IsLeft (declared declaration.now) number (state workbench.now) }
{
    let _number = number;
    if user < declaration.users() {
        workbench.beliefs(user)
    } else {
        PremiseSet::empty()
    }
}

/// What the workbench shows before the line of this number.
pub fn shown_before<A: Allocator + Copy>(
    declaration: &Declaration<'_, A>,
    number: u32,
    workbench: &Workbench<'_, '_, A>,
) -> Shown
    requires left { IsLeft (declared declaration.now) number (state workbench.now) }
{
    Shown {
        beliefs: [
            believed(declaration, number, workbench, 0),
            believed(declaration, number, workbench, 1),
            believed(declaration, number, workbench, 2),
        ],
        calls: workbench.last_calls(),
    }
}

impl Shown {
    /// What it should be and what it is, where something is not as the lines so far left it, or
    /// procedures were called more than so often.
    pub fn difference(&self, entries: &Entries, most_calls: u128) -> Option<(Answer, Answer)> {
        if self.calls > most_calls {
            return Some((Answer::Calls(most_calls), Answer::Calls(self.calls)));
        }
        for (user, beliefs) in self.beliefs.iter().enumerate() {
            let wanted = entries.beliefs(user);
            if wanted != *beliefs {
                return Some((Answer::Believes(wanted), Answer::Believes(*beliefs)));
            }
        }
        None
    }
}
