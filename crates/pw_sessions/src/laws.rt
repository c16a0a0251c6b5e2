//! Laws of answers. Each is the contract of a function that does nothing, and holds of every
//! transcript.

ghost use Rattle.pw_sessions.specs.Laws.{RefusedLinesCountAsBlank, UnbelievedEntriesChangeNothing};
ghost use Rattle.pw_sessions.specs.Laws.{VisibleEntriesMeetTheLaws, CellValuesGrow};
ghost use Rattle.pw_sessions.specs.Laws.{ReasonsGiveTheValue, ReasonsAreNeeded};
ghost use Rattle.pw_sessions.specs.Laws.{UnbelievedLinesCountAsBlank, BlankLinesLeaveAWorkbench};
ghost use Rattle.pw_sessions.specs.Laws.{CommandsNotRefusedAreAnswered};

/// A refused line leaves nothing, no matter why it was refused: the later lines get the replies
/// that they would get if it were blank.
pub fn refused_lines_count_as_blank()
    ensures { RefusedLinesCountAsBlank }
{}

/// The answer to a command is the answer from only the visible entries, as if everything that its
/// user does not believe had never been said. For a choice, what its user names to choose from
/// counts as believed.
pub fn unbelieved_entries_change_nothing()
    ensures { UnbelievedEntriesChangeNothing }
{}

/// What visible entries say meets the conditions of the fixpoint's laws. So the laws hold of each
/// value in a reply: a round leaves it unchanged, and it is the least informed one for which this
/// holds.
pub fn visible_entries_meet_the_laws()
    ensures { VisibleEntriesMeetTheLaws }
{}

/// More is known if more is believed. So the laws of reasons hold of the reason in a reply to
/// `why`: it is a part of the user's beliefs that gives the same value, and without any one of its
/// premises the value is another.
pub fn reasons_say_why()
    ensures grows { CellValuesGrow }
    ensures same { ReasonsGiveTheValue }
    ensures needed { ReasonsAreNeeded }
{}

/// Users do not disturb each other. A line gets the reply that it would get if all earlier lines
/// that it does not rest on were blank. It rests on its user's own lines that change beliefs, own
/// choices among them; on the tells and attachments whose premises its user then believes; and on
/// those whose premises the user believed or named to choose from, at a later choice of the user's
/// own. A line that says no command rests on no line.
pub fn unbelieved_lines_count_as_blank()
    ensures { UnbelievedLinesCountAsBlank }
{}

/// A blank or refused line leaves a workbench unchanged, so a host need not pass such lines to it.
pub fn blank_lines_leave_a_workbench()
    ensures { BlankLinesLeaveAWorkbench }
{}

/// A command that was carried out and not refused was answered, and its line counts from then on.
pub fn commands_not_refused_are_answered()
    ensures { CommandsNotRefusedAreAnswered }
{}
