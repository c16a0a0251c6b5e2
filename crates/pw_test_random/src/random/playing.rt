//! A sequence of commands over one workbench, each reply compared with the answer by rounds.

ghost use Rattle.std.specs.Prelude.{◌+◌, ◌≤◌};
ghost use Rattle.pw_decl.specs.inside.Fields.{declared};
ghost use Rattle.pw_sessions.specs.inside.Fields.{state};
ghost use Rattle.pw_transcript.specs.Limits.{most_lines};
ghost use Rattle.pw_transcript.specs.inside.Answering.{IsLeft};

use super::answers::Answer;
use super::counts::Counts;
use super::declared::WORLD;
use super::drawing::{Action, COMMANDS, Command, draw_command};
use super::entries::Entries;
use super::fresh::Users;
use super::lines::line_of;
use super::refusing::{Refused, Watch, refusing_again};
use super::showing::{Shown, shown_before};
use crate::replying::reply_to;
use pw_decl::Declaration;
use pw_network::Network;
use pw_procs::Registry;
use pw_sessions::Workbench;
use pw_testing::Refusing;
use pw_testing::worlds::{OverDeclaration, over_text};
use pw_transcript::read_command;
use std::alloc::{AllocError, Allocator, Global};
use std::test::Fail;

/// The sequence of a seed: which of its commands are given, each at the line of its place, and
/// which growths are refused meanwhile. The line of a command that is left out is blank.
#[derive(Clone, Copy)]
pub struct Play<'a> {
    pub seed: u64,
    pub is_given: &'a [bool],
    pub refused: Refused,
}

impl Play<'_> {
    /// The command at this place, unless it is left out.
    pub fn command(&self, place: usize) -> Option<Command> {
        match self.is_given.get(place) {
            Some(true) => Some(draw_command(self.seed, place)),
            _ => None,
        }
    }
}

/// A reply that differs from the answer by rounds.
#[derive(Drop)]
pub struct Difference {
    pub line: u32,
    pub wanted: Answer,
    pub given: Answer,
}

/// What a sequence comes to.
#[derive(Drop)]
pub enum Outcome {
    /// Each reply was the answer by rounds, or refused where a growth was.
    Same(Counts),
    /// The answer to a command takes too many rounds.
    TooLong,
    Differs(Difference),
}

// Whether the line is read as the command says it, if the command is a choose.
fn reads_groups<A: Allocator + Copy>(
    declaration: &Declaration<'_, A>,
    line: &[u8],
    command: &Option<Command>,
) -> bool {
    let Some(command) = command else {
        return true;
    };
    let Action::Choose(alternatives) = &command.action else {
        return true;
    };
    match read_command(line, declaration) {
        Ok(Some(pw_sessions::Command::Choose { groups, .. })) => {
            alternatives.said() == Some(groups)
        }
        _ => false,
    }
}

// A line, its answer by rounds, and how often it may call procedures.
#[derive(Drop)]
struct Asked {
    number: u32,
    line: String,
    wanted: Answer,
    most_calls: u128,
}

// What a line got: the answer, what the workbench shows then, and whether a growth was refused.
#[derive(Drop)]
struct Got {
    answer: Answer,
    shown: Shown,
    is_met: bool,
}

// What the lines so far left and came to.
#[derive(Drop)]
struct State {
    entries: Entries,
    users: Users,
    counts: Counts,
}

impl State {
    // Nothing left, and nothing compared.
    fn new(alloc: Global) -> Result<State, AllocError> {
        Ok(State {
            entries: Entries::new(alloc)?,
            users: Users::new(),
            counts: Counts::none(),
        })
    }

    // The line of this number, with its answer by rounds. It says the command, or is blank if there
    // is none. Nothing if the answer takes too many rounds.
    fn ask(
        &self,
        registry: &Registry,
        number: u32,
        command: Option<Command>,
    ) -> Result<Option<Asked>, Fail> {
        let alloc = self.entries.alloc;
        let Some(command) = command else {
            return Ok(Some(Asked {
                number,
                line: String::new(alloc),
                wanted: Answer::Blank,
                most_calls: u128::MAX,
            }));
        };
        let Some(wanted) = self.entries.answer(registry, &command)? else {
            return Ok(None);
        };
        let line = line_of(alloc, &command)?;
        Ok(Some(Asked {
            number,
            line,
            wanted,
            most_calls: self.users.most_calls(&self.entries, &command),
        }))
    }

    // Takes in a command that was accepted and got this answer.
    fn accept(
        &mut self,
        registry: &Registry,
        number: u32,
        command: &Command,
        answer: &Answer,
    ) -> Result<(), Fail> {
        let before = self.entries.beliefs(command.user);
        self.users.note_news(registry, &self.entries, command)?;
        self.entries.accept(registry, number, command)?;
        self.entries.accept_choice(command, answer);
        self.users
            .note_answer(&self.entries, command, answer, &before);
        Ok(())
    }

    // Takes in what a command got. Answers whether it was refused, as a growth was.
    fn take_in_command(
        &mut self,
        registry: &Registry,
        command: &Command,
        asked: &Asked,
        got: &Got,
    ) -> Result<bool, Fail> {
        self.counts.count(&got.answer);
        if self.entries.settles(command) {
            self.counts.count_settling(self.users.of(command.user));
        }
        if got.answer == Answer::NoMemory && got.is_met && !self.entries.takes_no_memory(command) {
            self.users.note_refusal(command.user);
            return Ok(true);
        }
        self.accept(registry, asked.number, command, &asked.wanted)?;
        Ok(false)
    }

    // Takes in what a line got, if it is the answer by rounds, or if the command was refused and a
    // growth was. Else answers the difference.
    fn take_in(
        &mut self,
        registry: &Registry,
        command: Option<Command>,
        asked: Asked,
        got: Got,
    ) -> Result<Option<Difference>, Fail> {
        let is_refused = match &command {
            Some(command) => self.take_in_command(registry, command, &asked, &got)?,
            None => false,
        };
        if is_refused {
            return Ok(asked.unless_shown(&got.shown, &self.entries));
        }
        Ok(asked.unless(got, &self.entries))
    }
}

impl Asked {
    // The difference between the wanted answer and what the line got, if there is one.
    fn unless(self, got: Got, entries: &Entries) -> Option<Difference> {
        if got.answer == self.wanted {
            return self.unless_shown(&got.shown, entries);
        }
        Some(Difference {
            line: self.number,
            wanted: self.wanted,
            given: got.answer,
        })
    }

    // The same of what the workbench shows beside its reply.
    fn unless_shown(&self, shown: &Shown, entries: &Entries) -> Option<Difference> {
        let (wanted, given) = shown.difference(entries, self.most_calls)?;
        Some(Difference {
            line: self.number,
            wanted,
            given,
        })
    }
}

// A sequence over a declaration. All growths but those of rounds are those of `memory`.
#[derive(Drop)]
struct Playing<'o, 'i, 'p, A: Allocator> {
    alloc: Global,
    memory: A,
    watch: Watch<'o, 'i>,
    play: Play<'p>,
}

// Gives the line of this number to the workbench, and answers what it got.
fn give_line<A: Allocator + Copy>(
    task: &Playing<'_, '_, '_, A>,
    declaration: &Declaration<'_, A>,
    number: u32,
    line: &[u8],
    command: &Option<Command>,
    workbench: &mut Workbench<'_, '_, A>,
) -> Result<Got, AllocError>
    requires left { IsLeft (declared declaration.now) number (state workbench.old) }
    requires most { number ≤ most_lines }
    ensures { IsLeft (declared declaration.now) (number + 1) (state workbench.new) }
{
    let before = task.watch.met();
    let reply = reply_to(declaration, number, line, workbench);
    let is_met = task.watch.met() > before;
    let shown = shown_before(declaration, number + 1, workbench);
    let answer = if reads_groups(declaration, line, command) {
        Answer::given(task.alloc, &reply)?
    } else {
        Answer::OtherGroups
    };
    Ok(Got {
        answer,
        shown,
        is_met,
    })
}

// Gives the commands to a new workbench, one after another. Answers what the sequence comes to, if
// it ends before its last line or a line differs.
fn play_lines<A: Allocator + Copy>(
    task: &Playing<'_, '_, '_, A>,
    declaration: &Declaration<'_, A>,
    workbench: &mut Workbench<'_, '_, A>,
    past: &mut State,
) -> Result<Option<Outcome>, Fail>
    requires left { IsLeft (declared declaration.now) 1 (state workbench.old) }
{
    let mut number = 1u32;
    for place in 0..COMMANDS {
        if number > 1_000_000 {
            return Err("too many lines".into());
        }
        let command = task.play.command(place);
        let Some(asked) = past.ask(declaration.registry(), number, command)? else {
            return Ok(Some(Outcome::TooLong));
        };
        let line = asked.line.as_bytes();
        let got = give_line(task, declaration, number, line, &command, workbench)?;
        number += 1;
        if let Some(difference) = past.take_in(declaration.registry(), command, asked, got)? {
            return Ok(Some(Outcome::Differs(difference)));
        }
    }
    Ok(None)
}

// What the commands come to over this workbench, which is new.
fn play_through<A: Allocator + Copy>(
    task: &Playing<'_, '_, '_, A>,
    declaration: &Declaration<'_, A>,
    workbench: &mut Workbench<'_, '_, A>,
) -> Result<Outcome, Fail>
    requires left { IsLeft (declared declaration.now) 1 (state workbench.old) }
{
    let mut past = State::new(task.alloc)?;
    past.counts.growths_before = task.watch.asked();
    if let Some(outcome) = play_lines(task, declaration, workbench, &mut past)? {
        return Ok(outcome);
    }
    past.counts.growths = task.watch.asked();
    Ok(Outcome::Same(past.counts))
}

// The same over a new workbench.
fn play_over<A: Allocator + Copy>(
    task: &Playing<'_, '_, '_, A>,
    declaration: &Declaration<'_, A>,
) -> Result<Outcome, Fail> {
    let network = Network::new(task.memory, declaration)?;
    let mut workbench = Workbench::new(task.memory, declaration, network)?;
    play_through(task, declaration, &mut workbench)
}

impl<A: Allocator + Copy> OverDeclaration<A> for Playing<'_, '_, '_, A> {
    type Answer = Result<Outcome, Fail>;

    fn over(self, declaration: &Declaration<'_, A>) -> Result<Outcome, Fail> {
        play_over(&self, declaration)
    }
}

/// What a sequence comes to.
pub fn played(alloc: Global, play: &Play<'_>) -> Result<Outcome, Fail> {
    let again = refusing_again(alloc, &play.refused);
    let inner = &again;
    let once = Refusing::nth(inner, play.refused.once);
    let outer = &once;
    let task = Playing {
        alloc,
        memory: outer,
        watch: Watch {
            outer,
            inner,
            refused: play.refused,
        },
        play: *play,
    };
    over_text(alloc, outer, WORLD, task)?
}
