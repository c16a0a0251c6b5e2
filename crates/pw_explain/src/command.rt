//! The refusals of a line of a transcript.
ghost use Rattle.std.specs.Prelude.{◌≡◌, [], drop};
ghost use Rattle.pw_info.specs.Words.{words_of};
ghost use Rattle.pw_decl.specs.inside.Fields.{declared};
ghost use Rattle.pw_explain.specs.Near.{IsNearest};
ghost use Rattle.pw_explain.specs.Wanted.{IsNearestAtSpot, IsWanted, commands};
ghost use Rattle.pw_explain.specs.inside.Kept.{KeepsNearest};

use crate::before::{Before, third_word};
use crate::call::{explain_cells, next_cell};
use crate::choice::{explain_choice, unknown_premise_in_groups};
use crate::command_form::command_line_fits;
use crate::expected::Expected;
use crate::explanation::Explanation;
use crate::near::Nearest;
use pw_decl::Declaration;
use pw_info::Words;
use pw_sessions::Refusal;
use std::alloc::Allocator;

// Offers the words that name commands.
fn offer_commands<'a>(nearest: &mut Nearest<'a>)
    ensures word { nearest.new.word ≡ nearest.old.word }
    ensures nearest { KeepsNearest nearest.old [] → KeepsNearest nearest.new commands }
{
    nearest.offer(b"tell");
    nearest.offer(b"attach");
    nearest.offer(b"believe");
    nearest.offer(b"doubt");
    nearest.offer(b"beliefs");
    nearest.offer(b"ask");
    nearest.offer(b"why");
    nearest.offer(b"conflicts");
    nearest.offer(b"choose");
}

// The nearest of the users to a word.
fn nearest_user<'a, A: Allocator + Copy>(
    declaration: &'a Declaration<'_, A>,
    word: &'a [u8],
) -> Option<&'a [u8]>
    ensures { IsNearest word.now (declared declaration.now).users result }
{
    let mut nearest = Nearest::to(word);
    for user in 0..declaration.users() {
        nearest.offer(declaration.user_name(user).as_bytes());
    }
    nearest.name()
}

// The nearest of the cells to a word.
fn nearest_cell<'a, A: Allocator + Copy>(
    declaration: &'a Declaration<'_, A>,
    word: &'a [u8],
) -> Option<&'a [u8]>
    ensures { IsNearest word.now (declared declaration.now).cells result }
{
    let mut nearest = Nearest::to(word);
    for cell in 0..declaration.cells() {
        nearest.offer(declaration.cell_name(cell).as_bytes());
    }
    nearest.name()
}

/// The nearest of the premises to a word.
pub(crate) fn nearest_premise<'a, A: Allocator + Copy>(
    declaration: &'a Declaration<'_, A>,
    word: &'a [u8],
) -> Option<&'a [u8]>
    ensures { IsNearest word.now (declared declaration.now).premises result }
{
    let mut nearest = Nearest::to(word);
    for premise in 0..declaration.premises() {
        nearest.offer(declaration.premise_name(premise).as_bytes());
    }
    nearest.name()
}

/// The words of a line from the word of this number on.
pub(crate) fn words_from(line: &[u8], number: usize) -> Words<'_>
    ensures { result ≡ drop number (words_of line.now) }
{
    let mut words = Words::new(line);
    for _ in 0..number {
        words.next();
    }
    words
}

// Whether this is the command of the line.
fn is_command(line: &[u8], command: &[u8]) -> bool {
    words_from(line, 1).next() == Some(command)
}

// The first word names no user.
fn explain_user<'a, A: Allocator + Copy>(
    declaration: &'a Declaration<'_, A>,
    line: &'a [u8],
) -> Explanation<'a>
    ensures { IsNearestAtSpot (declared declaration.now).users line.now result.spot result.near }
{
    let near = match Words::new(line).next() {
        Some(word) => nearest_user(declaration, word),
        None => None,
    };
    Explanation::word_near(0, Expected::User, near)
}

// The second word names no command.
fn explain_command<'a>(line: &'a [u8]) -> Explanation<'a>
    ensures { IsNearestAtSpot commands line.now result.spot result.near }
{
    let Some(word) = words_from(line, 1).next() else {
        return Explanation::word(1, Expected::Command);
    };
    let mut nearest = Nearest::to(word);
    offer_commands(&mut nearest);
    Explanation::word_near(1, Expected::Command, nearest.name())
}

// The number of the first word before `under`, from the fourth on, that names no cell.
fn unknown_cell_number<A: Allocator + Copy>(
    declaration: &Declaration<'_, A>,
    line: &[u8],
) -> Option<usize> {
    let mut words = words_from(line, 3);
    let mut number = 3usize;
    while let Some(word) = next_cell(&mut words) {
        if declaration.cell(word).is_none() {
            return Some(number);
        }
        number = number.saturating_add(1);
    }
    None
}

// A word names no cell.
fn explain_cell<'a, A: Allocator + Copy>(
    declaration: &'a Declaration<'_, A>,
    line: &'a [u8],
) -> Explanation<'a>
    ensures { IsNearestAtSpot (declared declaration.now).cells line.now result.spot result.near }
{
    let number = if is_command(line, b"attach") {
        unknown_cell_number(declaration, line).unwrap_or(3)
    } else {
        2
    };
    let near = match words_from(line, number).next() {
        Some(word) => nearest_cell(declaration, word),
        None => None,
    };
    Explanation::word_near(number, Expected::Cell, near)
}

// The third word names no procedure and no compound.
fn explain_callable<'a>(before: &Before<'a>, line: &'a [u8]) -> Explanation<'a> {
    let near = match third_word(line) {
        Some(word) => {
            let mut nearest = Nearest::to(word);
            before.offer_callables(&mut nearest);
            nearest.name()
        }
        None => None,
    };
    Explanation::word_near(2, Expected::Callable, near)
}

// The fourth word spells no information of the kind of the cell.
fn explain_information<'a>(before: &Before<'a>, line: &'a [u8]) -> Explanation<'a> {
    let kind = match third_word(line) {
        Some(cell) => before.cell_kind(cell),
        None => None,
    };
    match kind {
        Some(kind) => Explanation::word(3, Expected::Information(kind)),
        None => Explanation::word(3, Expected::AnyInformation),
    }
}

// Cells that a callable does not take, or groups that may not be chosen from.
fn explain_arguments<'a>(before: &Before<'a>, line: &'a [u8]) -> Explanation<'a> {
    if is_command(line, b"choose") {
        return explain_choice(words_from(line, 2));
    }
    match third_word(line) {
        Some(callable) => explain_cells(before, callable, words_from(line, 3), 3),
        None => Explanation::word(2, Expected::Callable),
    }
}

// The number of the first word that may name a premise: the first after `believe` or `doubt`, or
// the first after `under`.
fn first_premise_number(line: &[u8]) -> usize {
    if is_command(line, b"believe") || is_command(line, b"doubt") {
        return 2;
    }
    if is_command(line, b"tell") {
        return 5;
    }
    let mut words = words_from(line, 3);
    let mut number = 4usize;
    while let Some(_) = next_cell(&mut words) {
        number = number.saturating_add(1);
    }
    number
}

// A word names no premise.
fn explain_premise<'a, A: Allocator + Copy>(
    declaration: &'a Declaration<'_, A>,
    line: &'a [u8],
) -> Explanation<'a>
    ensures { IsNearestAtSpot (declared declaration.now).premises line.now result.spot result.near }
{
    if is_command(line, b"choose") {
        return unknown_premise_in_groups(declaration, line);
    }
    let first = first_premise_number(line);
    let mut words = words_from(line, first);
    // A line has no more words than bytes.
    for number in first..line.len() {
        let Some(word) = words.next() else {
            break;
        };
        if declaration.premise(word).is_none() {
            let near = nearest_premise(declaration, word);
            return Explanation::word_near(number, Expected::Premise, near);
        }
    }
    Explanation::line(Expected::Premise)
}

// Whether the premise of this name belongs to another user.
fn is_of_another<A: Allocator + Copy>(
    declaration: &Declaration<'_, A>,
    user: u8,
    name: &[u8],
) -> bool {
    match declaration.premise(name) {
        Some(premise) => match declaration.owner(premise) {
            Some(owner) => owner != user,
            None => false,
        },
        None => false,
    }
}

// A premise belongs to another user.
fn explain_owner<'a, A: Allocator + Copy>(
    declaration: &Declaration<'_, A>,
    line: &'a [u8],
) -> Explanation<'a> {
    let Some(name) = Words::new(line).next() else {
        return Explanation::line(Expected::User);
    };
    let Some(user) = declaration.user(name) else {
        return Explanation::word(0, Expected::User);
    };
    let mut number = first_premise_number(line);
    let mut words = words_from(line, number);
    while let Some(word) = words.next() {
        if is_of_another(declaration, user, word) {
            return Explanation::word(number, Expected::OwnPremise(name));
        }
        number = number.saturating_add(1);
    }
    Explanation::line(Expected::OwnPremise(name))
}

/// What is wrong with a line of a transcript that is refused with this refusal. `table` is the table
/// of the procedures and built-in compounds, and `text` that of the declaration, which has no fault.
pub fn explain_refusal<'a, A: Allocator + Copy>(
    table: &'a [u8],
    text: &'a [u8],
    declaration: &'a Declaration<'_, A>,
    line: &'a [u8],
    refusal: Refusal,
) -> Explanation<'a>
    ensures near { IsWanted (declared declaration.now) refusal line.now result.spot result.near }
{
    let before = Before::whole(table, text);
    match refusal {
        Refusal::LineTooLong => Explanation::line(Expected::ShortCommand),
        Refusal::Syntax => match command_line_fits(line) {
            Err(explanation) => explanation,
            Ok(()) => Explanation::line(Expected::Command),
        },
        Refusal::UnknownUser => explain_user(declaration, line),
        Refusal::UnknownCommand => explain_command(line),
        Refusal::UnknownCell => explain_cell(declaration, line),
        Refusal::UnknownProcedure => explain_callable(&before, line),
        Refusal::WrongInformation => explain_information(&before, line),
        Refusal::WrongArguments => explain_arguments(&before, line),
        Refusal::UnknownPremise => explain_premise(declaration, line),
        Refusal::NotYourPremise => explain_owner(declaration, line),
        Refusal::Memory => Explanation::line(Expected::Memory),
    }
}
