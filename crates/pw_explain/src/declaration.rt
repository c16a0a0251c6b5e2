//! The faults of a declaration.

use crate::before::{Before, is_built_in_kind, second_word, third_word, words_after_name};
use crate::call::explain_cells;
use crate::cut::{Cut, begins_with};
use crate::expected::{Expected, sort_word};
use crate::explanation::Explanation;
use crate::form::line_fits;
use crate::near::Nearest;
use crate::sort::{Sort, Stand};
use pw_decl::{DeclFault, DeclFaultKind};
use pw_info::Words;

// The greatest number of bytes in a line.
const MOST_LINE_BYTES: usize = 4096;

// The greatest number of parameters.
const MOST_PARAMETERS: usize = 8;

// The number of the words before the first member or parameter.
const FRONT: usize = 2;

// The sort of the name that the line declares.
fn sort_of(line: &[u8], stand: Stand) -> Option<Sort> {
    if stand == Stand::Inside {
        return begins_with(b"local", line).then_some(Sort::Local);
    }
    Sort::of_verb(Words::new(line).next()?)
}

// What has the new name already: what every declaration has, or a line before.
fn owner_of_name<'a>(before: &Before<'a>, sort: Sort, name: &[u8]) -> Option<Expected<'a>> {
    if sort == Sort::Set && is_built_in_kind(name) {
        return Some(Expected::NewThanBuiltIn("kind"));
    }
    if sort == Sort::Compound && before.row(name).is_some() {
        return Some(Expected::NewThanBuiltIn("procedure or compound"));
    }
    if sort == Sort::Local && before.parameter_kind(name).is_some() {
        let opened = before.opened?;
        return Some(Expected::NewThanLine(opened.number, "parameter"));
    }
    let declaring = before.declaring(sort, name)?;
    Some(Expected::NewThanLine(declaring.number, sort_word(sort)))
}

// Whether the word stands at a multiple of `step` below this number.
fn stands_before(word: &[u8], mut words: Words<'_>, step: usize, number: usize) -> bool {
    let mut at = 0usize;
    while let Some(other) = words.next() {
        if at >= number {
            return false;
        }
        if at % step.max(1) == 0 && word == other {
            return true;
        }
        at = at.saturating_add(1);
    }
    false
}

// The first multiple of `step` at which a word stands that also stands at an earlier one.
fn second_standing(words: Words<'_>, step: usize) -> Option<usize> {
    let mut rest = words.again();
    let mut at = 0usize;
    while let Some(word) = rest.next() {
        if at % step.max(1) == 0 && stands_before(word, words.again(), step, at) {
            return Some(at);
        }
        at = at.saturating_add(1);
    }
    None
}

// A member or a parameter that is named twice.
fn explain_twice<'a>(sort: Sort, line: &'a [u8]) -> Explanation<'a> {
    let (step, what) = match sort {
        Sort::Compound => (2, "parameter"),
        _ => (1, "member"),
    };
    match second_standing(words_after_name(line), step) {
        Some(at) => { Explanation::word(at.saturating_add(FRONT), Expected::NewThanWord(what)) }
        None => Explanation::word(1, Expected::Name),
    }
}

// A name that is there already.
fn explain_duplicate<'a>(before: &Before<'a>, line: &'a [u8]) -> Explanation<'a> {
    let (Some(sort), Some(name)) = (sort_of(line, before.stand), second_word(line)) else {
        return Explanation::line(Expected::Name);
    };
    match owner_of_name(before, sort, name) {
        Some(expected) => Explanation::word(1, expected),
        None => explain_twice(sort, line),
    }
}

// A word that names no kind.
fn unknown_kind<'a>(before: &Before<'a>, word: &'a [u8], number: usize) -> Explanation<'a> {
    let mut nearest = Nearest::to(word);
    before.offer_kinds(&mut nearest);
    Explanation::word_near(number, Expected::Kind, nearest.name())
}

// A word that names no user.
fn unknown_user<'a>(before: &Before<'a>, word: &'a [u8], number: usize) -> Explanation<'a> {
    let mut nearest = Nearest::to(word);
    before.offer_names(Sort::User, &mut nearest);
    Explanation::word_near(number, Expected::User, nearest.name())
}

// The first kind of a parameter that no kind has as its name.
fn explain_kinds<'a>(before: &Before<'a>, line: &'a [u8]) -> Explanation<'a> {
    let mut words = words_after_name(line);
    let mut number = FRONT;
    while let Some(_) = words.next() {
        number = number.saturating_add(1);
        if let Some(kind) = words.next() {
            if !before.has_kind(kind) {
                return unknown_kind(before, kind, number);
            }
        }
        number = number.saturating_add(1);
    }
    Explanation::line(Expected::Kind)
}

// A word that names nothing that may begin a line in a compound.
fn unknown_callable<'a>(before: &Before<'a>, word: &'a [u8]) -> Explanation<'a> {
    let mut nearest = Nearest::to(word);
    before.offer_callables(&mut nearest);
    nearest.offer(b"local");
    nearest.offer(b"end");
    Explanation::word_near(0, Expected::Call, nearest.name())
}

// A word that names no cell of the compound.
fn unknown_cell<'a>(before: &Before<'a>, word: &'a [u8], number: usize) -> Explanation<'a> {
    let mut nearest = Nearest::to(word);
    before.offer_compound_cells(&mut nearest);
    Explanation::word_near(number, Expected::CompoundCell, nearest.name())
}

// The first word of a call that names nothing.
fn explain_call<'a>(before: &Before<'a>, line: &'a [u8]) -> Explanation<'a> {
    let mut words = Words::new(line);
    let Some(callable) = words.next() else {
        return Explanation::line(Expected::Call);
    };
    if !before.has_callable(callable) {
        return unknown_callable(before, callable);
    }
    let mut number = 1usize;
    while let Some(word) = words.next() {
        if before.cell_kind(word).is_none() {
            return unknown_cell(before, word, number);
        }
        number = number.saturating_add(1);
    }
    Explanation::line(Expected::CompoundCell)
}

// The user to whom a premise belongs, whom no line names.
fn explain_user<'a>(before: &Before<'a>, line: &'a [u8]) -> Explanation<'a> {
    let mut words = words_after_name(line);
    words.next();
    match words.next() {
        Some(user) => unknown_user(before, user, 3),
        None => Explanation::line(Expected::User),
    }
}

// A name that nothing has.
fn explain_unknown<'a>(before: &Before<'a>, line: &'a [u8]) -> Explanation<'a> {
    match sort_of(line, before.stand) {
        Some(Sort::Premise) => explain_user(before, line),
        Some(Sort::Compound) => explain_kinds(before, line),
        Some(_) => unknown_kind(before, third_word(line).unwrap_or(b""), 2),
        None => explain_call(before, line),
    }
}

// Too few members, no parameter, or cells that a callable does not take.
fn explain_arguments<'a>(before: &Before<'a>, line: &'a [u8]) -> Explanation<'a> {
    if before.stand == Stand::Inside {
        let mut words = Words::new(line);
        return match words.next() {
            Some(callable) => explain_cells(before, callable, words, 1),
            None => Explanation::line(Expected::Call),
        };
    }
    if begins_with(b"set", line) {
        let number = if third_word(line).is_some() { 3 } else { 2 };
        return Explanation::word(number, Expected::Members);
    }
    Explanation::word(2, Expected::Parameter)
}

// The number of words, or `most` if there are more.
fn count_up_to(mut words: Words<'_>, most: usize) -> usize {
    let mut count = 0usize;
    for _ in 0..most {
        if words.next().is_none() {
            return count;
        }
        count = count.saturating_add(1);
    }
    count
}

// A set, or one member too many.
fn explain_set_limit<'a>(before: &Before<'a>, line: &'a [u8]) -> Explanation<'a> {
    if before.count(Sort::Set) >= 32 {
        return Explanation::word(1, Expected::NoMore("32 sets"));
    }
    if before.is_second_version() {
        return Explanation::word(FRONT + 128, Expected::NoMore("128 members"));
    }
    let most = "64 members, or 128 after `workbench 2`";
    Explanation::word(FRONT + 64, Expected::NoMore(most))
}

// A compound, or one parameter too many.
fn explain_compound_limit<'a>(line: &'a [u8]) -> Explanation<'a> {
    let most = FRONT + 2 * MOST_PARAMETERS;
    if count_up_to(Words::new(line), most + 1) > most {
        return Explanation::word(most, Expected::NoMore("8 parameters"));
    }
    Explanation::word(1, Expected::NoMore("64 compounds"))
}

// One too many.
fn explain_limit<'a>(before: &Before<'a>, line: &'a [u8]) -> Explanation<'a> {
    if line.len() > MOST_LINE_BYTES {
        return Explanation::line(Expected::ShortLine);
    }
    match sort_of(line, before.stand) {
        Some(Sort::User) => Explanation::word(1, Expected::NoMore("64 users")),
        Some(Sort::Premise) => {
            if before.is_second_version() {
                Explanation::word(1, Expected::NoMore("512 premises"))
            } else {
                let most = "64 premises, or 512 after `workbench 2`";
                Explanation::word(1, Expected::NoMore(most))
            }
        }
        Some(Sort::Cell) => Explanation::word(1, Expected::NoMore("1,024 cells")),
        Some(Sort::Set) => explain_set_limit(before, line),
        Some(Sort::Compound) => explain_compound_limit(line),
        Some(Sort::Local) => Explanation::word(1, Expected::NoMore("256 inner cells")),
        None => {
            let most = "256 procedures and 256 inner cells in a compound";
            Explanation::word(0, Expected::NoMore(most))
        }
    }
}

// Words that fit no form.
fn explain_syntax<'a>(before: &Before<'a>, line: &'a [u8]) -> Explanation<'a> {
    match line_fits(line, before.stand) {
        Err(explanation) => explanation,
        Ok(()) => Explanation::line(Expected::FirstWord),
    }
}

/// What is wrong with the line at which the text of a declaration is cut, where the lines before it
/// have no fault. `table` is the table of the procedures and built-in compounds.
pub fn explain_fault<'a>(table: &'a [u8], cut: &Cut<'a>, why: DeclFaultKind) -> Explanation<'a> {
    let before = Before::of(table, cut.before);
    match why {
        DeclFaultKind::Syntax => explain_syntax(&before, cut.line),
        DeclFaultKind::DuplicateName => explain_duplicate(&before, cut.line),
        DeclFaultKind::UnknownName => explain_unknown(&before, cut.line),
        DeclFaultKind::WrongArguments => explain_arguments(&before, cut.line),
        DeclFaultKind::Limit => explain_limit(&before, cut.line),
        DeclFaultKind::MissingEnd => Explanation::line(Expected::End),
        DeclFaultKind::Memory => Explanation::line(Expected::Memory),
    }
}

/// What is wrong with a text whose fault is at none of its lines.
pub fn explain_text_fault(fault: DeclFault) -> Explanation<'static> {
    match fault.why {
        DeclFaultKind::Limit => Explanation::line(Expected::ShortText),
        DeclFaultKind::MissingEnd => Explanation::line(Expected::End),
        DeclFaultKind::Memory => Explanation::line(Expected::Memory),
        _ => Explanation::line(Expected::Header),
    }
}
