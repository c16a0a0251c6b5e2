//! The first word of a line of a transcript that fits no form.

use crate::expected::Expected;
use crate::explanation::Explanation;
use crate::form::{Fits, end_fits, is_one_of, last_word_fits, some_fit, wrong_word};
use pw_info::{Words, allows_all};

// Nothing, or `under` and premises, from the word of this number on.
fn under_fits<'a>(words: &mut Words<'a>, number: usize) -> Fits<'a> {
    let Some(word) = words.next() else {
        return Ok(());
    };
    if word != b"under".as_slice() {
        return Err(wrong_word(word, number, Expected::Under, &[b"under"]));
    }
    some_fit(words, number.saturating_add(1), Expected::Premise)
}

// The cells of an attachment, and what follows them.
fn cells_fit<'a>(words: &mut Words<'a>) -> Fits<'a> {
    let mut number = 3usize;
    while let Some(word) = words.next() {
        if word == b"under".as_slice() {
            if number == 3 {
                return Err(Explanation::word(number, Expected::Cell));
            }
            return some_fit(words, number.saturating_add(1), Expected::Premise);
        }
        number = number.saturating_add(1);
    }
    if number == 3 {
        return Err(Explanation::word(number, Expected::Cell));
    }
    Ok(())
}

// Whether no name in a group is empty.
fn is_group(word: &[u8]) -> bool {
    let mut was_bar = true;
    for byte in word {
        if *byte == b'|' && was_bar {
            return false;
        }
        was_bar = *byte == b'|';
    }
    !was_bar
}

// The groups of a choice.
fn groups_fit<'a>(words: &mut Words<'a>) -> Fits<'a> {
    let mut number = 2usize;
    while let Some(word) = words.next() {
        if !is_group(word) {
            return Err(Explanation::word(number, Expected::Group));
        }
        number = number.saturating_add(1);
    }
    if number == 2 {
        return Err(Explanation::word(number, Expected::Group));
    }
    Ok(())
}

// The words after `tell`.
fn tell_fits<'a>(words: &mut Words<'a>) -> Fits<'a> {
    if words.next().is_none() {
        return Err(Explanation::word(2, Expected::Cell));
    }
    match words.next() {
        Some(_) => under_fits(words, 4),
        None => Err(Explanation::word(3, Expected::AnyInformation)),
    }
}

// The words after `attach`.
fn attach_fits<'a>(words: &mut Words<'a>) -> Fits<'a> {
    match words.next() {
        Some(_) => cells_fit(words),
        None => Err(Explanation::word(2, Expected::Callable)),
    }
}

// The words after a command.
fn command_fits<'a>(command: &[u8], words: &mut Words<'a>) -> Fits<'a> {
    if command == b"tell".as_slice() {
        tell_fits(words)
    } else if command == b"attach".as_slice() {
        attach_fits(words)
    } else if command == b"choose".as_slice() {
        groups_fit(words)
    } else if is_one_of(command, &[b"believe", b"doubt"]) {
        some_fit(words, 2, Expected::Premise)
    } else if is_one_of(command, &[b"ask", b"why"]) {
        last_word_fits(words, 2, Expected::Cell)
    } else if is_one_of(command, &[b"beliefs", b"conflicts"]) {
        end_fits(words, 2)
    } else {
        Ok(())
    }
}

/// Whether the words of a line of a transcript fit the form of its command.
pub(crate) fn command_line_fits<'a>(line: &'a [u8]) -> Fits<'a> {
    if !allows_all(line) {
        return Err(Explanation::byte());
    }
    let mut words = Words::new(line);
    if words.next().is_none() {
        return Ok(());
    }
    match words.next() {
        Some(command) => command_fits(command, &mut words),
        None => Err(Explanation::word(1, Expected::Command)),
    }
}
