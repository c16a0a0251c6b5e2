//! The first word of a line of a declaration that fits no form.

use crate::expected::Expected;
use crate::explanation::Explanation;
use crate::near::Nearest;
use crate::sort::{Sort, Stand};
use pw_info::{Words, allows_all, is_name};

/// Nothing, or the first word that does not fit.
pub(crate) type Fits<'a> = Result<(), Explanation<'a>>;

/// The explanation of a word that does not fit, in a place where one of these words may stand.
pub(crate) fn wrong_word<'a>(
    word: &'a [u8],
    number: usize,
    expected: Expected<'a>,
    words: &[&'a [u8]],
) -> Explanation<'a> {
    let mut nearest = Nearest::to(word);
    nearest.offer_all(words);
    Explanation::word_near(number, expected, nearest.name())
}

/// Whether no word follows, where the next has this number.
pub(crate) fn end_fits<'a>(words: &Words<'a>, number: usize) -> Fits<'a> {
    if words.is_empty() {
        Ok(())
    } else {
        Err(Explanation::word(number, Expected::NoWord))
    }
}

// Whether the word of this number, which is there, is a name.
fn name_fits<'a>(word: &[u8], number: usize) -> Fits<'a> {
    if is_name(word) {
        return Ok(());
    }
    let expected = if is_reserved(word) {
        Expected::FreeName
    } else {
        Expected::Name
    };
    Err(Explanation::word(number, expected))
}

/// Whether the word is one of these.
pub(crate) fn is_one_of(word: &[u8], words: &[&[u8]]) -> bool {
    words.contains(&word)
}

// Whether the word is one of those that are no names.
fn is_reserved(word: &[u8]) -> bool {
    is_one_of(word, &[b"under", b"none", b"nothing", b"contradiction"])
        || is_one_of(word, &[b"line", b"of", b"local", b"end"])
}

/// One word or more, of which the first has this number.
pub(crate) fn some_fit<'a>(words: &Words<'a>, number: usize, expected: Expected<'a>) -> Fits<'a> {
    if words.is_empty() {
        Err(Explanation::word(number, expected))
    } else {
        Ok(())
    }
}

/// Takes the next word, which has this number and after which none follows.
pub(crate) fn last_word_fits<'a>(
    words: &mut Words<'a>,
    number: usize,
    expected: Expected<'a>,
) -> Fits<'a> {
    match words.next() {
        Some(_) => end_fits(words, number.saturating_add(1)),
        None => Err(Explanation::word(number, expected)),
    }
}

// Takes the new name, the second word.
fn new_name_fits<'a>(words: &mut Words<'a>) -> Fits<'a> {
    let Some(word) = words.next() else {
        return Err(Explanation::word(1, Expected::Name));
    };
    name_fits(word, 1)
}

// A header: the first words of a declaration, after the first of them.
fn header_fits<'a>(verb: &'a [u8], words: &mut Words<'a>) -> Fits<'a> {
    if verb != b"workbench".as_slice() {
        return Err(wrong_word(verb, 0, Expected::Header, &[b"workbench"]));
    }
    match words.next() {
        Some(version) if is_one_of(version, &[b"1", b"2"]) => end_fits(words, 2),
        _ => Err(Explanation::word(1, Expected::Header)),
    }
}

// What follows the name of a premise.
fn owner_fits<'a>(words: &mut Words<'a>) -> Fits<'a> {
    let Some(between) = words.next() else {
        return Ok(());
    };
    if between != b"of".as_slice() {
        return Err(wrong_word(between, 2, Expected::Of, &[b"of"]));
    }
    last_word_fits(words, 3, Expected::User)
}

// The members of a set.
fn members_fit<'a>(words: &mut Words<'a>) -> Fits<'a> {
    let mut number = 2usize;
    while let Some(member) = words.next() {
        name_fits(member, number)?;
        number = number.saturating_add(1);
    }
    Ok(())
}

// The parameters of a compound and their kinds.
fn parameters_fit<'a>(words: &mut Words<'a>) -> Fits<'a> {
    let mut number = 2usize;
    while let Some(parameter) = words.next() {
        name_fits(parameter, number)?;
        number = number.saturating_add(1);
        if words.next().is_none() {
            return Err(Explanation::word(number, Expected::Kind));
        }
        number = number.saturating_add(1);
    }
    Ok(())
}

// What follows a new name of this sort.
fn named_fits<'a>(sort: Sort, words: &mut Words<'a>) -> Fits<'a> {
    match sort {
        Sort::User => end_fits(words, 2),
        Sort::Premise => owner_fits(words),
        Sort::Set => members_fit(words),
        Sort::Compound => parameters_fit(words),
        Sort::Cell | Sort::Local => last_word_fits(words, 2, Expected::Kind),
    }
}

// A new name of this sort, and what follows it.
fn declared_fits<'a>(sort: Sort, words: &mut Words<'a>) -> Fits<'a> {
    new_name_fits(words)?;
    named_fits(sort, words)
}

// A line outside compounds, after its first word.
fn outer_fits<'a>(verb: &'a [u8], words: &mut Words<'a>) -> Fits<'a> {
    match Sort::of_verb(verb) {
        Some(sort) => declared_fits(sort, words),
        None => {
            let verbs: [&[u8]; 5] = [b"user", b"premise", b"set", b"cell", b"compound"];
            Err(wrong_word(verb, 0, Expected::FirstWord, &verbs))
        }
    }
}

// A line inside a compound, after its first word.
fn inner_fits<'a>(verb: &[u8], words: &mut Words<'a>) -> Fits<'a> {
    if verb == b"local".as_slice() {
        declared_fits(Sort::Local, words)
    } else if verb == b"end".as_slice() {
        end_fits(words, 1)
    } else {
        some_fit(words, 1, Expected::CompoundCell)
    }
}

/// Whether the words of a line that stands there fit a form.
pub(crate) fn line_fits<'a>(line: &'a [u8], stand: Stand) -> Fits<'a> {
    if !allows_all(line) {
        return Err(Explanation::byte());
    }
    let mut words = Words::new(line);
    let Some(verb) = words.next() else {
        return Ok(());
    };
    match stand {
        Stand::BeforeHeader => header_fits(verb, &mut words),
        Stand::Outside => outer_fits(verb, &mut words),
        Stand::Inside => inner_fits(verb, &mut words),
    }
}
