//! What is wrong with the groups of a choice.
ghost use Rattle.std.specs.Prelude.{◌≡◌, IfSome};
ghost use Rattle.pw_decl.specs.inside.Fields.{declared};
ghost use Rattle.pw_explain.specs.Wanted.{IsNameAt, IsNearestAtSpot};
ghost use Rattle.pw_explain.specs.declared.spot.Spot.TheVariants as spots;

use crate::command::{nearest_premise, words_from};
use crate::expected::Expected;
use crate::explanation::Explanation;
use crate::spot::Spot;
use pw_decl::Declaration;
use pw_info::{GroupNames, Words};
use std::alloc::Allocator;

// The number of the words before the first group.
const FRONT: usize = 2;

// The greatest number of groups, and of names in a group.
const MOST_GROUPS: usize = 6;

const MOST_NAMES: usize = 4;

// A name in a group, by the number of the word and that of the name in it, from 0.
fn name_at<'a>(
    word: usize,
    name: usize,
    expected: Expected<'a>,
    near: Option<&'a [u8]>,
) -> Explanation<'a>
    ensures spot { result.spot ≡ spots.Name word name }
    ensures near { result.near ≡ near.entry }
{
    Explanation {
        spot: Spot::Name(word, name),
        expected,
        near,
    }
}

// The number of the first name in the group that names no premise.
fn unknown_in_group<'a, A: Allocator + Copy>(
    declaration: &Declaration<'_, A>,
    word: &'a [u8],
) -> Option<(usize, &'a [u8])>
    ensures { IfSome result (λ it. IsNameAt word.now it.0 it.1.now) }
{
    let mut names = GroupNames::new(word);
    // A word has at most one name more than bytes.
    for number in 0..=word.len() {
        let name = names.next()?;
        if declaration.premise(name).is_none() {
            return Some((number, name));
        }
    }
    None
}

/// The first name in the groups that names no premise.
pub(crate) fn unknown_premise_in_groups<'a, A: Allocator + Copy>(
    declaration: &'a Declaration<'_, A>,
    line: &'a [u8],
) -> Explanation<'a>
    ensures { IsNearestAtSpot (declared declaration.now).premises line.now result.spot result.near }
{
    let mut words = words_from(line, FRONT);
    // A line has no more words than bytes.
    for number in FRONT..line.len() {
        let Some(word) = words.next() else {
            break;
        };
        if let Some((name_number, name)) = unknown_in_group(declaration, word) {
            let near = nearest_premise(declaration, name);
            return name_at(number, name_number, Expected::Premise, near);
        }
    }
    Explanation::line(Expected::Premise)
}

// Whether the name is among the first `most` names of a group.
fn is_among(name: &[u8], word: &[u8], most: usize) -> bool {
    let mut names = GroupNames::new(word);
    for _ in 0..most {
        match names.next() {
            Some(other) if other == name => return true,
            Some(_) => {}
            None => return false,
        }
    }
    false
}

// Whether the name is in one of the first `most` groups.
fn is_in_groups(name: &[u8], mut words: Words<'_>, most: usize) -> bool {
    for _ in 0..most {
        match words.next() {
            Some(word) if is_among(name, word, MOST_NAMES) => return true,
            Some(_) => {}
            None => return false,
        }
    }
    false
}

// The first name in the group, which has this number, that is one too many, or stands before.
fn wrong_in_group<'a>(words: Words<'a>, word: &'a [u8], group: usize) -> Option<Explanation<'a>> {
    let place = group.saturating_add(FRONT);
    let mut names = GroupNames::new(word);
    for number in 0..MOST_NAMES {
        let name = names.next()?;
        if is_among(name, word, number) || is_in_groups(name, words.again(), group) {
            return Some(name_at(place, number, Expected::Once, None));
        }
    }
    names.next()?;
    let expected = Expected::NoMore("4 names in a group");
    Some(name_at(place, MOST_NAMES, expected, None))
}

/// The first group, or name in a group, that may not stand there.
pub(crate) fn explain_choice<'a>(words: Words<'a>) -> Explanation<'a> {
    let mut rest = words.again();
    for group in 0..MOST_GROUPS {
        let Some(word) = rest.next() else {
            return Explanation::line(Expected::Group);
        };
        if let Some(explanation) = wrong_in_group(words.again(), word, group) {
            return explanation;
        }
    }
    Explanation::word(MOST_GROUPS + FRONT, Expected::NoMore("6 groups"))
}
