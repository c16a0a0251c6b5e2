//! The names of premises in the groups to choose from: the words of a line, each cut at each `|`.

ghost use Rattle.std.specs.Prelude.{◌≡◌, ◌↔◌, IsTrue, map};
ghost use Rattle.std.specs.List.{list_all, list_any};
ghost use Rattle.std.specs.Str.{bytes_eq};
ghost use Rattle.pw_info.specs.GroupNames.{names_in};
ghost use Rattle.pw_reasons.specs.Groups.{AreGroups};
ghost use Rattle.pw_transcript.specs.inside.Grouping.{all_names, are_few, has_few_names};
ghost use Rattle.pw_transcript.specs.inside.Grouping.{is_group_word, stand_once};

use pw_info::{GroupNames, Words};
use std::marker::Model;

// The greatest number of groups, and of names in a group.
const MOST_GROUPS: usize = 6;

const MOST_NAMES: usize = 4;

// Whether the word is a group: no name in it is empty.
fn is_group(word: &[u8]) -> bool
    ensures { result ≡ is_group_word word.now }
{
    let mut names = GroupNames::new(word);
    while let Some(name) = names.next() {
        if name.is_empty() {
            return false;
        }
    }
    true
}

/// Whether each of the words is a group: no name in it is empty.
pub(crate) fn are_group_words(mut words: Words<'_>) -> bool
    ensures { result ≡ list_all is_group_word words.entry }
{
    while let Some(word) = words.next() {
        if !is_group(word) {
            return false;
        }
    }
    true
}

// Whether there are at most four names in the word.
fn names_are_few(word: &[u8]) -> bool
    ensures { result ≡ has_few_names word.now }
{
    let mut names = GroupNames::new(word);
    let mut count = 0;
    while let Some(_) = names.next() {
        if count >= MOST_NAMES {
            return false;
        }
        count += 1;
    }
    true
}

// Whether there are at most six words, and at most four names in each.
fn words_are_few(mut words: Words<'_>) -> bool
    ensures { result ≡ are_few words.entry }
{
    let mut count = 0;
    while let Some(word) = words.next() {
        if count >= MOST_GROUPS || !names_are_few(word) {
            return false;
        }
        count += 1;
    }
    true
}

/// The remaining names of all groups, as a list of names.
#[derive(Drop)]
pub(crate) struct AllNames<'a> {
    // Those of the first group.
    names: GroupNames<'a>,
    // The other groups.
    words: Words<'a>,
}

impl<'a> Model for AllNames<'a> {
    ghost use Rattle.std.specs.Prelude.{◌++◌, List, ℕ};
    ghost use Rattle.pw_transcript.specs.inside.Grouping.{all_names};

    ghost Value = { List (List ℕ) };

    ghost view = { λ all. all.names ++ all_names all.words };
}

impl<'a> AllNames<'a> {
    ghost use Rattle.std.specs.Prelude.{◌∷◌, [], MatchOption};

    /// All names in the words.
    pub(crate) fn new(words: Words<'a>) -> AllNames<'a>
        ensures { result ≡ all_names words.entry }
    {
        AllNames {
            names: GroupNames::none(),
            words,
        }
    }

    /// Takes the next name, or gives `None` if no name is left.
    pub(crate) fn next(&mut self) -> Option<&'a [u8]>
        ensures { MatchOption result ((self.old ≡ []) × (self.new ≡ []))
            (λ name. self.old ≡ name.now ∷ self.new) }
    {
        if let Some(name) = self.names.next() {
            return Some(name);
        }
        let word = self.words.next()?;
        self.names = GroupNames::new(word);
        self.names.next()
    }

    // The same names, for going over them a second time.
    fn again(&self) -> AllNames<'a>
        ensures { result ≡ self.now }
    {
        AllNames {
            names: self.names.again(),
            words: self.words.again(),
        }
    }

    // Whether the name is one of these.
    fn contain(mut self, name: &[u8]) -> bool
        ensures { result ≡ list_any (bytes_eq name.now) self.entry }
    {
        while let Some(other) = self.next() {
            if name == other {
                return true;
            }
        }
        false
    }
}

// Whether no name stands twice in the words.
fn names_stand_once(words: Words<'_>) -> bool
    ensures { result ≡ stand_once (all_names words.entry) }
{
    let mut names = AllNames::new(words);
    while let Some(name) = names.next() {
        if names.again().contain(name) {
            return false;
        }
    }
    true
}

/// Whether the words are groups to choose from: one to six words, in each one to four names, and no
/// name stands twice in the whole.
pub(crate) fn are_groups(words: Words<'_>) -> bool
    ensures { IsTrue result ↔ AreGroups (map names_in words.entry) }
{
    if words.is_empty() || !words_are_few(words.again()) {
        return false;
    }
    names_stand_once(words)
}
