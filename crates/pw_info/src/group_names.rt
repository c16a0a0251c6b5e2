//! The names of a group of premises: a word, cut at each `|`.

use crate::cut::cut_at;
use std::marker::Model;

/// The remaining names of a group, as a list of names. A name may be empty.
#[derive(Drop)]
pub struct GroupNames<'a> {
    // None if no name is left.
    rest: Option<&'a [u8]>,
}

impl<'a> Model for GroupNames<'a> {
    ghost use Rattle.std.specs.Prelude.{List, ℕ};
    ghost use Rattle.pw_info.specs.GroupNames.{names_left};

    ghost Value = { List (List ℕ) };

    ghost view = { λ names. names_left names.rest };
}

impl<'a> GroupNames<'a> {
    ghost use Rattle.std.specs.Prelude.{◌≡◌, ◌∷◌, [], MatchOption};
    ghost use Rattle.pw_info.specs.GroupNames.{names_in};

    /// All names in the word, the parts between its `|`: one for a word without `|`.
    pub fn new(word: &'a [u8]) -> GroupNames<'a>
        ensures { result ≡ names_in word.now }
    {
        GroupNames { rest: Some(word) }
    }

    /// No name.
    pub fn none() -> GroupNames<'a>
        ensures { result ≡ [] }
    {
        GroupNames { rest: None }
    }

    /// Takes the next name, or gives `None` if no name is left.
    pub fn next(&mut self) -> Option<&'a [u8]>
        ensures { MatchOption result ((self.old ≡ []) × (self.new ≡ []))
            (λ name. self.old ≡ name.now ∷ self.new) }
    {
        let word = self.rest?;
        let Some((name, rest)) = cut_at(word, b'|') else {
            self.rest = None;
            return Some(word);
        };
        self.rest = Some(rest);
        Some(name)
    }

    /// The same names, for going over them a second time.
    pub fn again(&self) -> GroupNames<'a>
        ensures { result ≡ self.now }
    {
        GroupNames { rest: self.rest }
    }
}
