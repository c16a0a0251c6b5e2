//! The lines of a text, one after another.
ghost use Rattle.std.specs.Prelude.{◌≡◌, [], ◌∷◌, ◌<◌, length, MatchOption, IfSome};
ghost use Rattle.pw_info.specs.Lines.{lines_of};

use crate::lines::next_line;
use std::marker::Model;

// The first line of a text, and the text after it.
fn split_line(text: &[u8]) -> Option<(&[u8], &[u8])>
    ensures { MatchOption result (lines_of text.now ≡ [])
        (λ parts. lines_of text.now ≡ parts.0.now ∷ lines_of parts.1.now) }
{
    if let Some((line, rest)) = next_line(text) {
        return Some((line, rest));
    }
    if text.is_empty() {
        return None;
    }
    Some(text.split_at(text.len()))
}

/// The remaining lines of a text, as a list of lines.
#[derive(Drop)]
pub struct TextLines<'a> {
    rest: &'a [u8],
}

impl<'a> Model for TextLines<'a> {
    ghost use Rattle.std.specs.Prelude.{List, ℕ};
    ghost use Rattle.pw_info.specs.Lines.{lines_of};

    ghost Value = { List (List ℕ) };

    ghost view = { λ lines. lines_of lines.rest.now };
}

impl<'a> TextLines<'a> {
    /// All lines of the text.
    pub fn new(text: &'a [u8]) -> TextLines<'a>
        ensures { result ≡ lines_of text.now }
    {
        TextLines { rest: text }
    }

    /// Takes the next line, or gives `None` if no line is left.
    pub fn next(&mut self) -> Option<&'a [u8]>
        ensures { MatchOption result ((self.old ≡ []) × (self.new ≡ []))
            (λ line. self.old ≡ line.now ∷ self.new) }
    {
        let (line, rest) = split_line(self.rest)?;
        self.rest = rest;
        Some(line)
    }
}
