//! A text, cut at one of its lines.
ghost use Rattle.std.specs.Prelude.{◌≡◌, ◌↔◌, [], IfNone, IfSome, IsTrue};
ghost use Rattle.std.specs.List.{list_all};
ghost use Rattle.pw_info.specs.Lines.{lines_of};
ghost use Rattle.pw_info.specs.Words.{is_idle};
ghost use Rattle.pw_explain.specs.Cut.{BeginsWithWord, HasNoLine, IsCutAt, IsCutOf, IsRestOf, is_header};

use crate::before::Before;
use crate::sort::Stand;
use pw_info::{TextLines, Words, idles, next_line};

// Whether each line of the text is blank or a comment.
fn all_idle(text: &[u8]) -> bool
    ensures { result ≡ list_all is_idle (lines_of text.now) }
{
    let mut lines = TextLines::new(text);
    while let Some(line) = lines.next() {
        if !idles(line) {
            return false;
        }
    }
    true
}

/// The parts of a text before a line, that line, and what comes after it.
#[derive(Clone, Copy)]
pub struct Cut<'a> {
    /// The lines before it, with their line feeds.
    pub before: &'a [u8],
    /// The line, without its line feed.
    pub line: &'a [u8],
    /// The line feed of the line, if it has one, and the lines after it.
    pub after: &'a [u8],
}

impl<'a> Cut<'a> {
    // Where the line stands.
    fn stand(&self) -> Stand {
        Before::of(b"", self.before).stand
    }

    /// Whether the line is the header: the first one that is neither blank nor a comment.
    pub fn is_header(&self) -> bool
        ensures { result ≡ is_header (lines_of self.now.before.now) self.now.line.now }
    {
        !idles(self.line) && all_idle(self.before)
    }

    // Whether the line begins a compound.
    fn opens_compound(&self) -> bool {
        begins_with(b"compound", self.line) && self.stand() == Stand::Outside
    }

    /// The lines after the line; if it begins a compound, those after the end of the compound.
    pub(crate) fn rest(&self) -> &'a [u8]
        ensures { IsRestOf self.now.after.now result.now }
    {
        if self.opens_compound() {
            after_end(self.after)
        } else {
            after_line(self.after)
        }
    }
}

// The lines after the first.
fn after_line(text: &[u8]) -> &[u8]
    ensures { IsRestOf text.now result.now }
{
    match next_line(text) {
        Some((_, rest)) => rest,
        None => b"",
    }
}

// The lines after the one that ends the open compound.
fn after_end(text: &[u8]) -> &[u8]
    ensures { IsRestOf text.now result.now }
{
    let mut rest = text;
    while let Some((line, after)) = next_line(rest) {
        if begins_with(b"end", line) {
            return after;
        }
        rest = after;
    }
    b""
}

// A text whose first line is the one at which it is cut, after the bytes before it.
fn cut_at_first<'a>(before: &'a [u8], rest: &'a [u8]) -> Option<Cut<'a>>
    ensures some { IfSome result (λ cut. (cut.before.now ≡ before.now) × IsCutOf rest.now cut) }
    ensures none { IfNone result (rest.now ≡ []) }
{
    if rest.is_empty() {
        return None;
    }
    let line = match next_line(rest) {
        Some((line, _)) => line,
        None => rest,
    };
    Some(Cut {
        before,
        line,
        after: &rest[line.len()..],
    })
}

/// The text, cut at the line of this number, from 1. None if it has no such line.
pub fn cut_at(text: &[u8], number: u32) -> Option<Cut<'_>>
    ensures some { IfSome result (IsCutAt text.now number) }
    ensures none { IfNone result (HasNoLine text.now number) }
{
    if number == 0 {
        return None;
    }
    let mut rest = text;
    for _ in 1..number {
        let (_, after) = next_line(rest)?;
        rest = after;
    }
    let before = &text[..text.len() - rest.len()];
    cut_at_first(before, rest)
}

/// Whether the first word of the line is this one.
pub(crate) fn begins_with(word: &[u8], line: &[u8]) -> bool
    ensures { IsTrue result ↔ BeginsWithWord word.now line.now }
{
    match Words::new(line).next() {
        Some(first) => first == word,
        None => false,
    }
}
