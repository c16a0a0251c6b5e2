//! The words of a line, and the lines that say nothing.

ghost use Rattle.std.specs.Prelude.{◌≡◌, ℕ, ◌∷◌, ◌↔◌, ◌≤◌, [], List, length, drop, MatchOption};
ghost use Rattle.std.specs.Prelude.{IsTrue, true};
ghost use Rattle.std.specs.List.{prefix_len, list_all};
ghost use Rattle.pw_info.specs.Words as spec;

use crate::lanes::{LANES, before_blank};
use std::marker::Model;

/// Whether the byte is a blank: a space, a tab or a carriage return.
pub fn is_blank(byte: u8) -> bool
    ensures { result ≡ spec.is_blank byte }
{
    byte == b' ' || byte == b'\t' || byte == b'\r'
}

// A blank or a visible ASCII character. No branch depends on the byte, so that many bytes can be
// tested at once.
fn is_allowed(byte: u8) -> bool
    ensures { result ≡ spec.is_allowed byte }
{
    is_blank(byte) | ((byte >= 0x21) & (byte <= 0x7E))
}

/// Whether the line says nothing: it is empty, only blanks, or a comment, with any bytes after its
/// `#`.
pub fn idles(line: &[u8]) -> bool
    ensures { result ≡ spec.is_idle line.now }
{
    for byte in line {
        if !is_blank(*byte) {
            return *byte == b'#';
        }
    }
    true
}

// Whether each byte of the line is a space or a visible ASCII character. It does not stop at
// another byte: a loop that may stop early tests one byte at a time.
fn prints_all(line: &[u8]) -> bool
    ensures { IsTrue result → list_all spec.is_allowed line.now ≡ true }
{
    let mut all = true;
    for byte in line {
        all &= (*byte >= b' ') & (*byte <= 0x7E);
    }
    all
}

/// Whether each byte of the line is a blank or a visible ASCII character.
pub fn allows_all(line: &[u8]) -> bool
    ensures { result ≡ list_all spec.is_allowed line.now }
{
    // Most lines have spaces as their only blanks, and then two comparisons a byte are enough.
    if prints_all(line) {
        return true;
    }
    let mut all = true;
    for byte in line {
        all &= is_allowed(*byte);
    }
    all
}

// Spaces at the end of a line are skipped this many at once, and then once half as many.
const SPACES: &[u8] = b"        ";

const FEW_SPACES: &[u8] = b"    ";

// The line without the spaces at its end, except for fewer than are skipped at last.
fn without_last_spaces(line: &[u8]) -> &[u8]
    ensures { spec.words_of result.now ≡ spec.words_of line.now }
{
    let mut front = line;
    while let Some(shorter) = front.strip_suffix(SPACES) {
        front = shorter;
    }
    match front.strip_suffix(FEW_SPACES) {
        Some(shorter) => shorter,
        None => front,
    }
}

/// The number of blanks at the front of the bytes.
pub fn blank_len(bytes: &[u8]) -> usize
    ensures value { result ≡ prefix_len spec.is_blank bytes.now }
    ensures within { result ≤ length bytes.now }
{
    for (i, byte) in bytes.iter().enumerate() {
        if !is_blank(*byte) {
            return i;
        }
    }
    bytes.len()
}

// The bytes after the blanks at the front.
fn after_blanks(bytes: &[u8]) -> &[u8]
    ensures { result.now ≡ drop (prefix_len spec.is_blank bytes.now) bytes.now }
{
    &bytes[blank_len(bytes)..]
}

/// The number of bytes before the first blank.
pub fn word_len(bytes: &[u8]) -> usize
    ensures value { result ≡ prefix_len spec.is_plain bytes.now }
    ensures within { result ≤ length bytes.now }
{
    let mut end = 0;
    while bytes.len() - end >= LANES {
        if let Some(run) = before_blank(bytes, end) {
            return end + run;
        }
        end += LANES;
    }
    while end < bytes.len() && !is_blank(bytes[end]) {
        end += 1;
    }
    end
}

// The first word, and the bytes after it. Inlined, like `Words::next`: a call costs as much as the
// work.
#[inline(always)]
fn split_word(bytes: &[u8]) -> Option<(&[u8], &[u8])>
    ensures { MatchOption result (spec.words_of bytes.now ≡ [])
        (λ parts. spec.words_of bytes.now ≡ parts.0.now ∷ spec.words_of parts.1.now) }
{
    let text = after_blanks(bytes);
    let end = word_len(text);
    if end == 0 {
        return None;
    }
    Some(text.split_at(end))
}

/// The remaining words of a line, as a list of words.
#[derive(Drop)]
pub struct Words<'a> {
    rest: &'a [u8],
}

impl<'a> Model for Words<'a> {
    ghost use Rattle.std.specs.Prelude.{List, ℕ};
    ghost use Rattle.pw_info.specs.Words as spec;

    ghost Value = { List (List ℕ) };

    ghost view = { λ words. spec.words_of words.rest.now };
}

impl<'a> Words<'a> {
    /// All words of the line.
    pub fn new(line: &'a [u8]) -> Words<'a>
        ensures { result ≡ spec.words_of line.now }
    {
        Words {
            rest: without_last_spaces(line),
        }
    }

    /// Takes the next word, or gives `None` if no word is left.
    #[inline(always)]
    pub fn next(&mut self) -> Option<&'a [u8]>
        ensures { MatchOption result ((self.old ≡ []) × (self.new ≡ []))
            (λ word. self.old ≡ word.now ∷ self.new) }
    {
        let (word, rest) = split_word(self.rest)?;
        self.rest = rest;
        Some(word)
    }

    /// Whether no word is left.
    pub fn is_empty(&self) -> bool
        ensures { result ≡ spec.is_nil self.now }
    {
        after_blanks(self.rest).is_empty()
    }

    /// The same words, for going over them a second time.
    pub fn again(&self) -> Words<'a>
        ensures { result ≡ self.now }
    {
        Words { rest: self.rest }
    }
}
