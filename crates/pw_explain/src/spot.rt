//! Where in a line a fault is.
ghost use Rattle.std.specs.Prelude.{◌≡◌, ◌≤◌, ◌+◌, ◌⊎◌, ◌||◌, [], drop, length, true};
ghost use Rattle.std.specs.Prelude.{IfErr, IfNone, IfOk, IfSome};
ghost use Rattle.std.specs.List.{list_all};
ghost use Rattle.pw_info.specs.Words as spec;
ghost use Rattle.pw_explain.specs.Spot.{EndsBefore, IsFirstBadByte, IsInWordAt, IsMissingAt};
ghost use Rattle.pw_explain.specs.Spot.{IsNextWord, IsPlaceOf, IsWordAt, LiesIn};
ghost use Rattle.pw_explain.specs.Spot.{LiesWithin, next_place, used_len};

use pw_info::{blank_len, is_blank, word_len};

/// What is at fault in a line.
#[derive(Clone, Copy, Debug, PartialEq, Eq)]
pub enum Spot {
    /// The word of this number, from 0. If it is the number of words of the line, a word is missing.
    Word(usize),
    /// A name in a group of names: the numbers of the word and of the name in it, from 0.
    Name(usize, usize),
    /// The first byte that no line may have.
    Byte,
    /// The line as a whole.
    Line,
}

/// Bytes of a line or of a text: from the first number on, up to the second.
///
/// A missing word has the place of one byte, after a space after the last word. That place may lie
/// past the end of the line.
#[derive(Clone, Copy, Debug, PartialEq, Eq)]
pub struct Place {
    /// The number of the first byte, from 0.
    pub from: usize,
    /// The number of the first byte after them.
    pub to: usize,
}

/// Whether the byte is visible ASCII.
pub(crate) fn is_visible(byte: u8) -> bool
    ensures { spec.is_allowed byte ≡ (spec.is_blank byte || result) }
{
    0x21 <= byte && byte <= 0x7E
}

// The place of the first word from this byte on.
fn next_word(line: &[u8], at: usize) -> Option<Place>
    requires { at ≤ length line.now }
    ensures some { IfSome result (IsNextWord line.now at) }
    ensures none { IfNone result (spec.words_of (drop at line.now) ≡ []) }
{
    let from = at + blank_len(&line[at..]);
    let to = from + word_len(&line[from..]);
    if from == to {
        return None;
    }
    Some(Place { from, to })
}

// The place of the word of this number, or where the last word ends if there are fewer.
fn find_word(line: &[u8], number: usize) -> Result<Place, usize>
    ensures ok { IfOk result (IsWordAt line.now number) }
    ensures err { IfErr result (EndsBefore line.now number) }
{
    let mut end = 0;
    for _ in 0..number {
        match next_word(line, end) {
            Some(word) => end = word.to,
            None => return Err(end),
        }
    }
    match next_word(line, end) {
        Some(word) => Ok(word),
        None => Err(end),
    }
}

// The place of the word that is missing, where the last word ends at this byte.
fn missing_after(line: &[u8], end: usize) -> Place
    requires within { end ≤ length line.now }
    requires last { end ≡ used_len line.now }
    ensures from { result.from ≡ next_place line.now }
    ensures to { result.to ≡ result.from + 1 }
{
    let from = if end == 0 { 0 } else { end + 1 };
    Place { from, to: from + 1 }
}

// The place of the word of this number, or of the word that is missing after the last.
fn place_of_word(line: &[u8], number: usize) -> Place
    ensures { IsWordAt line.now number result ⊎ IsMissingAt line.now number result }
{
    match find_word(line, number) {
        Ok(word) => word,
        Err(end) => missing_after(line, end),
    }
}

// The place of the name of this number in the word at this place.
fn name_in(line: &[u8], word: Place, number: usize) -> Place
    requires { LiesIn line.now word }
    ensures { LiesWithin word result }
{
    let mut from = word.from;
    let mut left = number;
    for at in word.from..word.to {
        if line[at] == b'|' {
            if left == 0 {
                return Place { from, to: at };
            }
            left -= 1;
            from = at + 1;
        }
    }
    Place { from, to: word.to }
}

// The place of the name of this number in the word of that number, or of the word if it is missing.
fn place_of_name(line: &[u8], word: usize, number: usize) -> Place
    ensures { IsInWordAt line.now word result }
{
    match find_word(line, word) {
        Ok(place) => name_in(line, place, number),
        Err(end) => missing_after(line, end),
    }
}

// The place of the first byte that no line may have.
fn place_of_byte(line: &[u8]) -> Option<Place>
    ensures some { IfSome result (IsFirstBadByte line.now) }
    ensures none { IfNone result (list_all spec.is_allowed line.now ≡ true) }
{
    for (i, byte) in line.iter().enumerate() {
        if !is_blank(*byte) && !is_visible(*byte) {
            return Some(Place { from: i, to: i + 1 });
        }
    }
    None
}

/// The place in the line of what is at fault. None for the line as a whole, and for a byte that no
/// line may have if there is none.
pub fn place_of(line: &[u8], spot: Spot) -> Option<Place>
    ensures { IsPlaceOf line.now spot result }
{
    match spot {
        Spot::Word(number) => Some(place_of_word(line, number)),
        Spot::Name(word, number) => Some(place_of_name(line, word, number)),
        Spot::Byte => place_of_byte(line),
        Spot::Line => None,
    }
}
