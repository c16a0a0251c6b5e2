//! The explanation of a faulty line, and the lines in which it is written.
ghost use Rattle.std.specs.Prelude.{◌≡◌, ◌++◌, None, OnOk, replicate};
ghost use Rattle.pw_explain.specs.Explanation as spec;
ghost use Rattle.pw_explain.specs.declared.spot.Spot.TheVariants as spots;

use crate::expected::Expected;
use crate::spot::{Place, Spot, is_visible, place_of};
use pw_info::is_blank;
use std::alloc::{AllocError, Allocator};

// The greatest number of bytes of a line that are shown.
const SHOWN: usize = 100;

/// What is at fault in a line, what was expected there, and the nearest name of that sort.
#[derive(Clone, Copy, Debug, PartialEq, Eq)]
pub struct Explanation<'a> {
    /// What is at fault.
    pub spot: Spot,
    /// What was expected there.
    pub expected: Expected<'a>,
    /// The nearest name, if one is near.
    pub near: Option<&'a [u8]>,
}

impl<'a> Explanation<'a> {
    /// A word at fault, with no name near.
    pub(crate) fn word(number: usize, expected: Expected<'a>) -> Explanation<'a>
        ensures spot { result.spot ≡ spots.Word number }
        ensures near { result.near ≡ None }
    {
        Explanation {
            spot: Spot::Word(number),
            expected,
            near: None,
        }
    }

    /// A word at fault, and the name that is near.
    pub(crate) fn word_near(
        number: usize,
        expected: Expected<'a>,
        near: Option<&'a [u8]>,
    ) -> Explanation<'a>
        ensures spot { result.spot ≡ spots.Word number }
        ensures near { result.near ≡ near.entry }
    {
        Explanation {
            spot: Spot::Word(number),
            expected,
            near,
        }
    }

    /// The line as a whole.
    pub(crate) fn line(expected: Expected<'a>) -> Explanation<'a>
        ensures spot { result.spot ≡ spots.Line }
        ensures near { result.near ≡ None }
    {
        Explanation {
            spot: Spot::Line,
            expected,
            near: None,
        }
    }

    /// The first byte that no line may have.
    pub(crate) fn byte() -> Explanation<'a> {
        Explanation {
            spot: Spot::Byte,
            expected: Expected::AllowedByte,
            near: None,
        }
    }
}

// Adds a byte `count` times.
fn add_times<A: Allocator>(text: &mut Vec<u8, A>, byte: u8, count: usize) -> Result<(), AllocError>
    ensures { OnOk result (text.new.items ≡ text.old.items ++ replicate count byte) }
{
    for _ in 0..count {
        text.push(byte)?;
    }
    Ok(())
}

// The byte as it is shown: a blank as a space, what is not visible as a question mark.
fn shown_byte(byte: u8) -> u8
    ensures { result ≡ spec.shown_byte byte }
{
    if is_blank(byte) {
        b' '
    } else if is_visible(byte) {
        byte
    } else {
        b'?'
    }
}

// The number of the first byte that is shown.
fn shown_from(line: &[u8], place: Place) -> usize
    ensures { result ≡ spec.shown_from line.now place }
{
    if line.len() > SHOWN && place.to > SHOWN {
        place.from
    } else {
        0
    }
}

// Adds the shown part of a line.
fn add_shown<A: Allocator>(
    text: &mut Vec<u8, A>,
    line: &[u8],
    from: usize,
) -> Result<(), AllocError>
    ensures { OnOk result (text.new.items ≡ text.old.items ++ spec.shown_part line.now from) }
{
    text.extend_from_slice(b"    ")?;
    let rest = &line[from.min(line.len())..];
    for byte in &rest[..rest.len().min(SHOWN)] {
        text.push(shown_byte(*byte))?;
    }
    text.push(b'\n')?;
    Ok(())
}

// Adds the line under it, which marks the place.
fn add_marks<A: Allocator>(
    text: &mut Vec<u8, A>,
    place: Place,
    from: usize,
) -> Result<(), AllocError>
    ensures { OnOk result (text.new.items ≡ text.old.items ++ spec.marks place from) }
{
    let start = place.from.saturating_sub(from);
    let end = place.to.saturating_sub(from).min(SHOWN);
    text.extend_from_slice(b"    ")?;
    add_times(text, b' ', start)?;
    add_times(text, b'^', end.saturating_sub(start))?;
    text.push(b'\n')?;
    Ok(())
}

/// Adds the faulty line to a text, and under it marks for what is at fault. At most 100 bytes are
/// shown: the first ones, or, where what is at fault ends past them, those from there on. A blank is
/// shown as a space, and a byte that is not visible as a question mark. Fails only when out of memory;
/// then the text may have a part of it.
pub fn write_line<A: Allocator>(
    text: &mut Vec<u8, A>,
    line: &[u8],
    spot: Spot,
) -> Result<(), AllocError>
    ensures { OnOk result (spec.ShowsLine line.now spot text.old.items text.new.items) }
{
    let Some(place) = place_of(line, spot) else {
        return add_shown(text, line, 0);
    };
    let from = shown_from(line, place);
    add_shown(text, line, from)?;
    add_marks(text, place, from)
}

// Adds the nearest name, if there is one.
fn add_near<A: Allocator>(text: &mut Vec<u8, A>, near: Option<&[u8]>) -> Result<(), AllocError>
    ensures { OnOk result (text.new.items ≡ text.old.items ++ spec.said_near near.entry) }
{
    let Some(name) = near else {
        return Ok(());
    };
    text.extend_from_slice(b"; perhaps `")?;
    text.extend_from_slice(name)?;
    text.push(b'`')?;
    Ok(())
}

/// Adds the line that says what was expected, and the nearest name if one is near. Fails only when
/// out of memory; then the text may have a part of it.
pub fn write_explanation<A: Allocator + Copy>(
    alloc: A,
    text: &mut Vec<u8, A>,
    explanation: &Explanation<'_>,
) -> Result<(), AllocError>
    ensures { OnOk result (spec.SaysExpected explanation.now.near text.old.items text.new.items) }
{
    text.extend_from_slice(b"    expected ")?;
    explanation.expected.add(alloc, text)?;
    add_near(text, explanation.near)?;
    text.push(b'\n')?;
    Ok(())
}
