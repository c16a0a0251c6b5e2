//! Reading ranges.
ghost use Rattle.std.specs.Prelude.{◌≤◌, IfSome, IfNone};
ghost use Rattle.pw_info.specs.Number.{IsUpTo, HoldsOfNoneUpTo, greatest_number};
ghost use Rattle.pw_info.specs.inside.Scanning.{SpellsCut};
ghost use Rattle.pw_info.specs.Number.{SpellsRange};

use crate::cut::cut_at;
use crate::number::read_number;

// Reads `LO..HI` with LO at most HI, from the parts before and after the first '.'.
fn read_ends(front: &[u8], rest: &[u8], most: u32) -> Option<(i64, i64)>
    requires { most ≤ greatest_number }
    ensures some { IfSome result (λ ends. SpellsCut front.now rest.now ends.0 ends.1) }
    ensures within { IfSome result (λ ends. IsUpTo most ends.0 × IsUpTo most ends.1) }
    ensures none { IfNone result (HoldsOfNoneUpTo most (SpellsCut front.now rest.now)) }
{
    let [b'.', back @ ..] = rest else {
        return None;
    };
    let lo = read_number(front, most)?;
    let hi = read_number(back, most)?;
    if lo > hi {
        return None;
    }
    Some((lo, hi))
}

/// Reads the range that a word spells, as its least and its greatest number: one number, which is
/// both, or two numbers `LO..HI` with LO at most HI.
///
/// `most` is at most 1,000,000,000. `None` means that the word, of any length, spells no range
/// whose ends lie from `-most` to `most`.
pub(crate) fn read_range(word: &[u8], most: u32) -> Option<(i64, i64)>
    requires { most ≤ greatest_number }
    ensures some { IfSome result (λ ends. SpellsRange word.now ends.0 ends.1) }
    ensures within { IfSome result (λ ends. IsUpTo most ends.0 × IsUpTo most ends.1) }
    ensures none { IfNone result (HoldsOfNoneUpTo most (SpellsRange word.now)) }
{
    match cut_at(word, b'.') {
        Some((front, rest)) => read_ends(front, rest, most),
        None => read_number(word, most).map(|number| (number, number)),
    }
}
