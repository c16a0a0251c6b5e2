//! Words of a line, read as names.
ghost use Rattle.std.specs.Prelude.{◌≡◌, true, false, MatchOption};
ghost use Rattle.std.specs.List.{list_all};
ghost use Rattle.pw_info.specs.Name as spec;

use crate::is_name;
use crate::words::Words;

/// Whether each word is a name.
pub fn are_names(mut words: Words<'_>) -> bool
    ensures { result ≡ list_all spec.is_name words.entry }
{
    while let Some(word) = words.next() {
        if !is_name(word) {
            return false;
        }
    }
    true
}

/// The word as a text, if it is a name.
pub fn read_name(word: &[u8]) -> Option<&str>
    ensures { MatchOption result (spec.is_name word.now ≡ false)
        (λ name. (spec.is_name word.now ≡ true) × (name.now ≡ word.now)) }
{
    if !is_name(word) {
        return None;
    }
    str::from_utf8(word).ok()
}
