//! The forms of commands: which words may follow the word that names one, and what each is.

ghost use Rattle.std.specs.Prelude.{◌≡◌, ℕ, [], List, None, Some, codes, map, MatchOption};
ghost use Rattle.std.specs.Prelude.{option_map};
ghost use Rattle.std.specs.Option.{option_copied};
ghost use Rattle.std.specs.Str.{bytes_eq};
ghost use Rattle.pw_info.specs.GroupNames.{names_in};
ghost use Rattle.pw_transcript.specs.Sentence as spec;
ghost use Rattle.pw_transcript.specs.inside.Forms.{TakesCell, before_under, from_under, under_form};
ghost use Rattle.pw_transcript.specs.inside.Forms.{tell_form, attach_form, cell_form, choose_form};
ghost use Rattle.pw_transcript.specs.inside.Forms.{premises_form, told_in, attached_in};

use crate::group_names::are_group_words;
use pw_info::Words;

// Whether the word is `tell`. Words that many lines have are compared byte by byte, which costs less
// than a call.
#[inline(always)]
pub(crate) fn is_tell(word: &[u8]) -> bool
    ensures { result ≡ bytes_eq word.now (codes "tell") }
{
    matches!(word, [b't', b'e', b'l', b'l'])
}

/// Whether the word is `ask`.
#[inline(always)]
pub(crate) fn is_ask(word: &[u8]) -> bool
    ensures { result ≡ bytes_eq word.now (codes "ask") }
{
    matches!(word, [b'a', b's', b'k'])
}

/// Whether the word is `doubt`.
#[inline(always)]
pub(crate) fn is_doubt(word: &[u8]) -> bool
    ensures { result ≡ bytes_eq word.now (codes "doubt") }
{
    matches!(word, [b'd', b'o', b'u', b'b', b't'])
}

// Whether the word is `under`.
#[inline(always)]
fn is_under(word: &[u8]) -> bool
    ensures { result ≡ bytes_eq word.now (codes "under") }
{
    matches!(word, [b'u', b'n', b'd', b'e', b'r'])
}

// The premises at the end of a tell or of an attach. Inlined, like `cell_word`: a call costs as
// much as the work.
#[inline(always)]
fn read_under<'a>(mut tail: Words<'a>) -> Option<Words<'a>>
    ensures { MatchOption result (under_form tail.entry ≡ None) (λ premises.
        under_form tail.entry ≡ Some premises) }
{
    let Some(word) = tail.next() else {
        return Some(tail);
    };
    if tail.is_empty() || !is_under(word) {
        return None;
    }
    Some(tail)
}

/// The words after `tell`, by their roles: `CELL INFO [under P..]`. Without `under` there are no
/// premises.
#[derive(Drop)]
pub(crate) struct TellWords<'a> {
    pub(crate) cell: &'a [u8],
    pub(crate) info: &'a [u8],
    pub(crate) premises: Words<'a>,
}

/// The words after `tell`, if they fit its form.
#[inline(always)]
pub(crate) fn tell_words<'a>(mut rest: Words<'a>) -> Option<TellWords<'a>>
    ensures { option_map told_in result ≡ tell_form rest.entry }
{
    let cell = rest.next()?;
    let info = rest.next()?;
    let premises = read_under(rest)?;
    Some(TellWords {
        cell,
        info,
        premises,
    })
}

/// Takes the next word, if there is one before `under`.
pub fn next_cell<'a>(words: &mut Words<'a>) -> Option<&'a [u8]>
    ensures { MatchOption result
        ((before_under words.old ≡ []) × (words.new ≡ from_under words.old))
        (λ word. TakesCell words.old word.now words.new) }
{
    let mut after = words.again();
    let Some(word) = after.next() else {
        return None;
    };
    if is_under(word) {
        return None;
    }
    *words = after;
    Some(word)
}

// What follows the cells: the words from the first `under` on.
fn after_cells<'a>(mut words: Words<'a>) -> Words<'a>
    ensures { result ≡ from_under words.entry }
{
    while let Some(_) = next_cell(&mut words) {}
    words
}

/// The words after `attach`, by their roles: `CALLABLE CELL.. [under P..]`. The first `under` after
/// the callable ends the cells, of which there is at least one; without it there are no premises.
#[derive(Drop)]
pub(crate) struct AttachWords<'a> {
    pub(crate) callable: &'a [u8],
    // The words from the first cell on. `next_cell` stops at `under`.
    pub(crate) cells: Words<'a>,
    pub(crate) premises: Words<'a>,
}

/// The words after `attach`, if they fit its form.
pub(crate) fn attach_words<'a>(mut rest: Words<'a>) -> Option<AttachWords<'a>>
    ensures { option_map attached_in result ≡ attach_form rest.entry }
{
    let callable = rest.next()?;
    let cells = rest.again();
    let Some(_) = next_cell(&mut rest) else {
        return None;
    };
    let premises = read_under(after_cells(rest))?;
    Some(AttachWords {
        callable,
        cells,
        premises,
    })
}

/// The words after `believe` or `doubt`: at least one premise.
#[inline(always)]
pub(crate) fn premise_words<'a>(rest: Words<'a>) -> Option<Words<'a>>
    ensures { (says : List (List ℕ) → spec.Said) →
        option_map says result ≡ premises_form says rest.entry }
{
    if rest.is_empty() {
        return None;
    }
    Some(rest)
}

/// The cell that follows `ask` or `why`, and no other word.
#[inline(always)]
pub(crate) fn cell_word<'a>(mut rest: Words<'a>) -> Option<&'a [u8]>
    ensures { (says : List ℕ → spec.Said) →
        option_map says (option_copied result) ≡ cell_form says rest.entry }
{
    let cell = rest.next()?;
    rest.is_empty().then_some(cell)
}

/// The words after `choose`: at least one group, and no empty name in a group.
pub(crate) fn group_words<'a>(rest: Words<'a>) -> Option<Words<'a>>
    ensures { option_map (λ groups. spec.Choose (map names_in groups)) result
        ≡ choose_form rest.entry }
{
    if rest.is_empty() || !are_group_words(rest.again()) {
        return None;
    }
    Some(rest)
}
