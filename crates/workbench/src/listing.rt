//! What `list` prints of a declaration: each line that declares something outside compounds.
ghost use Rattle.std.specs.Prelude.{◌≡◌, ◌++◌, ◌∷◌, List, ℕ, OnOk, IfOk, IfErr};
ghost use Rattle.std.specs.List.{flat_map};
ghost use Rattle.pw_info.specs.Words.{words_of};
ghost use Rattle.pw_procs.specs.Registry.{procedures_in};
ghost use Rattle.workbench.specs.Ending.{IsToldOfText};
ghost use Rattle.workbench.specs.Listing as spec;
ghost use Rattle.workbench.specs.Listing.{IsListed, outer_lines, text_of_listing, text_of_words};

use crate::explaining::fault_of;
use crate::fault::Fault;
use pw_info::{TextLines, Words, idles};
use pw_procs::Registry;
use std::alloc::{AllocError, Allocator};

/// Where a line of a declaration stands.
#[derive(Clone, Copy, Debug, PartialEq, Eq)]
pub(crate) enum Place {
    /// It is the header, or stands before it.
    BeforeHeader,
    /// Outside compounds. The line that begins a compound stands there too.
    Outside,
    /// Inside a compound. The line that ends it stands there too.
    Inside,
}

// Adds words to the listing, with a space between each two, and a line feed.
fn add_words<A: Allocator>(listing: &mut Vec<u8, A>, mut words: Words<'_>) -> Result<(), AllocError>
    ensures { OnOk result (listing.new.items ≡ listing.old.items ++ text_of_words words.entry) }
{
    if let Some(word) = words.next() {
        listing.extend_from_slice(word)?;
    }
    while let Some(word) = words.next() {
        listing.push(b' ')?;
        listing.extend_from_slice(word)?;
    }
    listing.push(b'\n')?;
    Ok(())
}

// Whether the first word of the line is this one.
fn begins_with(word: &[u8], line: &[u8]) -> bool
    ensures { result ≡ spec.begins_with word.now (words_of line.now) }
{
    match Words::new(line).next() {
        Some(first) => first == word,
        None => false,
    }
}

// Adds a line that is not idle to the listing, if it declares something outside compounds, and
// answers the place of the next line.
fn add_line<A: Allocator>(
    listing: &mut Vec<u8, A>,
    place: Place,
    line: &[u8],
) -> Result<Place, AllocError>
    ensures { IfOk result (λ next. (lines : List (List (List ℕ)))
        → listing.new.items ++ flat_map text_of_words (outer_lines next lines)
        ≡ listing.old.items ++ flat_map text_of_words (outer_lines place (words_of line.now ∷ lines))) }
{
    match place {
        Place::BeforeHeader => Ok(Place::Outside),
        Place::Outside => {
            add_words(listing, Words::new(line))?;
            if begins_with(b"compound", line) {
                Ok(Place::Inside)
            } else {
                Ok(Place::Outside)
            }
        }
        Place::Inside => {
            if begins_with(b"end", line) {
                Ok(Place::Outside)
            } else {
                Ok(Place::Inside)
            }
        }
    }
}

// The listing of a text.
fn listing_of<A: Allocator>(alloc: A, text: &[u8]) -> Result<Vec<u8, A>, AllocError>
    ensures { IfOk result (λ listing. listing.items ≡ text_of_listing text.now) }
{
    let mut listing = Vec::new(alloc);
    let mut place = Place::BeforeHeader;
    let mut lines = TextLines::new(text);
    while let Some(line) = lines.next() {
        if !idles(line) {
            place = add_line(&mut listing, place, line)?;
        }
    }
    Ok(listing)
}

// The listing of a text, or out of memory.
fn list_text<A: Allocator>(alloc: A, text: &[u8]) -> Result<Vec<u8, A>, Fault<'static>>
    ensures ok { IfOk result (λ listing. listing.items ≡ text_of_listing text.now) }
    ensures err { IfErr result (λ fault. fault ≡ Fault.Memory) }
{
    match listing_of(alloc, text) {
        Ok(listing) => Ok(listing),
        Err(_) => Err(Fault::Memory),
    }
}

/// What a declaration of this text declares: each line of the text that declares a user, a premise,
/// a set kind, a cell or a compound, with a space between each two words; or the fault.
pub fn listing<A: Allocator + Copy>(
    alloc: A,
    text: &[u8],
    registry: &Registry,
) -> Result<Vec<u8, A>, Fault<'static>>
    ensures ok { OnOk result (IsListed (procedures_in registry.now) text.now) }
    ensures text { IfOk result (λ listing. listing.items ≡ text_of_listing text.now) }
    ensures err { IfErr result (IsToldOfText (procedures_in registry.now) text.now) }
{
    match fault_of(alloc, text, registry) {
        None => list_text(alloc, text),
        Some(fault) => Err(Fault::Declaration(fault)),
    }
}
