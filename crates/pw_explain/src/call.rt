//! The first cell that a callable does not take: of a call, or of an attachment.
ghost use Rattle.std.specs.Prelude.{◌<◌, length, IfSome};

use crate::before::Before;
use crate::expected::Expected;
use crate::explanation::Explanation;
use crate::form::Fits;
use crate::shape::Shape;
use pw_info::Words;

// The kind that is expected in a place, where `same` is the kind in earlier places of any kind.
fn expected_kind<'a>(kind: &'a [u8], is_row: bool, same: Option<&'a [u8]>) -> Option<&'a [u8]> {
    if is_row && kind == b"S".as_slice() {
        same
    } else {
        Some(kind)
    }
}

/// The next of the words that names a cell: `under` names none.
pub(crate) fn next_cell<'a>(words: &mut Words<'a>) -> Option<&'a [u8]>
    ensures { IfSome result (λ _. length words.new < length words.old) }
{
    let word = words.next()?;
    if word == b"under".as_slice() {
        None
    } else {
        Some(word)
    }
}

// Whether no further cell is missing, where the next word would have this number.
fn end_fits_shape<'a>(
    callable: &'a [u8],
    shape: &mut Shape<'a>,
    same: Option<&'a [u8]>,
    number: usize,
) -> Fits<'a> {
    let Some(kind) = shape.next() else {
        return Ok(());
    };
    let expected = match expected_kind(kind, shape.is_of_row(), same) {
        Some(kind) => Expected::CellOfKind(kind),
        None => Expected::CellsOf(callable),
    };
    Err(Explanation::word(number, expected))
}

// Whether the callable of the shape takes the cells of these words, the first of which has this
// number in its line.
fn fits_shape<'a>(
    before: &Before<'a>,
    callable: &'a [u8],
    shape: &mut Shape<'a>,
    words: &mut Words<'a>,
    first: usize,
) -> Fits<'a> {
    let mut number = first;
    let mut same = None;
    while let Some(word) = next_cell(words) {
        let Some(kind) = shape.next() else {
            return Err(Explanation::word(number, Expected::NoCell(callable)));
        };
        let given = before.cell_kind(word);
        match expected_kind(kind, shape.is_of_row(), same) {
            Some(kind) if given != Some(kind) => {
                return Err(Explanation::word(number, Expected::CellOfKind(kind)));
            }
            Some(_) => {}
            None => same = given,
        }
        number = number.saturating_add(1);
    }
    end_fits_shape(callable, shape, same, number)
}

/// The first of the words that the callable does not take as its cells, where the first of them has
/// this number in its line.
pub(crate) fn explain_cells<'a>(
    before: &Before<'a>,
    callable: &'a [u8],
    mut words: Words<'a>,
    first: usize,
) -> Explanation<'a> {
    let Some(mut shape) = before.shape(callable) else {
        return Explanation::line(Expected::CellsOf(callable));
    };
    match fits_shape(before, callable, &mut shape, &mut words, first) {
        Err(explanation) => explanation,
        Ok(()) => Explanation::word(first, Expected::CellsOf(callable)),
    }
}
