//! What ended compounds become: calls of procedures over places. An attachment goes over these
//! alone.
ghost use Rattle.std.specs.Prelude.{◌≡◌, ◌+◌, ◌≤◌, All, map};
ghost use Rattle.pw_procs.specs.Registry.{cells_of};
ghost use Rattle.pw_decl.specs.Expansion.{at_place};

use pw_info::Kind;
use pw_procs::Arguments;
use std::alloc::{Allocator, Global};

/// A flattened compound: the calls of procedures over its places, and the kinds of its inner cells.
#[derive(Drop)]
pub(crate) struct Flattened<A: Allocator = Global> {
    pub(crate) calls: Vec<FlatCall, A>,
    pub(crate) inner: Vec<Kind, A>,
}

pub(crate) const MOST_CELLS: usize = 9;

/// A procedure over the places of a flattened compound: its parameters from 0, and after them its
/// inner cells, in the order in which they are made. The procedure writes the last place and reads
/// the others.
#[derive(Clone, Copy, Debug, PartialEq, Eq)]
pub struct FlatCall {
    /// The number of the procedure in the registry.
    pub procedure: u8,
    /// The places, one to nine.
    pub places: Arguments,
}

/// The cell at a place: one of these cells, or, past their end, an inner cell. The first inner cell
/// has the number `first`, and `first + place` is at most 4,294,967,295.
#[inline(always)]
pub fn cell_at(cells: &[u32], first: u32, place: u32) -> u32
    requires { first + place ≤ 4294967295 }
    ensures { result ≡ at_place cells.now (λ j. first + j) place }
{
    if (place as usize) < cells.len() {
        cells[place as usize]
    } else {
        first + (place - cells.len() as u32)
    }
}

/// The cells at these places: a place means one of these cells, or, past their end, an inner cell.
/// The first inner cell has the number `first`, and `first + place` is at most 4,294,967,295 for each
/// place.
pub fn place_cells(places: Arguments, cells: &[u32], first: u32) -> Arguments
    requires { All (λ place. first + place ≤ 4294967295) (cells_of places) }
    ensures { cells_of result ≡ map (at_place cells.now (λ j. first + j)) (cells_of places) }
{
    let places = places.cells();
    let mut placed = [0; MOST_CELLS];
    for number in 0..places.len() {
        placed[number] = cell_at(cells, first, places[number]);
    }
    let Some(placed) = Arguments::of(&placed[..places.len()]) else {
        unreachable!("there are as many as places");
    };
    placed
}
