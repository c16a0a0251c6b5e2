//! The cells that a procedure is put between.
ghost use Rattle.pw_procs.specs.inside.Shapes.{AreArguments};

const MOST_CELLS: usize = 9;

/// The cells that a procedure is put between, by number: one to nine. Two values with the same
/// cells are equal.
#[derive(Clone, Copy, Debug, PartialEq, Eq)]
pub struct Arguments {
    held: [u32; 9],
    count: usize,
    ghost shape: { AreArguments held count },
}

impl Arguments {
    ghost use Rattle.std.specs.Prelude.{◌≡◌, ◌↔◌, ◌≤◌, length, IsSome, IfSome};
    ghost use Rattle.pw_procs.specs.Registry.{cells_of};
    ghost use Rattle.pw_procs.specs.inside.Shapes.{most_arguments};

    /// These cells, in order. None unless there are one to nine.
    pub fn of(cells: &[u32]) -> Option<Arguments>
        ensures some { IsSome result ↔ ((1 ≤ length cells.now) × (length cells.now ≤
            most_arguments)) }
        ensures cells { IfSome result (λ arguments. cells_of arguments ≡ cells.now) }
    {
        if cells.is_empty() || cells.len() > MOST_CELLS {
            return None;
        }
        let mut held = [0; 9];
        held[..cells.len()].copy_from_slice(cells);
        Some(Arguments {
            held,
            count: cells.len(),
        })
    }

    /// The numbers of the cells, in order.
    pub fn cells(&self) -> &[u32]
        ensures cells { result.now ≡ cells_of self.now }
        ensures some { 1 ≤ length result.now }
        ensures most { length result.now ≤ most_arguments }
    {
        &self.held[..self.count]
    }
}
