//! Laws of stores. Each is the contract of a function that does nothing, and holds of every store.
//!
//! A store is seen as one list of told facts and one of kept facts for each cell. What is told in a
//! worldview is the merge of the told facts whose support the worldview includes, and what is kept
//! likewise, so that these laws need no look at how a store was made.

ghost use Rattle.std.specs.Prelude.{ℕ};
ghost use Rattle.pw_facts.specs.Facts.{IsMonotone};
ghost use Rattle.pw_cells.specs.Cells.{Store, told_in, kept_in};
ghost use Rattle.pw_cells.specs.Changes.{ToldIsOfTheKind, KeptIsOfTheKind, KindsAreListed};

/// The told and the kept information about a cell are of the cell's kind. Past the last cell
/// everything is of the interval kind, and nothing is known.
pub fn cells_show_their_kinds()
    ensures told { ToldIsOfTheKind }
    ensures kept { KeptIsOfTheKind }
    ensures listed { KindsAreListed }
{}

/// In a larger worldview at least as much is told, and at least as much is kept: premises are never
/// evidence against anything.
pub fn larger_worldviews_show_more()
    ensures told { (s : Store) (c : ℕ) → IsMonotone (told_in s c) }
    ensures kept { (s : Store) (c : ℕ) → IsMonotone (kept_in s c) }
{}
