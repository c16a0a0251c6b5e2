//! Laws of the fixpoint, over cells of any type, and of the values of a settling. Each is the
//! contract of a function that does nothing.
//!
//! The first two say what the fixpoint is: the least informed of all that a round leaves unchanged.
//! The number of rounds that the definition makes, and the number of cells that it goes over, do
//! not matter.
ghost use Rattle.pw_settle.specs.Laws.{RoundLeavesTheFixpoint, FixpointIsOfItsKinds};
ghost use Rattle.pw_settle.specs.Laws.{FixpointIsLeastInformed, FixpointSaysWhatSourcesSay};
ghost use Rattle.pw_settle.specs.Laws.{FixpointSaysNothingElse, MoreSourcesSayMore};
ghost use Rattle.pw_settle.specs.Laws.{FurtherCellsChangeNothing, NamesDoNotMatter};
ghost use Rattle.pw_settle.specs.Laws.{TellsMayBeMerged, UnwrittenCellsHaveWhatIsTold};
ghost use Rattle.pw_settle.specs.Laws.{NetworksMeetTheLaws, AttachingWidens, GainsGrow};
ghost use Rattle.pw_settle.specs.Laws.{FittingInWider, FittingWithNewCells, FittingWhereMoreIsKept};

/// A round leaves the fixpoint unchanged: nothing more follows. At each cell it is of the cell's kind.
pub fn round_leaves_the_fixpoint<C>()
    ensures stays { RoundLeavesTheFixpoint C }
    ensures kinds { FixpointIsOfItsKinds C }
{}

/// The fixpoint is the least informed of all that a round leaves unchanged: any other says at each cell
/// at least as much.
pub fn fixpoint_is_least_informed<C>()
    ensures { FixpointIsLeastInformed C }
{}

/// The fixpoint, said without rounds: it says about each cell what each source says about it, and
/// anything that does so says at each cell at least what the fixpoint says.
pub fn fixpoint_says_what_sources_say<C>()
    ensures says { FixpointSaysWhatSourcesSay C }
    ensures least { FixpointSaysNothingElse C }
{}

/// From more sources at least as much follows, at each cell.
pub fn more_sources_say_more<C>()
    ensures { MoreSourcesSayMore C }
{}

/// The number of cells that the sources are over does not matter, if the sources inform only these.
pub fn further_cells_change_nothing<C>()
    ensures { FurtherCellsChangeNothing C }
{}

/// Names of cells do not matter: renaming the sources renames what follows from them.
pub fn names_do_not_matter<C, D>()
    ensures { NamesDoNotMatter C D }
{}

/// The facts told about a cell may be merged beforehand.
pub fn tells_may_be_merged<C>()
    ensures { TellsMayBeMerged C }
{}

/// If no propagator writes a cell, what follows about it is what was told about it.
pub fn unwritten_cells_have_what_is_told<C>()
    ensures { UnwrittenCellsHaveWhatIsTold C }
{}

/// What a network says about its cells in a worldview, with what its store was told, meets the
/// conditions of these laws. So they hold of the values of its cells.
pub fn networks_meet_the_laws()
    ensures { NetworksMeetTheLaws }
{}

/// A network in which something more is attached is wider: it has all cells and instances that it
/// had, by the same numbers.
pub fn attaching_widens()
    ensures { AttachingWidens }
{}

/// Gains never shrink: if still more is kept later, the gains up to then are at least those up to now.
pub fn gains_grow()
    ensures { GainsGrow }
{}

/// Values of a settling that fit still fit afterwards: if more is attached, if cells are added, and
/// if no less is kept of any cell in any worldview, as after a tell and after a settling of any
/// user.
pub fn fitting_values_still_fit()
    ensures attached { FittingInWider }
    ensures added { FittingWithNewCells }
    ensures kept { FittingWhereMoreIsKept }
{}
