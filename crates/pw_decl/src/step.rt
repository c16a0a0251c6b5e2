//! The contents of a compound: its lines, and what they call.

use pw_info::Kind;
use pw_procs::Arguments;

/// Something that a line of a compound may call, and an attachment may attach.
#[derive(Clone, Copy, Debug, PartialEq, Eq)]
pub enum Callable {
    /// The stored procedure of this number in the registry.
    Stored(u8),
    /// The compound of this number. `sum`, `product` and `conditional` are 0, 1 and 2; declared
    /// compounds are numbered from 3 on.
    Compound(u8),
}

/// A line of a compound.
///
/// Compound propagators are built from others and from private cells (Radul and Sussman, *The Art
/// of the Propagator*, on building networks out of compounds).
#[derive(Clone, Copy, Debug, PartialEq, Eq)]
pub enum Step {
    /// A private cell of this kind.
    Local(Kind),
    /// A callable over cells of the compound, by their places: the parameters from 0, then the
    /// private cells so far, each in the order of their lines. The last is the output of a
    /// procedure.
    Call(Callable, Arguments),
}
