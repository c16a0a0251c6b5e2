//! The kinds of values.
ghost use Rattle.pw_kinds.specs.Places.{IsSize};

/// A kind whose values are the members of a set, each identified by its place, from 0 on. Two set
/// kinds of one declaration have different numbers.
#[derive(Clone, Copy, Debug, PartialEq, Eq)]
pub struct SetKind {
    /// Which set it is: `bool` is number 0, `sign` is number 1.
    pub number: u8,
    /// The number of members of the set, 2 to 128.
    pub size: u8,
    ghost sized: { IsSize size },
}

/// The kind of value that a cell holds information about.
#[derive(Clone, Copy, Debug, PartialEq, Eq)]
pub enum Kind {
    /// A whole number from -1,000,000 to 1,000,000, known by an interval.
    Interval,
    /// A member of a set, known by the members that are still possible.
    /// Two kinds are the same if their sets have the same number and the same size.
    Members(SetKind),
    /// A whole number from -1,000,000,000 to 1,000,000,000, known exactly or not at all.
    Exact,
}
