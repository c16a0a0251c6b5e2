//! The kinds of partial information that a cell may hold about its value: intervals of whole
//! numbers, the members of a set, and exact numbers.
#![tactic(auto)]

mod exact;
mod interval;
pub mod laws;
mod members;

pub use exact::{Exact, Number};
pub use interval::Interval;
pub use members::Members;
