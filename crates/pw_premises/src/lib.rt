//! Sets of premises, each premise named by its number below 512.
#![tactic(auto)]

mod compact_set;
pub mod laws;
mod narrow_set;
mod numbers;
mod premise_set;

pub use compact_set::CompactSet;
pub use narrow_set::NarrowSet;
pub use numbers::Numbers;
pub use premise_set::PremiseSet;
