//! Supported values: an information, and the premises that it rests on.
#![tactic(auto)]

mod fact;
pub mod laws;

pub use fact::{Fact, merge_facts, subsumes};
