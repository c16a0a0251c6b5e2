//! Cells, by number: the facts told about each, and the facts kept of it.
#![tactic(auto)]

mod arrival;
mod arrivals;
mod assimilating;
mod bound;
mod cell_facts;
mod cell_store;
mod content;
mod fact_lists;
mod facts_by_support;
mod few_facts;
mod held;
pub mod laws;
mod many_facts;
mod merged_facts;
mod narrow_fact;
mod one_fact;
mod recalled;
mod subsumed_facts;
mod support;
mod told_facts;
mod visible_facts;

pub use arrival::Arrival;
pub use cell_store::CellStore;
pub use narrow_fact::NarrowFact;
