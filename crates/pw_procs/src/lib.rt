//! The meanings of propagators, and procedures that compute them: meanings with their laws, a body
//! for each, signatures, stored procedures, registries of them, and tables of names.
#![tactic(auto)]

mod arguments;
pub mod bodies;
mod kinds;
pub mod laws;
mod meaning;
mod name;
mod name_table;
mod procedures;
mod registry;
mod rule;
mod rule_tables;
mod signature;
mod stored;
mod table;

pub use arguments::Arguments;
pub use kinds::{members_of_mask, truth_kind};
pub use meaning::Meaning;
pub use name_table::NameTable;
pub use procedures::{add_by_rules, add_of_table};
pub use registry::{Registry, RegistryFault};
pub use rule::Rule;
pub use rule_tables::{add_rule, copied};
pub use signature::{Signature, Slot, are_equal_kinds};
pub use stored::{Body, Stored};
pub use table::signature_of;
