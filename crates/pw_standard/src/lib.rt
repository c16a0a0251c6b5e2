//! A library to start from: the fifteen standard procedures in a registry, or a declaration over
//! them, lent to a task.
#![tactic(auto)]

mod declaration;
mod procedures;

pub use declaration::{OverDeclaration, over_text};
pub use procedures::{OverRegistry, over_standard, procedure_table};
