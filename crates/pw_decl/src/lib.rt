//! Declarations: reads a text, and gives what it declares, or its first fault.
#![tactic(auto)]

mod built_in;
mod compound;
mod compound_line;
mod decl_fault;
mod declaration;
mod flat_call;
mod flattening;
pub mod laws;
mod line;
mod sentence;
mod set_line;
mod step;
mod text;
mod version;

pub use decl_fault::{DeclFault, DeclFaultKind};
pub use declaration::Declaration;
pub use flat_call::{FlatCall, cell_at, place_cells};
pub use step::{Callable, Step};
pub use text::read_declaration;
