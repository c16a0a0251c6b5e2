//! Commands of users, what earlier lines leave behind, and the answer to each command. Nothing here
//! deals with bytes.
#![tactic(auto)]

mod command;
pub mod laws;
mod reply;
mod workbench;

pub use command::Command;
pub use reply::{Refusal, Reply};
pub use workbench::Workbench;
