//! Proved hosts that use the workbench as a library: read them before you write your own.
#![tactic(auto)]

mod answer;
mod host;
mod rest;
mod sum;
#[cfg(test)]
mod tests;
mod transcript;

pub use answer::HostFault;
pub use host::{Matter, asked_by_two};
pub use rest::rest_of_sum;
pub use transcript::{Answered, replies};
