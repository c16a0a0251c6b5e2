//! Networks: callables attached to the cells of a declaration, each as instances of procedures
//! between cells.
#![tactic(auto)]

mod attaching;
mod attachment;
mod batch;
mod batch_numbers;
mod compound_lists;
mod instance;
mod instance_lists;
mod instance_numbers;
pub mod laws;
mod network;

pub use batch::{Batch, Batches};
pub use batch_numbers::BatchNumbers;
pub use instance::Instance;
pub use instance_numbers::InstanceNumbers;
pub use network::{Network, NetworkFault};
