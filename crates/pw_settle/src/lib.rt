//! What follows from the told facts and from the attached propagators: the least informed fixpoint.
#![tactic(auto)]

mod agenda;
mod calling_aside;
mod growing_aside;
mod kept_news;
mod known;
pub mod laws;
mod propagating;
mod readers;
mod resettling;
mod resettling_since;
mod settled;
mod settling;
mod settling_aside;
mod support_list;
mod workspace;

pub use resettling::{resettle, resettle_from};
pub use resettling_since::resettle_since;
pub use settled::Settled;
pub use settling::settle;
pub use settling_aside::{settle_aside, value_aside};
pub use workspace::Workspace;
