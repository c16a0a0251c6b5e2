//! Why a value is what it is, and what is contradictory.
#![tactic(auto)]

mod alike;
mod choosing;
mod combinations;
mod conflicts;
mod family;
mod group;
mod groups;
pub mod laws;
mod listing;
mod nogoods;
mod pairs;
mod picks;
mod product;
mod products;
mod reasoning;
mod trying;

pub use choosing::choose;
pub use combinations::worldview_with;
pub use conflicts::Conflicts;
pub use groups::Groups;
pub use listing::list_conflicts;
pub use nogoods::Nogoods;
pub use picks::Picks;
pub use reasoning::reason;
