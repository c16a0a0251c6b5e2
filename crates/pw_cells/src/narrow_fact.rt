//! A fact on premises below 64.

use pw_info::Info;
use pw_premises::NarrowSet;

/// A fact that rests on premises below 64, with a support of one word.
#[derive(Clone, Copy, Debug)]
pub struct NarrowFact {
    /// What it says about a value.
    pub info: Info,
    /// The premises that it rests on.
    pub support: NarrowSet,
}
