//! A fact that came to be kept of a cell.

ghost use Rattle.std.specs.Prelude.{◌≡◌};

use crate::held::Held;
use pw_info::Info;
use pw_premises::NarrowSet;

/// A fact that came to be kept of a cell: it was told about it, or derived. It rests on premises
/// below 64.
#[derive(Clone, Copy)]
pub struct Arrival {
    pub(crate) cell: u32,
    pub(crate) fact: Held<Info, NarrowSet>,
}

impl Arrival {
    /// The number of the cell.
    #[inline(always)]
    pub fn cell(&self) -> u32
        ensures { result ≡ self.now.cell }
    {
        self.cell
    }

    /// What the fact says.
    #[inline(always)]
    pub fn info(&self) -> &Info
        ensures { result.now ≡ self.now.fact.info }
    {
        self.fact.info_here()
    }

    /// The premises that it rests on.
    #[inline(always)]
    pub fn support(&self) -> NarrowSet
        ensures { result ≡ self.now.fact.support }
    {
        self.fact.support()
    }
}
