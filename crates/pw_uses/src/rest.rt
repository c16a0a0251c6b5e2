//! A whole host, from the text of a declaration to a reply: what is left of a sum.

ghost use Rattle.std.specs.Prelude.{IfOk, IfErr};
ghost use Rattle.pw_standard.specs.Lending.{IsOverText};
ghost use Rattle.pw_uses.specs.Rest.{IsFaultOfText, IsRest, IsRestOrFault};

use crate::answer::{HostFault, done, value};
use crate::sum::{Sum, asking, telling};
use pw_decl::Declaration;
use pw_info::Info;
use pw_kinds::Interval;
use pw_network::Network;
use pw_sessions::Workbench;
use pw_standard::{OverDeclaration, over_text};
use std::alloc::Global;

#[cfg(test)]
mod tests;

// What is known of `x` and of `t`.
#[derive(Drop)]
struct Known {
    alloc: Global,
    x: Interval,
    t: Interval,
}

/// Reads a declaration of a user and of cells `x`, `y` and `t` of intervals, attaches `sum x y t`,
/// tells what is known of `x` and of `t`, and answers what is then known of `y`.
///
/// The error is `Declaration` with the first fault of a text that is no declaration, or if memory
/// runs out while it is read; `Lacking` if the declaration lacks the user or one of the cells; and
/// `Memory` if memory runs out later.
pub fn rest_of_sum(alloc: Global, text: &[u8], x: Interval, t: Interval) -> Result<Info, HostFault>
    ensures ok { IfOk result (IsOverText (IsRest x t) text.now) }
    ensures err { IfErr result (IsFaultOfText text.now) }
{
    over_text(alloc, text, Known { alloc, x, t })?
}

impl OverDeclaration for Known {
    type Answer = Result<Info, HostFault>;

    ghost promise = { λ known. IsRestOrFault known.x known.t };

    fn over(self, declaration: &Declaration<'_>) -> Result<Info, HostFault> {
        let sum = Sum::named(declaration)?;
        let network = Network::new(self.alloc, declaration)?;
        let mut workbench = Workbench::new(self.alloc, declaration, network)?;
        done(workbench.command(1, &sum.attaching()))?;
        done(workbench.command(2, &telling(sum.x, self.x)))?;
        done(workbench.command(3, &telling(sum.t, self.t)))?;
        value(workbench.command(4, &asking(sum.y)))
    }
}
