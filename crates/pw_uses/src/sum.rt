//! A sum between three cells of a declaration, and the commands of a host about it.

ghost use Rattle.std.specs.Prelude.{◌≡◌, ℕ, IfSome, IfNone, IfOk, IfErr, OnErr};
ghost use Rattle.std.specs.FinSet.{empty};
ghost use Rattle.pw_decl.specs.BuiltIn.{HasPrelude};
ghost use Rattle.pw_decl.specs.inside.Fields.{declared};
ghost use Rattle.pw_uses.specs.Sum.{IsIntervalCell, IsSumIn, Lacks, fact_of};

use crate::answer::HostFault;
use pw_decl::{Callable, Declaration};
use pw_facts::Fact;
use pw_info::{Info, Kind};
use pw_kinds::Interval;
use pw_premises::PremiseSet;
use pw_procs::Arguments;
use pw_sessions::Command;

// The cell of intervals of this name, if the declaration has one.
fn interval_cell(declaration: &Declaration<'_>, name: &[u8]) -> Option<u32>
    ensures some { IfSome result (IsIntervalCell (declared declaration.now) name.now) }
    ensures none { IfNone result ((cell : ℕ)
        → IsIntervalCell (declared declaration.now) name.now cell → ⊥) }
{
    let cell = declaration.cell(name)?;
    let Kind::Interval = declaration.cell_kind(cell) else {
        return None;
    };
    Some(cell)
}

/// The compound `sum`, and the cells `x`, `y` and `t` of a declaration: `t = x + y`.
#[derive(Clone, Copy)]
pub(crate) struct Sum {
    callable: Callable,
    cells: Arguments,
    pub(crate) x: u32,
    pub(crate) y: u32,
    pub(crate) t: u32,
}

impl Sum {
    // The sum of a declaration, if it has a user, and cells of intervals of these names.
    fn found(declaration: &Declaration<'_>) -> Option<Sum>
        requires { HasPrelude (declared declaration.now) }
        ensures some { IfSome result (IsSumIn (declared declaration.now)) }
        ensures none { IfNone result (Lacks (declared declaration.now)) }
    {
        declaration.limits();
        if declaration.users() == 0 {
            return None;
        }
        let x = interval_cell(declaration, b"x")?;
        let y = interval_cell(declaration, b"y")?;
        let t = interval_cell(declaration, b"t")?;
        let callable = declaration.callable(b"sum")?;
        let cells = Arguments::of(&[x, y, t])?;
        Some(Sum {
            callable,
            cells,
            x,
            y,
            t,
        })
    }

    /// The sum of a declaration. `Lacking` if that has no user, or lacks a cell of intervals of one
    /// of the names.
    pub(crate) fn named(declaration: &Declaration<'_>) -> Result<Sum, HostFault>
        requires { HasPrelude (declared declaration.now) }
        ensures ok { IfOk result (IsSumIn (declared declaration.now)) }
        ensures err { IfErr result (λ fault. fault ≡ HostFault.Lacking) }
        ensures lacks { OnErr result (Lacks (declared declaration.now)) }
    {
        match Sum::found(declaration) {
            Some(sum) => Ok(sum),
            None => Err(HostFault::Lacking),
        }
    }

    /// Attaches the sum, for everybody.
    pub(crate) fn attaching(&self) -> Command
        ensures { result ≡ Command.Attach 0 self.now.callable self.now.cells empty }
    {
        Command::Attach {
            user: 0,
            callable: self.callable,
            cells: self.cells,
            support: PremiseSet::empty(),
        }
    }
}

/// Tells an interval of a cell, for everybody.
pub(crate) fn telling(cell: u32, interval: Interval) -> Command
    ensures { result ≡ Command.Tell 0 cell (fact_of interval) }
{
    Command::Tell {
        user: 0,
        cell,
        fact: Fact {
            info: Info::of_interval(interval),
            support: PremiseSet::empty(),
        },
    }
}

/// Asks what is known of a cell.
pub(crate) fn asking(cell: u32) -> Command
    ensures { result ≡ Command.Ask 0 cell }
{
    Command::Ask { user: 0, cell }
}
