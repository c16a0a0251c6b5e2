//! A host that uses the workbench as a library, without any text: two users who share a network.

ghost use Rattle.std.specs.Prelude.{◌≡◌, IfSome};
ghost use Rattle.std.specs.FinSet.{empty};
ghost use Rattle.pw_decl.specs.inside.Fields.{declared};
ghost use Rattle.pw_uses.specs.Host.{AreReplies, IsOfDeclared};
ghost use Rattle.pw_sessions.specs.Reply.{reply_by};

use pw_decl::{Callable, Declaration};
use pw_facts::Fact;
use pw_info::{Info, Kind};
use pw_kinds::Interval;
use pw_network::Network;
use pw_premises::PremiseSet;
use pw_procs::Arguments;
use pw_sessions::{Command, Reply, Workbench};
use std::alloc::Allocator;

#[cfg(test)]
mod tests;

/// What one user attaches and the other tells, what the first doubts then, and what both ask for.
#[derive(Clone, Copy)]
pub struct Matter {
    callable: Callable,
    cells: Arguments,
    told: u32,
    fact: Fact,
    doubted: PremiseSet,
    asked: u32,
}

impl Matter {
    /// The matter of these names: a callable to attach to two cells, an interval to tell of the
    /// first cell under some premises, which one of two users doubts, and the second cell, which
    /// both ask for. None if the declaration lacks the callable, a cell or the second user, if the
    /// callable does not take the cells, or if the first is not a cell of intervals.
    pub fn named<A: Allocator + Copy>(
        declaration: &Declaration<'_, A>,
        callable: &[u8],
        names: [&[u8]; 2],
        interval: Interval,
        doubted: PremiseSet,
    ) -> Option<Matter>
        ensures { IfSome result (λ matter. IsOfDeclared (declared declaration.now) matter) }
    {
        if declaration.users() < 2 {
            return None;
        }
        let callable = declaration.callable(callable)?;
        let told = declaration.cell(names[0])?;
        let asked = declaration.cell(names[1])?;
        let cells = Arguments::of(&[told, asked])?;
        if !declaration.accepts_at(callable, declaration.kinds(), cells) {
            return None;
        }
        let Kind::Interval = declaration.cell_kind(told) else {
            return None;
        };
        let fact = Fact {
            info: Info::of_interval(interval),
            support: doubted,
        };
        Some(Matter {
            callable,
            cells,
            told,
            fact,
            doubted,
            asked,
        })
    }

    // What user 0 attaches, for everybody.
    fn attaching(&self) -> Command
        ensures { result ≡ Command.Attach 0 self.now.callable self.now.cells empty }
    {
        Command::Attach {
            user: 0,
            callable: self.callable,
            cells: self.cells,
            support: PremiseSet::empty(),
        }
    }

    // What user 1 tells.
    fn telling(&self) -> Command
        ensures { result ≡ Command.Tell 1 self.now.told self.now.fact }
    {
        Command::Tell {
            user: 1,
            cell: self.told,
            fact: self.fact,
        }
    }

    // What user 0 doubts.
    fn doubting(&self) -> Command
        ensures { result ≡ Command.Doubt 0 self.now.doubted }
    {
        Command::Doubt {
            user: 0,
            premises: self.doubted,
        }
    }

    // What the user asks for.
    fn asking(&self, user: u8) -> Command
        ensures { result ≡ Command.Ask user self.now.asked }
    {
        Command::Ask {
            user,
            cell: self.asked,
        }
    }
}

/// User 0 attaches a callable for everybody, and user 1 tells a fact. Then user 0 doubts some
/// premises, and both ask for one cell. Answers the replies to both, or None if memory ran out.
pub fn asked_by_two<A: Allocator + Copy>(
    alloc: A,
    declaration: &Declaration<'_, A>,
    matter: &Matter,
) -> Option<(Reply<A>, Reply<A>)>
    requires { IsOfDeclared (declared declaration.now) matter.now }
    ensures { IfSome result (λ replies. AreReplies (declared declaration.now) matter.now
        (reply_by replies.0) (reply_by replies.1)) }
{
    let Ok(network) = Network::new(alloc, declaration) else {
        return None;
    };
    let Ok(mut workbench) = Workbench::new(alloc, declaration, network) else {
        return None;
    };
    let Reply::Done = workbench.command(1, &matter.attaching()) else {
        return None;
    };
    let Reply::Done = workbench.command(2, &matter.telling()) else {
        return None;
    };
    let Reply::Done = workbench.command(3, &matter.doubting()) else {
        return None;
    };
    let Reply::Value(first) = workbench.command(4, &matter.asking(0)) else {
        return None;
    };
    let Reply::Value(second) = workbench.command(5, &matter.asking(1)) else {
        return None;
    };
    Some((Reply::Value(first), Reply::Value(second)))
}
