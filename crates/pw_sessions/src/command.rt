//! Commands of users.

use pw_decl::Callable;
use pw_facts::Fact;
use pw_premises::PremiseSet;
use pw_procs::Arguments;
use pw_reasons::Groups;

/// The command on a line of a transcript. Users, cells, callables and premises are given by their
/// numbers in the declaration.
///
/// A user's beliefs are a worldview: premises are brought in and kicked out, and nothing that was
/// told is lost (Radul and Sussman, *The Art of the Propagator*, on dependencies for alternate
/// worldviews). One worldview for each user is this program's own.
#[derive(Clone, Copy, Debug, PartialEq, Eq)]
pub enum Command {
    /// A fact about a cell. It rests on the premises that the line names.
    Tell {
        user: u8,
        cell: u32,
        fact: Fact,
    },
    /// A callable between cells. The attachment rests on the premises that the line names.
    Attach {
        user: u8,
        callable: Callable,
        cells: Arguments,
        support: PremiseSet,
    },
    /// Premises that the user believes from now on.
    Believe {
        user: u8,
        premises: PremiseSet,
    },
    /// Premises that the user no longer believes.
    Doubt {
        user: u8,
        premises: PremiseSet,
    },
    /// Asks which premises the user believes.
    Beliefs {
        user: u8,
    },
    /// Asks what is known about a cell under the user's beliefs.
    Ask {
        user: u8,
        cell: u32,
    },
    /// Asks what is known about a cell under the user's beliefs, and which of these premises it
    /// needs.
    Why {
        user: u8,
        cell: u32,
    },
    /// Asks what is contradictory under the user's beliefs.
    Conflicts {
        user: u8,
    },
    /// Asks for the first combination of one premise from each group under which nothing is
    /// contradictory. If there is one, the user believes it from now on, in place of all premises
    /// of the groups.
    Choose {
        user: u8,
        groups: Groups,
    },
}
