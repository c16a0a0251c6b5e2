//! What the lines so far left: the network, what they told about each of its cells, what was
//! derived from it so far, which premises were found to contradict themselves, what each user
//! believes, and what questions found in each worldview.

ghost use Rattle.std.specs.Prelude.{◌≡◌, ◌<◌, [], IfOk, List, OnErr, OnOk, length, map};
ghost use Rattle.pw_info.specs.Information.{kind_of};
ghost use Rattle.pw_cells.specs.Cells.{kind_in_store};
ghost use Rattle.pw_decl.specs.Declaration.{Declared};
ghost use Rattle.pw_decl.specs.inside.Fields.{declared};
ghost use Rattle.pw_network.specs.Wiring.{wiring};
ghost use Rattle.pw_network.specs.Network.{MayAttach, bare};
ghost use Rattle.pw_procs.specs.Registry.{cells_of};
ghost use Rattle.pw_sessions.specs.Beliefs.{beliefs_at};
ghost use Rattle.pw_sessions.specs.Carrying.{CanBeCarriedOut, CarriesOut, IsUserOf, KeepsNogoods};
ghost use Rattle.pw_sessions.specs.Carrying.{RefusedShowsNoChange};
ghost use Rattle.pw_sessions.specs.Freshness.{CountsCalls, KeepsFresh};
ghost use Rattle.pw_sessions.specs.Reply.{LineReading, reply_by};
ghost use Rattle.pw_sessions.specs.Snapshot.{AreApart, after_entry};
ghost use Rattle.pw_sessions.specs.inside.Steps.{CanCarryOut, CarriesOutNext, IsAsBefore};
ghost use Rattle.pw_sessions.specs.inside.Steps.{IsAttached, IsTold, believing};
ghost use Rattle.pw_sessions.specs.Workbench.{IsLeftBy, StoreFits, beliefs_in};

use crate::command::Command;
use crate::reply::{Refusal, Reply};
use pw_cells::CellStore;
use pw_decl::{Callable, Declaration};
use pw_facts::Fact;
use pw_network::Network;
use pw_premises::PremiseSet;
use pw_procs::Arguments;
use pw_reasons::Nogoods;
use pw_settle::Workspace;
use std::alloc::{AllocError, Allocator, Global};

// The greatest number of inner cells that an attachment makes.
const MOST_INNER_CELLS: u32 = 256;

mod questions;
mod snapshot;
mod snapshots;

use snapshot::Snapshot;
use snapshots::{note_entry, note_tell, room_for};

/// What earlier lines left: the network, the facts told about its cells with the facts derived from
/// them, and what each user believes now. Users and cells are given by their numbers, from 0.
#[derive(Drop)]
pub struct Workbench<'d, 'r, A: Allocator = Global> {
    network: Network<'d, 'r, A>,
    // It has the cells of the network, and keeps only what follows.
    store: CellStore<A>,
    // Sets of premises that were found to contradict themselves, by any user.
    nogoods: Nogoods<A>,
    // The beliefs of each user, by number.
    beliefs: Vec<PremiseSet, A>,
    // What questions found, one snapshot a worldview. They are shared by all users, and their values
    // still fit.
    snapshots: Vec<Snapshot<A>, A>,
    // The place at which the snapshot of each user's beliefs was last, by number: where `place_for`
    // looks first.
    places: Vec<usize, A>,
    // What settlings use one after another.
    workspace: Workspace<A>,
    // The number of settlings so far.
    settlings: u64,
    // The number of procedure calls made by the last command's own settling.
    calls: u128,
    // No two snapshots are of the same worldview.
    ghost apart: { AreApart snapshots.items },
}

impl<'d, 'r, A: Allocator + Copy> Workbench<'d, 'r, A> {
    ghost use Rattle.pw_sessions.specs.inside.Fields.{state};

    /// The workbench before the first line, from a new network of the declaration: nothing was told
    /// about its cells, and each user believes every premise. Fails only when out of memory.
    pub fn new(
        alloc: A,
        declaration: &'d Declaration<'r, A>,
        network: Network<'d, 'r, A>,
    ) -> Result<Workbench<'d, 'r, A>, AllocError>
        requires { wiring network ≡ bare (declared declaration.now) }
        ensures left { IfOk result (λ workbench.
            IsLeftBy (declared declaration.now) [] (state workbench)) }
        ensures calls { IfOk result (λ workbench. (state workbench).calls ≡ 0) }
    {
        let mut store = CellStore::new(alloc);
        store.add_cells(declaration.kinds())?;
        let premises = PremiseSet::first(declaration.premises());
        let users = declaration.users();
        let beliefs = Vec::from_elem(alloc, premises, usize::from(users))?;
        let snapshots = Vec::with_capacity(alloc, room_for(usize::from(users)))?;
        let places = Vec::from_elem(alloc, 0, usize::from(users))?;
        Ok(Workbench {
            network,
            store,
            nogoods: Nogoods::new(alloc),
            beliefs,
            snapshots,
            places,
            workspace: Workspace::new(alloc),
            settlings: 0,
            calls: 0,
        })
    }

    // The current beliefs of the user, who must exist.
    fn beliefs_of(&self, user: u8) -> PremiseSet
        requires { user < length (state self.now).beliefs }
        ensures { result ≡ beliefs_in (state self.now) user }
    {
        self.beliefs[usize::from(user)]
    }

    // From now on the user, who must exist, believes exactly these premises.
    fn set_beliefs(&mut self, user: u8, premises: PremiseSet)
        requires { user < length (state self.old).beliefs }
        ensures { state self.new ≡ believing (state self.old) user premises }
    {
        self.beliefs[usize::from(user)] = premises;
    }

    // Something was attached under these premises: the snapshots that see it are no longer known to
    // be current.
    fn note_entry(&mut self, support: &PremiseSet)
        ensures { state self.new ≡ record (state self.old) {
          snapshots = map (after_entry support.now) (state self.old).snapshots;
        } }
    {
        note_entry(&mut self.snapshots, support);
    }

    // Tells a fact about a declared cell, of the cell's kind. Fails only when out of memory; then
    // nothing changes.
    fn tell(&mut self, cell: u32, fact: Fact) -> Result<(), AllocError>
        requires declared { cell < length (state self.old).network.declared.cells }
        requires there { cell < length (state self.old).store.cells }
        requires fits { StoreFits (state self.old) }
        requires kind { kind_of fact.info ≡ kind_in_store (state self.old).store cell }
        ensures ok { OnOk result (IsTold (state self.old) cell fact (state self.new)) }
        ensures err { OnErr result (state self.new ≡ state self.old) }
    {
        self.store.tell(cell, fact)?;
        note_tell(&mut self.snapshots, cell, &fact);
        Ok(())
    }

    // Attaches a callable. Fails only when out of memory; then nothing changes. Never inlined, like
    // `why` and `conflicts`, so that commands with few steps make no room for the values that it
    // needs.
    #[inline(never)]
    fn attach(
        &mut self,
        line: u32,
        callable: Callable,
        cells: Arguments,
        support: PremiseSet,
    ) -> Result<(), AllocError>
        requires may { MayAttach (state self.old).network line callable
            (cells_of cells) }
        requires fits { StoreFits (state self.old) }
        ensures ok { OnOk result (IsAttached (state self.old) line callable
            (cells_of cells) support (state self.new)) }
        ensures err { OnErr result (IsAsBefore (state self.old) (state self.new)) }
        ensures calls { (state self.new).calls ≡ (state self.old).calls }
    {
        self.store.reserve(MOST_INNER_CELLS)?;
        let Ok(()) = self.network.attach(line, callable, cells, support) else {
            return Err(AllocError);
        };
        let kinds = self.network.declaration().inner_kinds_of(callable);
        let Ok(_) = self.store.add_cells(kinds) else {
            unreachable!("there is room for the inner cells of an attachment");
        };
        self.note_entry(&support);
        Ok(())
    }

    // Carries out a command at the line after the last one, counting blank lines. Inlined with
    // `command`: a caller that knows which command it is pays for no other.
    #[inline(always)]
    fn carry_out(&mut self, line: u32, command: &Command) -> Reply<A>
        requires can { CanCarryOut (state self.old) line command.now }
        requires calls { (state self.old).calls ≡ 0 }
        ensures carried { CarriesOutNext (state self.old) line command.now
            (state self.new) (reply_by result) }
        ensures fresh { KeepsFresh (state self.old) command.now (state self.new)
            (reply_by result) }
        ensures calls { CountsCalls (state self.old) command.now (state self.new)
            (reply_by result) }
        ensures noted { KeepsNogoods (state self.old) (state self.new) (reply_by result) }
        ensures refused { RefusedShowsNoChange (state self.old) (state self.new) (reply_by result) }
    {
        match *command {
            Command::Tell { cell, fact, .. } => {
                let Ok(()) = self.tell(cell, fact) else {
                    return Reply::Refused(Refusal::Memory);
                };
                Reply::Done
            }
            Command::Attach {
                callable,
                cells,
                support,
                ..
            } => {
                let Ok(()) = self.attach(line, callable, cells, support) else {
                    return Reply::Refused(Refusal::Memory);
                };
                Reply::Done
            }
            Command::Believe { user, premises } => {
                self.set_beliefs(user, self.beliefs_of(user).join(premises));
                Reply::Done
            }
            Command::Doubt { user, premises } => {
                self.set_beliefs(user, self.beliefs_of(user).difference(premises));
                Reply::Done
            }
            Command::Beliefs { user } => Reply::Believes(self.beliefs_of(user)),
            Command::Ask { user, cell } => self.ask(user, cell),
            Command::Why { user, cell } => self.why(user, cell),
            Command::Conflicts { user } => self.conflicts(user),
            Command::Choose { user, groups } => self.choose(user, groups),
        }
    }

    /// Carries out a command at a line, from 1 to 1,000,000, that comes after every line given
    /// before; the lines in between count as blank. Everything that it names is declared: its user,
    /// its cells, its callable, which takes them, and the premises that it chooses from; and a fact
    /// is of the kind of its cell.
    ///
    /// The reply is the answer to the command from what the lines before it left. It is
    /// `Refused(Memory)` if memory is refused to a tell, to an attach, to an ask of a cell that is
    /// written by an instance whose premises are all believed, to a why, to conflicts, or to a
    /// choose; then nothing changes that a reply shows. The other commands are never refused.
    ///
    /// After a choose that answers premises its user believes these, and no others of its groups.
    /// After one that answers none, or is refused, the user believes what it did before.
    ///
    /// Derived facts are cached with their premises and reused for every user. Caching never
    /// changes a reply: each is what it would be from scratch.
    ///
    /// After an answered why or conflicts, or an answered ask of a cell that is written by an
    /// instance whose premises are all believed, its user is fresh: nothing is left to derive, for
    /// any user of the same beliefs. A fresh user stays fresh until the user believes something else, or
    /// a line of this user is refused, or a line attaches something under premises that this user
    /// believes, or tells something that does not follow already under this user's beliefs.
    /// `last_calls` says what that saves.
    ///
    /// After a why that is answered with a contradiction the reason is noted, and what noted sets cover
    /// stays covered.
    #[inline(always)]
    pub fn command(&mut self, line: u32, command: &Command) -> Reply<A>
        requires { CanBeCarriedOut (state self.old) line command.now }
        ensures carried { CarriesOut (state self.old) line command.now (state self.new)
            (reply_by result) }
        ensures fresh { KeepsFresh (state self.old) command.now (state self.new)
            (reply_by result) }
        ensures calls { CountsCalls (state self.old) command.now (state self.new)
            (reply_by result) }
        ensures noted { KeepsNogoods (state self.old) (state self.new) (reply_by result) }
        ensures refused { RefusedShowsNoChange (state self.old) (state self.new) (reply_by result) }
    {
        self.calls = 0;
        self.carry_out(line, command)
    }

    /// The number of procedure calls that the last command made to settle: 0 if its user was fresh, or
    /// another user of the same beliefs. It is 0 before the first command, and after a command that
    /// settled nothing or was refused while settling. A why or conflicts that was refused after it had
    /// settled counts these calls. Calls made to find a reason or a choice do not count.
    pub fn last_calls(&self) -> u128
        ensures { result ≡ (state self.now).calls }
    {
        self.calls
    }

    /// The premises that the user, who must be declared, believes now.
    pub fn beliefs(&self, user: u8) -> PremiseSet
        requires { IsUserOf (state self.now) user }
        ensures { (d : Declared) (before : List LineReading) → IsLeftBy d before (state self.now)
            → result ≡ beliefs_at d user before }
    {
        self.beliefs_of(user)
    }
}
