//! Questions of users: what settles under a user's beliefs, starting from what an earlier question
//! found in the same worldview, or in one within it.
ghost use Rattle.std.specs.Prelude.{◌≡◌, ◌<◌, IfNone, IfOk, IfSome, None, Some, length, position};
ghost use Rattle.std.specs.Prelude.{true};
ghost use Rattle.pw_network.specs.Wiring.{wiring};
ghost use Rattle.pw_premises.specs.Premises.{Premises};
ghost use Rattle.pw_reasons.specs.Combinations.{groups_of, picked_in};
ghost use Rattle.pw_reasons.specs.Nogood.{covers};
ghost use Rattle.pw_settle.specs.Growth.{CanContinue, KeepsMore};
ghost use Rattle.pw_settle.specs.Settled.{IsSettled};
ghost use Rattle.pw_settle.specs.Sound.{IsSoundFor};
ghost use Rattle.pw_sessions.specs.Carrying.{KeepsNogoods};
ghost use Rattle.pw_sessions.specs.Freshness.{CallsDue, IsAsked};
ghost use Rattle.pw_sessions.specs.Reply.{reply_by};
ghost use Rattle.pw_sessions.specs.Snapshot.{IsCurrent, is_of, start_for};
ghost use Rattle.pw_sessions.specs.Workbench.{SnapshotsFit};
ghost use Rattle.pw_sessions.specs.inside.Fields.{state};
ghost use Rattle.pw_sessions.specs.inside.Steps.{AllContradict, AnswersAskIfLeft, AnswersConflicts};
ghost use Rattle.pw_sessions.specs.inside.Steps.{AnswersWhy, AreOfPremises, CanAnswer, IsChosen};
ghost use Rattle.pw_sessions.specs.inside.Steps.{IsFirstChoice, OnlyKeepsMore, RestOnUpstreamOf};
ghost use Rattle.pw_sessions.specs.inside.Steps.{SeesWriter, SettlesFor, StaysUpstreamOf};
ghost use Rattle.pw_sessions.specs.inside.Steps.{is_written, place_in};

use super::Workbench;
use super::snapshot::Snapshot;
use super::snapshots::{bring_first, is_at, place_of, place_within, remember};
use crate::reply::{Refusal, Reply};
use pw_cells::CellStore;
use pw_network::Network;
use pw_premises::PremiseSet;
use pw_reasons::{Groups, Picks, choose, list_conflicts, reason, worldview_with};
use pw_settle::{Settled, resettle_from, settle};
use std::alloc::{AllocError, Allocator};

// Whether an instance that is visible in the worldview writes the declared cell. It looks at the
// writers of the cell only.
fn is_written_by<A: Allocator + Copy>(
    network: &Network<'_, '_, A>,
    cell: u32,
    worldview: &PremiseSet,
) -> bool
    requires { cell < length (wiring network.now).declared.cells }
    ensures { result ≡ is_written (wiring network.now).attached cell worldview.now }
{
    let instances = network.instances();
    // A transcript that only tells and asks attaches nothing.
    if instances.is_empty() {
        return false;
    }
    for number in network.writers(cell) {
        if instances[number].support().is_subset(worldview) {
            return true;
        }
    }
    false
}

// Settles in a worldview of which there is no snapshot. It goes on from the first snapshot within it,
// if there is one. Fails only when out of memory.
fn settle_within<A: Allocator + Copy>(
    alloc: A,
    snapshots: &[Snapshot<A>],
    network: &Network<'_, '_, A>,
    store: &mut CellStore<A>,
    worldview: &PremiseSet,
) -> Result<Settled<A>, AllocError>
    requires sound { IsSoundFor (wiring network.now) store.old }
    requires fit { SnapshotsFit (wiring network.now) store.old snapshots.now }
    requires none { position (is_of worldview.now) snapshots.now ≡ None }
    ensures settled { IfOk result (λ settled.
        IsSettled (wiring network.now) store.old worldview.now settled) }
    ensures current { IfOk result (λ settled. IsCurrent (wiring network.now) store.new settled) }
    ensures continues { IfOk result (CanContinue store.new) }
    ensures due { IfOk result (λ settled. CallsDue (wiring network.now) store.old store.new
        worldview.now (start_for snapshots.now worldview.now) settled.calls) }
    ensures grows { KeepsMore (wiring network.now) store.old store.new }
    ensures upstream { StaysUpstreamOf (wiring network.now) store.old snapshots.now store.new }
    ensures lie { IfOk result (RestOnUpstreamOf (wiring network.now) store.old snapshots.now) }
{
    let Some(place) = place_within(snapshots, worldview) else {
        return settle(alloc, network, store, worldview);
    };
    let start = &snapshots[place];
    resettle_from(alloc, &start.values, network, store, worldview)
}

impl<'d, 'r, A: Allocator + Copy> Workbench<'d, 'r, A> {
    // The place of the snapshot of the beliefs of the user, who must exist, if there is one. It looks
    // first where that snapshot was last: as no two are of the same worldview, no other place has to
    // be looked at if it still is there.
    fn place_for(&self, user: u8) -> Option<usize>
        requires { user < length (state self.now).beliefs }
        ensures { result ≡ place_in (state self.now) user }
    {
        let beliefs = &self.beliefs[usize::from(user)];
        if let Some(place) = self.places.get(usize::from(user)) {
            if is_at(&self.snapshots, *place, beliefs) {
                return Some(*place);
            }
        }
        place_of(&self.snapshots, beliefs)
    }

    // Settles again in the worldview of the snapshot at this place. The result is its place from then
    // on: the same, unless it has grown. Fails only when out of memory.
    fn settle_again(&mut self, user: u8, place: usize) -> Result<usize, AllocError>
        requires can { CanAnswer (state self.old) user }
        requires calls { (state self.old).calls ≡ 0 }
        requires place { place_in (state self.old) user ≡ Some place }
        ensures { SettlesFor (state self.old) user (state self.new) result }
    {
        let snapshot = &mut self.snapshots[place];
        let cells = snapshot.values.cells();
        snapshot.settle_again(&mut self.workspace, &self.network, &mut self.store)?;
        self.calls = snapshot.values.calls();
        self.settlings = self.settlings.wrapping_add(1);
        snapshot.last_use = self.settlings;
        if snapshot.values.cells() == cells {
            return Ok(place);
        }
        bring_first(&mut self.snapshots, place, &self.beliefs);
        Ok(0)
    }

    // Settles under the beliefs of the user, of which there is no snapshot. From now on there is: the
    // result is its place. Fails only when out of memory.
    fn settle_anew(&mut self, user: u8) -> Result<usize, AllocError>
        requires can { CanAnswer (state self.old) user }
        requires calls { (state self.old).calls ≡ 0 }
        requires none { place_in (state self.old) user ≡ None }
        ensures { SettlesFor (state self.old) user (state self.new) result }
    {
        let alloc = *self.beliefs.allocator();
        let beliefs = self.beliefs_of(user);
        let settled = settle_within(
            alloc,
            &self.snapshots,
            &self.network,
            &mut self.store,
            &beliefs,
        )?;
        let calls = settled.calls();
        self.settlings = self.settlings.wrapping_add(1);
        remember(&mut self.snapshots, settled, self.settlings, &self.beliefs)?;
        self.calls = calls;
        Ok(0)
    }

    // Notes the place at which the snapshot of the beliefs of the user is now.
    fn note_place(&mut self, user: u8, place: usize)
        ensures { state self.new ≡ state self.old }
    {
        if let Some(last) = self.places.get_mut(usize::from(user)) {
            *last = place;
        }
    }

    // Settles under the beliefs of the user, who must exist. The place is that of their snapshot, if
    // there is one. The result is the place of the snapshot that has the values, which is noted for
    // the user. Fails only when out of memory.
    fn settle_for(&mut self, user: u8, place: Option<usize>) -> Result<usize, AllocError>
        requires can { CanAnswer (state self.old) user }
        requires calls { (state self.old).calls ≡ 0 }
        requires place { place_in (state self.old) user ≡ place }
        ensures { SettlesFor (state self.old) user (state self.new) result }
    {
        let place = match place {
            Some(place) => self.settle_again(user, place)?,
            None => self.settle_anew(user)?,
        };
        self.note_place(user, place);
        Ok(place)
    }

    // What is known about the declared cell under the beliefs of the user, who must exist.
    pub(super) fn ask(&mut self, user: u8, cell: u32) -> Reply<A>
        requires can { CanAnswer (state self.old) user }
        requires cell { cell < length (state self.old).network.declared.cells }
        requires calls { (state self.old).calls ≡ 0 }
        ensures answer { AnswersAskIfLeft (state self.old) user cell (reply_by result) }
        ensures asked { IsAsked (state self.old) user (SeesWriter (state self.old) user cell)
            (state self.new) (reply_by result) }
        ensures noted { KeepsNogoods (state self.old) (state self.new) (reply_by result) }
        ensures grows { OnlyKeepsMore (state self.old) user (state self.new) }
    {
        let place = self.place_for(user);
        let beliefs = &self.beliefs[usize::from(user)];
        if let Some(place) = place {
            let snapshot = &self.snapshots[place];
            if snapshot.is_current {
                return Reply::Value(snapshot.values.info(cell));
            }
        }
        if !is_written_by(&self.network, cell, beliefs) {
            return Reply::Value(self.store.recall(user, cell, beliefs));
        }
        self.ask_settled(user, cell, place)
    }

    // The same, by settling, where an instance that the user sees writes the cell. Never inlined, so
    // that the stack frame of other questions stays small.
    #[inline(never)]
    fn ask_settled(&mut self, user: u8, cell: u32, place: Option<usize>) -> Reply<A>
        requires can { CanAnswer (state self.old) user }
        requires cell { cell < length (state self.old).network.declared.cells }
        requires calls { (state self.old).calls ≡ 0 }
        requires written { SeesWriter (state self.old) user cell }
        requires place { place_in (state self.old) user ≡ place }
        ensures answer { AnswersAskIfLeft (state self.old) user cell (reply_by result) }
        ensures asked { IsAsked (state self.old) user (SeesWriter (state self.old) user cell)
            (state self.new) (reply_by result) }
        ensures noted { KeepsNogoods (state self.old) (state self.new) (reply_by result) }
        ensures grows { OnlyKeepsMore (state self.old) user (state self.new) }
    {
        let Ok(place) = self.settle_for(user, place) else {
            return Reply::Refused(Refusal::Memory);
        };
        let snapshot = &self.snapshots[place];
        Reply::Value(snapshot.values.info(cell))
    }

    // What is known about the declared cell under the beliefs of the user, who must exist, and why.
    #[inline(never)]
    pub(super) fn why(&mut self, user: u8, cell: u32) -> Reply<A>
        requires can { CanAnswer (state self.old) user }
        requires cell { cell < length (state self.old).network.declared.cells }
        requires calls { (state self.old).calls ≡ 0 }
        ensures answer { AnswersWhy (state self.old) user cell (reply_by result) }
        ensures asked { IsAsked (state self.old) user Unit (state self.new)
            (reply_by result) }
        ensures noted { KeepsNogoods (state self.old) (state self.new) (reply_by result) }
        ensures grows { OnlyKeepsMore (state self.old) user (state self.new) }
    {
        let alloc = *self.beliefs.allocator();
        let place = self.place_for(user);
        let Ok(place) = self.settle_for(user, place) else {
            return Reply::Refused(Refusal::Memory);
        };
        let snapshot = &self.snapshots[place];
        let Ok(reason) = reason(
            alloc,
            &self.network,
            &mut self.store,
            &mut self.nogoods,
            &snapshot.values,
            cell,
        ) else {
            return Reply::Refused(Refusal::Memory);
        };
        Reply::Because(snapshot.values.info(cell), reason)
    }

    // The first combination of the groups under which nothing is contradictory, for the user, who
    // must exist, if there is one. Fails only when out of memory.
    fn find_choice(&mut self, user: u8, groups: &Groups) -> Result<Option<Picks>, AllocError>
        requires can { CanAnswer (state self.old) user }
        requires premises { AreOfPremises (groups_of groups.now) }
        ensures some { IfOk result (λ chosen. IfSome chosen (λ picks.
            IsFirstChoice (state self.old) user (groups_of groups.now) (picked_in picks))) }
        ensures none { IfOk result (λ chosen. IfNone chosen
            (AllContradict (state self.old) user (groups_of groups.now))) }
        ensures covers { (w : Premises) → covers (state self.old).nogoods w ≡ true
            → covers (state self.new).nogoods w ≡ true }
        ensures snapshots { (state self.new).snapshots ≡ (state self.old).snapshots }
        ensures calls { (state self.new).calls ≡ (state self.old).calls }
        ensures grows { OnlyKeepsMore (state self.old) user (state self.new) }
    {
        let alloc = *self.beliefs.allocator();
        let beliefs = self.beliefs_of(user);
        let nogoods = &mut self.nogoods;
        choose(
            alloc,
            &self.network,
            &mut self.store,
            nogoods,
            &beliefs,
            groups,
        )
    }

    // Chooses for the user, who must exist: if a combination is found, the user believes it from
    // now on, in the place of all premises of the groups. Never inlined, like `why`.
    #[inline(never)]
    pub(super) fn choose(&mut self, user: u8, groups: Groups) -> Reply<A>
        requires can { CanAnswer (state self.old) user }
        requires premises { AreOfPremises (groups_of groups) }
        ensures chosen { IsChosen (state self.old) user (groups_of groups) (state self.new)
            (reply_by result) }
        ensures noted { KeepsNogoods (state self.old) (state self.new) (reply_by result) }
    {
        let Ok(chosen) = self.find_choice(user, &groups) else {
            return Reply::Refused(Refusal::Memory);
        };
        let Some(picks) = chosen else {
            return Reply::Chose(None);
        };
        let beliefs = self.beliefs_of(user);
        let worldview = worldview_with(&beliefs, &groups, &picks);
        self.set_beliefs(user, worldview);
        Reply::Chose(Some(picks))
    }

    // What is contradictory under the beliefs of the user, who must exist.
    #[inline(never)]
    pub(super) fn conflicts(&mut self, user: u8) -> Reply<A>
        requires can { CanAnswer (state self.old) user }
        requires calls { (state self.old).calls ≡ 0 }
        ensures answer { AnswersConflicts (state self.old) user (reply_by result) }
        ensures asked { IsAsked (state self.old) user Unit (state self.new)
            (reply_by result) }
        ensures noted { KeepsNogoods (state self.old) (state self.new) (reply_by result) }
        ensures grows { OnlyKeepsMore (state self.old) user (state self.new) }
    {
        let alloc = *self.beliefs.allocator();
        let place = self.place_for(user);
        let Ok(place) = self.settle_for(user, place) else {
            return Reply::Refused(Refusal::Memory);
        };
        let snapshot = &self.snapshots[place];
        let Ok(conflicts) = list_conflicts(alloc, &self.network, &snapshot.values) else {
            return Reply::Refused(Refusal::Memory);
        };
        Reply::Listed(conflicts)
    }
}
