//! The snapshots of a workbench, in the order in which they were made, the latest first. One that has
//! grown comes first too.
ghost use Rattle.std.specs.Prelude.{◌≡◌, ◌<◌, ◌≤◌, ◌∷◌, length, map, position, remove, IfSome};
ghost use Rattle.std.specs.Prelude.{IsTrue, None, OnErr, OnOk, Some, vec_capacity, vec_len};
ghost use Rattle.pw_info.specs.Information.{kind_of};
ghost use Rattle.pw_premises.specs.PremiseSubsets.{has_same_numbers};
ghost use Rattle.pw_sessions.specs.Snapshot.{AreApart, EachBecomes, HaveValues, IsAfterTell};
ghost use Rattle.pw_sessions.specs.Snapshot.{after_entry, is_of, is_within};
ghost use Rattle.pw_sessions.specs.inside.Steps.{CanBeSpared, IsBroughtFirst, IsLatest, OnlySpares};
ghost use Rattle.pw_sessions.specs.inside.Steps.{is_believed};

use super::snapshot::Snapshot;
use pw_facts::Fact;
use pw_premises::{NarrowSet, PremiseSet};
use pw_settle::Settled;
use std::alloc::{AllocError, Allocator};

// As many snapshots are kept as there are users, and this many more.
const MOST_OTHERS: usize = 64;

// The most values that all snapshots have together, while one can be spared.
const MOST_VALUES: usize = 262_144;

// The room for the snapshots of this many users.
pub(super) fn room_for(users: usize) -> usize {
    users.saturating_add(MOST_OTHERS)
}

// Whether two worldviews are the same. Mostly the first one lacks a premise below 64 of the other one:
// then one word tells that they are not.
#[inline(always)]
fn are_same(one: &PremiseSet, other: &PremiseSet) -> bool
    ensures { result ≡ has_same_numbers one.now other.now }
{
    match NarrowSet::of(other) {
        Some(narrow) if !narrow.is_within(one) => false,
        _ => *one == *other,
    }
}

// The place of the snapshot of exactly this worldview, if there is one.
pub(super) fn place_of<A: Allocator>(
    snapshots: &[Snapshot<A>],
    worldview: &PremiseSet,
) -> Option<usize>
    ensures { result ≡ position (is_of worldview.now) snapshots.now }
{
    snapshots.iter().position(|snapshot| are_same(snapshot.values.worldview(), worldview))
}

// Whether the snapshot at this place is of exactly this worldview. Then, as no two are of the same, it
// is the one that `place_of` finds.
pub(super) fn is_at<A: Allocator>(
    snapshots: &[Snapshot<A>],
    place: usize,
    worldview: &PremiseSet,
) -> bool
    ensures { IsTrue result → AreApart snapshots.now →
        position (is_of worldview.now) snapshots.now ≡ Some place }
{
    match snapshots.get(place) {
        Some(snapshot) => are_same(snapshot.values.worldview(), worldview),
        None => false,
    }
}

// The place of the first snapshot whose worldview lies within this one, if there is one.
pub(super) fn place_within<A: Allocator>(
    snapshots: &[Snapshot<A>],
    worldview: &PremiseSet,
) -> Option<usize>
    ensures { result ≡ position (is_within worldview.now) snapshots.now }
{
    snapshots.iter().position(|snapshot| snapshot.values.worldview().is_subset(worldview))
}

// Something was attached under these premises: the snapshots that see it are no longer known to be
// current.
pub(super) fn note_entry<A: Allocator>(snapshots: &mut [Snapshot<A>], support: &PremiseSet)
    ensures { snapshots.new ≡ map (after_entry support.now) snapshots.old }
{
    for snapshot in snapshots.iter_mut() {
        snapshot.note_entry(support);
    }
}

// A fact was told about the cell, and each snapshot has a value of the fact's kind for the cell: the
// snapshots to which the fact is news are no longer known to be current.
pub(super) fn note_tell<A: Allocator>(snapshots: &mut [Snapshot<A>], cell: u32, fact: &Fact)
    requires { HaveValues cell (kind_of fact.now.info) snapshots.old }
    ensures { EachBecomes (IsAfterTell cell fact.now) snapshots.old snapshots.new }
{
    for snapshot in snapshots.iter_mut() {
        snapshot.note_tell(cell, fact);
    }
}

// The number of values that the snapshots have together.
fn values_in<A: Allocator>(snapshots: &[Snapshot<A>]) -> usize {
    let mut values: usize = 0;
    for snapshot in snapshots {
        values = values.saturating_add(snapshot.values.cells());
    }
    values
}

// Whether one of the beliefs is exactly this worldview.
fn is_among(beliefs: &[PremiseSet], worldview: &PremiseSet) -> bool
    ensures { result ≡ is_believed beliefs.now worldview.now }
{
    beliefs.iter().any(|believed| *worldview == *believed)
}

// The place of the snapshot that was used longest ago of those whose worldview is none of the
// beliefs.
fn place_to_spare<A: Allocator>(snapshots: &[Snapshot<A>], beliefs: &[PremiseSet]) -> Option<usize>
    ensures { IfSome result (CanBeSpared beliefs.now snapshots.now) }
{
    let mut spare: Option<usize> = None;
    let mut oldest_use = u64::MAX;
    // From the last one on: it is mostly the one that was used longest ago.
    for back in 0..snapshots.len() {
        let place = snapshots.len() - 1 - back;
        let snapshot = &snapshots[place];
        let is_older = snapshot.last_use <= oldest_use;
        if is_older && !is_among(beliefs, snapshot.values.worldview()) {
            spare = Some(place);
            oldest_use = snapshot.last_use;
        }
    }
    spare
}

// Gives the snapshot at this place up.
fn give_up<A: Allocator>(snapshots: &mut Vec<Snapshot<A>, A>, place: usize)
    requires { place < length snapshots.old.items }
    ensures items { snapshots.new.items ≡ remove snapshots.old.items place }
    ensures len { vec_len snapshots.new ≤ vec_len snapshots.old }
    ensures capacity { vec_capacity snapshots.new ≡ vec_capacity snapshots.old }
{
    snapshots.remove(place);
}

// Puts a snapshot before the others, for which there is room.
fn put_first<A: Allocator>(snapshots: &mut Vec<Snapshot<A>, A>, snapshot: Snapshot<A>)
    requires { vec_len snapshots.old < vec_capacity snapshots.old }
    ensures { snapshots.new.items ≡ snapshot ∷ snapshots.old.items }
{
    let _ = snapshots.insert(0, snapshot);
}

// Gives snapshots up until there is room for one more, first those that were used longest ago, and
// none whose worldview is one of the beliefs.
fn make_room<A: Allocator>(snapshots: &mut Vec<Snapshot<A>, A>, beliefs: &[PremiseSet])
    ensures spares { OnlySpares beliefs.now snapshots.old.items snapshots.new.items }
    ensures len { vec_len snapshots.new ≤ vec_len snapshots.old }
    ensures capacity { vec_capacity snapshots.new ≡ vec_capacity snapshots.old }
{
    for _ in 0..snapshots.len() {
        if snapshots.len() < room_for(beliefs.len()) && values_in(snapshots) <= MOST_VALUES {
            return;
        }
        let Some(place) = place_to_spare(snapshots, beliefs) else {
            return;
        };
        give_up(snapshots, place);
    }
}

// The snapshot at this place has grown: it is the first one from now on. Others are given up where
// there is no room for its values.
pub(super) fn bring_first<A: Allocator>(
    snapshots: &mut Vec<Snapshot<A>, A>,
    place: usize,
    beliefs: &[PremiseSet],
)
    requires { place < length snapshots.old.items }
    ensures { IsBroughtFirst beliefs.now place snapshots.old.items snapshots.new.items }
{
    let snapshot = snapshots.remove(place);
    make_room(snapshots, beliefs);
    put_first(snapshots, snapshot);
}

// These values, of whose worldview there is no snapshot, are the first snapshot from now on, and
// current. Others are given up if there is no room for them. Fails only when out of memory; then
// nothing changes.
pub(super) fn remember<A: Allocator>(
    snapshots: &mut Vec<Snapshot<A>, A>,
    values: Settled<A>,
    last_use: u64,
    beliefs: &[PremiseSet],
) -> Result<(), AllocError>
    requires { position (is_of values.worldview) snapshots.old.items ≡ None }
    ensures ok { OnOk result (IsLatest beliefs.now snapshots.old.items values
        snapshots.new.items) }
    ensures err { OnErr result (snapshots.new.items ≡ snapshots.old.items) }
{
    snapshots.reserve(1)?;
    make_room(snapshots, beliefs);
    let snapshot = Snapshot {
        values,
        is_current: true,
        last_use,
    };
    put_first(snapshots, snapshot);
    Ok(())
}
