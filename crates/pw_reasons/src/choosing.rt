//! The first consistent combination of groups of premises.

ghost use Rattle.std.specs.Prelude.{◌≡◌, ◌<◌, ◌≤◌, [], ◌+◌, ◌++◌, All, IfNone, IfOk, IfSome, List};
ghost use Rattle.std.specs.Prelude.{None, Ok, OnOk, drop, false, length, slice_index_or, take};
ghost use Rattle.std.specs.Prelude.{true};
ghost use Rattle.std.specs.FinSet.{is_subset, remove};
ghost use Rattle.pw_network.specs.Wiring.{wiring};
ghost use Rattle.pw_premises.specs.Premises.{Premises, most_premises};
ghost use Rattle.pw_reasons.specs.Choice.{IsFirstConsistent};
ghost use Rattle.pw_reasons.specs.Combinations.{groups_of, picked_in, worldviews_of};
ghost use Rattle.pw_reasons.specs.Nogood.{AreNogoods, covers};
ghost use Rattle.pw_settle.specs.Growth.{KeepsMore, StaysUpstream};
ghost use Rattle.pw_reasons.specs.inside.Reasoning.{AreSettledLast};
ghost use Rattle.pw_reasons.specs.inside.Searching.{AreCovered, IsFoundBeside, LeavesSound};
ghost use Rattle.pw_reasons.specs.inside.Searching.{ends_search, refuting};
ghost use Rattle.pw_reasons.specs.inside.Products.{worldviews_beside};
ghost use Rattle.pw_reasons.specs.inside.Alike.{HasMore, MayHaveMore, pending};
ghost use Rattle.pw_reasons.specs.declared.choosing.Found.TheVariants.{Nothing, Refuted};
ghost use Rattle.pw_settle.specs.Sound.{IsSoundFor};

use crate::alike::{note_alike, take_refuted};
use crate::combinations::{believed_beside, believed_with_all};
use crate::groups::Groups;
use crate::nogoods::Nogoods;
use crate::picks::Picks;
use crate::trying::{Tried, find_nogood, keep_values, nearer};
use pw_cells::CellStore;
use pw_network::Network;
use pw_premises::PremiseSet;
use pw_settle::Settled;
use std::alloc::{AllocError, Allocator};

// What a search comes to beside what is believed.
#[derive(Drop)]
enum Found {
    // The first consistent combination.
    Chosen(Picks),
    // No combination is consistent: the nogood and the place in `Tried` refute each. They are not noted yet.
    Refuted,
    // No combination is consistent: noted sets cover each, but not what is believed.
    Nothing,
}

impl Found {
    // Whether a search ends here. What is refuted ends it only where the nogood is within what is
    // believed.
    fn ends(&self, nogood: &PremiseSet, believed: &PremiseSet) -> bool
        ensures { result ≡ ends_search nogood.now believed.now self.now }
    {
        match self {
            Found::Chosen(_) => true,
            Found::Refuted => nogood.is_subset(believed),
            Found::Nothing => false,
        }
    }
}

// Tries a combination, with a premise from each group: its worldview, and the part of it without the
// last premise. Fails only when out of memory.
fn try_combination<A: Allocator + Copy>(
    alloc: A,
    network: &Network<'_, '_, A>,
    store: &mut CellStore<A>,
    groups: &Groups,
    above: &Option<Settled<A>>,
    part: &PremiseSet,
    worldview: &PremiseSet,
    picks: &Picks,
    tried: &mut Tried<A>,
) -> Result<Found, AllocError>
    requires sound { IsSoundFor (wiring network.now) store.old }
    requires part { is_subset part.now worldview.now ≡ true }
    requires all { length (picked_in picks.now) ≡ length (groups_of groups.now) }
    requires above { AreSettledLast (wiring network.now) store.old above.now }
    requires last { AreSettledLast (wiring network.now) store.old tried.old.last }
    ensures found { (nogoods : List Premises) → covers nogoods worldview.now ≡ false
        → IfOk result (IsFoundBeside (wiring network.now) store.old nogoods tried.new.nogood
        tried.new.place worldview.now (groups_of groups.now) (picked_in picks.now)) }
    ensures last { AreSettledLast (wiring network.now) store.old tried.new.last }
    ensures grows { KeepsMore (wiring network.now) store.old store.new }
    ensures upstream { StaysUpstream (wiring network.now) store.old store.new }
{
    if find_nogood(alloc, network, store, above, part, worldview, tried)? {
        tried.place = groups.len();
        return Ok(Found::Refuted);
    }
    Ok(Found::Chosen(*picks))
}

// Takes in what was found behind one more premise of a group, where that does not end the search.
// Fails only when out of memory.
fn take_in<A: Allocator + Copy>(
    found: &Found,
    nogoods: &mut Nogoods<A>,
    alike: &mut Option<PremiseSet>,
    groups: &Groups,
    place: usize,
    index: usize,
    tried: &Tried<A>,
) -> Result<(), AllocError>
    requires place { place < length (groups_of groups.now) }
    requires index { index < length (slice_index_or (groups_of groups.now) place []) }
    requires premises { All (All (λ premise. premise < most_premises)) (groups_of groups.now) }
    ensures more { OnOk result (HasMore
        (pending alike.old (drop (place + 1) (groups_of groups.now))
        (take index (slice_index_or (groups_of groups.now) place [])) ++ nogoods.old)
        (pending alike.new (drop (place + 1) (groups_of groups.now))
        (take (index + 1) (slice_index_or (groups_of groups.now) place [])) ++ nogoods.new)
        (refuting found.now tried.now.nogood (drop tried.now.place (groups_of groups.now)))) }
    ensures waiting { OnOk result (IfSome alike.new (λ fixed. (found.now ≡ Refuted)
        × (fixed ≡ remove tried.now.nogood
        (slice_index_or (slice_index_or (groups_of groups.now) place []) index 0)))) }
    ensures leaves { MayHaveMore nogoods.old nogoods.new
        (refuting found.now tried.now.nogood (drop tried.now.place (groups_of groups.now))
        ++ pending alike.old (drop (place + 1) (groups_of groups.now))
        (take index (slice_index_or (groups_of groups.now) place []))) }
    ensures same { found.now ≡ Nothing → alike.old ≡ None
        → (result ≡ Ok tt) × (nogoods.new ≡ nogoods.old) × (alike.new ≡ None) }
{
    match found {
        Found::Refuted => take_refuted(
            nogoods,
            alike,
            groups,
            place,
            index,
            &tried.nogood,
            tried.place,
        ),
        Found::Chosen(_) | Found::Nothing => { note_alike(nogoods, alike, groups, place, index) }
    }
}

// Searches the combinations that begin with these picks, one from each of the first groups, in their
// order. The worldview is what is believed with them, and the part is without the last of them. A
// premise is passed over, with all combinations behind it, if a noted set covers the worldview with
// it. What refutes the premises of a group alike is noted only where that ends: so all combinations
// that are refuted alike are noted at once. The values above, if there are any, are those of a call
// further up; values of this call are made from them. Fails only when out of memory.
fn search<A: Allocator + Copy>(
    alloc: A,
    network: &Network<'_, '_, A>,
    store: &mut CellStore<A>,
    nogoods: &mut Nogoods<A>,
    groups: &Groups,
    above: &Option<Settled<A>>,
    part: &PremiseSet,
    worldview: &PremiseSet,
    picks: &Picks,
    tried: &mut Tried<A>,
) -> Result<Found, AllocError>
    requires sound { IsSoundFor (wiring network.now) store.old }
    requires nogoods { AreNogoods (wiring network.now) store.old nogoods.old }
    requires premises { All (All (λ premise. premise < most_premises)) (groups_of groups.now) }
    requires above { AreSettledLast (wiring network.now) store.old above.now }
    requires part { is_subset part.now worldview.now ≡ true }
    requires uncovered { covers nogoods.old worldview.now ≡ false }
    requires few { length (picked_in picks.now) ≤ length (groups_of groups.now) }
    requires last { AreSettledLast (wiring network.now) store.old tried.old.last }
    ensures found { IfOk result (IsFoundBeside (wiring network.now) store.old nogoods.new
        tried.new.nogood tried.new.place worldview.now (groups_of groups.now)
        (picked_in picks.now)) }
    ensures known { AreCovered nogoods.old (worldviews_beside worldview.now
        (drop (length (picked_in picks.now)) (groups_of groups.now)))
        → (result ≡ Ok Nothing) × (store.new ≡ store.old) × (nogoods.new ≡ nogoods.old) }
    ensures leaves { LeavesSound (wiring network.now) store.old nogoods.old store.new nogoods.new
        tried.new.last }
{
    let place = picks.premises().len();
    if place == groups.len() {
        return try_combination(
            alloc, network, store, groups, above, part, worldview, picks, tried,
        );
    }
    if nogoods.covers_each(worldview, groups, place) {
        return Ok(Found::Nothing);
    }
    let group = groups.group(place);
    let mut alike = None;
    let mut own = None;
    for index in 0..group.len() {
        let premise = group[index];
        if nogoods.covers_with(worldview, premise) {
            note_alike(nogoods, &mut alike, groups, place, index)?;
            continue;
        }
        let is_last = place + 1 == groups.len();
        let last = nearer(above, &tried.last);
        keep_values(
            alloc, network, store, last, worldview, &alike, is_last, &mut own,
        )?;
        let mut more = *worldview;
        more.insert(premise);
        let picked = picks.with(premise);
        let nearest = nearer(&own, above);
        let found = search(
            alloc, network, store, nogoods, groups, nearest, worldview, &more, &picked, tried,
        )?;
        if found.ends(&tried.nogood, worldview) {
            note_alike(nogoods, &mut alike, groups, place, index)?;
            return Ok(found);
        }
        take_in(&found, nogoods, &mut alike, groups, place, index, tried)?;
    }
    match alike {
        Some(fixed) => {
            tried.nogood = fixed;
            tried.place = place;
            Ok(Found::Refuted)
        }
        None => Ok(Found::Nothing),
    }
}

/// The first combination of the groups under which nothing is contradictory: one premise from each
/// group, in the order of the groups. Combinations come in the order of the premises as given, the
/// last group changing fastest. What is then believed is the worldview without all premises of the
/// groups, together with those taken. None if something is contradictory under each combination.
/// Fails only when out of memory.
///
/// Each earlier combination contradicts itself, and what contradicted is noted. A combination that
/// a noted set covers is passed over unsettled: so if all are covered, nothing is settled, and no
/// memory is taken. After an answer of None all are covered. The first of the others is settled
/// (`settle`). Each later one is tried beside the store, from the values of a part of it: at one
/// cell after the other (`value_aside`), and if that shows no contradiction, by finding its values
/// (`settle_aside`). (Radul and Sussman, *The Art of the Propagator*, on hypothetical premises. The
/// order is this program's own.)
///
/// All premises of the groups must be below 512. The store must be sound, and the nogoods sets of
/// premises that contradict themselves. Both stay so, the store keeps no less than before, the told
/// facts are unchanged, and what was covered is covered: after a failure too.
pub fn choose<A: Allocator + Copy>(
    alloc: A,
    network: &Network<'_, '_, A>,
    store: &mut CellStore<A>,
    nogoods: &mut Nogoods<A>,
    worldview: &PremiseSet,
    groups: &Groups,
) -> Result<Option<Picks>, AllocError>
    requires sound { IsSoundFor (wiring network.now) store.old }
    requires nogoods { AreNogoods (wiring network.now) store.old nogoods.old }
    requires premises { All (All (λ premise. premise < most_premises)) (groups_of groups.now) }
    ensures some { IfOk result (λ chosen. IfSome chosen (λ picks. IsFirstConsistent
        (wiring network.now) store.old worldview.now (groups_of groups.now) (picked_in picks))) }
    ensures none { IfOk result (λ chosen. IfNone chosen (AreNogoods (wiring network.now) store.old
        (worldviews_of worldview.now (groups_of groups.now)))) }
    ensures covered { IfOk result (λ chosen. IfNone chosen (All (λ w. covers nogoods.new w ≡ true)
        (worldviews_of worldview.now (groups_of groups.now)))) }
    ensures known { All (λ w. covers nogoods.old w ≡ true)
        (worldviews_of worldview.now (groups_of groups.now))
        → (result ≡ Ok None) × (store.new ≡ store.old) × (nogoods.new ≡ nogoods.old) }
    ensures nogoods { AreNogoods (wiring network.now) store.old nogoods.new }
    ensures covers { (w : Premises) → covers nogoods.old w ≡ true → covers nogoods.new w ≡ true }
    ensures grows { KeepsMore (wiring network.now) store.old store.new }
    ensures upstream { StaysUpstream (wiring network.now) store.old store.new }
{
    let others = believed_beside(worldview, groups);
    if nogoods.covers(&others) {
        return Ok(None);
    }
    nogoods.expect(&believed_with_all(worldview, groups));
    let mut tried = Tried::nothing();
    let found = search(
        alloc,
        network,
        store,
        nogoods,
        groups,
        &None,
        &others,
        &others,
        &Picks::none(),
        &mut tried,
    )?;
    match found {
        Found::Chosen(picks) => Ok(Some(picks)),
        Found::Refuted => {
            nogoods.note_with_each(&tried.nogood, groups, tried.place)?;
            Ok(None)
        }
        Found::Nothing => Ok(None),
    }
}
