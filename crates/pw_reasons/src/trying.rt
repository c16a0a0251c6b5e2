//! Whether a worldview contradicts itself, tried with what was found in other worldviews.

ghost use Rattle.std.specs.Prelude.{◌≡◌, ◌<◌, ◌⊎◌, IfNone, IfOk, IfSome, None, Ok, Some, ℕ, false};
ghost use Rattle.std.specs.Prelude.{length, true};
ghost use Rattle.std.specs.FinSet.{is_subset};
ghost use Rattle.pw_info.specs.Information.{IsContradiction};
ghost use Rattle.pw_network.specs.Wiring.{wiring};
ghost use Rattle.pw_network.specs.Network.{cells_in};
ghost use Rattle.pw_reasons.specs.Choice.{IsConsistent};
ghost use Rattle.pw_reasons.specs.inside.Reasoning.{AreSettledLast};
ghost use Rattle.pw_reasons.specs.inside.Searching.{IsNogoodWithin};
ghost use Rattle.pw_settle.specs.Growth.{KeepsMore, StaysUpstream};
ghost use Rattle.pw_settle.specs.Settled.{IsSettled, info_at, support_at};
ghost use Rattle.pw_settle.specs.Sound.{IsSoundFor};

use pw_cells::CellStore;
use pw_network::Network;
use pw_premises::PremiseSet;
use pw_settle::{Settled, settle, settle_aside, value_aside};
use std::alloc::{AllocError, Allocator};

// What earlier trials leave for the next one.
#[derive(Drop)]
pub(crate) struct Tried<A: Allocator> {
    // The values found last, if any were found: those of all cells in some worldview.
    pub(crate) last: Option<Settled<A>>,
    // The cell at which a trial found a contradiction before it called any procedure.
    cell: u32,
    // What was refuted last, if anything was: this set contradicts itself together with one premise
    // of each group from the place on.
    pub(crate) nogood: PremiseSet,
    pub(crate) place: usize,
}

impl<A: Allocator> Tried<A> {
    // Nothing was tried.
    pub(crate) fn nothing() -> Tried<A>
        ensures { result.last ≡ None }
    {
        Tried {
            last: None,
            cell: 0,
            nogood: PremiseSet::empty(),
            place: 0,
        }
    }
}

// A cell of the network whose settled value is a contradiction, if there is one.
fn contradictory_cell<A: Allocator + Copy>(
    network: &Network<'_, '_, A>,
    settled: &Settled<A>,
) -> Option<u32>
    requires { length settled.now.infos ≡ cells_in (wiring network.now) }
    ensures some { IfSome result (λ cell. (cell < cells_in (wiring network.now))
        × IsContradiction (info_at settled.now.infos cell)) }
    ensures none { IfNone result ((cell : ℕ) → cell < cells_in (wiring network.now)
        → IsContradiction (info_at settled.now.infos cell) → ⊥) }
{
    for cell in 0..network.cells() {
        if settled.info(cell).is_contradiction() {
            return Some(cell);
        }
    }
    None
}

// The values of the worldview, found from others if there are any. None if there are none. Fails only
// when out of memory.
fn values_beside<A: Allocator + Copy>(
    alloc: A,
    network: &Network<'_, '_, A>,
    store: &mut CellStore<A>,
    values: &Option<Settled<A>>,
    worldview: &PremiseSet,
) -> Result<Option<Settled<A>>, AllocError>
    requires sound { IsSoundFor (wiring network.now) store.old }
    requires values { AreSettledLast (wiring network.now) store.old values.now }
    ensures settled { IfOk result (λ found. IfSome found (IsSettled (wiring network.now) store.old
        worldview.now)) }
    ensures unchanged { store.new ≡ store.old }
{
    match values {
        Some(values) => Ok(Some(settle_aside(alloc, values, network, store, worldview)?)),
        None => Ok(None),
    }
}

// Keeps the values of the worldview at hand for the search of the groups that are left, once a premise
// was refuted as the next ones may be: but not for the last group, since its combinations are tried
// from the values found last. Fails only when out of memory.
pub(crate) fn keep_values<A: Allocator + Copy>(
    alloc: A,
    network: &Network<'_, '_, A>,
    store: &mut CellStore<A>,
    values: &Option<Settled<A>>,
    worldview: &PremiseSet,
    alike: &Option<PremiseSet>,
    is_last: bool,
    own: &mut Option<Settled<A>>,
) -> Result<(), AllocError>
    requires sound { IsSoundFor (wiring network.now) store.old }
    requires values { AreSettledLast (wiring network.now) store.old values.now }
    requires own { AreSettledLast (wiring network.now) store.old own.old }
    ensures own { AreSettledLast (wiring network.now) store.old own.new }
    ensures unchanged { store.new ≡ store.old }
    ensures same { alike.now ≡ None → result ≡ Ok tt }
{
    if alike.is_some() && !is_last && own.is_none() {
        *own = values_beside(alloc, network, store, values, worldview)?;
    }
    Ok(())
}

// The values of the worldview, found from others if there are any. Otherwise the network is settled.
// Fails only when out of memory.
fn values_in<A: Allocator + Copy>(
    alloc: A,
    network: &Network<'_, '_, A>,
    store: &mut CellStore<A>,
    values: &Option<Settled<A>>,
    worldview: &PremiseSet,
) -> Result<Settled<A>, AllocError>
    requires sound { IsSoundFor (wiring network.now) store.old }
    requires values { AreSettledLast (wiring network.now) store.old values.now }
    ensures settled { IfOk result (IsSettled (wiring network.now) store.old worldview.now) }
    ensures grows { KeepsMore (wiring network.now) store.old store.new }
    ensures upstream { StaysUpstream (wiring network.now) store.old store.new }
{
    match values {
        Some(values) => settle_aside(alloc, values, network, store, worldview),
        None => settle(alloc, network, store, worldview),
    }
}

// Whether what was found in another worldview and what is kept of this cell contradict each other in
// the worldview. Then the nogood is a set that the contradiction rests on. (As a result it would be
// moved from function to function.)
fn clashes_at<A: Allocator + Copy>(
    last: &Settled<A>,
    network: &Network<'_, '_, A>,
    store: &mut CellStore<A>,
    cell: u32,
    worldview: &PremiseSet,
    nogood: &mut PremiseSet,
) -> bool
    requires sound { IsSoundFor (wiring network.now) store.old }
    requires last { IsSettled (wiring network.now) store.old last.now.worldview last.now }
    requires cell { cell < cells_in (wiring network.now) }
    ensures unchanged { store.new ≡ store.old }
    ensures some { result ≡ true
        → IsNogoodWithin (wiring network.now) store.old worldview.now nogood.new }
{
    let fact = value_aside(last, network, store, cell, worldview);
    let clashes = fact.info.is_contradiction();
    if clashes {
        *nogood = fact.support;
    }
    clashes
}

// The same at any declared cell. The one where the last contradiction was found comes first: mostly it
// is there again.
fn clashes_anywhere<A: Allocator + Copy>(
    last: &Settled<A>,
    network: &Network<'_, '_, A>,
    store: &mut CellStore<A>,
    worldview: &PremiseSet,
    cell: &mut u32,
    nogood: &mut PremiseSet,
) -> bool
    requires sound { IsSoundFor (wiring network.now) store.old }
    requires last { IsSettled (wiring network.now) store.old last.now.worldview last.now }
    ensures unchanged { store.new ≡ store.old }
    ensures some { result ≡ true
        → IsNogoodWithin (wiring network.now) store.old worldview.now nogood.new }
{
    let cells = network.declaration().cells();
    if *cell < cells && clashes_at(last, network, store, *cell, worldview, nogood) {
        return true;
    }
    for place in 0..cells {
        if clashes_at(last, network, store, place, worldview, nogood) {
            *cell = place;
            return true;
        }
    }
    false
}

// The same with the values found last, if any were found.
fn clashes<A: Allocator + Copy>(
    network: &Network<'_, '_, A>,
    store: &mut CellStore<A>,
    worldview: &PremiseSet,
    tried: &mut Tried<A>,
) -> bool
    requires sound { IsSoundFor (wiring network.now) store.old }
    requires last { AreSettledLast (wiring network.now) store.old tried.old.last }
    ensures unchanged { store.new ≡ store.old }
    ensures last { tried.new.last ≡ tried.old.last }
    ensures some { result ≡ true
        → IsNogoodWithin (wiring network.now) store.old worldview.now tried.new.nogood }
{
    match &tried.last {
        Some(last) => clashes_anywhere(
            last,
            network,
            store,
            worldview,
            &mut tried.cell,
            &mut tried.nogood,
        ),
        None => false,
    }
}

// Takes in the values of the worldview as those found last, and answers whether one of them is a
// contradiction. Then the nogood is a set that it rests on.
fn take_in_values<A: Allocator + Copy>(
    network: &Network<'_, '_, A>,
    values: Settled<A>,
    tried: &mut Tried<A>,
) -> bool
    requires { length values.infos ≡ cells_in (wiring network.now) }
    ensures last { tried.new.last ≡ Some values }
    ensures some { result ≡ true → (cell : ℕ) × (cell < cells_in (wiring network.now))
        × IsContradiction (info_at values.infos cell)
        × (tried.new.nogood ≡ support_at values.supports cell) }
    ensures none { result ≡ false → (cell : ℕ) → cell < cells_in (wiring network.now)
        → IsContradiction (info_at values.infos cell) → ⊥ }
{
    let found = contradictory_cell(network, &values);
    if let Some(cell) = found {
        tried.nogood = values.value(cell).support;
    }
    tried.last = Some(values);
    found.is_some()
}

// The first values, if there are any; otherwise the others.
pub(crate) fn nearer<'a, A: Allocator>(
    first: &'a Option<Settled<A>>,
    others: &'a Option<Settled<A>>,
) -> &'a Option<Settled<A>>
    ensures { (result.now ≡ first.now) ⊎ (result.now ≡ others.now) }
{
    if first.is_some() { first } else { others }
}

// Whether values are at hand, but not those in this worldview.
fn is_tried_elsewhere<A: Allocator + Copy>(
    last: &Option<Settled<A>>,
    worldview: &PremiseSet,
) -> bool {
    match last {
        Some(values) => values.worldview() != worldview,
        None => false,
    }
}

// Whether a part of the worldview that is tried next contradicts itself, if anything was tried before,
// and the values in this part are not at hand yet: then the worldview is tried from them. They are
// found from those above, if there are any. Fails only when out of memory.
fn contradicts_before<A: Allocator + Copy>(
    alloc: A,
    network: &Network<'_, '_, A>,
    store: &mut CellStore<A>,
    above: &Option<Settled<A>>,
    part: &PremiseSet,
    tried: &mut Tried<A>,
) -> Result<bool, AllocError>
    requires sound { IsSoundFor (wiring network.now) store.old }
    requires above { AreSettledLast (wiring network.now) store.old above.now }
    requires last { AreSettledLast (wiring network.now) store.old tried.old.last }
    ensures some { IfOk result (λ found. found ≡ true
        → IsNogoodWithin (wiring network.now) store.old part.now tried.new.nogood) }
    ensures last { AreSettledLast (wiring network.now) store.old tried.new.last }
    ensures unchanged { store.new ≡ store.old }
{
    if !is_tried_elsewhere(&tried.last, part) {
        return Ok(false);
    }
    match values_beside(alloc, network, store, nearer(above, &tried.last), part)? {
        Some(values) => Ok(take_in_values(network, values, tried)),
        None => Ok(false),
    }
}

// Whether the worldview contradicts itself. This is looked for first in what was found in another
// worldview, at each cell by itself. Fails only when out of memory.
fn contradicts<A: Allocator + Copy>(
    alloc: A,
    network: &Network<'_, '_, A>,
    store: &mut CellStore<A>,
    worldview: &PremiseSet,
    tried: &mut Tried<A>,
) -> Result<bool, AllocError>
    requires sound { IsSoundFor (wiring network.now) store.old }
    requires last { AreSettledLast (wiring network.now) store.old tried.old.last }
    ensures some { IfOk result (λ found. found ≡ true
        → IsNogoodWithin (wiring network.now) store.old worldview.now tried.new.nogood) }
    ensures none { IfOk result (λ found. found ≡ false
        → IsConsistent (wiring network.now) store.old worldview.now) }
    ensures last { AreSettledLast (wiring network.now) store.old tried.new.last }
    ensures grows { KeepsMore (wiring network.now) store.old store.new }
    ensures upstream { StaysUpstream (wiring network.now) store.old store.new }
{
    if clashes(network, store, worldview, tried) {
        return Ok(true);
    }
    let values = values_in(alloc, network, store, &tried.last, worldview)?;
    Ok(take_in_values(network, values, tried))
}

// Whether the worldview contradicts itself. Then the nogood is a set that a contradiction rests on.
// Once something was tried, the worldview is tried from the values in a part of it: a fact told under
// the premises that the part lacks often contradicts them at once. Fails only when out of memory.
pub(crate) fn find_nogood<A: Allocator + Copy>(
    alloc: A,
    network: &Network<'_, '_, A>,
    store: &mut CellStore<A>,
    above: &Option<Settled<A>>,
    part: &PremiseSet,
    worldview: &PremiseSet,
    tried: &mut Tried<A>,
) -> Result<bool, AllocError>
    requires sound { IsSoundFor (wiring network.now) store.old }
    requires part { is_subset part.now worldview.now ≡ true }
    requires above { AreSettledLast (wiring network.now) store.old above.now }
    requires last { AreSettledLast (wiring network.now) store.old tried.old.last }
    ensures some { IfOk result (λ found. found ≡ true
        → IsNogoodWithin (wiring network.now) store.old worldview.now tried.new.nogood) }
    ensures none { IfOk result (λ found. found ≡ false
        → IsConsistent (wiring network.now) store.old worldview.now) }
    ensures last { AreSettledLast (wiring network.now) store.old tried.new.last }
    ensures grows { KeepsMore (wiring network.now) store.old store.new }
    ensures upstream { StaysUpstream (wiring network.now) store.old store.new }
{
    if contradicts_before(alloc, network, store, above, part, tried)? {
        return Ok(true);
    }
    contradicts(alloc, network, store, worldview, tried)
}
