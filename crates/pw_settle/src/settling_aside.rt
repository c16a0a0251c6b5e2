//! Settling beside the store: the values of another worldview, from values at hand.
ghost use Rattle.std.specs.Prelude.{◌≡◌, ◌↔◌, ◌<◌, IfOk, IfSome, IsTrue, OnOk, length, map, true};
ghost use Rattle.std.specs.FinSet.{is_subset};
ghost use Rattle.pw_info.specs.Information.{Implies, kind_of};
ghost use Rattle.pw_facts.specs.Facts.{IsMerge};
ghost use Rattle.pw_cells.specs.Cells.{fact_on, kind_in_store};
ghost use Rattle.pw_network.specs.Wiring.{wiring};
ghost use Rattle.pw_settle.specs.Calls.{AreVisible};
ghost use Rattle.pw_settle.specs.Settled.{IsSettled, info_at};
ghost use Rattle.pw_settle.specs.Sound.{IsSoundFor};
ghost use Rattle.pw_settle.specs.Values.{kinds_in, value_in};
ghost use Rattle.pw_settle.specs.inside.Aside.{AreFound, AreOthersMet, CanStart, IsFound, StaysMet};
ghost use Rattle.pw_settle.specs.inside.Known.{ListsOneMore};
ghost use Rattle.pw_settle.specs.inside.Progress.{AreQueuedVisible, AreSatisfied};

use crate::agenda::Agenda;
use crate::calling_aside::settle_aside_from;
use crate::growing_aside::grow_aside;
use crate::known::{Known, put_kept};
use crate::resettling::queue_changed;
use crate::settled::Settled;
use crate::settling::visible_in;
use crate::support_list::SupportList;
use pw_cells::{CellStore, NarrowFact};
use pw_facts::{Fact, merge_facts};
use pw_info::Info;
use pw_network::Network;
use pw_premises::PremiseSet;
use std::alloc::{AllocError, Allocator};

// What is known about a cell at the start: its earlier value, if that rests on premises of the
// worldview alone, and what is kept of it there. In a part of the earlier worldview the earlier
// value says what is kept.
#[inline(always)]
fn start_value<A: Allocator + Copy>(
    before: &Settled<A>,
    network: &Network<'_, '_, A>,
    store: &mut CellStore<A>,
    cell: u32,
    worldview: &PremiseSet,
) -> Fact
    requires start { CanStart (wiring network.now) store.old before.now }
    requires cell { cell < length store.old.cells }
    ensures unchanged { store.new ≡ store.old }
    ensures found { IsFound (wiring network.now) store.old worldview.now cell result.info
        result.support }
{
    // The network belongs to the store.
    let _instances = network.instances();
    if !before.rests_within(cell, worldview) {
        return store.kept(cell, worldview);
    }
    let earlier = before.value(cell);
    if worldview.is_subset(before.worldview()) {
        return earlier;
    }
    merge_facts(&earlier, &store.kept(cell, worldview))
}

/// What at least follows at a cell in a worldview, found without a call of any procedure: from the
/// value at hand in any other worldview, and from what is kept of the cell. It comes with premises
/// of the worldview that by themselves say as much there. So if it is a contradiction, these
/// premises contradict themselves. The store stays as it is. Takes no memory.
///
/// The store is sound, and the earlier values are those of all cells and instances that there are
/// now, as for `settle_aside`. The cell must exist.
pub fn value_aside<A: Allocator + Copy>(
    before: &Settled<A>,
    network: &Network<'_, '_, A>,
    store: &mut CellStore<A>,
    cell: u32,
    worldview: &PremiseSet,
) -> Fact
    requires sound { IsSoundFor (wiring network.now) store.old }
    requires before { IsSettled (wiring network.now) store.old before.now.worldview before.now }
    requires cell { cell < length store.old.cells }
    ensures unchanged { store.new ≡ store.old }
    ensures kind { kind_of result.info ≡ kind_in_store store.old cell }
    ensures within { is_subset result.support worldview.now ≡ true }
    // A user who believed exactly these premises would find out as much.
    ensures follows { Implies (value_in (wiring network.now) store.old result.support cell)
        result.info }
{
    start_value(before, network, store, cell, worldview)
}

// The merge of two facts of one kind, as `merge_facts` gives it.
#[inline(always)]
fn merged_narrow(a: NarrowFact, b: NarrowFact) -> NarrowFact
    requires { kind_of a.info ≡ kind_of b.info }
    ensures { IsMerge (fact_on a.info a.support) (fact_on b.info b.support)
        (fact_on result.info result.support) }
{
    if a.info.implies(&b.info) {
        if b.support.is_subset(&a.support) && b.info.implies(&a.info) {
            return b;
        }
        return a;
    }
    if b.info.implies(&a.info) {
        return b;
    }
    NarrowFact {
        info: a.info.meet(&b.info),
        support: a.support.join(b.support),
    }
}

// What is known about a cell at the start, if all premises at hand are below 64. A part of the earlier
// worldview is no case of its own: `part_values` is for that.
#[inline(always)]
fn start_narrow<A: Allocator + Copy>(
    before: &Settled<A>,
    network: &Network<'_, '_, A>,
    store: &mut CellStore<A>,
    cell: u32,
    worldview: &PremiseSet,
) -> Option<NarrowFact>
    requires start { CanStart (wiring network.now) store.old before.now }
    requires cell { cell < length store.old.cells }
    ensures unchanged { store.new ≡ store.old }
    ensures found { IfSome result (λ fact. IsFound (wiring network.now) store.old worldview.now cell
        fact.info fact.support) }
{
    // The network belongs to the store.
    let _instances = network.instances();
    let earlier = before.narrow_value(cell)?;
    if !earlier.support.is_within(worldview) {
        return store.kept_narrow(cell, worldview);
    }
    let kept = store.kept_narrow(cell, worldview)?;
    Some(merged_narrow(earlier, kept))
}

// Appends what is known about one cell more at the start. Fails only when out of memory.
#[inline(always)]
fn push_start<A: Allocator + Copy>(
    before: &Settled<A>,
    network: &Network<'_, '_, A>,
    store: &mut CellStore<A>,
    cell: u32,
    worldview: &PremiseSet,
    infos: &mut Vec<Info, A>,
    supports: &mut SupportList<A>,
) -> Result<(), AllocError>
    requires start { CanStart (wiring network.now) store.old before.now }
    requires cell { cell < length store.old.cells }
    ensures unchanged { store.new ≡ store.old }
    ensures found { OnOk result (ListsOneMore (IsFound (wiring network.now) store.old worldview.now
        cell) infos.old.items infos.new.items supports.old supports.new) }
{
    if let Some(fact) = start_narrow(before, network, store, cell, worldview) {
        infos.push(fact.info)?;
        supports.push_narrow(fact.support)?;
        return Ok(());
    }
    push_wide_start(before, network, store, cell, worldview, infos, supports)
}

// What `push_start` does, on any premises. Never inlined, so that the stack frame for premises below 64
// stays small.
#[cold]
#[inline(never)]
fn push_wide_start<A: Allocator + Copy>(
    before: &Settled<A>,
    network: &Network<'_, '_, A>,
    store: &mut CellStore<A>,
    cell: u32,
    worldview: &PremiseSet,
    infos: &mut Vec<Info, A>,
    supports: &mut SupportList<A>,
) -> Result<(), AllocError>
    requires start { CanStart (wiring network.now) store.old before.now }
    requires cell { cell < length store.old.cells }
    ensures unchanged { store.new ≡ store.old }
    ensures found { OnOk result (ListsOneMore (IsFound (wiring network.now) store.old worldview.now
        cell) infos.old.items infos.new.items supports.old supports.new) }
{
    let fact = start_value(before, network, store, cell, worldview);
    infos.push(fact.info)?;
    supports.push(fact.support)?;
    Ok(())
}

// What is known about the cells at the start, cell by cell. Fails only when out of memory.
fn other_values<A: Allocator + Copy>(
    alloc: A,
    before: &Settled<A>,
    network: &Network<'_, '_, A>,
    store: &mut CellStore<A>,
    worldview: &PremiseSet,
) -> Result<Known<A>, AllocError>
    requires start { CanStart (wiring network.now) store.old before.now }
    ensures unchanged { store.new ≡ store.old }
    ensures found { IfOk result (λ known. AreFound (wiring network.now) store.old worldview.now
        known.infos.items known.supports) }
{
    let mut infos = Vec::with_capacity(alloc, store.cells() as usize)?;
    let mut supports = SupportList::with_capacity(alloc, store.cells() as usize)?;
    for cell in 0..store.cells() {
        push_start(
            before,
            network,
            store,
            cell,
            worldview,
            &mut infos,
            &mut supports,
        )?;
    }
    Ok(Known { infos, supports })
}

// What is known at the start in a subset of the earlier worldview: the earlier values, but what is kept
// where a value rests on a premise outside it. Fails only when out of memory.
fn part_values<A: Allocator + Copy>(
    alloc: A,
    before: &Settled<A>,
    network: &Network<'_, '_, A>,
    store: &mut CellStore<A>,
    worldview: &PremiseSet,
) -> Result<Known<A>, AllocError>
    requires start { CanStart (wiring network.now) store.old before.now }
    requires part { is_subset worldview.now before.now.worldview ≡ true }
    ensures unchanged { store.new ≡ store.old }
    ensures found { IfOk result (λ known. AreFound (wiring network.now) store.old worldview.now
        known.infos.items known.supports) }
{
    // The network belongs to the store.
    let _instances = network.instances();
    let mut known = before.known(alloc)?;
    for cell in 0..store.cells() {
        if !known.supports.is_within(cell as usize, worldview) {
            put_kept(store, cell, worldview, &mut known)?;
        }
    }
    Ok(known)
}

// What is known about the cells at the start. Fails only when out of memory.
fn start_values<A: Allocator + Copy>(
    alloc: A,
    before: &Settled<A>,
    network: &Network<'_, '_, A>,
    store: &mut CellStore<A>,
    worldview: &PremiseSet,
) -> Result<Known<A>, AllocError>
    requires start { CanStart (wiring network.now) store.old before.now }
    ensures unchanged { store.new ≡ store.old }
    ensures found { IfOk result (λ known. AreFound (wiring network.now) store.old worldview.now
        known.infos.items known.supports) }
{
    if worldview.is_subset(before.worldview()) {
        return part_values(alloc, before, network, store, worldview);
    }
    other_values(alloc, before, network, store, worldview)
}

// Whether the instance of this number was visible, and no less is known now of the cell that it
// writes.
fn stays_met<A: Allocator + Copy>(
    network: &Network<'_, '_, A>,
    was_visible: &[bool],
    before: &[Info],
    now: &[Info],
    number: usize,
) -> bool
    requires there { number < length was_visible.now }
    requires all { length was_visible.now ≡ length (wiring network.now).attached }
    requires before { map kind_of before.now ≡ kinds_in (wiring network.now) }
    requires now { map kind_of now.now ≡ kinds_in (wiring network.now) }
    ensures { IsTrue result ↔ StaysMet (wiring network.now) was_visible.now before.now now.now
        number }
{
    let instance = &network.instances()[number];
    was_visible[number] && now[instance.output as usize].implies(&before[instance.output as usize])
}

// An agenda of the visible instances that were not visible, or write a cell of which less is known
// now. Fails only when out of memory.
fn fallen_instances<A: Allocator + Copy>(
    alloc: A,
    network: &Network<'_, '_, A>,
    visible: &[bool],
    was_visible: &[bool],
    before: &[Info],
    now: &[Info],
) -> Result<Agenda<A>, AllocError>
    requires visible { length visible.now ≡ length (wiring network.now).attached }
    requires was_visible { length was_visible.now ≡ length (wiring network.now).attached }
    requires before { map kind_of before.now ≡ kinds_in (wiring network.now) }
    requires now { map kind_of now.now ≡ kinds_in (wiring network.now) }
    ensures { IfOk result (λ agenda. AreOthersMet (wiring network.now) visible.now was_visible.now
        before.now now.now agenda) }
{
    let mut agenda = Agenda::new(alloc, visible.len())?;
    for number in 0..visible.len() {
        if visible[number] && !stays_met(network, was_visible, before, now, number) {
            agenda.add(number);
        }
    }
    Ok(agenda)
}

// An agenda of the visible instances that what is known at the start may not satisfy: those that
// were not visible, those that write a cell of which less is known now, and the readers of each
// cell of which more is. Fails only when out of memory.
fn unmet_instances<A: Allocator + Copy>(
    alloc: A,
    before: &Settled<A>,
    network: &Network<'_, '_, A>,
    store: &CellStore<A>,
    worldview: &PremiseSet,
    visible: &[bool],
    known: &Known<A>,
) -> Result<Agenda<A>, AllocError>
    requires sound { IsSoundFor (wiring network.now) store.now }
    requires before { IsSettled (wiring network.now) store.now before.now.worldview before.now }
    requires visible { AreVisible (wiring network.now) worldview.now visible.now }
    requires found { AreFound (wiring network.now) store.now worldview.now known.now.infos.items
        known.now.supports }
    ensures flags { IfOk result (λ agenda. length agenda
        ≡ length (wiring network.now).attached) }
    ensures seen { IfOk result (AreQueuedVisible (wiring network.now) worldview.now) }
    ensures satisfied { IfOk result (AreSatisfied (wiring network.now) worldview.now
        (info_at known.now.infos.items)) }
{
    let earlier = before.infos();
    let now = known.infos.as_slice();
    if worldview.is_subset(before.worldview()) {
        // What is visible was visible, and of no cell more is known.
        return fallen_instances(alloc, network, visible, visible, earlier, now);
    }
    let was_visible = visible_in(alloc, network, before.worldview())?;
    let mut agenda = fallen_instances(alloc, network, visible, &was_visible, earlier, now)?;
    queue_changed(network, worldview, earlier, now, &mut agenda);
    Ok(agenda)
}

/// The values of the cells of a network in a worldview, found from its values in any other one. They
/// are values as `settle` answers them, each with premises of the worldview that it rests on. The
/// store stays as it is: this is for trials, since no later reading walks what a trial derived.
/// Fails only when out of memory.
///
/// The store is sound, and the earlier values are those of all cells and instances that there are
/// now. Their worldview may have more premises than this one, or fewer, or others.
///
/// An earlier value stays if it rests on premises of this worldview alone. The instances called at
/// first are the visible ones that were not visible then, those that write a cell of which less is
/// known now, and the readers of cells of which more is. If this worldview includes the earlier one,
/// all earlier values stay, and what is kept is looked up only of cells of which the store may show
/// more. No clause counts the calls.
pub fn settle_aside<A: Allocator + Copy>(
    alloc: A,
    before: &Settled<A>,
    network: &Network<'_, '_, A>,
    store: &mut CellStore<A>,
    worldview: &PremiseSet,
) -> Result<Settled<A>, AllocError>
    requires sound { IsSoundFor (wiring network.now) store.old }
    requires before { IsSettled (wiring network.now) store.old before.now.worldview before.now }
    ensures settled { IfOk result (IsSettled (wiring network.now) store.old worldview.now) }
    ensures unchanged { store.new ≡ store.old }
{
    if before.worldview().is_subset(worldview) {
        return grow_aside(alloc, before, network, store, worldview);
    }
    let visible = visible_in(alloc, network, worldview)?;
    let known = start_values(alloc, before, network, store, worldview)?;
    let agenda = unmet_instances(alloc, before, network, store, worldview, &visible, &known)?;
    settle_aside_from(network, store, worldview, known, &visible, agenda)
}
