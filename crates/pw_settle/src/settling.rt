//! Settling: the values of all cells of a network in a worldview.
ghost use Rattle.std.specs.Prelude.{◌≡◌, ◌+◌, ◌<◌, ◌≤◌, All, IfOk, IsTrue, OnErr, OnOk};
ghost use Rattle.std.specs.Prelude.{false, length, map, true};
ghost use Rattle.pw_cells.specs.Cells.{kept_in, kinds_of};
ghost use Rattle.pw_network.specs.Wiring.{wiring};
ghost use Rattle.pw_procs.specs.Registry.{procedures_in};
ghost use Rattle.pw_network.specs.inside.Held.{attachment};
ghost use Rattle.pw_network.specs.Network.{AreAllVisible, HaveSupportsByLine};
ghost use Rattle.pw_settle.specs.inside.Progress.{AreOthersSatisfied, AreQueuedVisible};
ghost use Rattle.pw_settle.specs.inside.Progress.{CallsNoMore, IsFurther, IsIdle, IsUnderway};
ghost use Rattle.pw_settle.specs.inside.Progress.{LeavesNoMore, weight};
ghost use Rattle.pw_settle.specs.Calls.{AreVisible, CallsAtMost, gains, is_instance_visible};
ghost use Rattle.pw_settle.specs.Calls.{most_calls, tally, visible_at, visible_count};
ghost use Rattle.pw_settle.specs.Settling.{Settles};
ghost use Rattle.pw_settle.specs.Growth.{HasValues, KeepsIfSound, KeepsMore, StaysUpstreamAfter};
ghost use Rattle.pw_settle.specs.inside.Known.{AreKept, SaysTold, StayUpstream};
ghost use Rattle.pw_settle.specs.Values.{kinds_in};

use crate::agenda::Agenda;
use crate::calling_aside::work_aside;
use crate::kept_news::{keep_found, keep_news};
use crate::known::{Known, read_kept};
use crate::propagating::news_on;
use crate::readers::queue_visible_readers;
use crate::settled::Settled;
use crate::support_list::SupportList;
use pw_cells::CellStore;
use pw_network::{Instance, Network};
use pw_premises::PremiseSet;
use pw_procs::Registry;
use std::alloc::{AllocError, Allocator};

// A settling goes on beside the store after this many calls, and two for each cell: then what it copies
// for that is little beside its calls.
const FEW_CALLS: usize = 1024;

// Which instances are visible in the worldview, by number. Instances of one line have one support.
// Fails only when out of memory.
fn seen<A: Allocator + Copy>(
    alloc: A,
    instances: &[Instance],
    worldview: &PremiseSet,
) -> Result<Vec<bool, A>, AllocError>
    requires lines { All (λ attached. 1 ≤ attached.line) (map attachment instances.now) }
    requires supports { HaveSupportsByLine (map attachment instances.now) }
    ensures { IfOk result (λ visible.
        visible.items ≡ map (is_instance_visible worldview.now) (map attachment instances.now)) }
{
    let mut visible = Vec::with_capacity(alloc, instances.len())?;
    // The flag of the last instance, and its line, 0 before the first: a support is tested once a
    // line.
    let mut line = 0;
    let mut is_visible = false;
    for instance in instances {
        let its_line = instance.line();
        if its_line != line {
            line = its_line;
            is_visible = instance.support().is_subset(worldview);
        }
        visible.push_reserved(is_visible);
    }
    Ok(visible)
}

// Which instances of a network are visible in the worldview, by number. If all are, as is mostly so,
// none is tested by itself. Fails only when out of memory.
pub(crate) fn visible_in<A: Allocator + Copy>(
    alloc: A,
    network: &Network<'_, '_, A>,
    worldview: &PremiseSet,
) -> Result<Vec<bool, A>, AllocError>
    ensures { IfOk result (λ visible. AreVisible (wiring network.now) worldview.now visible.items) }
{
    let instances = network.instances();
    if network.are_all_visible(worldview) {
        return vec![in alloc; true; instances.len()];
    }
    seen(alloc, instances, worldview)
}

// An agenda of the instances whose flags are set. Fails only when out of memory.
fn agenda_of<A: Allocator + Copy>(alloc: A, visible: &[bool]) -> Result<Agenda<A>, AllocError>
    ensures { IfOk result (λ agenda. agenda ≡ visible.now) }
{
    let mut agenda = Agenda::new(alloc, visible.len())?;
    for number in 0..visible.len() {
        if visible[number] {
            agenda.add(number);
        }
    }
    Ok(agenda)
}

// Calls the procedure of an instance, which is visible and not queued. If the value is news, the
// store keeps it, and the visible readers of the output are queued. The registry and the instances are
// the network's. Answers whether many instances were called, which it looks up only after news. Fails
// only when out of memory.
fn call<A: Allocator + Copy>(
    network: &Network<'_, '_, A>,
    registry: &Registry,
    instances: &[Instance],
    store: &mut CellStore<A>,
    worldview: &PremiseSet,
    sees_all: bool,
    known: &mut Known<A>,
    agenda: &mut Agenda<A>,
    number: usize,
    calls: &mut u128,
) -> Result<bool, AllocError>
    requires registry { procedures_in registry.now ≡ (wiring network.now).declared.procedures }
    requires instances { map attachment instances.now ≡ (wiring network.now).attached }
    requires kinds { kinds_of store.old ≡ kinds_in (wiring network.now) }
    requires all { IsTrue sees_all → AreAllVisible (wiring network.now) worldview.now }
    requires kept { AreKept store.old worldview.now known.old.infos.items known.old.supports }
    requires flags { length agenda.old ≡ length (wiring network.now).attached }
    requires seen { AreQueuedVisible (wiring network.now) worldview.now agenda.old }
    requires number { visible_at (wiring network.now) worldview.now number ≡ true }
    requires room { calls.old < most_calls }
    requires others { AreOthersSatisfied (wiring network.now) worldview.now
        (λ cell. kept_in store.old cell worldview.now) agenda.old number }
    ensures counted { calls.new ≡ calls.old + 1 }
    ensures further { IsFurther result (wiring network.now) worldview.now store.old
        known.old.supports store.new known.new.infos.items known.new.supports agenda.new }
    ensures least { tally agenda.old ≤ tally agenda.new }
    ensures most { OnOk result (LeavesNoMore (wiring network.now) worldview.now store.old
        agenda.old store.new agenda.new) }
{
    let instance = &instances[number];
    if let Some(info) = news_on(registry, instance, &known.infos, calls) {
        keep_news(
            store,
            &mut known.infos,
            &mut known.supports,
            instance.output,
            instance,
            &info,
        )?;
        queue_visible_readers(network, worldview, sees_all, agenda, instance.output);
        return Ok(agenda.has_taken_many());
    }
    Ok(false)
}

// Calls queued instances until none is left, or many were called. Answers the number of calls, and whether
// none is left. Fails only when out of memory; then an instance was queued, and what is known was kept at
// some point.
fn call_some<A: Allocator + Copy>(
    network: &Network<'_, '_, A>,
    store: &mut CellStore<A>,
    worldview: &PremiseSet,
    known: &mut Known<A>,
    agenda: &mut Agenda<A>,
) -> Result<(u128, bool), AllocError>
    requires { IsUnderway (wiring network.now) store.old worldview.now
        known.old.infos.items known.old.supports agenda.old }
    ensures further { IsFurther result (wiring network.now) worldview.now store.old
        known.old.supports store.new known.new.infos.items known.new.supports agenda.new }
    ensures waited { OnErr result (IsIdle agenda.old → ⊥) }
    ensures done { IfOk result (λ (calls, is_done). is_done ≡ true → IsIdle agenda.new) }
    ensures called { IfOk result (λ (calls, is_done). is_done ≡ false → 0 < calls) }
    ensures left { IfOk result (λ (calls, is_done). is_done ≡ false → IsIdle agenda.old → ⊥) }
    ensures least { IfOk result (λ (calls, is_done). tally agenda.old ≤ calls + tally agenda.new) }
    ensures most { IfOk result (λ (calls, is_done). calls + (tally agenda.new
        + weight (wiring network.now) store.new worldview.now)
        ≤ tally agenda.old + weight (wiring network.now) store.old worldview.now) }
{
    // The number of cells and that of instances bound the count.
    let _cells = store.cells();
    // Looked up once: otherwise the compiled loop looks them up for each call.
    let registry = network.declaration().registry();
    let instances = network.instances();
    let sees_all = network.are_all_visible(worldview);
    let mut calls = 0;
    while let Some(number) = agenda.take() {
        let are_many = call(
            network, registry, instances, store, worldview, sees_all, known, agenda, number,
            &mut calls,
        )?;
        if are_many {
            return Ok((calls, false));
        }
    }
    Ok((calls, true))
}

// Calls queued instances beside the store until none is left, and then keeps what was found of each
// cell: once, and not at each call. Answers the number of calls. Fails only when out of memory; then
// what is known stays. Never inlined, so that short settlings pay nothing for it.
#[cold]
#[inline(never)]
fn go_on_aside<A: Allocator + Copy>(
    network: &Network<'_, '_, A>,
    store: &mut CellStore<A>,
    worldview: &PremiseSet,
    known: &mut Known<A>,
    agenda: &mut Agenda<A>,
    visible: &[bool],
    mut found: Known<A>,
) -> Result<u128, AllocError>
    requires underway { IsUnderway (wiring network.now) store.old worldview.now
        known.old.infos.items known.old.supports agenda.old }
    requires told { SaysTold store.old worldview.now }
    requires visible { AreVisible (wiring network.now) worldview.now visible.now }
    requires infos { found.infos.items ≡ known.old.infos.items }
    requires supports { found.supports ≡ known.old.supports }
    ensures further { IsFurther result (wiring network.now) worldview.now store.old
        known.old.supports store.new known.new.infos.items known.new.supports agenda.new }
    ensures done { OnOk result (IsIdle agenda.new) }
    ensures least { IfOk result (λ calls. tally agenda.old ≤ calls) }
    ensures most { IfOk result (CallsNoMore (wiring network.now) worldview.now store.old agenda.old
        store.new) }
{
    let calls = work_aside(network, store, worldview, &mut found, visible, agenda)?;
    keep_found(network, store, worldview, known, &found)?;
    *known = found;
    Ok(calls)
}

// What `go_on_aside` needs: which instances are visible, and what is known in lists of its own. Fails
// only when out of memory.
#[cold]
#[inline(never)]
fn copied_aside<A: Allocator + Copy>(
    network: &Network<'_, '_, A>,
    worldview: &PremiseSet,
    known: &Known<A>,
) -> Result<(Vec<bool, A>, Known<A>), AllocError>
    ensures visible { IfOk result (λ (visible, found).
        AreVisible (wiring network.now) worldview.now visible.items) }
    ensures infos { IfOk result (λ (visible, found). found.infos.items ≡ known.now.infos.items) }
    ensures supports { IfOk result (λ (visible, found). found.supports ≡ known.now.supports) }
{
    let alloc = *known.infos.allocator();
    let visible = visible_in(alloc, network, worldview)?;
    Ok((visible, known.copied(alloc)?))
}

// Calls queued instances until none is left, and answers the number of calls. After many, it goes on
// beside the store, if there is memory for that, and keeps only what it finds at the end. Fails only when
// out of memory; then an instance was queued, and what is known was kept at some point.
pub(crate) fn work<A: Allocator + Copy>(
    network: &Network<'_, '_, A>,
    store: &mut CellStore<A>,
    worldview: &PremiseSet,
    known: &mut Known<A>,
    agenda: &mut Agenda<A>,
) -> Result<u128, AllocError>
    requires underway { IsUnderway (wiring network.now) store.old worldview.now
        known.old.infos.items known.old.supports agenda.old }
    requires told { SaysTold store.old worldview.now }
    ensures further { IsFurther result (wiring network.now) worldview.now store.old
        known.old.supports store.new known.new.infos.items known.new.supports agenda.new }
    ensures waited { OnErr result (IsIdle agenda.old → ⊥) }
    ensures done { OnOk result (IsIdle agenda.new) }
    ensures least { IfOk result (λ calls. tally agenda.old ≤ calls) }
    ensures most { IfOk result (CallsNoMore (wiring network.now) worldview.now store.old agenda.old
        store.new) }
{
    // These lengths bound the count.
    let cells = store.cells() as usize;
    let _instances = network.instances();
    let mut calls = 0;
    loop {
        agenda.count_anew(FEW_CALLS + 2 * cells);
        let (more, is_done) = call_some(network, store, worldview, known, agenda)?;
        calls += more;
        if is_done {
            return Ok(calls);
        }
        if let Ok((visible, found)) = copied_aside(network, worldview, known) {
            let rest = go_on_aside(network, store, worldview, known, agenda, &visible, found)?;
            return Ok(calls + rest);
        }
    }
}

// The values, after calling queued instances until none is left. It starts from what is known about
// the cells: this is what is kept of them, it says what is told, and it satisfies each visible
// instance that is not queued. Fails only when out of memory.
pub(crate) fn settle_from<A: Allocator + Copy>(
    network: &Network<'_, '_, A>,
    store: &mut CellStore<A>,
    worldview: &PremiseSet,
    mut known: Known<A>,
    mut agenda: Agenda<A>,
) -> Result<Settled<A>, AllocError>
    requires underway { IsUnderway (wiring network.now) store.old worldview.now known.infos.items
        known.supports agenda }
    requires told { SaysTold store.old worldview.now }
    ensures found { IfOk result (HasValues (wiring network.now) store.old store.new worldview.now) }
    ensures kept { OnOk result (KeepsIfSound (wiring network.now) store.old store.new
        worldview.now) }
    ensures grows { KeepsMore (wiring network.now) store.old store.new }
    ensures upstream { StaysUpstreamAfter (wiring network.now) known.supports store.old
        store.new }
    ensures lie { IfOk result (λ settled. StayUpstream (wiring network.now) store.old known.supports
        store.new settled.supports) }
    ensures least { IfOk result (λ settled. tally agenda ≤ settled.calls) }
    ensures most { IfOk result (λ settled. settled.calls
        ≤ tally agenda + gains (wiring network.now) store.old store.new worldview.now) }
{
    let calls = work(network, store, worldview, &mut known, &mut agenda)?;
    Ok(Settled {
        known,
        worldview: *worldview,
        instances: network.instances().len(),
        calls,
        mark: store.mark(),
    })
}

/// The values of the cells of a network in a worldview: what follows, at each cell, from what the
/// store is told there and from the instances that are visible there, with premises of the
/// worldview that it rests on. The store must have the network's cells, with their kinds. The values
/// are these if the store is sound: it keeps only what follows. Fails only when out of memory.
///
/// Derived facts are cached in the store with their premises, so later settlings start from them,
/// in any worldview. Afterwards the store keeps the value of each cell in this worldview. The told
/// facts are unchanged, and the store stays sound: after a failure too, with perhaps more kept. A
/// later settling may continue from the values (`resettle_from`, `resettle_since`).
///
/// An instance is called once, and again if what is kept of one of its inputs has changed. (Radul
/// and Sussman, *The Art of the Propagator*, on schedulers of propagators; Radul, *Propagation
/// Networks*, on dependencies and worldviews.)
pub fn settle<A: Allocator + Copy>(
    alloc: A,
    network: &Network<'_, '_, A>,
    store: &mut CellStore<A>,
    worldview: &PremiseSet,
) -> Result<Settled<A>, AllocError>
    requires { kinds_of store.old ≡ kinds_in (wiring network.now) }
    ensures settles { Settles (wiring network.now) store.old store.new worldview.now result }
    ensures least { IfOk result (λ settled. visible_count (wiring network.now) worldview.now ≤
        settled.calls) }
    ensures most { IfOk result (CallsAtMost (wiring network.now) store.old store.new worldview.now) }
{
    let visible = visible_in(alloc, network, worldview)?;
    let agenda = agenda_of(alloc, &visible)?;
    let known = read_kept(alloc, store, worldview)?;
    settle_from(network, store, worldview, known, agenda)
}
