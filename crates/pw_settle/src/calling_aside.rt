//! Calling instances beside the store, until nothing more follows.
ghost use Rattle.std.specs.Prelude.{◌≡◌, ◌+◌, ◌<◌, ◌≤◌, true, IfOk, OnOk, length, map};
ghost use Rattle.pw_cells.specs.Cells.{kinds_of};
ghost use Rattle.pw_network.specs.Wiring.{wiring};
ghost use Rattle.pw_procs.specs.Registry.{procedures_in};
ghost use Rattle.pw_network.specs.inside.Held.{attachment};
ghost use Rattle.pw_settle.specs.Calls.{AreVisible, most_calls, tally, visible_at};
ghost use Rattle.pw_settle.specs.Settled.{IsSettled, info_at};
ghost use Rattle.pw_settle.specs.Values.{kinds_in};
ghost use Rattle.pw_settle.specs.Sound.{IsSound};
ghost use Rattle.pw_settle.specs.inside.Aside.{AreFound, IsFurtherAside, IsUnderwayAside, weight_of};
ghost use Rattle.pw_settle.specs.inside.Progress.{AreOthersSatisfied, AreQueuedVisible};
ghost use Rattle.pw_settle.specs.inside.Progress.{IsIdle};

use crate::agenda::Agenda;
use crate::known::{Known, take_in_news};
use crate::propagating::news_on;
use crate::readers::queue_readers;
use crate::settled::Settled;
use pw_cells::CellStore;
use pw_network::{Instance, Network};
use pw_premises::PremiseSet;
use pw_procs::Registry;
use std::alloc::{AllocError, Allocator};

// Calls the procedure of an instance, which is visible and not queued. If the value is news, it is
// taken in, and the visible readers of the output are queued. The registry and the instances are the
// network's. Fails only when out of memory.
fn call_aside<A: Allocator + Copy>(
    network: &Network<'_, '_, A>,
    registry: &Registry,
    instances: &[Instance],
    store: &CellStore<A>,
    worldview: &PremiseSet,
    known: &mut Known<A>,
    visible: &[bool],
    agenda: &mut Agenda<A>,
    number: usize,
    calls: &mut u128,
) -> Result<(), AllocError>
    requires registry { procedures_in registry.now ≡ (wiring network.now).declared.procedures }
    requires instances { map attachment instances.now ≡ (wiring network.now).attached }
    requires kinds { kinds_of store.now ≡ kinds_in (wiring network.now) }
    requires found { AreFound (wiring network.now) store.now worldview.now known.old.infos.items
        known.old.supports }
    requires visible { AreVisible (wiring network.now) worldview.now visible.now }
    requires flags { length agenda.old ≡ length (wiring network.now).attached }
    requires seen { AreQueuedVisible (wiring network.now) worldview.now agenda.old }
    requires number { visible_at (wiring network.now) worldview.now number ≡ true }
    requires room { calls.old < most_calls }
    requires others { AreOthersSatisfied (wiring network.now) worldview.now
        (info_at known.old.infos.items) agenda.old number }
    ensures counted { calls.new ≡ calls.old + 1 }
    ensures further { OnOk result (IsFurtherAside (wiring network.now) store.now worldview.now
        known.old.infos.items known.old.supports known.new.infos.items known.new.supports
        agenda.new) }
    ensures least { tally agenda.old ≤ tally agenda.new }
    ensures most { OnOk result (tally agenda.new
        + weight_of (wiring network.now) worldview.now known.new.infos.items
        ≤ tally agenda.old
        + weight_of (wiring network.now) worldview.now known.old.infos.items) }
{
    let instance = &instances[number];
    if let Some(info) = news_on(registry, instance, &known.infos, calls) {
        take_in_news(
            &mut known.infos,
            &mut known.supports,
            instance.output,
            instance,
            &info,
        )?;
        queue_readers(network, visible, agenda, instance.output);
    }
    Ok(())
}

// Calls queued instances until none is left, and answers the number of calls. Fails only when out
// of memory. Never inlined: a loop of its own keeps what it works on in registers.
#[inline(never)]
pub(crate) fn work_aside<A: Allocator + Copy>(
    network: &Network<'_, '_, A>,
    store: &CellStore<A>,
    worldview: &PremiseSet,
    known: &mut Known<A>,
    visible: &[bool],
    agenda: &mut Agenda<A>,
) -> Result<u128, AllocError>
    requires underway { IsUnderwayAside (wiring network.now) store.now worldview.now
        known.old.infos.items known.old.supports agenda.old }
    requires visible { AreVisible (wiring network.now) worldview.now visible.now }
    ensures further { OnOk result (IsFurtherAside (wiring network.now) store.now worldview.now
        known.old.infos.items known.old.supports known.new.infos.items known.new.supports
        agenda.new) }
    ensures done { OnOk result (IsIdle agenda.new) }
    ensures least { IfOk result (λ calls. tally agenda.old ≤ calls) }
    ensures most { IfOk result (λ calls. calls
        + weight_of (wiring network.now) worldview.now known.new.infos.items
        ≤ tally agenda.old
        + weight_of (wiring network.now) worldview.now known.old.infos.items) }
{
    // These lengths bound the count.
    let _cells = store.cells();
    let _instances = visible.len();
    // Looked up once: otherwise the compiled loop looks them up for each call.
    let registry = network.declaration().registry();
    let instances = network.instances();
    let mut calls = 0;
    while let Some(number) = agenda.take() {
        call_aside(
            network, registry, instances, store, worldview, known, visible, agenda, number,
            &mut calls,
        )?;
    }
    Ok(calls)
}

// The values, after calling queued instances until none is left. It starts from what was found about
// the cells, which satisfies each visible instance that is not queued. Fails only when out of memory.
pub(crate) fn settle_aside_from<A: Allocator + Copy>(
    network: &Network<'_, '_, A>,
    store: &CellStore<A>,
    worldview: &PremiseSet,
    mut known: Known<A>,
    visible: &[bool],
    mut agenda: Agenda<A>,
) -> Result<Settled<A>, AllocError>
    requires sound { IsSound (wiring network.now) store.now }
    requires underway { IsUnderwayAside (wiring network.now) store.now worldview.now
        known.infos.items known.supports agenda }
    requires visible { AreVisible (wiring network.now) worldview.now visible.now }
    ensures { IfOk result (IsSettled (wiring network.now) store.now worldview.now) }
{
    let calls = work_aside(network, store, worldview, &mut known, visible, &mut agenda)?;
    Ok(Settled {
        known,
        worldview: *worldview,
        instances: network.instances().len(),
        calls,
        mark: 0,
    })
}
