//! Settling beside the store where premises came in addition to those of the earlier worldview.
ghost use Rattle.std.specs.Prelude.{◌≡◌, ◌+◌, ◌<◌, ◌&&◌, IfOk, OnOk, ℕ, length, not, true};
ghost use Rattle.std.specs.FinSet.{is_subset};
ghost use Rattle.pw_network.specs.Wiring.{wiring};
ghost use Rattle.pw_settle.specs.Calls.{AreVisible, is_set, visible_at};
ghost use Rattle.pw_settle.specs.Settled.{IsSettled};
ghost use Rattle.pw_settle.specs.Sound.{IsSoundFor};
ghost use Rattle.pw_settle.specs.inside.Aside.{AreGrownTo, CanStart};

use crate::agenda::Agenda;
use crate::calling_aside::settle_aside_from;
use crate::known::{Known, take_in_kept};
use crate::readers::queue_readers;
use crate::settled::Settled;
use pw_cells::CellStore;
use pw_network::Network;
use pw_premises::PremiseSet;
use std::alloc::{AllocError, Allocator};

// Which instances are visible, by number, and an agenda of those that were not in the earlier
// worldview. Instances of one line have one support. Fails only when out of memory.
fn seen_anew<A: Allocator + Copy>(
    alloc: A,
    network: &Network<'_, '_, A>,
    earlier: &PremiseSet,
    worldview: &PremiseSet,
) -> Result<(Vec<bool, A>, Agenda<A>), AllocError>
    ensures visible { IfOk result (λ (visible, agenda).
        AreVisible (wiring network.now) worldview.now visible.items) }
    ensures flags { IfOk result (λ (visible, agenda).
        length agenda ≡ length (wiring network.now).attached) }
    ensures new { IfOk result (λ (visible, agenda). (number : ℕ) → is_set agenda number
        ≡ (visible_at (wiring network.now) worldview.now number
        && not (visible_at (wiring network.now) earlier.now number))) }
{
    let instances = network.instances();
    let mut visible = Vec::with_capacity(alloc, instances.len())?;
    let mut agenda = Agenda::new(alloc, instances.len())?;
    // The flags of the last instance, and its line, 0 before the first.
    let mut line = 0;
    let mut is_visible = false;
    let mut was_visible = false;
    for number in 0..instances.len() {
        let instance = &instances[number];
        let its_line = instance.line();
        if its_line != line {
            line = its_line;
            is_visible = instance.support().is_subset(worldview);
            was_visible = instance.support().is_subset(earlier);
        }
        visible.push_reserved(is_visible);
        if is_visible && !was_visible {
            agenda.add(number);
        }
    }
    Ok((visible, agenda))
}

// Merges what is kept of a cell into what is known about it, and queues its visible readers if that
// is news. Fails only when out of memory.
#[inline(always)]
fn grow_cell<A: Allocator + Copy>(
    network: &Network<'_, '_, A>,
    store: &mut CellStore<A>,
    earlier: &PremiseSet,
    worldview: &PremiseSet,
    visible: &[bool],
    known: &mut Known<A>,
    agenda: &mut Agenda<A>,
    cell: u32,
) -> Result<(), AllocError>
    requires sound { IsSoundFor (wiring network.now) store.old }
    requires visible { AreVisible (wiring network.now) worldview.now visible.now }
    requires cell { cell < length store.old.cells }
    requires grown { AreGrownTo (wiring network.now) store.old earlier.now worldview.now cell
        known.old.infos.items known.old.supports agenda.old }
    ensures unchanged { store.new ≡ store.old }
    ensures grown { OnOk result (AreGrownTo (wiring network.now) store.old earlier.now worldview.now
        (cell + 1) known.new.infos.items known.new.supports agenda.new) }
{
    // Of most cells nothing more is kept than in the earlier worldview.
    if !store.may_show_more(cell, earlier, worldview) {
        return Ok(());
    }
    let is_news = take_in_kept(
        store,
        cell,
        worldview,
        &mut known.infos,
        &mut known.supports,
    )?;
    if !is_news {
        return Ok(());
    }
    queue_readers(network, visible, agenda, cell);
    Ok(())
}

// Calls `grow_cell` for each cell, one after another.
fn grow_cells<A: Allocator + Copy>(
    network: &Network<'_, '_, A>,
    store: &mut CellStore<A>,
    earlier: &PremiseSet,
    worldview: &PremiseSet,
    visible: &[bool],
    known: &mut Known<A>,
    agenda: &mut Agenda<A>,
) -> Result<(), AllocError>
    requires sound { IsSoundFor (wiring network.now) store.old }
    requires visible { AreVisible (wiring network.now) worldview.now visible.now }
    requires grown { AreGrownTo (wiring network.now) store.old earlier.now worldview.now 0
        known.old.infos.items known.old.supports agenda.old }
    ensures unchanged { store.new ≡ store.old }
    ensures grown { OnOk result (AreGrownTo (wiring network.now) store.old earlier.now worldview.now
        (length store.old.cells) known.new.infos.items known.new.supports agenda.new) }
{
    for cell in 0..store.cells() {
        grow_cell(
            network, store, earlier, worldview, visible, known, agenda, cell,
        )?;
    }
    Ok(())
}

// The earlier values, merged with what is kept of each cell in a worldview that includes the earlier
// one. It queues the visible readers of the cells about which that is news. Fails only when out of
// memory.
fn grown_values<A: Allocator + Copy>(
    alloc: A,
    before: &Settled<A>,
    network: &Network<'_, '_, A>,
    store: &mut CellStore<A>,
    worldview: &PremiseSet,
    visible: &[bool],
    agenda: &mut Agenda<A>,
) -> Result<Known<A>, AllocError>
    requires start { CanStart (wiring network.now) store.old before.now }
    requires within { is_subset before.now.worldview worldview.now ≡ true }
    requires visible { AreVisible (wiring network.now) worldview.now visible.now }
    requires flags { length agenda.old ≡ length (wiring network.now).attached }
    requires new { (number : ℕ) → is_set agenda.old number
        ≡ (visible_at (wiring network.now) worldview.now number
        && not (visible_at (wiring network.now) before.now.worldview number)) }
    ensures unchanged { store.new ≡ store.old }
    ensures grown { IfOk result (λ known. AreGrownTo (wiring network.now) store.old
        before.now.worldview worldview.now (length store.old.cells) known.infos.items known.supports
        agenda.new) }
{
    let mut known = before.known(alloc)?;
    grow_cells(
        network,
        store,
        before.worldview(),
        worldview,
        visible,
        &mut known,
        agenda,
    )?;
    Ok(known)
}

// What `settle_aside` answers in a worldview that includes the earlier one. There each earlier value
// still follows, and each instance that was visible still is. Fails only when out of memory.
pub(crate) fn grow_aside<A: Allocator + Copy>(
    alloc: A,
    before: &Settled<A>,
    network: &Network<'_, '_, A>,
    store: &mut CellStore<A>,
    worldview: &PremiseSet,
) -> Result<Settled<A>, AllocError>
    requires start { CanStart (wiring network.now) store.old before.now }
    requires within { is_subset before.now.worldview worldview.now ≡ true }
    ensures settled { IfOk result (IsSettled (wiring network.now) store.old worldview.now) }
    ensures unchanged { store.new ≡ store.old }
{
    let (visible, mut agenda) = seen_anew(alloc, network, before.worldview(), worldview)?;
    let known = grown_values(
        alloc,
        before,
        network,
        store,
        worldview,
        &visible,
        &mut agenda,
    )?;
    settle_aside_from(network, store, worldview, known, &visible, agenda)
}
