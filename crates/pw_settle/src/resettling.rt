//! Settling that continues from the values of an earlier settling.
ghost use Rattle.std.specs.Prelude.{◌≡◌, ◌+◌, ◌<◌, ◌↔◌, ◌&&◌, IfOk, IsTrue, ℕ, length, map, true};
ghost use Rattle.std.specs.FinSet.{is_subset};
ghost use Rattle.pw_info.specs.Information.{kind_of};
ghost use Rattle.pw_cells.specs.Cells.{kinds_of};
ghost use Rattle.pw_network.specs.Wiring.{wiring};
ghost use Rattle.pw_network.specs.Network.{cells_in};
ghost use Rattle.pw_settle.specs.inside.Queueing.{HasChanged, QueuesReaders, found_of};
ghost use Rattle.pw_settle.specs.Due.{AreDue, CallsEachAtLeast, CallsEachAtMost, CallsWhatIsDue};
ghost use Rattle.pw_settle.specs.Due.{is_new};
ghost use Rattle.pw_settle.specs.Settling.{Settles};
ghost use Rattle.pw_settle.specs.Growth.{IsFitting, RestOnUpstream};
ghost use Rattle.pw_settle.specs.inside.Known.{AreKept, SaysTold};
ghost use Rattle.pw_settle.specs.Settled.{info_at};
ghost use Rattle.pw_settle.specs.Values.{kinds_in};
ghost use Rattle.pw_settle.specs.Calls.{AreVisible, is_instance_visible, is_set};

use crate::agenda::Agenda;
use crate::known::{Known, read_kept};
use crate::readers::queue_visible_readers;
use crate::settled::Settled;
use crate::settling::{settle, settle_from, visible_in};
use pw_cells::CellStore;
use pw_info::Info;
use pw_network::Network;
use pw_premises::PremiseSet;
use std::alloc::{AllocError, Allocator};

// Whether the instance of this number is visible now and new to the settled values.
fn is_newly_visible<A: Allocator + Copy>(
    network: &Network<'_, '_, A>,
    visible: &[bool],
    before: &Settled<A>,
    number: usize,
) -> bool
    requires there { number < length visible.now }
    requires all { length visible.now ≡ length (wiring network.now).attached }
    ensures { result ≡ (is_set visible.now number && is_new (wiring network.now) before.now number) }
{
    visible[number]
        && !(number < before.instances
            && network.instances()[number]
                .support()
                .is_subset(&before.worldview))
}

// An agenda of the visible instances that are new to the settled values. Fails only when out of
// memory.
fn new_instances<A: Allocator + Copy>(
    alloc: A,
    network: &Network<'_, '_, A>,
    visible: &[bool],
    before: &Settled<A>,
) -> Result<Agenda<A>, AllocError>
    requires { length visible.now ≡ length (wiring network.now).attached }
    ensures flags { IfOk result (λ agenda. length agenda ≡ length visible.now) }
    ensures new { IfOk result (λ agenda. (number : ℕ) → is_set agenda number
        ≡ (is_set visible.now number && is_new (wiring network.now) before.now number)) }
{
    let mut agenda = Agenda::new(alloc, visible.len())?;
    for number in 0..visible.len() {
        if is_newly_visible(network, visible, before, number) {
            agenda.add(number);
        }
    }
    Ok(agenda)
}

// Whether more is kept of the cell now than was found before.
fn has_changed(before: &[Info], now: &[Info], cell: usize) -> bool
    requires there { cell < length now.now }
    requires kind { kind_of (found_of before.now now.now cell) ≡ kind_of (info_at now.now cell) }
    ensures { IsTrue result ↔ HasChanged before.now now.now cell }
{
    // By reference, so that nothing is copied.
    match before.get(cell) {
        Some(found) => !found.implies(&now[cell]),
        None => !Info::nothing(now[cell].kind()).implies(&now[cell]),
    }
}

// Queues the readers, visible in the worldview, of the cells of which more is kept now than was found
// before.
pub(crate) fn queue_changed<A: Allocator + Copy>(
    network: &Network<'_, '_, A>,
    worldview: &PremiseSet,
    before: &[Info],
    now: &[Info],
    agenda: &mut Agenda<A>,
)
    requires flags { length agenda.old ≡ length (wiring network.now).attached }
    requires cells { length now.now ≡ cells_in (wiring network.now) }
    requires kinds { (cell : ℕ) → cell < length now.now
        → kind_of (found_of before.now now.now cell) ≡ kind_of (info_at now.now cell) }
    ensures { QueuesReaders (wiring network.now) (map (is_instance_visible worldview.now)
        (wiring network.now).attached) (λ cell. (cell < length now.now) × HasChanged before.now
        now.now cell) agenda.old agenda.new }
{
    let sees_all = network.are_all_visible(worldview);
    for cell in 0..network.cells() {
        if has_changed(before, now, cell as usize) {
            queue_visible_readers(network, worldview, sees_all, agenda, cell);
        }
    }
}

// What is kept of the cells in a worldview that includes the worldview of the settled values, and
// an agenda of the instances that are due. Fails only when out of memory.
fn due_instances<A: Allocator + Copy>(
    alloc: A,
    before: &Settled<A>,
    network: &Network<'_, '_, A>,
    store: &mut CellStore<A>,
    worldview: &PremiseSet,
    visible: &[bool],
) -> Result<(Known<A>, Agenda<A>), AllocError>
    requires kinds { kinds_of store.old ≡ kinds_in (wiring network.now) }
    requires fits { IsFitting (wiring network.now) store.old before.now }
    requires within { is_subset before.now.worldview worldview.now ≡ true }
    requires visible { AreVisible (wiring network.now) worldview.now visible.now }
    ensures unchanged { store.new ≡ store.old }
    ensures kept { IfOk result (λ (known, agenda).
        AreKept store.old worldview.now known.infos.items known.supports) }
    ensures told { IfOk result (λ (known, agenda). SaysTold store.old worldview.now) }
    ensures upstream { IfOk result (λ (known, agenda). RestOnUpstream (wiring network.now) store.old
        known.supports) }
    ensures due { IfOk result (λ (known, agenda).
        AreDue (wiring network.now) store.old worldview.now before.now agenda) }
{
    let mut agenda = new_instances(alloc, network, visible, before)?;
    let known = read_kept(alloc, store, worldview)?;
    queue_changed(
        network,
        worldview,
        &before.known.infos,
        &known.infos,
        &mut agenda,
    );
    Ok((known, agenda))
}

/// The values of the cells of a network in a worldview, as `settle` answers them, found from the
/// values of an earlier settling that still fit. All that `settle` promises holds.
///
/// The earlier values stay with the caller, after a failure too.
///
/// If the earlier worldview is within this one, the instances called at first are only the visible
/// instances that came since or were not visible then, and the readers of cells of which more is
/// kept now than was found then. Otherwise all visible instances are called at first, as in
/// `settle`.
pub fn resettle_from<A: Allocator + Copy>(
    alloc: A,
    before: &Settled<A>,
    network: &Network<'_, '_, A>,
    store: &mut CellStore<A>,
    worldview: &PremiseSet,
) -> Result<Settled<A>, AllocError>
    requires kinds { kinds_of store.old ≡ kinds_in (wiring network.now) }
    requires fits { IsFitting (wiring network.now) store.old before.now }
    ensures settles { Settles (wiring network.now) store.old store.new worldview.now result }
    ensures due { IfOk result (CallsWhatIsDue (wiring network.now) store.old store.new
        worldview.now before.now) }
    ensures least { IfOk result (CallsEachAtLeast (wiring network.now) worldview.now before.now) }
    ensures most { IfOk result (CallsEachAtMost (wiring network.now) store.old store.new
        worldview.now before.now) }
{
    if !before.worldview.is_subset(worldview) {
        return settle(alloc, network, store, worldview);
    }
    let visible = visible_in(alloc, network, worldview)?;
    let (known, agenda) = due_instances(alloc, before, network, store, worldview, &visible)?;
    settle_from(network, store, worldview, known, agenda)
}

/// The values as `resettle_from` answers them, from earlier values that the call takes.
pub fn resettle<A: Allocator + Copy>(
    alloc: A,
    before: Settled<A>,
    network: &Network<'_, '_, A>,
    store: &mut CellStore<A>,
    worldview: &PremiseSet,
) -> Result<Settled<A>, AllocError>
    requires kinds { kinds_of store.old ≡ kinds_in (wiring network.now) }
    requires fits { IsFitting (wiring network.now) store.old before }
    ensures settles { Settles (wiring network.now) store.old store.new worldview.now result }
    ensures due { IfOk result (CallsWhatIsDue (wiring network.now) store.old store.new
        worldview.now before) }
    ensures least { IfOk result (CallsEachAtLeast (wiring network.now) worldview.now before) }
    ensures most { IfOk result (CallsEachAtMost (wiring network.now) store.old store.new
        worldview.now before) }
{
    resettle_from(alloc, &before, network, store, worldview)
}
