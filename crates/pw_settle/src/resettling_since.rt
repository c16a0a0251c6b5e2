//! Settling that continues from the values of an earlier settling in the same worldview, with what
//! came to be kept since.
ghost use Rattle.std.specs.Prelude.{◌≡◌, ◌⊎◌, ◌<◌, ◌≤◌, ◌&&◌, IsTrue, OnErr, OnOk, ℕ, length, map};
ghost use Rattle.std.specs.Prelude.{nat_lt, not, take};
ghost use Rattle.pw_info.specs.Information.{kind_of};
ghost use Rattle.pw_cells.specs.Cells.{kinds_of};
ghost use Rattle.pw_network.specs.Network.{AreAllVisible, Network as Networks, cells_in};
ghost use Rattle.pw_network.specs.Wiring.{wiring};
ghost use Rattle.pw_settle.specs.Calls.{is_instance_visible, is_set, visible_at};
ghost use Rattle.pw_settle.specs.Growth.{CanContinue, HasValues, IsFitting, IsInterrupted};
ghost use Rattle.pw_settle.specs.Growth.{KeepsIfSound, KeepsMore, RestOnUpstreamAfter};
ghost use Rattle.pw_settle.specs.Growth.{StaysUpstreamAfter};
ghost use Rattle.pw_settle.specs.Settled.{info_at};
ghost use Rattle.pw_settle.specs.Values.{kinds_in};
ghost use Rattle.pw_settle.specs.inside.Queueing.{QueuesReaders};
ghost use Rattle.pw_settle.specs.Due.{CallsWhatIsDue};
ghost use Rattle.pw_settle.specs.inside.Known.{IsAtHandFor, LeavesKept};
ghost use Rattle.pw_settle.specs.inside.Progress.{IsIdle};
ghost use Rattle.pw_settle.specs.inside.Since.{AreReadTo, BeginsWith, IsAtHand, IsKnown, IsNewHere};
ghost use Rattle.pw_settle.specs.inside.Since.{IsReadAgain, KnowsWhatCame, LeavesNews};
ghost use Rattle.pw_settle.specs.inside.Since.{QueuesChanged, TakesInNews};

use crate::agenda::Agenda;
use crate::known::{Known, push_kept, take_in_kept, take_in_narrow};
use crate::readers::queue_visible_readers;
use crate::settled::Settled;
use crate::settling::work;
use crate::workspace::Workspace;
use pw_cells::{Arrival, CellStore};
use pw_info::Info;
use pw_network::Network;
use pw_premises::PremiseSet;
use std::alloc::{AllocError, Allocator};

// Queues the instances from a number on that are visible in the worldview.
fn queue_new_instances<A: Allocator + Copy>(
    network: &Network<'_, '_, A>,
    worldview: &PremiseSet,
    first: usize,
    agenda: &mut Agenda<A>,
)
    requires flags { length agenda.old ≡ length (wiring network.now).attached }
    requires idle { IsIdle agenda.old }
    ensures flags { length agenda.new ≡ length (wiring network.now).attached }
    ensures new { (number : ℕ) → is_set agenda.new number
        ≡ (visible_at (wiring network.now) worldview.now number && not (nat_lt number first)) }
{
    let instances = network.instances();
    for number in first..instances.len() {
        if instances[number].support().is_subset(worldview) {
            agenda.add(number);
        }
    }
}

// Appends what is kept of the cells that came since. Fails only when out of memory; then some of it
// is appended.
fn push_new_cells<A: Allocator + Copy>(
    store: &mut CellStore<A>,
    worldview: &PremiseSet,
    known: &mut Known<A>,
) -> Result<(), AllocError>
    requires cells { length known.old.infos.items ≤ length store.old.cells }
    requires as_many { length known.old.supports ≡ length known.old.infos.items }
    ensures unchanged { store.new ≡ store.old }
    ensures read { OnOk result (AreReadTo store.old worldview.now (length store.old.cells)
        known.old.infos.items known.new.infos.items known.old.supports known.new.supports) }
    ensures first { OnErr result (BeginsWith known.old.infos.items known.new.infos.items
        × BeginsWith known.old.supports known.new.supports) }
{
    let cells = store.cells();
    let first = known.infos.len() as u32;
    for cell in first..cells {
        push_kept(
            store,
            cell,
            worldview,
            &mut known.infos,
            &mut known.supports,
        )?;
    }
    Ok(())
}

// Appends what is kept of the cells that came since. Fails only when out of memory; then nothing changes.
fn read_new_cells<A: Allocator + Copy>(
    store: &mut CellStore<A>,
    worldview: &PremiseSet,
    known: &mut Known<A>,
) -> Result<(), AllocError>
    requires cells { length known.old.infos.items ≤ length store.old.cells }
    requires as_many { length known.old.supports ≡ length known.old.infos.items }
    ensures unchanged { store.new ≡ store.old }
    ensures read { OnOk result (AreReadTo store.old worldview.now (length store.old.cells)
        known.old.infos.items known.new.infos.items known.old.supports known.new.supports) }
    ensures infos { OnErr result (known.new.infos.items ≡ known.old.infos.items) }
    ensures supports { OnErr result (known.new.supports ≡ known.old.supports) }
{
    let first = known.infos.len();
    let outcome = push_new_cells(store, worldview, known);
    if outcome.is_err() {
        known.infos.truncate(first);
        known.supports.truncate(first);
    }
    outcome
}

// Queues the visible readers of the cells from a number on of which something is known: of the
// other cells the same is known as was found before.
fn queue_new_cells<A: Allocator + Copy>(
    network: &Network<'_, '_, A>,
    worldview: &PremiseSet,
    first: usize,
    now: &[Info],
    agenda: &mut Agenda<A>,
)
    requires flags { length agenda.old ≡ length (wiring network.now).attached }
    requires cells { length now.now ≡ cells_in (wiring network.now) }
    requires more { first ≤ length now.now }
    ensures { QueuesChanged (wiring network.now) (map (is_instance_visible worldview.now)
        (wiring network.now).attached) (take first now.now) now.now agenda.old
        agenda.new }
{
    let cells = network.cells();
    let sees_all = network.are_all_visible(worldview);
    for cell in first as u32..cells {
        if !now[cell as usize].is_nothing() {
            queue_visible_readers(network, worldview, sees_all, agenda, cell);
        }
    }
}

// Merges an arrival into what is known about its cell. If that is news in the worldview, queues the
// visible readers of the cell.
#[inline(always)]
fn take_in_arrival<A: Allocator + Copy>(
    network: &Network<'_, '_, A>,
    worldview: &PremiseSet,
    sees_all: bool,
    arrival: &Arrival,
    known: &mut Known<A>,
    agenda: &mut Agenda<A>,
)
    requires all { IsTrue sees_all → AreAllVisible (wiring network.now) worldview.now }
    requires there { arrival.now.cell < length known.old.infos.items }
    requires as_many { length known.old.supports ≡ length known.old.infos.items }
    requires kind { kind_of arrival.now.fact.info
        ≡ kind_of (info_at known.old.infos.items arrival.now.cell) }
    requires flags { length agenda.old ≡ length (wiring network.now).attached }
    ensures { (IsKnown arrival.now.cell arrival.now.fact worldview.now known.old.infos.items
        known.new.infos.items known.old.supports known.new.supports × (agenda.new ≡ agenda.old))
        ⊎ (IsNewHere arrival.now.cell arrival.now.fact worldview.now known.old.infos.items
        known.new.infos.items known.old.supports known.new.supports
        × QueuesReaders (wiring network.now) (map (is_instance_visible worldview.now)
        (wiring network.now).attached) (λ c. c ≡ arrival.now.cell) agenda.old
        agenda.new) }
{
    let cell = arrival.cell();
    if !arrival.support().is_within(worldview)
        || known.infos[cell as usize].implies(arrival.info())
    {
        return;
    }
    take_in_narrow(
        &mut known.infos,
        &mut known.supports,
        cell,
        arrival.info(),
        arrival.support(),
    );
    queue_visible_readers(network, worldview, sees_all, agenda, cell);
}

// `take_in_arrival` for all arrivals since a mark, the last first: it mostly says the most. Never
// inlined, so that the loop is compiled by itself.
#[inline(never)]
fn take_in_arrivals<A: Allocator + Copy>(
    network: &Network<'_, '_, A>,
    store: &CellStore<A>,
    worldview: &PremiseSet,
    mark: u64,
    known: &mut Known<A>,
    agenda: &mut Agenda<A>,
)
    requires kinds { kinds_of store.now ≡ kinds_in (wiring network.now) }
    requires known { IsAtHand store.now worldview.now mark known.old.infos.items known.old.supports }
    requires remembers { KnowsWhatCame store.now mark }
    requires flags { length agenda.old ≡ length (wiring network.now).attached }
    ensures taken { TakesInNews (wiring network.now) store.now worldview.now known.old.infos.items
        known.new.infos.items known.new.supports agenda.old agenda.new }
    ensures upstream { (network : Networks) → RestOnUpstreamAfter network known.old.supports store.now
        known.new.supports }
{
    let Some(arrivals) = store.since(mark) else {
        return;
    };
    let sees_all = network.are_all_visible(worldview);
    let mut left = arrivals.len();
    while left > 0 {
        left -= 1;
        take_in_arrival(network, worldview, sees_all, &arrivals[left], known, agenda);
    }
}

// Merges what is kept of a cell into what is known about it, and queues its visible readers, if it is
// news. Fails only when out of memory; then it is news, and nothing changes.
#[inline(always)]
fn read_again<A: Allocator + Copy>(
    network: &Network<'_, '_, A>,
    store: &mut CellStore<A>,
    worldview: &PremiseSet,
    sees_all: bool,
    known: &mut Known<A>,
    agenda: &mut Agenda<A>,
    cell: u32,
) -> Result<(), AllocError>
    requires all { IsTrue sees_all → AreAllVisible (wiring network.now) worldview.now }
    requires hand { IsAtHandFor store.old cell known.old.infos.items known.old.supports }
    requires flags { length agenda.old ≡ length (wiring network.now).attached }
    ensures unchanged { store.new ≡ store.old }
    ensures read { OnOk result (IsReadAgain (wiring network.now) store.old cell worldview.now
        known.old.infos.items known.new.infos.items known.old.supports known.new.supports
        agenda.old agenda.new) }
    ensures refused { OnErr result (LeavesKept store.old cell worldview.now known.old.infos.items
        known.new.infos.items known.old.supports known.new.supports) }
{
    let is_news = take_in_kept(
        store,
        cell,
        worldview,
        &mut known.infos,
        &mut known.supports,
    )?;
    if is_news {
        queue_visible_readers(network, worldview, sees_all, agenda, cell);
    }
    Ok(())
}

// `read_again` for all cells. Fails only when out of memory; then what is known is still at hand, and
// more is kept of a cell than was known before.
fn read_all_again<A: Allocator + Copy>(
    network: &Network<'_, '_, A>,
    store: &mut CellStore<A>,
    worldview: &PremiseSet,
    mark: u64,
    known: &mut Known<A>,
    agenda: &mut Agenda<A>,
) -> Result<(), AllocError>
    requires kinds { kinds_of store.old ≡ kinds_in (wiring network.now) }
    requires known { IsAtHand store.old worldview.now mark known.old.infos.items known.old.supports }
    requires flags { length agenda.old ≡ length (wiring network.now).attached }
    ensures unchanged { store.new ≡ store.old }
    ensures taken { OnOk result (TakesInNews (wiring network.now) store.old worldview.now
        known.old.infos.items known.new.infos.items known.new.supports agenda.old agenda.new) }
    ensures upstream { (network : Networks) → RestOnUpstreamAfter network known.old.supports store.old
        known.new.supports }
    ensures refused { OnErr result (LeavesNews store.old worldview.now mark known.old.infos.items
        known.new.infos.items known.new.supports) }
{
    let sees_all = network.are_all_visible(worldview);
    for cell in 0..store.cells() {
        read_again(network, store, worldview, sees_all, known, agenda, cell)?;
    }
    Ok(())
}

// Whether the store remembers what came since the mark, and reading that costs less than reading all
// cells again.
fn is_little_new<A: Allocator + Copy>(store: &CellStore<A>, mark: u64) -> bool
    ensures { IsTrue result → KnowsWhatCame store.now mark }
{
    match store.since(mark) {
        Some(arrivals) => arrivals.len() / 4 <= store.cells() as usize,
        None => false,
    }
}

// Takes in what came to be kept since the mark, and queues the visible readers of the cells about
// which it is news. Fails only when out of memory.
fn take_in_news<A: Allocator + Copy>(
    network: &Network<'_, '_, A>,
    store: &mut CellStore<A>,
    worldview: &PremiseSet,
    mark: u64,
    known: &mut Known<A>,
    agenda: &mut Agenda<A>,
) -> Result<(), AllocError>
    requires kinds { kinds_of store.old ≡ kinds_in (wiring network.now) }
    requires known { IsAtHand store.old worldview.now mark known.old.infos.items known.old.supports }
    requires flags { length agenda.old ≡ length (wiring network.now).attached }
    ensures unchanged { store.new ≡ store.old }
    ensures taken { OnOk result (TakesInNews (wiring network.now) store.old worldview.now
        known.old.infos.items known.new.infos.items known.new.supports agenda.old agenda.new) }
    ensures upstream { (network : Networks) → RestOnUpstreamAfter network known.old.supports store.old
        known.new.supports }
    ensures refused { OnErr result (LeavesNews store.old worldview.now mark known.old.infos.items
        known.new.infos.items known.new.supports) }
{
    if is_little_new(store, mark) {
        take_in_arrivals(network, store, worldview, mark, known, agenda);
        return Ok(());
    }
    read_all_again(network, store, worldview, mark, known, agenda)
}

/// Settles again in the worldview of the settled values, as `settle` does: they become the values that
/// hold now. All that `settle` promises holds.
///
/// Only what came to be kept since they were found is read, if the store remembers it; otherwise all
/// cells are. The instances called at first are only the visible instances that came since, and the
/// readers of cells of which more is kept now than was found then.
///
/// The values must fit, and a settling must be able to continue from them. Both hold of what `settle`,
/// `resettle_from` and `resettle_since` answered, as long as cells, instances and facts are only added;
/// not of what `settle_aside` answered.
///
/// Fails only when out of memory. Then both still hold, and if nothing was new to the values, they
/// are unchanged.
pub fn resettle_since<A: Allocator + Copy>(
    values: &mut Settled<A>,
    workspace: &mut Workspace<A>,
    network: &Network<'_, '_, A>,
    store: &mut CellStore<A>,
) -> Result<(), AllocError>
    requires kinds { kinds_of store.old ≡ kinds_in (wiring network.now) }
    requires fits { IsFitting (wiring network.now) store.old values.old }
    requires continues { CanContinue store.old values.old }
    ensures found { OnOk result (HasValues (wiring network.now) store.old store.new
        values.old.worldview values.new) }
    ensures kept { OnOk result (KeepsIfSound (wiring network.now) store.old store.new
        values.old.worldview) }
    ensures grows { KeepsMore (wiring network.now) store.old store.new }
    ensures upstream { StaysUpstreamAfter (wiring network.now) values.old.supports store.old
        store.new }
    ensures lie { RestOnUpstreamAfter (wiring network.now) values.old.supports store.old
        values.new.supports }
    ensures due { OnOk result (CallsWhatIsDue (wiring network.now) store.old store.new
        values.old.worldview values.old values.new) }
    ensures refused { OnErr result (IsInterrupted (wiring network.now) store.old store.new
        values.old values.new) }
{
    let agenda = &mut workspace.agenda;
    agenda.fit(network.instances().len())?;
    let first = values.known.infos.len();
    read_new_cells(store, &values.worldview, &mut values.known)?;
    queue_new_instances(network, &values.worldview, values.instances, agenda);
    queue_new_cells(
        network,
        &values.worldview,
        first,
        &values.known.infos,
        agenda,
    );
    // Until the end, perhaps no instance is satisfied.
    values.instances = 0;
    let mark = values.mark;
    take_in_news(
        network,
        store,
        &values.worldview,
        mark,
        &mut values.known,
        agenda,
    )?;
    values.calls = work(network, store, &values.worldview, &mut values.known, agenda)?;
    values.instances = network.instances().len();
    values.mark = store.mark();
    Ok(())
}
