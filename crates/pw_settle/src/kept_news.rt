//! News of instances: kept in the store, and merged into what is known.
ghost use Rattle.std.specs.Prelude.{◌≡◌, ◌<◌, OnErr, OnOk, length};
ghost use Rattle.pw_info.specs.Information.{kind_of};
ghost use Rattle.pw_cells.specs.Cells.{IsUnsaid, fact_on, kept_in, kind_in_store, kinds_of};
ghost use Rattle.pw_network.specs.Wiring.{wiring};
ghost use Rattle.pw_network.specs.inside.Held.{attachment};
ghost use Rattle.pw_settle.specs.Growth.{KeepsMore, StaysUpstreamAfter};
ghost use Rattle.pw_settle.specs.Settled.{support_at};
ghost use Rattle.pw_settle.specs.Values.{kinds_in};
ghost use Rattle.pw_settle.specs.inside.Aside.{AreFound, SaysMore};
ghost use Rattle.pw_settle.specs.inside.Known.{AreKept, AreNews, IsNewTo, Keeps, KeepsNews};
ghost use Rattle.pw_settle.specs.inside.Known.{news_on};

use crate::known::{Known, joined_narrow, joined_support, take_in, take_in_narrow};
use crate::support_list::SupportList;
use pw_cells::CellStore;
use pw_facts::Fact;
use pw_info::Info;
use pw_network::{Instance, Network};
use pw_premises::{NarrowSet, PremiseSet};
use std::alloc::{AllocError, Allocator};

// Keeps news of an instance in the store, and merges them into what is known about its output. Fails
// only when out of memory; then perhaps the store keeps them, but nothing else changes. Mostly they are
// about an interval, on premises below 64: that is inlined, and the compiler knows which parts they have.
#[inline(always)]
pub(crate) fn keep_news<A: Allocator + Copy>(
    store: &mut CellStore<A>,
    infos: &mut [Info],
    supports: &mut SupportList<A>,
    cell: u32,
    instance: &Instance,
    info: &Info,
) -> Result<(), AllocError>
    requires { AreNews store.old infos.old supports.old cell (attachment instance.now) info.now }
    ensures { KeepsNews result cell (news_on supports.old (attachment instance.now) info.now)
        store.old store.new infos.old infos.new supports.old supports.new }
{
    let Info::Interval(part) = *info else {
        return keep_copied_news(store, infos, supports, cell, instance, info);
    };
    let news = Info::Interval(part);
    if let Some(support) = joined_narrow(instance, supports) {
        return keep_narrow_news(store, infos, supports, cell, &news, support);
    }
    keep_copied_news(store, infos, supports, cell, instance, &news)
}

// The same for news of any kind. Takes the address of a copy only, so that the caller's value can stay in
// registers.
#[inline(always)]
fn keep_copied_news<A: Allocator + Copy>(
    store: &mut CellStore<A>,
    infos: &mut [Info],
    supports: &mut SupportList<A>,
    cell: u32,
    instance: &Instance,
    info: &Info,
) -> Result<(), AllocError>
    requires { AreNews store.old infos.old supports.old cell (attachment instance.now) info.now }
    ensures { KeepsNews result cell (news_on supports.old (attachment instance.now) info.now)
        store.old store.new infos.old infos.new supports.old supports.new }
{
    let copy = info.copied();
    keep_any_news(store, infos, supports, cell, instance, &copy)
}

// `keep_news` for any news. Never inlined, so that news about an interval carries no parts of other kinds.
#[cold]
#[inline(never)]
fn keep_any_news<A: Allocator + Copy>(
    store: &mut CellStore<A>,
    infos: &mut [Info],
    supports: &mut SupportList<A>,
    cell: u32,
    instance: &Instance,
    info: &Info,
) -> Result<(), AllocError>
    requires { AreNews store.old infos.old supports.old cell (attachment instance.now) info.now }
    ensures { KeepsNews result cell (news_on supports.old (attachment instance.now) info.now)
        store.old store.new infos.old infos.new supports.old supports.new }
{
    if let Some(support) = joined_narrow(instance, supports) {
        return keep_narrow_news(store, infos, supports, cell, info, support);
    }
    keep_wide_news(store, infos, supports, cell, instance, info)
}

// `keep_news` on these premises, which are below 64.
#[inline(always)]
fn keep_narrow_news<A: Allocator + Copy>(
    store: &mut CellStore<A>,
    infos: &mut [Info],
    supports: &mut SupportList<A>,
    cell: u32,
    info: &Info,
    support: NarrowSet,
) -> Result<(), AllocError>
    requires there { cell < length store.old.cells }
    requires kind { kind_of info.now ≡ kind_in_store store.old cell }
    requires new { IsNewTo infos.old supports.old cell info.now }
    requires unsaid { IsUnsaid (kept_in store.old cell support) info.now }
    ensures { KeepsNews result cell (fact_on info.now support) store.old store.new infos.old
        infos.new supports.old supports.new }
{
    store.keep_news(cell, info, support)?;
    take_in_narrow(infos, supports, cell, info, support);
    Ok(())
}

// The same for news on any premises. Never inlined, so that the stack frame for premises below 64 stays
// small.
#[cold]
#[inline(never)]
fn keep_wide_news<A: Allocator + Copy>(
    store: &mut CellStore<A>,
    infos: &mut [Info],
    supports: &mut SupportList<A>,
    cell: u32,
    instance: &Instance,
    info: &Info,
) -> Result<(), AllocError>
    requires { AreNews store.old infos.old supports.old cell (attachment instance.now) info.now }
    ensures { KeepsNews result cell (news_on supports.old (attachment instance.now) info.now)
        store.old store.new infos.old infos.new supports.old supports.new }
{
    let support = joined_support(instance, supports);
    let fact = Fact {
        info: *info,
        support,
    };
    store.keep(cell, fact)?;
    take_in(infos, supports, cell, info, support)
}

// Keeps information about a cell on the premises that are listed for it, on which less is kept. Fails
// only when out of memory; then nothing changes.
fn keep_on<A: Allocator + Copy>(
    store: &mut CellStore<A>,
    cell: u32,
    info: &Info,
    supports: &SupportList<A>,
) -> Result<(), AllocError>
    requires there { cell < length store.old.cells }
    requires listed { cell < length supports.now }
    requires kind { kind_of info.now ≡ kind_in_store store.old cell }
    requires unsaid { IsUnsaid (kept_in store.old cell (support_at supports.now cell)) info.now }
    ensures kept { OnOk result (Keeps cell (fact_on info.now (support_at supports.now cell))
        store.old store.new) }
    ensures refused { OnErr result (store.new ≡ store.old) }
{
    let place = cell as usize;
    if let Some(narrow) = supports.narrow() {
        store.keep_news(cell, info, narrow[place])?;
        return Ok(());
    }
    let fact = Fact {
        info: *info,
        support: supports.get(place),
    };
    store.keep(cell, fact)?;
    Ok(())
}

// Keeps what was found of each cell beside the store, where it says more than what is known, which the
// store keeps. Fails only when out of memory; then it is kept of some cells.
pub(crate) fn keep_found<A: Allocator + Copy>(
    network: &Network<'_, '_, A>,
    store: &mut CellStore<A>,
    worldview: &PremiseSet,
    known: &Known<A>,
    found: &Known<A>,
) -> Result<(), AllocError>
    requires kinds { kinds_of store.old ≡ kinds_in (wiring network.now) }
    requires kept { AreKept store.old worldview.now known.now.infos.items known.now.supports }
    requires found { AreFound (wiring network.now) store.old worldview.now found.now.infos.items
        found.now.supports }
    requires more { SaysMore known.now.infos.items found.now.infos.items known.now.supports
        found.now.supports }
    ensures grows { KeepsMore (wiring network.now) store.old store.new }
    ensures upstream { StaysUpstreamAfter (wiring network.now) found.now.supports store.old
        store.new }
    ensures kept { OnOk result (AreKept store.new worldview.now found.now.infos.items
        found.now.supports) }
{
    for cell in 0..store.cells() {
        let place = cell as usize;
        if !known.infos[place].implies(&found.infos[place]) {
            keep_on(store, cell, &found.infos[place], &found.supports)?;
        }
    }
    Ok(())
}
