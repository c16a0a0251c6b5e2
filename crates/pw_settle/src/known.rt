//! The kept information about each cell in a worldview, as a settling has it at hand.
ghost use Rattle.std.specs.Prelude.{◌≡◌, ◌<◌, IfOk, IfSome, OnErr, OnOk, length};
ghost use Rattle.pw_cells.specs.Cells.{fact_on};
ghost use Rattle.pw_network.specs.inside.Held.{attachment};
ghost use Rattle.pw_network.specs.Network.{Network as Networks};
ghost use Rattle.pw_cells.specs.Shown.{IsKeptIn};
ghost use Rattle.pw_settle.specs.Growth.{RestOnUpstream};
ghost use Rattle.pw_settle.specs.inside.Known.{AreInputsThere, AreKept, IsAtHandFor, IsNewTo};
ghost use Rattle.pw_settle.specs.inside.Known.{LeavesKept, ListsOneMore, PerhapsTakesIn, PutsKept};
ghost use Rattle.pw_settle.specs.inside.Known.{SaysTold, TakesIn, TakesInKept, joined, news_on};
ghost use Rattle.pw_settle.specs.inside.Since.{BeginsWith};

use crate::support_list::{SupportList, copied};
use pw_cells::CellStore;
use pw_info::Info;
use pw_network::Instance;
use pw_premises::{NarrowSet, PremiseSet};
use std::alloc::{AllocError, Allocator, Global};

// For each cell, the information that is kept, and premises of the worldview that it rests on. So
// the kept information is found at once, without a walk over the facts of a cell.
#[derive(Drop)]
pub(crate) struct Known<A: Allocator = Global> {
    pub(crate) infos: Vec<Info, A>,
    pub(crate) supports: SupportList<A>,
}

impl<A: Allocator + Copy> Known<A> {
    // The same, in lists of its own. Fails only when out of memory.
    pub(crate) fn copied(&self, alloc: A) -> Result<Known<A>, AllocError>
        ensures infos { IfOk result (λ known. known.infos.items ≡ self.now.infos.items) }
        ensures supports { IfOk result (λ known. known.supports ≡ self.now.supports) }
    {
        Ok(Known {
            infos: copied(alloc, &self.infos)?,
            supports: self.supports.copied(alloc)?,
        })
    }
}

// The kept information about the cells of the store in the worldview. Fails only when out of
// memory.
pub(crate) fn read_kept<A: Allocator + Copy>(
    alloc: A,
    store: &mut CellStore<A>,
    worldview: &PremiseSet,
) -> Result<Known<A>, AllocError>
    ensures unchanged { store.new ≡ store.old }
    ensures kept { IfOk result (λ known.
        AreKept store.old worldview.now known.infos.items known.supports) }
    ensures told { IfOk result (λ known. SaysTold store.old worldview.now) }
    ensures upstream { IfOk result (λ known. (network : Networks) → RestOnUpstream network store.old
        known.supports) }
{
    let mut infos = Vec::with_capacity(alloc, store.cells() as usize)?;
    let mut supports = SupportList::with_capacity(alloc, store.cells() as usize)?;
    for cell in 0..store.cells() {
        push_kept(store, cell, worldview, &mut infos, &mut supports)?;
    }
    Ok(Known { infos, supports })
}

// Appends what is kept of one cell more. Fails only when out of memory.
#[inline(always)]
pub(crate) fn push_kept<A: Allocator + Copy>(
    store: &mut CellStore<A>,
    cell: u32,
    worldview: &PremiseSet,
    infos: &mut Vec<Info, A>,
    supports: &mut SupportList<A>,
) -> Result<(), AllocError>
    requires { cell < length store.old.cells }
    ensures unchanged { store.new ≡ store.old }
    ensures kept { OnOk result (ListsOneMore (λ info support.
        IsKeptIn store.old cell worldview.now (fact_on info support)) infos.old.items
        infos.new.items supports.old supports.new) }
    ensures infos { OnErr result (BeginsWith infos.old.items infos.new.items) }
    ensures supports { OnErr result (supports.new ≡ supports.old) }
{
    if let Some(fact) = store.kept_narrow(cell, worldview) {
        infos.push(fact.info)?;
        supports.push_narrow(fact.support)?;
        return Ok(());
    }
    push_wide_kept(store, cell, worldview, infos, supports)
}

// What `push_kept` does, on any premises. Never inlined, so that the stack frame for premises below 64
// stays small.
#[cold]
#[inline(never)]
fn push_wide_kept<A: Allocator + Copy>(
    store: &mut CellStore<A>,
    cell: u32,
    worldview: &PremiseSet,
    infos: &mut Vec<Info, A>,
    supports: &mut SupportList<A>,
) -> Result<(), AllocError>
    requires { cell < length store.old.cells }
    ensures unchanged { store.new ≡ store.old }
    ensures kept { OnOk result (ListsOneMore (λ info support.
        IsKeptIn store.old cell worldview.now (fact_on info support)) infos.old.items
        infos.new.items supports.old supports.new) }
    ensures infos { OnErr result (BeginsWith infos.old.items infos.new.items) }
    ensures supports { OnErr result (supports.new ≡ supports.old) }
{
    let fact = store.kept(cell, worldview);
    infos.push(fact.info)?;
    supports.push(fact.support)?;
    Ok(())
}

// Puts what is kept of a cell in a worldview in place of what is known about it. Fails only when out
// of memory.
#[inline(always)]
pub(crate) fn put_kept<A: Allocator + Copy>(
    store: &mut CellStore<A>,
    cell: u32,
    worldview: &PremiseSet,
    known: &mut Known<A>,
) -> Result<(), AllocError>
    requires exists { cell < length store.old.cells }
    requires there { cell < length known.old.infos.items }
    requires support { cell < length known.old.supports }
    ensures unchanged { store.new ≡ store.old }
    ensures put { OnOk result (PutsKept store.old cell worldview.now known.old.infos.items
        known.new.infos.items known.old.supports known.new.supports) }
{
    if let Some(fact) = store.kept_narrow(cell, worldview) {
        known.infos[cell as usize] = fact.info;
        known.supports.put_narrow(cell as usize, fact.support);
        return Ok(());
    }
    put_wide_kept(store, cell, worldview, known)
}

// What `put_kept` does, on any premises. Never inlined, so that the stack frame for premises below 64
// stays small.
#[cold]
#[inline(never)]
fn put_wide_kept<A: Allocator + Copy>(
    store: &mut CellStore<A>,
    cell: u32,
    worldview: &PremiseSet,
    known: &mut Known<A>,
) -> Result<(), AllocError>
    requires exists { cell < length store.old.cells }
    requires there { cell < length known.old.infos.items }
    requires support { cell < length known.old.supports }
    ensures unchanged { store.new ≡ store.old }
    ensures put { OnOk result (PutsKept store.old cell worldview.now known.old.infos.items
        known.new.infos.items known.old.supports known.new.supports) }
{
    let fact = store.kept(cell, worldview);
    known.supports.replace(cell as usize, fact.support)?;
    known.infos[cell as usize] = fact.info;
    Ok(())
}

// The premises of an instance, and those of what is known about its inputs.
#[inline(always)]
pub(crate) fn joined_support<A: Allocator>(
    instance: &Instance,
    supports: &SupportList<A>,
) -> PremiseSet
    requires { AreInputsThere supports.now (attachment instance.now) }
    ensures { result ≡ joined supports.now (attachment instance.now).support
        (attachment instance.now).instance.inputs }
{
    let mut joined = instance.support().widen();
    for input in instance.inputs() {
        joined = joined.join(supports.get(*input as usize));
    }
    joined
}

// The premises of `joined_support`, if all are below 64. None says nothing.
#[inline(always)]
pub(crate) fn joined_narrow<A: Allocator>(
    instance: &Instance,
    supports: &SupportList<A>,
) -> Option<NarrowSet>
    requires { AreInputsThere supports.now (attachment instance.now) }
    ensures { IfSome result (λ narrow. narrow ≡ joined supports.now (attachment instance.now).support
        (attachment instance.now).instance.inputs) }
{
    let narrow = supports.narrow()?;
    let mut joined = NarrowSet::of(&instance.support().widen())?;
    let inputs = instance.inputs();
    if let [one, another] = inputs {
        return Some(
            joined
                .join(narrow[*one as usize])
                .join(narrow[*another as usize]),
        );
    }
    for input in inputs {
        joined = joined.join(narrow[*input as usize]);
    }
    Some(joined)
}

// Merges news of an instance into what is known about its output. If memory is refused, nothing
// changes.
#[inline(always)]
pub(crate) fn take_in_news<A: Allocator + Copy>(
    infos: &mut [Info],
    supports: &mut SupportList<A>,
    cell: u32,
    instance: &Instance,
    info: &Info,
) -> Result<(), AllocError>
    requires inputs { AreInputsThere supports.old (attachment instance.now) }
    requires new { IsNewTo infos.old supports.old cell info.now }
    ensures { PerhapsTakesIn result cell (news_on supports.old (attachment instance.now) info.now)
        infos.old infos.new supports.old supports.new }
{
    if let Some(support) = joined_narrow(instance, supports) {
        take_in_narrow(infos, supports, cell, info, support);
        return Ok(());
    }
    take_in_wide_news(infos, supports, cell, instance, info)
}

// What `take_in_news` does, on any premises. Never inlined, so that the stack frame for premises below 64
// stays small.
#[cold]
#[inline(never)]
fn take_in_wide_news<A: Allocator + Copy>(
    infos: &mut [Info],
    supports: &mut SupportList<A>,
    cell: u32,
    instance: &Instance,
    info: &Info,
) -> Result<(), AllocError>
    requires inputs { AreInputsThere supports.old (attachment instance.now) }
    requires new { IsNewTo infos.old supports.old cell info.now }
    ensures { PerhapsTakesIn result cell (news_on supports.old (attachment instance.now) info.now)
        infos.old infos.new supports.old supports.new }
{
    let support = joined_support(instance, supports);
    take_in(infos, supports, cell, info, support)
}

// Merges news on premises below 64 into what is known about a cell. They are copied part by part, since
// procedures soon read them so.
#[inline(always)]
pub(crate) fn take_in_narrow<A: Allocator>(
    infos: &mut [Info],
    supports: &mut SupportList<A>,
    cell: u32,
    info: &Info,
    support: NarrowSet,
)
    requires { IsNewTo infos.old supports.old cell info.now }
    ensures { TakesIn cell (fact_on info.now support) infos.old infos.new supports.old supports.new }
{
    let place = cell as usize;
    if info.implies(&infos[place]) {
        infos[place] = info.copied();
        supports.put_narrow(place, support);
    } else {
        infos[place] = infos[place].meet(info);
        supports.join_narrow(place, support);
    }
}

// Merges news into what is known about a cell. If memory is refused, nothing changes.
#[inline(always)]
pub(crate) fn take_in<A: Allocator + Copy>(
    infos: &mut [Info],
    supports: &mut SupportList<A>,
    cell: u32,
    info: &Info,
    support: PremiseSet,
) -> Result<(), AllocError>
    requires { IsNewTo infos.old supports.old cell info.now }
    ensures { PerhapsTakesIn result cell (fact_on info.now support) infos.old infos.new supports.old
        supports.new }
{
    let place = cell as usize;
    if info.implies(&infos[place]) {
        supports.replace(place, support)?;
        infos[place] = info.copied();
    } else {
        let known = supports.get(place);
        supports.replace(place, known.join(support))?;
        infos[place] = infos[place].meet(info);
    }
    Ok(())
}

// Merges what is kept of a cell in a worldview into what is known about it, if that is news, and
// answers whether it was. If memory is refused, it is news, and nothing changes.
#[inline(always)]
pub(crate) fn take_in_kept<A: Allocator + Copy>(
    store: &mut CellStore<A>,
    cell: u32,
    worldview: &PremiseSet,
    infos: &mut [Info],
    supports: &mut SupportList<A>,
) -> Result<bool, AllocError>
    requires { IsAtHandFor store.old cell infos.old supports.old }
    ensures unchanged { store.new ≡ store.old }
    ensures taken { IfOk result (λ is_news. TakesInKept store.old cell worldview.now is_news
        infos.old infos.new supports.old supports.new) }
    ensures refused { OnErr result (LeavesKept store.old cell worldview.now infos.old infos.new
        supports.old supports.new) }
{
    if let Some(fact) = store.kept_narrow(cell, worldview) {
        if infos[cell as usize].implies(&fact.info) {
            return Ok(false);
        }
        take_in_narrow(infos, supports, cell, &fact.info, fact.support);
        return Ok(true);
    }
    take_in_wide_kept(store, cell, worldview, infos, supports)
}

// What `take_in_kept` does, on any premises. Never inlined, so that the stack frame for premises below 64
// stays small.
#[cold]
#[inline(never)]
fn take_in_wide_kept<A: Allocator + Copy>(
    store: &mut CellStore<A>,
    cell: u32,
    worldview: &PremiseSet,
    infos: &mut [Info],
    supports: &mut SupportList<A>,
) -> Result<bool, AllocError>
    requires { IsAtHandFor store.old cell infos.old supports.old }
    ensures unchanged { store.new ≡ store.old }
    ensures taken { IfOk result (λ is_news. TakesInKept store.old cell worldview.now is_news
        infos.old infos.new supports.old supports.new) }
    ensures refused { OnErr result (LeavesKept store.old cell worldview.now infos.old infos.new
        supports.old supports.new) }
{
    let fact = store.kept(cell, worldview);
    if infos[cell as usize].implies(&fact.info) {
        return Ok(false);
    }
    take_in(infos, supports, cell, &fact.info, fact.support)?;
    Ok(true)
}
