//! Why a cell has its value.
ghost use Rattle.std.specs.Prelude.{◌≡◌, ◌<◌, IfNone, IfOk, IfSome, true};
ghost use Rattle.std.specs.FinSet.{is_subset};
ghost use Rattle.pw_info.specs.Information.{Implies, kind_of};
ghost use Rattle.pw_network.specs.Wiring.{wiring};
ghost use Rattle.pw_network.specs.Network.{cells_in};
ghost use Rattle.pw_premises.specs.Premises.{Premises};
ghost use Rattle.pw_reasons.specs.inside.Reasoning.{AreEnough, AreSettledLast, tried_in};
ghost use Rattle.pw_reasons.specs.Nogood.{AreNogoods, CoversContradiction, covers};
ghost use Rattle.pw_reasons.specs.Reason.{reason_of};
ghost use Rattle.pw_settle.specs.Growth.{KeepsMore, StaysUpstream};
ghost use Rattle.pw_settle.specs.Settled.{IsSettled, info_at};
ghost use Rattle.pw_settle.specs.Sound.{IsSoundFor};
ghost use Rattle.pw_settle.specs.Values.{value_in};

use crate::nogoods::Nogoods;
use pw_cells::CellStore;
use pw_info::Info;
use pw_network::Network;
use pw_premises::PremiseSet;
use pw_settle::{Settled, settle_aside};
use std::alloc::{AllocError, Allocator};

// The remaining premises of a worldview, and some of them that are enough for the value of a cell.
#[derive(Clone, Copy)]
struct Left {
    premises: PremiseSet,
    support: PremiseSet,
}

// Premises of the worldview that are enough for the information, if the kept facts of the cell say
// it there.
fn kept_support<A: Allocator + Copy>(
    network: &Network<'_, '_, A>,
    store: &mut CellStore<A>,
    info: &Info,
    cell: u32,
    worldview: &PremiseSet,
) -> Option<PremiseSet>
    requires sound { IsSoundFor (wiring network.now) store.old }
    requires cell { cell < cells_in (wiring network.now) }
    requires kind { kind_of (value_in (wiring network.now) store.old worldview.now cell)
        ≡ kind_of info.now }
    ensures unchanged { store.new ≡ store.old }
    ensures enough { IfSome result (AreEnough (wiring network.now) store.old cell info.now
        worldview.now) }
{
    // The network belongs to the store.
    let _instances = network.instances();
    let kept = store.kept(cell, worldview);
    if kept.info.implies(info) {
        Some(kept.support)
    } else {
        None
    }
}

// The values of the worldview, found from those found last, or else from the settled ones. Fails only
// when out of memory.
fn settle_again<A: Allocator + Copy>(
    alloc: A,
    network: &Network<'_, '_, A>,
    store: &mut CellStore<A>,
    settled: &Settled<A>,
    last: &Option<Settled<A>>,
    worldview: &PremiseSet,
) -> Result<Settled<A>, AllocError>
    requires sound { IsSoundFor (wiring network.now) store.old }
    requires settled { IsSettled (wiring network.now) store.old settled.now.worldview settled.now }
    requires last { AreSettledLast (wiring network.now) store.old last.now }
    ensures settled { IfOk result (IsSettled (wiring network.now) store.old worldview.now) }
    ensures unchanged { store.new ≡ store.old }
{
    match last {
        Some(values) => settle_aside(alloc, values, network, store, worldview),
        None => settle_aside(alloc, settled, network, store, worldview),
    }
}

// Premises of the worldview that are enough for the information, if it follows there at the cell.
// Its values are found only if the kept facts do not say it already, and are the last ones if they
// say it. Fails only when out of memory.
fn support_within<A: Allocator + Copy>(
    alloc: A,
    network: &Network<'_, '_, A>,
    store: &mut CellStore<A>,
    settled: &Settled<A>,
    last: &mut Option<Settled<A>>,
    info: &Info,
    cell: u32,
    worldview: &PremiseSet,
) -> Result<Option<PremiseSet>, AllocError>
    requires sound { IsSoundFor (wiring network.now) store.old }
    requires settled { IsSettled (wiring network.now) store.old settled.now.worldview settled.now }
    requires last { AreSettledLast (wiring network.now) store.old last.old }
    requires cell { cell < cells_in (wiring network.now) }
    requires kind { kind_of (value_in (wiring network.now) store.old worldview.now cell)
        ≡ kind_of info.now }
    ensures some { IfOk result (λ found. IfSome found
        (AreEnough (wiring network.now) store.old cell info.now worldview.now)) }
    ensures none { IfOk result (λ found. IfNone found
        (Implies (value_in (wiring network.now) store.old worldview.now cell) info.now → ⊥)) }
    ensures last { AreSettledLast (wiring network.now) store.old last.new }
    ensures unchanged { store.new ≡ store.old }
{
    if let Some(support) = kept_support(network, store, info, cell, worldview) {
        return Ok(Some(support));
    }
    let values = settle_again(alloc, network, store, settled, last, worldview)?;
    let value = values.value(cell);
    if !value.info.implies(info) {
        return Ok(None);
    }
    *last = Some(values);
    Ok(Some(value.support))
}

// The remaining premises after this one was tried: it is taken out if the value of the cell stays
// the same without it. A premise that is not in the known support is taken out at once. Fails only
// when out of memory.
fn try_premise<A: Allocator + Copy>(
    alloc: A,
    network: &Network<'_, '_, A>,
    store: &mut CellStore<A>,
    settled: &Settled<A>,
    last: &mut Option<Settled<A>>,
    cell: u32,
    left: Left,
    premise: u16,
) -> Result<Left, AllocError>
    requires sound { IsSoundFor (wiring network.now) store.old }
    requires settled { IsSettled (wiring network.now) store.old settled.now.worldview settled.now }
    requires last { AreSettledLast (wiring network.now) store.old last.old }
    requires cell { cell < cells_in (wiring network.now) }
    requires part { is_subset left.premises settled.now.worldview ≡ true }
    requires enough { AreEnough (wiring network.now) store.old cell
        (info_at settled.now.infos cell) left.premises left.support }
    ensures left { IfOk result (λ after. after.premises ≡ tried_in (wiring network.now) store.old
        cell settled.now.worldview left.premises premise) }
    ensures enough { IfOk result (λ after. AreEnough (wiring network.now) store.old cell
        (info_at settled.now.infos cell) after.premises after.support) }
    ensures last { AreSettledLast (wiring network.now) store.old last.new }
    ensures unchanged { store.new ≡ store.old }
{
    let premises = left.premises.without(premise);
    if !left.support.contains(premise) {
        let support = left.support;
        return Ok(Left { premises, support });
    }
    let info = settled.value(cell).info;
    match support_within(alloc, network, store, settled, last, &info, cell, &premises)? {
        Some(support) => Ok(Left { premises, support }),
        None => Ok(left),
    }
}

// The remaining premises of the worldview after each was tried, from the last to the first. Fails
// only when out of memory.
fn try_premises<A: Allocator + Copy>(
    alloc: A,
    network: &Network<'_, '_, A>,
    store: &mut CellStore<A>,
    settled: &Settled<A>,
    cell: u32,
) -> Result<PremiseSet, AllocError>
    requires sound { IsSoundFor (wiring network.now) store.old }
    requires settled { IsSettled (wiring network.now) store.old settled.now.worldview settled.now }
    requires cell { cell < cells_in (wiring network.now) }
    ensures reason { IfOk result (λ reason. reason
        ≡ reason_of (λ w. value_in (wiring network.now) store.old w cell) settled.now.worldview) }
    ensures unchanged { store.new ≡ store.old }
{
    let worldview = *settled.worldview();
    let mut left = Left {
        premises: worldview,
        support: settled.value(cell).support,
    };
    // The values found last in which the cell has its value. The next trial goes on from them.
    let mut last = None;
    for premise in worldview.numbers().rev() {
        left = try_premise(
            alloc, network, store, settled, &mut last, cell, left, premise,
        )?;
    }
    Ok(left.premises)
}

/// Why the cell has its value in the worldview in which the network was settled. Goes over the
/// premises of the worldview from the last to the first, and takes out each one without which the
/// value of the cell stays the same. The remaining premises give the same value, and without any
/// one of them the value differs. If the value is a contradiction, they are noted. Fails only when
/// out of memory.
///
/// The cell must exist, and the settled values must be those of the network and the store now. The
/// store must be sound, and the nogoods sets of premises that contradict themselves. Both stay so, the
/// store is unchanged, and what was covered is covered: after a failure too.
///
/// Premises that are enough for the value are always at hand. A premise that is not among them is
/// taken out at once. For a premise that is, the kept facts are looked up without it, and if they
/// do not say the value, the values without it are found beside the store (`settle_aside`), from the
/// values found last in which the cell has its value. (Radul and Sussman, *The Art of the Propagator*,
/// keep one support with each value. Making it irredundant, in a fixed order, is this program's own.)
pub fn reason<A: Allocator + Copy>(
    alloc: A,
    network: &Network<'_, '_, A>,
    store: &mut CellStore<A>,
    nogoods: &mut Nogoods<A>,
    settled: &Settled<A>,
    cell: u32,
) -> Result<PremiseSet, AllocError>
    requires sound { IsSoundFor (wiring network.now) store.old }
    requires nogoods { AreNogoods (wiring network.now) store.old nogoods.old }
    requires settled { IsSettled (wiring network.now) store.old settled.now.worldview settled.now }
    requires cell { cell < cells_in (wiring network.now) }
    ensures reason { IfOk result (λ reason. reason
        ≡ reason_of (λ w. value_in (wiring network.now) store.old w cell) settled.now.worldview) }
    ensures covered { IfOk result (CoversContradiction (wiring network.now) store.old
        settled.now.worldview cell nogoods.new) }
    ensures nogoods { AreNogoods (wiring network.now) store.old nogoods.new }
    ensures covers { (w : Premises) → covers nogoods.old w ≡ true → covers nogoods.new w ≡ true }
    ensures unchanged { store.new ≡ store.old }
    ensures grows { KeepsMore (wiring network.now) store.old store.new }
    ensures upstream { StaysUpstream (wiring network.now) store.old store.new }
{
    let left = try_premises(alloc, network, store, settled, cell)?;
    if settled.value(cell).info.is_contradiction() {
        nogoods.note(&left)?;
    }
    Ok(left)
}
