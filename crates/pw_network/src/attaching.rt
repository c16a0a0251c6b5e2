//! Appending the instances of an attachment, and growing the lists of a network where there is room.
ghost use Rattle.std.specs.Prelude.{◌≡◌, ◌+◌, ◌-◌, ◌*◌, ◌<◌, ◌≤◌, ◌++◌, All, drop, length, map};
ghost use Rattle.std.specs.Prelude.{OnErr, OnOk, take, vec_len, vec_capacity};
ghost use Rattle.std.specs.FinSet.{union};
ghost use Rattle.pw_procs.specs.Registry.{cells_of};
ghost use Rattle.pw_network.specs.inside.Appended.{AppendsCalls};
ghost use Rattle.pw_decl.specs.Limits.{most_inner_cells};
ghost use Rattle.pw_network.specs.inside.CompoundLists.{inner_made};
ghost use Rattle.pw_network.specs.inside.Held.{attachment};
ghost use Rattle.pw_network.specs.Readers.{reads};
ghost use Rattle.pw_network.specs.Writers.{writes};
ghost use Rattle.pw_network.specs.inside.Batches.{AddsCalls, AddsInstances, AreAllListed, ArePlaced};
ghost use Rattle.pw_network.specs.inside.Batches.{calls_from, least_calls};
ghost use Rattle.pw_network.specs.inside.CompoundLists.{HasLists};
ghost use Rattle.std.specs.Prelude.{◌≢◌, IsTrue};
ghost use Rattle.std.specs.List.{AllPairs};
ghost use Rattle.pw_network.specs.inside.Lists.{LeavesFrom, listed_by, no_place};
ghost use Rattle.pw_network.specs.inside.Room.{HaveRoomFor};

use crate::attachment::Attachment;
use crate::batch::{Calls, LEAST_CALLS};
use crate::instance::Instance;
use crate::instance_lists::{InstanceLists, has};
use crate::network::InnerCell;
use pw_decl::FlatCall;
use pw_info::Kind;
use pw_premises::PremiseSet;
use std::alloc::{AllocError, Allocator, Global};
use std::rc::Rc;

// An attachment of fewer instances is listed instance by instance: what reads a cell is found faster so.
const MANY_CALLS: usize = 16;

// Appends the instances of calls, for which there is room: a place means one of these cells, or, past
// their end, an inner cell. The first inner cell has the number `first`. Fails only when out of memory;
// then some of them are appended.
fn push_calls<A: Allocator>(
    instances: &mut Vec<Instance, A>,
    global: Global,
    calls: &[FlatCall],
    cells: &[u32],
    first: u32,
    attached: &Rc<Attachment>,
) -> Result<(), AllocError>
    requires room { vec_len instances.old + length calls.now ≤ vec_capacity instances.old }
    requires numbers { All (λ call. All (λ place. first + place ≤ 4294967295)
        (cells_of call.places)) calls.now }
    ensures first { take (length instances.old.items) instances.new.items ≡ instances.old.items }
    ensures appended { OnOk result (AppendsCalls attached.now.value.line attached.now.value.support
        cells.now first calls.now instances.old.items instances.new.items) }
    ensures len { OnOk result (vec_len instances.new ≡ vec_len instances.old + length calls.now) }
{
    for call in calls {
        let instance = Instance::placed(global, call, cells, first, attached)?;
        instances.push_reserved(instance);
    }
    Ok(())
}

// Appends the instances of calls, as `push_calls` does. If memory is refused, nothing changes.
pub(crate) fn append_calls<A: Allocator>(
    instances: &mut Vec<Instance, A>,
    global: Global,
    calls: &[FlatCall],
    cells: &[u32],
    first: u32,
    attached: &Rc<Attachment>,
) -> Result<(), AllocError>
    requires room { vec_len instances.old + length calls.now ≤ vec_capacity instances.old }
    requires numbers { All (λ call. All (λ place. first + place ≤ 4294967295)
        (cells_of call.places)) calls.now }
    ensures appended { OnOk result (AppendsCalls attached.now.value.line attached.now.value.support
        cells.now first calls.now instances.old.items instances.new.items) }
    ensures len { OnOk result (vec_len instances.new ≡ vec_len instances.old + length calls.now) }
    ensures err { OnErr result (instances.new.items ≡ instances.old.items) }
{
    let count = instances.len();
    let outcome = push_calls(instances, global, calls, cells, first, attached);
    if outcome.is_err() {
        instances.truncate(count);
    }
    outcome
}

// Appends the numbers of the instances from a number on to the lists of the declared cells that they
// read, and to those of the declared cells that they write.
pub(crate) fn list_instances<A: Allocator + Copy>(
    instances: &[Instance],
    first: usize,
    readers: &mut InstanceLists<A>,
    writers: &mut InstanceLists<A>,
)
    requires there { first ≤ length instances.now }
    requires numbers { length instances.now ≤ no_place }
    requires lists { vec_len writers.old.ends ≤ vec_len readers.old.ends }
    requires room { HaveRoomFor (length instances.now - first) readers.old writers.old }
    requires few { All (λ instance. length (attachment instance).instance.inputs ≤ 8)
        (drop first instances.now) }
    ensures readers { AddsInstances reads (vec_len writers.old.ends) instances.now first
        (map listed_by readers.old.links.items) (map listed_by readers.new.links.items) }
    ensures writers { AddsInstances writes (vec_len writers.old.ends) instances.now first
        (map listed_by writers.old.links.items) (map listed_by writers.new.links.items) }
    ensures kept { LeavesFrom (vec_len writers.old.ends) (vec_len readers.old.ends) (map listed_by
        readers.old.links.items) (map listed_by readers.new.links.items) }
    ensures lists { vec_len readers.new.ends ≡ vec_len readers.old.ends }
    ensures writer_lists { vec_len writers.new.ends ≡ vec_len writers.old.ends }
{
    for number in first..instances.len() {
        let instance = &instances[number];
        readers.append(number as u32, instance.inputs(), 0, writers.len() as u32);
        writers.append_to(number as u32, instance.output);
    }
}

// Appends the calls of an attachment to the lists of its cells: those of each place as one. The first
// instance of the attachment has the number `first`, and the calls of the first place are in this list.
fn list_calls<A: Allocator + Copy>(
    calls: &mut Vec<Calls, A>,
    lists: &mut InstanceLists<A>,
    cells: &[u32],
    first: u32,
    list: u32,
)
    requires room { vec_len calls.old + length cells.now ≤ vec_capacity calls.old }
    requires few { vec_len calls.old + length cells.now < least_calls }
    requires link_room { vec_len lists.old.links + length cells.now ≤ vec_capacity lists.old.links }
    requires link_places { vec_len lists.old.links + length cells.now ≤ no_place }
    requires lists { list + length cells.now ≤ no_place }
    ensures calls { calls.new.items ≡ calls.old.items ++ calls_from first list (length cells.now) }
    ensures count { vec_len calls.new ≡ vec_len calls.old + length cells.now }
    ensures calls_room { vec_capacity calls.new ≡ vec_capacity calls.old }
    ensures added { AddsCalls (vec_len lists.old.ends) (least_calls + vec_len calls.old) cells.now
        (map listed_by lists.old.links.items) (map listed_by lists.new.links.items) }
    ensures lists { vec_len lists.new.ends ≡ vec_len lists.old.ends }
{
    for place in 0..cells.len() {
        let number = LEAST_CALLS + calls.len() as u32;
        calls.push_reserved(Calls {
            first,
            list: list + place as u32,
        });
        lists.append_to(number, cells[place]);
    }
}

// Whether the cells differ. Answers false where two are the same.
fn are_distinct(cells: &[u32]) -> bool
    ensures { IsTrue result → AllPairs (λ m n. m ≢ n) cells.now }
{
    for place in 0..cells.len() {
        if has(&cells[..place], cells[place]) {
            return false;
        }
    }
    true
}

// Appends the instances of an attachment of a compound, which have the numbers from `first` on, to the
// lists of its cells. The compound has these calls, and the calls of its first place are in this list.
// Many calls are appended as one for each place, if the cells differ.
pub(crate) fn list_attached<A: Allocator + Copy>(
    instances: &[Instance],
    first: usize,
    cells: &[u32],
    flat: &[FlatCall],
    list: u32,
    places: usize,
    calls: &mut Vec<Calls, A>,
    readers: &mut InstanceLists<A>,
    writers: &mut InstanceLists<A>,
)
    requires there { first ≤ length instances.now }
    requires numbers { length instances.now ≤ least_calls }
    requires lists { vec_len writers.old.ends ≤ vec_len readers.old.ends }
    requires room { HaveRoomFor (length instances.now - first) readers.old writers.old }
    requires few { All (λ instance. length (attachment instance).instance.inputs ≤ 8)
        (drop first instances.now) }
    requires calls_room { vec_len calls.old + 2 * length cells.now ≤ vec_capacity calls.old }
    requires few_calls { vec_len calls.old + 2 * length cells.now < least_calls }
    requires cells { All (λ cell. cell < vec_len writers.old.ends) cells.now }
    requires most { length cells.now ≤ 9 }
    requires places { length cells.now ≤ places }
    requires has { HasLists (vec_len writers.old.ends) places flat.now list (vec_len readers.old.ends)
        (map listed_by readers.old.links.items) }
    requires placed { ArePlaced (vec_len writers.old.ends) cells.now flat.now
        (map attachment (drop first instances.now)) }
    requires listed { AreAllListed (vec_len writers.old.ends) calls.old.items readers.old writers.old
        (map attachment (take first instances.now)) }
    ensures listed { AreAllListed (vec_len writers.new.ends) calls.new.items readers.new writers.new
        (map attachment instances.now) }
    ensures kept { LeavesFrom (vec_len writers.old.ends) (vec_len readers.old.ends) (map listed_by
        readers.old.links.items) (map listed_by readers.new.links.items) }
    ensures lists { vec_len readers.new.ends ≡ vec_len readers.old.ends }
    ensures writer_lists { vec_len writers.new.ends ≡ vec_len writers.old.ends }
{
    if instances.len() - first < MANY_CALLS || !are_distinct(cells) {
        list_instances(instances, first, readers, writers);
        return;
    }
    list_calls(calls, readers, cells, first as u32, list);
    list_calls(calls, writers, cells, first as u32, list + places as u32);
}

// Appends the inner cells of an attachment at this line: they are of these kinds, and numbered from 0.
// The first instance of the attachment has the number `first`, and the readers of the first inner cell
// are in this list.
pub(crate) fn append_inner<A: Allocator>(
    inner: &mut Vec<InnerCell, A>,
    kinds: &[Kind],
    line: u32,
    first: u32,
    list: u32,
)
    requires room { vec_len inner.old + length kinds.now ≤ vec_capacity inner.old }
    requires few { length kinds.now ≤ most_inner_cells }
    requires lists { list + length kinds.now ≤ no_place }
    ensures { inner.new.items ≡ inner.old.items ++ inner_made line first list 0 kinds.now }
{
    for (number, kind) in kinds.iter().enumerate() {
        inner.push_reserved(InnerCell {
            line,
            first,
            list: list + number as u32,
            number: number as u8,
            kind: *kind,
        });
    }
}

// These premises, and the support of an attachment with these calls. An attachment without calls
// makes no instance, and adds nothing.
pub(crate) fn with_support(
    premises: PremiseSet,
    support: PremiseSet,
    calls: &[FlatCall],
) -> PremiseSet
    ensures none { length calls.now ≡ 0 → result ≡ premises }
    ensures some { 0 < length calls.now → result ≡ union premises support }
{
    if calls.is_empty() {
        return premises;
    }
    premises.join(support)
}
