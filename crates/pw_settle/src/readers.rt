//! The readers of a cell, as they are queued.
ghost use Rattle.std.specs.Prelude.{◌≡◌, ◌+◌, ◌<◌, ◌≤◌, Bool, List, All, [], ◌∷◌, length, map, IsTrue};
ghost use Rattle.std.specs.List.{count_by};
ghost use Rattle.pw_network.specs.Network.{AreAllVisible};
ghost use Rattle.pw_network.specs.Readers.{readers_of};
ghost use Rattle.pw_network.specs.Wiring.{wiring};
ghost use Rattle.pw_settle.specs.Calls.{is_instance_visible, is_set, reader_count, tally};
ghost use Rattle.pw_settle.specs.inside.Queueing.{QueuesNumbers, QueuesReaders};

use crate::agenda::Agenda;
use pw_network::{Batch, Instance, InstanceNumbers, Network};
use pw_premises::PremiseSet;
use std::alloc::Allocator;

// Sees some of the instances of a network. The functions below are compiled for each type that does.
trait Sees: Copy {
    // Of each instance, whether it is seen.
    ghost seen: { Self → List Bool };

    // Whether the instance of this number is seen.
    fn sees(self, number: usize) -> bool
        requires { number < length (seen self) }
        ensures { result ≡ is_set (seen self) number };
}

// Sees all of these instances.
#[derive(Clone, Copy)]
struct SeesAll<'a>(&'a [Instance]);

impl Sees for SeesAll<'_> {
    ghost use Rattle.std.specs.Prelude.{length, replicate, true};

    ghost seen = { λ s. replicate (length s.0.now) true };

    #[inline(always)]
    fn sees(self, _: usize) -> bool {
        true
    }
}

// Sees the instances whose flags are set.
#[derive(Clone, Copy)]
struct SeesFlagged<'a>(&'a [bool]);

impl Sees for SeesFlagged<'_> {
    ghost seen = { λ s. s.0.now };

    #[inline(always)]
    fn sees(self, number: usize) -> bool {
        self.0[number]
    }
}

// Sees those of these instances whose premises are in the worldview. Each is tested by itself: in a
// large network few of the instances ever read news.
#[derive(Clone, Copy)]
struct SeesIn<'a>(&'a [Instance], &'a PremiseSet);

impl Sees for SeesIn<'_> {
    ghost use Rattle.std.specs.Prelude.{map};
    ghost use Rattle.pw_network.specs.inside.Held.{attachment};
    ghost use Rattle.pw_settle.specs.Calls.{is_instance_visible};

    ghost seen = { λ s. map (λ instance. is_instance_visible s.1.now (attachment instance))
        s.0.now };

    #[inline(always)]
    fn sees(self, number: usize) -> bool {
        self.0[number].support().is_subset(self.1)
    }
}

// Queues an instance if the viewer sees it.
#[inline(always)]
fn queue_one<V: Sees, A: Allocator + Copy>(viewer: V, agenda: &mut Agenda<A>, number: usize)
    requires below { number < length agenda.old }
    requires all { length (V.seen viewer) ≡ length agenda.old }
    ensures { QueuesNumbers (V.seen viewer) (number ∷ []) agenda.old agenda.new }
{
    if viewer.sees(number) {
        agenda.add(number);
    }
}

// Queues those of these instances that the viewer sees. Many instances of one attachment read a cell
// only if its compound is large, so this loop is cold.
#[cold]
#[inline(never)]
fn queue_numbers<V: Sees, A: Allocator + Copy>(
    viewer: V,
    agenda: &mut Agenda<A>,
    numbers: InstanceNumbers<'_>,
)
    requires below { All (λ n. n < length agenda.old) numbers }
    requires all { length (V.seen viewer) ≡ length agenda.old }
    ensures { QueuesNumbers (V.seen viewer) numbers.entry agenda.old agenda.new }
{
    for number in numbers {
        queue_one(viewer, agenda, number);
    }
}

// Queues the readers of a cell that the viewer sees.
#[inline(always)]
fn queue_seen_readers<V: Sees, A: Allocator + Copy>(
    network: &Network<'_, '_, A>,
    viewer: V,
    agenda: &mut Agenda<A>,
    cell: u32,
)
    requires flags { length agenda.old ≡ length (wiring network.now).attached }
    requires all { length (V.seen viewer) ≡ length agenda.old }
    ensures readers { QueuesReaders (wiring network.now) (V.seen viewer) (λ c. c ≡ cell) agenda.old
        agenda.new }
    ensures most { tally agenda.new ≤ tally agenda.old + count_by (is_set (V.seen viewer))
        (readers_of (wiring network.now) cell) }
    ensures least { tally agenda.old ≤ tally agenda.new }
{
    if let Some(numbers) = network.inner_readers(cell) {
        queue_numbers(viewer, agenda, numbers);
        return;
    }
    for batch in network.reader_batches(cell) {
        match batch {
            Batch::One(number) => queue_one(viewer, agenda, number),
            Batch::Many(numbers) => queue_numbers(viewer, agenda, numbers),
        }
    }
}

// Queues the visible readers of a cell.
#[inline(always)]
pub(crate) fn queue_readers<A: Allocator + Copy>(
    network: &Network<'_, '_, A>,
    visible: &[bool],
    agenda: &mut Agenda<A>,
    cell: u32,
)
    requires flags { length agenda.old ≡ length (wiring network.now).attached }
    requires all { length visible.now ≡ length (wiring network.now).attached }
    ensures readers { QueuesReaders (wiring network.now) visible.now (λ c. c ≡ cell)
        agenda.old agenda.new }
    ensures most { tally agenda.new
        ≤ tally agenda.old + count_by (is_set visible.now) (readers_of (wiring network.now) cell) }
    ensures least { tally agenda.old ≤ tally agenda.new }
{
    queue_seen_readers(network, SeesFlagged(visible), agenda, cell);
}

// Queues the readers of a cell that are visible in the worldview. If all instances are, as is mostly
// so, none is tested by itself.
#[inline(always)]
pub(crate) fn queue_visible_readers<A: Allocator + Copy>(
    network: &Network<'_, '_, A>,
    worldview: &PremiseSet,
    sees_all: bool,
    agenda: &mut Agenda<A>,
    cell: u32,
)
    requires flags { length agenda.old ≡ length (wiring network.now).attached }
    requires all { IsTrue sees_all → AreAllVisible (wiring network.now) worldview.now }
    ensures readers { QueuesReaders (wiring network.now) (map (is_instance_visible worldview.now)
        (wiring network.now).attached) (λ c. c ≡ cell) agenda.old agenda.new }
    ensures most { tally agenda.new ≤ tally agenda.old + reader_count (wiring network.now)
        worldview.now cell }
    ensures least { tally agenda.old ≤ tally agenda.new }
{
    let instances = network.instances();
    if sees_all {
        queue_seen_readers(network, SeesAll(instances), agenda, cell);
        return;
    }
    queue_seen_readers(network, SeesIn(instances, worldview), agenda, cell);
}
