//! The instances that wait to be called.
ghost use Rattle.std.specs.Prelude.{◌≡◌, ◌≤◌, ◌<◌, [], false, true, drop, length};
ghost use Rattle.std.specs.Prelude.{IfNone, IfOk, IfSome, OnOk, replicate, slice_set};
ghost use Rattle.std.specs.Prelude.{vec_capacity, vec_len, ℕ};
ghost use Rattle.pw_settle.specs.inside.Progress.{IsIdle};
ghost use Rattle.pw_settle.specs.Calls.{is_set};

use std::alloc::{AllocError, Allocator, Global};
use std::marker::Model;

// The list has room for at least this many. With less, that of a small network would be full again and
// again.
const LEAST_ROOM: usize = 64;

// Numbers of instances, each at most once, in the order in which they came. Which one is taken next
// is free: no contract depends on it. (First in, first out calls an instance once for the news of
// several of its inputs.)
//
// Those that were taken stay in the list until it is full, which is faster than a ring. It has room
// for twice as many as there are instances, and for some in a small network too, so it is seldom full.
#[derive(Drop)]
pub(crate) struct Agenda<A: Allocator = Global> {
    queued: Vec<bool, A>,
    // The instances that were taken, and then those that wait.
    listed: Vec<u32, A>,
    // How many were taken.
    taken: usize,
    // How often the list may still be full until many were taken.
    rounds: usize,
}

impl<A: Allocator> Model for Agenda<A> {
    ghost use Rattle.std.specs.Prelude.{◌≤◌, Bool, List, drop, length, vec_capacity};
    ghost use Rattle.pw_settle.specs.inside.Progress.{IsQueue};

    ghost Value = { List Bool };

    ghost view = { λ a. a.queued.items };

    ghost invariant = { λ a. IsQueue a.queued.items (drop a.taken a.listed.items)
        (vec_capacity a.listed) × (length a.queued.items ≤ 4294967295)
        × (a.taken ≤ length a.listed.items) };
}

impl<A: Allocator + Copy> Agenda<A> {
    // An empty agenda for `count` instances, with room for all of them. Fails only when out of
    // memory; instances whose numbers would not fit 32 bits count as that.
    pub(crate) fn new(alloc: A, count: usize) -> Result<Agenda<A>, AllocError>
        ensures { IfOk result (λ agenda. agenda ≡ replicate count false) }
    {
        if count > u32::MAX as usize {
            return Err(AllocError);
        }
        Ok(Agenda {
            queued: vec![in alloc; false; count]?,
            listed: Vec::with_capacity(alloc, room_for(count))?,
            taken: 0,
            rounds: 0,
        })
    }

    // An agenda for no instances, which takes no memory.
    pub(crate) fn without_room(alloc: A) -> Agenda<A>
        ensures { result ≡ [] }
    {
        Agenda {
            queued: Vec::new(alloc),
            listed: Vec::new(alloc),
            taken: 0,
            rounds: 0,
        }
    }

    // From now on it is an empty agenda for `count` instances, with room for all of them. Fails only
    // when out of memory, as `new` does.
    pub(crate) fn fit(&mut self, count: usize) -> Result<(), AllocError>
        ensures idle { OnOk result (IsIdle self.new) }
        ensures many { OnOk result (length self.new ≡ count) }
    {
        if count > u32::MAX as usize {
            return Err(AllocError);
        }
        self.clear();
        self.listed.reserve(room_for(count))?;
        self.queued.resize(count, false)
    }

    // Queues an instance, unless it is queued already.
    #[inline(always)]
    pub(crate) fn add(&mut self, number: usize)
        requires { number < length self.old }
        ensures { self.new ≡ slice_set self.old number true }
    {
        if !self.queued[number] {
            self.queued[number] = true;
            make_room(&mut self.listed, &mut self.taken, &mut self.rounds);
            self.listed.push_reserved(number as u32);
        }
    }

    // Takes a queued instance, if there is one.
    #[inline(always)]
    pub(crate) fn take(&mut self) -> Option<usize>
        ensures some { IfSome result (λ number. (is_set self.old number ≡ true)
            × (self.new ≡ slice_set self.old number false)) }
        ensures none { IfNone result ((number : ℕ) → is_set self.old number ≡ false) }
        ensures left { IfNone result (self.new ≡ self.old) }
    {
        let number = *self.listed.get(self.taken)? as usize;
        self.taken += 1;
        self.queued[number] = false;
        Some(number)
    }

    // Counts anew. Many were taken when this many are from now on, or some more.
    pub(crate) fn count_anew(&mut self, many: usize)
        ensures { self.new ≡ self.old }
    {
        self.rounds = (many / (1 + self.listed.capacity() / 2)).max(1);
    }

    // Whether many were taken. No contract depends on it.
    #[inline(always)]
    pub(crate) fn has_taken_many(&self) -> bool {
        self.rounds == 0
    }

    // No instance is queued any more.
    fn clear(&mut self)
        ensures idle { IsIdle self.new }
        ensures many { length self.new ≡ length self.old }
    {
        if self.taken < self.listed.len() {
            // A settling was refused while instances waited.
            self.queued.fill(false);
        }
        self.listed.clear();
        self.taken = 0;
    }
}

// The room of the list for this many instances.
fn room_for(count: usize) -> usize
    requires { count ≤ 4294967295 }
    ensures { count ≤ result }
{
    (2 * count).max(LEAST_ROOM)
}

// Makes room for one more to wait: if the list is full, it forgets those that were taken.
#[inline(always)]
fn make_room<A: Allocator>(listed: &mut Vec<u32, A>, taken: &mut usize, rounds: &mut usize)
    requires place { taken.old ≤ length listed.old.items }
    requires room { length (drop taken.old listed.old.items) < vec_capacity listed.old }
    ensures waiting { drop taken.new listed.new.items ≡ drop taken.old listed.old.items }
    ensures place { taken.new ≤ length listed.new.items }
    ensures room { vec_len listed.new < vec_capacity listed.new }
    ensures capacity { vec_capacity listed.new ≡ vec_capacity listed.old }
{
    if listed.len() == listed.capacity() {
        forget_taken(listed, taken);
        *rounds = rounds.saturating_sub(1);
    }
}

// Forgets those that were taken.
#[cold]
#[inline(never)]
fn forget_taken<A: Allocator>(listed: &mut Vec<u32, A>, taken: &mut usize)
    requires { taken.old ≤ length listed.old.items }
    ensures waiting { listed.new.items ≡ drop taken.old listed.old.items }
    ensures none { taken.new ≡ 0 }
    ensures capacity { vec_capacity listed.new ≡ vec_capacity listed.old }
{
    let left = listed.len() - *taken;
    listed.rotate_left(*taken);
    listed.truncate(left);
    *taken = 0;
}
