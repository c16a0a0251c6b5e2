//! Where the calls of each compound are listed.
ghost use Rattle.std.specs.Prelude.{◌≡◌, ◌+◌, ◌*◌, ◌<◌, ◌≤◌, ℕ, map, IfOk, OnOk, vec_len};
ghost use Rattle.pw_network.specs.Readers.{reads};
ghost use Rattle.pw_network.specs.Writers.{writes};
ghost use Rattle.pw_network.specs.inside.CompoundLists.{IsListedAs, ListsCalls, first_list};
ghost use Rattle.pw_network.specs.inside.Lists.{LeavesBelow, listed_by, no_place};

use crate::instance::MOST_INPUTS;
use crate::instance_lists::InstanceLists;
use pw_decl::FlatCall;
use std::alloc::{AllocError, Allocator, Global};

// Means no list: none has this number.
const NONE: u32 = u32::MAX;

// For each compound that was attached, the number of the list of its first place. The lists of its
// other places follow, and then as many again. The first list of a place has the numbers of the calls
// that read it, the second one of those that write it. All attachments of the compound share them.
#[derive(Drop)]
pub(crate) struct CompoundLists<A: Allocator = Global> {
    // By the number of the compound.
    firsts: Vec<u32, A>,
}

impl<A: Allocator + Copy> CompoundLists<A> {
    // No compound was attached yet.
    pub(crate) fn new(alloc: A) -> CompoundLists<A>
        ensures { (compound : ℕ) → first_list result compound ≡ no_place }
    {
        CompoundLists {
            firsts: Vec::new(alloc),
        }
    }

    // The number of the list of the first of the compound's places, of which there are this many. Its
    // calls get their lists unless they have them. Fails only when out of memory.
    pub(crate) fn first(
        &mut self,
        lists: &mut InstanceLists<A>,
        compound: u8,
        calls: &[FlatCall],
        places: usize,
    ) -> Result<u32, AllocError>
        requires some { 1 ≤ places }
        ensures first { IfOk result (λ first. first ≡ first_list self.new compound) }
        ensures there { IfOk result (λ first. first < no_place) }
        ensures listed { (least : ℕ) → least ≤ vec_len lists.old.ends → IsListedAs least places
            calls.now (first_list self.old compound) (vec_len lists.old.ends) (map listed_by
            lists.old.links.items) → IsListedAs least places calls.now (first_list self.new
            compound) (vec_len lists.new.ends) (map listed_by lists.new.links.items) }
        ensures others { (other : ℕ) → (other ≡ compound → ⊥) → first_list self.new other
            ≡ first_list self.old other }
        ensures kept { LeavesBelow (vec_len lists.old.ends) (map listed_by lists.old.links.items)
            (map listed_by lists.new.links.items) }
        ensures lists { vec_len lists.old.ends ≤ vec_len lists.new.ends }
    {
        self.widen(compound)?;
        let number = usize::from(compound);
        if self.firsts[number] == NONE {
            let first = list_calls(lists, calls, places)?;
            self.firsts[number] = first;
        }
        Ok(self.firsts[number])
    }

    // Makes room for a compound. Fails only when out of memory.
    fn widen(&mut self, compound: u8) -> Result<(), AllocError>
        ensures same { (other : ℕ) → first_list self.new other ≡ first_list self.old other }
        ensures room { OnOk result (compound < vec_len self.new.firsts) }
    {
        let count = usize::from(compound) + 1;
        if self.firsts.len() < count {
            self.firsts.reserve(count - self.firsts.len())?;
            let _ = self.firsts.resize(count, NONE);
        }
        Ok(())
    }
}

// Adds a list for each of this many places, with the numbers of the calls that read it, and then one
// for each with the numbers of those that write it. Answers the number of the first. Fails only when
// out of memory; then the lists are unchanged.
fn list_calls<A: Allocator + Copy>(
    lists: &mut InstanceLists<A>,
    calls: &[FlatCall],
    places: usize,
) -> Result<u32, AllocError>
    requires some { 1 ≤ places }
    ensures kept { LeavesBelow (vec_len lists.old.ends) (map listed_by lists.old.links.items)
        (map listed_by lists.new.links.items) }
    ensures lists { vec_len lists.old.ends ≤ vec_len lists.new.ends }
    ensures first { IfOk result (λ first. first ≡ vec_len lists.old.ends) }
    ensures there { IfOk result (λ first. first < no_place) }
    ensures places { IfOk result (λ first. first + 2 * places ≤ vec_len lists.new.ends) }
    ensures read { IfOk result (λ first. ListsCalls reads (map listed_by lists.new.links.items)
        first places calls.now) }
    ensures written { IfOk result (λ first. ListsCalls writes (map listed_by
        lists.new.links.items) (first + places) places calls.now) }
{
    if calls.len() > u32::MAX as usize || places > u32::MAX as usize {
        return Err(AllocError);
    }
    lists.reserve(2 * places, calls.len() * (MOST_INPUTS + 1))?;
    let first = lists.len() as u32;
    let writers = first + places as u32;
    lists.add(2 * places);
    for number in 0..calls.len() {
        let cells = calls[number].places.cells();
        let (inputs, output) = cells.split_at(cells.len() - 1);
        lists.append(number as u32, inputs, first, places as u32);
        lists.append(number as u32, output, writers, places as u32);
    }
    Ok(first)
}
