//! Dropping kept facts that a new one or a later one subsumes.

ghost use Rattle.std.specs.Prelude.{◌≡◌, ◌+◌, ◌<◌, ◌≤◌, true, length, take, slice_index_or};
ghost use Rattle.std.specs.Prelude.{vec_len, vec_capacity, IsTrue};
ghost use Rattle.std.specs.List.{list_any};
ghost use Rattle.pw_info.specs.Information.{kind_of};
ghost use Rattle.pw_facts.specs.declared.fact.Fact.{Fact};
ghost use Rattle.pw_cells.specs.Cells.{does_subsume, unsubsumed};
ghost use Rattle.pw_cells.specs.inside.OneCell.{AreOfKind, LeavesOutOne, current, outdoes};

use crate::content::Content;
use crate::held::Held;
use crate::support::Support;
use pw_info::Kind;
use std::alloc::Allocator;

// A fact looks among this many of the last ones for one on the same premises.
const NEAREST: usize = 2;

// Drops the facts that this one subsumes. Mostly it subsumes the last one alone, or none: that is
// inlined, and the rest is not.
#[inline(always)]
pub(crate) fn drop_subsumed<C: Content, S: Support, A: Allocator>(
    kept: &mut Vec<Held<C, S>, A>,
    fact: &Held<C, S>,
)
    requires { AreOfKind (kind_of fact.now.info) kept.old.items }
    ensures rest { kept.new.items ≡ unsubsumed fact.now kept.old.items }
    ensures len { vec_len kept.new ≤ vec_len kept.old }
    ensures capacity { vec_capacity kept.new ≡ vec_capacity kept.old }
{
    let first = first_subsumed(kept.as_slice(), fact);
    if first + 1 < kept.len() {
        drop_from(kept, fact, first);
    } else if first < kept.len() {
        let _ = kept.pop();
    }
}

// The place of the first fact that this one subsumes. If it subsumes none, the number of facts. Never
// inlined: a loop of its own is short.
#[inline(never)]
fn first_subsumed<C: Content, S: Support>(facts: &[Held<C, S>], fact: &Held<C, S>) -> usize
    requires { AreOfKind (kind_of fact.now.info) facts.now }
    ensures within { result ≤ length facts.now }
    // It subsumes none before that place.
    ensures before { take result facts.now ≡ unsubsumed fact.now (take result facts.now) }
    ensures at { result < length facts.now → (f : Fact) → does_subsume fact.now (slice_index_or
        facts.now result f) ≡ true }
{
    for place in 0..facts.len() {
        if fact.subsumes(&facts[place]) {
            return place;
        }
    }
    facts.len()
}

// Drops the facts that this one subsumes, where it subsumes none before the place. (`retain` takes no
// test that may be asked of facts of one kind alone.) Few facts are dropped at a time, so the later
// ones move down together and not one by one.
#[inline(never)]
fn drop_from<C: Content, S: Support, A: Allocator>(
    kept: &mut Vec<Held<C, S>, A>,
    fact: &Held<C, S>,
    first: usize,
)
    requires kinds { AreOfKind (kind_of fact.now.info) kept.old.items }
    requires before { take first kept.old.items ≡ unsubsumed fact.now (take first kept.old.items) }
    ensures rest { kept.new.items ≡ unsubsumed fact.now kept.old.items }
    ensures len { vec_len kept.new ≤ vec_len kept.old }
    ensures capacity { vec_capacity kept.new ≡ vec_capacity kept.old }
{
    let mut place = first;
    while place < kept.len() {
        if fact.subsumes(&kept[place]) {
            kept.remove(place);
        } else {
            place += 1;
        }
    }
}

// Drops one of the last facts, on the same premises, if this one subsumes it.
#[inline(always)]
pub(crate) fn drop_last_alike<C: Content, S: Support, A: Allocator>(
    kept: &mut Vec<Held<C, S>, A>,
    fact: &Held<C, S>,
)
    requires { AreOfKind (kind_of fact.now.info) kept.old.items }
    ensures left { LeavesOutOne fact.now kept.old.items kept.new.items }
    ensures len { vec_len kept.new ≤ vec_len kept.old }
    ensures capacity { vec_capacity kept.new ≡ vec_capacity kept.old }
{
    let last = last_alike(kept.as_slice(), fact);
    if last < kept.len() && fact.subsumes(&kept[last]) {
        kept.remove(last);
    }
}

// The place of the last fact on the same premises, if it is one of the nearest. If none of them is on
// the same premises, the number of facts. Never inlined, like `first_subsumed`.
#[inline(never)]
fn last_alike<C: Content, S: Support>(facts: &[Held<C, S>], fact: &Held<C, S>) -> usize {
    let len = facts.len();
    for back in 1..=len.min(NEAREST) {
        if facts[len - back].support() == fact.support() {
            return len - back;
        }
    }
    len
}

// Drops the facts that a later one outdoes.
#[cold]
#[inline(never)]
pub(crate) fn drop_outdone<C: Content, S: Support, A: Allocator>(
    kept: &mut Vec<Held<C, S>, A>,
    kind: Kind,
)
    requires { AreOfKind kind kept.old.items }
    ensures current { current kept.new.items ≡ current kept.old.items }
    ensures kinds { AreOfKind kind kept.new.items }
    ensures len { vec_len kept.new ≤ vec_len kept.old }
    ensures capacity { vec_capacity kept.new ≡ vec_capacity kept.old }
{
    // All are of the kind.
    let _kind = kind;
    let len = kept.len();
    // Those from `first` on stay, and those before `left` are still ahead. From the last one on, so
    // that each is compared only with those that stay.
    let mut first = len;
    let mut left = len;
    while left > 0 {
        left -= 1;
        let held = kept[left];
        let (_, later) = kept.as_slice().split_at(first);
        if !is_outdone(later, &held) {
            first -= 1;
            kept[first] = held;
        }
    }
    kept.copy_within(first.., 0);
    kept.truncate(len - first);
}

// Whether one of the later facts outdoes this one.
fn is_outdone<C: Content, S: Support>(later: &[Held<C, S>], fact: &Held<C, S>) -> bool
    requires { AreOfKind (kind_of fact.now.info) later.now }
    ensures { IsTrue result → list_any (λ f. outdoes f fact.now) later.now ≡ true }
{
    for held in later {
        if held.subsumes(fact) && !fact.subsumes(held) {
            return true;
        }
    }
    false
}
