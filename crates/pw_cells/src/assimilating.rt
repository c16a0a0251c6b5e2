//! Keeping a fact in a list, where the facts that it subsumes are kept no longer.

ghost use Rattle.std.specs.Prelude.{◌≡◌, ◌+◌, ◌<◌, ◌≤◌, ◌↔◌, ◌++◌, ◌∷◌, [], false, length};
ghost use Rattle.std.specs.Prelude.{vec_len, vec_capacity, IsTrue};
ghost use Rattle.pw_info.specs.Information.{kind_of};
ghost use Rattle.pw_cells.specs.Cells.{IsSubsumedBy, assimilated, all_assimilated, unsubsumed};
ghost use Rattle.pw_cells.specs.inside.OneCell.{AreOfKind, Bounds, current};

use crate::bound::Bound;
use crate::content::Content;
use crate::fact_lists::append;
use crate::held::Held;
use crate::subsumed_facts::{drop_last_alike, drop_outdone, drop_subsumed};
use crate::support::Support;
use pw_info::Kind;
use std::alloc::Allocator;

// In a list of at most this many facts, a new one drops all that it subsumes.
const FEW: usize = 8;

// A list shorter than this is left as it is.
pub(crate) const LEAST_LIMIT: usize = 16;

// Whether one of the facts subsumes this one.
fn is_subsumed_by<C: Content, S: Support>(facts: &[Held<C, S>], fact: &Held<C, S>) -> bool
    requires { AreOfKind (kind_of fact.now.info) facts.now }
    ensures { IsTrue result ↔ IsSubsumedBy facts.now fact.now }
{
    for held in facts {
        if held.subsumes(fact) {
            return true;
        }
    }
    false
}

// Whether a kept fact subsumes this one. The older facts are gone over only if one of them may say
// as much.
#[inline(always)]
pub(crate) fn is_subsumed<C: Content, S: Support>(
    kept: &[Held<C, S>],
    bound: &Bound,
    fact: &Held<C, S>,
) -> bool
    requires kinds { AreOfKind (kind_of fact.now.info) kept.now }
    requires bounds { Bounds (kind_of fact.now.info) kept.now bound.now }
    ensures { IsTrue result ↔ IsSubsumedBy kept.now fact.now }
{
    let (older, newer) = kept.split_at(bound.count);
    if is_subsumed_by(newer, fact) {
        return true;
    }
    bound.info.implies(&fact.info()) && is_subsumed_by(older, fact)
}

// Assimilates the late facts; then none is late. The kept facts have room for them. Mostly none is
// late: so the test is inlined, and the rest is not.
#[inline(always)]
pub(crate) fn assimilate_late<C: Content, S: Support, A: Allocator>(
    kind: Kind,
    kept: &mut Vec<Held<C, S>, A>,
    bound: &mut Bound,
    limit: &mut usize,
    late: &mut Vec<Held<C, S>, A>,
)
    requires kinds { AreOfKind kind kept.old.items }
    requires late_kinds { AreOfKind kind late.old.items }
    requires bounds { Bounds kind kept.old.items bound.old }
    requires room { vec_len kept.old + vec_len late.old ≤ vec_capacity kept.old }
    ensures kept { current kept.new.items ≡ all_assimilated (current kept.old.items) late.old.items }
    ensures kinds { AreOfKind kind kept.new.items }
    ensures bounds { Bounds kind kept.new.items bound.new }
    ensures late { late.new.items ≡ [] }
    ensures none { vec_len late.new ≡ 0 }
{
    if late.len() > 0 {
        assimilate_all(kind, kept, bound, limit, late);
    }
}

// `assimilate_late`, where some fact may be late.
#[cold]
#[inline(never)]
fn assimilate_all<C: Content, S: Support, A: Allocator>(
    kind: Kind,
    kept: &mut Vec<Held<C, S>, A>,
    bound: &mut Bound,
    limit: &mut usize,
    late: &mut Vec<Held<C, S>, A>,
)
    requires kinds { AreOfKind kind kept.old.items }
    requires late_kinds { AreOfKind kind late.old.items }
    requires bounds { Bounds kind kept.old.items bound.old }
    requires room { vec_len kept.old + vec_len late.old ≤ vec_capacity kept.old }
    ensures kept { current kept.new.items ≡ all_assimilated (current kept.old.items) late.old.items }
    ensures kinds { AreOfKind kind kept.new.items }
    ensures bounds { Bounds kind kept.new.items bound.new }
    ensures late { late.new.items ≡ [] }
    ensures none { vec_len late.new ≡ 0 }
{
    for fact in late.as_slice() {
        let known = is_subsumed(kept.as_slice(), bound, fact);
        assimilate(kept, bound, limit, known, fact);
    }
    late.clear();
}

// Keeps a fact, where there is room: the facts that it subsumes are kept no longer. If the fact is
// known, a kept fact subsumes it, and nothing is done.
#[inline(always)]
pub(crate) fn assimilate<C: Content, S: Support, A: Allocator>(
    kept: &mut Vec<Held<C, S>, A>,
    bound: &mut Bound,
    limit: &mut usize,
    known: bool,
    fact: &Held<C, S>,
)
    requires kinds { AreOfKind (kind_of fact.now.info) kept.old.items }
    requires bounds { Bounds (kind_of fact.now.info) kept.old.items bound.old }
    requires known { IsTrue known ↔ IsSubsumedBy kept.old.items fact.now }
    requires room { known ≡ false → vec_len kept.old < vec_capacity kept.old }
    ensures assimilated { current kept.new.items ≡ assimilated (current kept.old.items) fact.now }
    ensures kinds { AreOfKind (kind_of fact.now.info) kept.new.items }
    ensures bounds { Bounds (kind_of fact.now.info) kept.new.items bound.new }
    ensures len { vec_len kept.new ≤ vec_len kept.old + 1 }
    ensures capacity { vec_capacity kept.old ≤ vec_capacity kept.new }
{
    if !known {
        assimilate_news(kept, bound, limit, fact);
    }
}

// Keeps a fact that no kept fact subsumes.
#[inline(always)]
fn assimilate_news<C: Content, S: Support, A: Allocator>(
    kept: &mut Vec<Held<C, S>, A>,
    bound: &mut Bound,
    limit: &mut usize,
    fact: &Held<C, S>,
)
    requires kinds { AreOfKind (kind_of fact.now.info) kept.old.items }
    requires bounds { Bounds (kind_of fact.now.info) kept.old.items bound.old }
    requires news { IsSubsumedBy kept.old.items fact.now → ⊥ }
    requires room { vec_len kept.old < vec_capacity kept.old }
    ensures assimilated { current kept.new.items ≡ unsubsumed fact.now (current kept.old.items)
        ++ fact.now ∷ [] }
    ensures kinds { AreOfKind (kind_of fact.now.info) kept.new.items }
    ensures bounds { Bounds (kind_of fact.now.info) kept.new.items bound.new }
    ensures len { vec_len kept.new ≤ vec_len kept.old + 1 }
    ensures capacity { vec_capacity kept.old ≤ vec_capacity kept.new }
{
    if kept.len() == 1 && fact.subsumes(&kept[0]) {
        replace_only(kept, bound, fact);
        return;
    }
    push_news(kept, bound, limit, fact);
}

// Puts a fact in the place of the only one of the list, which it subsumes. A cell that is narrowed step
// by step has one fact, and most of its facts take this way.
#[inline(always)]
fn replace_only<C: Content, S: Support, A: Allocator>(
    kept: &mut Vec<Held<C, S>, A>,
    bound: &mut Bound,
    fact: &Held<C, S>,
)
    requires only { length kept.old.items ≡ 1 }
    requires bounds { Bounds (kind_of fact.now.info) kept.old.items bound.old }
    ensures items { kept.new.items ≡ fact.now ∷ [] }
    ensures bounds { Bounds (kind_of fact.now.info) kept.new.items bound.new }
    ensures len { vec_len kept.new ≡ vec_len kept.old }
    ensures capacity { vec_capacity kept.new ≡ vec_capacity kept.old }
{
    bound.lower(1);
    kept[0] = *fact;
}

// Makes way for a fact that no kept one subsumes, and appends it.
#[inline(always)]
fn push_news<C: Content, S: Support, A: Allocator>(
    kept: &mut Vec<Held<C, S>, A>,
    bound: &mut Bound,
    limit: &mut usize,
    fact: &Held<C, S>,
)
    requires kinds { AreOfKind (kind_of fact.now.info) kept.old.items }
    requires bounds { Bounds (kind_of fact.now.info) kept.old.items bound.old }
    requires news { IsSubsumedBy kept.old.items fact.now → ⊥ }
    requires room { vec_len kept.old < vec_capacity kept.old }
    ensures assimilated { current kept.new.items ≡ unsubsumed fact.now (current kept.old.items)
        ++ fact.now ∷ [] }
    ensures kinds { AreOfKind (kind_of fact.now.info) kept.new.items }
    ensures bounds { Bounds (kind_of fact.now.info) kept.new.items bound.new }
    ensures len { vec_len kept.new ≤ vec_len kept.old + 1 }
    ensures capacity { vec_capacity kept.old ≤ vec_capacity kept.new }
{
    // The address of a copy is taken, so that the caller's value can stay in registers.
    let copy = *fact;
    shorten(kept, bound, limit);
    make_way(kept, bound, &copy);
    append(kept, &copy);
    bound.raise(kept.as_slice());
}

// Drops the facts that a later one outdoes, if the list is long. The limit is then four times its
// length.
#[inline(always)]
fn shorten<C: Content, S: Support, A: Allocator>(
    kept: &mut Vec<Held<C, S>, A>,
    bound: &mut Bound,
    limit: &mut usize,
)
    requires kinds { AreOfKind (kind_of bound.old.info) kept.old.items }
    requires bounds { Bounds (kind_of bound.old.info) kept.old.items bound.old }
    ensures current { current kept.new.items ≡ current kept.old.items }
    ensures kinds { AreOfKind (kind_of bound.old.info) kept.new.items }
    ensures bounds { Bounds (kind_of bound.old.info) kept.new.items bound.new }
    ensures len { vec_len kept.new ≤ vec_len kept.old }
    ensures capacity { vec_capacity kept.new ≡ vec_capacity kept.old }
{
    if kept.len() >= *limit {
        let kind = bound.info.kind();
        drop_outdone(kept, kind);
        *bound = Bound::none(kind);
        *limit = kept.len().saturating_mul(4).max(LEAST_LIMIT);
    }
}

// Makes way for a fact that no kept one subsumes. Of few facts, those that it subsumes are dropped.
// Of many, at most one of the last on the same premises is: the others are kept no longer, but stay.
#[inline(always)]
fn make_way<C: Content, S: Support, A: Allocator>(
    kept: &mut Vec<Held<C, S>, A>,
    bound: &mut Bound,
    fact: &Held<C, S>,
)
    requires kinds { AreOfKind (kind_of fact.now.info) kept.old.items }
    requires bounds { Bounds (kind_of fact.now.info) kept.old.items bound.old }
    requires news { IsSubsumedBy kept.old.items fact.now → ⊥ }
    ensures current { current (kept.new.items ++ fact.now ∷ []) ≡ unsubsumed fact.now
        (current kept.old.items) ++ fact.now ∷ [] }
    ensures kinds { AreOfKind (kind_of fact.now.info) kept.new.items }
    ensures bounds { Bounds (kind_of fact.now.info) kept.new.items bound.new }
    ensures len { vec_len kept.new ≤ vec_len kept.old }
    ensures capacity { vec_capacity kept.new ≡ vec_capacity kept.old }
{
    let before = kept.len();
    if before <= FEW {
        drop_subsumed(kept, fact);
    } else {
        drop_last_alike(kept, fact);
    }
    bound.lower(before - kept.len());
}
