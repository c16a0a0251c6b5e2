//! The facts of one cell, in one form, with supports of one width.

ghost use Rattle.std.specs.Prelude.{◌≡◌, ◌+◌, ◌<◌, ◌≤◌, ◌++◌, ◌∷◌, [], true, false};
ghost use Rattle.std.specs.Prelude.{if◌then◌else◌};
ghost use Rattle.std.specs.Prelude.{length, vec_len, vec_capacity, IsTrue, IfOk, OnOk, OnErr};
ghost use Rattle.pw_info.specs.Information.{kind_of, Implies};
ghost use Rattle.pw_facts.specs.Facts.{IsLeastAbove};
ghost use Rattle.pw_cells.specs.Shown.{IsKeptOf};
ghost use Rattle.pw_cells.specs.inside.OneCell.{Bounds};
ghost use Rattle.pw_cells.specs.Cells.{fact_on, told_of, kept_of, IsSubsumedBy};
ghost use Rattle.pw_cells.specs.Changes.{TellsNews};
ghost use Rattle.pw_cells.specs.inside.CellChanges.{IsNews, KeepsFact, TellsFact};
ghost use Rattle.pw_cells.specs.Cells.{all_assimilated};
ghost use Rattle.pw_cells.specs.inside.OneCell.{AreOfKind, IsCellWhole, current};
ghost use Rattle.pw_cells.specs.inside.OneCell.{cell_keeping};

use crate::assimilating::{LEAST_LIMIT, assimilate, assimilate_late, is_subsumed};
use crate::bound::Bound;
use crate::content::Content;
use crate::held::Held;
use crate::merged_facts::merged;
use crate::support::Support;
use crate::told_facts::ToldFacts;
use crate::visible_facts::any_comes_in;
use pw_info::{Info, Kind};
use pw_premises::PremiseSet;
use std::alloc::{AllocError, Allocator};
use std::marker::Model;

// A tell looks at this many of the late facts, so that a fact told again and again is not held as
// often.
const FEW: usize = 8;

// When as many facts are late, and few are kept, the late ones are assimilated.
const MOST_LATE: usize = 64;

// A cell's kind, the facts told about it, and the facts kept of it. Facts told under one support
// are held as one fact, their meet, so asking for them costs no more for a cell that was told
// often. Told facts are assimilated late: when the kept facts are first asked for, or when many were
// told while few are kept. So no tell walks over many facts.
#[derive(Drop)]
pub(crate) struct FactLists<C: Content, S: Support, A: Allocator> {
    kind: Kind,
    told: ToldFacts<S, A>,
    // The kept facts, except for the late ones, and perhaps some that a later one outdoes: those are
    // kept no longer, and stay until the list is long. It has room for the late ones.
    kept: Vec<Held<C, S>, A>,
    // A bound on what the older ones of the list say.
    bound: Bound,
    // When the list is as long as this, those that a later one outdoes are dropped.
    limit: usize,
    // The facts told since, which are not assimilated yet.
    late: Vec<Held<C, S>, A>,
}

impl<C: Content, S: Support, A: Allocator> Model for FactLists<C, S, A> {
    ghost use Rattle.std.specs.Prelude.{◌≡◌, ◌+◌, ◌≤◌, true, vec_len, vec_capacity};
    ghost use Rattle.pw_info.specs.contracts.kind.Kind as kinds;
    ghost use Rattle.pw_facts.specs.contracts.fact.Fact as facts;
    ghost use Rattle.pw_cells.specs.Cells.{all_assimilated};
    ghost use Rattle.pw_cells.specs.inside.OneCell.{AreOfKind, Bounds, current};
    ghost use Rattle.pw_cells.specs.Cells.{Cell};
    ghost use Rattle.pw_cells.specs.inside.OneCell.{cell_code};
    ghost use Rattle.pw_cells.specs.inside.OneCell.{IsCellWhole};

    ghost Value = { Cell };

    ghost coded = { cell_code kinds.the_row.coded facts.the_row.coded };

    ghost view = { λ a. record {
      kind = a.kind;
      told = a.told;
      kept = all_assimilated (current a.kept.items) a.late.items;
    } };

    ghost invariant = { λ a. IsCellWhole a.kind a.told (current a.kept.items) a.late.items
        × (vec_len a.kept + vec_len a.late ≤ vec_capacity a.kept) × Bounds a.kind a.kept.items a.bound
        × (C.fits a.kind ≡ true) × AreOfKind a.kind a.kept.items };
}

impl<C: Content, S: Support, A: Allocator + Copy> FactLists<C, S, A> {
    // A cell of which these facts of its kind, none of which subsumes another, are kept, and about
    // which nothing was told. Fails only when out of memory.
    pub(crate) fn keeping(
        alloc: A,
        kind: Kind,
        kept: &[Held<C, S>],
    ) -> Result<FactLists<C, S, A>, AllocError>
        requires whole { IsCellWhole kind [] kept.now [] }
        requires fits { C.fits kind ≡ true }
        ensures { IfOk result (λ lists. lists ≡ cell_keeping kind kept.now) }
    {
        Ok(FactLists {
            kind,
            told: ToldFacts::new(alloc),
            kept: copied(alloc, kept)?,
            bound: Bound::none(kind),
            limit: LEAST_LIMIT,
            late: Vec::new(alloc),
        })
    }

    pub(crate) fn kind(&self) -> Kind
        ensures { result ≡ self.now.kind }
    {
        self.kind
    }

    // A fact of their kind, as these lists hold it.
    #[inline(always)]
    pub(crate) fn held(&self, info: &Info, support: S) -> Held<C, S>
        requires { kind_of info.now ≡ self.now.kind }
        ensures { result ≡ fact_on info.now (S.premises support) }
    {
        // The form fits the kind.
        let _kind = self.kind;
        Held::on(info, support)
    }

    // Records that a fact was told, and keeps it. If memory is refused, nothing changes.
    pub(crate) fn tell(&mut self, fact: &Held<C, S>) -> Result<(), AllocError>
        requires { kind_of fact.now.info ≡ self.old.kind }
        ensures told { OnOk result (TellsFact fact.now self.old self.new) }
        ensures err { OnErr result (self.new ≡ self.old) }
    {
        self.shorten_late();
        self.tell_late(fact)
    }

    // Assimilates the late facts if many are late and few are kept. Otherwise a cell that is told again
    // and again, and never asked for what is kept, would hold every fact that it was told.
    #[inline(always)]
    fn shorten_late(&mut self)
        ensures { self.new ≡ self.old }
    {
        if self.late.len() >= MOST_LATE && self.kept.len() < LEAST_LIMIT {
            assimilate_late(
                self.kind,
                &mut self.kept,
                &mut self.bound,
                &mut self.limit,
                &mut self.late,
            );
        }
    }

    // Records that a fact was told, and adds it to the late ones. If memory is refused, nothing
    // changes.
    #[inline(always)]
    fn tell_late(&mut self, fact: &Held<C, S>) -> Result<(), AllocError>
        requires { kind_of fact.now.info ≡ self.old.kind }
        ensures told { OnOk result (TellsFact fact.now self.old self.new) }
        ensures err { OnErr result (self.new ≡ self.old) }
    {
        let known = is_lately_subsumed(self.late.as_slice(), fact);
        // All growths come first, so that a refused growth changes nothing.
        reserve_late(&mut self.kept, &mut self.late, known)?;
        self.told.add(fact)?;
        add_late(&mut self.late, known, fact);
        Ok(())
    }

    // Keeps a fact, and answers whether it was news. If memory is refused, nothing changes.
    pub(crate) fn keep(&mut self, fact: &Held<C, S>) -> Result<bool, AllocError>
        requires { kind_of fact.now.info ≡ self.old.kind }
        ensures answer { IfOk result (λ news. TellsNews self.old.kept fact.now news) }
        ensures known { IfOk result (λ news. news ≡ false → self.new ≡ self.old) }
        ensures kept { OnOk result (KeepsFact fact.now self.old self.new) }
        ensures err { OnErr result (self.new ≡ self.old) }
    {
        assimilate_late(
            self.kind,
            &mut self.kept,
            &mut self.bound,
            &mut self.limit,
            &mut self.late,
        );
        let known = is_subsumed(self.kept.as_slice(), &self.bound, fact);
        reserve_unless(&mut self.kept, known)?;
        assimilate(
            &mut self.kept,
            &mut self.bound,
            &mut self.limit,
            known,
            fact,
        );
        Ok(!known)
    }

    // Keeps a fact that says more than what is kept on its premises: so no kept fact subsumes it. If
    // memory is refused, nothing changes.
    #[inline(always)]
    pub(crate) fn keep_news(&mut self, fact: &Held<C, S>) -> Result<(), AllocError>
        requires { IsNews fact.now self.old }
        ensures kept { OnOk result (KeepsFact fact.now self.old self.new) }
        ensures err { OnErr result (self.new ≡ self.old) }
    {
        assimilate_late(
            self.kind,
            &mut self.kept,
            &mut self.bound,
            &mut self.limit,
            &mut self.late,
        );
        reserve_unless(&mut self.kept, false)?;
        assimilate(
            &mut self.kept,
            &mut self.bound,
            &mut self.limit,
            false,
            fact,
        );
        Ok(())
    }

    // Whether there are few told facts to go over.
    #[inline(always)]
    pub(crate) fn is_told_little(&self) -> bool {
        self.told.are_few()
    }

    // The merge of the told facts, in a worldview.
    pub(crate) fn told(&self, worldview: &PremiseSet) -> Info
        ensures value { result ≡ told_of self.now worldview.now }
        ensures kind { kind_of result ≡ self.now.kind }
        ensures larger { IsLeastAbove worldview.now (told_of self.now) result }
    {
        self.told.shown(self.kind, worldview)
    }

    // The merge of the kept facts, in a worldview, with premises that it rests on. The late facts
    // are assimilated first.
    #[inline(always)]
    pub(crate) fn kept(&mut self, worldview: &PremiseSet) -> Held<C, S>
        ensures same { self.new ≡ self.old }
        ensures kept { IsKeptOf self.old worldview.now result }
    {
        assimilate_late(
            self.kind,
            &mut self.kept,
            &mut self.bound,
            &mut self.limit,
            &mut self.late,
        );
        merged(self.kind, self.kept.as_slice(), &self.bound, worldview)
    }

    // Whether more may be kept in the worldview than in the one before, as the supports tell. Late
    // facts are asked as well, and none is assimilated.
    #[inline(always)]
    pub(crate) fn may_show_more(&self, before: &PremiseSet, worldview: &PremiseSet) -> bool
        ensures less { result ≡ false → Implies (kept_of self.now before.now) (kept_of self.now
            worldview.now) }
        ensures told { Implies (kept_of self.now worldview.now) (told_of self.now worldview.now) }
    {
        if any_comes_in(self.kept.as_slice(), before, worldview) {
            return true;
        }
        any_comes_in(self.late.as_slice(), before, worldview)
    }

    // The same cell, with supports of any premises. Fails only when out of memory.
    pub(crate) fn widened(&self) -> Result<FactLists<Info, PremiseSet, A>, AllocError>
        ensures { IfOk result (λ wide. wide ≡ self.now) }
    {
        let alloc = *self.kept.allocator();
        Ok(FactLists {
            kind: self.kind,
            told: self.told.widened(alloc)?,
            kept: all_widened(
                alloc,
                self.kept.as_slice(),
                self.kept.len() + self.late.len(),
            )?,
            bound: self.bound,
            limit: self.limit,
            late: all_widened(alloc, self.late.as_slice(), self.late.len())?,
        })
    }
}

// The same facts. Fails only when out of memory.
fn copied<C: Content, S: Support, A: Allocator>(
    alloc: A,
    facts: &[Held<C, S>],
) -> Result<Vec<Held<C, S>, A>, AllocError>
    ensures { IfOk result (λ copy. copy.items ≡ facts.now) }
{
    let mut copy = Vec::new(alloc);
    copy.extend_from_slice(facts)?;
    Ok(copy)
}

// The same facts, with supports of any premises, and room for this many. Fails only when out of
// memory.
pub(crate) fn all_widened<C: Content, S: Support, A: Allocator>(
    alloc: A,
    facts: &[Held<C, S>],
    room: usize,
) -> Result<Vec<Held<Info, PremiseSet>, A>, AllocError>
    requires { length facts.now ≤ room }
    ensures items { IfOk result (λ wide. wide.items ≡ facts.now) }
    ensures room { IfOk result (λ wide. room ≤ vec_capacity wide) }
{
    let mut wide = Vec::with_capacity(alloc, room)?;
    for held in facts {
        append(&mut wide, &held.widened());
    }
    Ok(wide)
}

// Whether one of the last few facts subsumes this one. Inlined, like `assimilate`.
#[inline(always)]
fn is_lately_subsumed<C: Content, S: Support>(facts: &[Held<C, S>], fact: &Held<C, S>) -> bool
    requires { AreOfKind (kind_of fact.now.info) facts.now }
    ensures { IsTrue result → IsSubsumedBy facts.now fact.now }
{
    let len = facts.len();
    for back in 1..=len.min(FEW) {
        if facts[len - back].subsumes(fact) {
            return true;
        }
    }
    false
}

// Makes room for one more fact, unless the fact is known. A list begins with room for two: a fact
// mostly subsumes the one before it, so most lists have no more.
pub(crate) fn reserve_unless<C: Content, S: Support, A: Allocator>(
    facts: &mut Vec<Held<C, S>, A>,
    known: bool,
) -> Result<(), AllocError>
    ensures items { facts.new.items ≡ facts.old.items }
    ensures room { OnOk result (known ≡ false → vec_len facts.new < vec_capacity facts.new) }
{
    if known {
        return Ok(());
    }
    if facts.is_empty() {
        return facts.reserve_exact(2);
    }
    facts.reserve(1)
}

// Makes room for one more late fact, and for all late facts among the kept ones, unless the fact is
// known.
fn reserve_late<C: Content, S: Support, A: Allocator>(
    kept: &mut Vec<Held<C, S>, A>,
    late: &mut Vec<Held<C, S>, A>,
    known: bool,
) -> Result<(), AllocError>
    requires { vec_len kept.old + vec_len late.old ≤ vec_capacity kept.old }
    ensures kept { kept.new.items ≡ kept.old.items }
    ensures late { late.new.items ≡ late.old.items }
    ensures room { vec_len kept.new + vec_len late.new ≤ vec_capacity kept.new }
    ensures more { OnOk result (known ≡ false → vec_len kept.new + vec_len late.new < vec_capacity
        kept.new) }
    ensures late_room { OnOk result (known ≡ false → vec_len late.new < vec_capacity late.new) }
{
    if known {
        return Ok(());
    }
    kept.reserve(late.len() + 1)?;
    late.reserve(1)
}

// Adds a fact to the late ones, where there is room, unless the fact is known.
fn add_late<C: Content, S: Support, A: Allocator>(
    late: &mut Vec<Held<C, S>, A>,
    known: bool,
    fact: &Held<C, S>,
)
    requires { known ≡ false → vec_len late.old < vec_capacity late.old }
    ensures items { late.new.items ≡ (if known then late.old.items else late.old.items ++ fact.now ∷
        []) }
    ensures known { known ≡ true → vec_len late.new ≡ vec_len late.old }
    ensures len { vec_len late.new ≤ vec_len late.old + 1 }
{
    if known {
        return;
    }
    append(late, fact);
}

// Appends a fact where there is room.
#[inline(always)]
pub(crate) fn append<C: Content, S: Support, A: Allocator>(
    facts: &mut Vec<Held<C, S>, A>,
    fact: &Held<C, S>,
)
    requires { vec_len facts.old < vec_capacity facts.old }
    ensures items { facts.new.items ≡ facts.old.items ++ fact.now ∷ [] }
    ensures capacity { vec_capacity facts.old ≤ vec_capacity facts.new }
{
    facts.push_reserved(*fact);
}
