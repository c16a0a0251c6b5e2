//! The one fact kept of a cell about an interval, about which nothing was told.

ghost use Rattle.std.specs.Prelude.{◌≡◌, ◌∷◌, [], false, IfOk, IsTrue};
ghost use Rattle.pw_info.specs.declared.kind.Kind.TheVariants as kinds;
ghost use Rattle.pw_info.specs.Information.{kind_of, Implies};
ghost use Rattle.pw_cells.specs.Cells.{fact_on, told_of, kept_of};
ghost use Rattle.pw_cells.specs.Shown.{IsKeptOf};
ghost use Rattle.pw_cells.specs.inside.CellChanges.{IsNews, KeepsFact};
ghost use Rattle.pw_cells.specs.inside.OneCell.{cell_keeping};

use crate::few_facts::FewFacts;
use crate::held::Held;
use crate::merged_facts::merged_few;
use crate::narrow_fact::NarrowFact;
use crate::visible_facts::any_comes_in;
use pw_info::{Info, Kind};
use pw_kinds::Interval;
use pw_premises::{NarrowSet, PremiseSet};
use std::alloc::{AllocError, Allocator};
use std::marker::Model;
use std::slice;

// The one fact kept of a cell about an interval, about which nothing was told. It lies in the cell
// itself: of most inner cells no more is kept.
#[derive(Drop)]
pub(crate) struct OneFact<A: Allocator> {
    kept: Held<Interval, NarrowSet>,
    alloc: A,
}

impl<A: Allocator> Model for OneFact<A> {
    ghost use Rattle.std.specs.Prelude.{◌∷◌, []};
    ghost use Rattle.pw_info.specs.contracts.kind.Kind as kinds;
    ghost use Rattle.pw_info.specs.declared.kind.Kind.TheVariants as kind;
    ghost use Rattle.pw_facts.specs.contracts.fact.Fact as facts;
    ghost use Rattle.pw_cells.specs.Cells.{Cell};
    ghost use Rattle.pw_cells.specs.inside.OneCell.{IsCellWhole, cell_code, cell_keeping};

    ghost Value = { Cell };

    ghost coded = { cell_code kinds.the_row.coded facts.the_row.coded };

    ghost view = { λ a. cell_keeping kind.Interval (a.kept ∷ []) };

    ghost invariant = { λ a. IsCellWhole kind.Interval [] (a.kept ∷ []) [] };
}

impl<A: Allocator + Copy> OneFact<A> {
    // A cell of which this fact is kept, and about which nothing was told.
    #[inline(always)]
    pub(crate) fn new(alloc: A, kept: Held<Interval, NarrowSet>) -> OneFact<A>
        requires { kind_of kept.info ≡ kinds.Interval }
        ensures { result ≡ cell_keeping kinds.Interval (kept ∷ []) }
    {
        OneFact { kept, alloc }
    }

    #[inline(always)]
    pub(crate) fn kind(&self) -> Kind
        ensures kind { result ≡ self.now.kind }
        // Nothing was told.
        ensures told { self.now.told ≡ [] }
    {
        self.kept.info().kind()
    }

    // A fact of its kind, as it is held.
    #[inline(always)]
    pub(crate) fn held(&self, info: &Info, support: NarrowSet) -> Held<Interval, NarrowSet>
        requires { kind_of info.now ≡ self.now.kind }
        ensures { result ≡ fact_on info.now support }
    {
        // The cell is about an interval.
        let _kept = &self.kept;
        Held::on(info, support)
    }

    // Keeps a fact that says more than what is kept on its premises, if it subsumes the one kept, and
    // answers whether it did. Otherwise nothing changes.
    #[inline(always)]
    pub(crate) fn replace(&mut self, fact: &Held<Interval, NarrowSet>) -> bool
        requires { IsNews fact.now self.old }
        ensures kept { IsTrue result → KeepsFact fact.now self.old self.new }
        ensures none { result ≡ false → self.new ≡ self.old }
    {
        let is_subsumed = fact.subsumes(&self.kept);
        if is_subsumed {
            self.kept = *fact;
        }
        is_subsumed
    }

    // The merge of the kept facts, in a worldview, with premises that it rests on.
    #[inline(always)]
    pub(crate) fn kept(&self, worldview: &PremiseSet) -> Held<Interval, NarrowSet>
        ensures { IsKeptOf self.now worldview.now result }
    {
        merged_few(Kind::Interval, slice::from_ref(&self.kept), worldview)
    }

    // The same, as a `NarrowFact`.
    #[inline(always)]
    pub(crate) fn kept_narrow(&self, worldview: &PremiseSet) -> NarrowFact
        ensures { IsKeptOf self.now worldview.now (fact_on result.info result.support) }
    {
        self.kept(worldview).narrow()
    }

    // Whether more may be kept in the worldview than in the one before, as the supports tell.
    #[inline(always)]
    pub(crate) fn may_show_more(&self, before: &PremiseSet, worldview: &PremiseSet) -> bool
        ensures less { result ≡ false → Implies (kept_of self.now before.now) (kept_of self.now
            worldview.now) }
        ensures told { Implies (kept_of self.now worldview.now) (told_of self.now worldview.now) }
    {
        any_comes_in(slice::from_ref(&self.kept), before, worldview)
    }

    // The same cell, with a list. Fails only when out of memory.
    pub(crate) fn listed(&self) -> Result<FewFacts<Interval, A>, AllocError>
        ensures { IfOk result (λ few. few ≡ self.now) }
    {
        FewFacts::keeping(self.alloc, Kind::Interval, &self.kept)
    }
}
