//! The few facts kept of a cell about which nothing was told.

ghost use Rattle.std.specs.Prelude.{◌≡◌, ◌∷◌, [], true, false, IfOk, OnOk, OnErr};
ghost use Rattle.pw_info.specs.Information.{kind_of, nothing, Implies};
ghost use Rattle.pw_cells.specs.Cells.{fact_on, new_cell, told_of, kept_of};
ghost use Rattle.pw_cells.specs.Shown.{IsKeptOf};
ghost use Rattle.pw_cells.specs.inside.CellChanges.{IsNews, KeepsFact};
ghost use Rattle.pw_cells.specs.inside.OneCell.{cell_keeping};

use crate::content::Content;
use crate::fact_lists::{FactLists, append, reserve_unless};
use crate::held::Held;
use crate::merged_facts::merged_few;
use crate::narrow_fact::NarrowFact;
use crate::subsumed_facts::drop_subsumed;
use crate::visible_facts::any_comes_in;
use pw_info::{Info, Kind};
use pw_premises::{NarrowSet, PremiseSet};
use std::alloc::{AllocError, Allocator};
use std::marker::Model;

// This many facts are few.
const FEW: usize = 8;

// The facts kept of a cell about which nothing was told. They are few: so they need no bound.
#[derive(Drop)]
pub(crate) struct FewFacts<C: Content, A: Allocator> {
    kept: Vec<Held<C, NarrowSet>, A>,
    kind: Kind,
}

impl<C: Content, A: Allocator> Model for FewFacts<C, A> {
    ghost use Rattle.std.specs.Prelude.{◌≡◌, [], true};
    ghost use Rattle.pw_info.specs.contracts.kind.Kind as kinds;
    ghost use Rattle.pw_facts.specs.contracts.fact.Fact as facts;
    ghost use Rattle.pw_cells.specs.Cells.{Cell};
    ghost use Rattle.pw_cells.specs.inside.OneCell.{cell_code};
    ghost use Rattle.pw_cells.specs.inside.OneCell.{IsCellWhole};

    ghost Value = { Cell };

    ghost coded = { cell_code kinds.the_row.coded facts.the_row.coded };

    ghost view = { λ a. record { kind = a.kind; told = []; kept = a.kept.items } };

    ghost invariant = { λ a. IsCellWhole a.kind [] a.kept.items [] × (C.fits a.kind ≡ true) };
}

impl<C: Content, A: Allocator + Copy> FewFacts<C, A> {
    // A cell about which nothing was told. Takes no memory.
    pub(crate) fn new(alloc: A, kind: Kind) -> FewFacts<C, A>
        requires { C.fits kind ≡ true }
        ensures { result ≡ new_cell kind }
    {
        FewFacts {
            kept: Vec::new(alloc),
            kind,
        }
    }

    // A cell of which one fact of its kind is kept. Fails only when out of memory.
    pub(crate) fn keeping(
        alloc: A,
        kind: Kind,
        fact: &Held<C, NarrowSet>,
    ) -> Result<FewFacts<C, A>, AllocError>
        requires kind { kind_of fact.now.info ≡ kind }
        requires fits { C.fits kind ≡ true }
        ensures { IfOk result (λ few. few ≡ cell_keeping kind (fact.now ∷ [])) }
    {
        let mut kept = Vec::new(alloc);
        reserve_unless(&mut kept, false)?;
        append(&mut kept, fact);
        Ok(FewFacts { kept, kind })
    }

    pub(crate) fn allocator(&self) -> A {
        *self.kept.allocator()
    }

    #[inline(always)]
    pub(crate) fn kind(&self) -> Kind
        ensures kind { result ≡ self.now.kind }
        // Nothing was told.
        ensures told { self.now.told ≡ [] }
    {
        self.kind
    }

    // A fact of their kind, as they hold it.
    #[inline(always)]
    pub(crate) fn held(&self, info: &Info, support: NarrowSet) -> Held<C, NarrowSet>
        requires { kind_of info.now ≡ self.now.kind }
        ensures { result ≡ fact_on info.now support }
    {
        // The form fits the kind.
        let _kind = self.kind;
        Held::on(info, support)
    }

    // Whether no fact is kept.
    #[inline(always)]
    pub(crate) fn is_empty(&self) -> bool
        ensures { result ≡ true → self.now.kept ≡ [] }
    {
        self.kept.is_empty()
    }

    // Whether they are still few with one more.
    #[inline(always)]
    pub(crate) fn has_room(&self) -> bool {
        self.kept.len() < FEW
    }

    // Keeps a fact that says more than what is kept on its premises. If memory is refused, nothing
    // changes.
    #[inline(always)]
    pub(crate) fn keep_news(&mut self, fact: &Held<C, NarrowSet>) -> Result<(), AllocError>
        requires { IsNews fact.now self.old }
        ensures kept { OnOk result (KeepsFact fact.now self.old self.new) }
        ensures err { OnErr result (self.new ≡ self.old) }
    {
        reserve_unless(&mut self.kept, false)?;
        drop_subsumed(&mut self.kept, fact);
        append(&mut self.kept, fact);
        Ok(())
    }

    // The merge of the kept facts, in a worldview, with premises that it rests on.
    #[inline(always)]
    pub(crate) fn kept(&self, worldview: &PremiseSet) -> Held<C, NarrowSet>
        ensures { IsKeptOf self.now worldview.now result }
    {
        merged_few(self.kind, self.kept.as_slice(), worldview)
    }

    // The same, as a `NarrowFact`.
    #[inline(always)]
    pub(crate) fn kept_narrow(&self, worldview: &PremiseSet) -> NarrowFact
        ensures { IsKeptOf self.now worldview.now (fact_on result.info result.support) }
    {
        self.kept(worldview).narrow()
    }

    // Whether more may be kept in the worldview than in the one before, as the supports tell.
    #[inline(always)]
    pub(crate) fn may_show_more(&self, before: &PremiseSet, worldview: &PremiseSet) -> bool
        ensures less { result ≡ false → Implies (kept_of self.now before.now) (kept_of self.now
            worldview.now) }
        ensures told { Implies (kept_of self.now worldview.now) (told_of self.now worldview.now) }
    {
        any_comes_in(self.kept.as_slice(), before, worldview)
    }

    // The same cell, in lists. Fails only when out of memory.
    pub(crate) fn listed(&self) -> Result<FactLists<C, NarrowSet, A>, AllocError>
        ensures { IfOk result (λ lists. lists ≡ self.now) }
    {
        FactLists::keeping(self.allocator(), self.kind, self.kept.as_slice())
    }
}
