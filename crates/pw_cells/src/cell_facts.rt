//! The facts of one cell.

ghost use Rattle.std.specs.Prelude.{◌≡◌, false, IfOk, IfSome, IsTrue, OnOk, OnErr};
ghost use Rattle.pw_info.specs.Information.{kind_of, Implies};
ghost use Rattle.pw_facts.specs.Facts.{IsLeastAbove};
ghost use Rattle.pw_cells.specs.Cells.{fact_on, new_cell, told_of, kept_of};
ghost use Rattle.pw_cells.specs.Changes.{TellsNews};
ghost use Rattle.pw_cells.specs.Shown.{IsKeptOf};
ghost use Rattle.pw_cells.specs.inside.CellChanges.{IsNews, KeepsFact, TellsFact};

use crate::few_facts::FewFacts;
use crate::held::Held;
use crate::many_facts::ManyFacts;
use crate::narrow_fact::NarrowFact;
use crate::one_fact::OneFact;
use pw_facts::Fact;
use pw_info::{Info, Kind};
use pw_kinds::Interval;
use pw_premises::{NarrowSet, PremiseSet};
use std::alloc::{AllocError, Allocator};
use std::marker::Model;

// The facts of a cell. Most cells are never told anything, and keep few facts on premises below 64.
// What other cells need is in a box, so that these take little room.
#[derive(Drop)]
pub(crate) struct CellFacts<A: Allocator> {
    all: Facts<A>,
}

// The facts of a cell, as few or as many. Few ones are held as intervals or as any informations.
#[derive(Drop)]
enum Facts<A: Allocator> {
    One(OneFact<A>),
    FewIntervals(FewFacts<Interval, A>),
    Few(FewFacts<Info, A>),
    Many(Box<ManyFacts<A>, A>),
}

impl<A: Allocator> Model for CellFacts<A> {
    ghost use Rattle.pw_info.specs.contracts.kind.Kind as kinds;
    ghost use Rattle.pw_facts.specs.contracts.fact.Fact as facts;
    ghost use Rattle.pw_cells.specs.Cells.{Cell};
    ghost use Rattle.pw_cells.specs.inside.OneCell.{cell_code};

    ghost Value = { Cell };

    ghost coded = { cell_code kinds.the_row.coded facts.the_row.coded };

    ghost use Rattle.pw_cells.specs.inside.Widths.{cell_of};

    ghost view = { λ a. cell_of a.all };
}

impl<A: Allocator + Copy> CellFacts<A> {
    // A cell about which nothing was told. Takes no memory.
    pub(crate) fn new(alloc: A, kind: Kind) -> CellFacts<A>
        ensures { result ≡ new_cell kind }
    {
        let all = match kind {
            Kind::Interval => Facts::FewIntervals(FewFacts::new(alloc, kind)),
            _ => Facts::Few(FewFacts::new(alloc, kind)),
        };
        CellFacts { all }
    }

    pub(crate) fn kind(&self) -> Kind
        ensures { result ≡ self.now.kind }
    {
        match &self.all {
            Facts::One(one) => one.kind(),
            Facts::FewIntervals(few) => few.kind(),
            Facts::Few(few) => few.kind(),
            Facts::Many(many) => many.kind(),
        }
    }

    // Records that a fact was told, and keeps it. If memory is refused, nothing changes.
    pub(crate) fn tell(&mut self, fact: &Fact) -> Result<(), AllocError>
        requires { kind_of fact.now.info ≡ self.old.kind }
        ensures told { OnOk result (TellsFact fact.now self.old self.new) }
        ensures err { OnErr result (self.new ≡ self.old) }
    {
        let mut many = match &mut self.all {
            Facts::One(one) => boxed_intervals(&one.listed()?)?,
            Facts::FewIntervals(few) => boxed_intervals(few)?,
            Facts::Few(few) => boxed(few)?,
            Facts::Many(many) => return many.tell(fact),
        };
        many.tell(fact)?;
        self.all = Facts::Many(many);
        Ok(())
    }

    // Keeps a fact, and answers whether it was news. If memory is refused, nothing changes.
    pub(crate) fn keep(&mut self, fact: &Fact) -> Result<bool, AllocError>
        requires { kind_of fact.now.info ≡ self.old.kind }
        ensures answer { IfOk result (λ news. TellsNews self.old.kept fact.now news) }
        ensures known { IfOk result (λ news. news ≡ false → self.new ≡ self.old) }
        ensures kept { OnOk result (KeepsFact fact.now self.old self.new) }
        ensures err { OnErr result (self.new ≡ self.old) }
    {
        let mut many = match &mut self.all {
            Facts::One(one) => boxed_intervals(&one.listed()?)?,
            Facts::FewIntervals(few) => boxed_intervals(few)?,
            Facts::Few(few) => boxed(few)?,
            Facts::Many(many) => return many.keep(fact),
        };
        let news = many.keep(fact)?;
        self.all = Facts::Many(many);
        Ok(news)
    }

    // Keeps information that says more than what is kept on these premises. If memory is refused,
    // nothing changes.
    #[inline(always)]
    pub(crate) fn keep_news(&mut self, info: &Info, support: NarrowSet) -> Result<(), AllocError>
        requires { IsNews (fact_on info.now support) self.old }
        ensures kept { OnOk result (KeepsFact (fact_on info.now support) self.old self.new) }
        ensures err { OnErr result (self.new ≡ self.old) }
    {
        if let Facts::Many(many) = &mut self.all {
            return many.keep_news(info, support);
        }
        self.keep_copied_news(info, support)
    }

    // The same, where few facts are kept. Takes the address of a copy only, so that the caller's value
    // can stay in registers.
    #[inline(always)]
    fn keep_copied_news(&mut self, info: &Info, support: NarrowSet) -> Result<(), AllocError>
        requires { IsNews (fact_on info.now support) self.old }
        ensures kept { OnOk result (KeepsFact (fact_on info.now support) self.old self.new) }
        ensures err { OnErr result (self.new ≡ self.old) }
    {
        let copy = info.copied();
        if self.replace_one(&copy, support) {
            return Ok(());
        }
        self.keep_few_news(&copy, support)
    }

    // Replaces the only kept fact by the news, if that subsumes it, and answers whether it did.
    // Otherwise nothing changes. Never inlined: cells with many facts are the fast path.
    #[inline(never)]
    fn replace_one(&mut self, info: &Info, support: NarrowSet) -> bool
        requires { IsNews (fact_on info.now support) self.old }
        ensures kept { IsTrue result → KeepsFact (fact_on info.now support) self.old self.new }
        ensures none { result ≡ false → self.new ≡ self.old }
    {
        let Facts::One(one) = &mut self.all else {
            return false;
        };
        let fact = one.held(info, support);
        one.replace(&fact)
    }

    // Keeps the news in a cell of any form. Never inlined, like `replace_one`.
    #[inline(never)]
    fn keep_few_news(&mut self, info: &Info, support: NarrowSet) -> Result<(), AllocError>
        requires { IsNews (fact_on info.now support) self.old }
        ensures kept { OnOk result (KeepsFact (fact_on info.now support) self.old self.new) }
        ensures err { OnErr result (self.new ≡ self.old) }
    {
        match &mut self.all {
            Facts::One(one) => {
                let fact = one.held(info, support);
                self.all = Facts::FewIntervals(listed_with(one, &fact)?);
                Ok(())
            }
            Facts::FewIntervals(few) => {
                if few.is_empty() {
                    self.all = Facts::One(OneFact::new(few.allocator(), few.held(info, support)));
                    return Ok(());
                }
                if few.has_room() {
                    return few.keep_news(&few.held(info, support));
                }
                self.all = Facts::Many(with_news(boxed_intervals(few)?, info, support)?);
                Ok(())
            }
            Facts::Few(few) => {
                if few.has_room() {
                    return few.keep_news(&few.held(info, support));
                }
                self.all = Facts::Many(with_news(boxed(few)?, info, support)?);
                Ok(())
            }
            Facts::Many(many) => many.keep_news(info, support),
        }
    }

    // Whether there are few told facts to go over.
    #[inline(always)]
    pub(crate) fn is_told_little(&self) -> bool {
        match &self.all {
            Facts::One(_) | Facts::FewIntervals(_) | Facts::Few(_) => true,
            Facts::Many(many) => many.is_told_little(),
        }
    }

    // The merge of the told facts, in a worldview.
    pub(crate) fn told(&self, worldview: &PremiseSet) -> Info
        ensures value { result ≡ told_of self.now worldview.now }
        ensures kind { kind_of result ≡ self.now.kind }
        ensures larger { IsLeastAbove worldview.now (told_of self.now) result }
    {
        match &self.all {
            Facts::One(one) => Info::nothing(one.kind()),
            Facts::FewIntervals(few) => Info::nothing(few.kind()),
            Facts::Few(few) => Info::nothing(few.kind()),
            Facts::Many(many) => many.told(worldview),
        }
    }

    // The merge of the kept facts, in a worldview, with premises that it rests on.
    #[inline(always)]
    pub(crate) fn kept(&mut self, worldview: &PremiseSet) -> Fact
        ensures same { self.new ≡ self.old }
        ensures kept { IsKeptOf self.old worldview.now result }
    {
        match &mut self.all {
            Facts::One(one) => one.kept(worldview).fact(),
            Facts::FewIntervals(few) => few.kept(worldview).fact(),
            Facts::Few(few) => few.kept(worldview).fact(),
            Facts::Many(many) => many.kept(worldview),
        }
    }

    // What `kept` answers, if no premise from 64 on came to the cell.
    #[inline(always)]
    pub(crate) fn kept_narrow(&mut self, worldview: &PremiseSet) -> Option<NarrowFact>
        ensures same { self.new ≡ self.old }
        ensures kept { IfSome result (λ fact. IsKeptOf self.old worldview.now
            (fact_on fact.info fact.support)) }
    {
        match &mut self.all {
            Facts::One(one) => Some(one.kept_narrow(worldview)),
            Facts::FewIntervals(few) => Some(few.kept_narrow(worldview)),
            Facts::Few(few) => Some(few.kept_narrow(worldview)),
            Facts::Many(many) => many.kept_narrow(worldview),
        }
    }

    // Whether more may be kept in the worldview than in the one before, as the supports tell.
    #[inline(always)]
    pub(crate) fn may_show_more(&self, before: &PremiseSet, worldview: &PremiseSet) -> bool
        ensures less { result ≡ false → Implies (kept_of self.now before.now) (kept_of self.now
            worldview.now) }
        ensures told { Implies (kept_of self.now worldview.now) (told_of self.now worldview.now) }
    {
        match &self.all {
            Facts::One(one) => one.may_show_more(before, worldview),
            Facts::FewIntervals(few) => few.may_show_more(before, worldview),
            Facts::Few(few) => few.may_show_more(before, worldview),
            Facts::Many(many) => many.may_show_more(before, worldview),
        }
    }
}

// The same cell, in lists, in a box. Fails only when out of memory.
#[cold]
#[inline(never)]
fn boxed<A: Allocator + Copy>(few: &FewFacts<Info, A>) -> Result<Box<ManyFacts<A>, A>, AllocError>
    ensures { IfOk result (λ many. many.value ≡ few.now) }
{
    let many = ManyFacts::narrow(few.listed()?);
    Ok(Box::new(few.allocator(), many)?)
}

// `boxed` for a cell of intervals.
#[cold]
#[inline(never)]
fn boxed_intervals<A: Allocator + Copy>(
    few: &FewFacts<Interval, A>,
) -> Result<Box<ManyFacts<A>, A>, AllocError>
    ensures { IfOk result (λ many. many.value ≡ few.now) }
{
    let many = ManyFacts::intervals(few.listed()?);
    Ok(Box::new(few.allocator(), many)?)
}

// The one fact of a cell, and one that says more than what is kept on its premises, in a list. Fails
// only when out of memory.
fn listed_with<A: Allocator + Copy>(
    one: &OneFact<A>,
    fact: &Held<Interval, NarrowSet>,
) -> Result<FewFacts<Interval, A>, AllocError>
    requires { IsNews fact.now one.now }
    ensures { IfOk result (λ few. KeepsFact fact.now one.now few) }
{
    let mut few = one.listed()?;
    few.keep_news(fact)?;
    Ok(few)
}

// The facts in a box, with information that says more than what is kept on these premises. Fails
// only when out of memory.
fn with_news<A: Allocator + Copy>(
    mut many: Box<ManyFacts<A>, A>,
    info: &Info,
    support: NarrowSet,
) -> Result<Box<ManyFacts<A>, A>, AllocError>
    requires { IsNews (fact_on info.now support) many.value }
    ensures { IfOk result (λ new. KeepsFact (fact_on info.now support) many.value new.value) }
{
    many.keep_news(info, support)?;
    Ok(many)
}
