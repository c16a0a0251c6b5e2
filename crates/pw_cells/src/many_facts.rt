//! The facts of a cell about which something was told, or of which several are kept.

ghost use Rattle.std.specs.Prelude.{◌≡◌, false, IfOk, IfSome, OnOk, OnErr};
ghost use Rattle.pw_info.specs.Information.{kind_of, Implies};
ghost use Rattle.pw_facts.specs.Facts.{IsLeastAbove};
ghost use Rattle.pw_cells.specs.Cells.{fact_on, told_of, kept_of};
ghost use Rattle.pw_cells.specs.Changes.{TellsNews};
ghost use Rattle.pw_cells.specs.Shown.{IsKeptOf};
ghost use Rattle.pw_cells.specs.inside.CellChanges.{IsNews, KeepsFact, TellsFact};

use crate::fact_lists::FactLists;
use crate::held::Held;
use crate::narrow_fact::NarrowFact;
use pw_facts::Fact;
use pw_info::{Info, Kind};
use pw_kinds::Interval;
use pw_premises::{NarrowSet, PremiseSet};
use std::alloc::{AllocError, Allocator};
use std::marker::Model;

// The facts of a cell. As long as no premise from 64 on came to it, each support takes one word.
#[derive(Drop)]
pub(crate) struct ManyFacts<A: Allocator> {
    lists: Lists<A>,
}

// The lists of a cell's facts: of intervals or of any informations, in one width or the other.
#[derive(Drop)]
enum Lists<A: Allocator> {
    Intervals(FactLists<Interval, NarrowSet, A>),
    Narrow(FactLists<Info, NarrowSet, A>),
    Wide(FactLists<Info, PremiseSet, A>),
}

impl<A: Allocator> Model for ManyFacts<A> {
    ghost use Rattle.pw_info.specs.contracts.kind.Kind as kinds;
    ghost use Rattle.pw_facts.specs.contracts.fact.Fact as facts;
    ghost use Rattle.pw_cells.specs.Cells.{Cell};
    ghost use Rattle.pw_cells.specs.inside.OneCell.{cell_code};

    ghost Value = { Cell };

    ghost coded = { cell_code kinds.the_row.coded facts.the_row.coded };

    ghost use Rattle.pw_cells.specs.inside.Widths.{cell_in};

    ghost view = { λ a. cell_in a.lists };
}

impl<A: Allocator + Copy> ManyFacts<A> {
    // The cell with these lists.
    pub(crate) fn narrow(lists: FactLists<Info, NarrowSet, A>) -> ManyFacts<A>
        ensures { result ≡ lists }
    {
        ManyFacts {
            lists: Lists::Narrow(lists),
        }
    }

    // The cell of intervals with these lists.
    pub(crate) fn intervals(lists: FactLists<Interval, NarrowSet, A>) -> ManyFacts<A>
        ensures { result ≡ lists }
    {
        ManyFacts {
            lists: Lists::Intervals(lists),
        }
    }

    pub(crate) fn kind(&self) -> Kind
        ensures { result ≡ self.now.kind }
    {
        match &self.lists {
            Lists::Intervals(lists) => lists.kind(),
            Lists::Narrow(lists) => lists.kind(),
            Lists::Wide(lists) => lists.kind(),
        }
    }

    // Records that a fact was told, and keeps it. If memory is refused, nothing changes.
    pub(crate) fn tell(&mut self, fact: &Fact) -> Result<(), AllocError>
        requires { kind_of fact.now.info ≡ self.old.kind }
        ensures told { OnOk result (TellsFact fact.now self.old self.new) }
        ensures err { OnErr result (self.new ≡ self.old) }
    {
        if let Some(support) = NarrowSet::of(&fact.support) {
            match &mut self.lists {
                Lists::Intervals(lists) => return lists.tell(&lists.held(&fact.info, support)),
                Lists::Narrow(lists) => return lists.tell(&lists.held(&fact.info, support)),
                Lists::Wide(_) => (),
            }
        }
        self.tell_wide(fact)
    }

    // `tell` for wide lists, or for a fact that makes them wide. Never inlined, like `keep_wide`, so that
    // the stack frame of what is narrow stays small.
    #[cold]
    #[inline(never)]
    fn tell_wide(&mut self, fact: &Fact) -> Result<(), AllocError>
        requires { kind_of fact.now.info ≡ self.old.kind }
        ensures told { OnOk result (TellsFact fact.now self.old self.new) }
        ensures err { OnErr result (self.new ≡ self.old) }
    {
        let held = Held::on(&fact.info, fact.support);
        if let Lists::Wide(lists) = &mut self.lists {
            return lists.tell(&held);
        }
        let mut wide = self.widened()?;
        wide.tell(&held)?;
        self.hold_wide(wide);
        Ok(())
    }

    // Keeps a fact, and answers whether it was news. If memory is refused, nothing changes.
    pub(crate) fn keep(&mut self, fact: &Fact) -> Result<bool, AllocError>
        requires { kind_of fact.now.info ≡ self.old.kind }
        ensures answer { IfOk result (λ news. TellsNews self.old.kept fact.now news) }
        ensures known { IfOk result (λ news. news ≡ false → self.new ≡ self.old) }
        ensures kept { OnOk result (KeepsFact fact.now self.old self.new) }
        ensures err { OnErr result (self.new ≡ self.old) }
    {
        if let Some(support) = NarrowSet::of(&fact.support) {
            match &mut self.lists {
                Lists::Intervals(lists) => return lists.keep(&lists.held(&fact.info, support)),
                Lists::Narrow(lists) => return lists.keep(&lists.held(&fact.info, support)),
                Lists::Wide(_) => (),
            }
        }
        self.keep_wide(fact)
    }

    // Keeps information that says more than what is kept on these premises. If memory is refused,
    // nothing changes.
    #[inline(always)]
    pub(crate) fn keep_news(&mut self, info: &Info, support: NarrowSet) -> Result<(), AllocError>
        requires { IsNews (fact_on info.now support) self.old }
        ensures kept { OnOk result (KeepsFact (fact_on info.now support) self.old self.new) }
        ensures err { OnErr result (self.new ≡ self.old) }
    {
        match &mut self.lists {
            Lists::Intervals(lists) => lists.keep_news(&lists.held(info, support)),
            Lists::Narrow(lists) => lists.keep_news(&lists.held(info, support)),
            Lists::Wide(_) => self.keep_wide_copy(info, support),
        }
    }

    // Keeps news in wide lists. Takes the address of a copy only, so that the caller's value can stay in
    // registers.
    #[inline(always)]
    fn keep_wide_copy(&mut self, info: &Info, support: NarrowSet) -> Result<(), AllocError>
        requires { IsNews (fact_on info.now support) self.old }
        ensures kept { OnOk result (KeepsFact (fact_on info.now support) self.old self.new) }
        ensures err { OnErr result (self.new ≡ self.old) }
    {
        let copy = info.copied();
        self.keep_wide_news(&copy, support)
    }

    // The same. Never inlined, like `keep_wide`, so that the stack frame of what is narrow stays small.
    #[cold]
    #[inline(never)]
    fn keep_wide_news(&mut self, info: &Info, support: NarrowSet) -> Result<(), AllocError>
        requires { IsNews (fact_on info.now support) self.old }
        ensures kept { OnOk result (KeepsFact (fact_on info.now support) self.old self.new) }
        ensures err { OnErr result (self.new ≡ self.old) }
    {
        let fact = Fact {
            info: *info,
            support: support.widen(),
        };
        self.keep_wide(&fact)?;
        Ok(())
    }

    // Keeps a fact in wide lists.
    #[cold]
    #[inline(never)]
    fn keep_wide(&mut self, fact: &Fact) -> Result<bool, AllocError>
        requires { kind_of fact.now.info ≡ self.old.kind }
        ensures answer { IfOk result (λ news. TellsNews self.old.kept fact.now news) }
        ensures known { IfOk result (λ news. news ≡ false → self.new ≡ self.old) }
        ensures kept { OnOk result (KeepsFact fact.now self.old self.new) }
        ensures err { OnErr result (self.new ≡ self.old) }
    {
        let held = Held::on(&fact.info, fact.support);
        if let Lists::Wide(lists) = &mut self.lists {
            return lists.keep(&held);
        }
        let mut wide = self.widened()?;
        let news = wide.keep(&held)?;
        self.hold_wide(wide);
        Ok(news)
    }

    // The same facts, in wide lists. Fails only when out of memory.
    fn widened(&self) -> Result<FactLists<Info, PremiseSet, A>, AllocError>
        ensures { IfOk result (λ wide. wide ≡ self.now) }
    {
        match &self.lists {
            Lists::Intervals(lists) => lists.widened(),
            Lists::Narrow(lists) => lists.widened(),
            Lists::Wide(lists) => lists.widened(),
        }
    }

    // Holds these wide lists instead of its own.
    #[inline(always)]
    fn hold_wide(&mut self, wide: FactLists<Info, PremiseSet, A>)
        ensures { self.new ≡ wide }
    {
        self.lists = Lists::Wide(wide);
    }

    // Whether there are few told facts to go over.
    #[inline(always)]
    pub(crate) fn is_told_little(&self) -> bool {
        match &self.lists {
            Lists::Intervals(lists) => lists.is_told_little(),
            Lists::Narrow(lists) => lists.is_told_little(),
            Lists::Wide(lists) => lists.is_told_little(),
        }
    }

    // The merge of the told facts, in a worldview.
    pub(crate) fn told(&self, worldview: &PremiseSet) -> Info
        ensures value { result ≡ told_of self.now worldview.now }
        ensures kind { kind_of result ≡ self.now.kind }
        ensures larger { IsLeastAbove worldview.now (told_of self.now) result }
    {
        match &self.lists {
            Lists::Intervals(lists) => lists.told(worldview),
            Lists::Narrow(lists) => lists.told(worldview),
            Lists::Wide(lists) => lists.told(worldview),
        }
    }

    // The merge of the kept facts, in a worldview, with premises that it rests on.
    #[inline(always)]
    pub(crate) fn kept(&mut self, worldview: &PremiseSet) -> Fact
        ensures same { self.new ≡ self.old }
        ensures kept { IsKeptOf self.old worldview.now result }
    {
        match &mut self.lists {
            Lists::Intervals(lists) => lists.kept(worldview).fact(),
            Lists::Narrow(lists) => lists.kept(worldview).fact(),
            Lists::Wide(lists) => lists.kept(worldview).fact(),
        }
    }

    // What `kept` answers, if the lists are narrow.
    #[inline(always)]
    pub(crate) fn kept_narrow(&mut self, worldview: &PremiseSet) -> Option<NarrowFact>
        ensures same { self.new ≡ self.old }
        ensures kept { IfSome result (λ fact. IsKeptOf self.old worldview.now
            (fact_on fact.info fact.support)) }
    {
        match &mut self.lists {
            Lists::Intervals(lists) => Some(lists.kept(worldview).narrow()),
            Lists::Narrow(lists) => Some(lists.kept(worldview).narrow()),
            Lists::Wide(_) => None,
        }
    }

    // Whether more may be kept in the worldview than in the one before, as the supports tell.
    #[inline(always)]
    pub(crate) fn may_show_more(&self, before: &PremiseSet, worldview: &PremiseSet) -> bool
        ensures less { result ≡ false → Implies (kept_of self.now before.now) (kept_of self.now
            worldview.now) }
        ensures told { Implies (kept_of self.now worldview.now) (told_of self.now worldview.now) }
    {
        match &self.lists {
            Lists::Intervals(lists) => lists.may_show_more(before, worldview),
            Lists::Narrow(lists) => lists.may_show_more(before, worldview),
            Lists::Wide(lists) => may_show_more_wide(lists, before, worldview),
        }
    }
}

// `may_show_more` of wide lists. Never inlined, so that the tests of narrow supports stay short.
#[cold]
#[inline(never)]
fn may_show_more_wide<A: Allocator + Copy>(
    lists: &FactLists<Info, PremiseSet, A>,
    before: &PremiseSet,
    worldview: &PremiseSet,
) -> bool
    ensures less { result ≡ false → Implies (kept_of lists.now before.now) (kept_of lists.now
        worldview.now) }
    ensures told { Implies (kept_of lists.now worldview.now) (told_of lists.now worldview.now) }
{
    lists.may_show_more(before, worldview)
}
