//! The facts told about a cell, one for each support.

ghost use Rattle.std.specs.Prelude.{◌≡◌, ◌<◌, ◌≤◌, [], length, slice_index_or, IfOk, OnOk, OnErr};
ghost use Rattle.std.specs.List.{fold};
ghost use Rattle.pw_info.specs.Information.{kind_of, meet};
ghost use Rattle.pw_facts.specs.declared.fact.Fact.{Fact};
ghost use Rattle.pw_facts.specs.Facts.{shows};
ghost use Rattle.pw_cells.specs.Cells.{shown_by};
ghost use Rattle.pw_cells.specs.inside.OneCell.{AreOfKind, ShowsMore};

use crate::content::Content;
use crate::fact_lists::{all_widened, append, reserve_unless};
use crate::facts_by_support::{FactsBySupport, narrow};
use crate::held::Held;
use crate::support::Support;
use pw_info::{Info, Kind};
use pw_premises::PremiseSet;
use std::alloc::{AllocError, Allocator};
use std::marker::Model;

// This many facts are searched one after another, which costs less than hashing a support, and takes
// less memory than what finds facts by it.
const FEW: usize = 8;

// Facts, each with a support of its own. The first few are in a list. The others are found by their
// supports, however many there are.
#[derive(Drop)]
pub(crate) struct ToldFacts<S: Support, A: Allocator> {
    few: Vec<Held<Info, S>, A>,
    others: FactsBySupport<S, A>,
}

impl<S: Support, A: Allocator> Model for ToldFacts<S, A> {
    ghost use Rattle.std.specs.Prelude.{List, ◌++◌};
    ghost use Rattle.std.specs.Coded.{coded_list};
    ghost use Rattle.pw_facts.specs.declared.fact.Fact.{Fact};
    ghost use Rattle.pw_facts.specs.contracts.fact.Fact as facts;

    ghost Value = { List Fact };

    ghost coded = { coded_list facts.the_row.coded };

    ghost view = { λ a. a.others ++ a.few.items };
}

impl<S: Support, A: Allocator + Copy> ToldFacts<S, A> {
    // No facts. Takes no memory.
    pub(crate) fn new(alloc: A) -> ToldFacts<S, A>
        ensures { result ≡ [] }
    {
        ToldFacts {
            few: Vec::new(alloc),
            others: FactsBySupport::new(alloc),
        }
    }

    // Whether they are few.
    #[inline(always)]
    pub(crate) fn are_few(&self) -> bool {
        self.others.is_empty()
    }

    // Adds a fact of their kind: merges it into the one with the same support, if there is one, and
    // otherwise appends it. Fails only when out of memory; then nothing changes.
    pub(crate) fn add<C: Content>(&mut self, fact: &Held<C, S>) -> Result<(), AllocError>
        requires { AreOfKind (kind_of fact.now.info) self.old }
        ensures kinds { OnOk result (AreOfKind (kind_of fact.now.info) self.new) }
        ensures shown { OnOk result (ShowsMore fact.now self.old self.new) }
        ensures err { OnErr result (self.new ≡ self.old) }
    {
        let place = place_of(self.few.as_slice(), &fact.support());
        if place < self.few.len() {
            let info = self.few[place].info().meet(&fact.info());
            self.few[place] = Held::on(&info, fact.support());
            return Ok(());
        }
        if self.few.len() >= FEW {
            self.others.add(fact)?;
            return Ok(());
        }
        reserve_unless(&mut self.few, false)?;
        append(&mut self.few, &Held::on(&fact.info(), fact.support()));
        Ok(())
    }

    // What the facts together show in a worldview.
    pub(crate) fn shown(&self, kind: Kind, worldview: &PremiseSet) -> Info
        requires { AreOfKind kind self.now }
        ensures { result ≡ shown_by kind worldview.now self.now }
    {
        let info = self.others.shown(kind, worldview);
        narrowed(info, self.few.as_slice(), worldview)
    }

    // The same facts, with supports of any premises. Fails only when out of memory.
    pub(crate) fn widened(&self, alloc: A) -> Result<ToldFacts<PremiseSet, A>, AllocError>
        ensures { IfOk result (λ wide. wide ≡ self.now) }
    {
        Ok(ToldFacts {
            few: all_widened(alloc, self.few.as_slice(), self.few.len())?,
            others: self.others.widened(alloc)?,
        })
    }
}

// The place of the first fact with the support. If there is none, the number of facts.
fn place_of<S: Support>(facts: &[Held<Info, S>], support: &S) -> usize
    ensures within { result ≤ length facts.now }
    ensures same { result < length facts.now → (f : Fact) → (slice_index_or facts.now result f).support
        ≡ S.premises support.now }
{
    for place in 0..facts.len() {
        if facts[place].support() == *support {
            return place;
        }
    }
    facts.len()
}

// The information, merged with what the facts of its kind show in the worldview.
fn narrowed<S: Support>(info: Info, facts: &[Held<Info, S>], worldview: &PremiseSet) -> Info
    requires { AreOfKind (kind_of info) facts.now }
    ensures { result ≡ fold (λ merge fact. meet merge (shows worldview.now fact)) info facts.now }
{
    let mut merge = info;
    for held in facts {
        if held.is_visible(worldview) {
            narrow(&mut merge, &held.info());
        }
    }
    merge
}
