//! Facts that are found by their supports, in the order in which the supports came.

ghost use Rattle.std.specs.Prelude.{◌≡◌, [], map, IfOk, OnOk, OnErr};
ghost use Rattle.pw_info.specs.Information.{kind_of, meet};
ghost use Rattle.pw_cells.specs.Cells.{shown_by};
ghost use Rattle.pw_cells.specs.inside.OneCell.{AreOfKind, ShowsMore, place_of_support};

use crate::content::Content;
use crate::held::Held;
use crate::support::Support;
use indexmap::IndexMap;
use pw_info::{Info, Kind};
use pw_premises::PremiseSet;
use std::alloc::{AllocError, Allocator};
use std::hash::{BuildHasherDefault, FoldHasher};
use std::marker::Model;

// Facts, each with a support of its own. Looking one up by its support is fast, however many there
// are. The supports lie side by side, so a walk over them passes quickly over facts that are not
// visible.
#[derive(Drop)]
pub(crate) struct FactsBySupport<S: Support, A: Allocator> {
    // What each fact says, by its support.
    infos: IndexMap<S, Info, BuildHasherDefault<FoldHasher>, A>,
}

impl<S: Support, A: Allocator> Model for FactsBySupport<S, A> {
    ghost use Rattle.std.specs.Prelude.{List};
    ghost use Rattle.std.specs.Coded.{coded_list};
    ghost use Rattle.pw_facts.specs.declared.fact.Fact.{Fact};
    ghost use Rattle.pw_facts.specs.contracts.fact.Fact as facts;
    ghost use Rattle.pw_cells.specs.inside.OneCell.{facts_held};

    ghost Value = { List Fact };

    ghost coded = { coded_list facts.the_row.coded };

    ghost view = { λ a. facts_held S.premises a.infos.entries };
}

impl<S: Support, A: Allocator + Copy> FactsBySupport<S, A> {
    // No facts. Takes no memory.
    pub(crate) fn new(alloc: A) -> FactsBySupport<S, A>
        ensures { result ≡ [] }
    {
        FactsBySupport {
            infos: IndexMap::new(alloc),
        }
    }

    // Whether there are none.
    #[inline(always)]
    pub(crate) fn is_empty(&self) -> bool {
        self.infos.is_empty()
    }

    // Adds a fact of their kind: merges it into the one with the same support, if there is one, and
    // otherwise appends it. Fails only when out of memory; then nothing changes.
    pub(crate) fn add<C: Content>(&mut self, fact: &Held<C, S>) -> Result<(), AllocError>
        requires { AreOfKind (kind_of fact.now.info) self.old }
        ensures kinds { OnOk result (AreOfKind (kind_of fact.now.info) self.new) }
        ensures shown { OnOk result (ShowsMore fact.now self.old self.new) }
        ensures err { OnErr result (self.new ≡ self.old) }
    {
        let support = fact.support();
        match self.place_of(&support) {
            Some(place) => self.infos[place] = self.infos[place].meet(&fact.info()),
            None => {
                self.infos.insert(support, fact.info())?;
            }
        }
        Ok(())
    }

    // The place of the fact with the support, if there is one.
    fn place_of(&self, support: &S) -> Option<usize>
        ensures { result ≡ place_of_support (S.premises support.now) (map (λ f. f.support) self.now) }
    {
        self.infos.get_index_of(support)
    }

    // What the facts together show in a worldview.
    pub(crate) fn shown(&self, kind: Kind, worldview: &PremiseSet) -> Info
        requires { AreOfKind kind self.now }
        ensures { result ≡ shown_by kind worldview.now self.now }
    {
        let supports = self.infos.keys().as_slice();
        let infos = self.infos.values().as_slice();
        let mut info = Info::nothing(kind);
        for place in 0..supports.len() {
            if supports[place].is_within(worldview) {
                narrow(&mut info, &infos[place]);
            }
        }
        info
    }

    // The same facts, with supports of any premises. Fails only when out of memory.
    pub(crate) fn widened(&self, alloc: A) -> Result<FactsBySupport<PremiseSet, A>, AllocError>
        ensures { IfOk result (λ wide. wide ≡ self.now) }
    {
        let supports = self.infos.keys().as_slice();
        let infos = self.infos.values().as_slice();
        let mut wide = IndexMap::new(alloc);
        for place in 0..supports.len() {
            wide.insert(supports[place].widen(), infos[place])?;
        }
        Ok(FactsBySupport { infos: wide })
    }
}

// Merges one more information of the same kind into what is merged so far. Mostly the merge says as
// much already. Then it is unchanged, and nothing is copied.
#[inline(always)]
pub(crate) fn narrow(merge: &mut Info, info: &Info)
    requires { kind_of merge.old ≡ kind_of info.now }
    ensures { merge.new ≡ meet merge.old info.now }
{
    if !merge.implies(info) {
        *merge = merge.meet(info);
    }
}
