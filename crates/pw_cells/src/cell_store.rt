//! The store: cells by number, each with the facts told about it and the facts kept of it.

ghost use Rattle.std.specs.Prelude.{◌≡◌, ◌+◌, ◌≤◌, ◌<◌, ◌++◌, [], true, false, length, map, IsOk};
ghost use Rattle.std.specs.Prelude.{IfOk, IfNone, IfSome, vec_len, vec_capacity, OnOk, OnErr};
ghost use Rattle.std.specs.FinSet.{is_subset};
ghost use Rattle.pw_info.specs.Information.{kind_of, Implies};
ghost use Rattle.pw_premises.specs.Premises.{Premises};
ghost use Rattle.pw_facts.specs.Facts.{IsLeastAbove, IsMostBelow};
ghost use Rattle.pw_cells.specs.Changes.{GainsTold, GainsKept, TellsNews, AssimilatesAt};
ghost use Rattle.pw_cells.specs.Changes.{LeavesOthers};
ghost use Rattle.pw_cells.specs.Cells.{new_cell, kind_in_store, kinds_of, kept_at, told_in};
ghost use Rattle.pw_cells.specs.Cells.{fact_on, kept_in, most_store_cells, ArePremisesOf};
ghost use Rattle.pw_cells.specs.Cells.{IsUnsaid};
ghost use Rattle.pw_cells.specs.Shown.{IsKeptIn};
ghost use Rattle.pw_cells.specs.Arrivals.{Continues, Remembers, mark_of, since};
ghost use Rattle.pw_cells.specs.inside.Lately.{Notes, most_past};

use crate::arrival::Arrival;
use crate::arrivals::Arrivals;
use crate::cell_facts::CellFacts;
use crate::held::Held;
use crate::narrow_fact::NarrowFact;
use crate::recalled::{Answers, Recalled};
use pw_facts::Fact;
use pw_info::{Info, Kind};
use pw_premises::{NarrowSet, PremiseSet};
use std::alloc::{AllocError, Allocator, Global};
use std::marker::Model;

/// Cells, numbered from 0, each with its kind, the facts told about it and the facts kept of it.
///
/// `told` and `kept` give what the store shows in each worldview. A cell keeps no fact that another
/// kept fact subsumes.
#[derive(Drop)]
pub struct CellStore<A: Allocator = Global> {
    cells: Vec<CellFacts<A>, A>,
    // The last answers of `recall` on cells about which much was told.
    recalled: Answers,
    // The facts that came to be kept lately.
    arrivals: Arrivals<A>,
}

impl<A: Allocator> Model for CellStore<A> {
    ghost use Rattle.std.specs.Prelude.{◌-◌, ◌≤◌, IfSome, length, vec_len, vec_capacity};
    ghost use Rattle.pw_info.specs.contracts.kind.Kind as kinds;
    ghost use Rattle.pw_facts.specs.contracts.fact.Fact as facts;
    ghost use Rattle.pw_cells.specs.Cells.{Store, most_store_cells};
    ghost use Rattle.pw_cells.specs.inside.OneCell.{store_code};
    ghost use Rattle.pw_cells.specs.inside.OneCell.{AreRight};

    ghost Value = { Store };

    ghost coded = { store_code kinds.the_row.coded facts.the_row.coded };

    ghost view = { λ a. record {
      cells = a.cells.items;
      room = vec_capacity a.cells - vec_len a.cells;
      arrivals = a.arrivals;
    } };

    ghost invariant = { λ a. (length a.cells.items ≤ most_store_cells) × IfSome a.recalled.slots (AreRight a.cells.items) };
}

impl<A: Allocator + Copy> CellStore<A> {
    /// A store with no cells. Takes no memory.
    pub fn new(alloc: A) -> CellStore<A>
        ensures cells { result.cells ≡ [] }
        ensures arrivals { result.arrivals.list ≡ [] }
    {
        CellStore {
            cells: Vec::new(alloc),
            recalled: Answers::none(),
            arrivals: Arrivals::new(alloc),
        }
    }

    /// The number of cells.
    pub fn cells(&self) -> u32
        ensures { result ≡ length self.now.cells }
    {
        self.cells.len() as u32
    }

    /// The kind of the cell, which must exist.
    pub fn kind(&self, cell: u32) -> Kind
        requires { cell < length self.now.cells }
        ensures { result ≡ kind_in_store self.now cell }
    {
        self.cells[cell as usize].kind()
    }

    /// Makes room for this many more cells: the next `add_cells` of at most this many succeeds, no
    /// matter what is told or kept in between. A store has at most 4,294,967,295 cells. Fails only
    /// when out of memory; then nothing changes.
    pub fn reserve(&mut self, cells: u32) -> Result<(), AllocError>
        requires { length self.old.cells + cells ≤ most_store_cells }
        ensures room { OnOk result (cells ≤ self.new.room) }
        ensures cells { self.new.cells ≡ self.old.cells }
        ensures arrivals { self.new.arrivals ≡ self.old.arrivals }
        ensures continues { Continues self.old self.new }
        ensures err { OnErr result (self.new ≡ self.old) }
    {
        self.cells.reserve(cells as usize)
    }

    /// Adds cells of these kinds, about which nothing was told, and answers the number of the
    /// first. Succeeds if there is room. A store has at most 4,294,967,295 cells. Fails only when
    /// out of memory; then nothing changes.
    pub fn add_cells(&mut self, kinds: &[Kind]) -> Result<u32, AllocError>
        requires { length self.old.cells + length kinds.now ≤ most_store_cells }
        ensures first { IfOk result (λ first. first ≡ length self.old.cells) }
        ensures cells { OnOk result (self.new.cells ≡ self.old.cells ++ map new_cell kinds.now) }
        ensures succeeds { length kinds.now ≤ self.old.room → IsOk result }
        ensures arrivals { self.new.arrivals ≡ self.old.arrivals }
        ensures continues { Continues self.old self.new }
        ensures err { OnErr result (self.new ≡ self.old) }
    {
        let first = self.cells.len() as u32;
        self.cells.reserve(kinds.len())?;
        append_cells(&mut self.cells, kinds);
        Ok(first)
    }

    /// Records for good that a fact was told about the cell, and assimilates it. The cell must
    /// exist, and the fact must be of its kind. Fails only when out of memory; then nothing
    /// changes.
    pub fn tell(&mut self, cell: u32, fact: Fact) -> Result<(), AllocError>
        requires there { cell < length self.old.cells }
        requires kind { kind_of fact.info ≡ kind_in_store self.old cell }
        ensures told { OnOk result (GainsTold cell fact self.old self.new) }
        ensures kept { OnOk result (GainsKept cell fact self.old self.new) }
        ensures assimilates { OnOk result (AssimilatesAt cell fact self.old self.new) }
        ensures others { LeavesOthers cell self.old self.new }
        ensures kinds { kinds_of self.new ≡ kinds_of self.old }
        ensures room { self.new.room ≡ self.old.room }
        ensures remembers { Remembers cell fact self.old self.new }
        // What accounted for what was kept still does, with what came since.
        ensures continues { Continues self.old self.new }
        ensures err { OnErr result (self.new ≡ self.old) }
    {
        if !self.arrivals.can_count() {
            return Err(AllocError);
        }
        self.take_told(cell, &fact)?;
        self.note(cell, &fact);
        Ok(())
    }

    // Records and assimilates a fact that was told. It is not noted as one that came lately.
    #[inline(always)]
    fn take_told(&mut self, cell: u32, fact: &Fact) -> Result<(), AllocError>
        requires there { cell < length self.old.cells }
        requires kind { kind_of fact.now.info ≡ kind_in_store self.old cell }
        ensures told { OnOk result (GainsTold cell fact.now self.old self.new) }
        ensures kept { OnOk result (GainsKept cell fact.now self.old self.new) }
        ensures assimilates { OnOk result (AssimilatesAt cell fact.now self.old self.new) }
        ensures others { LeavesOthers cell self.old self.new }
        ensures kinds { kinds_of self.new ≡ kinds_of self.old }
        ensures room { self.new.room ≡ self.old.room }
        ensures arrivals { self.new.arrivals ≡ self.old.arrivals }
        ensures err { OnErr result (self.new ≡ self.old) }
    {
        self.cells[cell as usize].tell(fact)?;
        self.recalled.take_in(cell, fact);
        Ok(())
    }

    /// Assimilates a fact: keeps it, and drops the kept facts that it subsumes. Answers `false` if
    /// a kept fact subsumed it; then nothing changes. The cell must exist, and the fact must be of
    /// its kind. Fails only when out of memory; then nothing changes.
    pub fn keep(&mut self, cell: u32, fact: Fact) -> Result<bool, AllocError>
        requires there { cell < length self.old.cells }
        requires kind { kind_of fact.info ≡ kind_in_store self.old cell }
        ensures answer { IfOk result (λ news. TellsNews (kept_at self.old cell) fact news) }
        ensures known { IfOk result (λ news. news ≡ false → self.new ≡ self.old) }
        ensures told { (w : Premises) → told_in self.new cell w ≡ told_in self.old cell w }
        ensures kept { OnOk result (GainsKept cell fact self.old self.new) }
        ensures assimilates { OnOk result (AssimilatesAt cell fact self.old self.new) }
        ensures others { LeavesOthers cell self.old self.new }
        ensures kinds { kinds_of self.new ≡ kinds_of self.old }
        ensures room { self.new.room ≡ self.old.room }
        ensures remembers { Remembers cell fact self.old self.new }
        // What accounted for what was kept still does, with what came since.
        ensures continues { Continues self.old self.new }
        ensures err { OnErr result (self.new ≡ self.old) }
    {
        if !self.arrivals.can_count() {
            return Err(AllocError);
        }
        let is_news = self.take_in(cell, &fact)?;
        if is_news {
            self.note(cell, &fact);
        }
        Ok(is_news)
    }

    // Assimilates a fact. It is not noted as one that came lately.
    #[inline(always)]
    fn take_in(&mut self, cell: u32, fact: &Fact) -> Result<bool, AllocError>
        requires there { cell < length self.old.cells }
        requires kind { kind_of fact.now.info ≡ kind_in_store self.old cell }
        ensures answer { IfOk result (λ news. TellsNews (kept_at self.old cell) fact.now news) }
        ensures known { IfOk result (λ news. news ≡ false → self.new ≡ self.old) }
        ensures told { (w : Premises) → told_in self.new cell w ≡ told_in self.old cell w }
        ensures kept { OnOk result (GainsKept cell fact.now self.old self.new) }
        ensures assimilates { OnOk result (AssimilatesAt cell fact.now self.old self.new) }
        ensures others { LeavesOthers cell self.old self.new }
        ensures kinds { kinds_of self.new ≡ kinds_of self.old }
        ensures room { self.new.room ≡ self.old.room }
        ensures arrivals { self.new.arrivals ≡ self.old.arrivals }
        ensures err { OnErr result (self.new ≡ self.old) }
    {
        self.cells[cell as usize].keep(fact)
    }

    // Notes that a fact came to be kept of the cell.
    #[inline(always)]
    fn note(&mut self, cell: u32, fact: &Fact)
        requires { self.old.arrivals.past < most_past }
        ensures { Notes cell fact.now self.old self.new }
    {
        match NarrowSet::of(&fact.support) {
            Some(support) => self.note_narrow(cell, &fact.info, support),
            None => self.arrivals.forget(),
        }
    }

    // The same for information on premises below 64.
    #[inline(always)]
    fn note_narrow(&mut self, cell: u32, info: &Info, support: NarrowSet)
        requires { self.old.arrivals.past < most_past }
        ensures { Notes cell (fact_on info.now support) self.old self.new }
    {
        self.arrivals.note(Arrival {
            cell,
            fact: Held::on(info, support),
        });
    }

    /// Assimilates information on premises that are all below 64, which says more than what is kept
    /// on these premises. So no kept fact subsumes it, and none is examined for that. The cell must
    /// exist, and the information must be of its kind. Fails only when out of memory; then nothing
    /// changes.
    #[inline(always)]
    pub fn keep_news(
        &mut self,
        cell: u32,
        info: &Info,
        support: NarrowSet,
    ) -> Result<(), AllocError>
        requires there { cell < length self.old.cells }
        requires kind { kind_of info.now ≡ kind_in_store self.old cell }
        requires news { IsUnsaid (kept_in self.old cell support) info.now }
        ensures told { (w : Premises) → told_in self.new cell w ≡ told_in self.old cell w }
        ensures kept { OnOk result (GainsKept cell (fact_on info.now support) self.old self.new) }
        ensures assimilates { OnOk result (AssimilatesAt cell (fact_on info.now support) self.old
            self.new) }
        ensures others { LeavesOthers cell self.old self.new }
        ensures kinds { kinds_of self.new ≡ kinds_of self.old }
        ensures room { self.new.room ≡ self.old.room }
        ensures remembers { Remembers cell (fact_on info.now support) self.old self.new }
        // What accounted for what was kept still does, with what came since.
        ensures continues { Continues self.old self.new }
        ensures err { OnErr result (self.new ≡ self.old) }
    {
        if !self.arrivals.can_count() {
            return Err(AllocError);
        }
        self.take_in_news(cell, info, support)?;
        self.note_narrow(cell, info, support);
        Ok(())
    }

    // Assimilates such information. It is not noted as what came lately.
    #[inline(always)]
    fn take_in_news(&mut self, cell: u32, info: &Info, support: NarrowSet) -> Result<(), AllocError>
        requires there { cell < length self.old.cells }
        requires kind { kind_of info.now ≡ kind_in_store self.old cell }
        requires news { IsUnsaid (kept_in self.old cell support) info.now }
        ensures told { (w : Premises) → told_in self.new cell w ≡ told_in self.old cell w }
        ensures kept { OnOk result (GainsKept cell (fact_on info.now support) self.old self.new) }
        ensures assimilates { OnOk result (AssimilatesAt cell (fact_on info.now support) self.old
            self.new) }
        ensures others { LeavesOthers cell self.old self.new }
        ensures kinds { kinds_of self.new ≡ kinds_of self.old }
        ensures room { self.new.room ≡ self.old.room }
        ensures arrivals { self.new.arrivals ≡ self.old.arrivals }
        ensures err { OnErr result (self.new ≡ self.old) }
    {
        self.cells[cell as usize].keep_news(info, support)
    }

    /// A mark of what is kept now, for `since`. From the first mark on, facts are remembered as they
    /// come to be kept, if there is memory for it.
    pub fn mark(&mut self) -> u64
        ensures mark { result ≡ mark_of self.old }
        ensures unchanged { self.new ≡ self.old }
    {
        self.arrivals.start();
        self.arrivals.count()
    }

    /// The facts that came to be kept of cells since a mark, in the order in which they came. None
    /// if the store no longer remembers all of them: it remembers a few thousand, and none from
    /// before one that rests on a premise from 64 on. None came since a mark that is still to come.
    pub fn since(&self, mark: u64) -> Option<&[Arrival]>
        ensures some { IfSome result (λ list. since self.now mark ≡ Some list.now) }
        ensures none { IfNone result (since self.now mark ≡ None) }
    {
        self.arrivals.since(mark)
    }

    /// The told information about the cell in a worldview: the merge of the told facts whose
    /// premises are all in it. Takes no memory. The cell must exist.
    pub fn told(&self, cell: u32, worldview: &PremiseSet) -> Info
        requires { cell < length self.now.cells }
        ensures value { result ≡ told_in self.now cell worldview.now }
        ensures kind { kind_of result ≡ kind_in_store self.now cell }
        // In a larger worldview at least as much is told.
        ensures larger { IsLeastAbove worldview.now (told_in self.now cell) result }
    {
        self.cells[cell as usize].told(worldview)
    }

    /// Answers what `told` answers. If much was told about the cell, the last answers are cached by
    /// asker, and facts told later are merged into them. So the same question again costs one step.
    /// The cache never changes an answer. Takes no memory. The cell must exist; the asker may be
    /// any number.
    pub fn recall(&mut self, asker: u8, cell: u32, worldview: &PremiseSet) -> Info
        requires { cell < length self.old.cells }
        ensures value { result ≡ told_in self.old cell worldview.now }
        ensures kind { kind_of result ≡ kind_in_store self.old cell }
        ensures unchanged { self.new ≡ self.old }
    {
        if self.cells[cell as usize].is_told_little() {
            return self.cells[cell as usize].told(worldview);
        }
        self.recall_much(asker, cell, worldview)
    }

    // The same, for a cell about which much was told. Never inlined, so that the stack frame of the
    // usual question stays small.
    #[inline(never)]
    fn recall_much(&mut self, asker: u8, cell: u32, worldview: &PremiseSet) -> Info
        requires { cell < length self.old.cells }
        ensures value { result ≡ told_in self.old cell worldview.now }
        ensures kind { kind_of result ≡ kind_in_store self.old cell }
        ensures unchanged { self.new ≡ self.old }
    {
        if let Some(info) = self.recalled.find(asker, cell, worldview) {
            return info;
        }
        let info = self.cells[cell as usize].told(worldview);
        let answer = Recalled {
            cell,
            worldview: *worldview,
            info,
        };
        self.recalled.remember(asker, answer);
        info
    }

    /// The kept information about the cell in a worldview: the merge of the kept facts whose
    /// premises are all in it, with premises of the worldview that it rests on. Takes no memory.
    /// The cell must exist.
    ///
    /// Facts told since are assimilated only now. This never changes an answer.
    #[inline(always)]
    pub fn kept(&mut self, cell: u32, worldview: &PremiseSet) -> Fact
        requires { cell < length self.old.cells }
        ensures unchanged { self.new ≡ self.old }
        ensures info { result.info ≡ kept_in self.old cell worldview.now }
        ensures kind { kind_of result.info ≡ kind_in_store self.old cell }
        ensures within { is_subset result.support worldview.now ≡ true }
        // The premises of the result give the same information.
        ensures same { kept_in self.old cell result.support ≡ result.info }
        // Each of these premises is a premise of a fact that is kept of the cell.
        ensures rests { ArePremisesOf (kept_at self.old cell) result.support }
        // The kept information says at least what was told.
        ensures told { Implies result.info (told_in self.old cell worldview.now) }
        // A worldview that has these premises keeps at least as much, and one inside the worldview
        // at most as much.
        ensures larger { IsLeastAbove result.support (kept_in self.old cell) result.info }
        ensures smaller { IsMostBelow worldview.now (kept_in self.old cell) result.info }
    {
        self.cells[cell as usize].kept(worldview)
    }

    /// What `kept` answers, as a `NarrowFact`. None if a premise from 64 on came to the cell; no clause
    /// says when. Takes no memory. The cell must exist.
    #[inline(always)]
    pub fn kept_narrow(&mut self, cell: u32, worldview: &PremiseSet) -> Option<NarrowFact>
        requires { cell < length self.old.cells }
        ensures unchanged { self.new ≡ self.old }
        ensures kept { IfSome result (λ fact. IsKeptIn self.old cell worldview.now
            (fact_on fact.info fact.support)) }
    {
        self.cells[cell as usize].kept_narrow(worldview)
    }

    /// Whether more may be kept of the cell in a worldview than in another one, as the supports of
    /// its kept facts tell. If not, what is kept in the other one says at least as much. Takes no
    /// memory. The cell must exist.
    #[inline(always)]
    pub fn may_show_more(&self, cell: u32, before: &PremiseSet, worldview: &PremiseSet) -> bool
        requires { cell < length self.now.cells }
        ensures less { result ≡ false → Implies (kept_in self.now cell before.now) (kept_in self.now
            cell worldview.now) }
        // Whatever the answer, what is kept in the worldview says at least what was told there.
        ensures told { Implies (kept_in self.now cell worldview.now) (told_in self.now cell
            worldview.now) }
    {
        self.cells[cell as usize].may_show_more(before, worldview)
    }
}

// Appends a cell of each kind where there is room.
fn append_cells<A: Allocator + Copy>(cells: &mut Vec<CellFacts<A>, A>, kinds: &[Kind])
    requires { vec_len cells.old + length kinds.now ≤ vec_capacity cells.old }
    ensures { cells.new.items ≡ cells.old.items ++ map new_cell kinds.now }
{
    let alloc = *cells.allocator();
    for kind in kinds {
        cells.push_reserved(CellFacts::new(alloc, *kind));
    }
}
