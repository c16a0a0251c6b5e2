//! What is attached to the cells of a declaration: instances of procedures, between its cells and
//! inner ones.
ghost use Rattle.std.specs.Prelude.{◌≡◌, ◌+◌, ◌<◌, ◌≤◌, ◌↔◌, length, map, IfOk, IfErr, IfNone, IfSome, OnOk, OnErr};
ghost use Rattle.pw_procs.specs.Registry.{cells_of};
ghost use Rattle.pw_decl.specs.declared.step.Callable.TheVariants as callables;
ghost use Rattle.pw_decl.specs.Expansion.{inner_kinds_of};
ghost use Rattle.pw_decl.specs.inside.Fields.{declared};
ghost use Rattle.pw_decl.specs.inside.Held.{AreCallsOf};
ghost use Rattle.pw_decl.specs.Limits.{most_inner_cells};
ghost use Rattle.pw_decl.specs.Declaration.{IsCallable};
ghost use Rattle.pw_network.specs.declared.network.NetworkFault.TheVariants as faults;
ghost use Rattle.pw_network.specs.inside.Held.{attachment, ArePremisesOf};
ghost use Rattle.pw_network.specs.Network.{most_cells_in, last_attachment_line};
ghost use Rattle.pw_network.specs.Network.{bare, cells_in, kind_in, origin_in, with_attached};
ghost use Rattle.pw_network.specs.Network.{AreDeclared, InstancesFit, InstancesStay, LinesInOrder};
ghost use Rattle.pw_network.specs.Network.{AreAllVisible};
ghost use Rattle.pw_network.specs.Network.{MayAttach, TakesCells};
ghost use Rattle.pw_network.specs.Readers.{readers_of};
ghost use Rattle.pw_network.specs.Writers.{writers_of};
ghost use Rattle.std.proofs.Props.{props};
ghost use Rattle.std.specs.Prelude.{◌*◌, vec_capacity, vec_len, IsTrue};
ghost use Rattle.pw_decl.specs.inside.Held.{named_prop};
ghost use Rattle.pw_network.specs.inside.CompoundLists.{HasLists, HaveOwnLists, HaveReaders};
ghost use Rattle.pw_network.specs.inside.Held.{support_code, wiring_from};
ghost use Rattle.pw_network.specs.Network.{IsWellNetwork};
ghost use Rattle.pw_network.specs.Batches.{numbers_in};
ghost use Rattle.pw_network.specs.inside.Batches.{AreAllListed, least_calls};
ghost use Rattle.pw_network.specs.inside.Lists.{listed_by, no_place};
ghost use Rattle.pw_network.specs.inside.Room.{HaveRoomFor};

use crate::attaching::{append_calls, append_inner, list_attached, list_instances, with_support};
use crate::attachment::Attachment;
use crate::batch::{Batches, Calls, LEAST_CALLS};
use crate::batch_numbers::BatchNumbers;
use crate::compound_lists::CompoundLists;
use crate::instance::{Instance, MOST_INPUTS};
use crate::instance_lists::{InstanceLists, reserve_below};
use crate::instance_numbers::InstanceNumbers;
use pw_decl::{Callable, Declaration, FlatCall};
use pw_info::Kind;
use pw_premises::PremiseSet;
use pw_procs::Arguments;
use std::alloc::{AllocError, Allocator, Global};

/// A cell that an attachment made for itself.
#[derive(Clone, Copy, Debug)]
pub(crate) struct InnerCell {
    // The line of the attachment.
    pub(crate) line: u32,
    // The number of the first instance of the attachment.
    pub(crate) first: u32,
    // The number of the list of the calls that read it.
    pub(crate) list: u32,
    // The number of the cell among the inner cells of the attachment, from 0.
    pub(crate) number: u8,
    pub(crate) kind: Kind,
}

/// Why nothing was attached.
#[derive(Clone, Copy, Debug, PartialEq, Eq)]
pub enum NetworkFault {
    /// The callable does not take cells of these kinds.
    WrongArguments,
    /// Out of memory.
    Memory,
}

/// The cells of a declaration, after them the inner cells that attachments made for themselves, and
/// the instances between them, in the order of the attachments.
#[derive(Drop)]
pub struct Network<'d, 'r, A: Allocator = Global> {
    declaration: &'d Declaration<'r, A>,
    inner: Vec<InnerCell, A>,
    instances: Vec<Instance, A>,
    // For each declared cell the list of the instances that read it, and after these, for each place of
    // a compound that was attached, the lists of its calls that read it and of those that write it.
    readers: InstanceLists<A>,
    compounds: CompoundLists<A>,
    // For each declared cell the list of the instances that write it. Inner cells have no such list.
    writers: InstanceLists<A>,
    // The calls of attachments that the lists of declared cells have.
    calls: Vec<Calls, A>,
    // The line of the last attachment, 0 before the first.
    last_line: u32,
    // The premises that instances rest on.
    premises: PremiseSet,
    ghost well: { IsWellNetwork (wiring_from (declared declaration.now) inner.items instances.items
        last_line) } by { Prim.hlevel (props, named_prop, support_code) },
    ghost read_cells: { length (declared declaration.now).cells ≤ vec_len readers.ends },
    ghost declared_cells: { vec_len writers.ends ≡ length (declared declaration.now).cells },
    ghost listed: { AreAllListed (vec_len writers.ends) calls.items readers writers (map attachment instances.items) } by { Prim.hlevel props },
    ghost own: { HaveOwnLists (declared declaration.now).compounds (vec_len writers.ends) compounds readers } by { Prim.hlevel props },
    ghost inner_read: { HaveReaders (vec_len writers.ends) readers (map attachment instances.items) inner.items } by { Prim.hlevel props },
    ghost visible: { ArePremisesOf (map attachment instances.items) premises },
}

impl<'d, 'r, A: Allocator + Copy> Network<'d, 'r, A> {
    ghost use Rattle.pw_network.specs.Wiring.{wiring};

    /// The cells of the declaration, with nothing attached. Fails only when out of memory.
    pub fn new(
        alloc: A,
        declaration: &'d Declaration<'r, A>,
    ) -> Result<Network<'d, 'r, A>, AllocError>
        ensures bare { IfOk result (λ network. wiring network ≡ bare (declared declaration.now)) }
    {
        declaration.limits();
        Ok(Network {
            declaration,
            inner: Vec::new(alloc),
            instances: Vec::new(alloc),
            readers: InstanceLists::new(alloc, declaration.cells() as usize)?,
            compounds: CompoundLists::new(alloc),
            writers: InstanceLists::new(alloc, declaration.cells() as usize)?,
            calls: Vec::new(alloc),
            last_line: 0,
            premises: PremiseSet::empty(),
        })
    }

    /// The declaration that the cells come from.
    pub fn declaration(&self) -> &'d Declaration<'r, A>
        ensures { declared result.now ≡ (wiring self.now).declared }
    {
        self.declaration
    }

    /// The instances, in the order in which they were attached. Each reads and writes existing
    /// cells, of kinds that its procedure accepts.
    pub fn instances(&self) -> &[Instance]
        ensures instances { map attachment result.now ≡ (wiring self.now).attached }
        ensures here { InstancesStay (wiring self.now) }
        ensures fits { InstancesFit (wiring self.now) }
    {
        &self.instances
    }

    /// The number of cells, declared and inner: at most 1,024 + 256 × 1,000,000.
    pub fn cells(&self) -> u32
        ensures count { result ≡ cells_in (wiring self.now) }
        ensures most { result ≤ most_cells_in }
    {
        self.declaration.cells() + self.inner.len() as u32
    }

    /// The kind of the cell of this number, which must exist.
    pub fn kind(&self, cell: u32) -> Kind
        requires { cell < cells_in (wiring self.now) }
        ensures { result ≡ kind_in (wiring self.now) cell }
    {
        let declared = self.declaration.cells();
        if cell < declared {
            return self.declaration.cell_kind(cell);
        }
        self.inner[(cell - declared) as usize].kind
    }

    /// The line of an inner cell's attachment and the cell's number there, from 0. None for a
    /// declared cell. The cell must exist. In the order of the cells, the lines never fall.
    pub fn inner(&self, cell: u32) -> Option<(u32, u16)>
        requires { cell < cells_in (wiring self.now) }
        ensures origin { result ≡ origin_in (wiring self.now) cell }
        ensures order { LinesInOrder (wiring self.now) }
    {
        let declared = self.declaration.cells();
        if cell < declared {
            return None;
        }
        let inner = self.inner[(cell - declared) as usize];
        Some((inner.line, u16::from(inner.number)))
    }

    /// The line of the last attachment, 0 before the first, and at most 1,000,000.
    pub fn last_line(&self) -> u32
        ensures line { result ≡ (wiring self.now).last_line }
        ensures most { result ≤ last_attachment_line }
    {
        self.last_line
    }

    /// The numbers of the instances that read the cell, in rising order: none if there is no such cell.
    pub fn readers(&self, cell: u32) -> BatchNumbers<'_, A>
        ensures { result ≡ readers_of (wiring self.now) cell }
    {
        match self.inner_readers(cell) {
            Some(numbers) => BatchNumbers::new(numbers, Batches::none(&self.readers)),
            None => self.reader_batches(cell).numbers(),
        }
    }

    /// The instances that read the declared cell, batch by batch: their numbers, one batch after another,
    /// are in rising order.
    #[inline(always)]
    pub fn reader_batches(&self, cell: u32) -> Batches<'_, A>
        requires { cell < length (wiring self.now).declared.cells }
        ensures { numbers_in result ≡ readers_of (wiring self.now) cell }
    {
        Batches::new(self.readers.numbers(cell, 0), &self.calls, &self.readers)
    }

    /// The numbers of the instances that read the inner cell, in rising order: none if there is no such
    /// cell. None for a declared cell.
    #[inline(always)]
    pub fn inner_readers(&self, cell: u32) -> Option<InstanceNumbers<'_>>
        ensures some { IfSome result (λ numbers. numbers ≡ readers_of (wiring self.now) cell) }
        ensures inner { IfSome result (λ numbers. length (wiring self.now).declared.cells ≤ cell) }
        ensures none { IfNone result (cell < length (wiring self.now).declared.cells) }
    {
        let place = (cell as usize).checked_sub(self.writers.len())?;
        match self.inner.get(place) {
            Some(inner) => Some(self.readers.numbers(inner.list, inner.first)),
            None => Some(InstanceNumbers::none()),
        }
    }

    /// The numbers of the instances that write the declared cell, in rising order.
    pub fn writers(&self, cell: u32) -> BatchNumbers<'_, A>
        requires { cell < length (wiring self.now).declared.cells }
        ensures { result ≡ writers_of (wiring self.now) cell }
    {
        Batches::new(self.writers.numbers(cell, 0), &self.calls, &self.readers).numbers()
    }

    /// Whether all instances are visible in the worldview: they rest only on premises of it. Takes
    /// one test, however many instances there are.
    #[inline(always)]
    pub fn are_all_visible(&self, worldview: &PremiseSet) -> bool
        ensures { IsTrue result ↔ AreAllVisible (wiring self.now) worldview.now }
    {
        self.premises.is_subset(worldview)
    }

    /// Attaches a callable, which must exist, to declared cells under these premises, at a line
    /// after the last and at most 1,000,000: adds its instances, and its inner cells, which get the
    /// next numbers. Fails if the callable does not take these cells, and otherwise only when out of
    /// memory. After a failure nothing is changed.
    pub fn attach(
        &mut self,
        line: u32,
        callable: Callable,
        cells: Arguments,
        support: PremiseSet,
    ) -> Result<(), NetworkFault>
        requires there { IsCallable (wiring self.old).declared callable }
        requires cells { AreDeclared (wiring self.old) (cells_of cells) }
        requires next { (wiring self.old).last_line < line }
        requires most { line ≤ last_attachment_line }
        ensures ok { OnOk result (wiring self.new
            ≡ with_attached (wiring self.old) line callable (cells_of cells) support) }
        ensures takes { OnOk result (TakesCells (wiring self.old) callable (cells_of cells)) }
        ensures wrong { IfErr result (λ fault. fault ≡ faults.WrongArguments
            → TakesCells (wiring self.old) callable (cells_of cells) → ⊥) }
        ensures memory { IfErr result (λ fault. fault ≡ faults.Memory
            → TakesCells (wiring self.old) callable (cells_of cells)) }
        ensures err { OnErr result (wiring self.new ≡ wiring self.old) }
    {
        let declaration = self.declaration;
        if !declaration.accepts_at(callable, declaration.kinds(), cells) {
            return Err(NetworkFault::WrongArguments);
        }
        let attached = match callable {
            Callable::Stored(procedure) => self.attach_procedure(line, procedure, cells, support),
            Callable::Compound(compound) => {
                let calls = declaration.flat_calls(compound);
                let kinds = declaration.inner_kinds(compound);
                self.attach_compound(line, compound, calls, kinds, cells, support)
            }
        };
        match attached {
            Ok(()) => Ok(()),
            Err(_) => Err(NetworkFault::Memory),
        }
    }

    // Attaches a procedure. Fails only when out of memory; then nothing changes.
    fn attach_procedure(
        &mut self,
        line: u32,
        procedure: u8,
        cells: Arguments,
        support: PremiseSet,
    ) -> Result<(), AllocError>
        requires { MayAttach (wiring self.old) line (callables.Stored procedure)
            (cells_of cells) }
        ensures ok { OnOk result (wiring self.new
            ≡ with_attached (wiring self.old) line (callables.Stored procedure)
            (cells_of cells) support) }
        ensures err { OnErr result (wiring self.new ≡ wiring self.old) }
    {
        let global = self.declaration.registry().allocator();
        let attached = Attachment::shared(global, line, &support)?;
        let instance = Instance::new(global, procedure, cells, &attached)?;
        self.reserve(0, 1, 0)?;
        let count = self.instances.len();
        self.instances.push_reserved(instance);
        list_instances(&self.instances, count, &mut self.readers, &mut self.writers);
        self.premises = self.premises.join(support);
        self.last_line = line;
        Ok(())
    }

    // Makes room for this many more inner cells and instances, and calls of attachments. Fails only when
    // out of memory.
    fn reserve(&mut self, inner: usize, instances: usize, calls: usize) -> Result<(), AllocError>
        ensures same { wiring self.new ≡ wiring self.old }
        ensures links { self.new.readers.links.items ≡ self.old.readers.links.items }
        ensures reader_lists { vec_len self.new.readers.ends ≡ vec_len self.old.readers.ends }
        ensures writer_lists { vec_len self.new.writers.ends ≡ vec_len self.old.writers.ends }
        ensures inner { OnOk result (vec_len self.new.inner + inner
            ≤ vec_capacity self.new.inner) }
        ensures instances { OnOk result (vec_len self.new.instances + instances
            ≤ vec_capacity self.new.instances) }
        ensures few { OnOk result (vec_len self.new.instances + instances ≤ least_calls) }
        ensures calls { OnOk result (vec_len self.new.calls + calls ≤ vec_capacity self.new.calls) }
        ensures few_calls { OnOk result (vec_len self.new.calls + calls < least_calls) }
        ensures room { OnOk result (HaveRoomFor instances self.new.readers self.new.writers) }
    {
        self.inner.reserve(inner)?;
        reserve_below(&mut self.instances, instances, LEAST_CALLS)?;
        reserve_below(&mut self.calls, calls, LEAST_CALLS - 1)?;
        self.reserve_lists(instances)
    }

    // Makes room in the lists for this many more instances. Fails only when out of memory.
    fn reserve_lists(&mut self, count: usize) -> Result<(), AllocError>
        requires few { count ≤ no_place }
        ensures same { wiring self.new ≡ wiring self.old }
        ensures inner { self.new.inner ≡ self.old.inner }
        ensures instances { self.new.instances ≡ self.old.instances }
        ensures calls { self.new.calls ≡ self.old.calls }
        ensures links { self.new.readers.links.items ≡ self.old.readers.links.items }
        ensures reader_lists { vec_len self.new.readers.ends ≡ vec_len self.old.readers.ends }
        ensures writer_lists { vec_len self.new.writers.ends ≡ vec_len self.old.writers.ends }
        ensures room { OnOk result (HaveRoomFor count self.new.readers self.new.writers) }
    {
        self.readers.reserve(0, count * MOST_INPUTS)?;
        self.writers.reserve(0, count)
    }

    // The number of the list of the first of the compound's places, of which there are this many. The
    // lists of its other places follow: each has the calls that read the place. Then come as many with
    // the calls that write each. Fails only when out of memory.
    fn list_calls(
        &mut self,
        compound: u8,
        calls: &[FlatCall],
        places: usize,
    ) -> Result<u32, AllocError>
        requires calls { AreCallsOf (wiring self.old).declared.compounds compound calls.now }
        requires places { (are : AreCallsOf (wiring self.old).declared.compounds compound
            calls.now) → places ≡ length are.compound.parameters + length
            (inner_kinds_of (wiring self.old).declared.compounds (callables.Compound compound)) }
        requires some { 1 ≤ places }
        ensures same { wiring self.new ≡ wiring self.old }
        ensures listed { IfOk result (λ first. HasLists (vec_len self.new.writers.ends) places
            calls.now first (vec_len self.new.readers.ends) (map listed_by
            self.new.readers.links.items)) }
    {
        self.compounds
            .first(&mut self.readers, compound, calls, places)
    }

    // Attaches a compound with these calls and these kinds of inner cells. Fails only when out of
    // memory; then nothing changes.
    fn attach_compound(
        &mut self,
        line: u32,
        compound: u8,
        calls: &[FlatCall],
        kinds: &[Kind],
        cells: Arguments,
        support: PremiseSet,
    ) -> Result<(), AllocError>
        requires may { MayAttach (wiring self.old) line (callables.Compound compound)
            (cells_of cells) }
        requires calls { AreCallsOf (wiring self.old).declared.compounds compound calls.now }
        requires kinds { kinds.now
            ≡ inner_kinds_of (wiring self.old).declared.compounds
            (callables.Compound compound) }
        requires few { length kinds.now ≤ most_inner_cells }
        ensures ok { OnOk result (wiring self.new
            ≡ with_attached (wiring self.old) line (callables.Compound compound)
            (cells_of cells) support) }
        ensures err { OnErr result (wiring self.new ≡ wiring self.old) }
    {
        let first = self.cells();
        let global = self.declaration.registry().allocator();
        let shared = Attachment::shared(global, line, &support)?;
        let cells = cells.cells();
        let list = self.list_calls(compound, calls, cells.len() + kinds.len())?;
        self.reserve(kinds.len(), calls.len(), 2 * cells.len())?;
        let count = self.instances.len();
        append_calls(&mut self.instances, global, calls, cells, first, &shared)?;
        list_attached(
            &self.instances,
            count,
            cells,
            calls,
            list,
            cells.len() + kinds.len(),
            &mut self.calls,
            &mut self.readers,
            &mut self.writers,
        );
        append_inner(
            &mut self.inner,
            kinds,
            line,
            count as u32,
            list + cells.len() as u32,
        );
        self.premises = with_support(self.premises, support, calls);
        self.last_line = line;
        Ok(())
    }
}
