//! Procedures between cells, as attachments make them.
ghost use Rattle.std.specs.Prelude.{◌<◌, ◌≤◌, length};

use crate::attachment::Attachment;
use pw_decl::{FlatCall, cell_at, place_cells};
use pw_premises::CompactSet;
use pw_procs::Arguments;
use std::alloc::{AllocError, Global};
use std::rc::Rc;

// A procedure reads at most eight cells.
pub(crate) const MOST_INPUTS: usize = 8;

/// A procedure between cells. Cells are given by their numbers in the network. It shares its line and
/// its premises with the other instances of its attachment.
#[derive(Debug, Drop)]
pub struct Instance {
    /// The number of the procedure in the registry.
    pub procedure: u8,
    // How many cells it reads.
    pub(crate) count: u8,
    /// The cell that it writes.
    pub output: u32,
    // The cells that it reads, if they are one or two. What it does not need is 0.
    pub(crate) cells: [u32; 2],
    // How it was attached, and the cells that it reads if they are more.
    pub(crate) attached: Rc<Attachment>,
    ghost beside: { 2 < count → count ≤ length attached.value.inputs.items },
}

impl Instance {
    ghost use Rattle.std.specs.Prelude.{◌≡◌, ◌+◌, ◌-◌, ◌∷◌, [], All, take, IfOk};
    ghost use Rattle.pw_procs.specs.Registry.{cells_of};
    ghost use Rattle.pw_decl.specs.Expansion.{instance_on};
    ghost use Rattle.pw_network.specs.inside.Held.{attachment, cells_placed};
    ghost use Rattle.pw_network.specs.Readers.{reads as reads_cell};

    // The procedure of this number between these cells: it writes the last cell and reads the
    // others. Fails only when out of memory.
    pub(crate) fn new(
        alloc: Global,
        procedure: u8,
        cells: Arguments,
        attached: &Rc<Attachment>,
    ) -> Result<Instance, AllocError>
        ensures instance { IfOk result (λ made. instance_on procedure (cells_of cells)
            ≡ (attachment made).instance ∷ []) }
        ensures inputs { IfOk result (λ made. (attachment made).instance.inputs
            ≡ take (length (cells_of cells) - 1) (cells_of cells)) }
        ensures few { IfOk result (λ made. length (attachment made).instance.inputs ≤ 8) }
        ensures line { IfOk result (λ made. (attachment made).line ≡ attached.now.value.line) }
        ensures support { IfOk result (λ made. (attachment made).support
            ≡ attached.now.value.support) }
    {
        let cells = cells.cells();
        let last = cells.len() - 1;
        let (held, attached) = match &cells[..last] {
            [one] => ([*one, 0], attached.clone()?),
            [one, another] => ([*one, *another], attached.clone()?),
            inputs => ([0, 0], attached.with_inputs(alloc, inputs)?),
        };
        Ok(Instance {
            procedure,
            count: last as u8,
            output: cells[last],
            cells: held,
            attached,
        })
    }

    // The procedure of a call, between the cells at its places: a place means one of these cells, or,
    // past their end, an inner cell. The first inner cell has the number `first`. Fails only when out
    // of memory. Most procedures have one input or two, which need no list on the way.
    #[inline(always)]
    pub(crate) fn placed(
        alloc: Global,
        call: &FlatCall,
        cells: &[u32],
        first: u32,
        attached: &Rc<Attachment>,
    ) -> Result<Instance, AllocError>
        requires numbers { All (λ place. first + place ≤ 4294967295) (cells_of call.now.places) }
        ensures instance { IfOk result (λ made. instance_on call.now.procedure
            (cells_placed cells.now first call.now) ≡ (attachment made).instance ∷ []) }
        ensures inputs { IfOk result (λ made. (attachment made).instance.inputs
            ≡ take (length (cells_placed cells.now first call.now) - 1)
            (cells_placed cells.now first call.now)) }
        ensures few { IfOk result (λ made. length (attachment made).instance.inputs ≤ 8) }
        ensures line { IfOk result (λ made. (attachment made).line ≡ attached.now.value.line) }
        ensures support { IfOk result (λ made. (attachment made).support
            ≡ attached.now.value.support) }
    {
        let (count, held, output) = match call.places.cells() {
            [one, output] => (1, [cell_at(cells, first, *one), 0], *output),
            [one, another, output] => {
                let one = cell_at(cells, first, *one);
                (2, [one, cell_at(cells, first, *another)], *output)
            }
            _ => {
                let placed = place_cells(call.places, cells, first);
                return Instance::new(alloc, call.procedure, placed, attached);
            }
        };
        Ok(Instance {
            procedure: call.procedure,
            count,
            output: cell_at(cells, first, output),
            cells: held,
            attached: attached.clone()?,
        })
    }

    /// The cells that it reads, in the order in which the procedure takes them. Each short length has
    /// a case of its own, so a caller that tells these lengths apart tests nothing twice.
    #[inline(always)]
    pub fn inputs(&self) -> &[u32]
        ensures { result.now ≡ (attachment self.now).instance.inputs }
    {
        match self.count {
            0 => &[],
            1 => &self.cells[..1],
            2 => &self.cells[..2],
            count => &self.attached.inputs.as_slice()[..usize::from(count)],
        }
    }

    /// The line at which it was attached.
    #[inline(always)]
    pub fn line(&self) -> u32
        ensures { result ≡ (attachment self.now).line }
    {
        self.attached.line
    }

    /// The premises under which it was attached.
    #[inline(always)]
    pub fn support(&self) -> &CompactSet
        ensures { result.now ≡ (attachment self.now).support }
    {
        &self.attached.support
    }

    /// Whether it reads the cell.
    pub fn reads(&self, cell: u32) -> bool
        ensures { result ≡ reads_cell cell (attachment self.now) }
    {
        self.inputs().iter().any(|input| cell == *input)
    }
}
