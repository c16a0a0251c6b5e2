//! The contradictory cells, and the attachments that have such inner cells.
ghost use Rattle.std.specs.Prelude.{◌≡◌, ◌↔◌, ℕ, Contains, length, IfOk};
ghost use Rattle.std.specs.List.Sorted.{IsStrictlyIncreasing};
ghost use Rattle.pw_network.specs.Wiring.{wiring};
ghost use Rattle.pw_network.specs.Network.{cells_in};
ghost use Rattle.pw_reasons.specs.Conflicts.{AreConflicts, HasConflict};
ghost use Rattle.pw_settle.specs.Settled.{info_at};
ghost use Rattle.pw_reasons.specs.Conflicts.{contradictory_cells};

use crate::conflicts::Conflicts;
use pw_network::Network;
use pw_settle::Settled;
use std::alloc::{AllocError, Allocator};

/// What is contradictory if these are the values of the cells of the network, one value for each
/// cell: the declared cells whose value is a contradiction, and the lines of the attachments that
/// have an inner cell like that. Fails only when out of memory.
///
/// A contradiction in a cell is no fault of the network: it is reported to the asker (Radul and
/// Sussman, *The Art of the Propagator*, on contradictions under a worldview).
pub fn list_conflicts<A: Allocator + Copy>(
    alloc: A,
    network: &Network<'_, '_, A>,
    settled: &Settled<A>,
) -> Result<Conflicts<A>, AllocError>
    requires { length settled.now.infos ≡ cells_in (wiring network.now) }
    ensures { IfOk result (λ conflicts.
        AreConflicts (wiring network.now) (info_at settled.now.infos) conflicts) }
{
    let cells = contradictory_cells(alloc, network, settled)?;
    let lines = contradictory_lines(alloc, network, settled)?;
    Ok(Conflicts { cells, lines })
}

// The declared cells whose value is a contradiction, in declared order.
fn contradictory_cells<A: Allocator + Copy>(
    alloc: A,
    network: &Network<'_, '_, A>,
    settled: &Settled<A>,
) -> Result<Vec<u32, A>, AllocError>
    requires { length settled.now.infos ≡ cells_in (wiring network.now) }
    ensures { IfOk result (λ cells. cells.items ≡ contradictory_cells (wiring network.now) (info_at
        settled.now.infos)) }
{
    let mut cells = Vec::new(alloc);
    for cell in 0..network.declaration().cells() {
        if settled.value(cell).info.is_contradiction() {
            cells.push(cell)?;
        }
    }
    Ok(cells)
}

// The lines of the attachments that have an inner cell whose value is a contradiction, in rising
// order, each once. The lines of inner cells do not fall, so a line that was pushed before is the
// last one pushed.
fn contradictory_lines<A: Allocator + Copy>(
    alloc: A,
    network: &Network<'_, '_, A>,
    settled: &Settled<A>,
) -> Result<Vec<u32, A>, AllocError>
    requires { length settled.now.infos ≡ cells_in (wiring network.now) }
    ensures rising { IfOk result (λ lines. IsStrictlyIncreasing lines.items) }
    ensures lines { IfOk result (λ lines. (line : ℕ) → Contains lines.items line
        ↔ HasConflict (wiring network.now) (info_at settled.now.infos) line) }
{
    let mut lines: Vec<u32, A> = Vec::new(alloc);
    for cell in network.declaration().cells()..network.cells() {
        if settled.value(cell).info.is_contradiction()
            && let Some((line, _)) = network.inner(cell)
            && lines.last() != Some(&line)
        {
            lines.push(line)?;
        }
    }
    Ok(lines)
}
