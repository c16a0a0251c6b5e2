//! Flattening a compound that ends.
ghost use Rattle.std.specs.Prelude.{◌≡◌, ◌+◌, ◌≤◌, ◌++◌, All, length, IfOk, OnOk};
ghost use Rattle.std.specs.List.{range_with_len};
ghost use Rattle.pw_procs.specs.Registry.{cells_of};
ghost use Rattle.pw_decl.specs.Declaration.{IsCallable};
ghost use Rattle.pw_decl.specs.inside.Fields.{declared};
ghost use Rattle.pw_decl.specs.inside.Held.{IsFlattened, instances_of};
ghost use Rattle.pw_decl.specs.inside.Held.{compound_of, step_of};
ghost use Rattle.pw_decl.specs.Limits.{most_inner_cells, most_parameters};
ghost use Rattle.pw_decl.specs.inside.Flattening.{GainsCallable, IsNextStep, TakesSoMany};
ghost use Rattle.pw_decl.specs.inside.Opened.{IsOpen};
ghost use Rattle.pw_decl.specs.inside.Held.{instances_on};
ghost use Rattle.pw_decl.specs.inside.Flattening.{FlattensStep};

use crate::compound::OpenCompound;
use crate::declaration::Declaration;
use crate::flat_call::{FlatCall, Flattened, place_cells};
use crate::step::{Callable, Step};
use pw_procs::Arguments;
use std::alloc::{AllocError, Allocator};

// A compound whose first lines are flattened.
#[derive(Drop)]
struct Flattening<A: Allocator> {
    // The place of each cell of the compound so far.
    places: Vec<u32, A>,
    flattened: Flattened<A>,
}

// The first `count` places.
fn first_places<A: Allocator + Copy>(alloc: A, count: u32) -> Result<Vec<u32, A>, AllocError>
    ensures { IfOk result (λ places. places.items ≡ range_with_len 0 count) }
{
    let mut places = Vec::new(alloc);
    for place in 0..count {
        places.push(place)?;
    }
    Ok(places)
}

// Adds calls. Their places mean these cells, and, past their end, the inner cells from `first` on.
fn add_calls<A: Allocator + Copy>(
    added: &mut Vec<FlatCall, A>,
    calls: &[FlatCall],
    cells: &[u32],
    first: u32,
) -> Result<(), AllocError>
    requires { All (λ call. All (λ place. first + place ≤ 4294967295) (cells_of call.places))
        calls.now }
    ensures { OnOk result (instances_of added.new.items ≡ instances_of added.old.items ++
        instances_on cells.now first calls.now) }
{
    for call in calls {
        added.push(FlatCall {
            procedure: call.procedure,
            places: place_cells(call.places, cells, first),
        })?;
    }
    Ok(())
}

// Adds the expansion of a callable on cells that it takes. Its inner cells are those from `first`
// on.
fn add_callable<A: Allocator + Copy>(
    declaration: &Declaration<'_, A>,
    flattened: &mut Flattened<A>,
    callable: Callable,
    cells: Arguments,
    first: u32,
) -> Result<(), AllocError>
    requires few { first ≤ most_parameters + most_inner_cells }
    requires there { IsCallable (declared declaration.now) callable }
    requires takes { TakesSoMany (declared declaration.now) callable (length (cells_of cells)) }
    ensures { OnOk result (GainsCallable (declared declaration.now).compounds callable
        (cells_of cells) first flattened.old flattened.new) }
{
    match callable {
        Callable::Stored(procedure) => flattened.calls.push(FlatCall {
            procedure,
            places: cells,
        })?,
        Callable::Compound(number) => {
            let (calls, inner) = (
                declaration.flat_calls(number),
                declaration.inner_kinds(number),
            );
            add_calls(&mut flattened.calls, calls, cells.cells(), first)?;
            flattened.inner.extend_from_slice(inner)?;
        }
    }
    Ok(())
}

// Adds the expansion of the next line, in a compound with this many parameters.
fn add_step<A: Allocator + Copy>(
    declaration: &Declaration<'_, A>,
    parameters: u32,
    flattening: &mut Flattening<A>,
    step: Step,
) -> Result<(), AllocError>
    requires few { parameters ≤ most_parameters }
    requires next { IsNextStep (declared declaration.now) flattening.old (step_of step) }
    ensures { OnOk result (FlattensStep (declared declaration.now).compounds parameters (step_of
        step) flattening.old flattening.new) }
{
    let first = parameters + flattening.flattened.inner.len() as u32;
    match step {
        Step::Local(kind) => {
            flattening.places.push(first)?;
            flattening.flattened.inner.push(kind)?;
        }
        Step::Call(callable, arguments) => {
            let cells = place_cells(arguments, &flattening.places, 0);
            add_callable(
                declaration,
                &mut flattening.flattened,
                callable,
                cells,
                first,
            )?;
        }
    }
    Ok(())
}

/// The flattened form of an open compound, if it ends as it is.
pub(crate) fn flatten<A: Allocator + Copy>(
    alloc: A,
    declaration: &Declaration<'_, A>,
    opened: &OpenCompound<A>,
) -> Result<Flattened<A>, AllocError>
    requires { IsOpen (declared declaration.now) opened.now }
    ensures { IfOk result (IsFlattened (declared declaration.now).compounds
        (compound_of opened.now.compound)) }
{
    let parameters = opened.compound.parameters.len() as u32;
    let mut flattening = Flattening {
        places: first_places(alloc, parameters)?,
        flattened: Flattened {
            calls: Vec::new(alloc),
            inner: Vec::new(alloc),
        },
    };
    for step in &opened.compound.steps {
        add_step(declaration, parameters, &mut flattening, *step)?;
    }
    Ok(flattening.flattened)
}
