//! The lines that begin, fill and end a compound.
ghost use Rattle.std.specs.Prelude.{◌≡◌, ◌≢◌, ◌↔◌, ◌≤◌, ◌+◌, ◌<◌, ◌++◌, ◌∷◌, ℕ, List, [], None};
ghost use Rattle.std.specs.Prelude.{true, length, min, is_some, IsTrue, IfOk, IfErr, IfNone};
ghost use Rattle.std.specs.Prelude.{IfSome, OnOk, OnErr};
ghost use Rattle.std.specs.List.{list_all, list_any, filter_map, IsDistinct};
ghost use Rattle.std.specs.Str.{bytes_eq};
ghost use Rattle.pw_info.specs.declared.kind.Kind.{Kind as KindOfCell};
ghost use Rattle.pw_procs.specs.Registry.{cells_of};
ghost use Rattle.pw_procs.specs.Registering.{place_of_name};
ghost use Rattle.pw_procs.specs.inside.Shapes.{most_arguments};
ghost use Rattle.pw_decl.specs.Compound.{sum_of_sizes, no_size, size_of_local, IsTooLarge};
ghost use Rattle.pw_decl.specs.Declaration.{Begin, Local, Call, begun, callable_named};
ghost use Rattle.pw_decl.specs.Declaration.{NameKinds, NamesKind, with_call, with_compound, with_local};
ghost use Rattle.pw_decl.specs.Declaration.{parameter_kinds, parameter_names};
ghost use Rattle.pw_decl.specs.Limits.{most_compounds, most_inner_cells, most_parameters};
ghost use Rattle.pw_decl.specs.Prelude.{prelude_compounds};
ghost use Rattle.pw_decl.specs.inside.Fields.{declared};
ghost use Rattle.pw_decl.specs.inside.Fields.{outside, inside};
ghost use Rattle.pw_decl.specs.inside.Held.{size_of};
ghost use Rattle.pw_decl.specs.inside.Opened.{IsBegun, IsGrown, IsOpen, open_of};
ghost use Rattle.pw_decl.specs.inside.Forms.{are_parameters};
ghost use Rattle.pw_decl.specs.WellDeclared.{IsSmall};
ghost use Rattle.pw_decl.specs.inside.SentenceFaults.{DeclaresSentence, IsFaultless, IsToldOf};

use crate::compound::{Compound, OpenCompound, Size};
use crate::decl_fault::DeclFaultKind;
use crate::declaration::Declaration;
use crate::flattening::flatten;
use crate::step::{Callable, Step};
use pw_info::{Kind, Words, read_name};
use pw_procs::{Arguments, NameTable};
use std::alloc::{AllocError, Allocator};

const MOST_PARAMETERS: usize = 8;

const MOST_ARGUMENTS: usize = 9;

const MOST_INSTANCES: u32 = 256;

const MOST_INNER_CELLS: u32 = 256;

// Whether the word is one of the names of parameters.
fn names_parameter(word: &[u8], mut parameters: Words<'_>) -> bool
    ensures { result ≡ list_any (bytes_eq word.now) (parameter_names parameters.entry) }
{
    while let Some(name) = parameters.next() {
        let Some(_) = parameters.next() else {
            return false;
        };
        if word == name {
            return true;
        }
    }
    false
}

// Whether no two parameters have the same name. A line has few parameters, so each is searched for
// among those after it, without memory.
fn parameters_differ(mut parameters: Words<'_>) -> bool
    ensures { IsTrue result ↔ IsDistinct bytes_eq (parameter_names parameters.entry) }
{
    while let Some(name) = parameters.next() {
        let Some(_) = parameters.next() else {
            return true;
        };
        if names_parameter(name, parameters.again()) {
            return false;
        }
    }
    true
}

// Whether the kind of each parameter is declared.
fn have_kinds<A: Allocator + Copy>(
    declaration: &Declaration<'_, A>,
    mut parameters: Words<'_>,
) -> bool
    ensures { IsTrue result ↔ ((kinds : List KindOfCell)
        × NameKinds (declared declaration.now) (parameter_kinds parameters.entry) kinds) }
{
    while let Some(_) = parameters.next() {
        let Some(word) = parameters.next() else {
            return true;
        };
        if declaration.kind(word).is_none() {
            return false;
        }
    }
    true
}

// The number of parameters, counted only up to one too many.
fn count_parameters(mut parameters: Words<'_>) -> usize
    ensures { result ≡ min (length (parameter_names parameters.entry)) (most_parameters + 1) }
{
    let mut count = 0;
    while count <= MOST_PARAMETERS && parameters.next().is_some() && parameters.next().is_some() {
        count += 1;
    }
    count
}

// Begins a compound of this name, without parameters.
fn begun_without<A: Allocator + Copy>(alloc: A, name: &str) -> Result<OpenCompound<A>, AllocError>
    ensures begun { IfOk result (λ opened. open_of opened ≡ begun name.now [] []) }
    ensures kinds { IfOk result (λ opened. opened.kinds.items ≡ []) }
    ensures size { IfOk result (λ opened. size_of opened.compound.size ≡ no_size) }
{
    Ok(OpenCompound {
        name: String::from_str(alloc, name)?,
        names: NameTable::new(alloc),
        kinds: Vec::new(alloc),
        compound: Compound {
            parameters: Vec::new(alloc),
            steps: Vec::new(alloc),
            size: Size {
                instances: 0,
                inner_cells: 0,
            },
        },
    })
}

// Adds a parameter.
fn add_parameter<A: Allocator + Copy>(
    opened: &mut OpenCompound<A>,
    name: &str,
    kind: Kind,
) -> Result<(), AllocError>
    requires fresh { place_of_name opened.old.names name.now ≡ None }
    ensures name { opened.new.name ≡ opened.old.name }
    ensures names { OnOk result (opened.new.names ≡ opened.old.names ++ name.now ∷ []) }
    ensures kinds { OnOk result (opened.new.kinds.items ≡ opened.old.kinds.items ++ kind ∷ []) }
    ensures parameters { OnOk result (opened.new.compound.parameters.items
        ≡ opened.old.compound.parameters.items ++ kind ∷ []) }
    ensures steps { opened.new.compound.steps ≡ opened.old.compound.steps }
    ensures size { opened.new.compound.size ≡ opened.old.compound.size }
{
    opened.names.add(name)?;
    opened.kinds.push(kind)?;
    opened.compound.parameters.push(kind)?;
    Ok(())
}

// Takes the name and the kind of the next parameter, if there is one. The kinds of all are declared.
fn next_parameter<'a, A: Allocator + Copy>(
    declaration: &Declaration<'_, A>,
    parameters: &mut Words<'a>,
) -> Option<(&'a str, Kind)>
    requires named { are_parameters parameters.old ≡ true }
    requires known { (kinds : List KindOfCell)
        × NameKinds (declared declaration.now) (parameter_kinds parameters.old) kinds }
    ensures named { are_parameters parameters.new ≡ true }
    ensures known { (kinds : List KindOfCell)
        × NameKinds (declared declaration.now) (parameter_kinds parameters.new) kinds }
    ensures some { IfSome result (λ next. (word : List ℕ) × (parameters.old
        ≡ next.0.now ∷ word ∷ parameters.new) × NamesKind (declared declaration.now) word next.1) }
    ensures none { IfNone result (parameters.old ≡ []) }
{
    let name = parameters.next()?;
    let (Some(name), Some(kind)) = (read_name(name), parameters.next()) else {
        unreachable!("the words are names and kinds in turn");
    };
    let Some(kind) = declaration.kind(kind) else {
        unreachable!("the kinds are there");
    };
    Some((name, kind))
}

// Adds the parameters to a compound that has none yet. Their names differ, and their kinds are
// declared.
fn add_parameters<A: Allocator + Copy>(
    declaration: &Declaration<'_, A>,
    opened: &mut OpenCompound<A>,
    mut parameters: Words<'_>,
) -> Result<(), AllocError>
    requires begun { open_of opened.old ≡ begun (open_of opened.old).name [] [] }
    requires kinds { opened.old.kinds.items ≡ [] }
    requires size { size_of opened.old.compound.size ≡ no_size }
    requires named { are_parameters parameters ≡ true }
    requires distinct { IsDistinct bytes_eq (parameter_names parameters) }
    requires known { (kinds : List KindOfCell)
        × NameKinds (declared declaration.now) (parameter_kinds parameters) kinds }
    ensures begun { OnOk result (IsBegun (declared declaration.now) (open_of opened.old).name
        parameters.entry opened.new) }
{
    while let Some((name, kind)) = next_parameter(declaration, &mut parameters) {
        add_parameter(opened, name, kind)?;
    }
    Ok(())
}

// Begins a compound. The names of its parameters differ, and their kinds are declared.
fn begun_with<A: Allocator + Copy>(
    alloc: A,
    declaration: &Declaration<'_, A>,
    name: &str,
    parameters: Words<'_>,
) -> Result<OpenCompound<A>, AllocError>
    requires named { are_parameters parameters ≡ true }
    requires distinct { IsDistinct bytes_eq (parameter_names parameters) }
    requires known { (kinds : List KindOfCell)
        × NameKinds (declared declaration.now) (parameter_kinds parameters) kinds }
    ensures begun { IfOk result (λ opened.
        IsBegun (declared declaration.now) name.now parameters.entry opened) }
{
    let mut opened = begun_without(alloc, name)?;
    add_parameters(declaration, &mut opened, parameters).and(Ok(opened))
}

// The first fault of a line that begins a compound of this name with these parameters.
fn begin_fault<A: Allocator + Copy>(
    declaration: &Declaration<'_, A>,
    name: &str,
    parameters: Words<'_>,
) -> Option<DeclFaultKind>
    ensures some { IfSome result (IsToldOf (outside declaration.now)
        (Begin name.now parameters.entry)) }
    ensures none { IfNone result (IsFaultless (outside declaration.now)
        (Begin name.now parameters.entry)) }
    ensures fresh { IfNone result (callable_named (declared declaration.now) name.now ≡ None) }
    ensures distinct { IfNone result (IsDistinct bytes_eq (parameter_names parameters.entry)) }
    ensures known { IfNone result ((kinds : List KindOfCell)
        × NameKinds (declared declaration.now) (parameter_kinds parameters.entry) kinds) }
    ensures room { IfNone result (length (declared declaration.now).compounds
        < prelude_compounds + most_compounds) }
    ensures few { IfNone result (length (parameter_names parameters.entry) ≤ most_parameters) }
{
    if declaration.callable(name.as_bytes()).is_some() || !parameters_differ(parameters.again()) {
        return Some(DeclFaultKind::DuplicateName);
    }
    if !have_kinds(declaration, parameters.again()) {
        return Some(DeclFaultKind::UnknownName);
    }
    if parameters.is_empty() {
        return Some(DeclFaultKind::WrongArguments);
    }
    if declaration.is_full() || count_parameters(parameters.again()) > MOST_PARAMETERS {
        return Some(DeclFaultKind::Limit);
    }
    None
}

/// Begins a compound of this name with these parameters, given as alternating names and kinds.
pub(crate) fn begin_compound<A: Allocator + Copy>(
    alloc: A,
    declaration: &Declaration<'_, A>,
    name: &str,
    parameters: Words<'_>,
) -> Result<OpenCompound<A>, DeclFaultKind>
    requires named { are_parameters parameters ≡ true }
    ensures ok { IfOk result (λ opened. DeclaresSentence (outside declaration.now)
        (Begin name.now parameters.entry) (inside declaration.now opened)) }
    ensures kept { IfOk result (λ opened. IsOpen (declared declaration.now) opened) }
    ensures err { IfErr result (IsToldOf (outside declaration.now)
        (Begin name.now parameters.entry)) }
{
    if let Some(why) = begin_fault(declaration, name, parameters.again()) {
        return Err(why);
    }
    match begun_with(alloc, declaration, name, parameters) {
        Ok(opened) => Ok(opened),
        Err(_) => Err(DeclFaultKind::Memory),
    }
}

// Whether the two sizes together exceed the limits of an expansion.
fn outgrows(size: Size, more: Size) -> bool
    requires small { IsSmall (size_of size) × IsSmall (size_of more) }
    ensures { IsTrue result ↔ IsTooLarge (sum_of_sizes (size_of size) (size_of more)) }
{
    size.instances + more.instances > MOST_INSTANCES
        || size.inner_cells + more.inner_cells > MOST_INNER_CELLS
}

// Adds a private cell, for which there is room.
fn add_local<A: Allocator + Copy>(
    opened: &mut OpenCompound<A>,
    name: &str,
    kind: Kind,
) -> Result<(), AllocError>
    requires fresh { place_of_name opened.old.names name.now ≡ None }
    requires room { opened.old.compound.size.inner_cells < most_inner_cells }
    ensures ok { OnOk result (IsGrown opened.old (with_local
        (open_of opened.old) name.now kind) size_of_local opened.new) }
    ensures err { OnErr result (IsGrown opened.old (open_of opened.old) no_size opened.new) }
{
    opened.kinds.reserve(1)?;
    opened.compound.steps.reserve(1)?;
    opened.names.add(name)?;
    opened.kinds.push(kind).unwrap();
    opened.compound.steps.push(Step::Local(kind)).unwrap();
    opened.compound.size.inner_cells += 1;
    Ok(())
}

/// Declares a private cell of this name, and of the kind with that name.
pub(crate) fn declare_local<A: Allocator + Copy>(
    declaration: &Declaration<'_, A>,
    opened: &mut OpenCompound<A>,
    name: &str,
    kind: &[u8],
) -> Result<(), DeclFaultKind>
    requires kept { IsOpen (declared declaration.now) opened.old }
    ensures kept { IsOpen (declared declaration.now) opened.new }
    ensures ok { OnOk result (DeclaresSentence (inside declaration.now opened.old)
        (Local name.now kind.now) (inside declaration.now opened.new)) }
    ensures err { IfErr result (IsToldOf (inside declaration.now opened.old)
        (Local name.now kind.now)) }
{
    if opened.names.find(name.as_bytes()).is_some() {
        return Err(DeclFaultKind::DuplicateName);
    }
    let Some(kind) = declaration.kind(kind) else {
        return Err(DeclFaultKind::UnknownName);
    };
    if opened.compound.size.inner_cells >= MOST_INNER_CELLS {
        return Err(DeclFaultKind::Limit);
    }
    match add_local(opened, name, kind) {
        Ok(()) => Ok(()),
        Err(_) => Err(DeclFaultKind::Memory),
    }
}

// Whether each word names a cell of the compound.
fn are_cells<A: Allocator + Copy>(names: &NameTable<A>, mut words: Words<'_>) -> bool
    ensures { result ≡ list_all (λ word. is_some (place_of_name names.now word)) words.entry }
{
    while let Some(word) = words.next() {
        if names.find(word).is_none() {
            return false;
        }
    }
    true
}

// The places of the cells that the words name. None if there are more than nine.
fn place_arguments<A: Allocator + Copy>(
    names: &NameTable<A>,
    mut words: Words<'_>,
) -> Option<Arguments>
    requires few { length names.now ≤ 264 }
    requires some { words ≢ [] }
    requires known { list_all (λ word. is_some (place_of_name names.now word)) words ≡ true }
    ensures none { IfNone result (most_arguments < length words.entry) }
    ensures some { IfSome result (λ arguments.
        cells_of arguments ≡ filter_map (place_of_name names.now) words.entry) }
{
    let mut places = [0; MOST_ARGUMENTS];
    let mut count = 0;
    while let Some(word) = words.next() {
        let Some(place) = names.find(word) else {
            unreachable!("each word names a cell");
        };
        if count >= MOST_ARGUMENTS {
            return None;
        }
        places[count] = place as u32;
        count += 1;
    }
    Arguments::of(&places[..count])
}

// Adds a call, for which there is room.
fn add_call<A: Allocator + Copy>(
    opened: &mut OpenCompound<A>,
    callable: Callable,
    arguments: Arguments,
    size: Size,
) -> Result<(), AllocError>
    requires small { IsSmall (size_of opened.old.compound.size) × IsSmall (size_of size) }
    ensures ok { OnOk result (IsGrown opened.old (with_call (open_of opened.old) callable
        (cells_of arguments)) (size_of size) opened.new) }
    ensures err { OnErr result (IsGrown opened.old (open_of opened.old) no_size opened.new) }
{
    opened.compound.steps.push(Step::Call(callable, arguments))?;
    opened.compound.size.instances += size.instances;
    opened.compound.size.inner_cells += size.inner_cells;
    Ok(())
}

/// Declares a call of the callable of this name over the cells of those names, one or more.
pub(crate) fn declare_call<A: Allocator + Copy>(
    declaration: &Declaration<'_, A>,
    opened: &mut OpenCompound<A>,
    callable: &[u8],
    arguments: Words<'_>,
) -> Result<(), DeclFaultKind>
    requires kept { IsOpen (declared declaration.now) opened.old }
    requires some { arguments ≢ [] }
    ensures kept { IsOpen (declared declaration.now) opened.new }
    ensures ok { OnOk result (DeclaresSentence (inside declaration.now opened.old)
        (Call callable.now arguments.entry) (inside declaration.now opened.new)) }
    ensures err { IfErr result (IsToldOf (inside declaration.now opened.old)
        (Call callable.now arguments.entry)) }
{
    let Some(callable) = declaration.callable(callable) else {
        return Err(DeclFaultKind::UnknownName);
    };
    if !are_cells(&opened.names, arguments.again()) {
        return Err(DeclFaultKind::UnknownName);
    }
    let Some(arguments) = place_arguments(&opened.names, arguments) else {
        return Err(DeclFaultKind::WrongArguments);
    };
    if !declaration.accepts_at(callable, &opened.kinds, arguments) {
        return Err(DeclFaultKind::WrongArguments);
    }
    let size = declaration.size(callable);
    if outgrows(opened.compound.size, size) {
        return Err(DeclFaultKind::Limit);
    }
    match add_call(opened, callable, arguments, size) {
        Ok(()) => Ok(()),
        Err(_) => Err(DeclFaultKind::Memory),
    }
}

/// Ends an open compound. Fails only when out of memory; then nothing changes.
pub(crate) fn end_compound<A: Allocator + Copy>(
    alloc: A,
    declaration: &mut Declaration<'_, A>,
    opened: OpenCompound<A>,
) -> Result<(), AllocError>
    requires { IsOpen (declared declaration.old) opened }
    ensures ok { OnOk result ((declared declaration.new) ≡ with_compound
        (declared declaration.old) (open_of opened).name (open_of opened).compound) }
    ensures err { OnErr result ((declared declaration.new) ≡ (declared declaration.old)) }
{
    let flattened = flatten(alloc, declaration, &opened)?;
    declaration.add_compound(opened, flattened)
}
