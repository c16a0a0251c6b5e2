//! Reading one line of a declaration: what it declares, or its first fault.
ghost use Rattle.std.specs.Prelude.{◌≡◌, ◌≤◌, true, false, not, length, IfOk, IfErr, OnOk, OnErr};
ghost use Rattle.pw_decl.specs.Declaration.{SoFar, User, Premise, PremiseOf, Cell};
ghost use Rattle.std.specs.List.{list_all};
ghost use Rattle.pw_info.specs.Words.{is_idle, is_allowed};
ghost use Rattle.pw_decl.specs.Faults.{Declares};
ghost use Rattle.pw_decl.specs.Limits.{most_line_bytes};
ghost use Rattle.pw_decl.specs.inside.Fields.{declared};
ghost use Rattle.pw_decl.specs.inside.Opened.{IsOpen, IsWellPlaced};
ghost use Rattle.pw_decl.specs.inside.Fields.{outside, inside, placed};
ghost use Rattle.pw_decl.specs.inside.Forms.{inner_in, outer_in};
ghost use Rattle.pw_decl.specs.inside.SentenceFaults.{DeclaresSentence, HasGoodParts, IsToldOf};
ghost use Rattle.pw_decl.specs.inside.SentenceFaults.{IsToldOfLine};

use crate::compound::{OpenCompound, Place};
use crate::compound_line::{begin_compound, declare_call, declare_local, end_compound};
use crate::decl_fault::DeclFaultKind;
use crate::declaration::Declaration;
use crate::sentence::{InnerSentence, OuterSentence, read_header, read_inner, read_outer};
use crate::set_line::declare_set;
use pw_info::{allows_all, idles};
use std::alloc::Allocator;

const MOST_LINE_BYTES: usize = 4096;

const MOST_USERS: u8 = 64;

const MOST_CELLS: u32 = 1024;

// Declares a user of this name.
fn declare_user<A: Allocator + Copy>(
    declaration: &mut Declaration<'_, A>,
    name: &str,
) -> Result<(), DeclFaultKind>
    ensures ok { OnOk result (DeclaresSentence (outside declaration.old) (User name.now)
        (outside declaration.new)) }
    ensures err { IfErr result (IsToldOf (outside declaration.old) (User name.now)) }
    ensures unchanged { OnErr result ((declared declaration.new) ≡
        (declared declaration.old)) }
{
    if declaration.user(name.as_bytes()).is_some() {
        return Err(DeclFaultKind::DuplicateName);
    }
    if declaration.users() >= MOST_USERS {
        return Err(DeclFaultKind::Limit);
    }
    match declaration.add_user(name) {
        Ok(()) => Ok(()),
        Err(_) => Err(DeclFaultKind::Memory),
    }
}

// Declares a premise of this name, which belongs to no user.
fn declare_premise<A: Allocator + Copy>(
    declaration: &mut Declaration<'_, A>,
    name: &str,
) -> Result<(), DeclFaultKind>
    ensures ok { OnOk result (DeclaresSentence (outside declaration.old) (Premise name.now)
        (outside declaration.new)) }
    ensures err { IfErr result (IsToldOf (outside declaration.old) (Premise name.now)) }
    ensures unchanged { OnErr result ((declared declaration.new) ≡
        (declared declaration.old)) }
{
    if declaration.premise(name.as_bytes()).is_some() {
        return Err(DeclFaultKind::DuplicateName);
    }
    if declaration.premises() >= declaration.version().most_premises() {
        return Err(DeclFaultKind::Limit);
    }
    match declaration.add_premise(name, None) {
        Ok(()) => Ok(()),
        Err(_) => Err(DeclFaultKind::Memory),
    }
}

// Declares a premise of this name that belongs to the user of that name.
fn declare_premise_of<A: Allocator + Copy>(
    declaration: &mut Declaration<'_, A>,
    name: &str,
    user: &[u8],
) -> Result<(), DeclFaultKind>
    ensures ok { OnOk result (DeclaresSentence (outside declaration.old)
        (PremiseOf name.now user.now) (outside declaration.new)) }
    ensures err { IfErr result (IsToldOf (outside declaration.old) (PremiseOf name.now user.now)) }
    ensures unchanged { OnErr result ((declared declaration.new) ≡
        (declared declaration.old)) }
{
    if declaration.premise(name.as_bytes()).is_some() {
        return Err(DeclFaultKind::DuplicateName);
    }
    let Some(owner) = declaration.user(user) else {
        return Err(DeclFaultKind::UnknownName);
    };
    if declaration.premises() >= declaration.version().most_premises() {
        return Err(DeclFaultKind::Limit);
    }
    match declaration.add_premise(name, Some(owner)) {
        Ok(()) => Ok(()),
        Err(_) => Err(DeclFaultKind::Memory),
    }
}

// Declares a cell of this name, and of the kind with that name.
fn declare_cell<A: Allocator + Copy>(
    declaration: &mut Declaration<'_, A>,
    name: &str,
    kind: &[u8],
) -> Result<(), DeclFaultKind>
    ensures ok { OnOk result (DeclaresSentence (outside declaration.old) (Cell name.now kind.now)
        (outside declaration.new)) }
    ensures err { IfErr result (IsToldOf (outside declaration.old) (Cell name.now kind.now)) }
    ensures unchanged { OnErr result ((declared declaration.new) ≡
        (declared declaration.old)) }
{
    if declaration.cell(name.as_bytes()).is_some() {
        return Err(DeclFaultKind::DuplicateName);
    }
    let Some(kind) = declaration.kind(kind) else {
        return Err(DeclFaultKind::UnknownName);
    };
    if declaration.cells() >= MOST_CELLS {
        return Err(DeclFaultKind::Limit);
    }
    match declaration.add_cell(name, kind) {
        Ok(()) => Ok(()),
        Err(_) => Err(DeclFaultKind::Memory),
    }
}

// Declares what a sentence outside a compound says, and answers the place of the next line.
fn declare_outside<A: Allocator + Copy>(
    alloc: A,
    declaration: &mut Declaration<'_, A>,
    sentence: OuterSentence<'_>,
) -> Result<Place<A>, DeclFaultKind>
    requires parts { HasGoodParts (outer_in sentence) }
    ensures ok { IfOk result (λ place. DeclaresSentence (outside declaration.old)
        (outer_in sentence.entry) (placed (declared declaration.new) place)) }
    ensures well { IfOk result (λ place. IsWellPlaced (declared declaration.new) place) }
    ensures err { IfErr result (IsToldOf (outside declaration.old) (outer_in sentence.entry)) }
{
    let done = match sentence {
        OuterSentence::User { name } => declare_user(declaration, name),
        OuterSentence::Premise { name } => declare_premise(declaration, name),
        OuterSentence::PremiseOf { name, user } => declare_premise_of(declaration, name, user),
        OuterSentence::Set { name, members } => declare_set(alloc, declaration, name, members),
        OuterSentence::Cell { name, kind } => declare_cell(declaration, name, kind),
        OuterSentence::Compound { name, parameters } => {
            return Ok(Place::Inside(begin_compound(alloc, declaration, name, parameters)?));
        }
    };
    done.and(Ok(Place::Outside))
}

// Declares what a sentence inside a compound says, and answers the place of the next line.
fn declare_inside<A: Allocator + Copy>(
    alloc: A,
    declaration: &mut Declaration<'_, A>,
    mut opened: OpenCompound<A>,
    sentence: InnerSentence<'_>,
) -> Result<Place<A>, DeclFaultKind>
    requires kept { IsOpen (declared declaration.old) opened }
    requires parts { HasGoodParts (inner_in sentence) }
    ensures ok { IfOk result (λ place. DeclaresSentence (inside declaration.old opened)
        (inner_in sentence.entry) (placed (declared declaration.new) place)) }
    ensures well { IfOk result (λ place. IsWellPlaced (declared declaration.new) place) }
    ensures err { IfErr result (IsToldOf (inside declaration.old opened)
        (inner_in sentence.entry)) }
{
    let done = match sentence {
        InnerSentence::Local { name, kind } => declare_local(declaration, &mut opened, name, kind),
        InnerSentence::Call {
            callable,
            arguments,
        } => declare_call(declaration, &mut opened, callable, arguments),
        InnerSentence::End => {
            return match end_compound(alloc, declaration, opened) {
                Ok(()) => Ok(Place::Outside),
                Err(_) => Err(DeclFaultKind::Memory),
            };
        }
    };
    done.and(Ok(Place::Inside(opened)))
}

// Declares what a line says that is not idle, and answers the place of the next line.
fn declare_line<A: Allocator + Copy>(
    alloc: A,
    declaration: &mut Declaration<'_, A>,
    place: Place<A>,
    line: &[u8],
) -> Result<Place<A>, DeclFaultKind>
    requires kept { IsWellPlaced (declared declaration.old) place }
    requires spoken { is_idle line.now ≡ false }
    requires allowed { list_all is_allowed line.now ≡ true }
    requires short { length line.now ≤ most_line_bytes }
    ensures ok { IfOk result (λ next. Declares (placed (declared declaration.old) place) line.now
        (placed (declared declaration.new) next)) }
    ensures kept { IfOk result (λ next. IsWellPlaced (declared declaration.new) next) }
    ensures err { IfErr result (IsToldOfLine (placed (declared declaration.old) place) line.now) }
{
    match place {
        Place::BeforeHeader => {
            let Some(version) = read_header(line) else {
                return Err(DeclFaultKind::Syntax);
            };
            declaration.set_version(version);
            Ok(Place::Outside)
        }
        Place::Outside => {
            let Some(sentence) = read_outer(line) else {
                return Err(DeclFaultKind::Syntax);
            };
            declare_outside(alloc, declaration, sentence)
        }
        Place::Inside(opened) => {
            let Some(sentence) = read_inner(line) else {
                return Err(DeclFaultKind::Syntax);
            };
            declare_inside(alloc, declaration, opened, sentence)
        }
    }
}

// Whether the line says something. Fails if it is too long, or if a byte of it is not allowed.
fn speaks(line: &[u8]) -> Result<bool, DeclFaultKind>
    ensures ok { IfOk result (λ speaks. is_idle line.now ≡ not speaks) }
    ensures allowed { IfOk result (λ speaks. speaks ≡ true → list_all is_allowed line.now ≡ true) }
    ensures short { OnOk result (length line.now ≤ most_line_bytes) }
    ensures err { (so_far : SoFar) → IfErr result (IsToldOfLine so_far line.now) }
{
    if line.len() > MOST_LINE_BYTES {
        return Err(DeclFaultKind::Limit);
    }
    if idles(line) {
        return Ok(false);
    }
    if !allows_all(line) {
        return Err(DeclFaultKind::Syntax);
    }
    Ok(true)
}

/// Reads one line of a declaration, adds what it declares, and answers the place of the next line.
///
/// An error is the first fault of the line, or out of memory.
pub(crate) fn read_declaration_line<A: Allocator + Copy>(
    alloc: A,
    declaration: &mut Declaration<'_, A>,
    place: Place<A>,
    line: &[u8],
) -> Result<Place<A>, DeclFaultKind>
    requires kept { IsWellPlaced (declared declaration.old) place }
    ensures ok { IfOk result (λ next. Declares (placed (declared declaration.old) place) line.now
        (placed (declared declaration.new) next)) }
    ensures kept { IfOk result (λ next. IsWellPlaced (declared declaration.new) next) }
    ensures err { IfErr result (IsToldOfLine (placed (declared declaration.old) place) line.now) }
{
    match speaks(line) {
        Ok(true) => declare_line(alloc, declaration, place, line),
        Ok(false) => Ok(place),
        Err(why) => Err(why),
    }
}
