//! Reading a line of a transcript: its form first, then its names, in the order of the refusals.

ghost use Rattle.std.specs.Prelude.{◌≡◌, ◌<◌, ◌≤◌, length, true, false, None, Some, IfOk, IfErr, IfNone};
ghost use Rattle.std.specs.Prelude.{IfSome, OnOk, OnErr};
ghost use Rattle.std.specs.List.{list_all};
ghost use Rattle.pw_procs.specs.Registering.{place_of_name};
ghost use Rattle.pw_procs.specs.inside.Shapes.{most_arguments};
ghost use Rattle.pw_decl.specs.inside.Fields.{declared};
ghost use Rattle.pw_decl.specs.Declaration.{Declared};
ghost use Rattle.pw_info.specs.Words.{is_idle};
ghost use Rattle.pw_sessions.specs.Reply.{LineReading, Refused};
ghost use Rattle.pw_transcript.specs.Limits.{most_command_bytes};
ghost use Rattle.pw_transcript.specs.Sentence.{Tell, Attach, Believe, Doubt, Ask, Why};
ghost use Rattle.pw_transcript.specs.inside.Forms.{before_under};
ghost use Rattle.pw_transcript.specs.inside.Resolving.{IsReadFor, IsSpoken};
ghost use Rattle.pw_transcript.specs.Reading as spec;

use crate::sentence::next_cell;
use crate::spoken::read_words;
use pw_decl::Declaration;
use pw_facts::Fact;
use pw_info::{Words, allows_all, idles, read_info};
use pw_premises::PremiseSet;
use pw_procs::Arguments;
use pw_sessions::{Command, Refusal};
use std::alloc::Allocator;

/// The greatest number of bytes in a line.
pub const MOST_LINE_BYTES: usize = 1024;

// The greatest number of cells that a callable takes.
const MOST_CELLS: usize = 9;

// The premises that the words name, or the refusal of a word that names no premise. Inlined, so
// that the answer need not be stored.
#[inline(always)]
fn premise_set<A: Allocator + Copy>(
    declaration: &Declaration<'_, A>,
    mut words: Words<'_>,
) -> Result<PremiseSet, Refusal>
    ensures ok { IfOk result (λ set.
        set ≡ spec.premises_of (declared declaration.now) words.entry) }
    ensures known { OnOk result (spec.all_known (declared declaration.now) words.entry ≡ true) }
    ensures unknown { OnErr result (spec.all_known (declared declaration.now) words.entry ≡ false) }
    ensures err { IfErr result (λ refusal. refusal ≡ Refusal.UnknownPremise) }
{
    let mut set = PremiseSet::empty();
    while let Some(word) = words.next() {
        let Some(premise) = declaration.premise(word) else {
            return Err(Refusal::UnknownPremise);
        };
        set.insert(premise);
    }
    Ok(set)
}

// Whether the user may tell or attach under this premise.
fn may_use<A: Allocator + Copy>(declaration: &Declaration<'_, A>, user: u8, premise: u16) -> bool
    requires { premise < length (declared declaration.now).premises }
    ensures { result ≡ spec.may_use_at (declared declaration.now) user (Some premise) }
{
    let Some(owner) = declaration.owner(premise) else {
        return true;
    };
    owner == user
}

// The premises that the words name, and whether the user may tell or attach under each; or the
// refusal of a word that names no premise, no matter who owns the premises before it. Inlined, so
// that the answer need not be stored.
#[inline(always)]
fn support_of<A: Allocator + Copy>(
    declaration: &Declaration<'_, A>,
    user: u8,
    mut words: Words<'_>,
) -> Result<(PremiseSet, bool), Refusal>
    ensures ok { IfOk result (λ support.
        support.0 ≡ spec.premises_of (declared declaration.now) words.entry) }
    ensures own { IfOk result (λ support.
        support.1 ≡ list_all (spec.may_use (declared declaration.now) user) words.entry) }
    ensures known { OnOk result (spec.all_known (declared declaration.now) words.entry ≡ true) }
    ensures unknown { OnErr result (spec.all_known (declared declaration.now) words.entry ≡ false) }
    ensures err { IfErr result (λ refusal. refusal ≡ Refusal.UnknownPremise) }
{
    let mut set = PremiseSet::empty();
    let mut may_use_all = true;
    while let Some(word) = words.next() {
        let Some(premise) = declaration.premise(word) else {
            return Err(Refusal::UnknownPremise);
        };
        set.insert(premise);
        may_use_all &= may_use(declaration, user, premise);
    }
    Ok((set, may_use_all))
}

// The tell of a user.
pub(crate) fn resolve_tell<A: Allocator + Copy>(
    declaration: &Declaration<'_, A>,
    user: u8,
    cell: &[u8],
    info: &[u8],
    premises: Words<'_>,
) -> Result<Command, Refusal>
    ensures { IsReadFor (declared declaration.now) user (Tell cell.now info.now premises.entry) result }
{
    let Some(cell) = declaration.cell(cell) else {
        return Err(Refusal::UnknownCell);
    };
    let Some(info) = read_info(info, declaration.cell_kind(cell), declaration) else {
        return Err(Refusal::WrongInformation);
    };
    let Ok((support, may_use_all)) = support_of(declaration, user, premises) else {
        return Err(Refusal::UnknownPremise);
    };
    if !may_use_all {
        return Err(Refusal::NotYourPremise);
    }
    let fact = Fact { info, support };
    Ok(Command::Tell { user, cell, fact })
}

// Whether each word before `under` names a cell.
fn are_cells<A: Allocator + Copy>(declaration: &Declaration<'_, A>, mut words: Words<'_>) -> bool
    ensures { result ≡ spec.all_cells (declared declaration.now) (before_under words.entry) }
{
    while let Some(word) = next_cell(&mut words) {
        if declaration.cell(word).is_none() {
            return false;
        }
    }
    true
}

// The cells that the words before `under` name. Each of these words names a cell. None if there are
// more than nine.
fn named_cells<A: Allocator + Copy>(
    declaration: &Declaration<'_, A>,
    mut words: Words<'_>,
) -> Option<Arguments>
    requires some { 0 < length (before_under words) }
    requires known { spec.all_cells (declared declaration.now) (before_under words) ≡ true }
    ensures none { IfNone result (most_arguments < length (before_under words.entry)) }
    ensures some { IfSome result (λ cells. spec.HoldsCells cells
        (spec.cells_named (declared declaration.now) (before_under words.entry))) }
{
    let mut cells = [0; MOST_CELLS];
    let mut count = 0;
    while let Some(word) = next_cell(&mut words) {
        let Some(cell) = declaration.cell(word) else {
            unreachable!("each word names a cell");
        };
        if count >= MOST_CELLS {
            return None;
        }
        cells[count] = cell;
        count += 1;
    }
    Arguments::of(&cells[..count])
}

// The attachment of a user: a callable to the cells that the words before `under` name, under the
// premises that the words after it name. Never inlined, so that other lines make no room for its
// cells.
#[inline(never)]
pub(crate) fn resolve_attach<A: Allocator + Copy>(
    declaration: &Declaration<'_, A>,
    user: u8,
    callable: &[u8],
    cells: Words<'_>,
    under: Words<'_>,
) -> Result<Command, Refusal>
    requires some { 0 < length (before_under cells) }
    ensures { IsReadFor (declared declaration.now) user (Attach callable.now (before_under cells.entry) under.entry) result }
{
    // A callable takes at most nine cells.
    declaration.limits();
    if !are_cells(declaration, cells.again()) {
        return Err(Refusal::UnknownCell);
    }
    let Some(callable) = declaration.callable(callable) else {
        return Err(Refusal::UnknownProcedure);
    };
    let Some(cells) = named_cells(declaration, cells) else {
        return Err(Refusal::WrongArguments);
    };
    if !declaration.accepts_at(callable, declaration.kinds(), cells) {
        return Err(Refusal::WrongArguments);
    }
    let Ok((support, may_use_all)) = support_of(declaration, user, under) else {
        return Err(Refusal::UnknownPremise);
    };
    if !may_use_all {
        return Err(Refusal::NotYourPremise);
    }
    Ok(Command::Attach {
        user,
        callable,
        cells,
        support,
    })
}

// The cell that a user asks about, or the refusal of a word that names no cell.
fn asked_cell<A: Allocator + Copy>(
    declaration: &Declaration<'_, A>,
    word: &[u8],
) -> Result<u32, Refusal>
    ensures ok { IfOk result (λ cell.
        place_of_name (declared declaration.now).cells word.now ≡ Some cell) }
    ensures unknown { OnErr result
        (place_of_name (declared declaration.now).cells word.now ≡ None) }
    ensures err { IfErr result (λ refusal. refusal ≡ Refusal.UnknownCell) }
{
    match declaration.cell(word) {
        Some(cell) => Ok(cell),
        None => Err(Refusal::UnknownCell),
    }
}

// The believe of a user.
pub(crate) fn resolve_believe<A: Allocator + Copy>(
    declaration: &Declaration<'_, A>,
    user: u8,
    premises: Words<'_>,
) -> Result<Command, Refusal>
    ensures { IsReadFor (declared declaration.now) user (Believe premises.entry) result }
{
    match premise_set(declaration, premises) {
        Ok(premises) => Ok(Command::Believe { user, premises }),
        Err(refusal) => Err(refusal),
    }
}

// The doubt of a user.
pub(crate) fn resolve_doubt<A: Allocator + Copy>(
    declaration: &Declaration<'_, A>,
    user: u8,
    premises: Words<'_>,
) -> Result<Command, Refusal>
    ensures { IsReadFor (declared declaration.now) user (Doubt premises.entry) result }
{
    match premise_set(declaration, premises) {
        Ok(premises) => Ok(Command::Doubt { user, premises }),
        Err(refusal) => Err(refusal),
    }
}

// The question of a user about a cell.
pub(crate) fn resolve_ask<A: Allocator + Copy>(
    declaration: &Declaration<'_, A>,
    user: u8,
    cell: &[u8],
) -> Result<Command, Refusal>
    ensures { IsReadFor (declared declaration.now) user (Ask cell.now) result }
{
    match asked_cell(declaration, cell) {
        Ok(cell) => Ok(Command::Ask { user, cell }),
        Err(refusal) => Err(refusal),
    }
}

// The question of a user why a cell has its value.
pub(crate) fn resolve_why<A: Allocator + Copy>(
    declaration: &Declaration<'_, A>,
    user: u8,
    cell: &[u8],
) -> Result<Command, Refusal>
    ensures { IsReadFor (declared declaration.now) user (Why cell.now) result }
{
    match asked_cell(declaration, cell) {
        Ok(cell) => Ok(Command::Why { user, cell }),
        Err(refusal) => Err(refusal),
    }
}

/// The words of a line that says something. None for a blank line or a comment. A line of more than
/// 1,024 bytes is refused, and so is one that has a byte that no word has.
#[inline(always)]
pub(crate) fn line_words(line: &[u8]) -> Result<Option<Words<'_>>, Refusal>
    ensures none { IfOk result (λ found. IfNone found ((length line.now ≤ most_command_bytes)
        × (is_idle line.now ≡ true))) }
    ensures some { IfOk result (λ found. IfSome found (IsSpoken line.now)) }
    ensures err { IfErr result (λ refusal. (d : Declared) → spec.Reads d line.now (Refused refusal)) }
{
    if line.len() > MOST_LINE_BYTES {
        return Err(Refusal::LineTooLong);
    }
    if idles(line) {
        return Ok(None);
    }
    if !allows_all(line) {
        return Err(Refusal::Syntax);
    }
    Ok(Some(Words::new(line)))
}

/// Reads one line without its line end. Takes no memory.
///
/// The result is the command that the line says; None for a blank line or a comment of at most
/// 1,024 bytes; and otherwise the first refusal that applies to the line, which is never `Memory`.
pub fn read_command<A: Allocator + Copy>(
    line: &[u8],
    declaration: &Declaration<'_, A>,
) -> Result<Option<Command>, Refusal>
    ensures reads { spec.Reads (declared declaration.now) line.now (spec.reading_of result) }
    // No line has another reading.
    ensures only { (other : LineReading) → spec.Reads (declared declaration.now) line.now other
        → other ≡ spec.reading_of result }
{
    // Members of sets have names, so that no word spells two informations.
    declaration.limits();
    match line_words(line) {
        Ok(Some(words)) => match read_words(declaration, words) {
            Ok(command) => Ok(Some(command)),
            Err(refusal) => Err(refusal),
        },
        Ok(None) => Ok(None),
        Err(refusal) => Err(refusal),
    }
}
