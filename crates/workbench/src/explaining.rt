//! What `explain` prints of the faulty lines of a declaration.
ghost use Rattle.std.specs.Prelude.{◌≡◌, ◌<◌, ◌⊎◌, [], List, ℕ, IfSome, IfNone, IfOk, IsTrue};
ghost use Rattle.std.specs.Prelude.{OnOk, OnErr, false, length, true};
ghost use Rattle.pw_procs.specs.Registry.{procedures_in};
ghost use Rattle.pw_decl.specs.Faults.{IsReported};
ghost use Rattle.workbench.specs.Ending.{IsDeclaration, IsToldOfText};
ghost use Rattle.pw_explain.specs.Cut.{HasNoLine};
ghost use Rattle.workbench.specs.FaultBlocks.{AddsBlock, AreBlocks, Explains, ExplainsPart};
ghost use Rattle.workbench.specs.FaultBlocks.{HasLineAt, IsBlockAt, ShowsFault, text_left};

use crate::fault::Fault;
use pw_decl::{DeclFault, DeclFaultKind, read_declaration};
use pw_explain::{
    Cut, Unread, cut_at, explain_fault, explain_text_fault, write_explanation, write_line,
};
use pw_procs::Registry;
use std::alloc::{AllocError, Allocator};

/// The blocks of the faulty lines of a declaration.
#[derive(Drop)]
pub struct Blocks<A: Allocator> {
    /// Their text.
    pub text: Vec<u8, A>,
    /// Whether memory ran out, so that faulty lines may be left.
    pub are_cut: bool,
}

// Adds the first line of a block.
fn add_title<A: Allocator + Copy>(
    alloc: A,
    block: &mut Vec<u8, A>,
    fault: DeclFault,
) -> Result<(), AllocError> {
    let title = fault.to_string(alloc)?;
    block.extend_from_slice(title.as_bytes())?;
    block.push(b'\n')?;
    Ok(())
}

// Adds what is wrong with the line at which what is left of the text is cut.
fn add_line<A: Allocator + Copy>(
    alloc: A,
    block: &mut Vec<u8, A>,
    table: &[u8],
    unread: &Unread<A>,
    cut: &Cut<'_>,
    why: DeclFaultKind,
) -> Result<(), AllocError>
    ensures { OnOk result (ShowsFault cut.now.line.now block.old.items block.new.items) }
{
    let explanation = unread.renumbered(explain_fault(table, cut, why));
    write_line(block, cut.line, explanation.spot)?;
    write_explanation(alloc, block, &explanation)
}

// Fills the block of the first fault of what is left of the text, and answers whether the lines after
// it are to be read.
fn fill_block<A: Allocator + Copy>(
    alloc: A,
    block: &mut Vec<u8, A>,
    table: &[u8],
    unread: &Unread<A>,
    fault: DeclFault,
) -> Result<bool, AllocError>
    ensures block { OnOk result (IsBlockAt (text_left unread.now) fault.line block.new.items) }
    ensures on { IfOk result (λ goes_on. IsTrue goes_on
        → HasLineAt (text_left unread.now) fault.line false) }
    ensures end { IfOk result (λ goes_on. goes_on ≡ false
        → HasLineAt (text_left unread.now) fault.line true ⊎ HasNoLine (text_left unread.now) fault.line) }
{
    let numbered = DeclFault {
        line: unread.number(fault.line),
        why: fault.why,
    };
    add_title(alloc, block, numbered)?;
    let Some(cut) = cut_at(unread.text(), fault.line) else {
        write_explanation(alloc, block, &explain_text_fault(numbered))?;
        return Ok(false);
    };
    add_line(alloc, block, table, unread, &cut, fault.why)?;
    Ok(!cut.is_header())
}

// Adds the block of the first fault of what is left of the text, and answers whether the lines after
// it are to be read.
fn add_block<A: Allocator + Copy>(
    alloc: A,
    blocks: &mut Vec<u8, A>,
    table: &[u8],
    unread: &Unread<A>,
    fault: DeclFault,
) -> Result<bool, AllocError>
    ensures ok { OnOk result (AddsBlock (text_left unread.now) fault.line blocks.old.items
        blocks.new.items) }
    ensures err { OnErr result (blocks.new.items ≡ blocks.old.items) }
    ensures on { IfOk result (λ goes_on. IsTrue goes_on
        → HasLineAt (text_left unread.now) fault.line false) }
    ensures end { IfOk result (λ goes_on. goes_on ≡ false
        → HasLineAt (text_left unread.now) fault.line true ⊎ HasNoLine (text_left unread.now) fault.line) }
{
    let mut block = Vec::new(alloc);
    if !blocks.is_empty() {
        block.push(b'\n')?;
    }
    let goes_on = fill_block(alloc, &mut block, table, unread, fault)?;
    blocks.extend_from_slice(&block)?;
    Ok(goes_on)
}

/// The first fault of the text, or `Memory` if memory runs out while it is read. None if it spells a
/// declaration.
pub(crate) fn fault_of<A: Allocator + Copy>(
    alloc: A,
    text: &[u8],
    registry: &Registry,
) -> Option<DeclFault>
    ensures none { IfNone result (IsDeclaration (procedures_in registry.now) text.now) }
    ensures some { IfSome result (λ fault.
        IsToldOfText (procedures_in registry.now) text.now (Fault.Declaration fault)) }
{
    read_declaration(alloc, text, registry).err()
}

// Adds the block of the first fault of what is left of the text, drops its lines, and answers the
// next fault, if there is one to be read.
fn pass_fault<A: Allocator + Copy>(
    alloc: A,
    blocks: &mut Vec<u8, A>,
    table: &[u8],
    registry: &Registry,
    unread: &mut Unread<A>,
    fault: DeclFault,
) -> Result<Option<DeclFault>, AllocError>
    requires { IsReported (procedures_in registry.now) (text_left unread.old) fault }
    ensures next { IfOk result (λ next. IfSome next (λ fault.
        IsReported (procedures_in registry.now) (text_left unread.new) fault)) }
    ensures shorter { IfOk result (λ next. IfSome next (λ _.
        length (text_left unread.new) < length (text_left unread.old))) }
    ensures blocks { (whole : List ℕ)
        → AreBlocks (procedures_in registry.now) whole blocks.old.items unread.old
        → IfOk result (λ next. IfSome next (λ _.
        AreBlocks (procedures_in registry.now) whole blocks.new.items unread.new)) }
    ensures all { (whole : List ℕ)
        → AreBlocks (procedures_in registry.now) whole blocks.old.items unread.old
        → IfOk result (λ next. IfNone next
        (Explains (procedures_in registry.now) whole blocks.new.items)) }
    ensures part { (whole : List ℕ)
        → AreBlocks (procedures_in registry.now) whole blocks.old.items unread.old
        → ExplainsPart (procedures_in registry.now) whole blocks.new.items }
{
    if fault.why == DeclFaultKind::Memory {
        return Err(AllocError);
    }
    if !add_block(alloc, blocks, table, unread, fault)? {
        return Ok(None);
    }
    let len = unread.text().len();
    unread.drop_line(fault.line)?;
    // Nothing is dropped of the lines that were kept.
    if unread.text().len() == len {
        return Ok(None);
    }
    Ok(fault_of(alloc, unread.text(), registry))
}

// Adds the blocks of the faulty lines of a text, the first of which has this fault. When out of
// memory it fails, and has added those of the first of them.
fn add_blocks<A: Allocator + Copy>(
    alloc: A,
    blocks: &mut Vec<u8, A>,
    table: &[u8],
    registry: &Registry,
    text: &[u8],
    first: DeclFault,
) -> Result<(), AllocError>
    requires none { blocks.old.items ≡ [] }
    requires first { IsReported (procedures_in registry.now) text.now first }
    ensures all { OnOk result (Explains (procedures_in registry.now) text.now blocks.new.items) }
    ensures part { ExplainsPart (procedures_in registry.now) text.now blocks.new.items }
{
    let mut unread = Unread::new(alloc, text)?;
    let mut fault = first;
    while let Some(next) = pass_fault(alloc, blocks, table, registry, &mut unread, fault)? {
        fault = next;
    }
    Ok(())
}

/// What `explain` prints of the faulty lines of a text, and the fault with which it ends, which is
/// that of `check`. None if no line is faulty.
pub fn explain_text<A: Allocator + Copy>(
    alloc: A,
    table: &[u8],
    registry: &Registry,
    text: &[u8],
) -> Option<(Blocks<A>, Fault<'static>)>
    ensures none { IfNone result (IsDeclaration (procedures_in registry.now) text.now) }
    ensures some { IfSome result (λ told.
        IsToldOfText (procedures_in registry.now) text.now told.1) }
    ensures all { IfSome result (λ told. told.0.are_cut ≡ false
        → Explains (procedures_in registry.now) text.now told.0.text.items) }
    ensures part { IfSome result (λ told.
        ExplainsPart (procedures_in registry.now) text.now told.0.text.items) }
{
    let fault = fault_of(alloc, text, registry)?;
    let mut blocks = Vec::new(alloc);
    let added = add_blocks(alloc, &mut blocks, table, registry, text, fault);
    let blocks = Blocks {
        text: blocks,
        are_cut: added.is_err(),
    };
    Some((blocks, Fault::Declaration(fault)))
}
