//! Reading the text of a declaration, line after line.
ghost use Rattle.std.specs.Prelude.{◌≡◌, ◌<◌, ◌≤◌, ◌+◌, ◌⊎◌, ℕ, length, IfOk, IfErr, OnOk};
ghost use Rattle.pw_info.specs.Lines.{lines_of};
ghost use Rattle.pw_procs.specs.Registry.{procedures_in};
ghost use Rattle.pw_decl.specs.declared.decl_fault.DeclFaultKind.{DeclFaultKind as FaultKind};
ghost use Rattle.pw_decl.specs.declared.decl_fault.DeclFaultKind.TheVariants.{Memory};
ghost use Rattle.pw_decl.specs.BuiltIn.{HasPrelude};
ghost use Rattle.pw_decl.specs.Declaration.{Declared, Outside};
ghost use Rattle.pw_decl.specs.Faults.{Leads, PreludeDeclares, SpellsDeclaration, IsUnfinished};
ghost use Rattle.pw_decl.specs.Faults.{IsFirstFault, IsFaultOfPrelude, IsClearUpTo};
ghost use Rattle.pw_decl.specs.Faults.{IsClearInPrelude, IsReportedAmong, HasNoFaultUpTo};
ghost use Rattle.pw_decl.specs.Faults.{IsReported, IsReadAs, IsFaultAt};
ghost use Rattle.pw_decl.specs.Limits.{most_text_bytes};
ghost use Rattle.pw_decl.specs.inside.Fields.{declared};
ghost use Rattle.pw_decl.specs.inside.Opened.{IsWellPlaced};
ghost use Rattle.pw_decl.specs.inside.Fields.{placed};
ghost use Rattle.pw_decl.specs.Declaration.{DeclaresNothing};

use crate::built_in::prelude;
use crate::compound::Place;
use crate::decl_fault::{DeclFault, DeclFaultKind};
use crate::declaration::Declaration;
use crate::line::read_declaration_line;
use pw_info::TextLines;
use pw_procs::Registry;
use std::alloc::Allocator;

const MOST_TEXT_BYTES: usize = 1_048_576;

// Whether a declaration may end at this place, after this many lines.
fn finish<A: Allocator + Copy>(place: Place<A>, lines: u32) -> Result<(), DeclFault>
    requires { lines < 4294967295 }
    ensures ok { (d : Declared) → OnOk result (placed d place ≡ Outside d) }
    ensures err { (d : Declared) → IfErr result (λ fault.
        IsUnfinished (placed d place) fault.why × (fault.line ≡ lines + 1)) }
{
    let why = match place {
        Place::BeforeHeader => DeclFaultKind::Syntax,
        Place::Outside => return Ok(()),
        Place::Inside(_) => DeclFaultKind::MissingEnd,
    };
    Err(DeclFault {
        line: lines + 1,
        why,
    })
}

// Reads the lines of a text that is not too long, to its end, and adds what they declare.
fn read_lines<A: Allocator + Copy>(
    alloc: A,
    declaration: &mut Declaration<'_, A>,
    mut place: Place<A>,
    text: &[u8],
) -> Result<(), DeclFault>
    requires kept { IsWellPlaced (declared declaration.old) place }
    requires short { length text.now ≤ most_text_bytes }
    ensures ok { OnOk result (Leads (placed (declared declaration.old) place) (lines_of text.now)
        (Outside (declared declaration.new))) }
    ensures err { IfErr result (λ fault.
        IsReportedAmong (placed (declared declaration.old) place) (lines_of text.now) fault) }
    ensures memory { IfErr result (λ fault. fault.why ≡ Memory
        → IsClearUpTo (placed (declared declaration.old) place) (lines_of text.now) fault.line) }
{
    let mut count = 0u32;
    let mut lines = TextLines::new(text);
    while let Some(line) = lines.next() {
        count += 1;
        place = match read_declaration_line(alloc, declaration, place, line) {
            Ok(next) => next,
            Err(why) => return Err(DeclFault { line: count, why }),
        };
    }
    finish(place, count)
}

// Reads the compounds that every declaration has, into an empty declaration.
fn read_prelude<A: Allocator + Copy>(
    alloc: A,
    declaration: &mut Declaration<'_, A>,
) -> Result<(), DeclFaultKind>
    requires nothing { DeclaresNothing (declared declaration.old) }
    ensures ok { OnOk result (PreludeDeclares (declared declaration.old).procedures
        (declared declaration.new)) }
    ensures err { IfErr result (λ why.
        (why ≡ Memory) ⊎ IsFaultOfPrelude (declared declaration.old).procedures why) }
    ensures memory { IfErr result (λ why.
        why ≡ Memory → IsClearInPrelude (declared declaration.old).procedures) }
{
    match read_lines(alloc, declaration, Place::Outside, prelude()) {
        Ok(()) => Ok(()),
        Err(fault) => Err(fault.why),
    }
}

// Reads a text that is not too long into an empty declaration: first what every declaration has,
// and then the lines of the text.
fn read_text<A: Allocator + Copy>(
    alloc: A,
    declaration: &mut Declaration<'_, A>,
    text: &[u8],
) -> Result<(), DeclFault>
    requires nothing { DeclaresNothing (declared declaration.old) }
    requires short { length text.now ≤ most_text_bytes }
    ensures ok { OnOk result (SpellsDeclaration (declared declaration.old).procedures text.now
        (declared declaration.new)) }
    ensures err { IfErr result (λ fault.
        IsReported (declared declaration.old).procedures text.now fault) }
    ensures memory { IfErr result (λ fault. fault.why ≡ Memory
        → HasNoFaultUpTo (declared declaration.old).procedures text.now fault.line) }
{
    if let Err(why) = read_prelude(alloc, declaration) {
        return Err(DeclFault { line: 0, why });
    }
    read_lines(alloc, declaration, Place::BeforeHeader, text)
}

/// Reads a declaration over a registry, whose procedures its compounds call.
///
/// The result is what the text spells, or its first fault, or `DeclFaultKind::Memory` at the line
/// at which memory ran out: that line has no fault, and neither has any line before it. A text of
/// more than 1,048,576 bytes is at fault as a whole, at line 0. The compounds `sum`, `product` and
/// `conditional` are read before the first line, and their faults are reported at line 0: unknown
/// name or wrong arguments, if the registry lacks a procedure that they call, or has another under
/// its name.
pub fn read_declaration<'r, A: Allocator + Copy>(
    alloc: A,
    text: &[u8],
    registry: &'r Registry,
) -> Result<Declaration<'r, A>, DeclFault>
    ensures ok { IfOk result (λ declaration.
        SpellsDeclaration (procedures_in registry.entry.now) text.now (declared declaration)) }
    // The compounds `sum`, `product` and `conditional` come first.
    ensures prelude { IfOk result (λ declaration. HasPrelude (declared declaration)) }
    ensures err { IfErr result (λ fault. IsReported (procedures_in registry.entry.now) text.now
        fault) }
    // Out of memory is reported at a line that has no fault, and the lines before it have none.
    ensures memory { IfErr result (λ fault. fault.why ≡ Memory
        → HasNoFaultUpTo (procedures_in registry.entry.now) text.now fault.line) }
    // A text that spells a declaration is read as that declaration, unless memory runs out.
    ensures only_ok { (d : Declared)
        → SpellsDeclaration (procedures_in registry.entry.now) text.now d → IsReadAs d result }
    // For a text that has a first fault, that fault is reported, unless memory runs out.
    ensures only_fault { (line : ℕ) (why : FaultKind) → IsFirstFault
        (procedures_in registry.entry.now) text.now line why → IsFaultAt line why result }
{
    if text.len() > MOST_TEXT_BYTES {
        return Err(DeclFault {
            line: 0,
            why: DeclFaultKind::Limit,
        });
    }
    let mut declaration = Declaration::new(alloc, registry);
    read_text(alloc, &mut declaration, text).and(Ok(declaration))
}
