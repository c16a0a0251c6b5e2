//! Writing replies.

ghost use Rattle.std.specs.Prelude.{◌≡◌, ◌<◌, ◌++◌, All, codes, length, map, option_map};
ghost use Rattle.std.specs.Fmt.{decimal};
ghost use Rattle.std.specs.List.{flat_map};
ghost use Rattle.pw_info.specs.Information.{kind_of};
ghost use Rattle.pw_info.specs.Passing.{Writes};
ghost use Rattle.pw_info.specs.SetNames.{IsNamed, name_at};
ghost use Rattle.pw_info.specs.Text.{text_of_info};
ghost use Rattle.pw_decl.specs.Declaration.{members_of};
ghost use Rattle.pw_decl.specs.inside.Fields.{declared};
ghost use Rattle.pw_reasons.specs.Combinations.{picked_in};
ghost use Rattle.pw_sessions.specs.Reply.{reply_by};
ghost use Rattle.pw_transcript.specs.ReplyText.{AreChosenNamed, IsReplyNamed, after_space};
ghost use Rattle.pw_transcript.specs.ReplyText.{conflict_names, text_of_chosen};
ghost use Rattle.pw_transcript.specs.ReplyText.{premise_names, text_of_names};
ghost use Rattle.pw_transcript.specs.ReplyText.{text_of_refusal, text_of_answer, text_of_reply};

use itoa::Buffer;
use pw_decl::Declaration;
use pw_info::{Failed, Info, Output, put_all, write_info};
use pw_premises::PremiseSet;
use pw_reasons::{Conflicts, Picks};
use pw_sessions::{Refusal, Reply};
use std::alloc::Allocator;

// The number and the words of a refusal.
fn refusal_text(refusal: Refusal) -> &'static [u8]
    ensures { result.now ≡ text_of_refusal refusal }
{
    match refusal {
        Refusal::Syntax => b"1 syntax",
        Refusal::UnknownUser => b"2 unknown user",
        Refusal::UnknownCommand => b"3 unknown command",
        Refusal::UnknownCell => b"4 unknown cell",
        Refusal::UnknownPremise => b"5 unknown premise",
        Refusal::UnknownProcedure => b"6 unknown procedure",
        Refusal::NotYourPremise => b"7 not your premise",
        Refusal::WrongInformation => b"8 wrong information",
        Refusal::WrongArguments => b"9 wrong arguments",
        Refusal::LineTooLong => b"10 line too long",
        Refusal::Memory => b"11 memory",
    }
}

// Writes `refused` and the refusal.
#[tactic(auto, using(pw_info::proofs::PassingFacts::first_fails, pw_info::proofs::PassingFacts::second_writes))]
fn write_refusal<O: Output>(refusal: Refusal, output: &mut O) -> Result<(), Failed>
    ensures { Writes O.passes O.has_failed output.old output.new result
        (codes "refused " ++ text_of_refusal refusal) }
{
    put_all(output, b"refused ")?;
    put_all(output, refusal_text(refusal))
}

// Writes a space and a name.
fn write_after_space<O: Output>(name: &str, output: &mut O) -> Result<(), Failed>
    ensures { Writes O.passes O.has_failed output.old output.new result (after_space name.now) }
{
    put_all(output, b" ")?;
    put_all(output, name.as_bytes())
}

// Writes the names of the premises in declared order, each after a space, or that there are none.
fn write_premises<A: Allocator + Copy, O: Output>(
    premises: PremiseSet,
    declaration: &Declaration<'_, A>,
    output: &mut O,
) -> Result<(), Failed>
    ensures { Writes O.passes O.has_failed output.old output.new result
        (text_of_names (premise_names (declared declaration.now) premises)) }
{
    let mut any = false;
    for premise in 0..declaration.premises() {
        if premises.contains(premise) {
            write_after_space(declaration.premise_name(premise), output)?;
            any = true;
        }
    }
    if any {
        Ok(())
    } else {
        put_all(output, b" none")
    }
}

// Writes a word, and then the names of the premises.
#[tactic(auto, using(pw_info::proofs::PassingFacts::first_fails, pw_info::proofs::PassingFacts::second_writes))]
fn write_word_and_premises<A: Allocator + Copy, O: Output>(
    word: &[u8],
    premises: PremiseSet,
    declaration: &Declaration<'_, A>,
    output: &mut O,
) -> Result<(), Failed>
    ensures { Writes O.passes O.has_failed output.old output.new result (word.now
        ++ text_of_names (premise_names (declared declaration.now) premises)) }
{
    put_all(output, word)?;
    write_premises(premises, declaration, output)
}

// Writes a value, and the premises that it needs.
#[tactic(auto, using(pw_info::proofs::PassingFacts::first_fails, pw_info::proofs::PassingFacts::second_writes))]
fn write_because<A: Allocator + Copy, O: Output>(
    info: &Info,
    reason: PremiseSet,
    declaration: &Declaration<'_, A>,
    output: &mut O,
) -> Result<(), Failed>
    requires named { IsNamed (members_of (declared declaration.now)) (kind_of info.now) }
    ensures { Writes O.passes O.has_failed output.old output.new result
        (text_of_info (members_of (declared declaration.now)) info.now ++ codes " because"
        ++ text_of_names (premise_names (declared declaration.now) reason)) }
{
    write_info(info, declaration, output)?;
    write_word_and_premises(b" because", reason, declaration, output)
}

// Writes the names of cells, each after a space.
fn write_cells<A: Allocator + Copy, O: Output>(
    cells: &[u32],
    declaration: &Declaration<'_, A>,
    output: &mut O,
) -> Result<(), Failed>
    requires { All (λ cell. cell < length (declared declaration.now).cells) cells.now }
    ensures { Writes O.passes O.has_failed output.old output.new result
        (flat_map after_space (map (name_at (declared declaration.now).cells) cells.now)) }
{
    for &cell in cells {
        write_after_space(declaration.cell_name(cell), output)?;
    }
    Ok(())
}

// Writes ` line ` and the number of a line.
fn write_line<O: Output>(line: u32, output: &mut O) -> Result<(), Failed>
    ensures { Writes O.passes O.has_failed output.old output.new result
        (after_space (codes "line " ++ decimal line)) }
{
    let mut digits = Buffer::new();
    put_all(output, b" line ")?;
    put_all(output, digits.format(line).as_bytes())
}

// Writes ` line ` and its number for each of these lines.
fn write_lines<O: Output>(lines: &[u32], output: &mut O) -> Result<(), Failed>
    ensures { Writes O.passes O.has_failed output.old output.new result
        (flat_map after_space (map (λ line. codes "line " ++ decimal line) lines.now)) }
{
    for &line in lines {
        write_line(line, output)?;
    }
    Ok(())
}

// Writes the names of the contradictory cells and attachments, or that there are none.
fn write_conflict_names<A: Allocator + Copy, O: Output>(
    conflicts: &Conflicts<A>,
    declaration: &Declaration<'_, A>,
    output: &mut O,
) -> Result<(), Failed>
    requires { All (λ cell. cell < length (declared declaration.now).cells) conflicts.now.cells }
    ensures { Writes O.passes O.has_failed output.old output.new result
        (text_of_names (conflict_names (declared declaration.now) conflicts.now)) }
{
    if conflicts.cells().is_empty() && conflicts.lines().is_empty() {
        return put_all(output, b" none");
    }
    write_cells(conflicts.cells(), declaration, output)?;
    write_lines(conflicts.lines(), output)
}

// Writes what is contradictory.
fn write_conflicts<A: Allocator + Copy, O: Output>(
    conflicts: &Conflicts<A>,
    declaration: &Declaration<'_, A>,
    output: &mut O,
) -> Result<(), Failed>
    requires { All (λ cell. cell < length (declared declaration.now).cells) conflicts.now.cells }
    ensures { Writes O.passes O.has_failed output.old output.new result (codes "conflicts"
        ++ text_of_names (conflict_names (declared declaration.now) conflicts.now)) }
{
    put_all(output, b"conflicts")?;
    write_conflict_names(conflicts, declaration, output)
}

// Writes the names of the premises, each after a space.
fn write_premise_names<A: Allocator + Copy, O: Output>(
    premises: &[u16],
    declaration: &Declaration<'_, A>,
    output: &mut O,
) -> Result<(), Failed>
    requires { All (λ premise. premise < length (declared declaration.now).premises) premises.now }
    ensures { Writes O.passes O.has_failed output.old output.new result
        (flat_map after_space (map (name_at (declared declaration.now).premises) premises.now)) }
{
    for &premise in premises {
        write_after_space(declaration.premise_name(premise), output)?;
    }
    Ok(())
}

// Writes the names of the premises that were chosen, each after a space, or that none were.
fn write_chosen<A: Allocator + Copy, O: Output>(
    chosen: Option<Picks>,
    declaration: &Declaration<'_, A>,
    output: &mut O,
) -> Result<(), Failed>
    requires named { AreChosenNamed (declared declaration.now) (option_map picked_in chosen) }
    ensures { Writes O.passes O.has_failed output.old output.new result
        (text_of_chosen (declared declaration.now) (option_map picked_in chosen)) }
{
    match chosen {
        Some(picks) => write_premise_names(picks.premises(), declaration, output),
        None => put_all(output, b" none"),
    }
}

// Writes what was chosen.
#[tactic(auto, using(pw_info::proofs::PassingFacts::first_fails, pw_info::proofs::PassingFacts::second_writes))]
fn write_choice<A: Allocator + Copy, O: Output>(
    chosen: Option<Picks>,
    declaration: &Declaration<'_, A>,
    output: &mut O,
) -> Result<(), Failed>
    requires named { AreChosenNamed (declared declaration.now) (option_map picked_in chosen) }
    ensures { Writes O.passes O.has_failed output.old output.new result (codes "chose"
        ++ text_of_chosen (declared declaration.now) (option_map picked_in chosen)) }
{
    put_all(output, b"chose")?;
    write_chosen(chosen, declaration, output)
}

// Writes the content of a reply. Never inlined, so that the usual replies are read where they lie:
// inlined, it would have every line take all parts of a reply apart.
#[inline(never)]
fn write_any_answer<A: Allocator + Copy, O: Output>(
    reply: &Reply<A>,
    declaration: &Declaration<'_, A>,
    output: &mut O,
) -> Result<(), Failed>
    requires named { IsReplyNamed (declared declaration.now) (reply_by reply.now) }
    ensures { Writes O.passes O.has_failed output.old output.new result (text_of_answer
        (declared declaration.now) (reply_by reply.now)) }
{
    match reply {
        Reply::Done => put_all(output, b"ok"),
        Reply::Value(info) => write_info(info, declaration, output),
        Reply::Because(info, reason) => write_because(info, *reason, declaration, output),
        Reply::Listed(conflicts) => write_conflicts(conflicts, declaration, output),
        Reply::Believes(premises) => {
            write_word_and_premises(b"believes", *premises, declaration, output)
        }
        Reply::Chose(chosen) => write_choice(*chosen, declaration, output),
        Reply::Refused(refusal) => write_refusal(*refusal, output),
    }
}

// Writes the content of a reply, the value of a cell at once.
fn write_answer<A: Allocator + Copy, O: Output>(
    reply: &Reply<A>,
    declaration: &Declaration<'_, A>,
    output: &mut O,
) -> Result<(), Failed>
    requires named { IsReplyNamed (declared declaration.now) (reply_by reply.now) }
    ensures { Writes O.passes O.has_failed output.old output.new result (text_of_answer
        (declared declaration.now) (reply_by reply.now)) }
{
    match reply {
        Reply::Value(info) => write_info(info, declaration, output),
        _ => write_any_answer(reply, declaration, output),
    }
}

// Writes the number of a line, a colon and a space.
#[tactic(auto, using(pw_info::proofs::PassingFacts::first_fails, pw_info::proofs::PassingFacts::second_writes))]
fn write_line_number<O: Output>(line: u32, output: &mut O) -> Result<(), Failed>
    ensures { Writes O.passes O.has_failed output.old output.new result
        (decimal line ++ codes ": ") }
{
    let mut digits = Buffer::new();
    put_all(output, digits.format(line).as_bytes())?;
    put_all(output, b": ")
}

// Writes the content of a reply, and a line feed.
#[tactic(auto, using(pw_info::proofs::PassingFacts::first_fails, pw_info::proofs::PassingFacts::second_writes))]
fn write_answer_line<A: Allocator + Copy, O: Output>(
    reply: &Reply<A>,
    declaration: &Declaration<'_, A>,
    output: &mut O,
) -> Result<(), Failed>
    requires named { IsReplyNamed (declared declaration.now) (reply_by reply.now) }
    ensures { Writes O.passes O.has_failed output.old output.new result (text_of_answer
        (declared declaration.now) (reply_by reply.now) ++ codes "\n") }
{
    // Most replies are this one: it is put at once.
    if let Reply::Done = reply {
        return put_all(output, b"ok\n");
    }
    write_answer(reply, declaration, output)?;
    put_all(output, b"\n")
}

/// Writes the reply to a line: the number of the line, a colon and a space, the content of the
/// reply, and a line feed. Takes no memory. On `Failed` a front of the text was passed. The kind of
/// a value, each cell that is listed and each premise that was chosen are those of the declaration.
#[tactic(auto, using(pw_info::proofs::PassingFacts::first_fails, pw_info::proofs::PassingFacts::second_writes))]
pub fn write_reply<A: Allocator + Copy, O: Output>(
    line: u32,
    reply: &Reply<A>,
    declaration: &Declaration<'_, A>,
    output: &mut O,
) -> Result<(), Failed>
    requires named { IsReplyNamed (declared declaration.now) (reply_by reply.now) }
    ensures { Writes O.passes O.has_failed output.old output.new result (text_of_reply
        (declared declaration.now) line (reply_by reply.now)) }
{
    write_line_number(line, output)?;
    write_answer_line(reply, declaration, output)
}
