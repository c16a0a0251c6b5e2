//! How far a run has come between two takes, and the steps by which it continues.

ghost use Rattle.std.specs.Prelude.{◌≡◌, ◌+◌, ◌<◌, ◌≤◌, [], ◌∷◌, ◌++◌, length, true, false, IfOk};
ghost use Rattle.std.specs.Prelude.{OnOk, OnErr, if◌then◌else◌};
ghost use Rattle.pw_info.specs.Bytes.{line_feed};
ghost use Rattle.pw_info.specs.Lines.{HasNoEnd};
ghost use Rattle.pw_decl.specs.inside.Fields.{declared};
ghost use Rattle.pw_sessions.specs.inside.Fields.{state};
ghost use Rattle.pw_transcript.specs.Limits.{most_command_bytes, most_lines};
ghost use Rattle.pw_transcript.specs.inside.Answering.{held_line};
ghost use Rattle.pw_transcript.specs.inside.Running.{progress};
ghost use Rattle.pw_transcript.specs.inside.Running.{IsRunning, GoesOn, FailsIn, StopsIn, Ends};
ghost use Rattle.pw_transcript.specs.inside.Running.{FailsAtEnd};

use crate::answer::answer_line;
use crate::command_text::MOST_LINE_BYTES;
use crate::line_buffer::LineBuffer;
use crate::transcript::Lines;
use pw_decl::Declaration;
use pw_info::{Failed, Output, next_line};
use pw_sessions::Workbench;
use std::alloc::Allocator;

// The greatest number of ended lines that a run answers.
const MOST_LINES: u32 = 1_000_000;

/// How much of the bytes fed to a run was answered.
#[derive(Clone, Copy)]
pub(crate) enum Fed {
    /// All lines that end in the bytes were answered.
    Whole,
    /// The last line that a run answers ended, and a byte comes after it.
    PastLimit,
}

impl Lines {
    // One more line, with or without a reply.
    fn and_one(self, replied: bool) -> Lines
        requires lines { self.lines < most_lines }
        requires replies { self.replies ≤ self.lines }
        ensures lines { result.lines ≡ self.lines + 1 }
        ensures replies { result.replies ≡ self.replies + (if replied then 1 else 0) }
    {
        Lines {
            lines: self.lines + 1,
            replies: if replied {
                self.replies + 1
            } else {
                self.replies
            },
        }
    }
}

/// The state between two takes: what the lines so far left, the number of lines, and the part of
/// the next line that has come.
#[derive(Drop)]
pub(crate) struct Progress<'d, 'r, A: Allocator> {
    workbench: Workbench<'d, 'r, A>,
    pub(crate) counts: Lines,
    line: LineBuffer,
}

impl<'d, 'r, A: Allocator + Copy> Progress<'d, 'r, A> {
    /// Nothing has come.
    pub(crate) fn new(workbench: Workbench<'d, 'r, A>) -> Progress<'d, 'r, A>
        ensures workbench { (progress result).workbench ≡ state workbench.entry }
        ensures lines { (progress result).counts.lines ≡ 0 }
        ensures replies { (progress result).counts.replies ≡ 0 }
        ensures line { (progress result).line ≡ held_line [] }
    {
        Progress {
            workbench,
            counts: Lines {
                lines: 0,
                replies: 0,
            },
            line: LineBuffer::new(),
        }
    }

    // Answers the line that has come, as a line that has ended.
    fn end_line<O: Output>(
        &mut self,
        declaration: &Declaration<'_, A>,
        output: &mut O,
    ) -> Result<(), Failed>
        requires running { IsRunning (declared declaration.now) (progress self.old) }
        requires more { (progress self.old).counts.lines < most_lines }
        ensures ok { OnOk result (GoesOn O.passes (declared declaration.now)
            (progress self.old) output.old (line_feed ∷ []) (progress self.new) output.new) }
        ensures empty { OnOk result ((progress self.new).line ≡ held_line []) }
        ensures running { OnOk result (IsRunning (declared declaration.now) (progress self.new)) }
        ensures err { OnErr result (FailsIn O.passes (declared declaration.now)
            (progress self.old) output.old (line_feed ∷ []) output.new) }
        ensures failed { OnErr result (O.has_failed output.new ≡ true) }
    {
        let number = self.counts.lines + 1;
        let replied = answer_line(
            declaration,
            number,
            self.line.line(),
            &mut self.workbench,
            output,
        )?;
        self.counts = self.counts.and_one(replied);
        self.line.clear();
        Ok(())
    }

    // Answers a line that has come as a whole and has ended. No part of it is held.
    fn end_whole_line<O: Output>(
        &mut self,
        declaration: &Declaration<'_, A>,
        line: &[u8],
        output: &mut O,
    ) -> Result<(), Failed>
        requires running { IsRunning (declared declaration.now) (progress self.old) }
        requires more { (progress self.old).counts.lines < most_lines }
        requires fresh { (progress self.old).line ≡ held_line [] }
        requires short { length line.now ≤ most_command_bytes }
        requires no_end { HasNoEnd line.now }
        ensures ok { OnOk result (GoesOn O.passes (declared declaration.now) (progress self.old)
            output.old (line.now ++ line_feed ∷ []) (progress self.new) output.new) }
        ensures running { OnOk result (IsRunning (declared declaration.now) (progress self.new)) }
        ensures err { OnErr result (FailsIn O.passes (declared declaration.now)
            (progress self.old) output.old (line.now ++ line_feed ∷ []) output.new) }
        ensures failed { OnErr result (O.has_failed output.new ≡ true) }
    {
        let number = self.counts.lines + 1;
        let replied = answer_line(declaration, number, Some(line), &mut self.workbench, output)?;
        self.counts = self.counts.and_one(replied);
        Ok(())
    }

    // Answers the line that ends with this piece. A line that lies whole in the piece is read
    // there.
    fn end_with<O: Output>(
        &mut self,
        declaration: &Declaration<'_, A>,
        piece: &[u8],
        output: &mut O,
    ) -> Result<(), Failed>
        requires running { IsRunning (declared declaration.now) (progress self.old) }
        requires more { (progress self.old).counts.lines < most_lines }
        requires no_end { HasNoEnd piece.now }
        ensures ok { OnOk result (GoesOn O.passes (declared declaration.now) (progress self.old)
            output.old (piece.now ++ line_feed ∷ []) (progress self.new) output.new) }
        ensures running { OnOk result (IsRunning (declared declaration.now) (progress self.new)) }
        ensures err { OnErr result (FailsIn O.passes (declared declaration.now)
            (progress self.old) output.old (piece.now ++ line_feed ∷ []) output.new) }
        ensures failed { OnErr result (O.has_failed output.new ≡ true) }
    {
        if piece.len() <= MOST_LINE_BYTES && self.line.is_empty() {
            return self.end_whole_line(declaration, piece, output);
        }
        self.line.extend(piece);
        self.end_line(declaration, output)
    }

    /// Answers the lines that end in the bytes, and holds the rest.
    pub(crate) fn feed<O: Output>(
        &mut self,
        declaration: &Declaration<'_, A>,
        bytes: &[u8],
        output: &mut O,
    ) -> Result<Fed, Failed>
        requires running { IsRunning (declared declaration.now) (progress self.old) }
        ensures whole { IfOk result (λ fed. fed ≡ Fed.Whole → GoesOn O.passes (declared declaration.now)
            (progress self.old) output.old bytes.now (progress self.new) output.new) }
        ensures limit { IfOk result (λ fed. fed ≡ Fed.PastLimit → StopsIn O.passes (declared declaration.now)
            (progress self.old) output.old bytes.now output.new) }
        ensures running { OnOk result (IsRunning (declared declaration.now) (progress self.new)) }
        ensures err { OnErr result (FailsIn O.passes
            (declared declaration.now) (progress self.old) output.old bytes.now output.new) }
        ensures failed { OnErr result (O.has_failed output.new ≡ true) }
    {
        let mut rest = bytes;
        while !rest.is_empty() {
            if self.counts.lines == MOST_LINES {
                return Ok(Fed::PastLimit);
            }
            let Some((piece, after)) = next_line(rest) else {
                self.line.extend(rest);
                return Ok(Fed::Whole);
            };
            match self.end_with(declaration, piece, output) {
                Ok(()) => {}
                Err(fault) => return Err(fault),
            }
            rest = after;
        }
        Ok(Fed::Whole)
    }

    /// Answers the last line, which has no line feed after it, if there is one.
    pub(crate) fn end<O: Output>(
        &mut self,
        declaration: &Declaration<'_, A>,
        output: &mut O,
    ) -> Result<(), Failed>
        requires running { IsRunning (declared declaration.now) (progress self.old) }
        ensures ok { OnOk result (Ends O.passes (declared declaration.now)
            (progress self.old) output.old (progress self.new) output.new) }
        ensures err { OnErr result (FailsAtEnd O.passes
            (declared declaration.now) (progress self.old) output.old output.new) }
        ensures failed { OnErr result (O.has_failed output.new ≡ true) }
    {
        if self.line.is_empty() {
            return Ok(());
        }
        self.end_line(declaration, output)
    }
}
