//! The numbers that the lines of a text had before some of them were dropped.
ghost use Rattle.std.specs.Prelude.{◌≡◌, ◌≤◌, ◌+◌, ◌++◌, ◌∷◌, [], length, min, OnOk};
ghost use Rattle.pw_info.specs.Lines.{lines_of};
ghost use Rattle.pw_explain.specs.Unread.{most_lines, number_at};

use pw_info::TextLines;
use std::alloc::{AllocError, Allocator};

/// The numbers of the first lines of a text, of which some are kept and the others dropped.
#[derive(Drop)]
pub(crate) struct LineNumbers<A: Allocator> {
    // Of each line that is kept, its number.
    pub(crate) kept: Vec<u32, A>,
    // How many lines were kept or dropped.
    pub(crate) passed: u32,
}

impl<A: Allocator> LineNumbers<A> {
    /// No line is kept or dropped yet.
    pub(crate) fn new(alloc: A) -> LineNumbers<A>
        ensures kept { result.kept.items ≡ [] }
        ensures passed { result.passed ≡ 0 }
    {
        LineNumbers {
            kept: Vec::new(alloc),
            passed: 0,
        }
    }

    /// Keeps the next line. Fails only when out of memory.
    pub(crate) fn keep(&mut self) -> Result<(), AllocError>
        ensures kept { OnOk result (self.new.kept.items ≡ self.old.kept.items ++ self.new.passed ∷ []) }
        ensures passed { self.new.passed ≡ min (self.old.passed + 1) most_lines }
    {
        self.drop_one();
        self.kept.push(self.passed)?;
        Ok(())
    }

    /// Drops the next line.
    pub(crate) fn drop_one(&mut self)
        ensures kept { self.new.kept ≡ self.old.kept }
        ensures passed { self.new.passed ≡ min (self.old.passed + 1) most_lines }
    {
        self.passed = self.passed.saturating_add(1);
    }

    /// Drops the next lines, which are those of this text.
    pub(crate) fn drop_all(&mut self, text: &[u8])
        ensures kept { self.new.kept ≡ self.old.kept }
        ensures passed { self.new.passed
            ≡ min (self.old.passed + length (lines_of text.now)) most_lines }
    {
        let mut lines = TextLines::new(text);
        let mut count: u32 = 0;
        while let Some(_) = lines.next() {
            count = count.saturating_add(1);
        }
        self.passed = self.passed.saturating_add(count);
    }

    /// The number that the line had which now has this one.
    pub(crate) fn original(&self, line: u32) -> u32
        ensures { 1 ≤ line → result ≡ number_at self.now.kept.items self.now.passed line }
    {
        let Some(before) = line.checked_sub(1) else {
            return line;
        };
        match self.kept.get(before as usize) {
            Some(number) => *number,
            None => {
                let further = before as usize - self.kept.len();
                self.passed.saturating_add(further as u32).saturating_add(1)
            }
        }
    }
}
