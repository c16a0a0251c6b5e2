//! The text of a declaration without the faulty lines that were found in it.
ghost use Rattle.std.specs.Prelude.{◌≡◌, ◌≤◌, ◌+◌, ◌-◌, ◌++◌, drop, length, take};
ghost use Rattle.std.specs.Prelude.{IfNone, IfOk, IfSome, OnOk};
ghost use Rattle.pw_explain.specs.Cut.{HasNoLine};
ghost use Rattle.pw_explain.specs.Unread.{DropsLine, EndsInFeed, IsLeftOf, IsPartOf, KeepsLines};
ghost use Rattle.pw_explain.specs.Unread.{IsRenumbered, IsShorter, StaysLeft, number_at};

use crate::cut::cut_at;
use crate::expected::Expected;
use crate::explanation::Explanation;
use crate::line_numbers::LineNumbers;
use crate::spot::Place;
use pw_info::{idles, next_line};
use std::alloc::{AllocError, Allocator};
use std::marker::Model;

/// The text of a declaration, from which each faulty line is dropped when it is found.
///
/// The blank lines and comments before it are dropped with it. So the search for the next faulty
/// line reads of the lines before it only those that declare something.
#[derive(Drop)]
pub struct Unread<A: Allocator> {
    // The text begins at `start`. The lines before `rest` declare something.
    bytes: Vec<u8, A>,
    start: usize,
    rest: usize,
    // The numbers of the lines before `rest`.
    numbers: LineNumbers<A>,
}

impl<A: Allocator> Model for Unread<A> {
    ghost use Rattle.std.specs.Prelude.{◌≤◌, ◌-◌, drop, length, take};
    ghost use Rattle.pw_explain.specs.Unread.{Left, left_code};

    ghost Value = { Left };

    ghost coded = { left_code };

    ghost view = { λ unread. record {
      front = take (unread.rest - unread.start) (drop unread.start unread.bytes.items);
      numbers = unread.numbers.kept.items;
      rest = drop unread.rest unread.bytes.items;
      passed = unread.numbers.passed;
    } };

    ghost invariant = { λ unread. (unread.start ≤ unread.rest)
        × (unread.rest ≤ length unread.bytes.items) };
}

// Moves the lines that declare something to the front, and answers how many bytes they have.
fn keep_declaring<A: Allocator>(
    lines: &mut [u8],
    numbers: &mut LineNumbers<A>,
) -> Result<usize, AllocError>
    requires { EndsInFeed lines.old }
    ensures len { length lines.new ≡ length lines.old }
    ensures kept { IfOk result (λ kept. kept ≤ length lines.old) }
    ensures lines { IfOk result (λ kept. KeepsLines lines.old numbers.old.kept.items
        numbers.old.passed (take kept lines.new) numbers.new.kept.items numbers.new.passed) }
{
    let mut kept = 0;
    let mut from = 0;
    while let Some((line, _)) = next_line(&lines[from..]) {
        let next = from + line.len() + 1;
        if idles(line) {
            numbers.drop_one();
        } else {
            numbers.keep()?;
            lines.copy_within(from..next, kept);
            kept += next - from;
        }
        from = next;
    }
    Ok(kept)
}

// The same with the lines between two places. It answers where those that declare something end then.
fn keep_between<A: Allocator>(
    bytes: &mut Vec<u8, A>,
    rest: usize,
    from: usize,
    numbers: &mut LineNumbers<A>,
) -> Result<usize, AllocError>
    requires order { rest ≤ from }
    requires within { from ≤ length bytes.old.items }
    requires lines { EndsInFeed (take (from - rest) (drop rest bytes.old.items)) }
    ensures front { OnOk result (take rest bytes.new.items ≡ take rest bytes.old.items) }
    ensures after { OnOk result (drop from bytes.new.items ≡ drop from bytes.old.items) }
    ensures len { length bytes.new.items ≡ length bytes.old.items }
    ensures end { IfOk result (λ end. (rest ≤ end) × (end ≤ from)) }
    ensures lines { IfOk result (λ end. KeepsLines (take (from - rest) (drop rest bytes.old.items))
        numbers.old.kept.items numbers.old.passed (take (end - rest) (drop rest bytes.new.items))
        numbers.new.kept.items numbers.new.passed) }
{
    let kept = keep_declaring(&mut bytes[rest..from], numbers)?;
    Ok(rest + kept)
}

// Moves the bytes between two places so that they end at a third one, and answers where they begin
// then.
fn move_to<A: Allocator>(bytes: &mut Vec<u8, A>, start: usize, end: usize, to: usize) -> usize
    requires order { start ≤ end }
    requires further { end ≤ to }
    requires within { to ≤ length bytes.old.items }
    ensures begins { result + (end - start) ≡ to }
    ensures moved { take (to - result) (drop result bytes.new.items)
        ≡ take (end - start) (drop start bytes.old.items) }
    ensures after { drop to bytes.new.items ≡ drop to bytes.old.items }
    ensures len { length bytes.new.items ≡ length bytes.old.items }
{
    let begins = to - (end - start);
    bytes.copy_within(start..end, begins);
    begins
}

// What is to be dropped of a text whose line of this number is faulty: the line; if it begins a
// compound, the lines to the end of that.
fn faulty_part(text: &[u8], line: u32) -> Option<Place>
    ensures some { IfSome result (IsPartOf text.now line) }
    ensures none { IfNone result (HasNoLine text.now line) }
{
    let cut = cut_at(text, line)?;
    let from = cut.before.len();
    let to = text.len() - cut.rest().len();
    Some(Place { from, to })
}

impl<A: Allocator + Copy> Unread<A> {
    /// The whole text. Fails only when out of memory.
    pub fn new(alloc: A, text: &[u8]) -> Result<Unread<A>, AllocError>
        ensures left { IfOk result (IsLeftOf text.now) }
        ensures text { IfOk result (λ unread. unread.front ++ unread.rest ≡ text.now) }
    {
        let mut bytes = Vec::new(alloc);
        bytes.extend_from_slice(text)?;
        Ok(Unread {
            bytes,
            start: 0,
            rest: 0,
            numbers: LineNumbers::new(alloc),
        })
    }

    /// What is left of the text.
    pub fn text(&self) -> &[u8]
        ensures { result.now ≡ self.now.front ++ self.now.rest }
    {
        &self.bytes[self.start..]
    }

    /// The number in the whole text of the line that has this number in what is left.
    pub fn number(&self, line: u32) -> u32
        ensures { 1 ≤ line → result ≡ number_at self.now.numbers self.now.passed line }
    {
        self.numbers.original(line)
    }

    /// The explanation of a line of what is left, with the numbers of the whole text.
    pub fn renumbered<'a>(&self, explanation: Explanation<'a>) -> Explanation<'a>
        ensures spot { result.spot ≡ explanation.entry.spot }
        ensures near { result.near ≡ explanation.entry.near }
        ensures expected { IsRenumbered self.now explanation.entry.expected result.expected }
    {
        match explanation.expected {
            Expected::NewThanLine(line, what) => Explanation {
                expected: Expected::NewThanLine(self.number(line), what),
                ..explanation
            },
            _ => explanation,
        }
    }

    /// Drops the first faulty line, which has this number in what is left. If it begins a compound,
    /// the lines to the end of that are dropped too. Fails only when out of memory.
    pub fn drop_line(&mut self, line: u32) -> Result<(), AllocError>
        ensures dropped { OnOk result (DropsLine line self.old self.new) }
        ensures shorter { OnOk result (IsShorter self.old self.new) }
        ensures left { OnOk result (StaysLeft self.old self.new) }
    {
        let Some(part) = faulty_part(self.text(), line) else {
            return Ok(());
        };
        let (from, to) = (self.start + part.from, self.start + part.to);
        // No line that was kept is faulty.
        if from < self.rest {
            return Ok(());
        }
        let end = keep_between(&mut self.bytes, self.rest, from, &mut self.numbers)?;
        self.numbers.drop_all(&self.bytes[from..to]);
        self.start = move_to(&mut self.bytes, self.start, end, to);
        self.rest = to;
        Ok(())
    }
}
