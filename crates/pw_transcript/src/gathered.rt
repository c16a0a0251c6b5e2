//! An output that gathers the bytes put into it, and passes them on in large pieces.
ghost use Rattle.std.specs.Prelude.{◌≡◌, ◌≤◌, ◌<◌, ℕ, List, [], ◌++◌, length, take, drop};
ghost use Rattle.std.specs.Prelude.{is_err, OnOk};

use pw_info::{Failed, Output};
use std::marker::Model;

// The greatest number of bytes held.
const ROOM: usize = 16384;

// Bytes that wait to be passed on.
#[derive(Drop)]
struct Held {
    bytes: [u8; ROOM],
    start: usize,
    end: usize,
}

impl Model for Held {
    ghost Value = { List ℕ };

    ghost view = { λ h. drop h.start (take h.end h.bytes) };

    // If nothing is held, there is room for as much as it can hold.
    ghost invariant = { λ h. (h.start ≤ h.end) × (h.end ≤ 16384) × (h.start ≡ h.end → h.end ≡ 0) };
}

impl Held {
    // No bytes.
    fn new() -> Held
        ensures { result ≡ [] }
    {
        Held {
            bytes: [0; ROOM],
            start: 0,
            end: 0,
        }
    }

    fn bytes(&self) -> &[u8]
        ensures { result.now ≡ self.now }
    {
        &self.bytes[self.start..self.end]
    }

    // Adds a front of the bytes, as much as there is room for.
    #[inline(always)]
    fn add(&mut self, bytes: &[u8]) -> usize
        ensures bound { result ≤ length bytes.now }
        ensures added { self.new ≡ self.old ++ take result bytes.now }
        ensures some { self.old ≡ [] → 0 < length bytes.now → 0 < result }
    {
        if bytes.len() > ROOM - self.end {
            return self.fill(bytes);
        }
        // The number of bytes is mostly known to the caller, so that a few are written at once.
        let end = self.end + bytes.len();
        self.bytes[self.end..end].copy_from_slice(bytes);
        self.end = end;
        bytes.len()
    }

    // The same, if there may be no room for all of them.
    #[inline(never)]
    fn fill(&mut self, bytes: &[u8]) -> usize
        ensures bound { result ≤ length bytes.now }
        ensures added { self.new ≡ self.old ++ take result bytes.now }
        ensures some { self.old ≡ [] → 0 < length bytes.now → 0 < result }
    {
        let count = bytes.len().min(ROOM - self.end);
        self.bytes[self.end..self.end + count].copy_from_slice(&bytes[..count]);
        self.end += count;
        count
    }

    // Drops the first bytes.
    fn release(&mut self, count: usize)
        requires { count ≤ length self.old }
        ensures { self.new ≡ drop count self.old }
    {
        let start = self.start + count;
        if start == self.end {
            self.start = 0;
            self.end = 0;
            return;
        }
        self.start = start;
    }
}

/// An output that gathers the bytes put into it. It passes them on to another output when it is
/// full and when it is flushed.
///
/// Bytes that it holds when it is dropped are lost: flush it first.
#[derive(Drop)]
pub struct Gathered<'a, O> {
    output: &'a mut O,
    held: Held,
}

impl<'a, O: Output> Gathered<'a, O> {
    ghost use Rattle.pw_transcript.specs.inside.Gathering.{output_of, held_of, GatheredPasses};

    /// A gathering output over the output, holding nothing.
    pub fn new(output: &'a mut O) -> Gathered<'a, O>
        ensures same_reference { (output_of result).ghost_name ≡ output.entry.ghost_name }
        ensures unchanged { (output_of result).now ≡ output.old }
        ensures held { held_of result ≡ [] }
    {
        Gathered {
            output,
            held: Held::new(),
        }
    }

    /// Passes on everything held.
    ///
    /// A failure of the output ends it with `Failed`; what was not passed on is then still held.
    pub fn flush(&mut self) -> Result<(), Failed>
        ensures passed { GatheredPasses O.passes self.old [] self.new }
        ensures ok { OnOk result (held_of self.new ≡ []) }
        ensures failed { O.has_failed (output_of self.new).now ≡ is_err result }
    {
        if self.output.failed() {
            return Err(Failed);
        }
        while !self.held.bytes().is_empty() {
            match self.output.put(self.held.bytes()) {
                Ok(count) => self.held.release(count),
                Err(fault) => return Err(fault),
            }
        }
        Ok(())
    }
}

impl<O: Output> Output for Gathered<'_, O> {
    ghost use Rattle.pw_transcript.specs.inside.Gathering.{output_of, GatheredPasses};
    ghost use Rattle.pw_transcript.specs.inside.Gathering.{GatheredPasses-none};
    ghost use Rattle.pw_transcript.specs.inside.Gathering.{GatheredPasses-joins};

    ghost passes = { GatheredPasses O.passes };

    ghost has_failed = { λ s. O.has_failed (output_of s).now };

    #[inline(always)]
    fn put(&mut self, bytes: &[u8]) -> Result<usize, Failed> {
        if self.output.failed() {
            return Err(Failed);
        }
        let count = self.held.add(bytes);
        if count > 0 || bytes.is_empty() {
            return Ok(count);
        }
        match self.flush() {
            Ok(()) => Ok(self.held.fill(bytes)),
            Err(fault) => Err(fault),
        }
    }

    fn failed(&self) -> bool {
        self.output.failed()
    }

    ghost none = { GatheredPasses-none O.passes O.none };

    ghost joins = { GatheredPasses-joins O.passes O.joins };
}
