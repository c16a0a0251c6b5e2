//! Ends for tests: readers and writers that move a byte at a time, fail once or for good, or know
//! of each other.

ghost use Rattle.std.specs.Prelude.{None};

use std::alloc::Global;
use std::cell::Cell;
use std::io;
use std::io::{ErrorKind, Read, Write};

/// How often an end fails: once, and then it goes on, or for good.
#[derive(Clone, Copy, PartialEq, Eq)]
pub enum Failing {
    Once,
    ForGood,
}

impl Failing {
    // Where an end fails next, after it has just failed at this byte.
    fn next(self, breaks_at: usize) -> usize {
        match self {
            Failing::Once => usize::MAX,
            Failing::ForGood => breaks_at,
        }
    }
}

/// A reader that gives one byte a read. It fails when it has given `breaks_at` bytes.
#[derive(Drop)]
pub struct Drip<'a> {
    pub text: &'a [u8],
    pub given: usize,
    pub breaks_at: usize,
    pub failing: Failing,
}

impl<'a> Drip<'a> {
    /// A reader of the text, which fails once.
    pub fn new(text: &'a str, breaks_at: usize) -> Drip<'a> {
        Drip::failing(text, breaks_at, Failing::Once)
    }

    /// A reader of the text.
    pub fn failing(text: &'a str, breaks_at: usize, failing: Failing) -> Drip<'a> {
        Drip {
            text: text.as_bytes(),
            given: 0,
            breaks_at,
            failing,
        }
    }
}

impl Read for Drip<'_> {
    ghost remaining = { λ _. None };

    fn read(&mut self, buffer: &mut [u8]) -> io::Result<usize> {
        if self.given == self.breaks_at {
            self.breaks_at = self.failing.next(self.breaks_at);
            return Err(io::Error::from(ErrorKind::Interrupted));
        }
        if buffer.is_empty() || self.given >= self.text.len() {
            return Ok(0);
        }
        buffer[0] = self.text[self.given];
        self.given += 1;
        Ok(1)
    }
}

/// A reader that gives one byte `left` times, and then the rest.
#[derive(Drop)]
pub struct Repeated<'a> {
    pub byte: u8,
    pub left: u64,
    pub rest: &'a [u8],
}

impl Read for Repeated<'_> {
    ghost remaining = { λ _. None };

    fn read(&mut self, buffer: &mut [u8]) -> io::Result<usize> {
        if self.left == 0 {
            return self.rest.read(buffer);
        }
        let count = self.left.min(buffer.len() as u64) as usize;
        buffer[..count].fill(self.byte);
        self.left -= count as u64;
        Ok(count)
    }
}

/// A reader that gives a line a read, with its line feed. It gives the line `left` times, and then
/// the rest.
#[derive(Drop)]
pub struct Lined<'a> {
    pub line: &'a [u8],
    pub left: u64,
    pub rest: &'a [u8],
}

impl Read for Lined<'_> {
    ghost remaining = { λ _. None };

    fn read(&mut self, buffer: &mut [u8]) -> io::Result<usize> {
        if self.left == 0 {
            return self.rest.read(buffer);
        }
        let length = self.line.len();
        if buffer.len() < length {
            return Err(io::Error::from(ErrorKind::UnexpectedEof));
        }
        buffer[..length].copy_from_slice(self.line);
        self.left -= 1;
        Ok(length)
    }
}

/// A writer that takes one byte a write. It fails when it has taken `breaks_at` bytes.
#[derive(Drop)]
pub struct Sink {
    pub text: Vec<u8>,
    pub breaks_at: usize,
    pub failing: Failing,
}

impl Sink {
    /// A writer that has taken nothing.
    pub fn new(alloc: Global, breaks_at: usize, failing: Failing) -> Sink {
        Sink {
            text: Vec::new(alloc),
            breaks_at,
            failing,
        }
    }
}

impl Write for Sink {
    ghost contents = { λ _. None };

    fn write(&mut self, bytes: &[u8]) -> io::Result<usize> {
        let Some(first) = bytes.first() else {
            return Ok(0);
        };
        if self.text.len() == self.breaks_at {
            self.breaks_at = self.failing.next(self.breaks_at);
            return Err(io::Error::from(ErrorKind::StorageFull));
        }
        self.text.push(*first)?;
        Ok(1)
    }

    fn flush(&mut self) -> io::Result<()> {
        Ok(())
    }
}

/// A reader that gives a line a read, with its line feed. Beside each line is the number of bytes
/// that must be written before that line is read. The reader notes whether some read found another
/// number.
#[derive(Drop)]
pub struct Asking<'a> {
    pub lines: &'a [(&'a str, usize)],
    pub given: usize,
    pub written: &'a Cell<usize>,
    pub differs: &'a Cell<bool>,
}

impl Read for Asking<'_> {
    ghost remaining = { λ _. None };

    fn read(&mut self, buffer: &mut [u8]) -> io::Result<usize> {
        if self.given >= self.lines.len() {
            return Ok(0);
        }
        let (line, before) = self.lines[self.given];
        let length = line.len();
        if buffer.len() <= length {
            return Err(io::Error::from(ErrorKind::UnexpectedEof));
        }
        if self.written.get() != before {
            self.differs.set(true);
        }
        buffer[..length].copy_from_slice(line.as_bytes());
        buffer[length] = b'\n';
        self.given += 1;
        Ok(length + 1)
    }
}

/// A writer that counts what is written.
#[derive(Drop)]
pub struct Counting<'a> {
    pub written: &'a Cell<usize>,
}

impl Write for Counting<'_> {
    ghost contents = { λ _. None };

    fn write(&mut self, bytes: &[u8]) -> io::Result<usize> {
        let count = self.written.get();
        self.written.set(count.saturating_add(bytes.len()));
        Ok(bytes.len())
    }

    fn flush(&mut self) -> io::Result<()> {
        Ok(())
    }
}
