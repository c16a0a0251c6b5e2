//! An end that gives bytes: what was taken from it, when it has failed, and when it has ended.
ghost use Rattle.std.specs.Prelude.{◌≡◌, ◌<◌, ℕ, List, [], ◌++◌, length, Bool, true, false, is_err};
ghost use Rattle.std.specs.Prelude.{IsErr, IfOk, OnErr};
ghost use Rattle.std.proofs.KnownBytes.{Consumes-nil, Consumes-trans};
ghost use Rattle.pw_transcript.specs.Readers.{ReaderTakes, NothingRemains};
ghost use Rattle.pw_info.specs.Passing.{TakeFills};

use pw_info::Failed;
use std::io::Read;

/// An end that gives bytes.
///
/// Contracts describe what was taken from it as a relation between two moments:
/// `takes old bytes new` says that these bytes, in this order, were taken between the moment `old`
/// and the moment `new`.
pub trait Input {
    // The bytes were taken between the first moment and the second.
    ghost takes: { Self → List ℕ → Self → Type 0 };
    // A take has failed.
    ghost has_failed: { Self → Bool };
    // A take has answered the end.
    ghost has_ended: { Self → Bool };
    // Nothing is left to take, as far as can be known.
    ghost nothing_left: { Self → Type 0 };

    /// Takes bytes into the front of the buffer, and answers how many: never more than the buffer
    /// holds. For a buffer that is not empty, 0 means the end: nothing is left to take then.
    ///
    /// A take that fails answers `Failed` and takes nothing. Every later take does the same. After
    /// the end a take answers 0 again only if there is still nothing to give.
    fn take(&mut self, buffer: &mut [u8]) -> Result<usize, Failed>
        ensures taken { TakeFills takes self.old self.new result buffer.new }
        ensures failed { has_failed self.new ≡ is_err result }
        ensures stays { has_failed self.old ≡ true → IsErr result }
        ensures ended { IfOk result (λ n.
            0 < length buffer.new → n ≡ 0 → has_ended self.new ≡ true) }
        ensures nothing_left { IfOk result (λ n.
            0 < length buffer.new → n ≡ 0 → nothing_left self.new) }
        ensures goes_on { IfOk result (λ n. 0 < n → has_ended self.new ≡ has_ended self.old) }
        ensures no_room { length buffer.new ≡ 0 → has_ended self.new ≡ has_ended self.old }
        ensures no_end { OnErr result (has_ended self.new ≡ has_ended self.old) };

    /// Whether a take has failed.
    fn failed(&self) -> bool
        ensures { result ≡ has_failed self.now };

    /// Whether a take has answered the end.
    fn ended(&self) -> bool
        ensures { result ≡ has_ended self.now };

    // Nothing is taken at one moment.
    ghost none: { (s : Self) → takes s [] s };
    // What is taken first and what is taken next are taken together.
    ghost joins: { (s t u : Self) (xs ys : List ℕ) → takes s xs t → takes t ys u
        → takes s (xs ++ ys) u };
}

/// An input that reads from a reader.
///
/// Any error of the reader is a failure.
#[derive(Drop)]
pub struct Reading<R> {
    inner: R,
    failed: bool,
    ended: bool,
}

impl<R> Reading<R> {
    ghost use Rattle.pw_transcript.specs.Readers.{reader_of, reader_failed, reader_ended};

    /// An input from the reader, which has not failed and not ended.
    pub fn new(reader: R) -> Reading<R>
        ensures reader { reader_of result ≡ reader }
        ensures failed { reader_failed result ≡ false }
        ensures ended { reader_ended result ≡ false }
    {
        Reading {
            inner: reader,
            failed: false,
            ended: false,
        }
    }

    /// The reader.
    pub fn reader(&self) -> &R
        ensures { result.now ≡ reader_of self.now }
    {
        &self.inner
    }

    /// The reader, taken out.
    pub fn into_reader(self) -> R
        ensures { result ≡ reader_of self }
    {
        let Reading {
            inner,
            failed: _,
            ended: _,
        } = self;
        inner
    }
}

impl<R: Read> Input for Reading<R> {
    ghost use Rattle.pw_transcript.specs.Readers.{reader_of, reader_failed, reader_ended};

    ghost takes = { ReaderTakes R.remaining };

    ghost has_failed = { λ s. reader_failed s };

    ghost has_ended = { λ s. reader_ended s };

    ghost nothing_left = { NothingRemains R.remaining };

    fn take(&mut self, buffer: &mut [u8]) -> Result<usize, Failed> {
        if self.failed {
            return Err(Failed);
        }
        if buffer.is_empty() {
            return Ok(0);
        }
        match self.inner.read(buffer) {
            Ok(count) => {
                if count == 0 {
                    self.ended = true;
                }
                Ok(count)
            }
            Err(_) => {
                self.failed = true;
                Err(Failed)
            }
        }
    }

    fn failed(&self) -> bool {
        self.failed
    }

    fn ended(&self) -> bool {
        self.ended
    }

    ghost none = { λ s. Consumes-nil (R.remaining (reader_of s)) };

    ghost joins = { λ s t u xs ys p q. Consumes-trans (R.remaining (reader_of s)) (R.remaining
        (reader_of t)) (R.remaining (reader_of u)) xs ys p q };
}
