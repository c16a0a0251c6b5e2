//! An end that takes bytes: what it was passed, and when it has failed.
ghost use Rattle.std.specs.Prelude.{◌≡◌, ℕ, List, [], ◌++◌, Bool, true, false, is_err, IsErr, Some};
ghost use Rattle.std.specs.Io.KnownBytes.{Appends};
ghost use Rattle.std.proofs.KnownBytes.{Appends-nil, Appends-trans};
ghost use Rattle.pw_info.specs.Passing.{PutPasses, Writes};

use std::io::Write;

/// An output or an input has failed. It stays failed from the first failure on.
#[derive(Clone, Copy, Debug, PartialEq, Eq)]
pub struct Failed;

/// An end that takes bytes.
///
/// Contracts describe what it was passed as a relation between two moments: `passes old bytes new`
/// says that these bytes, in this order, were passed to it between the moment `old` and the moment
/// `new`.
pub trait Output {
    // The bytes were passed between the first moment and the second.
    ghost passes: { Self → List ℕ → Self → Type 0 };
    // A put has failed.
    ghost has_failed: { Self → Bool };

    /// Puts a front of the bytes, and answers how many were taken: at least one of a non-empty
    /// slice, and never more than the slice has.
    ///
    /// A put that fails answers `Failed` and passes nothing. Every later put does the same.
    fn put(&mut self, bytes: &[u8]) -> Result<usize, Failed>
        ensures passed { PutPasses passes self.old self.new result bytes.now }
        ensures failed { has_failed self.new ≡ is_err result }
        ensures stays { has_failed self.old ≡ true → IsErr result };

    /// Whether a put has failed.
    fn failed(&self) -> bool
        ensures { result ≡ has_failed self.now };

    // Nothing is passed at one moment.
    ghost none: { (s : Self) → passes s [] s };
    // What is passed first and what is passed next are passed together.
    ghost joins: { (s t u : Self) (xs ys : List ℕ)
        → passes s xs t → passes t ys u → passes s (xs ++ ys) u };
}

/// An output that writes to a writer.
///
/// Any error of the writer is a failure, and so is a write that takes no byte of a non-empty slice.
#[derive(Drop)]
pub struct Writing<W> {
    inner: W,
    failed: bool,
}

impl<W> Writing<W> {
    ghost use Rattle.pw_info.specs.Text.{writer_of, writer_failed};

    /// An output over the writer, which has not failed.
    pub fn new(writer: W) -> Writing<W>
        ensures writer { writer_of result ≡ writer }
        ensures failed { writer_failed result ≡ false }
    {
        Writing {
            inner: writer,
            failed: false,
        }
    }

    /// The writer.
    pub fn writer(&self) -> &W
        ensures { result.now ≡ writer_of self.now }
    {
        &self.inner
    }

    /// The writer, taken out.
    pub fn into_writer(self) -> W
        ensures { result ≡ writer_of self }
    {
        let Writing { inner, failed: _ } = self;
        inner
    }
}

impl<W: Write> Output for Writing<W> {
    ghost use Rattle.pw_info.specs.Text.{writer_of, writer_failed};

    // If the writer's bytes are known, they grow by the bytes that are passed.
    ghost passes = { λ s bytes t.
        Appends (W.contents (writer_of s)) (W.contents (writer_of t)) bytes };

    ghost has_failed = { λ s. writer_failed s };

    fn put(&mut self, bytes: &[u8]) -> Result<usize, Failed> {
        if self.failed {
            return Err(Failed);
        }
        if bytes.is_empty() {
            return Ok(0);
        }
        match self.inner.write(bytes) {
            Ok(count) if count > 0 => Ok(count),
            _ => {
                self.failed = true;
                Err(Failed)
            }
        }
    }

    fn failed(&self) -> bool {
        self.failed
    }

    ghost none = { λ s. Appends-nil (W.contents (writer_of s)) };

    ghost joins = { λ s t u xs ys p q. Appends-trans (W.contents (writer_of s))
        (W.contents (writer_of t)) (W.contents (writer_of u)) xs ys p q };
}

/// Puts all of the bytes. A put that fails ends it with `Failed`; then a front of the bytes was
/// passed.
#[inline(always)]
pub fn put_all<O: Output>(output: &mut O, bytes: &[u8]) -> Result<(), Failed>
    ensures { Writes O.passes O.has_failed output.old output.new result bytes.now }
{
    if bytes.is_empty() {
        return Ok(());
    }
    // Mostly one put takes all of them. It comes first, by itself, so that little is done for a few
    // bytes.
    match output.put(bytes) {
        Ok(count) if count == bytes.len() => Ok(()),
        Ok(count) => put_rest(output, &bytes[count..]),
        Err(fault) => Err(fault),
    }
}

// Puts everything that a first put left over.
fn put_rest<O: Output>(output: &mut O, bytes: &[u8]) -> Result<(), Failed>
    ensures { Writes O.passes O.has_failed output.old output.new result bytes.now }
{
    let mut rest = bytes;
    while !rest.is_empty() {
        match output.put(rest) {
            Ok(count) => rest = &rest[count..],
            Err(fault) => return Err(fault),
        }
    }
    Ok(())
}
