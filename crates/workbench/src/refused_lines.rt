//! What `explain` prints of a transcript: each line that is refused.

use crate::block::block_of;
use crate::fault::Fault;
use pw_decl::Declaration;
use pw_info::{Writing, put_all};
use pw_transcript::RunFault;
use std::alloc::Allocator;
use std::io::{self, BufRead, BufReader, ErrorKind, Read};

// The greatest number of lines, and of bytes.
const MOST_LINES: u32 = 1_000_000;

const MOST_BYTES: u64 = 67_108_864;

// The line without its line feed.
fn without_line_feed(line: &[u8]) -> &[u8] {
    match line.strip_suffix(b"\n".as_slice()) {
        Some(front) => front,
        None => line,
    }
}

// The fault of a read that failed.
fn read_fault<'a>(kind: ErrorKind) -> Fault<'a> {
    match kind {
        ErrorKind::OutOfMemory => Fault::Memory,
        _ => Fault::Run(RunFault::Read),
    }
}

// Writes a block, after an empty line if it is not the first.
fn write_block<'a, W: io::Write>(
    output: &mut Writing<W>,
    block: &[u8],
    is_first: bool,
) -> Result<(), Fault<'a>> {
    let separator: &[u8] = if is_first { b"" } else { b"\n" };
    if put_all(output, separator).is_err() || put_all(output, block).is_err() {
        return Err(Fault::Run(RunFault::Write));
    }
    Ok(())
}

/// Writes a block for each refused line of the transcript, and answers whether there was one.
///
/// Fails if the transcript cannot be read, if it is longer than `run` answers, if a write fails,
/// and when out of memory.
pub fn write_refused_lines<'a, A: Allocator + Copy, R: Print + AllocGlobal, T: Read + Drop>(
    rt: &R,
    alloc: A,
    table: &[u8],
    text: &[u8],
    declaration: &Declaration<'_, A>,
    transcript: T,
) -> Result<bool, Fault<'a>> {
    let mut reader = match BufReader::new(rt.alloc(), transcript.take(MOST_BYTES + 1)) {
        Ok(reader) => reader,
        Err(error) => return Err(read_fault(error.kind())),
    };
    let mut output = Writing::new(io::writer(rt));
    let mut line = Vec::new(rt.alloc());
    let mut bytes = 0u64;
    let mut any = false;
    for number in 1..=MOST_LINES + 1 {
        line.clear();
        let count = match reader.read_until(b'\n', &mut line) {
            Ok(count) => count,
            Err(error) => return Err(read_fault(error.kind())),
        };
        if count == 0 {
            break;
        }
        bytes = bytes.saturating_add(count as u64);
        if number > MOST_LINES || bytes > MOST_BYTES {
            return Err(Fault::Run(RunFault::Limit));
        }
        let line = without_line_feed(&line);
        if let Some(block) = block_of(alloc, table, text, declaration, number, line)? {
            write_block(&mut output, &block, !any)?;
            any = true;
        }
    }
    Ok(any)
}
