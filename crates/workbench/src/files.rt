//! The files that the program reads.
ghost use Rattle.std.specs.Prelude.{◌≡◌, take, IfOk, IfSome};

use crate::fault::Fault;
use std::alloc::Allocator;
use std::io::{ErrorKind, Read};
use std::rt::Files;
use std::{fs, io};

// One byte more than a declaration may have, which is enough to find that a text is too long.
const MOST_BYTES: u64 = 1_048_577;

// The bytes that a reader gives up to its end, but at most 1,048,577.
fn read_front<A: Allocator, R: Read + Drop>(alloc: A, reader: R) -> io::Result<Vec<u8, A>>
    ensures { IfOk result (λ bytes. IfSome (R.remaining reader) (λ all.
        bytes.items ≡ take 1048577 all)) }
{
    let mut bytes = Vec::new(alloc);
    reader.take(MOST_BYTES).read_to_end(&mut bytes)?;
    Ok(bytes)
}

/// The text of the declaration in the file of this name, or the first 1,048,577 bytes of a longer
/// one.
///
/// Fails with `CannotRead` if the file cannot be opened or read, and with `Memory` if memory runs out
/// while it is read.
pub fn declaration_text<'a, R: Files + AllocGlobal>(
    rt: &R,
    name: &'a str,
) -> Result<Vec<u8>, Fault<'a>> {
    let Ok(file) = fs::open(rt, name) else {
        return Err(Fault::CannotRead(name));
    };
    match read_front(rt.alloc(), file) {
        Ok(text) => Ok(text),
        Err(error) if error.kind() == ErrorKind::OutOfMemory => Err(Fault::Memory),
        Err(_) => Err(Fault::CannotRead(name)),
    }
}
