//! Tests of informations: words and texts, numbers, and what takes bytes.
ghost use Rattle.std.specs.Prelude.{[], Some};

use pw_info::{Failed, Info, Kind, Output, Writing, put_all, read_info, write_info};
use pw_kinds::{Exact, Interval};
use std::alloc::Global;
use std::io::{self, ErrorKind, Write};
use std::process::Abort;
use std::test::Fail;

mod words;

use words::Palette;

// The ends of the interval that a word spells.
fn read_range(word: &[u8]) -> Option<(i64, i64)> {
    let interval = read_info(word, Kind::Interval, &Palette)?.interval()?;
    if interval.is_empty() {
        return None;
    }
    Some((interval.lo(), interval.hi()))
}

// The only number of the interval that a word spells.
fn read_number(word: &[u8]) -> Option<i64> {
    let (lo, hi) = read_range(word)?;
    (lo == hi).then_some(lo)
}

// The exact number that a word spells.
fn read_exact(word: &[u8]) -> Option<Exact> {
    read_info(word, Kind::Exact, &Palette)?.exact()
}

#[test]
fn reads_numbers(rt: HostRuntime) {
    let cases: [(&str, Option<i64>); 12] = [
        ("0", Some(0)),
        ("5", Some(5)),
        ("-3", Some(-3)),
        ("1000000", Some(1_000_000)),
        ("-1000000", Some(-1_000_000)),
        ("1000001", None),
        ("007", None),
        ("-0", None),
        ("+1", None),
        ("-", None),
        ("{red}", None),
        ("", None),
    ];
    for (word, want) in cases {
        assert!(rt; read_number(word.as_bytes()) == want, "at {word}");
    }
}

#[test]
fn reads_ranges(rt: HostRuntime) {
    let cases: [(&str, Option<(i64, i64)>); 16] = [
        ("5", Some((5, 5))),
        ("5..5", Some((5, 5))),
        ("-3..4", Some((-3, 4))),
        ("-1000000..1000000", Some((-1_000_000, 1_000_000))),
        ("1000001", None),
        ("-1000001..0", None),
        ("9..3", None),
        ("007", None),
        ("-0", None),
        ("+1", None),
        ("1..", None),
        ("..2", None),
        ("1...2", None),
        ("1..2..3", None),
        ("{red}", None),
        ("", None),
    ];
    for (word, want) in cases {
        assert!(rt; read_range(word.as_bytes()) == want, "at {word}");
    }
}

#[test]
fn reads_no_thousand_digits(rt: HostRuntime) {
    let ones = [b'1'; 1000];
    assert!(rt; read_exact(&ones).is_none() && read_range(&ones).is_none());
}

#[test]
fn reads_no_bytes_past_ascii(rt: HostRuntime) {
    let words: [&[u8]; 4] = [b"\xff", b"1\xb2", b"\xd9\xa1", b"1..\xd9\xa2"];
    for word in words {
        assert!(rt; read_exact(word).is_none() && read_range(word).is_none());
    }
}

// Checks that a number is read from what is written of it.
fn is_read_back<R: Abort + AllocGlobal>(rt: &R, number: i64) -> Result<(), Fail> {
    let interval = Interval::new(number, number).ok_or("no interval")?;
    let mut output = Writing::new(Vec::new(rt.alloc()));
    write_info(&Info::of_interval(interval), &Palette, &mut output)?;
    assert!(rt; read_number(output.into_writer().as_slice()) == Some(number));
    Ok(())
}

#[test]
fn reads_what_is_written(rt: HostRuntime) -> Result<(), Fail> {
    let numbers: [i64; 5] = [0, 7, -7, 1_000_000, -1_000_000];
    for number in numbers {
        is_read_back(&rt, number)?;
    }
    Ok(())
}

/// A writer that takes one byte a write, and none past its room.
#[derive(Drop)]
pub struct Trickle {
    pub text: Vec<u8>,
    pub room: usize,
}

impl Write for Trickle {
    ghost contents = { λ w. Some w.text.items };

    fn write(&mut self, buf: &[u8]) -> io::Result<usize> {
        let Some(first) = buf.first() else {
            return Ok(0);
        };
        if self.text.len() >= self.room {
            return Err(io::Error::from(ErrorKind::StorageFull));
        }
        self.text.push(*first)?;
        Ok(1)
    }

    fn flush(&mut self) -> io::Result<()> {
        Ok(())
    }
}

/// An output over a writer with this room.
pub fn trickling(alloc: Global, room: usize) -> Writing<Trickle> {
    Writing::new(Trickle {
        text: Vec::new(alloc),
        room,
    })
}

/// Checks that the writer took the text, or as much of it as there was room for.
pub fn has_front<R: Abort>(rt: &R, output: Writing<Trickle>, text: &[u8], room: usize) {
    let kept = room.min(text.len());
    assert!(rt;
        output.into_writer().text.as_slice() == &text[..kept],
        "at {room}"
    );
}

// Checks that an output that failed takes nothing.
fn takes_nothing<R: Abort>(rt: &R, output: &mut Writing<Trickle>, text: &[u8]) {
    assert!(rt; output.put(text) == Err(Failed));
    assert!(rt; output.put(b"") == Err(Failed));
    assert!(rt; output.failed());
}

// Passes a text to a writer with this room. Checks that it takes the text or a front.
fn passes<R: Abort + AllocGlobal>(rt: &R, text: &[u8], room: usize) {
    let mut output = trickling(rt.alloc(), room);
    let answer = put_all(&mut output, text);
    let has_room = room >= text.len();
    assert!(rt; answer.is_ok() == has_room, "at {room}");
    assert!(rt; output.failed() == !has_room, "at {room}");
    if output.failed() {
        takes_nothing(rt, &mut output, text);
    }
    has_front(rt, output, text, room);
}

#[test]
fn passes_the_text_or_a_front(rt: HostRuntime) {
    for room in 0..20usize {
        passes(&rt, b"one byte at a time", room);
    }
}

// A writer that takes nothing.
#[derive(Drop)]
struct Full;

impl Write for Full {
    ghost contents = { λ _. Some [] };

    fn write(&mut self, _buf: &[u8]) -> io::Result<usize> {
        Ok(0)
    }

    fn flush(&mut self) -> io::Result<()> {
        Ok(())
    }
}

#[test]
fn no_byte_taken_is_a_failure(rt: HostRuntime) {
    let mut output = Writing::new(Full);
    assert!(rt; output.put(b"") == Ok(0));
    assert!(rt; output.put(b"x") == Err(Failed));
    assert!(rt; output.failed());
    assert!(rt; output.put(b"") == Err(Failed));
}
