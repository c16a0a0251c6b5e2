//! Words, and the texts written for what they spell.

ghost use Rattle.std.specs.Prelude.{[], ◌∷◌, codes};
ghost use Rattle.pw_info.specs.Information.{kind_of};
ghost use Rattle.pw_info.specs.SetNames.{IsNamed};

use super::{has_front, trickling};
use pw_info::{GroupNames, Info, Kind, KindNames, SetKind, read_info, write_info};
use pw_kinds::{Exact, Interval, Members};
use std::process::Abort;
use std::test::Fail;

/// One set of members: the names of three colours, under each number.
#[derive(Drop)]
pub struct Palette;

impl KindNames for Palette {
    ghost members = { λ _ _. codes "red" ∷ codes "green" ∷ codes "blue" ∷ [] };

    fn member(&self, _set: u8, place: u8) -> &str {
        match place {
            0 => "red",
            1 => "green",
            _ => "blue",
        }
    }

    #[tactic(auto, using(crate::proofs::ExampleNames::colours_are_names))]
    fn place(&self, _set: u8, name: &[u8]) -> Option<u8> {
        if name == b"red".as_slice() {
            return Some(0);
        }
        if name == b"green".as_slice() {
            return Some(1);
        }
        if name == b"blue".as_slice() {
            return Some(2);
        }
        None
    }
}

#[test]
fn names_of_a_set(rt: HostRuntime) {
    assert!(rt; Palette.member(0, 1) == "green");
    assert!(rt; Palette.place(0, b"blue") == Some(2));
    assert!(rt; Palette.place(0, b"pink") == None);
}

fn between(lo: i64, hi: i64) -> Option<Info> {
    let interval = Interval::new(lo, hi)?;
    Some(Info::of_interval(interval))
}

// Writes an information over an output with this room. Checks that the writer takes the text or a
// front.
fn is_written_in<R: Abort + AllocGlobal, N: KindNames>(
    rt: &R,
    info: &Info,
    names: &N,
    text: &str,
    room: usize,
)
    requires { IsNamed (N.members names.now) (kind_of info.now) }
{
    let mut output = trickling(rt.alloc(), room);
    let answer = write_info(info, names, &mut output);
    assert!(rt; answer.is_ok() == (room >= text.len()), "at {text}, {room}");
    has_front(rt, output, text.as_bytes(), room);
}

// Checks that an information is written as this text, or as a front of it.
fn is_written<R: Abort + AllocGlobal, N: KindNames>(rt: &R, info: &Info, names: &N, text: &str)
    requires { IsNamed (N.members names.now) (kind_of info.now) }
{
    for room in 0..20usize {
        is_written_in(rt, info, names, text, room);
    }
}

#[test]
fn reads_and_writes_intervals(rt: HostRuntime) -> Result<(), Fail> {
    let nothing = Some(Info::nothing(Kind::Interval));
    let contradiction = Some(Info::contradiction(Kind::Interval));
    let cases: [(&str, Option<Info>, &str); 9] = [
        ("nothing", nothing, "nothing"),
        ("-1000000..1000000", nothing, "nothing"),
        ("contradiction", contradiction, "contradiction"),
        ("5", between(5, 5), "5"),
        ("5..5", between(5, 5), "5"),
        ("0", between(0, 0), "0"),
        ("-3..4", between(-3, 4), "-3..4"),
        (
            "-1000000..999999",
            between(-1_000_000, 999_999),
            "-1000000..999999",
        ),
        (
            "-999999..1000000",
            between(-999_999, 1_000_000),
            "-999999..1000000",
        ),
    ];
    for (word, want, text) in cases {
        let read = read_info(word.as_bytes(), Kind::Interval, &Palette);
        assert!(rt; read == want, "at {word}");
        let info = read.ok_or("nothing is read")?;
        assert!(rt; info.kind() == Kind::Interval);
        is_written(&rt, &info, &Palette, text);
    }
    Ok(())
}

#[test]
fn reads_and_writes_members(rt: HostRuntime) -> Result<(), Fail> {
    let kind = Kind::Members(SetKind { number: 7, size: 3 });
    let cases: [(&str, u128, &str); 9] = [
        ("nothing", 0b111, "nothing"),
        ("contradiction", 0b000, "contradiction"),
        ("{red}", 0b001, "{red}"),
        ("{blue}", 0b100, "{blue}"),
        ("{red,green}", 0b011, "{red,green}"),
        ("{green,red}", 0b011, "{red,green}"),
        ("{blue,red}", 0b101, "{red,blue}"),
        ("{red,green,blue}", 0b111, "nothing"),
        ("{blue,green,red}", 0b111, "nothing"),
    ];
    for (word, mask, text) in cases {
        let want = Members::of(3, mask).map(|part| Info::of_members(7, part));
        let read = read_info(word.as_bytes(), kind, &Palette);
        assert!(rt; read == want, "at {word}");
        let info = read.ok_or("nothing is read")?;
        assert!(rt; info.kind() == kind);
        is_written(&rt, &info, &Palette, text);
    }
    Ok(())
}

#[test]
fn reads_and_writes_exact_numbers(rt: HostRuntime) -> Result<(), Fail> {
    let cases: [(&str, Option<Exact>, &str); 6] = [
        ("nothing", Some(Exact::any()), "nothing"),
        ("contradiction", Some(Exact::none()), "contradiction"),
        ("0", Exact::one(0), "0"),
        ("-7", Exact::one(-7), "-7"),
        ("1000000000", Exact::one(1_000_000_000), "1000000000"),
        ("-1000000000", Exact::one(-1_000_000_000), "-1000000000"),
    ];
    for (word, exact, text) in cases {
        let want = exact.map(Info::of_exact);
        let read = read_info(word.as_bytes(), Kind::Exact, &Palette);
        assert!(rt; read == want, "at {word}");
        let info = read.ok_or("nothing is read")?;
        assert!(rt; info.kind() == Kind::Exact);
        is_written(&rt, &info, &Palette, text);
    }
    Ok(())
}

#[test]
fn reads_none(rt: HostRuntime) {
    let ones = [b'1'; 1000];
    let words: [&[u8]; 20] = [
        b"9..3",
        b"1000001",
        b"-1000001..0",
        b"007",
        b"-0",
        b"+1",
        b"1..",
        b"..2",
        b"1...2",
        b"1..2..3",
        b"{red}",
        b"",
        b"Nothing",
        b"nothing ",
        b"nothin",
        b"contradictio",
        b"\xff",
        b"5\x80",
        b"\xd9\xa1",
        &ones,
    ];
    for word in words {
        assert!(rt; read_info(word, Kind::Interval, &Palette).is_none());
    }
}

#[test]
fn reads_no_members(rt: HostRuntime) {
    let kind = Kind::Members(SetKind { number: 0, size: 3 });
    let words: [&str; 18] = [
        "{red,red}",
        "{red,green,red}",
        "{red,}",
        "{,red}",
        "{red,,green}",
        "{}",
        "{,}",
        "red",
        "{pink}",
        "{red,pink}",
        "{red",
        "red}",
        "{{red}}",
        "{red;green}",
        "{Red}",
        "{re}",
        "{red }",
        "1",
    ];
    for word in words {
        assert!(rt;
            read_info(word.as_bytes(), kind, &Palette).is_none(),
            "at {word}"
        );
    }
}

#[test]
fn reads_no_exact_number(rt: HostRuntime) {
    let words: [&str; 9] = [
        "1..2",
        "7..7",
        "1000000001",
        "-1000000001",
        "007",
        "-0",
        "+1",
        "{7}",
        "",
    ];
    for word in words {
        assert!(rt;
            read_info(word.as_bytes(), Kind::Exact, &Palette).is_none(),
            "at {word}"
        );
    }
}

// Checks that just these parts are given back.
fn has_parts<R: Abort>(
    rt: &R,
    info: &Info,
    interval: Option<Interval>,
    members: Option<Members>,
    exact: Option<Exact>,
) {
    assert!(rt; info.interval() == interval);
    assert!(rt; info.members() == members);
    assert!(rt; info.exact() == exact);
}

#[test]
fn parts_are_given_back(rt: HostRuntime) {
    let (any, full, whole) = (Exact::any(), Members::full(2), Interval::whole());
    has_parts(&rt, &Info::of_exact(any), None, None, Some(any));
    has_parts(&rt, &Info::of_members(3, full), None, Some(full), None);
    has_parts(&rt, &Info::of_interval(whole), Some(whole), None, None);
}

#[test]
fn names_of_a_group(rt: HostRuntime) {
    let mut names = GroupNames::new(b"red|green||blue");
    assert!(rt; names.next() == Some(b"red".as_slice()));
    let mut others = names.again();
    assert!(rt; names.next() == Some(b"green".as_slice()));
    assert!(rt; names.next() == Some(b"".as_slice()));
    assert!(rt; names.next() == Some(b"blue".as_slice()));
    assert!(rt; names.next() == None);
    assert!(rt; others.next() == Some(b"green".as_slice()));
    assert!(rt; GroupNames::none().next() == None);
}
