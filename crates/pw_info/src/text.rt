//! The texts of informations: reading and writing them.
ghost use Rattle.std.specs.Prelude.{◌≡◌, ◌++◌, codes, IfSome, IfNone};
ghost use Rattle.std.specs.Fmt.{signed_decimal};
ghost use Rattle.pw_info.specs.Information.{kind_of};
ghost use Rattle.pw_info.specs.Passing.{Writes};
ghost use Rattle.pw_info.specs.Number.{text_of_range};
ghost use Rattle.pw_info.specs.SetNames.{SetNames, IsNamed};
ghost use Rattle.pw_info.specs.Spelling.{SpellsInfo, SpellsNoInfo, SpellsValues, SpellsNoValues};
ghost use Rattle.pw_info.specs.Text.{text_of_exact, text_of_info, text_of_interval};

use crate::info::Info;
use crate::kind::Kind;
use crate::kind_names::KindNames;
use crate::member_text::{read_members, write_members};
use crate::number::read_number;
use crate::output::{Failed, Output, put_all};
use crate::range::read_range;
use itoa::Buffer;
use pw_kinds::{Exact, Interval};

// The numbers of intervals, and exact numbers, lie between the negatives of these and these.
const GREATEST_OF_INTERVALS: u32 = 1_000_000;

const GREATEST_EXACT: u32 = 1_000_000_000;

/// The information of the kind that a word spells: `nothing`, `contradiction`; for an interval `N`
/// or `LO..HI` with LO at most HI, both from -1,000,000 to 1,000,000; for an exact number `N`, from
/// -1,000,000,000 to 1,000,000,000; for a set `{`, the names of at least one of its members joined
/// by `,`, `}`, in any order and none twice. None if the word spells no information of the kind.
/// For a set kind, `names` has the set, with all its places.
pub fn read_info<N: KindNames>(word: &[u8], kind: Kind, names: &N) -> Option<Info>
    requires named { IsNamed (N.members names.now) kind }
    ensures some { IfSome result (λ info. SpellsInfo (N.members names.now) word.now kind info) }
    ensures none { IfNone result (SpellsNoInfo (N.members names.now) word.now kind) }
{
    if word == b"nothing".as_slice() {
        return Some(Info::nothing(kind));
    }
    if word == b"contradiction".as_slice() {
        return Some(Info::contradiction(kind));
    }
    match kind {
        Kind::Interval => read_interval(word),
        Kind::Members(set) => read_members(word, set, names),
        Kind::Exact => read_exact(word),
    }
}

// The information that a word spells in the form of an interval.
fn read_interval(word: &[u8]) -> Option<Info>
    ensures kind { IfSome result (λ info. kind_of info ≡ Kind.Interval) }
    ensures some { IfSome result (λ info. (sets : SetNames)
        → SpellsValues sets word.now Kind.Interval info) }
    ensures none { IfNone result ((sets : SetNames)
        → SpellsNoValues sets word.now Kind.Interval) }
{
    let (lo, hi) = read_range(word, GREATEST_OF_INTERVALS)?;
    let interval = Interval::new(lo, hi)?;
    Some(Info::of_interval(interval))
}

// The information that a word spells in the form of an exact number.
fn read_exact(word: &[u8]) -> Option<Info>
    ensures kind { IfSome result (λ info. kind_of info ≡ Kind.Exact) }
    ensures some { IfSome result (λ info. (sets : SetNames)
        → SpellsValues sets word.now Kind.Exact info) }
    ensures none { IfNone result ((sets : SetNames)
        → SpellsNoValues sets word.now Kind.Exact) }
{
    let number = read_number(word, GREATEST_EXACT)?;
    let exact = Exact::one(number)?;
    Some(Info::of_exact(exact))
}

/// Writes the text of an information. On `Failed` a front of the text was passed. For a set kind,
/// `names` has the set, with all its places.
// Inlined, so that an information that was just found need not be stored before it is written.
#[inline(always)]
pub fn write_info<N: KindNames, O: Output>(
    info: &Info,
    names: &N,
    output: &mut O,
) -> Result<(), Failed>
    requires named { IsNamed (N.members names.now) (kind_of info.now) }
    ensures { Writes O.passes O.has_failed output.old output.new result
        (text_of_info (N.members names.now) info.now) }
{
    match *info {
        Info::Interval(part) => write_interval(part, output),
        Info::Members { number, part } => write_members(part, number, names, output),
        Info::Exact(part) => write_exact(part, output),
    }
}

fn write_interval<O: Output>(part: Interval, output: &mut O) -> Result<(), Failed>
    ensures { Writes O.passes O.has_failed output.old output.new result (text_of_interval part) }
{
    if part.is_empty() {
        return put_all(output, b"contradiction");
    }
    if Interval::whole().within(part) {
        return put_all(output, b"nothing");
    }
    write_range(part.lo(), part.hi(), output)
}

fn write_exact<O: Output>(part: Exact, output: &mut O) -> Result<(), Failed>
    ensures { Writes O.passes O.has_failed output.old output.new result (text_of_exact part) }
{
    if part.is_any() {
        return put_all(output, b"nothing");
    }
    match part.number() {
        Some(number) => write_number(number, output),
        None => put_all(output, b"contradiction"),
    }
}

// Writes `N` if both ends are that number, and otherwise `LO..HI`.
fn write_range<O: Output>(lo: i64, hi: i64, output: &mut O) -> Result<(), Failed>
    ensures { Writes O.passes O.has_failed output.old output.new result (text_of_range lo hi) }
{
    if lo == hi {
        return write_number(lo, output);
    }
    write_number(lo, output)?;
    write_end(hi, output)
}

// Writes `..` and a number.
fn write_end<O: Output>(number: i64, output: &mut O) -> Result<(), Failed>
    ensures { Writes O.passes O.has_failed output.old output.new result
        (codes ".." ++ signed_decimal number) }
{
    put_all(output, b"..")?;
    write_number(number, output)
}

// Writes a number. Inlined, like its caller.
#[inline(always)]
fn write_number<O: Output>(number: i64, output: &mut O) -> Result<(), Failed>
    ensures { Writes O.passes O.has_failed output.old output.new result (signed_decimal number) }
{
    let mut digits = Buffer::new();
    put_all(output, digits.format(number).as_bytes())
}
