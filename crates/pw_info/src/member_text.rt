//! The texts of members of a set: `{`, their names joined by `,`, `}`.
ghost use Rattle.std.specs.Prelude.{◌≡◌, ◌++◌, codes, length, IfSome, IfNone};
ghost use Rattle.pw_kinds.specs.Members.{size_of, IsEmpty};
ghost use Rattle.pw_info.specs.declared.kind.Kind.TheVariants as kinds;
ghost use Rattle.pw_info.specs.Information.{kind_of};
ghost use Rattle.pw_info.specs.inside.Scanning.{HasNoComma};
ghost use Rattle.pw_info.specs.inside.Scanning.{AddsPlaces, NamesNoneApart};
ghost use Rattle.pw_info.specs.Passing.{Writes};
ghost use Rattle.pw_info.specs.Spelling.{SpellsValues, SpellsNoValues};
ghost use Rattle.pw_info.specs.SetNames.{text_of_set};
ghost use Rattle.pw_info.specs.Text.{possible_places, text_of_members};

use crate::cut::cut_at;
use crate::info::Info;
use crate::kind::SetKind;
use crate::kind_names::KindNames;
use crate::output::{Failed, Output, put_all};
use pw_kinds::Members;

// The parts before and after the first ',' of a text; the whole text and None if it has no ','.
fn cut_at_comma(text: &[u8]) -> (&[u8], Option<&[u8]>)
    ensures first { HasNoComma result.0.now }
    ensures some { IfSome result.1 (λ rest. text.now ≡ result.0.now ++ (codes "," ++ rest.now)) }
    ensures none { IfNone result.1 (text.now ≡ result.0.now) }
{
    match cut_at(text, b',') {
        Some((name, rest)) => (name, Some(rest)),
        None => (text, None),
    }
}

// Reads names of members of the set of this number, joined by ','. No member may be named twice, or
// be among the members seen before. Answers the members seen before together with these.
fn read_names<N: KindNames>(text: &[u8], set: u8, names: &N, seen: Members) -> Option<Members>
    requires named { length (N.members names.now set) ≡ size_of seen }
    ensures some { IfSome result (λ part. AddsPlaces (N.members names.now set) text.now seen part) }
    ensures none { IfNone result (NamesNoneApart (N.members names.now set) text.now seen) }
{
    let (name, rest) = cut_at_comma(text);
    let place = names.place(set, name)?;
    if seen.contains(place) {
        return None;
    }
    let seen = seen.with(place);
    match rest {
        Some(rest) => read_names(rest, set, names, seen),
        None => Some(seen),
    }
}

/// The information that a word spells in the form of a set of this kind: at least one name of a
/// member, each once, in any order, joined by `,` in braces. None if it spells none. `names` has
/// the set, with all its places.
pub(crate) fn read_members<N: KindNames>(word: &[u8], set: SetKind, names: &N) -> Option<Info>
    requires named { length (N.members names.now set.number) ≡ set.size }
    ensures kind { IfSome result (λ info. kind_of info ≡ kinds.Members set) }
    ensures some { IfSome result (λ info.
        SpellsValues (N.members names.now) word.now (kinds.Members set) info) }
    ensures none { IfNone result (
        SpellsNoValues (N.members names.now) word.now (kinds.Members set)) }
{
    let list = word.strip_prefix(b"{")?.strip_suffix(b"}")?;
    let part = read_names(list, set.number, names, Members::empty(set.size))?;
    Some(Info::of_members(set.number, part))
}

/// Writes the text of some members of the set of this number. `names` has the set, with all its
/// places.
pub(crate) fn write_members<N: KindNames, O: Output>(
    part: Members,
    set: u8,
    names: &N,
    output: &mut O,
) -> Result<(), Failed>
    requires named { length (N.members names.now set) ≡ size_of part }
    ensures { Writes O.passes O.has_failed output.old output.new result
        (text_of_members (N.members names.now set) part) }
{
    if part.is_empty() {
        return put_all(output, b"contradiction");
    }
    if part.is_full() {
        return put_all(output, b"nothing");
    }
    write_set(part, set, names, output)
}

// Writes `{`, the names of the members joined by `,`, and `}`. There is at least one member.
fn write_set<N: KindNames, O: Output>(
    part: Members,
    set: u8,
    names: &N,
    output: &mut O,
) -> Result<(), Failed>
    requires named { length (N.members names.now set) ≡ size_of part }
    requires some { IsEmpty part → ⊥ }
    ensures { Writes O.passes O.has_failed output.old output.new result
        (text_of_set (N.members names.now set) (possible_places part)) }
{
    let mut mark = b"{";
    for place in 0..part.size() {
        if part.contains(place) {
            write_name(mark, names.member(set, place), output)?;
            mark = b",";
        }
    }
    put_all(output, b"}")
}

// Writes a mark and a name.
fn write_name<O: Output>(mark: &[u8], name: &str, output: &mut O) -> Result<(), Failed>
    ensures { Writes O.passes O.has_failed output.old output.new result (mark.now ++ name.now) }
{
    put_all(output, mark)?;
    put_all(output, name.as_bytes())
}
