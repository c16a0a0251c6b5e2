//! The inputs of a procedure, each of the kind of its slot.
ghost use Rattle.std.specs.Prelude.{◌≡◌, ◌<◌, length};
ghost use Rattle.pw_info.specs.declared.kind.Kind.TheVariants as kinds;
ghost use Rattle.pw_info.specs.Information.{kind_of};
ghost use Rattle.pw_kinds.specs.Members.{size_of};
ghost use Rattle.pw_procs.specs.Values.{input, bool};

use pw_info::Info;
use pw_kinds::{Exact, Interval, Members};

/// The interval at a place.
pub(crate) fn interval_at(inputs: &[Info], place: usize) -> Interval
    requires here { place < length inputs.now }
    requires kind { kind_of (input inputs.now place) ≡ kinds.Interval }
    ensures { Info.Interval result ≡ input inputs.now place }
{
    match inputs[place] {
        Info::Interval(part) => part,
        _ => unreachable!("another kind"),
    }
}

/// The truths at a place.
pub(crate) fn truths_at(inputs: &[Info], place: usize) -> Members
    requires here { place < length inputs.now }
    requires kind { kind_of (input inputs.now place) ≡ bool }
    ensures value { Info.Members 0 result ≡ input inputs.now place }
    ensures size { size_of result ≡ 2 }
{
    match inputs[place] {
        Info::Members { part, .. } => part,
        _ => unreachable!("another kind"),
    }
}

/// The exact number at a place.
pub(crate) fn exact_at(inputs: &[Info], place: usize) -> Exact
    requires here { place < length inputs.now }
    requires kind { kind_of (input inputs.now place) ≡ kinds.Exact }
    ensures { Info.Exact result ≡ input inputs.now place }
{
    match inputs[place] {
        Info::Exact(part) => part,
        _ => unreachable!("another kind"),
    }
}
