//! Facts for tests.
ghost use Rattle.std.specs.Prelude.{◌≡◌, ◌↔◌, IsTrue};
ghost use Rattle.pw_info.specs.Information.{kind_of};

use pw_facts::Fact;
use pw_info::{Info, Kind};
use pw_kinds::Interval;
use pw_premises::PremiseSet;
use pw_procs::are_equal_kinds;

/// The fact that a number lies from `lo` to `hi`, under these premises; the contradiction if no interval has
/// these ends.
pub fn fact(lo: i64, hi: i64, support: PremiseSet) -> Fact
    ensures { kind_of result.info ≡ Kind.Interval }
{
    let info = match Interval::new(lo, hi) {
        Some(part) => Info::of_interval(part),
        None => Info::contradiction(Kind::Interval),
    };
    Fact { info, support }
}

/// Whether the information is of this kind.
pub fn is_of_kind(info: &Info, kind: Kind) -> bool
    ensures { IsTrue result ↔ (kind_of info.now ≡ kind) }
{
    are_equal_kinds(&[info.kind()], &[kind])
}
