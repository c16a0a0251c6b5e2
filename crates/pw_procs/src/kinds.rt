//! The kind of truths, and members of set kinds by their masks.
ghost use Rattle.std.specs.Prelude.{◌≡◌};
ghost use Rattle.pw_kinds.specs.Places.{PassesBitsOf};
ghost use Rattle.pw_info.specs.Information.{kind_of, allows, IsContradiction};
ghost use Rattle.pw_procs.specs.Values.{bool, IsMaskOf};

use pw_info::{Info, Kind, SetKind};
use pw_kinds::Members;

/// The kind of truths: set 0, in which `false` is place 0 and `true` is place 1.
pub fn truth_kind() -> Kind
    ensures { result ≡ bool }
{
    Kind::Members(SetKind { number: 0, size: 2 })
}

/// The members of a set, by a mask: those whose bits are set. If a bit at or past the size of the
/// set is set, it is no mask of this set, and the result is the contradiction.
pub fn members_of_mask(set: SetKind, mask: u128) -> Info
    ensures kind { kind_of result ≡ Kind.Members set }
    ensures values { IsMaskOf set.size mask → PassesBitsOf mask (allows result) }
    ensures bad { (IsMaskOf set.size mask → ⊥) → IsContradiction result }
{
    match Members::of(set.size, mask) {
        Some(part) => Info::of_members(set.number, part),
        None => Info::contradiction(Kind::Members(set)),
    }
}
