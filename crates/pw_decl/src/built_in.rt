//! What every declaration has: the kinds `interval`, `exact`, `bool` and `sign`, and the compounds
//! of the prelude, which are a two-way sum, a two-way product, and a choice between two cells.
ghost use Rattle.std.specs.Prelude.{◌≡◌, ◌≤◌, length};
ghost use Rattle.pw_decl.specs.Limits.{most_text_bytes};
ghost use Rattle.pw_decl.specs.Prelude.{prelude_text};
ghost use Rattle.std.specs.Prelude.{◌<◌, None, Some, IfSome, IfNone, slice_get, Contains};
ghost use Rattle.pw_info.specs.SetNames.{IsNamed};
ghost use Rattle.pw_procs.specs.Registering.{place_of_name};
ghost use Rattle.pw_decl.specs.Declaration.{Declared, NamesKind, built_in_kind_names};
ghost use Rattle.pw_decl.specs.Declaration.{built_in_members, members_of};

use pw_info::{Kind, SetKind};

/// The number of these compounds.
pub(crate) const PRELUDE_COMPOUNDS: usize = 3;

/// Their text, which is read like a declaration.
///
/// The two-way sum is an adder and two subtractors, the two-way product a multiplier and two
/// dividers, and a conditional two switches of opposite control (Radul and Sussman, *The Art of the
/// Propagator*, on multidirectional networks and on conditionals).
pub(crate) fn prelude() -> &'static [u8]
    ensures text { result.now ≡ prelude_text }
    ensures short { length result.now ≤ most_text_bytes }
{
    b"compound sum x interval y interval t interval\nadder x y t\nsubtractor t x y\nsubtractor t y x\nend\ncompound product x interval y interval t interval\nmultiplier x y t\ndivider t x y\ndivider t y x\nend\ncompound conditional p bool a interval b interval r interval\nlocal n bool\ninverter p n\nswitch p a r\nswitch n b r\nend\n".as_slice()
}

/// The number of sets that every declaration has. Declared sets are numbered from here on.
pub(crate) const BUILT_IN_SETS: u8 = 2;

/// The kind of this name, if it is one that every declaration has.
pub(crate) fn built_in_kind(name: &[u8]) -> Option<Kind>
    ensures some { IfSome result (λ kind.
        (d : Declared) → NamesKind d name.now kind × IsNamed (members_of d) kind) }
    ensures none { IfNone result (place_of_name built_in_kind_names name.now ≡ None) }
{
    if name == b"interval".as_slice() {
        Some(Kind::Interval)
    } else if name == b"exact".as_slice() {
        Some(Kind::Exact)
    } else if name == b"bool".as_slice() {
        Some(Kind::Members(SetKind { number: 0, size: 2 }))
    } else if name == b"sign".as_slice() {
        Some(Kind::Members(SetKind { number: 1, size: 3 }))
    } else {
        None
    }
}

/// The name of the member at this place of `bool`, number 0, or `sign`, number 1.
pub(crate) fn built_in_member(set: u8, place: u8) -> &'static str
    requires set { set < 2 }
    requires place { place < length (built_in_members set) }
    ensures { slice_get (built_in_members set) place ≡ Some result.now }
{
    match (set, place) {
        (0, 0) => "false",
        (0, _) => "true",
        (_, 0) => "neg",
        (_, 1) => "zero",
        _ => "pos",
    }
}

// The place of the member of `bool` that has this name.
fn place_in_bool(name: &[u8]) -> Option<u8>
    ensures found { IfSome result (λ place. slice_get (built_in_members 0) place ≡ Some name.now) }
    ensures none { IfNone result (Contains (built_in_members 0) name.now → ⊥) }
{
    if name == b"false".as_slice() {
        Some(0)
    } else if name == b"true".as_slice() {
        Some(1)
    } else {
        None
    }
}

// The place of the member of `sign` that has this name.
fn place_in_sign(name: &[u8]) -> Option<u8>
    ensures found { IfSome result (λ place. slice_get (built_in_members 1) place ≡ Some name.now) }
    ensures none { IfNone result (Contains (built_in_members 1) name.now → ⊥) }
{
    if name == b"neg".as_slice() {
        Some(0)
    } else if name == b"zero".as_slice() {
        Some(1)
    } else if name == b"pos".as_slice() {
        Some(2)
    } else {
        None
    }
}

/// The place of the member of this name in `bool`, number 0, or `sign`, number 1. None if the set
/// has no such member.
pub(crate) fn built_in_place(set: u8, name: &[u8]) -> Option<u8>
    requires { set < 2 }
    ensures found { IfSome result (λ place.
        slice_get (built_in_members set) place ≡ Some name.now) }
    ensures none { IfNone result (Contains (built_in_members set) name.now → ⊥) }
{
    if set == 0 {
        place_in_bool(name)
    } else {
        place_in_sign(name)
    }
}
