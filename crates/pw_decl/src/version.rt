//! The versions of declarations, and the limits that differ between them.
ghost use Rattle.std.specs.Prelude.{◌≡◌, ◌≤◌};
ghost use Rattle.pw_kinds.specs.Places.{most_members};
ghost use Rattle.pw_decl.specs.Limits.{most_premises};
ghost use Rattle.pw_decl.specs.Versions.{most_premises_under, most_members_under};

const MOST_PREMISES_OF_ONE: u16 = 64;

const MOST_MEMBERS_OF_ONE: usize = 64;

// The most premises in the latest version.
const MOST_PREMISES: u16 = 512;

/// The most members of a set in the latest version.
pub(crate) const MOST_MEMBERS: usize = 128;

/// The version of a declaration, which its header names.
#[derive(Clone, Copy)]
pub(crate) enum Version {
    /// `workbench 1`
    One,
    /// `workbench 2`
    Two,
}

impl Version {
    /// The most premises that a declaration of this version may have.
    pub(crate) fn most_premises(self) -> u16
        ensures version { result ≡ most_premises_under self }
        ensures latest { result ≤ most_premises }
    {
        match self {
            Version::One => MOST_PREMISES_OF_ONE,
            Version::Two => MOST_PREMISES,
        }
    }

    /// The most members that a set may have in a declaration of this version.
    pub(crate) fn most_members(self) -> usize
        ensures version { result ≡ most_members_under self }
        ensures latest { result ≤ most_members }
    {
        match self {
            Version::One => MOST_MEMBERS_OF_ONE,
            Version::Two => MOST_MEMBERS,
        }
    }
}
