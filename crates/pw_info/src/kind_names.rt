//! Where the names of the members of sets are looked up.
ghost use Rattle.std.specs.Prelude.{◌≡◌, ◌<◌, ℕ, List, length, Some, IfSome, IfNone, slice_get};
ghost use Rattle.std.specs.Prelude.{Contains};
ghost use Rattle.pw_info.specs.SetNames.{AreNames};

/// The names of the members of set kinds, each at its place, from 0 on. Each is a name: 1 to 32
/// bytes of `a` to `z`, `0` to `9` and `_`, starting with a letter, and no reserved word. The names
/// of one set are distinct. A declaration is where the program looks names up; a host that reads or
/// writes information without one implements this trait for names of its own.
pub trait KindNames {
    /// The names of the members of a set kind, by its number, in declared order; none if there is
    /// no set of that number.
    ghost members: { Self → ℕ → List (List ℕ) };

    /// The name of the member at a place, counted from 0.
    fn member(&self, set: u8, place: u8) -> &str
        requires { place < length (members self.now set) }
        ensures { slice_get (members self.now set) place ≡ Some result.now };

    /// The place of the member of this name. None if the set has none.
    fn place(&self, set: u8, name: &[u8]) -> Option<u8>
        ensures found { IfSome result (λ k. slice_get (members self.now set) k ≡ Some name.now) }
        ensures none { IfNone result (Contains (members self.now set) name.now → ⊥) }
        ensures names { AreNames (members self.now set) };
}
