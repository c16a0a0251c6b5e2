//! A name in a table, or a word that is looked up in it.
ghost use Rattle.std.specs.Prelude.{◌≡◌, ◌∷◌, []};
ghost use Rattle.std.specs.Cmp.{on_equiv, on_per, partial_equiv_from_equiv};
ghost use Rattle.std.specs.Cmp.Lexicographic.{nat_list_eq_equiv};
ghost use Rattle.std.specs.Cmp.Rules.{hashing};
ghost use Rattle.std.specs.Str.{bytes_eq};
ghost use Rattle.std.proofs.Common.{rules};
ghost use Rattle.pw_procs.specs.inside.Shapes.{name_bytes};

use std::alloc::Allocator;
use std::hash::{Hash, Hasher};

/// A name that a table keeps, or a word that is looked up. Both are hashed by all their bytes at
/// once: a slice would be hashed byte by byte, and a text would have to be checked first.
#[derive(Drop)]
pub(crate) enum Name<'w, A: Allocator> {
    /// A name of the table.
    Kept(Vec<u8, A>),
    /// A word that is looked up.
    Sought(&'w [u8]),
}

impl<A: Allocator> Name<'_, A> {
    /// Its bytes.
    #[inline(always)]
    pub(crate) fn bytes(&self) -> &[u8]
        ensures { result.now ≡ name_bytes self.now }
    {
        match self {
            Name::Kept(bytes) => bytes.as_slice(),
            Name::Sought(bytes) => bytes,
        }
    }
}

impl<A: Allocator> PartialEq for Name<'_, A> {
    ghost eq = { λ x y. bytes_eq (name_bytes x) (name_bytes y) };

    ghost laws = { on_per name_bytes (partial_equiv_from_equiv nat_list_eq_equiv) };

    fn eq(&self, other: &Self) -> bool {
        self.bytes() == other.bytes()
    }
}

impl<A: Allocator> Eq for Name<'_, A> {
    ghost laws = { on_equiv name_bytes nat_list_eq_equiv };
}

impl<A: Allocator> Hash for Name<'_, A> {
    ghost hash_input = { λ x. name_bytes x ∷ [] };

    ghost respects_eq = { Prim.search (hashing, rules) };

    fn hash<H: Hasher>(&self, state: &mut H) {
        state.write(self.bytes());
    }
}
