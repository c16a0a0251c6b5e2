//! Names in the order in which they were added.
ghost use Rattle.std.specs.Prelude.{◌≡◌, None, Some, [], ◌∷◌, ◌++◌, ◌<◌, length, slice_get, IfSome};
ghost use Rattle.std.specs.Prelude.{OnOk, OnErr};
ghost use Rattle.std.specs.List.{position};
ghost use Rattle.std.specs.Str.{bytes_eq};
ghost use Rattle.pw_procs.specs.inside.Shapes.{name_bytes};
ghost use Rattle.pw_procs.specs.Registering.{place_of_name};

use crate::name::Name;
use indexmap::IndexSet;
use std::alloc::{AllocError, Allocator, Global};
use std::hash::{BuildHasherDefault, FoldHasher};
use std::marker::Model;

// This many names are searched one after another, which costs less than hashing the word.
const FEW: usize = 8;

// The place of the name that is equal to the word, if there is one.
fn place_among<A: Allocator>(names: &[Name<'static, A>], word: &[u8]) -> Option<usize>
    ensures number { result ≡ position (λ name. bytes_eq word.now (name_bytes name)) names.now }
    ensures within { IfSome result (λ number. number < length names.now) }
{
    names.iter().position(|name| word == name.bytes())
}

/// A list of different names. The number of a name is its position, from 0.
#[derive(Drop)]
pub struct NameTable<A: Allocator = Global> {
    // Each name is a text.
    set: IndexSet<Name<'static, A>, BuildHasherDefault<FoldHasher>, A>,
}

impl<A: Allocator> Model for NameTable<A> {
    ghost use Rattle.std.specs.Prelude.{List, ℕ, map, All};
    ghost use Rattle.std.specs.Str.{IsUtf8};
    ghost use Rattle.pw_procs.specs.inside.Shapes.{name_bytes};

    ghost Value = { List (List ℕ) };

    ghost view = { λ t. map name_bytes t.set.keys };

    ghost invariant = { λ t. All (λ name. IsUtf8 (name_bytes name)) t.set.keys };
}

impl<A: Allocator + Copy> NameTable<A> {
    /// A table with no names. Takes no memory.
    pub fn new(alloc: A) -> NameTable<A>
        ensures { result ≡ [] }
    {
        NameTable {
            set: IndexSet::new(alloc),
        }
    }

    /// The number of names.
    pub fn len(&self) -> usize
        ensures { result ≡ length self.now }
    {
        self.set.len()
    }

    /// The number of the name that is equal to this word, if there is one.
    pub fn find(&self, word: &[u8]) -> Option<usize>
        ensures number { result ≡ place_of_name self.now word.now }
        ensures within { IfSome result (λ number. number < length self.now) }
    {
        if self.set.len() <= FEW {
            return place_among(self.set.as_slice(), word);
        }
        self.find_by_hash(word)
    }

    // The same, by the hash of the word. A function of its own, so that little is done for a few
    // names.
    #[inline(never)]
    fn find_by_hash(&self, word: &[u8]) -> Option<usize>
        ensures number { result ≡ place_of_name self.now word.now }
        ensures within { IfSome result (λ number. number < length self.now) }
    {
        self.set.get_index_of(&Name::Sought(word))
    }

    /// The name of this number.
    pub fn name(&self, number: usize) -> &str
        requires { number < length self.now }
        ensures name { slice_get self.now number ≡ Some result.now }
        // No two names are equal.
        ensures own { place_of_name self.now result.now ≡ Some number }
    {
        let Ok(name) = str::from_utf8(self.set.as_slice()[number].bytes()) else {
            unreachable!("each name is a text");
        };
        name
    }

    /// Adds a name, which gets the next number. Fails only when out of memory; then the table is
    /// unchanged.
    pub fn add(&mut self, name: &str) -> Result<(), AllocError>
        requires { place_of_name self.old name.now ≡ None }
        ensures ok { OnOk result (self.new ≡ self.old ++ name.now ∷ []) }
        ensures err { OnErr result (self.new ≡ self.old) }
    {
        let alloc = *self.set.allocator();
        let key = String::from_str(alloc, name)?.into_bytes();
        self.set.insert(Name::Kept(key))?;
        Ok(())
    }
}
