//! Laws of sets of premises. Each is the contract of a function that does nothing, and holds of
//! every set.

ghost use Rattle.std.specs.Prelude.{◌≡◌, ◌<◌, ◌↔◌, ◌&&◌, ℕ, true, Contains};
ghost use Rattle.std.specs.List.Sorted.{IsStrictlyIncreasing};
ghost use Rattle.std.specs.FinSet.{empty, contains, remove, union, is_subset};
ghost use Rattle.pw_premises.specs.Premises.{numbers_of};
ghost use Rattle.pw_premises.specs.Premises.{Premises, most_premises};

/// The subset relation is a partial order, and the empty set is the least.
pub fn subset_is_an_order()
    ensures reflexive { (s : Premises) → is_subset s s ≡ true }
    ensures transitive { (s t u : Premises) → is_subset s t ≡ true → is_subset t u ≡ true
        → is_subset s u ≡ true }
    ensures antisymmetric { (s t : Premises) → is_subset s t ≡ true → is_subset t s ≡ true → s ≡ t }
    ensures least { (s : Premises) → is_subset empty s ≡ true }
{}

/// The join of two sets is the least set of which both are subsets.
pub fn join_is_least_upper_bound()
    ensures own { (s t : Premises) → is_subset s (union s t) ≡ true }
    ensures other { (s t : Premises) → is_subset t (union s t) ≡ true }
    ensures least { (s t u : Premises)
        → is_subset (union s t) u ≡ (is_subset s u && is_subset t u) }
{}

/// A set without a number is a subset of the set.
pub fn without_is_a_subset()
    ensures { (s : Premises) (n : ℕ) → is_subset (remove s n) s ≡ true }
{}

/// The list of the numbers of a set rises, and has exactly the numbers of the premises in the set.
pub fn numbers_are_the_members()
    ensures rising { (s : Premises) → IsStrictlyIncreasing (numbers_of s) }
    ensures members { (s : Premises) (q : ℕ)
        → Contains (numbers_of s) q ↔ ((q < most_premises) × (contains s q ≡ true)) }
{}
