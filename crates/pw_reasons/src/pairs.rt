//! Pairs of premises.

ghost use Rattle.std.specs.Prelude.{◌≡◌, ◌<◌, ◌≤◌, ℕ, true, false, [], length};
ghost use Rattle.std.specs.Prelude.{Contains, IfNone, IfSome, OnErr, OnOk};
ghost use Rattle.std.specs.FinSet.{contains, insert, is_subset};
ghost use Rattle.pw_premises.specs.Premises.{most_premises};
ghost use Rattle.pw_reasons.specs.Nogood.{covers};
ghost use Rattle.pw_reasons.specs.inside.Families.{HasOneMore};
ghost use Rattle.pw_reasons.specs.inside.PairRows.{row_of, pair as pair_set};

use pw_premises::PremiseSet;
use std::alloc::{AllocError, Allocator};
use std::marker::Model;

// Pairs of two premises, in rows: a look at one row tells whether a premise makes a pair with one
// of many others.
#[derive(Drop)]
pub(crate) struct Pairs<A: Allocator> {
    // The row of a premise has those that it makes a pair with. Premises past the last row make none.
    rows: Vec<PremiseSet, A>,
}

impl<A: Allocator> Model for Pairs<A> {
    ghost use Rattle.std.specs.Prelude.{List};
    ghost use Rattle.std.specs.Coded.{coded_list, coded_ℕ};
    ghost use Rattle.std.specs.FinSet as set;
    ghost use Rattle.pw_premises.specs.Premises.{Premises};
    ghost use Rattle.pw_reasons.specs.inside.PairRows.{AreMutual, pairs_in};

    ghost Value = { List Premises };

    ghost coded = { coded_list (set.code coded_ℕ) };

    ghost view = { λ a. pairs_in a.rows.items };

    ghost invariant = { λ a. AreMutual a.rows.items };
}

impl<A: Allocator> Pairs<A> {
    // No pairs. Takes no memory.
    pub(crate) fn new(alloc: A) -> Pairs<A>
        ensures { result ≡ [] }
    {
        Pairs {
            rows: Vec::new(alloc),
        }
    }

    // Whether a pair is a subset of these premises with one more. None is a subset of them without
    // it.
    #[inline]
    pub(crate) fn covers_with(&self, before: &PremiseSet, premise: u16) -> bool
        requires { covers self.now before.now ≡ false }
        ensures { result ≡ covers self.now (insert before.now premise) }
    {
        // The proof needs the numbers: they show that each is below 512.
        let _numbers = before.numbers();
        if premise as usize >= self.rows.len() {
            return false;
        }
        let row = &self.rows[premise as usize];
        !row.is_subset(&row.difference(*before))
    }

    // A pair that is a subset of these premises, if there is one.
    pub(crate) fn within(&self, premises: &PremiseSet) -> Option<PremiseSet>
        ensures some { IfSome result (λ set. Contains self.now set
            × (is_subset set premises.now ≡ true)) }
        ensures none { IfNone result (covers self.now premises.now ≡ false) }
    {
        for premise in 0..self.rows.len() as u16 {
            if premises.contains(premise) {
                if let Some(other) = shared(&self.rows[premise as usize], premises) {
                    return Some(pair(premise, other));
                }
            }
        }
        None
    }

    // Adds the pair of two premises. Fails only when out of memory; then nothing changes.
    pub(crate) fn add(&mut self, lesser: u16, greater: u16) -> Result<(), AllocError>
        requires rise { lesser < greater }
        requires in_range { greater < most_premises }
        ensures more { OnOk result (HasOneMore self.old self.new (pair_set lesser greater)) }
        ensures err { OnErr result (self.new ≡ self.old) }
    {
        grow(&mut self.rows, greater)?;
        self.rows[lesser as usize].insert(greater);
        self.rows[greater as usize].insert(lesser);
        Ok(())
    }
}

// Adds empty rows, so that the premise has one. Fails only when out of memory; then nothing changes.
fn grow<A: Allocator>(rows: &mut Vec<PremiseSet, A>, premise: u16) -> Result<(), AllocError>
    requires premise { premise < most_premises }
    requires few { length rows.old.items ≤ most_premises }
    ensures same { (p : ℕ) → row_of rows.new.items p ≡ row_of rows.old.items p }
    ensures room { OnOk result (premise < length rows.new.items) }
    ensures few { length rows.new.items ≤ most_premises }
    ensures err { OnErr result (rows.new.items ≡ rows.old.items) }
{
    if rows.len() <= premise as usize {
        rows.resize(premise as usize + 1, PremiseSet::empty())?;
    }
    Ok(())
}

// The set of two premises.
fn pair(one: u16, other: u16) -> PremiseSet
    requires one { one < most_premises }
    requires other { other < most_premises }
    ensures { result ≡ pair_set one other }
{
    let mut pair = PremiseSet::one(one);
    pair.insert(other);
    pair
}

// A premise that both sets have, if there is one.
fn shared(set: &PremiseSet, other: &PremiseSet) -> Option<u16>
    ensures some { IfSome result (λ p. (p < most_premises) × (contains set.now p ≡ true)
        × (contains other.now p ≡ true)) }
    ensures none { IfNone result ((p : ℕ) → contains set.now p ≡ true
        → contains other.now p ≡ false) }
{
    set.difference(set.difference(*other)).numbers().next()
}
