//! Products of sets of premises.

ghost use Rattle.std.specs.Prelude.{◌≡◌, ◌++◌, [], true, false, drop, take};
ghost use Rattle.std.specs.Prelude.{All, Contains, IfNone, IfSome, OnErr, OnOk};
ghost use Rattle.std.specs.FinSet.{is_subset};
ghost use Rattle.pw_reasons.specs.Combinations.{groups_of};
ghost use Rattle.pw_reasons.specs.Nogood.{covers};
ghost use Rattle.pw_reasons.specs.inside.Beside.{worldviews_beside};
ghost use Rattle.pw_reasons.specs.inside.Products.{ArePassedOver, sets_in_each};

use crate::groups::Groups;
use crate::product::Product;
use pw_premises::PremiseSet;
use std::alloc::{AllocError, Allocator};
use std::marker::Model;

// The sets of some products.
#[derive(Drop)]
pub(crate) struct Products<A: Allocator> {
    list: Vec<Product, A>,
    // The premises that are expected, and how many of the first products cover none of them: these are
    // passed over while all premises in question are expected.
    expected: PremiseSet,
    start: usize,
}

impl<A: Allocator> Model for Products<A> {
    ghost use Rattle.std.specs.Prelude.{List};
    ghost use Rattle.std.specs.Coded.{coded_list, coded_ℕ};
    ghost use Rattle.std.specs.FinSet as set;
    ghost use Rattle.pw_premises.specs.Premises.{Premises};
    ghost use Rattle.pw_reasons.specs.inside.Products.{ArePassedOver, sets_in_each};

    ghost Value = { List Premises };

    ghost coded = { coded_list (set.code coded_ℕ) };

    ghost view = { λ a. sets_in_each a.list.items };

    ghost invariant = { λ a. ArePassedOver a.list.items a.start a.expected };
}

// Whether a product covers the premises. None of the first ones does.
fn any_covers(products: &[Product], start: usize, premises: &PremiseSet) -> bool
    requires { covers (sets_in_each (take start products.now)) premises.now ≡ false }
    ensures { result ≡ covers (sets_in_each products.now) premises.now }
{
    for index in start..products.len() {
        if products[index].covers(premises) {
            return true;
        }
    }
    false
}

// How many of the first products do not cover the premises.
fn first_covering(products: &[Product], premises: &PremiseSet) -> usize
    ensures { ArePassedOver products.now result premises.now }
{
    for index in 0..products.len() {
        if products[index].covers(premises) {
            return index;
        }
    }
    products.len()
}

impl<A: Allocator> Products<A> {
    // No sets. Takes no memory.
    pub(crate) fn new(alloc: A) -> Products<A>
        ensures { result ≡ [] }
    {
        Products {
            list: Vec::new(alloc),
            expected: PremiseSet::empty(),
            start: 0,
        }
    }

    // Announces which premises later questions are about. Others may be asked about too.
    pub(crate) fn expect(&mut self, premises: &PremiseSet)
        ensures { self.new ≡ self.old }
    {
        self.start = first_covering(&self.list, premises);
        self.expected = *premises;
    }

    // Whether a set is a subset of these premises.
    pub(crate) fn covers(&self, premises: &PremiseSet) -> bool
        ensures { result ≡ covers self.now premises.now }
    {
        if premises.is_subset(&self.expected) {
            return any_covers(&self.list, self.start, premises);
        }
        any_covers(&self.list, 0, premises)
    }

    // A set that is a subset of these premises, if there is one.
    pub(crate) fn within(&self, premises: &PremiseSet) -> Option<PremiseSet>
        ensures some { IfSome result (λ set. Contains self.now set
            × (is_subset set premises.now ≡ true)) }
        ensures none { IfNone result (covers self.now premises.now ≡ false) }
    {
        for product in &self.list {
            if let Some(set) = product.within(premises) {
                return Some(set);
            }
        }
        None
    }

    // Whether one of the products, of those that are not passed over, covers each combination of the
    // groups from this place on, with what is believed. False says nothing.
    pub(crate) fn covers_each(&self, believed: &PremiseSet, groups: &Groups, place: usize) -> bool
        ensures { result ≡ true → All (λ w. covers self.now w ≡ true)
            (worldviews_beside believed.now (drop place (groups_of groups.now))) }
    {
        let products = self.list.as_slice();
        for index in self.start..products.len() {
            if products[index].covers_each(believed, groups, place) {
                return true;
            }
        }
        false
    }

    // Adds each set of the fixed premises with one of each group, from this place on. Fails only
    // when out of memory; then nothing changes.
    pub(crate) fn add(
        &mut self,
        fixed: &PremiseSet,
        groups: &Groups,
        place: usize,
    ) -> Result<(), AllocError>
        ensures more { OnOk result (self.new
            ≡ self.old ++ worldviews_beside fixed.now (drop place (groups_of groups.now))) }
        ensures err { OnErr result (self.new ≡ self.old) }
    {
        self.list.push(Product::new(fixed, groups, place))?;
        Ok(())
    }
}
