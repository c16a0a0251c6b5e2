//! A product: sets of premises that differ in which premise of each group they have.

ghost use Rattle.std.specs.Prelude.{◌≡◌, ℕ, Some, true, false, drop};
ghost use Rattle.std.specs.Prelude.{All, Contains, IfNone, IfSome};
ghost use Rattle.std.specs.FinSet.{contains, is_subset};
ghost use Rattle.std.specs.List.{list_any};
ghost use Rattle.pw_reasons.specs.Combinations.{groups_of};
ghost use Rattle.pw_reasons.specs.Nogood.{covers};
ghost use Rattle.pw_reasons.specs.inside.Beside.{worldviews_beside};

use crate::groups::Groups;
use pw_premises::PremiseSet;

// Sets of premises: the fixed premises together with one of each group, from a place on.
#[derive(Clone, Copy)]
pub(crate) struct Product {
    fixed: PremiseSet,
    groups: Groups,
    place: usize,
    // One of the fixed premises, if there are any.
    key: Option<u16>,
    ghost fixed_key: { (premise : ℕ) → key ≡ Some premise → contains fixed premise ≡ true },
}

impl Product {
    ghost use Rattle.pw_reasons.specs.inside.Products.{sets_in};

    // These fixed premises with one of each of these groups, from this place on.
    pub(crate) fn new(fixed: &PremiseSet, groups: &Groups, place: usize) -> Product
        ensures { sets_in result ≡ worldviews_beside fixed.now (drop place (groups_of groups.now)) }
    {
        Product {
            fixed: *fixed,
            groups: *groups,
            place,
            key: key_of(fixed, groups),
        }
    }

    // Whether all fixed premises are among these. The key is tested first: mostly it is not.
    #[inline(always)]
    fn is_fixed_in(&self, premises: &PremiseSet) -> bool
        ensures { result ≡ is_subset self.now.fixed premises.now }
    {
        if let Some(premise) = self.key
            && !premises.contains(premise)
        {
            return false;
        }
        self.fixed.is_subset(premises)
    }

    // Whether a set of it is a subset of these premises.
    pub(crate) fn covers(&self, premises: &PremiseSet) -> bool
        ensures { result ≡ covers (sets_in self.now) premises.now }
    {
        if !self.is_fixed_in(premises) {
            return false;
        }
        for place in self.place..self.groups.len() {
            if !has_any(premises, self.groups.group(place)) {
                return false;
            }
        }
        true
    }

    // A set of it that is a subset of these premises, if there is one.
    pub(crate) fn within(&self, premises: &PremiseSet) -> Option<PremiseSet>
        ensures some { IfSome result (λ set. Contains (sets_in self.now) set
            × (is_subset set premises.now ≡ true)) }
        ensures none { IfNone result (covers (sets_in self.now) premises.now ≡ false) }
    {
        // The proof needs the numbers: they show that each is below 512.
        let _numbers = premises.numbers();
        if !self.is_fixed_in(premises) {
            return None;
        }
        let mut set = self.fixed;
        for place in self.place..self.groups.len() {
            set.insert(first_in(premises, self.groups.group(place))?);
        }
        Some(set)
    }

    // Whether it covers each combination of the groups from this place on, with what is believed.
    // False says nothing.
    pub(crate) fn covers_each(&self, believed: &PremiseSet, groups: &Groups, place: usize) -> bool
        ensures { result ≡ true → All (λ w. covers (sets_in self.now) w ≡ true)
            (worldviews_beside believed.now (drop place (groups_of groups.now))) }
    {
        if !self.is_fixed_in(believed) {
            return false;
        }
        for own in self.place..self.groups.len() {
            if !each_has_any(believed, groups, place, self.groups.group(own)) {
                return false;
            }
        }
        true
    }
}

// One of the premises of the set, if there are any.
fn first_of(set: &PremiseSet) -> Option<u16>
    ensures { IfSome result (λ premise. contains set.now premise ≡ true) }
{
    set.numbers().next()
}

// The set without these premises.
fn without_all(set: PremiseSet, premises: &[u16]) -> PremiseSet
    ensures { is_subset result set ≡ true }
{
    let mut others = set;
    for &premise in premises {
        others = others.without(premise);
    }
    others
}

// The fixed premises that are in no group.
fn without_groups(fixed: &PremiseSet, groups: &Groups) -> PremiseSet
    ensures { is_subset result fixed.now ≡ true }
{
    let mut others = *fixed;
    for place in 0..groups.len() {
        others = without_all(others, groups.group(place));
    }
    others
}

// One of the fixed premises, if there are any: if it can be, one that is in no group, since other
// products of these groups mostly have other ones.
fn key_of(fixed: &PremiseSet, groups: &Groups) -> Option<u16>
    ensures { IfSome result (λ premise. contains fixed.now premise ≡ true) }
{
    match first_of(&without_groups(fixed, groups)) {
        Some(premise) => Some(premise),
        None => first_of(fixed),
    }
}

// Whether the set has a premise of the group.
fn has_any(set: &PremiseSet, group: &[u16]) -> bool
    ensures { result ≡ list_any (contains set.now) group.now }
{
    group.iter().any(|&premise| set.contains(premise))
}

// The first premise of the group that the set has, if there is one.
fn first_in(set: &PremiseSet, group: &[u16]) -> Option<u16>
    ensures some { IfSome result (λ p. Contains group.now p × (contains set.now p ≡ true)) }
    ensures none { IfNone result (list_any (contains set.now) group.now ≡ false) }
{
    for &premise in group {
        if set.contains(premise) {
            return Some(premise);
        }
    }
    None
}

// Whether each combination of the groups from this place on, with what is believed, has a premise
// of the group. False says nothing.
fn each_has_any(believed: &PremiseSet, groups: &Groups, place: usize, group: &[u16]) -> bool
    ensures { result ≡ true → All (λ w. list_any (contains w) group.now ≡ true)
        (worldviews_beside believed.now (drop place (groups_of groups.now))) }
{
    if has_any(believed, group) {
        return true;
    }
    for other in place..groups.len() {
        if is_part(groups.group(other), group) {
            return true;
        }
    }
    false
}

// Whether each premise of the part is in the group.
fn is_part(part: &[u16], group: &[u16]) -> bool
    ensures { result ≡ true → All (Contains group.now) part.now }
{
    part.iter().all(|premise| group.contains(premise))
}
