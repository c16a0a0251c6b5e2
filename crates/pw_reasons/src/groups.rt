//! Groups of premises to choose from.

ghost use Rattle.std.specs.Prelude.{◌≡◌, ◌≢◌, ◌≤◌, ◌↔◌, ◌++◌, Contains, IsTrue, IsSome, IfSome};
ghost use Rattle.std.specs.List.{AllPairs};
ghost use Rattle.pw_reasons.specs.Groups.{AreGroups, IsGroup, most_groups};
ghost use Rattle.pw_reasons.specs.inside.GroupsHeld.{FillsUp, all_premises, groups_in, premises_in};

use crate::group::Group;

// The greatest number of groups.
const MOST_GROUPS: usize = 6;

/// Groups of premises, from each of which one premise is taken: one to six groups of one to four
/// premises, by number, and no premise occurs twice in the whole. Two values with the same groups
/// are equal.
#[derive(Clone, Copy, Debug, PartialEq, Eq)]
pub struct Groups {
    held: [Group; 6],
    count: usize,
    ghost few: { count ≤ most_groups },
    ghost groups: { AreGroups (groups_in held count) },
    ghost rest: { FillsUp held count },
}

// Whether one of the groups has the premise.
fn hold(groups: &[Group], premise: u16) -> bool
    ensures { IsTrue result ↔ Contains (all_premises groups.now) premise }
{
    groups
        .iter()
        .any(|group| group.premises().contains(&premise))
}

// Whether no premise occurs twice among these, or in the groups, in which none occurs twice.
fn stand_once(groups: &[Group], premises: &[u16]) -> bool
    requires { AllPairs (λ m n. m ≢ n) (all_premises groups.now) }
    ensures { IsTrue result ↔ AllPairs (λ m n. m ≢ n) (all_premises groups.now ++ premises.now) }
{
    for place in 0..premises.len() {
        let premise = premises[place];
        if hold(groups, premise) || premises[..place].contains(&premise) {
            return false;
        }
    }
    true
}

// The premises as one more group. None unless they are one to four, and none of them occurs twice,
// or in the groups, in which none occurs twice.
fn one_more(groups: &[Group], premises: &[u16]) -> Option<Group>
    requires { AllPairs (λ m n. m ≢ n) (all_premises groups.now) }
    ensures some { IsSome result ↔ (IsGroup premises.now
        × AllPairs (λ m n. m ≢ n) (all_premises groups.now ++ premises.now)) }
    ensures premises { IfSome result (λ group. premises_in group ≡ premises.now) }
{
    if !stand_once(groups, premises) {
        return None;
    }
    Group::of(premises)
}

impl Groups {
    ghost use Rattle.std.specs.Prelude.{◌<◌, ◌∷◌, [], length, slice_index_or};
    ghost use Rattle.pw_reasons.specs.Combinations.{groups_of};

    /// One group of these premises. None unless they are one to four, and none occurs twice. Takes
    /// no memory.
    pub fn one(premises: &[u16]) -> Option<Groups>
        ensures some { IsSome result ↔ AreGroups (premises.now ∷ []) }
        ensures groups { IfSome result (λ groups. groups_of groups ≡ premises.now ∷ []) }
    {
        let group = one_more(&[], premises)?;
        let mut held = [Group::none(); 6];
        held[0] = group;
        Some(Groups { held, count: 1 })
    }

    /// These groups, and one more after them. None if there are six groups already, if the new one has
    /// no premise or more than four, or if a premise would occur twice in the whole. Takes no memory.
    pub fn with(self, premises: &[u16]) -> Option<Groups>
        ensures some { IsSome result ↔ AreGroups (groups_of self ++ premises.now ∷ []) }
        ensures groups { IfSome result (λ groups. groups_of groups
            ≡ groups_of self ++ premises.now ∷ []) }
    {
        if self.count >= MOST_GROUPS {
            return None;
        }
        let group = one_more(&self.held[..self.count], premises)?;
        let mut held = self.held;
        held[self.count] = group;
        Some(Groups {
            held,
            count: self.count + 1,
        })
    }

    /// The number of groups, one to six.
    pub fn len(&self) -> usize
        ensures len { result ≡ length (groups_of self.now) }
        ensures some { 1 ≤ result }
        ensures most { result ≤ most_groups }
    {
        self.count
    }

    /// The premises of the group at this place, from 0. The place must be below `len`.
    pub fn group(&self, place: usize) -> &[u16]
        requires { place < length (groups_of self.now) }
        ensures { result.now ≡ slice_index_or (groups_of self.now) place [] }
    {
        self.held[place].premises()
    }
}
