//! The worldviews of combinations of groups.

ghost use Rattle.std.specs.Prelude.{◌≡◌, ◌<◌, ◌≤◌, [], length, slice_index_or};
ghost use Rattle.std.specs.Prelude.{All};
ghost use Rattle.std.specs.FinSet as set;
ghost use Rattle.pw_premises.specs.Premises.{most_premises};
ghost use Rattle.pw_reasons.specs.Combinations.{combinations_of, groups_of, picked_in};
ghost use Rattle.pw_reasons.specs.Combinations.{worldview_of};
ghost use Rattle.pw_reasons.specs.Groups.{all_of};

use crate::groups::Groups;
use crate::picks::Picks;
use pw_premises::PremiseSet;

// The set of these premises.
fn set_of(premises: &[u16]) -> PremiseSet
    requires { All (λ premise. premise < most_premises) premises.now }
    ensures { result ≡ set.from_list premises.now }
{
    let mut set = PremiseSet::empty();
    for &premise in premises {
        set.insert(premise);
    }
    set
}

// The set of all premises of the groups.
fn premises_of(groups: &Groups) -> PremiseSet
    requires { All (All (λ premise. premise < most_premises)) (groups_of groups.now) }
    ensures { result ≡ set.from_list (all_of (groups_of groups.now)) }
{
    let mut set = PremiseSet::empty();
    for place in 0..groups.len() {
        set = set.join(set_of(groups.group(place)));
    }
    set
}

// What is believed without all premises of the groups.
pub(crate) fn believed_beside(beliefs: &PremiseSet, groups: &Groups) -> PremiseSet
    requires { All (All (λ premise. premise < most_premises)) (groups_of groups.now) }
    ensures { result ≡ set.difference beliefs.now (set.from_list (all_of (groups_of groups.now))) }
{
    beliefs.difference(premises_of(groups))
}

// What is believed together with all premises of the groups.
pub(crate) fn believed_with_all(beliefs: &PremiseSet, groups: &Groups) -> PremiseSet
    requires { All (All (λ premise. premise < most_premises)) (groups_of groups.now) }
{
    beliefs.join(premises_of(groups))
}

// These premises together with those taken.
fn with_taken(others: &PremiseSet, picks: &Picks) -> PremiseSet
    requires { All (λ premise. premise < most_premises) (picked_in picks.now) }
    ensures { result ≡ set.union others.now (set.from_list (picked_in picks.now)) }
{
    others.join(set_of(picks.premises()))
}

/// The worldview of a combination of the groups: what is believed without all premises of the
/// groups, together with the premises taken. Where these are what `choose` answered, nothing is
/// contradictory in it. All premises must be below 512. Takes no memory.
pub fn worldview_with(beliefs: &PremiseSet, groups: &Groups, picks: &Picks) -> PremiseSet
    requires groups { All (All (λ premise. premise < most_premises)) (groups_of groups.now) }
    requires picks { All (λ premise. premise < most_premises) (picked_in picks.now) }
    ensures { result ≡ worldview_of beliefs.now (groups_of groups.now) (picked_in picks.now) }
{
    with_taken(&believed_beside(beliefs, groups), picks)
}
