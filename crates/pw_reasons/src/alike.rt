//! Sets that refute the premises of a group alike: they are the same but for the premise.

ghost use Rattle.std.specs.Prelude.{◌≡◌, ◌+◌, ◌<◌, ◌≤◌, ◌++◌, true, None, All, IfNone, IfSome, OnOk};
ghost use Rattle.std.specs.Prelude.{drop, length, take, slice_index_or, []};
ghost use Rattle.std.specs.FinSet.{contains, remove};
ghost use Rattle.std.specs.List.{flat_map};
ghost use Rattle.pw_premises.specs.Premises.{most_premises};
ghost use Rattle.pw_reasons.specs.Combinations.{groups_of};
ghost use Rattle.pw_reasons.specs.inside.Products.{worldviews_beside};
ghost use Rattle.pw_reasons.specs.inside.Alike.{HasMore, MayHaveMore, beside, pending};

use crate::groups::Groups;
use crate::nogoods::Nogoods;
use pw_premises::PremiseSet;
use std::alloc::{AllocError, Allocator};

// Notes the fixed premises together with one of the first premises of a group, and one of each group
// after it. Fails only when out of memory.
fn note_with_each_of<A: Allocator + Copy>(
    nogoods: &mut Nogoods<A>,
    fixed: &PremiseSet,
    groups: &Groups,
    place: usize,
    count: usize,
) -> Result<(), AllocError>
    requires place { place < length (groups_of groups.now) }
    requires count { count ≤ length (slice_index_or (groups_of groups.now) place []) }
    requires premises { All (All (λ premise. premise < most_premises)) (groups_of groups.now) }
    ensures noted { OnOk result (HasMore nogoods.old nogoods.new
        (flat_map (beside fixed.now (drop (place + 1) (groups_of groups.now)))
        (take count (slice_index_or (groups_of groups.now) place [])))) }
    ensures leaves { MayHaveMore nogoods.old nogoods.new
        (flat_map (beside fixed.now (drop (place + 1) (groups_of groups.now)))
        (take count (slice_index_or (groups_of groups.now) place []))) }
{
    let group = groups.group(place);
    for index in 0..count {
        let mut set = *fixed;
        set.insert(group[index]);
        nogoods.note_with_each(&set, groups, place + 1)?;
    }
    Ok(())
}

// Notes the sets that refute the first premises of a group, if these are refuted alike. Fails only
// when out of memory.
pub(crate) fn note_alike<A: Allocator + Copy>(
    nogoods: &mut Nogoods<A>,
    alike: &mut Option<PremiseSet>,
    groups: &Groups,
    place: usize,
    count: usize,
) -> Result<(), AllocError>
    requires place { place < length (groups_of groups.now) }
    requires count { count ≤ length (slice_index_or (groups_of groups.now) place []) }
    requires premises { All (All (λ premise. premise < most_premises)) (groups_of groups.now) }
    ensures none { OnOk result (alike.new ≡ None) }
    ensures noted { OnOk result (HasMore nogoods.old nogoods.new
        (pending alike.old (drop (place + 1) (groups_of groups.now))
        (take count (slice_index_or (groups_of groups.now) place [])))) }
    ensures leaves { MayHaveMore nogoods.old nogoods.new
        (pending alike.old (drop (place + 1) (groups_of groups.now))
        (take count (slice_index_or (groups_of groups.now) place []))) }
    ensures same { alike.old ≡ None → (result ≡ Ok tt) × (nogoods.new ≡ nogoods.old) }
{
    if let Some(fixed) = alike {
        note_with_each_of(nogoods, fixed, groups, place, count)?;
        *alike = None;
    }
    Ok(())
}

// Whether a set has more than two premises.
fn has_three(premises: &PremiseSet) -> bool {
    let mut numbers = premises.numbers();
    numbers.next();
    numbers.next();
    numbers.next().is_some()
}

// Whether the nogood together with one premise of each group from a place on refutes this premise of a
// group as those before are refuted, so that it need not be noted yet.
fn waits(
    alike: &Option<PremiseSet>,
    groups: &Groups,
    place: usize,
    index: usize,
    nogood: &PremiseSet,
    from: usize,
) -> bool
    requires place { place < length (groups_of groups.now) }
    requires index { index < length (slice_index_or (groups_of groups.now) place []) }
    ensures next { result ≡ true → from ≡ place + 1 }
    ensures own { result ≡ true → contains nogood.now
        (slice_index_or (slice_index_or (groups_of groups.now) place []) index 0) ≡ true }
    ensures others { result ≡ true → IfSome alike.now (λ before. before ≡ remove nogood.now
        (slice_index_or (slice_index_or (groups_of groups.now) place []) index 0)) }
    ensures first { result ≡ true → IfNone alike.now (index ≡ 0) }
{
    let premise = groups.group(place)[index];
    if from != place + 1 || !nogood.contains(premise) {
        return false;
    }
    match alike {
        Some(before) => *before == nogood.without(premise),
        // A pair is noted at once: a look at one row of pairs finds it.
        None => index == 0 && (from < groups.len() || has_three(nogood)),
    }
}

// Takes in what refutes one more premise of a group: the nogood together with one premise of each
// group from a place on. If the premises before are refuted alike, nothing is noted yet; otherwise
// all is. Fails only when out of memory.
pub(crate) fn take_refuted<A: Allocator + Copy>(
    nogoods: &mut Nogoods<A>,
    alike: &mut Option<PremiseSet>,
    groups: &Groups,
    place: usize,
    index: usize,
    nogood: &PremiseSet,
    from: usize,
) -> Result<(), AllocError>
    requires place { place < length (groups_of groups.now) }
    requires index { index < length (slice_index_or (groups_of groups.now) place []) }
    requires premises { All (All (λ premise. premise < most_premises)) (groups_of groups.now) }
    ensures more { OnOk result (HasMore
        (pending alike.old (drop (place + 1) (groups_of groups.now))
        (take index (slice_index_or (groups_of groups.now) place [])) ++ nogoods.old)
        (pending alike.new (drop (place + 1) (groups_of groups.now))
        (take (index + 1) (slice_index_or (groups_of groups.now) place [])) ++ nogoods.new)
        (worldviews_beside nogood.now (drop from (groups_of groups.now)))) }
    ensures waiting { OnOk result (IfSome alike.new (λ fixed. fixed ≡ remove nogood.now
        (slice_index_or (slice_index_or (groups_of groups.now) place []) index 0))) }
    ensures leaves { MayHaveMore nogoods.old nogoods.new
        (worldviews_beside nogood.now (drop from (groups_of groups.now))
        ++ pending alike.old (drop (place + 1) (groups_of groups.now))
        (take index (slice_index_or (groups_of groups.now) place []))) }
{
    if waits(alike, groups, place, index, nogood, from) {
        *alike = Some(nogood.without(groups.group(place)[index]));
        return Ok(());
    }
    note_alike(nogoods, alike, groups, place, index)?;
    nogoods.note_with_each(nogood, groups, from)
}
