//! Tests of the merge of two facts, and of which one subsumes the other.

use pw_facts::{merge_facts, subsumes};
use pw_premises::PremiseSet;
use pw_testing::facts::fact;

#[test]
fn the_narrower_interval_keeps_its_support(rt: HostRuntime) {
    let wide = fact(5, 9, PremiseSet::one(0));
    let narrow = fact(5, 7, PremiseSet::one(1));
    assert!(rt; merge_facts(&wide, &narrow) == narrow);
}

#[test]
fn overlapping_intervals_join_their_supports(rt: HostRuntime) {
    let one = fact(5, 9, PremiseSet::one(0));
    let other = fact(0, 7, PremiseSet::one(1));
    let both = fact(5, 7, PremiseSet::first(2));
    assert!(rt; merge_facts(&one, &other) == both);
}

#[test]
fn equal_facts_keep_the_smaller_support(rt: HostRuntime) {
    let more = fact(3, 3, PremiseSet::first(2));
    let fewer = fact(3, 3, PremiseSet::one(1));
    assert!(rt; merge_facts(&more, &fewer) == fewer);
}

#[test]
fn equal_facts_keep_the_first_of_two_supports(rt: HostRuntime) {
    let one = fact(3, 3, PremiseSet::one(0));
    let other = fact(3, 3, PremiseSet::one(1));
    assert!(rt; merge_facts(&one, &other) == one);
}

#[test]
fn more_under_fewer_premises_subsumes(rt: HostRuntime) {
    let one = fact(3, 3, PremiseSet::empty());
    let other = fact(1, 5, PremiseSet::one(0));
    assert!(rt; subsumes(&one, &other));
    assert!(rt; !subsumes(&other, &one));
}
