//! Groups of premises: how many there can be, and when two are equal.

use super::groups_from;
use pw_reasons::Groups;
use std::alloc::{AllocError, Global};
use std::test::Fail;

// The premises of each group.
fn lists_of(alloc: Global, groups: &Groups) -> Result<Vec<Vec<u16>>, AllocError> {
    let mut lists = Vec::new(alloc);
    for place in 0..groups.len() {
        lists.push(Vec::from_slice(alloc, groups.group(place))?)?;
    }
    Ok(lists)
}

#[test]
fn a_group_has_one_to_four_premises(rt: HostRuntime) -> Result<(), Fail> {
    assert!(rt; Groups::one(&[]).is_none());
    assert!(rt; Groups::one(&[3]).is_some());
    assert!(rt; Groups::one(&[3, 0, 511, 7]).is_some());
    assert!(rt; Groups::one(&[3, 0, 511, 7, 1]).is_none());
    assert!(rt; groups_from(&[&[3], &[]]).is_none());
    assert!(rt; groups_from(&[&[3], &[0, 1, 2, 4, 5]]).is_none());
    Ok(())
}

#[test]
fn there_are_at_most_six_groups(rt: HostRuntime) -> Result<(), Fail> {
    let Some(groups) = groups_from(&[&[0], &[1, 2], &[3], &[4], &[5], &[6]]) else {
        return Err("no groups".into());
    };
    assert_eq!(rt; groups.len(), 6);
    assert!(rt; groups.with(&[7]).is_none());
    Ok(())
}

#[test]
fn no_premise_stands_twice(rt: HostRuntime) -> Result<(), Fail> {
    assert!(rt; Groups::one(&[2, 2]).is_none());
    assert!(rt; groups_from(&[&[0, 1], &[2, 2]]).is_none());
    assert!(rt; groups_from(&[&[0, 1], &[2], &[3, 0]]).is_none());
    assert!(rt; groups_from(&[&[0, 1], &[2], &[3, 4]]).is_some());
    Ok(())
}

#[test]
fn the_premises_stand_as_given(rt: HostRuntime) -> Result<(), Fail> {
    let Some(groups) = groups_from(&[&[4, 1], &[0], &[3, 2, 5]]) else {
        return Err("no groups".into());
    };
    let lists = lists_of(rt.alloc(), &groups)?;
    assert_eq!(rt; lists.len(), 3);
    assert_eq!(rt; lists[0].as_slice(), [4, 1].as_slice());
    assert_eq!(rt; lists[1].as_slice(), [0].as_slice());
    assert_eq!(rt; lists[2].as_slice(), [3, 2, 5].as_slice());
    Ok(())
}

#[test]
fn groups_with_the_same_premises_are_equal(rt: HostRuntime) -> Result<(), Fail> {
    let groups = groups_from(&[&[0, 1], &[2]]);
    assert!(rt; groups.is_some());
    assert_eq!(rt; groups, groups_from(&[&[0, 1], &[2]]));
    assert!(rt; groups != groups_from(&[&[1, 0], &[2]]));
    assert!(rt; groups != groups_from(&[&[0, 1]]));
    assert!(rt; groups != groups_from(&[&[0, 1], &[2], &[3]]));
    assert!(rt; groups != groups_from(&[&[0], &[1, 2]]));
    Ok(())
}
