//! Small choices whose answers are known beforehand.

use super::{Choice, chosen_from, is_chosen};
use crate::networks::{Attachment, at_line};
use crate::settling::{Matter, Tell, told};
use pw_premises::PremiseSet;
use pw_testing::worlds::WORLD;
use std::alloc::Global;
use std::test::Fail;

// Three countries, each of which is red or green under premises of its own: 1 is red, 2 is green.
const COUNTRIES: &str = concat!(
    "workbench 1\nuser ann\n",
    "premise ra\npremise ga\npremise rb\npremise gb\npremise rc\npremise gc\n",
    "cell na interval\ncell nb interval\ncell nc interval\n",
    "compound differ p interval q interval\nlocal s bool\nlocal t bool\n",
    "at_most p q s\nat_most q p t\ninverter s t\nend\n",
);

// The first two countries are neighbours, and so are the others.
fn neighbours() -> [Attachment<'static>; 3] {
    [
        at_line(5, "differ", &["na", "nb"]),
        at_line(12, "differ", &["nb", "nc"]),
        at_line(14, "differ", &["na", "nc"]),
    ]
}

// Each country is red under its first premise, and green under its second.
fn colours() -> [Tell<'static>; 6] {
    [
        told("na", 1, 1, PremiseSet::one(0)),
        told("na", 2, 2, PremiseSet::one(1)),
        told("nb", 1, 1, PremiseSet::one(2)),
        told("nb", 2, 2, PremiseSet::one(3)),
        told("nc", 1, 1, PremiseSet::one(4)),
        told("nc", 2, 2, PremiseSet::one(5)),
    ]
}

// The set of two premises.
fn both(one: PremiseSet, other: PremiseSet) -> PremiseSet {
    one.join(other)
}

// What is chosen for the first two countries, and which of these sets are covered then.
fn of_two_countries(alloc: Global, asked: &[PremiseSet]) -> Result<Choice, Fail> {
    let (attachments, tells) = (neighbours(), colours());
    let matter = Matter {
        text: COUNTRIES,
        attachments: &attachments[..1],
        tells: &tells[..4],
    };
    let lists: [&[u16]; 2] = [&[0, 1], &[2, 3]];
    chosen_from(alloc, matter, PremiseSet::first(6), &lists, asked)
}

#[test]
fn the_first_consistent_combination_is_chosen(rt: HostRuntime) -> Result<(), Fail> {
    let choice = of_two_countries(rt.alloc(), &[])?;
    assert!(rt; is_chosen(&choice, Some([0, 3].as_slice())));
    Ok(())
}

#[test]
fn a_support_is_noted_and_not_all_that_is_believed(rt: HostRuntime) -> Result<(), Fail> {
    let (ra, rb, gb) = (PremiseSet::one(0), PremiseSet::one(2), PremiseSet::one(3));
    let asked = [both(ra, rb), both(ra, gb), ra, rb];
    let choice = of_two_countries(rt.alloc(), &asked)?;
    assert!(rt; choice.covered.as_slice() == [true, false, false, false].as_slice());
    Ok(())
}

#[test]
fn three_neighbours_have_no_two_colours(rt: HostRuntime) -> Result<(), Fail> {
    let (attachments, tells) = (neighbours(), colours());
    let matter = Matter {
        text: COUNTRIES,
        attachments: &attachments,
        tells: &tells,
    };
    let (ra, ga) = (PremiseSet::one(0), PremiseSet::one(1));
    let (rb, gb) = (PremiseSet::one(2), PremiseSet::one(3));
    let (rc, gc) = (PremiseSet::one(4), PremiseSet::one(5));
    let choice = chosen_from(
        rt.alloc(),
        matter,
        both(both(ra, gb), both(rc, gc)),
        &[&[0, 1], &[2, 3], &[4, 5]],
        &[
            both(ra, rb).join(rc),
            both(ra, rb).join(gc),
            both(ra, gb).join(rc),
            both(ra, gb).join(gc),
            both(ga, rb).join(rc),
            both(ga, rb).join(gc),
            both(ga, gb).join(rc),
            both(ga, gb).join(gc),
        ],
    )?;
    assert!(rt; is_chosen(&choice, None));
    assert_eq!(rt; choice.covered.as_slice(), [true; 8].as_slice());
    Ok(())
}

// Two numbers, each of which is one of two under premises of its own, and a total that no two reach.
const TOTAL: &str = concat!(
    "workbench 1\nuser ann\n",
    "premise a1\npremise a2\npremise b10\npremise b20\npremise total\n",
    "cell a interval\ncell b interval\ncell t interval\n",
);

// A total of 99 under the last premise.
fn no_total() -> [Tell<'static>; 5] {
    [
        told("a", 1, 1, PremiseSet::one(0)),
        told("a", 2, 2, PremiseSet::one(1)),
        told("b", 10, 10, PremiseSet::one(2)),
        told("b", 20, 20, PremiseSet::one(3)),
        told("t", 99, 99, PremiseSet::one(4)),
    ]
}

#[test]
fn what_is_refuted_alike_is_noted_for_each_combination(rt: HostRuntime) -> Result<(), Fail> {
    let tells = no_total();
    let matter = Matter {
        text: TOTAL,
        attachments: &[at_line(6, "adder", &["a", "b", "t"])],
        tells: &tells,
    };
    let (a1, a2) = (PremiseSet::one(0), PremiseSet::one(1));
    let (b10, b20) = (PremiseSet::one(2), PremiseSet::one(3));
    let total = PremiseSet::one(4);
    let choice = chosen_from(
        rt.alloc(),
        matter,
        PremiseSet::first(5),
        &[&[0, 1], &[2, 3]],
        &[
            both(a1, b10).join(total),
            both(a1, b20).join(total),
            both(a2, b10).join(total),
            both(a2, b20).join(total),
            both(both(a1, a2), both(b10, b20)),
            both(a1, a2).join(total),
            both(b10, b20).join(total),
        ],
    )?;
    assert!(rt; is_chosen(&choice, None));
    let expected = [true, true, true, true, false, false, false];
    assert_eq!(rt; choice.covered.as_slice(), expected.as_slice());
    Ok(())
}

// What is chosen from these groups where nothing is told, and whether all premises are covered then.
fn where_nothing_is_told(alloc: Global, lists: &[&[u16]]) -> Result<Choice, Fail> {
    let matter = Matter {
        text: WORLD,
        attachments: &[],
        tells: &[],
    };
    let all = PremiseSet::first(4);
    chosen_from(alloc, matter, all, lists, &[all])
}

#[test]
fn premises_of_other_users_can_be_chosen(rt: HostRuntime) -> Result<(), Fail> {
    let choice = where_nothing_is_told(rt.alloc(), &[&[3, 0], &[1]])?;
    assert!(rt; is_chosen(&choice, Some([3, 1].as_slice())));
    assert!(rt; choice.covered.as_slice() == [false].as_slice());
    Ok(())
}

#[test]
fn what_is_not_named_stays_believed(rt: HostRuntime) -> Result<(), Fail> {
    let tells = [
        told("x", 1, 1, PremiseSet::one(2)),
        told("x", 2, 2, PremiseSet::empty()),
    ];
    let matter = Matter {
        text: WORLD,
        attachments: &[],
        tells: &tells,
    };
    let all = PremiseSet::first(4);
    let none = chosen_from(rt.alloc(), matter, all, &[&[0, 1]], &[])?;
    assert!(rt; is_chosen(&none, None));
    let doubted = all.without(2);
    let choice = chosen_from(rt.alloc(), matter, doubted, &[&[1, 0]], &[])?;
    assert!(rt; is_chosen(&choice, Some([1].as_slice())));
    Ok(())
}

#[test]
fn picks_of_the_same_premises_are_equal(rt: HostRuntime) -> Result<(), Fail> {
    let choice = where_nothing_is_told(rt.alloc(), &[&[1, 0]])?;
    let same = where_nothing_is_told(rt.alloc(), &[&[1]])?;
    let longer = where_nothing_is_told(rt.alloc(), &[&[1], &[0]])?;
    assert!(rt; is_chosen(&longer, Some([1, 0].as_slice())));
    assert!(rt; choice.chosen == same.chosen);
    assert!(rt; choice.chosen != longer.chosen);
    Ok(())
}
