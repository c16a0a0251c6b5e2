//! Facts that come in where more is believed.

ghost use Rattle.std.specs.Prelude.{◌≡◌, length, false};
ghost use Rattle.pw_cells.specs.inside.OneCell.{AreShownBefore};

use crate::content::Content;
use crate::held::Held;
use crate::support::Support;
use pw_premises::PremiseSet;

// Whether one of the facts is visible in the worldview, and not in the one before. Mostly none is
// visible in either. So four are tried at a time.
#[inline(always)]
pub(crate) fn any_comes_in<C: Content, S: Support>(
    facts: &[Held<C, S>],
    before: &PremiseSet,
    worldview: &PremiseSet,
) -> bool
    ensures { result ≡ false → AreShownBefore before.now worldview.now facts.now }
{
    let mut left = facts;
    while left.len() >= 4 {
        let (four, rest) = left.split_at(4);
        if one_of_four_comes_in(four, before, worldview) {
            return true;
        }
        left = rest;
    }
    one_comes_in(left, before, worldview)
}

// `any_comes_in` for four facts. If none of them is visible, a test of each is enough.
#[inline(always)]
fn one_of_four_comes_in<C: Content, S: Support>(
    four: &[Held<C, S>],
    before: &PremiseSet,
    worldview: &PremiseSet,
) -> bool
    requires { length four.now ≡ 4 }
    ensures { result ≡ false → AreShownBefore before.now worldview.now four.now }
{
    let visible = four[0].is_visible(worldview)
        || four[1].is_visible(worldview)
        || four[2].is_visible(worldview)
        || four[3].is_visible(worldview);
    visible && one_comes_in(four, before, worldview)
}

// `any_comes_in`, one fact after another.
#[inline(always)]
fn one_comes_in<C: Content, S: Support>(
    facts: &[Held<C, S>],
    before: &PremiseSet,
    worldview: &PremiseSet,
) -> bool
    ensures { result ≡ false → AreShownBefore before.now worldview.now facts.now }
{
    for held in facts {
        if held.comes_in(before, worldview) {
            return true;
        }
    }
    false
}
