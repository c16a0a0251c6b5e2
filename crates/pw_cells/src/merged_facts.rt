//! What the facts of a cell say together in a worldview.

ghost use Rattle.std.specs.Prelude.{◌≡◌, reverse, true};
ghost use Rattle.pw_info.specs.Information.{kind_of};
ghost use Rattle.pw_facts.specs.Facts.{IsMerge, MergesTo, visible_facts};
ghost use Rattle.pw_cells.specs.inside.OneCell.{AreOfKind, Bounds, StandsFor, current};

use crate::bound::Bound;
use crate::content::Content;
use crate::held::Held;
use crate::support::Support;
use pw_info::Kind;
use pw_premises::PremiseSet;

// A fact that stands for the current ones that rest only on premises of the worldview: it says their
// merge. (The facts that a later one outdoes are gone over too, and change nothing.)
#[inline(always)]
pub(crate) fn merged<C: Content, S: Support>(
    kind: Kind,
    facts: &[Held<C, S>],
    bound: &Bound,
    worldview: &PremiseSet,
) -> Held<C, S>
    requires kinds { AreOfKind kind facts.now }
    requires bounds { Bounds kind facts.now bound.now }
    requires fits { C.fits kind ≡ true }
    ensures { StandsFor kind worldview.now (current facts.now) result }
{
    let (older, newer) = facts.split_at(bound.count);
    let mut merge = Held::nothing(kind);
    merge_all_in(&mut merge, newer, worldview);
    // Mostly the merge says as much as each of the older facts. Then it stands for them too.
    if merge.info().implies(&bound.info) {
        return merge;
    }
    merge_all_in(&mut merge, older, worldview);
    merge
}

// `merged` for few facts, which are all gone over.
#[inline(always)]
pub(crate) fn merged_few<C: Content, S: Support>(
    kind: Kind,
    facts: &[Held<C, S>],
    worldview: &PremiseSet,
) -> Held<C, S>
    requires kinds { AreOfKind kind facts.now }
    requires fits { C.fits kind ≡ true }
    ensures { StandsFor kind worldview.now facts.now result }
{
    let mut merge = Held::nothing(kind);
    merge_all_in(&mut merge, facts, worldview);
    merge
}

// Merges the facts that rest only on premises of the worldview into what is merged so far. The last
// facts come first: they mostly say the most, and then one look at each of the others is enough.
fn merge_all_in<C: Content, S: Support>(
    merge: &mut Held<C, S>,
    facts: &[Held<C, S>],
    worldview: &PremiseSet,
)
    requires { AreOfKind (kind_of merge.old.info) facts.now }
    ensures merges { MergesTo merge.old (visible_facts worldview.now (reverse facts.now)) merge.new }
    ensures kind { kind_of merge.new.info ≡ kind_of merge.old.info }
{
    for back in 0..facts.len() {
        let held = &facts[facts.len() - 1 - back];
        if held.is_visible(worldview) {
            merge_in(merge, held);
        }
    }
}

// Merges one more fact into what is merged so far, as `merge_facts` does. Mostly the merge says as
// much already. Then it is unchanged, and nothing is copied.
#[inline(always)]
fn merge_in<C: Content, S: Support>(merge: &mut Held<C, S>, held: &Held<C, S>)
    requires { kind_of merge.old.info ≡ kind_of held.now.info }
    ensures { IsMerge merge.old held.now merge.new }
{
    if !merge.implies(held) {
        *merge = if held.implies(merge) {
            *held
        } else {
            merge.joined(held)
        };
    } else if held.says_same(merge) && held.rests_within(merge) {
        *merge = *held;
    }
}
