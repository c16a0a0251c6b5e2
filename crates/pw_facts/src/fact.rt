//! Facts, their merge, and which subsumes which.

ghost use Rattle.std.specs.Prelude.{◌≡◌, ◌↔◌, true, IsTrue};
ghost use Rattle.std.specs.FinSet.{is_subset, union};
ghost use Rattle.pw_info.specs.Information.{kind_of, meet, Implies};
ghost use Rattle.pw_premises.specs.Premises.{Premises};
ghost use Rattle.pw_facts.specs.Facts.{shows, Subsumes, IsMerge, ShowTogether};

use pw_info::Info;
use pw_premises::PremiseSet;

/// A supported value: an information, and the premises that it rests on. (Radul and Sussman, *The
/// Art of the Propagator*, on supported values.)
#[derive(Clone, Copy, Debug, PartialEq, Eq)]
pub struct Fact {
    /// What it says about a value.
    pub info: Info,
    /// The premises that it rests on.
    pub support: PremiseSet,
}

/// The merge of two facts of one kind: it says what both say. If they say the same, it rests on the
/// support of `b` if that is a subset of the support of `a`, and otherwise on the support of `a`.
/// If only one of them says what the merge says, it rests on the support of that one. Otherwise it
/// rests on both supports.
#[inline(always)]
pub fn merge_facts(a: &Fact, b: &Fact) -> Fact
    requires { kind_of a.now.info ≡ kind_of b.now.info }
    ensures rule { IsMerge a.now b.now result }
    ensures kind { kind_of result.info ≡ kind_of a.now.info }
    // In every worldview that has the support of the result, the two facts together show what the
    // result says.
    ensures shows { ShowTogether a.now b.now result }
    // The result rests on no premise that neither fact rests on.
    ensures rests { is_subset result.support (union a.now.support b.now.support) ≡ true }
{
    if a.info.implies(&b.info) {
        if b.support.is_subset(&a.support) && b.info.implies(&a.info) {
            return *b;
        }
        return *a;
    }
    if b.info.implies(&a.info) {
        return *b;
    }
    Fact {
        info: a.info.meet(&b.info),
        support: a.support.join(b.support),
    }
}

/// Whether fact `a`, of the same kind as `b`, says at least what `b` says and rests on a subset of
/// the support of `b`.
pub fn subsumes(a: &Fact, b: &Fact) -> bool
    requires { kind_of a.now.info ≡ kind_of b.now.info }
    ensures answer { IsTrue result ↔ Subsumes a.now b.now }
    // Then `a` shows at least as much in every worldview.
    ensures shows { IsTrue result → (w : Premises) → Implies (shows w a.now) (shows w b.now) }
{
    // The supports come first: they are the cheaper test, and the one that mostly fails.
    a.support.is_subset(&b.support) && a.info.implies(&b.info)
}
