//! One type of information over all kinds of values.
ghost use Rattle.std.specs.Prelude.{◌≡◌, ◌≢◌, ◌↔◌, ◌&&◌, ℤ, Bool, true, IsTrue, IfSome, IfNone};
ghost use Rattle.pw_kinds.specs.Interval as interval;
ghost use Rattle.pw_kinds.specs.Members as members;
ghost use Rattle.pw_kinds.specs.Exact as exact;
ghost use Rattle.pw_info.specs.declared.kind.SetKind.{SetKind as SetOfMembers};
ghost use Rattle.pw_info.specs.Information.{set_kind, kind_of, HasMembers, allows, meet, nothing};
ghost use Rattle.pw_info.specs.Information.{contradiction, IsNothing, IsContradiction, Implies};

use crate::kind::{Kind, SetKind};
use pw_kinds::{Exact, Interval, Members};

/// What is known about a value: its kind, and which values of the kind are still possible. Two
/// informations of one kind that leave the same values possible are equal.
#[derive(Clone, Copy, Debug, PartialEq, Eq)]
pub enum Info {
    /// About a whole number, which lies in an interval.
    Interval(Interval),
    /// About a member of a set: which members are possible.
    Members {
        /// The number of the set kind.
        number: u8,
        /// The places that are possible.
        part: Members,
    },
    /// About a whole number that is known exactly or not at all.
    Exact(Exact),
}

impl Info {
    /// The information given by an interval.
    pub fn of_interval(part: Interval) -> Info
        ensures kind { kind_of result ≡ Kind.Interval }
        ensures values { (v : ℤ) → allows result v ≡ interval.allows part v }
        ensures exact { result ≡ Info.Interval part }
    {
        Info::Interval(part)
    }

    /// The information given by some members of the set of this number. The kind has the size of
    /// `part`.
    pub fn of_members(number: u8, part: Members) -> Info
        ensures kind { kind_of result ≡ set_kind number part }
        ensures values { (v : ℤ) → allows result v ≡ members.allows part v }
        ensures exact { result ≡ Info.Members number part }
    {
        Info::Members { number, part }
    }

    /// The information given by an exact value.
    pub fn of_exact(part: Exact) -> Info
        ensures kind { kind_of result ≡ Kind.Exact }
        ensures values { (v : ℤ) → allows result v ≡ exact.allows part v }
        ensures exact { result ≡ Info.Exact part }
    {
        Info::Exact(part)
    }

    /// The interval of this information. None for another kind.
    pub fn interval(&self) -> Option<Interval>
        ensures found { IfSome result (λ part. self.now ≡ Info.Interval part) }
        ensures none { IfNone result (kind_of self.now ≢ Kind.Interval) }
    {
        match *self {
            Info::Interval(part) => Some(part),
            _ => None,
        }
    }

    /// The members of this information. None for another kind.
    pub fn members(&self) -> Option<Members>
        ensures found { IfSome result (λ part. HasMembers self.now part) }
        ensures none { IfNone result ((set : SetOfMembers) → kind_of self.now ≢ Kind.Members set) }
    {
        match *self {
            Info::Members { part, .. } => Some(part),
            _ => None,
        }
    }

    /// The exact value of this information. None for another kind.
    pub fn exact(&self) -> Option<Exact>
        ensures found { IfSome result (λ part. self.now ≡ Info.Exact part) }
        ensures none { IfNone result (kind_of self.now ≢ Kind.Exact) }
    {
        match *self {
            Info::Exact(part) => Some(part),
            _ => None,
        }
    }

    /// The kind of value that this information is about.
    pub fn kind(&self) -> Kind
        ensures { result ≡ kind_of self.now }
    {
        match *self {
            Info::Interval(_) => Kind::Interval,
            Info::Members { number, part } => Kind::Members(SetKind {
                number,
                size: part.size(),
            }),
            Info::Exact(_) => Kind::Exact,
        }
    }

    /// The same information, put together from its parts.
    ///
    /// A plain copy takes pieces that cross the words of an interval. Who reads such a word at once
    /// then waits for the whole copy.
    #[inline(always)]
    pub fn copied(&self) -> Info
        ensures { result ≡ self.now }
    {
        match *self {
            Info::Interval(part) => Info::Interval(part),
            Info::Members { number, part } => Info::Members { number, part },
            Info::Exact(part) => Info::Exact(part),
        }
    }

    /// The information of a kind that leaves every value possible.
    pub fn nothing(kind: Kind) -> Info
        ensures kind { kind_of result ≡ kind }
        ensures values { IsNothing result }
        ensures exact { result ≡ nothing kind }
    {
        match kind {
            Kind::Interval => Info::of_interval(Interval::whole()),
            Kind::Members(set) => Info::of_members(set.number, Members::full(set.size)),
            Kind::Exact => Info::of_exact(Exact::any()),
        }
    }

    /// The information of a kind that leaves no value possible.
    pub fn contradiction(kind: Kind) -> Info
        ensures kind { kind_of result ≡ kind }
        ensures values { IsContradiction result }
        ensures exact { result ≡ contradiction kind }
    {
        match kind {
            Kind::Interval => Info::of_interval(Interval::empty()),
            Kind::Members(set) => Info::of_members(set.number, Members::empty(set.size)),
            Kind::Exact => Info::of_exact(Exact::none()),
        }
    }

    /// The merge of two informations of one kind: the values that both leave possible. (Radul and
    /// Sussman, *The Art of the Propagator*, on partial information: merging is commutative,
    /// associative and idempotent.)
    #[inline(always)]
    pub fn meet(&self, other: &Info) -> Info
        requires { kind_of self.now ≡ kind_of other.now }
        ensures kind { kind_of result ≡ kind_of self.now }
        ensures values { (v : ℤ) → allows result v ≡ (allows self.now v && allows other.now v) }
        ensures exact { result ≡ meet self.now other.now }
    {
        match (*self, *other) {
            (Info::Interval(one), Info::Interval(another)) => Info::Interval(one.meet(another)),
            (Info::Members { number, part: one }, Info::Members { part: another, .. }) => {
                Info::Members {
                    number,
                    part: one.meet(another),
                }
            }
            (Info::Exact(one), Info::Exact(another)) => Info::Exact(one.meet(another)),
            _ => unreachable!("two kinds"),
        }
    }

    /// Whether this information, of the same kind as the other, is at least as informed: each value
    /// that is possible here is possible there.
    #[inline(always)]
    pub fn implies(&self, other: &Info) -> bool
        requires { kind_of self.now ≡ kind_of other.now }
        ensures { IsTrue result ↔ Implies self.now other.now }
    {
        // By reference, so that facts in a list are compared in place.
        match (self, other) {
            (Info::Interval(one), Info::Interval(another)) => one.within(*another),
            (Info::Members { part: one, .. }, Info::Members { part: another, .. }) => {
                one.within(*another)
            }
            (Info::Exact(one), Info::Exact(another)) => one.within(*another),
            _ => unreachable!("two kinds"),
        }
    }

    /// Whether every value of the kind is possible.
    pub fn is_nothing(&self) -> bool
        ensures { IsTrue result ↔ IsNothing self.now }
    {
        match *self {
            Info::Interval(part) => Interval::whole().within(part),
            Info::Members { part, .. } => part.is_full(),
            Info::Exact(part) => part.is_any(),
        }
    }

    /// Whether no value is possible.
    #[inline(always)]
    pub fn is_contradiction(&self) -> bool
        ensures { IsTrue result ↔ IsContradiction self.now }
    {
        match *self {
            Info::Interval(part) => part.is_empty(),
            Info::Members { part, .. } => part.is_empty(),
            Info::Exact(part) => part.is_empty(),
        }
    }
}
