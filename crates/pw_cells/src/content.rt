//! The forms in which a cell holds what its facts say.

ghost use Rattle.std.specs.Prelude.{◌≡◌, ◌↔◌, Bool, true, IsTrue};
ghost use Rattle.pw_info.specs.declared.info.Info.{Info as Information};
ghost use Rattle.pw_info.specs.declared.kind.Kind.{Kind as Kinds};
ghost use Rattle.pw_info.specs.Information as information;
ghost use Rattle.pw_info.specs.Information.{kind_of, Implies};

use pw_info::{Info, Kind};
use pw_kinds::Interval;

/// What a fact says, stored as an information of any kind or as an interval. Contracts see the same
/// information in both forms.
pub(crate) trait Content: Copy {
    // The information.
    ghost said: { Self → Information };
    // The content that says an information, in this form.
    ghost form: { Information → Self };
    // The information determines the content.
    ghost again: { (c : Self) → form (said c) ≡ c };
    // Whether this form is there for the informations of a kind.
    ghost fits: { Kinds → Bool };

    // No information of the kind.
    fn nothing(kind: Kind) -> Self
        requires { fits kind ≡ true }
        ensures exact { said result ≡ information.nothing kind }
        ensures kind { kind_of (said result) ≡ kind };

    // This information.
    fn of(info: &Info) -> Self
        requires { fits (kind_of info.now) ≡ true }
        ensures { said result ≡ info.now };

    // The information, in the form for any kind.
    fn info(self) -> Info
        ensures { result ≡ said self };

    // Whether it says at least as much as another content of its kind.
    fn implies(&self, other: &Self) -> bool
        requires { kind_of (said self.now) ≡ kind_of (said other.now) }
        ensures { IsTrue result ↔ Implies (said self.now) (said other.now) };

    // Whether it says the same as another content of its kind.
    fn says_same(&self, other: &Self) -> bool
        requires { kind_of (said self.now) ≡ kind_of (said other.now) }
        ensures { IsTrue result ↔ (said self.now ≡ said other.now) };

    // The merge with another content of its kind.
    fn meet(&self, other: &Self) -> Self
        requires { kind_of (said self.now) ≡ kind_of (said other.now) }
        ensures { said result ≡ information.meet (said self.now) (said other.now) };
}

impl Content for Info {
    ghost use Rattle.std.specs.Prelude.{refl, true};

    ghost said = { λ c. c };

    ghost form = { λ i. i };

    ghost again = { λ c. refl };

    ghost fits = { λ k. true };

    #[inline(always)]
    fn nothing(kind: Kind) -> Info {
        Info::nothing(kind)
    }

    #[inline(always)]
    fn of(info: &Info) -> Info {
        *info
    }

    #[inline(always)]
    fn info(self) -> Info {
        self
    }

    #[inline(always)]
    fn implies(&self, other: &Info) -> bool {
        Info::implies(self, other)
    }

    #[inline(always)]
    fn says_same(&self, other: &Info) -> bool {
        Info::implies(self, other) && Info::implies(other, self)
    }

    #[inline(always)]
    fn meet(&self, other: &Info) -> Info {
        Info::meet(self, other)
    }
}

impl Content for Interval {
    ghost use Rattle.std.specs.Prelude.{refl};
    ghost use Rattle.pw_info.specs.declared.info.Info.TheVariants as info;
    ghost use Rattle.pw_cells.specs.inside.Contents.{interval_of, is_interval};

    ghost said = { λ c. info.Interval c };

    ghost form = { interval_of };

    ghost again = { λ c. refl };

    ghost fits = { is_interval };

    #[inline(always)]
    fn nothing(_: Kind) -> Interval {
        Interval::whole()
    }

    #[inline(always)]
    fn of(info: &Info) -> Interval {
        match info {
            Info::Interval(part) => *part,
            _ => unreachable!("another kind"),
        }
    }

    #[inline(always)]
    fn info(self) -> Info {
        Info::of_interval(self)
    }

    #[inline(always)]
    fn implies(&self, other: &Interval) -> bool {
        self.within(*other)
    }

    #[inline(always)]
    fn says_same(&self, other: &Interval) -> bool {
        self == other
    }

    #[inline(always)]
    fn meet(&self, other: &Interval) -> Interval {
        Interval::meet(*self, *other)
    }
}
