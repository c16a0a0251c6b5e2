//! A fact as a cell holds it: in the form of its kind, with a support of the cell's width.

ghost use Rattle.std.specs.Prelude.{◌≡◌, ◌↔◌, ◌&&◌, not, IsTrue, true, ⊤};
ghost use Rattle.std.specs.FinSet.{is_subset, union};
ghost use Rattle.pw_info.specs.Information.{kind_of, meet, Implies};
ghost use Rattle.pw_facts.specs.Facts.{Subsumes, nothing_known};

use crate::content::Content;
use crate::narrow_fact::NarrowFact;
use crate::support::Support;
use pw_facts::Fact;
use pw_info::{Info, Kind};
use pw_premises::{NarrowSet, PremiseSet};
use std::alloc::AllocError;
use std::marker::Model;

// A fact. Contracts see it as a fact, in each form and in each width.
pub(crate) struct Held<C: Content, S: Support> {
    content: C,
    support: S,
}

impl<C: Content, S: Support> Model for Held<C, S> {
    ghost use Rattle.std.proofs.Common.{ap₂};
    ghost use Rattle.pw_facts.specs.declared.fact.Fact.{Fact};
    ghost use Rattle.pw_facts.specs.contracts.fact.Fact as facts;

    ghost Value = { Fact };

    ghost coded = { facts.the_row.coded };

    ghost view = { λ a. record { info = C.said a.content; support = S.premises a.support } };

    ghost inverse = { λ f. record { content = C.form f.info; support = S.held f.support } };

    ghost inverse_ok = { λ a h. ap₂ (λ c s. record { content = c; support = s }) (C.again a.content)
        (S.again a.support) };
}

impl<C: Content, S: Support> Clone for Held<C, S> {
    ghost is_clone = { λ s r. r ≡ s };

    ghost is_infallible = { λ _. ⊤ };

    fn clone(&self) -> Result<Held<C, S>, AllocError> {
        Ok(*self)
    }
}

impl<C: Content, S: Support> Copy for Held<C, S> {}

impl<C: Content, S: Support> Held<C, S> {
    // No information of a kind, on no premise.
    pub(crate) fn nothing(kind: Kind) -> Held<C, S>
        requires { C.fits kind ≡ true }
        ensures exact { result ≡ nothing_known kind }
        ensures kind { kind_of result.info ≡ kind }
    {
        Held {
            content: C::nothing(kind),
            support: S::empty(),
        }
    }

    // This information on this support.
    #[inline(always)]
    pub(crate) fn on(info: &Info, support: S) -> Held<C, S>
        requires { C.fits (kind_of info.now) ≡ true }
        ensures info { result.info ≡ info.now }
        ensures support { result.support ≡ S.premises support }
    {
        Held {
            content: C::of(info),
            support,
        }
    }

    // What it says.
    #[inline(always)]
    pub(crate) fn info(&self) -> Info
        ensures { result ≡ self.now.info }
    {
        self.content.info()
    }

    // The premises that it rests on.
    #[inline(always)]
    pub(crate) fn support(&self) -> S
        ensures { S.premises result ≡ self.now.support }
    {
        self.support
    }

    // Whether it rests only on premises of the worldview.
    #[inline(always)]
    pub(crate) fn is_visible(&self, worldview: &PremiseSet) -> bool
        ensures { result ≡ is_subset self.now.support worldview.now }
    {
        self.support.is_within(worldview)
    }

    // Whether it is visible in the worldview, and not in the one before.
    #[inline(always)]
    pub(crate) fn comes_in(&self, before: &PremiseSet, worldview: &PremiseSet) -> bool
        ensures { result ≡ (is_subset self.now.support worldview.now && not (is_subset
            self.now.support before.now)) }
    {
        self.is_visible(worldview) && !self.is_visible(before)
    }

    // Whether it says at least what the other fact, of the same kind, says.
    #[inline(always)]
    pub(crate) fn implies(&self, other: &Held<C, S>) -> bool
        requires { kind_of self.now.info ≡ kind_of other.now.info }
        ensures { IsTrue result ↔ Implies self.now.info other.now.info }
    {
        self.content.implies(&other.content)
    }

    // Whether it says the same as the other fact, of the same kind.
    #[inline(always)]
    pub(crate) fn says_same(&self, other: &Held<C, S>) -> bool
        requires { kind_of self.now.info ≡ kind_of other.now.info }
        ensures { IsTrue result ↔ (self.now.info ≡ other.now.info) }
    {
        self.content.says_same(&other.content)
    }

    // Whether it says at least what the other fact, of the same kind, says, and rests on a subset of
    // its premises.
    #[inline(always)]
    pub(crate) fn subsumes(&self, other: &Held<C, S>) -> bool
        requires { kind_of self.now.info ≡ kind_of other.now.info }
        ensures answer { IsTrue result ↔ Subsumes self.now other.now }
    {
        self.rests_within(other) && self.implies(other)
    }

    // Whether it rests on a subset of the premises of the other fact.
    #[inline(always)]
    pub(crate) fn rests_within(&self, other: &Held<C, S>) -> bool
        ensures { result ≡ is_subset self.now.support other.now.support }
    {
        self.support.is_subset(&other.support)
    }

    // The merge with another fact of the same kind, if neither says as much as the other: both
    // informations on both supports.
    #[inline(always)]
    pub(crate) fn joined(&self, other: &Held<C, S>) -> Held<C, S>
        requires { kind_of self.now.info ≡ kind_of other.now.info }
        ensures info { result.info ≡ meet self.now.info other.now.info }
        ensures support { result.support ≡ union self.now.support other.now.support }
    {
        Held {
            content: self.content.meet(&other.content),
            support: self.support.join(other.support),
        }
    }

    // The same fact, with any information and a support of any premises.
    pub(crate) fn widened(&self) -> Held<Info, PremiseSet>
        ensures { result ≡ self.now }
    {
        Held {
            content: self.info(),
            support: self.support.widen(),
        }
    }

    // The same fact, as callers of a store see it.
    pub(crate) fn fact(&self) -> Fact
        ensures { result ≡ self.now }
    {
        Fact {
            info: self.info(),
            support: self.support.widen(),
        }
    }
}

impl<C: Content> Held<C, NarrowSet> {
    // The same fact, as callers of a store see it: a `NarrowFact`.
    #[inline(always)]
    pub(crate) fn narrow(&self) -> NarrowFact
        ensures info { result.info ≡ self.now.info }
        ensures support { result.support ≡ self.now.support }
    {
        NarrowFact {
            info: self.info(),
            support: self.support,
        }
    }
}

impl<S: Support> Held<Info, S> {
    // What it says, where it lies.
    #[inline(always)]
    pub(crate) fn info_here(&self) -> &Info
        ensures { result.now ≡ self.now.info }
    {
        &self.content
    }
}
