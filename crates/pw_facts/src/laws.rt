//! Laws of facts. Each is the contract of a function that does nothing, and holds of every fact.
ghost use Rattle.std.specs.Prelude.{◌≡◌};
ghost use Rattle.pw_info.specs.Information.{kind_of, Implies};
ghost use Rattle.pw_premises.specs.Premises.{Premises};
ghost use Rattle.pw_facts.specs.declared.fact.Fact.{Fact};
ghost use Rattle.pw_facts.specs.Facts.{shows, Subsumes};
ghost use Rattle.pw_facts.specs.Facts.{IsMonotone};
ghost use Rattle.pw_facts.specs.Facts.{SubsumptionIsAntisymmetric, OneMerge};

/// What a fact shows is of its kind. A larger worldview shows at least as much, and no worldview
/// shows more than the fact says.
pub fn worldviews_show_what_is_supported()
    ensures kind { (w : Premises) (f : Fact) → kind_of (shows w f) ≡ kind_of f.info }
    ensures larger { (f : Fact) → IsMonotone (λ w. shows w f) }
    ensures most { (w : Premises) (f : Fact) → Implies f.info (shows w f) }
{}

/// Subsumption is a partial order on the facts of one kind.
pub fn subsumption_is_an_order()
    ensures reflexive { (a : Fact) → Subsumes a a }
    ensures transitive { (a b c : Fact) → Subsumes a b → Subsumes b c → Subsumes a c }
    ensures antisymmetric { SubsumptionIsAntisymmetric }
{}

/// Two facts of one kind have one merge.
pub fn one_merge()
    ensures { OneMerge }
{}
