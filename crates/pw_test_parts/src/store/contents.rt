//! Facts that are not about intervals.
ghost use Rattle.std.specs.Prelude.{◌≡◌, [], ◌∷◌};
ghost use Rattle.pw_info.specs.Information.{kind_of};
ghost use Rattle.pw_cells.specs.Cells.{kinds_of};

use super::{assert_kept, kept, two_cells};
use pw_cells::CellStore;
use pw_facts::Fact;
use pw_info::{Info, Kind};
use pw_kinds::Exact;
use pw_premises::PremiseSet;
use std::alloc::AllocError;
use std::process::Abort;
use std::test::Fail;

// A fact about an exact number in range.
fn exactly(number: i64, support: PremiseSet) -> Fact
    ensures { kind_of result.info ≡ Kind.Exact }
{
    let part = Exact::one(number).unwrap_or(Exact::any());
    Fact {
        info: Info::of_exact(part),
        support,
    }
}

// Keeps a fact of the exact cell.
fn keep(store: &mut CellStore, fact: Fact) -> Result<bool, AllocError>
    requires cells { kinds_of store.old ≡ Kind.Interval ∷ Kind.Exact ∷ [] }
    requires kind { kind_of fact.info ≡ Kind.Exact }
    ensures { kinds_of store.new ≡ Kind.Interval ∷ Kind.Exact ∷ [] }
{
    store.keep(1, fact)
}

// Keeps a fact of the exact cell. Checks whether the fact is news.
fn assert_news<R: Abort>(
    rt: &R,
    store: &mut CellStore,
    fact: Fact,
    news: bool,
) -> Result<(), AllocError>
    requires cells { kinds_of store.old ≡ Kind.Interval ∷ Kind.Exact ∷ [] }
    requires kind { kind_of fact.info ≡ Kind.Exact }
    ensures { kinds_of store.new ≡ Kind.Interval ∷ Kind.Exact ∷ [] }
{
    assert!(rt; keep(store, fact)? == news);
    Ok(())
}

#[test]
fn exact_facts_are_kept_in_each_width(rt: HostRuntime) -> Result<(), Fail> {
    let (three, far) = (PremiseSet::one(3), PremiseSet::one(100));
    let mut store = two_cells(rt.alloc())?;
    assert_news(&rt, &mut store, exactly(7, three), true)?;
    assert_news(&rt, &mut store, exactly(7, PremiseSet::first(5)), false)?;
    assert_kept(&rt, &mut store, 1, &three, exactly(7, three));
    assert!(rt; kept(&mut store, 1, &PremiseSet::one(2)).info == Info::nothing(Kind::Exact));
    // A wide premise comes to the cell.
    assert_news(&rt, &mut store, exactly(8, far), true)?;
    assert_kept(&rt, &mut store, 1, &three, exactly(7, three));
    assert_kept(&rt, &mut store, 1, &far, exactly(8, far));
    let all = PremiseSet::first(512);
    assert!(rt; kept(&mut store, 1, &all).info == Info::contradiction(Kind::Exact));
    Ok(())
}
