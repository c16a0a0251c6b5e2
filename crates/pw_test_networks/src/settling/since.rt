//! A settling that continues, in the same worldview, from the values of an earlier one.
ghost use Rattle.std.specs.Prelude.{◌≡◌, length, IfOk};
ghost use Rattle.pw_network.specs.Wiring.{wiring};
ghost use Rattle.pw_network.specs.Network.{cells_in};
ghost use Rattle.pw_settle.specs.Sound.{IsSoundFor};

use super::{Answer, Matter, answer_of, store_told, told};
use crate::networks::{at_line, attach_named};
use pw_cells::CellStore;
use pw_decl::Declaration;
use pw_network::Network;
use pw_premises::PremiseSet;
use pw_settle::{Settled, Workspace, resettle_since, settle};
use pw_testing::facts::fact;
use pw_testing::worlds::{GENERAL, OverDeclaration, over_text};
use std::alloc::{AllocError, Global};
use std::test::Fail;

// Settles a worldview, and continues at once, where nothing came.
fn settle_twice(
    alloc: Global,
    network: &Network<'_, '_>,
    store: &mut CellStore,
    worldview: &PremiseSet,
) -> Result<Settled, AllocError>
    requires { IsSoundFor (wiring network.now) store.old }
    ensures { IfOk result (λ settled. length settled.infos ≡ cells_in (wiring network.now)) }
{
    let mut settled = settle(alloc, network, store, worldview)?;
    let mut workspace = Workspace::new(alloc);
    resettle_since(&mut settled, &mut workspace, network, store)?;
    Ok(settled)
}

// Settles the worldview with the first two premises twice. Answers what the values show.
fn settle_twice_and_show(
    alloc: Global,
    network: &Network<'_, '_>,
    store: &mut CellStore,
) -> Result<Answer, AllocError>
    requires { IsSoundFor (wiring network.now) store.old }
{
    let settled = settle_twice(alloc, network, store, &PremiseSet::first(2))?;
    answer_of(alloc, network, &settled)
}

// Settlings of the worldview with the first two premises.
#[derive(Drop)]
struct Twice<'a> {
    alloc: Global,
    matter: Matter<'a>,
}

impl Twice<'_> {
    // Tells the facts, and settles twice.
    fn answer(&self, network: &Network<'_, '_>) -> Result<Answer, Fail> {
        let mut store = store_told(self.alloc, network, self.matter.tells)?;
        Ok(settle_twice_and_show(self.alloc, network, &mut store)?)
    }
}

impl OverDeclaration<Global> for Twice<'_> {
    type Answer = Result<Answer, Fail>;

    fn over(self, declaration: &Declaration<'_>) -> Result<Answer, Fail> {
        let mut network = Network::new(self.alloc, declaration)?;
        attach_named(&mut network, self.matter.attachments)?;
        self.answer(&network)
    }
}

#[test]
fn nothing_came_and_nothing_is_called(rt: HostRuntime) -> Result<(), Fail> {
    let (none, one) = (PremiseSet::empty(), PremiseSet::one(1));
    let matter = Matter {
        text: GENERAL,
        attachments: &[at_line(1, "sum", &["x", "y", "t"])],
        tells: &[told("x", 1, 2, none), told("y", 10, 10, one)],
    };
    let task = Twice {
        alloc: rt.alloc(),
        matter,
    };
    let answer = over_text(rt.alloc(), rt.alloc(), GENERAL, task)??;
    assert_eq!(rt; answer.calls, 0);
    assert!(rt; answer.values.get(2) == Some(&fact(11, 12, one)));
    Ok(())
}
