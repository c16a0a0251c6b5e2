//! Lists of rules: making them, and copying them for a body that owns the table that its meaning
//! describes.
ghost use Rattle.std.specs.Prelude.{◌≡◌, ◌++◌, ◌∷◌, [], IfOk, OnOk};
ghost use Rattle.pw_procs.specs.Rules.{AreRulesLike, AreRulesAsWell, HaveTheSameValues, guards_of};
ghost use Rattle.pw_procs.specs.Rules.{results_of};

use crate::rule::Rule;
use pw_info::Info;
use std::alloc::{AllocError, Global};

/// Rules that mean the same as these.
pub fn copied(alloc: Global, rules: &[Rule]) -> Result<Vec<Rule>, AllocError>
    ensures rules { IfOk result (λ copy. AreRulesAsWell rules.now copy.items) }
    ensures value { IfOk result (λ copy. HaveTheSameValues rules.now copy.items) }
{
    let copy = rules.to_vec(alloc)?;
    Ok(copy)
}

/// Puts a rule of one input at the end.
#[tactic(auto, using(crate::proofs::CopiedRules::one_more_rule))]
pub fn add_rule(
    alloc: Global,
    rules: &mut Vec<Rule>,
    guard: Info,
    known: Info,
) -> Result<(), AllocError>
    ensures rules { OnOk result (AreRulesLike guard known rules.old.items
        → AreRulesLike guard known rules.new.items) }
    ensures guards { OnOk result (guards_of rules.new.items
        ≡ guards_of rules.old.items ++ (guard ∷ []) ∷ []) }
    ensures results { OnOk result (results_of rules.new.items
        ≡ results_of rules.old.items ++ known ∷ []) }
{
    let guards = [guard].to_vec(alloc)?;
    rules.push(Rule {
        guards,
        result: known,
    })?;
    Ok(())
}
