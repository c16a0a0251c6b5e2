//! A registry of procedures for tests. One function makes it and lends it to the task of a test:
//! what holds a boxed closure may not leave the function that makes it.

ghost use Rattle.std.specs.Prelude.{◌≡◌, ◌∷◌, [], List, map, IfOk};
ghost use Rattle.pw_info.specs.Information.{kind_of};
ghost use Rattle.pw_info.specs.declared.info.Info.{Info as Information};
ghost use Rattle.pw_procs.specs.Rules.{AreRules, value_of_rules};

use pw_info::{Info, Kind, SetKind};
use pw_kinds::Interval;
use pw_procs::bodies::{self, by_rules};
use pw_procs::{
    Body, Meaning, Registry, Rule, add_by_rules, add_of_table, add_rule, copied, members_of_mask,
};
use std::alloc::{AllocError, Global};
use std::test::Fail;

/// What a test does over a registry.
pub trait OverRegistry {
    /// What the task answers.
    type Answer;

    /// Does the task.
    fn over(self, registry: &Registry) -> Self::Answer;
}

/// The right names of the adder and of `at_most`.
pub const SOUND: [&str; 2] = ["adder", "at_most"];

// Adds procedures of the table at the end of a list. It boxes each body where the macro is used.
macro_rules! add_procedures {
    ($alloc:expr, $list:expr, $($name:expr, $meaning:ident $body:ident;)*) => {
        $(
            add_of_table($alloc, $list, $name, Meaning::$meaning, Box::new($alloc, bodies::$body)?)?;
        )*
    };
}

// The set that `light` answers in: the first set that a declaration declares, with three members.
fn light_set() -> SetKind
    ensures number { result.number ≡ 2 }
    ensures size { result.size ≡ 3 }
{
    SetKind { number: 2, size: 3 }
}

/// The numbers from `lo` to `hi`; the contradiction if there are none.
pub fn from_to(lo: i64, hi: i64) -> Info
    ensures { kind_of result ≡ Kind.Interval }
{
    Info::of_interval(Interval::new(lo, hi).unwrap_or(Interval::empty()))
}

// The rules of a light by a number: the first member up to 9, the first or the second from 5 to 20.
fn light_rules(alloc: Global, light: SetKind) -> Result<Vec<Rule>, AllocError>
    ensures { IfOk result (λ made. AreRules (Kind.Interval ∷ []) (Kind.Members light) made.items) }
{
    let mut rules = Vec::new(alloc);
    add_rule(
        alloc,
        &mut rules,
        from_to(0, 9),
        members_of_mask(light, 0b001),
    )?;
    add_rule(
        alloc,
        &mut rules,
        from_to(5, 20),
        members_of_mask(light, 0b011),
    )?;
    Ok(rules)
}

/// A copy of the rules, for a body to own.
pub fn table_of(alloc: Global, rules: &[Rule], output: Kind) -> Result<Vec<Rule>, AllocError>
    requires { AreRules (Kind.Interval ∷ []) output rules.now }
    ensures rules { IfOk result (λ table. AreRules (Kind.Interval ∷ []) output table.items) }
    ensures value { IfOk result (λ table. (inputs : List Information)
        → value_of_rules output table.items inputs ≡ value_of_rules output rules.now inputs) }
{
    let table = copied(alloc, rules)?;
    Ok(table)
}

/// Runs the task over the procedures that each declaration calls, `copy`, `at_most`, `equal`, and
/// `light`, a procedure of the tests' own. The first name is that of the adder, the second that of
/// `at_most`.
pub fn over_procedures<T: OverRegistry + Drop>(
    alloc: Global,
    names: [&str; 2],
    task: T,
) -> Result<T::Answer, Fail> {
    let mut list = Vec::new(alloc);
    let set = light_set();
    let output = Kind::Members(set);
    let rules = light_rules(alloc, set)?;
    let table = table_of(alloc, &rules, output)?;
    let body: Body = Box::new(
        alloc,
        move |inputs: &[Info]| -> Info
            requires kinds { map kind_of inputs.now ≡ Kind.Interval ∷ [] }
            requires rules { AreRules (Kind.Interval ∷ []) output table.items }
            ensures { result ≡ value_of_rules output table.items inputs.now }
        { by_rules(output, &table, inputs) },
    )?;
    add_by_rules(
        alloc,
        &mut list,
        "light",
        (Kind::Interval, output),
        rules,
        body,
    )?;
    add_procedures! {
        alloc, &mut list,
        names[0], Adder adder;
        "subtractor", Subtractor subtractor;
        "multiplier", Multiplier multiplier;
        "divider", Divider divider;
        "inverter", Inverter inverter;
        "switch", Switch switch;
        "copy", Copy copy;
        names[1], AtMost at_most;
        "equal", Equal equal;
    }
    match Registry::new(alloc, list) {
        Ok(registry) => Ok(task.over(&registry)),
        Err(_) => Err("no registry".into()),
    }
}
