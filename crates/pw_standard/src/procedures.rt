//! The standard procedures: one for each meaning of the table, and the sign of a number by rules.
ghost use Rattle.std.specs.Prelude.{◌≡◌, ◌∷◌, [], All, List, map, IfOk, ⊤};
ghost use Rattle.pw_info.specs.Information.{kind_of};
ghost use Rattle.pw_info.specs.declared.info.Info.{Info as Information};
ghost use Rattle.pw_procs.specs.Rules.{AreRules, value_of_rules};
ghost use Rattle.pw_procs.specs.Procedure.{Procedure, procedures_of};
ghost use Rattle.pw_procs.specs.Registry.{procedures_in};
ghost use Rattle.pw_decl.specs.BuiltIn.{HasPrelude};
ghost use Rattle.pw_decl.specs.Declaration.{Declared};
ghost use Rattle.pw_standard.specs.Lending.{IsOverStandard};
ghost use Rattle.pw_standard.specs.Procedures.{AreStandard};
ghost use Rattle.pw_standard.specs.Table.{IsBuiltInRow, compound_rows, text_of_table};

use pw_info::{Info, Kind, SetKind};
use pw_kinds::Interval;
use pw_procs::bodies::{self, by_rules};
use pw_procs::{
    Body, Meaning, Registry, RegistryFault, Rule, Stored, add_by_rules, add_of_table, add_rule,
    copied, members_of_mask,
};
use std::alloc::{AllocError, Global};

// The places of the signs in their set, as bits.
const NEGATIVE: u128 = 1;

const ZERO: u128 = 2;

const POSITIVE: u128 = 4;

// The kind of the set of signs.
fn sign_set() -> SetKind
    ensures number { result.number ≡ 1 }
    ensures size { result.size ≡ 3 }
{
    SetKind { number: 1, size: 3 }
}

// The numbers from one to another; the contradiction if there are none.
fn from_to(lo: i64, hi: i64) -> Info
    ensures { kind_of result ≡ Kind.Interval }
{
    Info::of_interval(Interval::new(lo, hi).unwrap_or(Interval::empty()))
}

// What is known about the sign of a number, given what is known about the number.
fn sign_rules(alloc: Global, sign: SetKind) -> Result<Vec<Rule>, AllocError>
    ensures { IfOk result (λ rules. AreRules (Kind.Interval ∷ []) (Kind.Members sign) rules.items) }
{
    let mut rules = Vec::new(alloc);
    add_rule(
        alloc,
        &mut rules,
        from_to(-1_000_000, -1),
        members_of_mask(sign, NEGATIVE),
    )?;
    add_rule(
        alloc,
        &mut rules,
        from_to(0, 0),
        members_of_mask(sign, ZERO),
    )?;
    add_rule(
        alloc,
        &mut rules,
        from_to(1, 1_000_000),
        members_of_mask(sign, POSITIVE),
    )?;
    add_rule(
        alloc,
        &mut rules,
        from_to(-1_000_000, 0),
        members_of_mask(sign, NEGATIVE | ZERO),
    )?;
    add_rule(
        alloc,
        &mut rules,
        from_to(0, 1_000_000),
        members_of_mask(sign, ZERO | POSITIVE),
    )?;
    Ok(rules)
}

// A copy of the rules, for a body to own.
fn table_of(alloc: Global, rules: &[Rule], output: Kind) -> Result<Vec<Rule>, AllocError>
    requires { AreRules (Kind.Interval ∷ []) output rules.now }
    ensures rules { IfOk result (λ table. AreRules (Kind.Interval ∷ []) output table.items) }
    ensures value { IfOk result (λ table. (inputs : List Information)
        → value_of_rules output table.items inputs ≡ value_of_rules output rules.now inputs) }
{
    let table = copied(alloc, rules)?;
    Ok(table)
}

// The fourteen procedures of the table: each name, with its meaning, its body, and the rest of its row
// in the printed table.
//
// `list` puts them at the end of a list, each boxed here: a value that holds a boxed closure may not
// leave the function that made it. `rows` is the printed table: these, `sign`, and the compounds that
// every declaration has.
macro_rules! table {
    (list $alloc:expr, $list:expr; $($name:literal $meaning:ident $body:ident $row:literal,)*) => {
        $(
            add_of_table($alloc, $list, $name, Meaning::$meaning, Box::new($alloc, bodies::$body)?)?;
        )*
    };
    (rows; $($name:literal $meaning:ident $body:ident $row:literal,)*) => {
        concat!(
            $($name, $row,)*
            "sign",
            "         x interval -> sign                       one way   neg, zero or pos, as x is\n",
            "sum          x interval y interval t interval         all ways  t = x + y\n",
            "product      x interval y interval t interval         all ways  t = x * y\n",
            "conditional  p bool a interval b interval r interval  one way   r = a if p is true, r = b if p is false\n",
        )
    };
    (of $($what:tt)*) => {
        table! {
            $($what)*;
            "adder" Adder adder
            "        x interval y interval -> interval        one way   x + y\n",
            "subtractor" Subtractor subtractor
            "   t interval x interval -> interval        one way   t - x\n",
            "multiplier" Multiplier multiplier
            "   x interval y interval -> interval        one way   x * y\n",
            "squarer" Squarer squarer
            "      x interval -> interval                   one way   x * x\n",
            "divider" Divider divider
            "      t interval x interval -> interval        one way   t / x; nothing while x may be 0\n",
            "at_most" AtMost at_most
            "      x interval y interval -> bool            one way   whether x <= y\n",
            "equal" Equal equal
            "        x S y S -> bool                          one way   whether x = y; S is any kind\n",
            "inverter" Inverter inverter
            "     p bool -> bool                           one way   not p\n",
            "conjoiner" Conjoiner conjoiner
            "    p bool q bool -> bool                    one way   p and q\n",
            "disjoiner" Disjoiner disjoiner
            "    p bool q bool -> bool                    one way   p or q\n",
            "switch" Switch switch
            "       p bool x S -> S                          one way   x if p is true; S is any kind\n",
            "copy" Copy copy
            "         x S -> S                                 one way   x; S is any kind\n",
            "point" Point point
            "        k exact -> interval                      one way   k\n",
            "fixed" Fixed fixed
            "        x interval -> exact                      one way   x, once it has one value\n",
        }
    };
}

/// The table of the standard procedures and the built-in compounds: a row for each, with its name,
/// what it takes and gives, and whether it carries information one way or all ways.
pub fn procedure_table() -> &'static str
    ensures rows { (procedures : List Procedure) → AreStandard procedures
        → result.now ≡ text_of_table procedures }
    ensures compounds { (d : Declared) → HasPrelude d → All (IsBuiltInRow d) compound_rows }
{
    table!(of rows)
}

// The names are good, so the only possible fault is out of memory.
fn out_of_memory(fault: RegistryFault) -> AllocError
    requires { fault ≡ RegistryFault.Memory }
{
    let _ = fault;
    AllocError
}

// The registry of the standard procedures. Fails only when out of memory.
fn registry_of(alloc: Global, list: Vec<Stored>) -> Result<Registry, AllocError>
    requires { AreStandard (procedures_of list.items) }
    ensures { IfOk result (λ registry. AreStandard (procedures_in registry)) }
{
    match Registry::new(alloc, list) {
        Ok(registry) => Ok(registry),
        Err((fault, _)) => Err(out_of_memory(fault)),
    }
}

/// A task over the registry of the standard procedures.
///
/// What holds a boxed closure may not leave the function that makes it. So the registry is lent to a
/// task, and not returned.
pub trait OverRegistry {
    /// What the task answers.
    type Answer;

    // What it promises of its answer over these procedures, if an `impl` says so.
    ghost promise: { Self → List Procedure → Self.Answer → Type 0 } = { λ _ _ _. ⊤ };

    /// The answer of the task. The registry holds the fifteen standard procedures, and no others.
    fn over(self, registry: &Registry) -> Self::Answer
        requires { AreStandard (procedures_in registry.now) }
        ensures { promise self (procedures_in registry.now) result };
}

// Makes a registry of the standard procedures, lends it to a task, and answers what the task
// answers. Fails only when out of memory.
fn lend<T: OverRegistry + Drop>(
    alloc: Global,
    list: Vec<Stored>,
    task: T,
) -> Result<T::Answer, AllocError>
    requires { AreStandard (procedures_of list.items) }
    ensures { IfOk result (IsOverStandard (T.promise task)) }
{
    let registry = registry_of(alloc, list)?;
    Ok(task.over(&registry))
}

/// Makes a registry of the fifteen standard procedures, lends it to the task, and answers what the
/// task answers. Fails only when out of memory for the registry.
pub fn over_standard<T: OverRegistry + Drop>(
    alloc: Global,
    task: T,
) -> Result<T::Answer, AllocError>
    ensures { IfOk result (IsOverStandard (T.promise task)) }
{
    let mut list = Vec::new(alloc);
    let set = sign_set();
    let sign = Kind::Members(set);
    let rules = sign_rules(alloc, set)?;
    let table = table_of(alloc, &rules, sign)?;
    let body: Body = Box::new(
        alloc,
        move |inputs: &[Info]| -> Info
            requires kinds { map kind_of inputs.now ≡ Kind.Interval ∷ [] }
            requires rules { AreRules (Kind.Interval ∷ []) sign table.items }
            ensures { result ≡ value_of_rules sign table.items inputs.now }
        { by_rules(sign, &table, inputs) },
    )?;
    add_by_rules(
        alloc,
        &mut list,
        "sign",
        (Kind::Interval, sign),
        rules,
        body,
    )?;
    table!(of list alloc, &mut list);
    lend(alloc, list, task)
}
