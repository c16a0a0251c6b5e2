//! Lists of procedures, as a registry takes them.
ghost use Rattle.std.specs.Prelude.{◌≡◌, ◌∷◌, [], map, false, OnOk, OnErr};
ghost use Rattle.pw_info.specs.Information.{kind_of};
ghost use Rattle.pw_procs.specs.Slots.{FitSlots};
ghost use Rattle.pw_procs.specs.Meaning.{is_given_by_rules, inputs_of_meaning, IsValueOfTable};
ghost use Rattle.pw_procs.specs.Rules.{AreRules, value_of_rules};
ghost use Rattle.pw_procs.specs.Procedure.{IsAdded, IsTableAdded};

use crate::meaning::Meaning;
use crate::rule::Rule;
use crate::signature::{Signature, Slot};
use crate::stored::{Body, Stored};
use crate::table::signature_of;
use pw_info::Kind;
use std::alloc::{AllocError, Global};

/// Puts a procedure with a meaning of the table at the end of a list. Its body gives the meaning's
/// value on every list that fits. Fails only when out of memory; then the list is unchanged.
pub fn add_of_table(
    alloc: Global,
    list: &mut Vec<Stored>,
    name: &str,
    meaning: Meaning,
    body: Body,
) -> Result<(), AllocError>
    requires table { is_given_by_rules meaning ≡ false }
    requires callable { (p : _) → FitSlots (inputs_of_meaning meaning) p.now → Body.pre body p }
    requires gives { (p : _) (r : _) → Body.post body p r → IsValueOfTable meaning p.now r }
    ensures ok { OnOk result (IsTableAdded list.old.items list.new.items name.now meaning) }
    ensures err { OnErr result (list.new.items ≡ list.old.items) }
{
    let Some(signature) = signature_of(&meaning) else {
        unreachable!("a meaning of the table");
    };
    let name = String::from_str(alloc, name)?;
    list.push(Stored::new(name, signature, meaning, body))?;
    Ok(())
}

/// Puts a procedure of one input, given by rules, at the end of a list. Its body gives the value of
/// the rules on every input of the kind. Fails only when out of memory; then the list is unchanged.
pub fn add_by_rules(
    alloc: Global,
    list: &mut Vec<Stored>,
    name: &str,
    kinds: (Kind, Kind),
    rules: Vec<Rule>,
    body: Body,
) -> Result<(), AllocError>
    requires rules { AreRules (kinds.0 ∷ []) kinds.1 rules.items }
    requires callable { (p : _) → map kind_of p.now ≡ kinds.0 ∷ [] → Body.pre body p }
    requires gives { (p : _) (r : _) → map kind_of p.now ≡ kinds.0 ∷ [] → Body.post body p r
        → r ≡ value_of_rules kinds.1 rules.items p.now }
    ensures ok { OnOk result (IsAdded list.old.items list.new.items name.now
        (Slot.Fixed kinds.0 ∷ []) (Slot.Fixed kinds.1) (Meaning.Rules rules)) }
    ensures err { OnErr result (list.new.items ≡ list.old.items) }
{
    let Some(signature) = Signature::new(&[Slot::Fixed(kinds.0)], Slot::Fixed(kinds.1)) else {
        unreachable!("one input");
    };
    let name = String::from_str(alloc, name)?;
    list.push(Stored::new(name, signature, Meaning::Rules(rules), body))?;
    Ok(())
}
