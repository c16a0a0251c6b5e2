//! Calls of procedures on what is known about the inputs of their instances.
ghost use Rattle.std.specs.Prelude.{◌≡◌, ◌<◌, IfNone, IfSome, length, map};
ghost use Rattle.pw_info.specs.Information.{kind_of, Implies};
ghost use Rattle.pw_cells.specs.Cells.{IsUnsaid};
ghost use Rattle.pw_network.specs.inside.Held.{attachment};
ghost use Rattle.pw_procs.specs.Registry.{procedures_in};
ghost use Rattle.pw_settle.specs.Calls.{most_calls};
ghost use Rattle.pw_settle.specs.inside.Known.{IsPlaced};
ghost use Rattle.pw_settle.specs.Settled.{info_at};
ghost use Rattle.pw_settle.specs.inside.Known.{GivesNewsOnce, GivesOnce};

use pw_info::{Info, Kind};
use pw_network::Instance;
use pw_procs::Registry;
use std::slice;

// The greatest number of inputs of a procedure.
const MOST_INPUTS: usize = 8;

// The value of the instance's procedure on informations, which are what is known about its inputs.
// Nothing else calls procedures, and each call is counted here.
#[inline(always)]
fn procedure_value(
    registry: &Registry,
    instance: &Instance,
    known: &[Info],
    given: &[Info],
    calls: &mut u128,
) -> Info
    requires placed { IsPlaced (procedures_in registry.now) (map kind_of known.now)
        (attachment instance.now).instance }
    requires given { given.now ≡ map (info_at known.now) (attachment instance.now).instance.inputs }
    requires room { calls.old < most_calls }
    ensures { GivesOnce (procedures_in registry.now) known.now (attachment instance.now) calls.old
        calls.new result }
{
    *calls += 1;
    registry.get(instance.procedure).call(given)
}

// The value of the instance's procedure on what is known about its inputs, for any number of
// inputs. Never inlined, so that the stack frame of other calls stays small.
#[cold]
#[inline(never)]
fn answer_on_many(
    registry: &Registry,
    instance: &Instance,
    known: &[Info],
    calls: &mut u128,
) -> Info
    requires room { calls.old < most_calls }
    requires placed { IsPlaced (procedures_in registry.now) (map kind_of known.now)
        (attachment instance.now).instance }
    ensures { GivesOnce (procedures_in registry.now) known.now (attachment instance.now) calls.old
        calls.new result }
{
    let mut inputs = [Info::nothing(Kind::Interval); MOST_INPUTS];
    let cells = instance.inputs();
    for place in 0..cells.len() {
        inputs[place] = known[cells[place] as usize].copied();
    }
    procedure_value(registry, instance, known, &inputs[..cells.len()], calls)
}

// Like `answer_on_many`, with a case for two inputs, as most procedures have. Never inlined, for the same
// reason.
#[cold]
#[inline(never)]
fn answer_on_any(registry: &Registry, instance: &Instance, known: &[Info], calls: &mut u128) -> Info
    requires room { calls.old < most_calls }
    requires placed { IsPlaced (procedures_in registry.now) (map kind_of known.now)
        (attachment instance.now).instance }
    ensures { GivesOnce (procedures_in registry.now) known.now (attachment instance.now) calls.old
        calls.new result }
{
    if let [one, another] = instance.inputs() {
        let given = [
            known[*one as usize].copied(),
            known[*another as usize].copied(),
        ];
        return procedure_value(registry, instance, known, &given, calls);
    }
    answer_on_many(registry, instance, known, calls)
}

// The information, if it is news about the cell.
#[inline(always)]
fn unless_known(known: &[Info], cell: u32, info: Info) -> Option<Info>
    requires there { cell < length known.now }
    requires kind { kind_of (info_at known.now cell) ≡ kind_of info }
    ensures some { IfSome result (λ news. news ≡ info) }
    ensures news { IfSome result (λ news. IsUnsaid (info_at known.now cell) news) }
    ensures none { IfNone result (Implies (info_at known.now cell) info) }
{
    if known[cell as usize].implies(&info) {
        return None;
    }
    Some(info)
}

// What the instance's procedure makes of informations, which are what is known about its inputs, if it
// is news about its output.
#[inline(always)]
fn news_on_given(
    registry: &Registry,
    instance: &Instance,
    known: &[Info],
    given: &[Info],
    calls: &mut u128,
) -> Option<Info>
    requires room { calls.old < most_calls }
    requires placed { IsPlaced (procedures_in registry.now) (map kind_of known.now)
        (attachment instance.now).instance }
    requires there { instance.now.output < length known.now }
    requires given { given.now ≡ map (info_at known.now) (attachment instance.now).instance.inputs }
    ensures { GivesNewsOnce (procedures_in registry.now) known.now (attachment instance.now)
        calls.old calls.new result }
{
    let info = procedure_value(registry, instance, known, given, calls);
    unless_known(known, instance.output, info)
}

// `news_on` without its fast cases.
#[inline(always)]
fn news_on_any(
    registry: &Registry,
    instance: &Instance,
    known: &[Info],
    calls: &mut u128,
) -> Option<Info>
    requires room { calls.old < most_calls }
    requires placed { IsPlaced (procedures_in registry.now) (map kind_of known.now)
        (attachment instance.now).instance }
    requires there { instance.now.output < length known.now }
    ensures { GivesNewsOnce (procedures_in registry.now) known.now (attachment instance.now)
        calls.old calls.new result }
{
    let info = answer_on_any(registry, instance, known, calls);
    unless_known(known, instance.output, info)
}

// The value of the instance's procedure on what is known about its inputs, if it is news about its
// output. Most procedures have two intervals as inputs, or one input. Each case tests its value by
// itself: a value that waits in one place for all cases would be copied there, and slowly. Two inputs
// are copied part by part, since the procedure reads them at once. Of intervals the compiler knows
// which parts these are. Inlined, with what it calls: both settlings spend most of their time here.
#[inline(always)]
pub(crate) fn news_on(
    registry: &Registry,
    instance: &Instance,
    known: &[Info],
    calls: &mut u128,
) -> Option<Info>
    requires room { calls.old < most_calls }
    requires placed { IsPlaced (procedures_in registry.now) (map kind_of known.now)
        (attachment instance.now).instance }
    requires there { instance.now.output < length known.now }
    ensures { GivesNewsOnce (procedures_in registry.now) known.now (attachment instance.now)
        calls.old calls.new result }
{
    let inputs = instance.inputs();
    if let [one, another] = inputs {
        let (one, another) = (&known[*one as usize], &known[*another as usize]);
        if let (Info::Interval(_), Info::Interval(_)) = (one, another) {
            let given = [one.copied(), another.copied()];
            return news_on_given(registry, instance, known, &given, calls);
        }
    }
    if let [one] = inputs {
        let given = slice::from_ref(&known[*one as usize]);
        return news_on_given(registry, instance, known, given, calls);
    }
    news_on_any(registry, instance, known, calls)
}
