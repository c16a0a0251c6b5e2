//! What a procedure takes and gives.
ghost use Rattle.std.specs.Prelude.{◌≡◌, ◌↔◌, IsTrue};
ghost use Rattle.pw_procs.specs.inside.Shapes.{IsSignature};
ghost use Rattle.pw_procs.specs.Slots as spec;

use pw_info::{Info, Kind};

/// What a procedure takes in one place, or gives.
#[derive(Clone, Copy, Debug, PartialEq, Eq)]
pub enum Slot {
    /// Information of this kind.
    Fixed(Kind),
    /// Information of any kind, the same kind in all these places of one procedure.
    Same,
}

const MOST_INPUTS: usize = 8;

// The kind in a slot, where `same` is the kind in the slots of any kind.
fn kind_in(slot: Slot, same: Kind) -> Kind
    ensures { result ≡ spec.kind_in_slot same slot }
{
    match slot {
        Slot::Fixed(kind) => kind,
        Slot::Same => same,
    }
}

// Whether two kinds are equal.
fn are_equal(one: Kind, another: Kind) -> bool
    ensures { IsTrue result ↔ (one ≡ another) }
{
    match (one, another) {
        (Kind::Interval, Kind::Interval) | (Kind::Exact, Kind::Exact) => true,
        (Kind::Members(one), Kind::Members(another)) => {
            one.number == another.number && one.size == another.size
        }
        _ => false,
    }
}

/// Whether two lists of kinds are equal.
pub fn are_equal_kinds(kinds: &[Kind], others: &[Kind]) -> bool
    ensures { IsTrue result ↔ (kinds.now ≡ others.now) }
{
    match (kinds, others) {
        ([], []) => true,
        ([kind, kinds @ ..], [other, others @ ..]) => {
            are_equal(*kind, *other) && are_equal_kinds(kinds, others)
        }
        _ => false,
    }
}

// The kind in the first slot of any kind, if there is one. If kinds fit, they fit with it.
fn same_kind(slots: &[Slot], kinds: &[Kind]) -> Kind
    ensures { (same : Kind) → spec.AreKindsIn slots.now kinds.now same
        → spec.AreKindsIn slots.now kinds.now result }
{
    match (slots, kinds) {
        ([slot, slots @ ..], [kind, kinds @ ..]) => match *slot {
            Slot::Fixed(_) => same_kind(slots, kinds),
            Slot::Same => *kind,
        },
        _ => Kind::Interval,
    }
}

// Whether these are the kinds in the slots, where `same` is the kind in the slots of any kind.
fn are_kinds_in(slots: &[Slot], kinds: &[Kind], same: Kind) -> bool
    ensures { IsTrue result ↔ spec.AreKindsIn slots.now kinds.now same }
{
    match (slots, kinds) {
        ([], []) => true,
        ([slot, slots @ ..], [kind, kinds @ ..]) => {
            are_equal(*kind, kind_in(*slot, same)) && are_kinds_in(slots, kinds, same)
        }
        _ => false,
    }
}

// Whether kinds fit slots.
fn kinds_fit(slots: &[Slot], kinds: &[Kind]) -> bool
    ensures { IsTrue result ↔ spec.KindsFit slots.now kinds.now }
{
    are_kinds_in(slots, kinds, same_kind(slots, kinds))
}

/// The slots of a procedure: one to eight inputs, and an output. The output is of any kind only if
/// an input is.
#[derive(Clone, Copy)]
pub struct Signature {
    slots: [Slot; 8],
    count: usize,
    output: Slot,
    ghost shape: { IsSignature slots count output },
}

impl Signature {
    ghost use Rattle.std.specs.Prelude.{IsSome, IfSome};
    ghost use Rattle.pw_procs.specs.Slots.{AreSlots};
    ghost use Rattle.pw_procs.specs.Signature.{input_slots_of, output_slot_of, FitSignature};
    ghost use Rattle.pw_procs.specs.Signature.{Accepts};

    /// The signature with these slots. None unless there are one to eight inputs, and None if the
    /// output is `Same` and no input is.
    pub fn new(inputs: &[Slot], output: Slot) -> Option<Signature>
        ensures some { IsSome result ↔ AreSlots inputs.now output }
        ensures inputs { IfSome result (λ signature. input_slots_of signature ≡ inputs.now) }
        ensures output { IfSome result (λ signature. output_slot_of signature ≡ output) }
    {
        if inputs.is_empty() || inputs.len() > MOST_INPUTS {
            return None;
        }
        if output == Slot::Same && !inputs.contains(&Slot::Same) {
            return None;
        }
        let mut slots = [Slot::Same; 8];
        slots[..inputs.len()].copy_from_slice(inputs);
        Some(Signature {
            slots,
            count: inputs.len(),
            output,
        })
    }

    fn inputs(&self) -> &[Slot]
        ensures { result.now ≡ input_slots_of self.now }
    {
        &self.slots[..self.count]
    }

    /// Whether informations fit the inputs: one for each, of its kind, and all of one kind in the
    /// `Same` slots.
    pub fn fits(&self, inputs: &[Info]) -> bool
        ensures { IsTrue result ↔ FitSignature self.now inputs.now }
    {
        if inputs.len() != self.count {
            return false;
        }
        let mut kinds = [Kind::Interval; 8];
        for place in 0..inputs.len() {
            kinds[place] = inputs[place].kind();
        }
        kinds_fit(self.inputs(), &kinds[..inputs.len()])
    }

    /// Whether kinds fit the inputs and the output. The output's kind is last.
    pub fn accepts(&self, kinds: &[Kind]) -> bool
        ensures { IsTrue result ↔ Accepts self.now kinds.now }
    {
        let mut slots = [self.output; 9];
        slots[..self.count].copy_from_slice(self.inputs());
        kinds_fit(&slots[..self.count + 1], kinds)
    }
}
