//! The serials of a new call's slots.
ghost use Rattle.std.specs.Prelude.{◌≡◌, ◌+◌, ◌<◌, ◌^◌, ◌∷◌, [], length, filter, slice_get, Some};
ghost use Rattle.handle_model.specs.Slots.{opens};
ghost use Rattle.handle_model.specs.Journal as spec;

use handle_model::{Slot, Slots};

/// The serial that follows the number, where the slot may issue a handle.
fn next_serial(slot: &Slot, number: usize) -> usize
    requires { number + length (filter opens (slot.now ∷ [])) < 2 ^ 64 }
    ensures { result ≡ spec.next_serial number slot.now }
{
    if slot.opens() { number + 1 } else { number }
}

fn slot_at(slots: &Slots, at: usize) -> Slot
    requires { at < length slots.now }
    ensures { slice_get slots.now at ≡ Some result }
{
    slots.as_slice()[at]
}

/// Gives the slots that may issue a handle the serials that follow the number, in their order.
pub fn number_slots(slots: &mut Slots, from: usize)
    requires { from + length (filter opens slots.old) < 2 ^ 32 }
    ensures { slots.new ≡ spec.filled from slots.old }
{
    let mut number = from;
    for i in 0..slots.len() {
        let slot = slot_at(slots, i);
        number = next_serial(&slot, number);
        slots.set(i, slot.with_serial(number as u32));
    }
}
