//! What the line of a call of a base says by itself.
ghost use Rattle.std.specs.Prelude.{◌≡◌, ◌++◌, ◌∷◌, [], true};
ghost use Rattle.std.specs.List.{list_any};
ghost use Rattle.handle_model.specs.Bases.{is_number, numbers_of};
ghost use Rattle.handle_model.specs.Sound as spec;
ghost use Rattle.journal_audit.specs.Calls.{serials_in};

use handle_model::{Base, BaseCall, Slot};

pub(crate) fn is_within(base: &Base, call: &BaseCall) -> bool
    ensures { result ≡ spec.is_within base.now call.now }
{
    call.asked.slots.len() <= 4 && call.asked.conn <= base.joins
}

/// Whether a slot may issue the serial.
fn opens_serial(slots: &[Slot], serial: u32) -> bool
    ensures { result ≡ list_any (is_number serial) (serials_in slots.now) }
{
    match slots.split_first() {
        None => false,
        Some((Slot::Opens { serial: own, .. }, later)) => {
            *own == serial || opens_serial(later, serial)
        }
        Some((Slot::Shares { .. } | Slot::Holds { .. } | Slot::Changes { .. }, later)) => {
            opens_serial(later, serial)
        }
    }
}

/// Whether the slots may issue each serial once.
pub(crate) fn serials_differ(slots: &[Slot]) -> bool
    ensures { result ≡ spec.differ (serials_in slots.now) }
{
    match slots.split_first() {
        None => true,
        Some((Slot::Opens { serial, .. }, later)) => {
            !opens_serial(later, *serial) && serials_differ(later)
        }
        Some((Slot::Shares { .. } | Slot::Holds { .. } | Slot::Changes { .. }, later)) => {
            serials_differ(later)
        }
    }
}

/// Whether the call's number is above those before it, which rise.
pub(crate) fn comes_behind(calls: &[BaseCall], call: &BaseCall) -> bool
    requires { spec.rise (numbers_of calls.now) ≡ true }
    ensures { result ≡ spec.rise (numbers_of (calls.now ++ call.now ∷ [])) }
{
    match calls.split_last() {
        None => true,
        Some((last, _front)) => last.call < call.call,
    }
}
