//! What the slots of a call find among the live handles.
ghost use Rattle.std.specs.Prelude.{◌≡◌, ◌↔◌, ◌<◌, ◌≤◌, length, IsTrue, IfSome};
ghost use Rattle.handle_model.specs.Journal.{is_at_fault_by};
ghost use Rattle.handle_table.specs.Uses as spec;

use crate::known::LiveHandles;
use handle_model::{DueItem, Slot};

/// The first slot of a call that names no live handle of its kind, or a handle that an earlier slot
/// names, where a use of it excludes others.
pub fn fault<T: LiveHandles>(handles: &T, slots: &[Slot]) -> Option<u8>
    requires { length slots.now ≤ 4 }
    ensures { result ≡ spec.fault_at (T.home handles.now) (T.items handles.now) slots.now }
{
    match fault_at(handles, slots) {
        Some(at) => Some(at as u8),
        None => None,
    }
}

fn fault_at<T: LiveHandles>(handles: &T, slots: &[Slot]) -> Option<usize>
    ensures fault { result ≡ spec.fault_at (T.home handles.now) (T.items handles.now) slots.now }
    ensures bound { IfSome result (λ at. at < length slots.now) }
{
    for i in 0..slots.len() {
        if is_at_fault(handles, &slots[..i], slots, &slots[i]) {
            return Some(i);
        }
    }
    None
}

/// Whether the slot is at fault, after the earlier slots of its call.
fn is_at_fault<T: LiveHandles>(handles: &T, earlier: &[Slot], all: &[Slot], slot: &Slot) -> bool
    ensures { result ≡ is_at_fault_by (spec.is_usable_at (T.home handles.now) (T.items handles.now)) earlier.now all.now slot.now }
{
    slot.named().is_some() && (!fits_kind(slot, handles.named(slot)) || slot.repeats(earlier, all))
}

fn fits_kind(slot: &Slot, item: Option<DueItem>) -> bool
    ensures { result ≡ spec.fits_kind slot.now item }
{
    match item {
        Some(item) => item.kind == slot.kind(),
        None => false,
    }
}

/// The cookie of the live handle that a slot names.
pub fn cookie<T: LiveHandles>(handles: &T, slot: &Slot) -> Option<u64>
    ensures { result ≡ spec.cookie_at (T.home handles.now) (T.items handles.now) slot.now }
{
    match handles.named(slot) {
        Some(item) => Some(item.cookie),
        None => None,
    }
}

/// Whether the cookies are those of the slots, one by one.
pub fn cookies_agree<T: LiveHandles>(handles: &T, slots: &[Slot], cookies: &[Option<u64>]) -> bool
    ensures { IsTrue result ↔ (cookies.now ≡ spec.cookies_at (T.home handles.now) (T.items handles.now) slots.now) }
{
    match (slots.split_first(), cookies.split_first()) {
        (None, None) => true,
        (Some((slot, slots)), Some((given, cookies))) => {
            cookie(handles, slot) == *given && cookies_agree(handles, slots, cookies)
        }
        _ => false,
    }
}
