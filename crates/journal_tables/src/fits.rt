//! What each entry needs of the tables.
ghost use Rattle.std.specs.Prelude.{◌≡◌, ◌+◌, ◌<◌, ◌≤◌, ◌^◌, ◌↔◌, true, length, filter, IsTrue};
ghost use Rattle.handle_model.specs.Slots.{opens};
ghost use Rattle.handle_model.specs.Journal as journal;
ghost use Rattle.call_table.specs.Rows.{row_at, slots_at};
ghost use Rattle.journal_tables.specs.Tables as spec;

use call_table::OpenRows;
use handle_model::{Outcome, Slot, count_opens, follow, suit};
use handle_table::{LiveHandles, cookies_agree, fault};

/// Whether the number comes next after a count, and has 32 bits.
pub fn comes_next(number: u32, count: u32) -> bool
    ensures { IsTrue result ↔ ((number ≡ count + 1) × (number < 2 ^ 32)) }
{
    number.checked_sub(1) == Some(count)
}

/// Whether the slots of a new call are few, and their serials go on from the last one.
pub fn fits_slots(last: u32, slots: &[Slot]) -> bool
    ensures { IsTrue result ↔ ((length slots.now ≤ 4) × IsTrue (journal.follow last slots.now) × (last + length (filter opens slots.now) < 2 ^ 32)) }
{
    slots.len() <= 4
        && follow(u64::from(last), slots)
        && u64::from(last) + (count_opens(slots) as u64) < 1 << 32
}

/// Whether a call waits, no other stands in its way, no slot is at fault, and those are the cookies
/// of its handles.
pub fn fits_take<H: LiveHandles, C: OpenRows>(
    handles: &H,
    calls: &C,
    call: u32,
    cookies: &[Option<u64>],
) -> bool
    ensures { IsTrue result ↔ spec.IsTakable (C.rows calls.now) call (H.home handles.now) (H.items handles.now) cookies.now }
{
    let Some(row) = calls.row_of(call) else {
        return false;
    };
    let slots = row.slots.as_slice();
    !row.runs
        && calls.is_free(call, slots)
        && fault(handles, slots).is_none()
        && cookies_agree(handles, slots, cookies)
}

/// Whether a call waits, no other stands in its way, and that slot is the first at fault.
pub fn fits_deny<H: LiveHandles, C: OpenRows>(handles: &H, calls: &C, call: u32, slot: u8) -> bool
    ensures { IsTrue result ↔ spec.IsDeniable (C.rows calls.now) call (H.home handles.now) (H.items handles.now) slot }
{
    let Some(row) = calls.row_of(call) else {
        return false;
    };
    !row.runs
        && calls.is_free(call, row.slots.as_slice())
        && fault(handles, row.slots.as_slice()) == Some(slot)
}

/// Whether a call waits, or runs and was not cancelled.
pub fn fits_cancel<C: OpenRows>(calls: &C, call: u32) -> bool
    ensures { result ≡ spec.cancels_in (row_at (C.rows calls.now) call) }
{
    match calls.row_of(call) {
        Some(row) => !row.runs || !row.cancelled,
        None => false,
    }
}

/// Whether a call waits, or runs and was not orphaned.
pub fn fits_orphan<C: OpenRows>(calls: &C, call: u32) -> bool
    ensures { result ≡ spec.orphans_in (row_at (C.rows calls.now) call) }
{
    match calls.row_of(call) {
        Some(row) => !row.runs || !row.orphaned,
        None => false,
    }
}

/// Whether a call runs, and the results suit its slots.
pub fn fits_end<C: OpenRows>(calls: &C, call: u32, results: &[Outcome]) -> bool
    ensures { IsTrue result ↔ (IsTrue (spec.runs_in (row_at (C.rows calls.now) call)) × IsTrue (journal.suit (slots_at (C.rows calls.now) call) results.now)) }
{
    match calls.row_of(call) {
        Some(row) => row.runs && suit(row.slots.as_slice(), results),
        None => false,
    }
}

/// Whether a call runs.
pub fn call_runs<C: OpenRows>(calls: &C, call: u32) -> bool
    ensures { result ≡ spec.runs_in (row_at (C.rows calls.now) call) }
{
    match calls.row_of(call) {
        Some(row) => row.runs,
        None => false,
    }
}
