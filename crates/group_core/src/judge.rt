//! What the tables say of a call before anything is added.
ghost use Rattle.std.specs.Prelude.{◌≡◌, ◌+◌, ◌≤◌, true, length, take, Some};
ghost use Rattle.handle_table.specs.Uses.{cookies_at};
ghost use Rattle.call_table.specs.Rows.{row_at, slots_at, waits_at};
ghost use Rattle.group_core.specs.Calls as calls;
ghost use Rattle.group_core.specs.Judges as spec;

use crate::answer::{Cancelled, Orphaned, Stage};
use call_table::CallTable;
use handle_model::{CookieRow, Cookies, Slot};
use handle_table::HandleTable;

/// Whether a call may be taken.
#[derive(Clone, Copy, Debug, PartialEq, Eq)]
pub enum Judged {
    /// It may, with these cookies, and this serial of the first slot that may issue a handle.
    Free(CookieRow, u32),
    /// The slot of that index is the first at fault.
    AtFault(u8),
    /// It has to wait for that call.
    Blocked(u32),
    /// It doesn't wait.
    NotWaiting,
}

pub fn judge(handles: &HandleTable, table: &CallTable, call: u32) -> Judged
    requires waits { spec.waits_in (row_at table.now.rows call) ≡ true → waits_at table.now.rows call ≡ true }
    requires few { length (slots_at table.now.rows call) ≤ 4 }
    ensures { spec.Judges handles.now.home handles.now.items table.now.rows call result }
{
    let Some(row) = table.row(call) else {
        return Judged::NotWaiting;
    };
    if row.runs {
        return Judged::NotWaiting;
    }
    let slots = row.slots.as_slice();
    match table.conflict(call) {
        Some(other) => Judged::Blocked(other),
        None => match handles.fault(slots) {
            Some(slot) => Judged::AtFault(slot),
            None => Judged::Free(cookie_row(handles, slots), first_serial(slots)),
        },
    }
}

/// What a cancel of the call comes to.
pub fn judge_cancel(table: &CallTable, call: u32) -> Cancelled
    ensures { spec.JudgesCancel (row_at table.now.rows call) result }
{
    let Some(row) = table.row(call) else {
        return Cancelled::Late;
    };
    match (row.runs, row.cancelled) {
        (false, _) => Cancelled::Ended,
        (true, false) => Cancelled::Flagged,
        (true, true) => Cancelled::Late,
    }
}

/// What an orphaning of the call comes to.
pub fn judge_orphan(table: &CallTable, call: u32) -> Orphaned
    ensures { spec.JudgesOrphan (row_at table.now.rows call) result }
{
    let Some(row) = table.row(call) else {
        return Orphaned::Late;
    };
    match (row.runs, row.orphaned) {
        (false, _) => Orphaned::Dropped,
        (true, false) => Orphaned::Running,
        (true, true) => Orphaned::Late,
    }
}

/// Where the call is.
pub fn stage_of(table: &CallTable, call: u32) -> Stage
    ensures { result ≡ spec.stage_in (row_at table.now.rows call) }
{
    match table.row(call) {
        Some(row) => {
            if row.runs {
                Stage::Running
            } else {
                Stage::Waiting
            }
        }
        None => Stage::Over,
    }
}

/// The last call that stands in the way of a call that waits.
pub fn ahead_of(table: &CallTable, call: u32) -> Option<u32>
    requires { spec.waits_in (row_at table.now.rows call) ≡ true → waits_at table.now.rows call ≡ true }
    ensures { result ≡ spec.ahead_in table.now.rows call }
{
    let Some(row) = table.row(call) else {
        return None;
    };
    if row.runs {
        return None;
    }
    table.last_ahead(call)
}

/// The cookies of the slots, in a row of four.
fn cookie_row(handles: &HandleTable, slots: &[Slot]) -> CookieRow
    requires { length slots.now ≤ 4 }
    ensures { result ≡ calls.cookie_row (cookies_at handles.now.home handles.now.items slots.now) }
{
    match slots {
        [] => [None; 4],
        [a] => [handles.cookie(a), None, None, None],
        [a, b] => [handles.cookie(a), handles.cookie(b), None, None],
        [a, b, c] => [
            handles.cookie(a),
            handles.cookie(b),
            handles.cookie(c),
            None,
        ],
        [a, b, c, d] => [
            handles.cookie(a),
            handles.cookie(b),
            handles.cookie(c),
            handles.cookie(d),
        ],
        _ => unreachable!(),
    }
}

/// The serial of the first slot that may issue a handle, 0 where none may.
fn first_serial(slots: &[Slot]) -> u32
    ensures { result ≡ calls.first_serial slots.now }
{
    match slots.split_first() {
        None => 0,
        Some((Slot::Opens { serial, .. }, _)) => *serial,
        Some((_, later)) => first_serial(later),
    }
}

/// The first cookies of the row, in a list of that length.
pub fn entered(row: CookieRow, list: Cookies) -> Cookies
    requires { length list ≤ 4 }
    ensures { result ≡ take (length list) row }
{
    let mut list = list;
    for i in 0..list.len() {
        list.set(i, row[i]);
    }
    list
}
