//! The last of the calls that stand in the way of a waiting one, by the queues of its handles.
ghost use Rattle.std.specs.Prelude.{◌≡◌, ◌<◌, ◌&&◌, filter, length, map};
ghost use Rattle.call_table.specs.Kept.{Rises};
ghost use Rattle.call_table.specs.Queues.{queued, is_in, shares};
ghost use Rattle.call_table.specs.Rows.{calls};
ghost use Rattle.call_table.specs.Ahead as spec;

use crate::blocks::Blockers;
use crate::queues::{CallQueues, queue_of};
use crate::row::Row;
use crate::row_table::RowTable;
use crate::seek::place;
use handle_model::Slot;

/// The greatest of the running calls that clash with these slots and of the waiting ones below the call.
pub fn last_of(slots: &[Slot], call: u32, rows: &RowTable, queues: &CallQueues) -> Option<u32>
    requires rise { Rises 0 rows.now.items }
    requires queued { queues.now.calls ≡ map queued rows.now.items }
    ensures { result ≡ spec.last_of slots.now call rows.now.items }
{
    if rows.len() == 0 {
        return None;
    }
    last_sharing(slots, call, slots, rows, queues)
}

/// The greatest such call in a queue of one of the named handles.
fn last_sharing(
    slots: &[Slot],
    call: u32,
    named: &[Slot],
    rows: &RowTable,
    queues: &CallQueues,
) -> Option<u32>
    requires rise { Rises 0 rows.now.items }
    requires queued { queues.now.calls ≡ map queued rows.now.items }
    requires some { 0 < length rows.now.items }
    ensures { result ≡ spec.greatest (calls (filter (λ r. shares named.now r && spec.is_ahead slots.now call r) rows.now.items)) }
{
    let Some((slot, later)) = named.split_first() else {
        return None;
    };
    let other = last_sharing(slots, call, later, rows, queues);
    match queue_of(slot) {
        Some(queue) => greater_of(last_queued(slots, call, queue, rows, queues), other),
        None => other,
    }
}

/// The last such call in a queue.
fn last_queued(
    slots: &[Slot],
    call: u32,
    queue: u32,
    rows: &RowTable,
    queues: &CallQueues,
) -> Option<u32>
    requires rise { Rises 0 rows.now.items }
    requires queued { queues.now.calls ≡ map queued rows.now.items }
    requires some { 0 < length rows.now.items }
    requires queue { queue < 64 }
    ensures { result ≡ spec.greatest (calls (filter (λ r. is_in queue (queued r) && spec.is_ahead slots.now call r) rows.now.items)) }
{
    let (mut after, mut last) = (None, None);
    while let Some(found) = queues.next(queue, after) {
        let at = place(rows, found);
        last = with_row(slots, call, rows.row(at), last);
        after = Some(at);
    }
    last
}

/// The greater of the last number so far and that of a row, where its call stands in the way.
fn with_row(slots: &[Slot], call: u32, row: &Row, last: Option<u32>) -> Option<u32>
    ensures { result ≡ spec.with_row slots.now call row.now last }
{
    if row.blocks(Blockers::Running, slots) || row.blocks(Blockers::WaitingBelow(call), slots) {
        greater_of(Some(row.call), last)
    } else {
        last
    }
}

/// The greater number, where there is one.
fn greater_of(number: Option<u32>, other: Option<u32>) -> Option<u32>
    ensures { result ≡ spec.greatest_of number other }
{
    match (number, other) {
        (None, _) => other,
        (Some(_), None) => number,
        (Some(a), Some(b)) => Some(a.max(b)),
    }
}
