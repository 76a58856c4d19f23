//! What stands in the way of a call, by the queues of its handles.
ghost use Rattle.std.specs.Prelude.{◌≡◌, ◌<◌, ◌&&◌, filter, length, map};
ghost use Rattle.handle_model.specs.Journal.{least};
ghost use Rattle.call_table.specs.Kept.{Rises};
ghost use Rattle.call_table.specs.Queues as spec;
ghost use Rattle.call_table.specs.Rows.{calls, blocker_of};

use crate::blocks::Blockers;
use crate::queues::{CallQueues, queue_of};
use crate::row_table::RowTable;
use crate::seek::place;
use handle_model::Slot;

/// The least running call that clashes with these slots, else the least waiting one below the call.
pub fn blocker_of(slots: &[Slot], call: u32, rows: &RowTable, queues: &CallQueues) -> Option<u32>
    requires rise { Rises 0 rows.now.items }
    requires queued { queues.now.calls ≡ map spec.queued rows.now.items }
    ensures { result ≡ blocker_of slots.now call rows.now.items }
{
    if rows.len() == 0 {
        return None;
    }
    match least_blocker(Blockers::Running, slots, slots, rows, queues) {
        Some(other) => Some(other),
        None => least_blocker(Blockers::WaitingBelow(call), slots, slots, rows, queues),
    }
}

/// The least such call in a queue of one of the named handles.
fn least_blocker(
    kind: Blockers,
    slots: &[Slot],
    named: &[Slot],
    rows: &RowTable,
    queues: &CallQueues,
) -> Option<u32>
    requires rise { Rises 0 rows.now.items }
    requires queued { queues.now.calls ≡ map spec.queued rows.now.items }
    requires some { 0 < length rows.now.items }
    ensures { result ≡ least (calls (filter (λ r. spec.shares named.now r && spec.blocks kind slots.now r) rows.now.items)) }
{
    let Some((slot, later)) = named.split_first() else {
        return None;
    };
    let other = least_blocker(kind, slots, later, rows, queues);
    match queue_of(slot) {
        Some(queue) => lesser_of(first_blocker(kind, slots, queue, rows, queues), other),
        None => other,
    }
}

/// The first such call in a queue.
fn first_blocker(
    kind: Blockers,
    slots: &[Slot],
    queue: u32,
    rows: &RowTable,
    queues: &CallQueues,
) -> Option<u32>
    requires rise { Rises 0 rows.now.items }
    requires queued { queues.now.calls ≡ map spec.queued rows.now.items }
    requires some { 0 < length rows.now.items }
    requires queue { queue < 64 }
    ensures { result ≡ least (calls (filter (λ r. spec.is_in queue (spec.queued r) && spec.blocks kind slots.now r) rows.now.items)) }
{
    let mut after = None;
    while let Some(call) = queues.next(queue, after) {
        let at = place(rows, call);
        if rows.row(at).blocks(kind, slots) {
            return Some(call);
        }
        after = Some(at);
    }
    None
}

/// The lesser number, where there is one.
fn lesser_of(number: Option<u32>, other: Option<u32>) -> Option<u32>
    ensures { result ≡ spec.least_of number other }
{
    match (number, other) {
        (None, _) => other,
        (Some(_), None) => number,
        (Some(a), Some(b)) => Some(a.min(b)),
    }
}
