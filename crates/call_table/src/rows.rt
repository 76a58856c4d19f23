//! All rows.
ghost use Rattle.std.specs.Prelude.{◌≡◌, true, map, IfOk};
ghost use Rattle.std.specs.List.{list_all};
ghost use Rattle.handle_model.specs.Sound.{is_within};
ghost use Rattle.call_table.specs.Shown.{base_rows};
ghost use Rattle.call_table.specs.Kept.{AllFew, Rises};
ghost use Rattle.call_table.specs.Queues.{queued};
ghost use Rattle.call_table.specs.Places.{IsPlaced};
ghost use Rattle.call_table.specs.Waits.{HasWaiting};
ghost use Rattle.call_table.specs.Rows as spec;

use crate::queues::CallQueues;
use crate::row::{CallSlots, Row};
use crate::row_table::RowTable;
use crate::running::RunningPlaces;
use crate::waiting::WaitingCalls;
use handle_model::Base;
use rpc_base::NoMemory;
use std::alloc::Global;

/// The rows of a base's calls.
///
/// # Errors
/// `NoMemory` where memory runs out.
#[tactic(auto, using(handle_model::proofs::Rest::resting))]
pub fn rows_of(alloc: Global, base: &Base) -> Result<RowTable, NoMemory>
    requires { list_all (is_within base.now) base.now.calls ≡ true }
    ensures { IfOk result (λ rows. rows.items ≡ base_rows base.now) }
{
    let mut rows = RowTable::new(alloc);
    for call in base.calls.as_slice() {
        rows.reserve(1)?;
        rows.push(Row {
            call: call.call,
            conn: call.asked.conn,
            slots: CallSlots::of(call.asked.slots.as_slice()),
            place: u128::from(base.count),
            runs: call.taken,
            cancelled: call.cancelled,
            orphaned: call.orphaned,
        });
    }
    Ok(rows)
}

/// The calls of these rows in their queues.
///
/// # Errors
/// `NoMemory` where memory runs out.
#[tactic(auto, using(handle_model::proofs::Rest::resting))]
pub fn queued_rows(alloc: Global, rows: &RowTable) -> Result<CallQueues, NoMemory>
    requires { AllFew rows.now.items }
    ensures { IfOk result (λ queues. queues.calls ≡ map queued rows.now.items) }
{
    let mut queues = CallQueues::new(alloc);
    queues.reserve(rows.len())?;
    for at in 0..rows.len() {
        let row = rows.row(at);
        queues.join(row.call, row.slots.as_slice());
    }
    Ok(queues)
}

/// The waiting calls of these rows, by connection.
///
/// # Errors
/// `NoMemory` where memory runs out.
#[tactic(auto, using(handle_model::proofs::Rest::resting))]
pub fn waiting_rows(alloc: Global, rows: &RowTable) -> Result<WaitingCalls, NoMemory>
    ensures { IfOk result (λ waiting. HasWaiting rows.now.items waiting.keys) }
{
    let mut waiting = WaitingCalls::new(alloc);
    waiting.reserve(rows.len())?;
    for at in 0..rows.len() {
        waiting.enter(rows.row(at));
    }
    Ok(waiting)
}

/// The places of the running calls of these rows. There is room for those of the waiting ones.
///
/// # Errors
/// `NoMemory` where memory runs out.
#[tactic(auto, using(handle_model::proofs::Rest::resting))]
pub fn running_rows(alloc: Global, rows: &RowTable) -> Result<RunningPlaces, NoMemory>
    ensures { IfOk result (λ running. IsPlaced rows.now.items running 0) }
{
    let mut running = RunningPlaces::new(alloc);
    running.reserve(rows.len())?;
    for at in 0..rows.len() {
        running.enter(rows.row(at));
    }
    Ok(running)
}

/// How many entries may still come of the calls.
#[tactic(auto, using(handle_model::proofs::Rest::resting))]
pub fn owed_of(rows: &RowTable) -> usize
    requires { Rises 0 rows.now.items }
    ensures { result ≡ spec.owed_of rows.now.items }
{
    let mut total = 0;
    for at in 0..rows.len() {
        total += rows.row(at).owed();
    }
    total
}

/// Whether the numbers are all below this one: the last one is.
pub fn all_below(rows: &RowTable, call: u32) -> bool
    requires { Rises 0 rows.now.items }
    ensures { result ≡ spec.over call rows.now.items }
{
    let count = rows.len();
    if count == 0 {
        return true;
    }
    rows.row(count - 1).call < call
}
