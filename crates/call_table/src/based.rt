//! The calls as a base has them.
ghost use Rattle.std.specs.Prelude.{◌≡◌, slice_get, IfOk};
ghost use Rattle.std.specs.List.{find};
ghost use Rattle.std.specs.Option.{option_copied};
ghost use Rattle.handle_model.specs.Bases as base;
ghost use Rattle.call_table.specs.Based as spec;

use crate::row::Row;
use crate::row_table::RowTable;
use handle_model::{Asked, Base, BaseCall, BaseCalls, Entry};
use rpc_base::{Items, NoMemory};
use std::alloc::Global;

/// The calls of these rows with what they asked: those of the base, and of the others by their Accepts
/// among the entries since then.
///
/// # Errors
/// `NoMemory` where memory runs out.
#[tactic(auto, using(handle_model::proofs::Rest::resting))]
pub fn stored_calls(
    alloc: Global,
    base: &Base,
    entries: &[Entry],
    rows: &RowTable,
) -> Result<BaseCalls, NoMemory>
    ensures { IfOk result (λ calls. calls ≡ spec.stored_calls base.now entries.now rows.now.items) }
{
    let mut calls = Items::new(alloc);
    for at in 0..rows.len() {
        let row = rows.row(at);
        if let Some(asked) = stored(base, entries, row) {
            calls.push(BaseCall {
                call: row.call,
                asked: asked.copy(alloc)?,
                taken: row.runs,
                cancelled: row.cancelled,
                orphaned: row.orphaned,
            })?;
        }
    }
    Ok(calls)
}

/// What the call of the row asked.
pub fn stored<'a>(base: &'a Base, entries: &'a [Entry], row: &Row) -> Option<&'a Asked>
    ensures { option_copied result ≡ spec.stored base.now entries.now row.now }
{
    match base_call(base.calls.as_slice(), row.call) {
        Some(call) => Some(&call.asked),
        None => asked_at(entries, row.place.saturating_sub(u128::from(base.count))),
    }
}

/// The call of a base.
fn base_call(calls: &[BaseCall], call: u32) -> Option<&BaseCall>
    ensures { option_copied result ≡ find (base.is_call call) calls.now }
{
    calls.iter().find(|c| c.call == call)
}

/// What the Accept of that index says.
fn asked_at(entries: &[Entry], at: u128) -> Option<&Asked>
    ensures { option_copied result ≡ spec.asked_in (slice_get entries.now at) }
{
    if at >= entries.len() as u128 {
        return None;
    }
    match entries.get(at as usize) {
        Some(Entry::Accept { asked, .. }) => Some(asked),
        _ => None,
    }
}
