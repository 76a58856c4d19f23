//! What stands beside the rows of the open calls: which of them use a handle, and which wait of a
//! connection.
ghost use Rattle.std.specs.Prelude.{◌≡◌, ◌↔◌, ℕ, ◌<◌, ◌^◌, false, true, [], ◌&&◌, ◌||◌, not, IsTrue, OnOk, MatchOption};
ghost use Rattle.handle_model.specs.Slots.{named, is_exclusive};
ghost use Rattle.call_table.specs.Rows.{is_left};
ghost use Rattle.audit_tables.specs.Index as spec;

use crate::users::{Users, add_all, any_before, no_users, remove_all};
use call_table::Row;
use handle_model::Slot;
use rpc_base::NoMemory;
use std::alloc::Global;
use std::collections::BTreeSet;

/// Waiting calls, each behind the number of its connection.
pub(crate) type Waiting = BTreeSet<(u32, u32)>;

/// An index of rows.
#[derive(Drop)]
pub(crate) struct Index {
    /// The uses of handles.
    pub(crate) any: Users,
    /// Those of them that exclude others.
    pub(crate) exclusive: Users,
    /// The waiting calls of the connections.
    pub(crate) waiting: Waiting,
}

impl Index {
    /// The index of no rows.
    pub(crate) fn new(alloc: Global) -> Index
        ensures { spec.IsOf [] result }
    {
        Index {
            any: no_users(alloc),
            exclusive: no_users(alloc),
            waiting: BTreeSet::new(alloc),
        }
    }

    /// Adds a row.
    pub(crate) fn enter(&mut self, row: &Row) -> Result<(), NoMemory>
        ensures { OnOk result (spec.Enters self.old row.now self.new) }
    {
        let slots = row.slots.as_slice();
        add_all(&mut self.any, true, slots, !row.runs, row.call)?;
        add_all(&mut self.exclusive, false, slots, !row.runs, row.call)?;
        add_waiting(&mut self.waiting, row)
    }

    /// Removes a row.
    pub(crate) fn leave(&mut self, row: &Row)
        ensures { spec.Leaves self.old row.now self.new }
    {
        let slots = row.slots.as_slice();
        remove_all(&mut self.any, true, slots, !row.runs, row.call);
        remove_all(&mut self.exclusive, false, slots, !row.runs, row.call);
        remove_waiting(&mut self.waiting, row);
    }
}

fn add_waiting(waiting: &mut Waiting, row: &Row) -> Result<(), NoMemory>
    ensures { OnOk result ((c k : ℕ) → spec.has_waiting waiting.new c k ≡ (spec.is_of (is_left c) k row.now || spec.has_waiting waiting.old c k)) }
{
    if row.runs {
        return Ok(());
    }
    waiting.insert((row.conn, row.call))?;
    Ok(())
}

fn remove_waiting(waiting: &mut Waiting, row: &Row)
    ensures { (c k : ℕ) → spec.has_waiting waiting.new c k ≡ (not (spec.is_of (is_left c) k row.now) && spec.has_waiting waiting.old c k) }
{
    if !row.runs {
        waiting.remove(&(row.conn, row.call));
    }
}

/// A waiting call of the connection.
pub(crate) fn first_of(waiting: &Waiting, conn: u32) -> Option<u32>
    ensures { MatchOption result ((k : ℕ) → k < 2 ^ 32 → spec.has_waiting waiting.now conn k ≡ false) (λ k. spec.has_waiting waiting.now conn k ≡ true) }
{
    match waiting.range((conn, 0)..=(conn, u32::MAX)).next() {
        Some((_, call)) => Some(*call),
        None => None,
    }
}

/// Whether a call that uses the slot's handle comes before the call: one of the two uses excludes the
/// other, and the other call runs, or waits and has a lesser number.
pub(crate) fn stands_before(index: &Index, slot: &Slot, call: u32) -> bool
    ensures { IsTrue result ↔ spec.Before index.now (is_exclusive slot.now) (named slot.now) call }
{
    match slot.named() {
        None => false,
        Some(wire) if slot.is_exclusive() => any_before(&index.any, wire, call),
        Some(wire) => any_before(&index.exclusive, wire, call),
    }
}
