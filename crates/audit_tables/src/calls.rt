//! The calls that wait or run.
ghost use Rattle.std.specs.Prelude.{◌≡◌, ◌↔◌, ◌++◌, ◌∷◌, [], true, None, IfOk, IsTrue};
ghost use Rattle.std.specs.List.{list_any};
ghost use Rattle.std.specs.Map.{values_of};
ghost use Rattle.handle_model.specs.Sound.{IsSoundBase};
ghost use Rattle.call_table.specs.Shown.{base_rows};
ghost use Rattle.call_table.specs.Kept.{Rises};
ghost use Rattle.call_table.specs.Rows as rows;
ghost use Rattle.audit_tables.specs.Index.{AnyBefore};
ghost use Rattle.audit_tables.specs.Calls as spec;

use crate::index::{Index, first_of, stands_before};
use call_table::{CallSlots, OpenRows, Row};
use handle_model::{Base, Home, Slot};
use rpc_base::NoMemory;
use std::alloc::Global;
use std::collections::BTreeMap;
use std::marker::Model;

/// The waiting and running calls of a group, by their numbers.
#[derive(Drop)]
pub struct CallMap {
    rows: BTreeMap<u32, Row>,
    index: Index,
}

impl Model for CallMap {
    ghost use Rattle.std.specs.Prelude.{List};
    ghost use Rattle.std.specs.Map.{values_of};
    ghost use Rattle.call_table.specs.declared.row.Row.{Row};
    ghost use Rattle.audit_tables.specs.Calls.{IsKept};

    ghost Value = { List Row };

    ghost view = { λ c. values_of c.rows.entries };

    ghost invariant = { λ c. IsKept c.rows c.index };
}

impl OpenRows for CallMap {
    ghost use Rattle.std.specs.Prelude.{◌≡◌, ◌↔◌, None, IsTrue};
    ghost use Rattle.std.specs.Option.{option_copied};
    ghost use Rattle.call_table.specs.Rows.{row_at, blocker_of};

    ghost rows = { λ c. c };

    fn row_of(&self, call: u32) -> Option<&Row>
        ensures { option_copied result ≡ row_at self.now call }
    {
        self.rows.get(&call)
    }

    fn is_free(&self, call: u32, slots: &[Slot]) -> bool
        ensures { IsTrue result ↔ (blocker_of slots.now call self.now ≡ None) }
    {
        !any_stands_before(&self.index, slots, call)
    }
}

impl CallMap {
    /// No calls.
    fn new(alloc: Global) -> CallMap
        ensures { result ≡ [] }
    {
        CallMap {
            rows: BTreeMap::new(alloc),
            index: Index::new(alloc),
        }
    }

    /// The calls of a base.
    pub(crate) fn of(alloc: Global, home: Home, base: &Base) -> Result<CallMap, NoMemory>
        requires { IsSoundBase home base.now }
        ensures { IfOk result (λ calls. calls ≡ base_rows base.now) }
    {
        let mut calls = CallMap::new(alloc);
        for call in base.calls.as_slice() {
            calls = calls.put(Row {
                call: call.call,
                conn: call.asked.conn,
                slots: CallSlots::of(call.asked.slots.as_slice()),
                place: u128::from(base.count),
                runs: call.taken,
                cancelled: call.cancelled,
                orphaned: call.orphaned,
            })?;
        }
        Ok(calls)
    }

    /// The same with a call that isn't among them.
    pub(crate) fn put(self, row: Row) -> Result<CallMap, NoMemory>
        requires { rows.row_at self row.call ≡ None }
        ensures { IfOk result (λ calls. calls ≡ spec.with_row row self) }
    {
        let mut calls = self;
        calls.index.enter(&row)?;
        calls.rows.insert(row.call, row)?;
        Ok(calls)
    }

    /// The same with a call of a number above theirs.
    pub(crate) fn accept(self, row: Row) -> Result<CallMap, NoMemory>
        requires { rows.over row.call self ≡ true }
        ensures { IfOk result (λ calls. calls ≡ self ++ row ∷ []) }
    {
        self.put(row)
    }

    /// The same without a call, and that call.
    pub(crate) fn take_out(self, call: u32) -> (CallMap, Option<Row>)
        ensures rows { result.0 ≡ rows.without call self }
        ensures row { result.1 ≡ rows.row_at self call }
        ensures order { Rises 0 self }
    {
        let mut calls = self;
        match calls.rows.remove(&call) {
            Some(row) => {
                calls.index.leave(&row);
                (calls, Some(row))
            }
            None => (calls, None),
        }
    }

    /// Whether a call runs.
    pub(crate) fn any_runs(&self) -> bool
        ensures { result ≡ list_any rows.is_running self.now }
    {
        any_runs(&self.rows)
    }

    /// Whether their numbers are all below this one.
    pub(crate) fn is_below(&self, call: u32) -> bool
        ensures { result ≡ rows.over call self.now }
    {
        match self.rows.last_key_value() {
            Some((last, _)) => *last < call,
            None => true,
        }
    }

    /// The same without the waiting calls of the connection.
    pub(crate) fn without_waiting(self, conn: u32) -> CallMap
        ensures { result ≡ rows.left conn self }
    {
        let mut calls = self;
        while let Some(call) = calls.first_waiting(conn) {
            let (others, _) = calls.take_out(call);
            calls = others;
        }
        calls
    }

    fn first_waiting(&self, conn: u32) -> Option<u32>
        ensures first { spec.IsFirstWaiting self.now conn result }
        ensures order { Rises 0 self.now }
    {
        first_of(&self.index.waiting, conn)
    }

    /// A waiting call runs from now on.
    pub(crate) fn start(self, call: u32) -> Result<CallMap, NoMemory>
        ensures { IfOk result (λ calls. calls ≡ rows.with_start call self) }
    {
        let (calls, row) = self.take_out(call);
        match row {
            Some(row) => calls.put(Row { runs: true, ..row }),
            None => Ok(calls),
        }
    }

    /// A running call is cancelled.
    pub(crate) fn cancel(self, call: u32) -> Result<CallMap, NoMemory>
        ensures { IfOk result (λ calls. calls ≡ rows.with_cancel call self) }
    {
        let (calls, row) = self.take_out(call);
        match row {
            Some(row) => calls.put(Row {
                cancelled: true,
                ..row
            }),
            None => Ok(calls),
        }
    }

    /// A running call is orphaned.
    pub(crate) fn orphan(self, call: u32) -> Result<CallMap, NoMemory>
        ensures { IfOk result (λ calls. calls ≡ rows.with_orphan call self) }
    {
        let (calls, row) = self.take_out(call);
        match row {
            Some(row) => calls.put(Row {
                orphaned: true,
                ..row
            }),
            None => Ok(calls),
        }
    }
}

fn any_runs(calls: &BTreeMap<u32, Row>) -> bool
    ensures { result ≡ list_any rows.is_running (values_of calls.now.entries) }
{
    calls.values().any(|row| row.runs)
}

fn any_stands_before(index: &Index, slots: &[Slot], call: u32) -> bool
    ensures { IsTrue result ↔ AnyBefore index.now slots.now call }
{
    match slots.split_first() {
        None => false,
        Some((slot, later)) => {
            stands_before(index, slot, call) || any_stands_before(index, later, call)
        }
    }
}
