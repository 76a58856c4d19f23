//! What each entry makes of the tables.
ghost use Rattle.std.specs.Prelude.{◌≡◌, ◌+◌, ◌<◌, ◌≤◌, ◌^◌, [], true, length, filter, IfOk, if◌then◌else◌};
ghost use Rattle.handle_model.specs.Slots.{opens};
ghost use Rattle.handle_table.specs.Ended.{ended};
ghost use Rattle.call_table.specs.Rows.{row_at, slots_at, over, with_start, without, with_cancel, with_orphan, left};
ghost use Rattle.journal_tables.specs.Conns as spec_conns;
ghost use Rattle.journal_tables.specs.Tables as spec;

use crate::tables::AuditTables;
use call_table::{CallSlots, Row};
use handle_model::{Asked, Entry, Outcome, count_opens};
use journal_tables::call_runs;
use rpc_base::NoMemory;

impl AuditTables {
    /// The same with an entry that may come next and stands at that place.
    ///
    /// # Errors
    /// `NoMemory` where memory runs out.
    pub fn enter(self, entry: &Entry, place: u128) -> Result<AuditTables, NoMemory>
        requires { spec.Admits self entry.now }
        ensures { IfOk result (λ t. t ≡ spec.entered self place entry.now) }
    {
        match entry {
            Entry::Join { conn } => self.join(*conn, place),
            Entry::Accept { call, asked } => self.accept(*call, asked, place),
            Entry::Take { call, .. } => self.take(*call),
            Entry::Deny { call, .. } => Ok(self.deny(*call)),
            Entry::Cancel { call } => self.cancel(*call),
            Entry::Orphan { call } => self.orphan(*call),
            Entry::End { call, results, .. } => self.end(*call, results.as_slice()),
            Entry::Leave { conn } => Ok(self.leave(*conn)),
            Entry::Shut { .. } => Ok(self.close()),
        }
    }

    fn join(self, conn: u32, place: u128) -> Result<AuditTables, NoMemory>
        requires { conn ≡ self.joins + 1 }
        ensures { IfOk result (λ t. t ≡ spec.entered self place (Entry.Join conn)) }
    {
        let mut tables = self;
        tables.conns.join(conn, place)?;
        tables.joins = conn;
        Ok(tables)
    }

    fn accept(self, call: u32, asked: &Asked, place: u128) -> Result<AuditTables, NoMemory>
        requires next { call ≡ self.accepts + 1 }
        requires above { over call self.rows ≡ true }
        requires few { length asked.now.slots ≤ 4 }
        requires small { self.opens + length (filter opens asked.now.slots) < 2 ^ 32 }
        ensures { IfOk result (λ t. t ≡ spec.entered self place (Entry.Accept call asked.now)) }
    {
        let mut tables = self;
        tables.calls = tables.calls.accept(Row {
            call,
            conn: asked.conn,
            slots: CallSlots::of(asked.slots.as_slice()),
            place,
            runs: false,
            cancelled: false,
            orphaned: false,
        })?;
        tables.accepts = call;
        tables.opens += count_opens(asked.slots.as_slice()) as u32;
        Ok(tables)
    }

    fn take(self, call: u32) -> Result<AuditTables, NoMemory>
        ensures { IfOk result (λ t. t ≡ record self { rows = with_start call self.rows }) }
    {
        let mut tables = self;
        tables.calls = tables.calls.start(call)?;
        Ok(tables)
    }

    fn deny(self, call: u32) -> AuditTables
        ensures { result ≡ record self { rows = without call self.rows } }
    {
        let mut tables = self;
        let (calls, _) = tables.calls.take_out(call);
        tables.calls = calls;
        tables
    }

    fn cancel(self, call: u32) -> Result<AuditTables, NoMemory>
        ensures { IfOk result (λ t. t ≡ record self { rows = if spec.runs_in (row_at self.rows call) then with_cancel call self.rows else without call self.rows }) }
    {
        if !call_runs(&self.calls, call) {
            return Ok(self.deny(call));
        }
        let mut tables = self;
        tables.calls = tables.calls.cancel(call)?;
        Ok(tables)
    }

    fn orphan(self, call: u32) -> Result<AuditTables, NoMemory>
        ensures { IfOk result (λ t. t ≡ record self { rows = if spec.runs_in (row_at self.rows call) then with_orphan call self.rows else without call self.rows }) }
    {
        if !call_runs(&self.calls, call) {
            return Ok(self.deny(call));
        }
        let mut tables = self;
        tables.calls = tables.calls.orphan(call)?;
        Ok(tables)
    }

    fn end(self, call: u32, results: &[Outcome]) -> Result<AuditTables, NoMemory>
        ensures { IfOk result (λ t. t ≡ record self { rows = without call self.rows; items = ended self.home (slots_at self.rows call) results.now self.items }) }
    {
        let mut tables = self;
        let (calls, row) = tables.calls.take_out(call);
        tables.calls = calls;
        match &row {
            Some(row) => tables.handles.end(row.slots.as_slice(), results)?,
            None => {}
        }
        Ok(tables)
    }

    fn leave(self, conn: u32) -> AuditTables
        ensures { result ≡ record self { rows = left conn self.rows; conns = spec_conns.without conn self.conns } }
    {
        let mut tables = self;
        tables.conns.leave(conn);
        tables.calls = tables.calls.without_waiting(conn);
        tables
    }

    fn close(self) -> AuditTables
        ensures { result ≡ record self { items = []; shut = true } }
    {
        let mut tables = self;
        tables.handles.close_all();
        tables.shut = true;
        tables
    }
}
