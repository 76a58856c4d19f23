//! What each entry makes of the tables.
ghost use Rattle.std.specs.Prelude.{◌≡◌, ◌+◌, ◌<◌, ◌≤◌, ◌^◌, [], ◌∷◌, true, length, filter, if◌then◌else◌};
ghost use Rattle.handle_model.specs.Slots.{opens};
ghost use Rattle.handle_table.specs.Ended.{ended, issue_count};
ghost use Rattle.call_table.specs.Rows.{row_at, slots_at, over, with_start, without, with_cancel, with_orphan, left, no_cookies, owed_of};
ghost use Rattle.journal_tables.specs.Conns as spec_conns;
ghost use Rattle.journal_tables.specs.Tables as spec;

use crate::fits::call_runs;
use crate::tables::Tables;
use call_table::CallTable;
use handle_model::{Asked, Cookies, DueItems, Entry, Outcome, count_opens};
use handle_table::HandleTable;

impl Tables {
    /// Enters an entry that may come next and stands at that place. It takes no memory.
    pub fn enter(&mut self, entry: &Entry, place: u128)
        requires admits { spec.Admits self.old.tables entry.now }
        requires room { spec.HasRoom self.old entry.now }
        ensures { self.new.tables ≡ spec.entered self.old.tables place entry.now }
    {
        match entry {
            Entry::Join { conn } => self.join(*conn, place),
            Entry::Accept { call, asked } => self.accept(*call, asked, place),
            Entry::Take { call, .. } => {
                self.start(*call);
            }
            Entry::Deny { call, .. } => self.calls.end(*call),
            Entry::Cancel { call } => cancel(&mut self.calls, *call),
            Entry::Orphan { call } => orphan(&mut self.calls, *call),
            Entry::End { call, results, .. } => {
                end(
                    &mut self.handles,
                    &mut self.calls,
                    *call,
                    results.as_slice(),
                );
            }
            Entry::Leave { conn } => {
                self.leave(*conn);
            }
            Entry::Shut { .. } => {
                self.close();
            }
        }
    }

    /// Enters the Join of a connection.
    pub fn join(&mut self, conn: u32, place: u128)
        requires next { conn ≡ self.old.tables.joins + 1 }
        requires room { 1 ≤ self.old.conn_room }
        ensures tables { self.new.tables ≡ spec.entered self.old.tables place (Entry.Join conn) }
        ensures room { (self.new.conn_room + 1 ≡ self.old.conn_room) × (self.new.call_room ≡ self.old.call_room) × (self.new.handle_room ≡ self.old.handle_room) }
    {
        self.joins = conn;
        self.conns.join(conn, place);
    }

    /// Enters the Accept of a call.
    pub fn accept(&mut self, call: u32, asked: &Asked, place: u128)
        requires next { call ≡ self.old.tables.accepts + 1 }
        requires above { over call self.old.tables.rows ≡ true }
        requires few { length asked.now.slots ≤ 4 }
        requires small { self.old.tables.opens + length (filter opens asked.now.slots) < 2 ^ 32 }
        requires room { 1 ≤ self.old.call_room }
        ensures tables { self.new.tables ≡ spec.entered self.old.tables place (Entry.Accept call asked.now) }
        ensures room { (self.new.call_room + 1 ≡ self.old.call_room) × (self.new.conn_room ≡ self.old.conn_room) × (self.new.handle_room ≡ self.old.handle_room) }
    {
        self.accepts = call;
        self.opens += count_opens(asked.slots.as_slice()) as u32;
        self.calls.accept(call, asked.conn, &asked.slots, place);
    }

    /// Enters the Take of a waiting call. The answer has a place for the cookie of each of its slots.
    #[tactic(auto, using(crate::proofs::Found::waits_there))]
    pub fn start(&mut self, call: u32) -> Cookies
        requires { spec.waits_in (row_at self.old.tables.rows call) ≡ true }
        ensures cookies { result ≡ no_cookies (slots_at self.old.tables.rows call) }
        ensures tables { self.new.tables ≡ record self.old.tables { rows = with_start call self.old.tables.rows } }
        ensures room { (self.new.call_room ≡ self.old.call_room) × (self.new.conn_room ≡ self.old.conn_room) × (self.new.handle_room ≡ self.old.handle_room) }
    {
        self.calls.start(call)
    }

    /// Enters the Leave of a connection. The answer is how many entries might have come of its
    /// waiting calls.
    pub fn leave(&mut self, conn: u32) -> usize
        ensures tables { self.new.tables ≡ record self.old.tables { rows = left conn self.old.tables.rows; conns = spec_conns.without conn self.old.tables.conns } }
        ensures freed { result + owed_of self.new.tables.rows ≡ owed_of self.old.tables.rows }
        ensures room { (self.new.call_room ≡ self.old.call_room) × (self.new.conn_room ≡ self.old.conn_room) × (self.new.handle_room ≡ self.old.handle_room) }
    {
        self.conns.leave(conn);
        self.calls.leave(conn)
    }

    /// Enters the Shut. The answer is the live handles, twice; none is live afterwards.
    pub fn close(&mut self) -> (DueItems, DueItems)
        ensures lists { (result.0 ≡ self.old.tables.items) × (result.1 ≡ self.old.tables.items) }
        ensures tables { self.new.tables ≡ record self.old.tables { items = []; shut = true } }
    {
        self.shut = true;
        self.handles.drain()
    }
}

/// A waiting call is over, and a running one is cancelled.
#[tactic(auto, using(crate::proofs::Found::runs_there))]
fn cancel(calls: &mut CallTable, call: u32)
    ensures rows { calls.new.rows ≡ (if spec.runs_in (row_at calls.old.rows call) then with_cancel call calls.old.rows else without call calls.old.rows) }
    ensures room { calls.new.room ≡ calls.old.room }
{
    if call_runs(calls, call) {
        calls.cancel(call);
    } else {
        calls.end(call);
    }
}

/// A waiting call is over, and a running one is orphaned.
#[tactic(auto, using(crate::proofs::Found::runs_there))]
fn orphan(calls: &mut CallTable, call: u32)
    ensures rows { calls.new.rows ≡ (if spec.runs_in (row_at calls.old.rows call) then with_orphan call calls.old.rows else without call calls.old.rows) }
    ensures room { calls.new.room ≡ calls.old.room }
{
    if call_runs(calls, call) {
        calls.orphan(call);
    } else {
        calls.end(call);
    }
}

/// A call is over, with these results at its slots.
fn end(handles: &mut HandleTable, calls: &mut CallTable, call: u32, results: &[Outcome])
    requires { issue_count results.now ≤ handles.old.room }
    ensures items { handles.new.items ≡ ended handles.old.home (slots_at calls.old.rows call) results.now handles.old.items }
    ensures room { handles.old.room ≤ handles.new.room + issue_count results.now }
    ensures home { handles.new.home ≡ handles.old.home }
    ensures rows { calls.new.rows ≡ without call calls.old.rows }
    ensures same { calls.new.room ≡ calls.old.room }
{
    match calls.row(call) {
        Some(row) => handles.end(row.slots.as_slice(), results),
        None => {}
    }
    calls.end(call);
}
