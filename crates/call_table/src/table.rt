//! The table.
ghost use Rattle.std.specs.Prelude.{◌≡◌, ◌+◌, ◌<◌, ◌≤◌, ◌^◌, ◌++◌, ◌∷◌, ◌==◌, [], length, true, false, IfOk, OnOk, OnErr};
ghost use Rattle.std.specs.List.{list_any, list_all};
ghost use Rattle.handle_model.specs.Bases.{numbers_of};
ghost use Rattle.handle_model.specs.Sound.{rise, at_most, is_within};
ghost use Rattle.handle_model.specs.Journal.{least};
ghost use Rattle.call_table.specs.Shown.{base_rows};
ghost use Rattle.call_table.specs.Ahead.{last_at};
ghost use Rattle.call_table.specs.Based.{asked_at, stored_calls};
ghost use Rattle.std.specs.Option.{option_copied};

use crate::ahead::last_of;
use crate::based::{stored, stored_calls};
use crate::blocking::blocker_of;
use crate::held::OpenRows;
use crate::lists::{cut, fill};
use crate::queues::CallQueues;
use crate::row::{CallSlots, Row};
use crate::row_table::RowTable;
use crate::rows::{all_below, owed_of, queued_rows, rows_of, running_rows, waiting_rows};
use crate::running::RunningPlaces;
use crate::seek::{place, row_of};
use crate::tally::Tally;
use crate::waiting::WaitingCalls;
use handle_model::{Asked, Base, BaseCalls, Cookies, Entry, Slot, Slots};
use rpc_base::{Items, NoMemory};
use std::alloc::Global;
use std::marker::Model;

/// The waiting and running calls of a group: a row of each, and the queues in which they stand.
#[derive(Drop)]
pub struct CallTable {
    pub(crate) rows: RowTable,
    pub(crate) queues: CallQueues,
    lists: Vec<Cookies>,
    room: usize,
    pub(crate) tally: Tally,
    pub(crate) waiting: WaitingCalls,
    pub(crate) running: RunningPlaces,
    alloc: Global,
}

impl Model for CallTable {
    ghost use Rattle.call_table.specs.Rows.{OpenCalls};
    ghost use Rattle.call_table.specs.Kept.{IsKept};
    ghost use Rattle.call_table.specs.Tally.{IsTally};
    ghost use Rattle.call_table.specs.Queues.{IsQueued};
    ghost use Rattle.call_table.specs.Waits.{IsListed};
    ghost use Rattle.call_table.specs.Places.{IsPlaced};

    ghost Value = { OpenCalls };

    ghost view = { λ t. record { rows = t.rows.items; room = t.room } };

    ghost invariant = { λ t. IsKept t.rows t.lists t.room × IsTally t.rows.items t.tally × IsQueued t.rows.items t.queues t.room × IsListed t.rows.items t.waiting t.room × IsPlaced t.rows.items t.running t.room };
}

impl OpenRows for CallTable {
    ghost use Rattle.std.specs.Prelude.{◌≡◌, ◌↔◌, None, IsTrue};
    ghost use Rattle.std.specs.Option.{option_copied};
    ghost use Rattle.call_table.specs.Rows.{row_at, blocker_of};

    ghost rows = { λ t. t.rows };

    fn row_of(&self, call: u32) -> Option<&Row>
        ensures { option_copied result ≡ row_at self.now.rows call }
    {
        self.row(call)
    }

    fn is_free(&self, call: u32, slots: &[Slot]) -> bool
        ensures { IsTrue result ↔ (blocker_of slots.now call self.now.rows ≡ None) }
    {
        blocker_of(slots, call, &self.rows, &self.queues).is_none()
    }
}

impl CallTable {
    ghost use Rattle.call_table.specs.Rows as spec;

    /// A table of no calls. It takes no memory.
    pub fn new(alloc: Global) -> CallTable
        ensures { result ≡ record { rows = []; room = 0 } }
    {
        CallTable {
            rows: RowTable::new(alloc),
            queues: CallQueues::new(alloc),
            lists: Vec::new(alloc),
            room: 0,
            tally: Tally::new(),
            waiting: WaitingCalls::new(alloc),
            running: RunningPlaces::new(alloc),
            alloc,
        }
    }

    /// The calls of a base. For no further call there is room.
    ///
    /// # Errors
    /// `NoMemory` where memory runs out.
    pub fn of(alloc: Global, base: &Base) -> Result<CallTable, NoMemory>
        requires rise { rise (numbers_of base.now.calls) ≡ true }
        requires counted { at_most base.now.accepts (numbers_of base.now.calls) ≡ true }
        requires small { base.now.accepts < 2 ^ 32 }
        requires within { list_all (is_within base.now) base.now.calls ≡ true }
        ensures { IfOk result (λ table. table ≡ record { rows = base_rows base.now; room = 0 }) }
    {
        let rows = rows_of(alloc, base)?;
        let mut lists = Vec::new(alloc);
        fill(alloc, &mut lists, rows.len())?;
        let queues = queued_rows(alloc, &rows)?;
        let waiting = waiting_rows(alloc, &rows)?;
        let running = running_rows(alloc, &rows)?;
        let tally = Tally::of(&rows);
        Ok(CallTable {
            rows,
            queues,
            lists,
            room: 0,
            tally,
            waiting,
            running,
            alloc,
        })
    }

    /// Makes room for `n` calls more, and for the cookies that they will be given.
    ///
    /// # Errors
    /// `NoMemory` where memory runs out; the table is then as before.
    pub fn reserve(&mut self, n: usize) -> Result<(), NoMemory>
        ensures ok { OnOk result (n ≤ self.new.room) }
        ensures more { self.old.room ≤ self.new.room }
        ensures same { self.new.rows ≡ self.old.rows }
        ensures err { OnErr result (self.new ≡ self.old) }
    {
        if n <= self.room {
            return Ok(());
        }
        self.rows.reserve(n)?;
        self.queues.reserve(n)?;
        self.waiting.reserve(n)?;
        let Some(wanted) = self.rows.len().checked_add(n) else {
            return Err(NoMemory);
        };
        self.running.reserve(wanted)?;
        fill(self.alloc, &mut self.lists, wanted)?;
        self.room = n;
        Ok(())
    }

    /// The call of that number.
    pub fn row(&self, call: u32) -> Option<&Row>
        ensures { option_copied result ≡ spec.row_at self.now.rows call }
    {
        row_of(&self.rows, call)
    }

    /// The call that stands in the way of a waiting call: the least running one that uses a handle
    /// which one of the two alone may use, else the least waiting one of a lesser number.
    pub fn conflict(&self, call: u32) -> Option<u32>
        requires { spec.waits_at self.now.rows call ≡ true }
        ensures { result ≡ spec.conflict_of self.now.rows call }
    {
        let at = place(&self.rows, call);
        let row = self.rows.row(at);
        blocker_of(row.slots.as_slice(), call, &self.rows, &self.queues)
    }

    /// The last of the calls that stand in the way of a waiting call: the greatest of the running ones that
    /// use a handle which one of the two alone may use, and of the waiting ones of a lesser number.
    pub fn last_ahead(&self, call: u32) -> Option<u32>
        requires { spec.waits_at self.now.rows call ≡ true }
        ensures { result ≡ last_at self.now.rows call }
    {
        let at = place(&self.rows, call);
        let row = self.rows.row(at);
        last_of(row.slots.as_slice(), call, &self.rows, &self.queues)
    }

    /// How many calls wait or run.
    pub fn len(&self) -> usize
        ensures { result ≡ length self.now.rows }
    {
        self.rows.len()
    }

    /// Whether none waits or runs.
    pub fn is_empty(&self) -> bool
        ensures { result ≡ (length self.now.rows == 0) }
    {
        self.rows.len() == 0
    }

    /// Whether a call runs.
    pub fn any_runs(&self) -> bool
        ensures { result ≡ list_any spec.is_running self.now.rows }
    {
        self.tally.running != 0
    }

    /// Whether their numbers are all below this one.
    pub fn is_below(&self, call: u32) -> bool
        ensures { result ≡ spec.over call self.now.rows }
    {
        all_below(&self.rows, call)
    }

    /// The least place of the Accept of a running call.
    pub fn least_place(&self) -> Option<u128>
        ensures { result ≡ least (spec.running_places self.now.rows) }
    {
        self.running.least()
    }

    /// The calls as a base has them: what they asked stands in that base, or in their Accepts among the
    /// entries since then.
    ///
    /// # Errors
    /// `NoMemory` where memory runs out.
    pub fn calls(
        &self,
        alloc: Global,
        base: &Base,
        entries: &[Entry],
    ) -> Result<BaseCalls, NoMemory>
        ensures { IfOk result (λ calls. calls ≡ stored_calls base.now entries.now self.now.rows) }
    {
        stored_calls(alloc, base, entries, &self.rows)
    }

    /// What a call asked: it stands in that base, or in its Accept among the entries since then.
    pub fn asked<'a>(&self, base: &'a Base, entries: &'a [Entry], call: u32) -> Option<&'a Asked>
        ensures { option_copied result ≡ asked_at base.now entries.now self.now.rows call }
    {
        match self.row(call) {
            Some(row) => stored(base, entries, row),
            None => None,
        }
    }

    /// How many entries may still come of the waiting and running calls.
    pub fn owed(&self) -> usize
        ensures { result ≡ spec.owed_of self.now.rows }
    {
        owed_of(&self.rows)
    }

    /// How many handles the waiting and running calls may issue.
    pub fn openings(&self) -> usize
        ensures { result ≡ spec.openings_of self.now.rows }
    {
        self.tally.openings
    }

    /// A call waits from now on. Its Accept stands at that place.
    pub fn accept(&mut self, call: u32, conn: u32, slots: &Slots, place: u128)
        requires room { 0 < self.old.room }
        requires few { length slots.now ≤ 4 }
        requires last { spec.over call self.old.rows ≡ true }
        ensures rows { self.new.rows ≡ self.old.rows ++ record { call = call; conn = conn; slots = slots.now; place = place; runs = false; cancelled = false; orphaned = false } ∷ [] }
        ensures room { self.new.room + 1 ≡ self.old.room }
    {
        self.room -= 1;
        let row = Row {
            call,
            conn,
            slots: CallSlots::of(slots.as_slice()),
            place,
            runs: false,
            cancelled: false,
            orphaned: false,
        };
        self.tally.enter(&row);
        self.waiting.enter(&row);
        self.queues.join(call, slots.as_slice());
        self.rows.push(row);
    }

    /// A waiting call runs from now on. The answer has a place for the cookie of each of its slots.
    pub fn start(&mut self, call: u32) -> Cookies
        requires { spec.waits_at self.old.rows call ≡ true }
        ensures cookies { result ≡ spec.no_cookies (spec.slots_at self.old.rows call) }
        ensures rows { self.new.rows ≡ spec.with_start call self.old.rows }
        ensures room { self.new.room ≡ self.old.room }
    {
        let at = place(&self.rows, call);
        let row = self.rows.row(at);
        let count = row.slots.as_slice().len();
        self.waiting.leave(row);
        self.running.start(row.place);
        self.rows.start(at);
        self.tally.running += 1;
        cut(self.lists.pop().unwrap(), count)
    }

    /// A running call is cancelled.
    pub fn cancel(&mut self, call: u32)
        requires { spec.runs_at self.old.rows call ≡ true }
        ensures rows { self.new.rows ≡ spec.with_cancel call self.old.rows }
        ensures room { self.new.room ≡ self.old.room }
    {
        let at = place(&self.rows, call);
        self.rows.cancel(at);
    }

    /// A running call is orphaned.
    pub fn orphan(&mut self, call: u32)
        requires { spec.runs_at self.old.rows call ≡ true }
        ensures rows { self.new.rows ≡ spec.with_orphan call self.old.rows }
        ensures room { self.new.room ≡ self.old.room }
    {
        let at = place(&self.rows, call);
        self.rows.orphan(at);
    }
}
