//! A call ends, or a connection leaves, and the group ends where that is then due.
ghost use Rattle.std.specs.Prelude.{◌≡◌, ◌+◌, ◌≤◌, true, Some};
ghost use Rattle.handle_model.specs.Journal as spec;
ghost use Rattle.handle_table.specs.Ended.{ended, issue_count};
ghost use Rattle.call_table.specs.Rows.{row_at, slots_at, without};
ghost use Rattle.group_core.specs.Judges.{ShutsIfDue, is_due_at, left_in};

use crate::answer::Rest;
use crate::counts::Counts;
use crate::group::Group;
use crate::log::Log;
use call_table::{CallTable, Row};
use handle_model::{DueList, Entry, Outcome, Outcomes, Said};
use handle_table::HandleTable;

impl Group {
    ghost use Rattle.group_core.specs.Calls.{Ends};
    ghost use Rattle.group_core.specs.Conns.{Leaves};

    /// Ends a running call, and the group where that is then due. It takes no memory.
    pub fn end(&mut self, call: u32, results: Outcomes, said: Said) -> Rest
        requires runs { spec.runs self.old call ≡ true }
        requires suit { spec.suit (spec.slots self.old call) results ≡ true }
        ensures { Ends self.old call results said result self.new }
    {
        let freed = settle(&mut self.handles, &mut self.calls, call, results.as_slice());
        let ended = Entry::End {
            call,
            results,
            said,
        };
        self.log.add(ended, freed);
        let running = self.calls.any_runs();
        close(&mut self.log, &mut self.handles, &self.counts, running)
    }

    /// A connection leaves, and the group ends where that is then due. It takes no memory.
    pub fn leave(&mut self, conn: u32) -> Rest
        requires { spec.is_open self.old conn ≡ true }
        ensures { Leaves self.old conn result self.new }
    {
        let freed = self.calls.leave(conn);
        self.counts.conns.leave(conn);
        self.log.add(Entry::Leave { conn }, freed);
        let running = self.calls.any_runs();
        close(&mut self.log, &mut self.handles, &self.counts, running)
    }
}

/// Enters the results of a call in the tables, and says how many further entries it might have had.
fn settle(handles: &mut HandleTable, calls: &mut CallTable, call: u32, results: &[Outcome]) -> usize
    requires { issue_count results.now ≤ handles.old.room }
    ensures items { handles.new.items ≡ ended handles.old.home (slots_at calls.old.rows call) results.now handles.old.items }
    ensures room { handles.old.room ≤ handles.new.room + issue_count results.now }
    ensures home { handles.new.home ≡ handles.old.home }
    ensures rows { calls.new.rows ≡ without call calls.old.rows }
    ensures freed { result ≡ left_in (row_at calls.old.rows call) }
{
    let freed = match calls.row(call) {
        Some(row) => {
            handles.end(row.slots.as_slice(), results);
            entries_left(row)
        }
        None => 0,
    };
    calls.end(call);
    freed
}

/// The Cancel and the Orphan that a call has not had.
fn entries_left(row: &Row) -> usize
    ensures { result ≡ left_in (Some row.now) }
{
    usize::from(!row.cancelled) + usize::from(!row.orphaned)
}

/// Enters the Shut where it is due, with all handles that are live.
fn close(log: &mut Log, handles: &mut HandleTable, counts: &Counts, running: bool) -> Rest
    requires { 1 ≤ log.old.spare }
    ensures { ShutsIfDue (is_due_at counts.now running) log.old handles.old result log.new handles.new }
{
    if counts.joined == 0 || !counts.conns.is_empty() || running {
        return Rest::Stays;
    }
    let (due, given) = handles.drain();
    log.add(Entry::Shut { due }, 0);
    Rest::Shut(DueList::of(given))
}
