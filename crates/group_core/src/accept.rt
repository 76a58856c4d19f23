//! A call is accepted.
ghost use Rattle.std.specs.Prelude.{◌≡◌, ◌+◌, ◌<◌, ◌≤◌, ◌^◌, true, length, filter, OnErr, OnOk};
ghost use Rattle.handle_model.specs.Slots.{opens};
ghost use Rattle.handle_model.specs.Journal as spec;
ghost use Rattle.group_core.specs.Kept.{Same};

use crate::answer::AcceptRefusal;
use crate::counts::accept_limit;
use crate::group::Group;
use crate::log::Log;
use crate::numbers::number_slots;
use call_table::CallTable;
use handle_model::{Asked, count_opens};
use handle_table::HandleTable;
use rpc_base::NoMemory;

impl Group {
    ghost use Rattle.group_core.specs.Calls.{Accepts};

    /// Accepts a call of an open connection, and gives its number; they count from 1. The slots that
    /// may issue a handle get their serials, which count from 1 over the group. There is then room for
    /// all that the call may still bring. What is refused comes back as it was.
    ///
    /// # Errors
    /// What was asked, with `Calls` or `Handles` at the limit of what is open, `Numbers` where every number
    /// is given, `Memory` where memory runs out. No entry is then added.
    pub fn accept(&mut self, asked: Asked) -> Result<u32, (Asked, AcceptRefusal)>
        requires open { spec.is_open self.old asked.conn ≡ true }
        requires few { length asked.slots ≤ 4 }
        ensures { Accepts self.old asked result self.new }
    {
        let opens = count_opens(asked.slots.as_slice());
        let openings = self.calls.openings();
        let live = self.handles.live();
        let (accepted, opened) = (self.counts.accepted, self.counts.opened);
        let calls = self.calls.len();
        match accept_limit(accepted, opened, calls, live, openings, opens) {
            Some(limit) => return Err((asked, AcceptRefusal::of(limit))),
            None => {}
        }
        let wanted = openings + opens;
        let made = make_room(&mut self.log, &mut self.handles, &mut self.calls, wanted);
        match made {
            Err(_) => return Err((asked, AcceptRefusal::Memory)),
            Ok(()) => {}
        }
        let asked = numbered(asked, self.counts.opened as usize);
        self.counts.accepted += 1;
        self.counts.opened += opens as u32;
        let call = self.counts.accepted;
        let place = self.log.journal().size();
        self.calls.accept(call, asked.conn, &asked.slots, place);
        self.log.enter(call, asked);
        Ok(call)
    }
}

/// Makes room for a further call, where all calls then may issue so many handles.
fn make_room(
    log: &mut Log,
    handles: &mut HandleTable,
    calls: &mut CallTable,
    openings: usize,
) -> Result<(), NoMemory>
    ensures entries { Same log.old log.new }
    ensures items { (handles.new.home ≡ handles.old.home) × (handles.new.items ≡ handles.old.items) }
    ensures rows { calls.new.rows ≡ calls.old.rows }
    ensures kept { handles.old.room ≤ handles.new.room }
    ensures spare { OnOk result (log.new.spare ≡ log.old.spare + 5) }
    ensures same { OnErr result (log.new.spare ≡ log.old.spare) }
    ensures handles { OnOk result (openings ≤ handles.new.room) }
    ensures calls { OnOk result (1 ≤ calls.new.room) }
{
    handles.reserve(openings)?;
    calls.reserve(1)?;
    log.reserve(5)
}

/// What is asked, with the serials of the handles that it may issue.
fn numbered(asked: Asked, from: usize) -> Asked
    requires { from + length (filter opens asked.slots) < 2 ^ 32 }
    ensures { result ≡ record asked { slots = spec.filled from asked.slots } }
{
    let mut asked = asked;
    number_slots(&mut asked.slots, from);
    asked
}
