//! A call that was taken runs and ends.
ghost use Rattle.std.specs.Prelude.{◌≡◌};
ghost use Rattle.server_steps.specs.Works.{Works};
ghost use Rattle.server_steps.specs.declared.line.Line.{Line as LineSpec};
ghost use Rattle.server_run.specs.Running.{IsTakenWith, HasDeparted, IsOverFrom, RunsTo};
ghost use Rattle.server_run.specs.Deeds.{GoneOn, RanOn};

use crate::beside::{Beside, Departed, run_beside};
use group_core::number_slots;
use handle_model::{Asked, CookieRow, Reply};
use ndr_value::Message;
use rpc_outside::Link;
use server_calls::{Manager, Room, first_cookies};
use server_ends::Finished;
use server_steps::{Gone, Line, RunningCall, Server, Task, Worked, turn_of};
use std::sync::Wait;
use std::sync::atomic::AtomicU64;
use std::thread::Threads;

/// A call that was taken, with what was made ready for it.
#[derive(Drop)]
pub(crate) struct TakenCall {
    pub(crate) call: u32,
    pub(crate) asked: Asked,
    /// The row of its cookies, and the serial from which on its handles are numbered.
    pub(crate) row: CookieRow,
    pub(crate) serial: u32,
    /// Its message, for its manager and for its end.
    pub(crate) message: Message,
    pub(crate) again: Message,
    pub(crate) room: Room,
}

/// What became of a connection whose call ran.
#[derive(Drop)]
pub(crate) enum Ran<K: Link> {
    /// It goes on, once this is answered.
    On(Line<K>, Reply),
    /// It is over.
    Over(Finished<K>),
}

/// A connection is over that left while its call ran: the call ends.
fn finish_departed<R: Wait, K: Link, M: Manager>(
    rt: &R,
    server: Server<'_, M>,
    departed: Departed<K>,
    desks: M::Pass,
    running: RunningCall<'_>,
    cookies: &[Option<u64>],
    worked: Worked<M::Pass>,
) -> (Finished<K>, M::Pass)
    requires works { Works (M.tables server.manager.now) (M.may server.manager.now) server.hub.now departed.gone.group running.call running.asked.now cookies.now worked }
    requires departed { (old : LineSpec K) × HasDeparted K.shows M.may M.tables server old running cookies.now departed }
    requires desks { M.is_pass server.manager.now desks × M.is_pass server.manager.now worked.desks }
    ensures over { (old : LineSpec K) → HasDeparted K.shows M.may M.tables server.entry old running.entry cookies.now departed → IsOverFrom K.shows M.may M.tables server.entry old result.0 }
    ensures desks { M.is_pass server.entry.manager.now result.1 }
    ensures on { GoneOn M.tables M.enters M.runs_down M.splits M.joins server.entry.manager.now server.entry.hub.now.boot departed.gone desks running.entry.asked.now cookies.now worked result.0 result.1 }
{
    let Departed {
        mut gone,
        link,
        why,
        ending,
    } = departed;
    let Server { hub, manager, .. } = server;
    let RunningCall { call, asked, .. } = running;
    let desks = gone.end(rt, hub, manager, desks, why, call, asked, cookies, worked);
    let Gone {
        pass,
        group,
        number,
        retired,
        ..
    } = gone;
    link.ring(rt, turn_of(group, call));
    let finished = Finished {
        link,
        pass,
        joined: Some((group, number)),
        ending,
        retired,
    };
    (finished, desks)
}

/// Has the manager answer a call that was taken, in a thread beside unless it is brief, and ends it so: what its client is
/// told, or the end of the connection.
#[tactic(auto, using(crate::proofs::Serving::over_from, crate::proofs::Serving::same_then))]
pub(crate) fn run_call<R: Wait + Threads + Sync, K: Link, M: Manager + Sync>(
    rt: &R,
    server: Server<'_, M>,
    mut line: Line<K>,
    desks: M::Pass,
    taken: TakenCall,
) -> (Ran<K>, M::Pass)
    requires taken { IsTakenWith K.shows M.may M.tables server line taken }
    requires desks { M.is_pass server.manager.now desks }
    ensures runs { RunsTo K.shows M.may M.tables server.entry line result.0 }
    ensures desks { M.is_pass server.entry.manager.now result.1 }
    ensures on { RanOn M.tables M.enters M.runs_down M.splits M.joins server.entry.manager.now server.entry.hub.now.boot line desks result.0 result.1 }
{
    let Server { hub, manager, .. } = server;
    let TakenCall { call, row, .. } = taken;
    let mut asked = taken.asked;
    number_slots(&mut asked.slots, (taken.serial as usize).saturating_sub(1));
    let asked = &asked;
    let cookies = first_cookies(&row, asked.slots.len());
    let pass = line.split_pass(hub, manager, call, asked, cookies);
    let mut desks = desks;
    let other = manager.split(&mut desks);
    let done = AtomicU64::new(0);
    let running = RunningCall {
        group: line.group,
        call,
        asked,
        row,
        done: &done,
    };
    let task = Task {
        pass,
        desks: other,
        message: taken.message,
        again: taken.again,
        room: taken.room,
    };
    match run_beside(rt, server, line, running, cookies, task) {
        Beside::On(mut line, orphaned, worked) => {
            let (desks, reply) = line.end(
                rt, hub, manager, desks, call, asked, cookies, orphaned, worked,
            );
            line.wire.link.ring(rt, turn_of(line.group, call));
            (Ran::On(line, reply), desks)
        }
        Beside::Left(departed, worked) => {
            let (finished, desks) = finish_departed(
                rt, server, departed, desks, running, cookies, worked,
            );
            (Ran::Over(finished), desks)
        }
    }
}
