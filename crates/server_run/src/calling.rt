//! The calls of a connection, one after another.
ghost use Rattle.std.specs.Prelude.{◌≡◌};
ghost use Rattle.conn_asks.specs.Answers.{FitsStub};
ghost use Rattle.conn_histories.specs.Events.{word_of};
ghost use Rattle.manager_api.specs.Served.{tables_in};
ghost use Rattle.server_steps.specs.Works.{Serves};
ghost use Rattle.server_calls.specs.Ready.{IsReady as IsMadeReady};
ghost use Rattle.server_steps.specs.Lines.{IsSame, IsReady};
ghost use Rattle.server_steps.specs.Calls.{IsAsking, IsPrepared, IsWaiting, IsSettled};
ghost use Rattle.server_run.specs.Entering.{Awaits};
ghost use Rattle.server_run.specs.Running.{Goes};
ghost use Rattle.server_steps.specs.Deeds.{Quiet};
ghost use Rattle.server_run.specs.Deeds.{WentSame, WentOn};

use crate::running::{Ran, TakenCall, run_call};
use conn_asks::Act;
use group_core::Taking;
use handle_model::{Asked, CookieRow, Reply};
use pdu_stream::Joined;
use rpc_base::Status;
use rpc_outside::Link;
use server_calls::{Manager, Ready, prepared};
use server_ends::Finished;
use server_steps::{Fault, Heard, Line, Listening, Server, Stop, turn_of};
use std::sync::Wait;
use std::sync::atomic::AtomicU64;
use std::thread::Threads;
use std::time::Duration;

/// How long a call that waits rests between two looks where its link doesn't, in milliseconds.
const REST: u64 = 1;

/// What came of a call that waits.
#[derive(Drop)]
pub(crate) enum Awaited {
    /// It runs with the cookies of that row, and its handles are numbered from that serial on.
    Run(CookieRow, u32),
    /// It never ran.
    Told(Reply),
    /// The connection doesn't go on.
    Stop(Stop),
}

/// What became of a connection by what it heard.
#[derive(Drop)]
pub(crate) enum Went<K: Link> {
    /// It goes on.
    On(Line<K>),
    /// It doesn't go on.
    Stop(Line<K>, Stop),
    /// It doesn't go on, and its call of that number waits.
    Drop(Line<K>, Stop, u32),
    /// It is over.
    Over(Finished<K>),
}

/// Rests a while. A call that waits does so where its link can't listen, and a look at it takes no time.
fn rest<R: Wait>(rt: &R) {
    AtomicU64::new(0).park_timeout(rt, 0, Duration::from_millis(REST));
}

/// Waits until a call is taken or denied, and hears meanwhile whether it is called off. A call that can't be taken at once has its
/// link listen for the end of the last call in its way, and rests in a take of it, or without one where what came has to wait. It
/// rests only where a look since it listens still found that call the last.
fn await_turn<R: Wait, K: Link, M: Manager>(
    rt: &R,
    server: Server<'_, M>,
    line: &mut Line<K>,
    call: u32,
    asked: &Asked,
) -> Awaited
    requires { IsWaiting K.shows (M.may server.manager.now) (M.tables server.manager.now) server.hub.now line.old call asked.now }
    ensures same { IsSame line.old line.new }
    ensures group { line.new.group ≡ line.old.group }
    ensures quiet { Quiet line.old.group line.old.pass line.new.pass }
    ensures awaits { Awaits K.shows M.may M.tables server.entry call asked.now result line.new }
{
    let Server { hub, manager, .. } = server;
    let mut ahead = Listening::nothing();
    for _ in rt.forever() {
        match line.take(rt, hub, manager, call, asked) {
            Taking::Run(row, serial) => return Awaited::Run(row, serial),
            Taking::Denied(_) => {
                return Awaited::Told(Reply::Never(Status::NCA_S_FAULT_CONTEXT_MISMATCH));
            }
            Taking::Dropped => unreachable!(),
            Taking::Wait(_) => {}
        }
        ahead = line.listen_ahead(rt, hub, manager, call, asked, ahead);
        if ahead.call.is_none() {
            continue;
        }
        match line.hear_waiting(hub, manager, call, asked) {
            Heard::Nothing => {
                let must_wait = line.wire.conn.must_wait();
                if !ahead.listens || (must_wait && !line.wire.link.rest(rt)) {
                    rest(rt);
                }
            }
            Heard::Does(Act::Cancel(_)) => {
                line.cancel(rt, hub, manager, call);
                return Awaited::Told(Reply::Never(Status::NCA_S_FAULT_CANCEL));
            }
            Heard::Does(Act::Orphan(_)) => {
                line.orphan(rt, hub, manager, call);
                return Awaited::Told(Reply::Dropped);
            }
            Heard::Does(Act::Answer(_)) => unreachable!(),
            Heard::Does(Act::Group(_)) => unreachable!(),
            Heard::Does(Act::Call(_, _)) => unreachable!(),
            Heard::Does(Act::Close(_, _)) => unreachable!(),
            Heard::End => return Awaited::Stop(Stop::Ended),
            Heard::Stop(Fault::Failed) => return Awaited::Stop(Stop::Failed),
            Heard::Stop(Fault::Memory) => return Awaited::Stop(Stop::Memory),
        }
    }
    unreachable!()
}

/// Answers a request that has its entries.
fn answer<K: Link, M: Manager>(server: Server<'_, M>, line: Line<K>, reply: &Reply) -> Went<K>
    requires settled { IsSettled K.shows (M.may server.manager.now) (M.tables server.manager.now) server.hub.now line reply.now }
    requires fits { FitsStub (word_of reply.now) }
    ensures goes { Goes K.shows M.may M.tables server.entry line result }
    ensures same { WentSame line result }
{
    let mut line = line;
    match line.answer(server.hub, server.manager, reply) {
        Ok(()) => Went::On(line),
        Err(why) => Went::Stop(line, why),
    }
}

/// Serves a request whose call is ready to be accepted.
#[tactic(auto, using(crate::proofs::Serving::goes_from, crate::proofs::Serving::same_then))]
fn serve_ready<R: Wait + Threads + Sync, K: Link, M: Manager + Sync>(
    rt: &R,
    server: Server<'_, M>,
    line: Line<K>,
    desks: M::Pass,
    ready: Ready,
    marked: bool,
) -> (Went<K>, M::Pass)
    requires served { Serves M.tables server }
    requires prepared { IsPrepared K.shows (M.may server.manager.now) (M.tables server.manager.now) server.hub.now line ready.asked marked }
    requires ready { IsMadeReady (tables_in server.served.now) ready.asked ready }
    requires desks { M.is_pass server.manager.now desks }
    ensures goes { Goes K.shows M.may M.tables server.entry line result.0 }
    ensures desks { M.is_pass server.entry.manager.now result.1 }
    ensures on { WentOn M.tables M.enters M.runs_down M.splits M.joins server.entry.manager.now server.entry.hub.now.boot line desks result.0 result.1 }
{
    let Ready {
        given,
        asked,
        message,
        again,
        room,
    } = ready;
    let mut line = line;
    let call = match line.accept(rt, server.hub, server.manager, given, marked) {
        Ok(call) => call,
        Err(status) => return (answer(server, line, &Reply::Never(status)), desks),
    };
    let awaited = await_turn(rt, server, &mut line, call, &asked);
    line.wire.link.unlisten(rt);
    let (row, serial) = match awaited {
        Awaited::Run(row, serial) => (row, serial),
        Awaited::Told(reply) => {
            line.wire.link.ring(rt, turn_of(line.group, call));
            return (answer(server, line, &reply), desks);
        }
        Awaited::Stop(why) => return (Went::Drop(line, why, call), desks),
    };
    let taken = TakenCall {
        call,
        asked,
        row,
        serial,
        message,
        again,
        room,
    };
    let (ran, desks) = run_call(rt, server, line, desks, taken);
    match ran {
        Ran::On(line, reply) => (answer(server, line, &reply), desks),
        Ran::Over(finished) => (Went::Over(finished), desks),
    }
}

/// Serves a request.
fn serve_call<R: Wait + Threads + Sync, K: Link, M: Manager + Sync>(
    rt: &R,
    server: Server<'_, M>,
    line: Line<K>,
    desks: M::Pass,
    joined: Joined,
    iface: u16,
) -> (Went<K>, M::Pass)
    requires served { Serves M.tables server }
    requires asking { IsAsking K.shows (M.may server.manager.now) (M.tables server.manager.now) server.hub.now line joined iface }
    requires desks { M.is_pass server.manager.now desks }
    ensures goes { Goes K.shows M.may M.tables server.entry line result.0 }
    ensures desks { M.is_pass server.entry.manager.now result.1 }
    ensures on { WentOn M.tables M.enters M.runs_down M.splits M.joins server.entry.manager.now server.entry.hub.now.boot line desks result.0 result.1 }
{
    let marked = joined.cancel;
    match prepared(server.alloc, server.served, line.number, joined, iface) {
        Err(status) => (answer(server, line, &Reply::Never(status)), desks),
        Ok(ready) => serve_ready(rt, server, line, desks, ready, marked),
    }
}

/// Serves a connection by one look: what came next, if anything, is done.
#[tactic(auto, using(crate::proofs::Serving::goes_from, crate::proofs::Serving::same_then))]
pub(crate) fn serve_next<R: Wait + Threads + Sync, K: Link, M: Manager + Sync>(
    rt: &R,
    server: Server<'_, M>,
    line: Line<K>,
    desks: M::Pass,
) -> (Went<K>, M::Pass)
    requires served { Serves M.tables server }
    requires ready { IsReady K.shows (M.may server.manager.now) (M.tables server.manager.now) server.hub.now line }
    requires desks { M.is_pass server.manager.now desks }
    ensures goes { Goes K.shows M.may M.tables server.entry line result.0 }
    ensures desks { M.is_pass server.entry.manager.now result.1 }
    ensures on { WentOn M.tables M.enters M.runs_down M.splits M.joins server.entry.manager.now server.entry.hub.now.boot line desks result.0 result.1 }
{
    let Server { hub, manager, .. } = server;
    let mut line = line;
    match line.hear_ready(hub, manager) {
        Heard::Nothing => (Went::On(line), desks),
        Heard::Does(Act::Answer(octets)) => match line.put(hub, manager, octets.as_slice()) {
            Ok(()) => (Went::On(line), desks),
            Err(why) => (Went::Stop(line, why), desks),
        },
        Heard::Does(Act::Call(joined, iface)) => {
            serve_call(rt, server, line, desks, joined, iface)
        }
        Heard::Does(Act::Close(octets, fault)) => {
            let why = line.refuse(hub, manager, octets.as_slice(), fault);
            (Went::Stop(line, why), desks)
        }
        Heard::Does(Act::Group(_)) => unreachable!(),
        Heard::Does(Act::Cancel(_)) => unreachable!(),
        Heard::Does(Act::Orphan(_)) => unreachable!(),
        Heard::End => (Went::Stop(line, Stop::Ended), desks),
        Heard::Stop(Fault::Failed) => (Went::Stop(line, Stop::Failed), desks),
        Heard::Stop(Fault::Memory) => (Went::Stop(line, Stop::Memory), desks),
    }
}
