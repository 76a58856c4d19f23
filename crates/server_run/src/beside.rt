//! A call runs in a thread beside its connection's.
ghost use Rattle.std.specs.Prelude.{◌≡◌, false};
ghost use Rattle.std.specs.Thread.{IsSync};
ghost use Rattle.manager_api.specs.Served.{tables_in};
ghost use Rattle.server_steps.specs.Passes.{MayAsk};
ghost use Rattle.server_steps.specs.Works.{IsGiven, IsReadyToRun};
ghost use Rattle.server_steps.specs.Calls.{IsRunning};
ghost use Rattle.server_run.specs.Running.{IsRow, IsToRun, StartsSo, WorksByRow, RunsBeside};
ghost use Rattle.server_run.specs.Deeds.{StartsAnswering, RunsQuietly};
ghost use Rattle.server_steps.specs.Deeds.{AnswersRow};

use crate::watching::{Watched, watch};
use rpc_outside::Link;
use server_calls::Manager;
use server_ends::Ending;
use server_steps::{Gone, Line, Promised, RunningCall, Server, Stop, Task, Worked, close, work};
use std::snapshot::Snapshot;
use std::sync::Wait;
use std::thread;
use std::thread::{PromisedHandle, Scope, Threads};

/// A connection that left while its call ran, and its link, which is closed.
#[derive(Drop)]
pub(crate) struct Departed<K: Link> {
    pub(crate) gone: Gone<K>,
    pub(crate) link: K,
    pub(crate) why: Stop,
    pub(crate) ending: Ending,
}

/// What became of a connection while its call ran, and how the call ends.
#[derive(Drop)]
pub(crate) enum Beside<K: Link, P> {
    /// It goes on. Its client no longer waits for the call, or does.
    On(Line<K>, bool, Worked<P>),
    /// It left.
    Left(Departed<K>, Worked<P>),
}

/// Where a call runs.
#[derive(Drop)]
pub(crate) enum Started<M: Manager> {
    /// In a thread of its own.
    There(PromisedHandle<Worked<M::Pass>, Promised<M>>),
    /// It ran where no thread could be started.
    Here(Worked<M::Pass>),
}

/// Runs a call in a thread of the scope, or in this one where none can be started. Its end wakes the bell's link.
fn start<'s, E, R: Wait + Threads + Sync, K: Link + 's, M: Manager + Sync>(
    scope: &'s Scope<'s, E>,
    rt: &'s R,
    server: Server<'s, M>,
    running: RunningCall<'s>,
    task: Task<M::Pass>,
    bell: Option<K>,
) -> Started<M>
    requires ready { IsReadyToRun M.tables server running task }
    requires desks { M.is_pass server.manager.now task.desks }
    ensures starts { StartsSo M.tables M.may server.entry running.entry result }
    ensures answers { StartsAnswering M.tables M.is_pass M.enters server.entry running.entry task.desks result }
{
    let promise = Promised {
        manager: Snapshot::of(server.manager),
        desks: Snapshot::of(&task.desks),
        hub: Snapshot::of(server.hub),
        asked: Snapshot::of(running.asked),
        row: running.row,
        group: running.group,
        call: running.call,
    };
    match scope.spawn_with(
        promise,
        move || -> Worked<M::Pass>
            requires served { IsSync R.row × (M.tables server.manager.now ≡ tables_in server.served.now) }
            requires asks { MayAsk server.hub.now running.group running.call task.pass }
            requires given { IsGiven (tables_in server.served.now) running.asked.now running.row task.message task.again }
            requires desks { M.is_pass server.manager.now task.desks }
            ensures works { WorksByRow M.tables M.may server.entry.manager.now server.entry.hub.now running.entry.group running.entry.call running.entry.asked.now running.entry.row result }
            ensures answers { AnswersRow M.tables M.is_pass M.enters server.entry.manager.now server.entry.hub.now running.entry.group running.entry.asked.now running.entry.row task.desks result }
        {
            let (server, running) = (Server { ..server }, RunningCall { ..running });
            let worked = work(rt, server, running, Task { ..task });
            running.done.wake_all();
            if let Some(bell) = bell {
                bell.wake();
            }
            worked
        },
    ) {
        Ok(child) => Started::There(child),
        Err(refused) => Started::Here((refused.value)()),
    }
}

/// Runs a call in a thread of the scope, and hears meanwhile whether it is called off. A connection that doesn't go on
/// leaves and closes its link before the thread is joined. Where no thread can be started it runs the call itself.
fn run_in_scope<'s, E, R: Wait + Threads + Sync, K: Link + 's, M: Manager + Sync>(
    scope: &'s Scope<'s, E>,
    rt: &'s R,
    server: Server<'s, M>,
    mut line: Line<K>,
    running: RunningCall<'s>,
    cookies: &[Option<u64>],
    task: Task<M::Pass>,
) -> Beside<K, M::Pass>
    requires ready { IsToRun K.shows M.may M.tables server line running cookies.now task }
    requires desks { M.is_pass server.manager.now task.desks }
    ensures runs { RunsBeside K.shows M.may M.tables server.entry line running.entry cookies.now result }
    ensures quiet { RunsQuietly M.tables M.is_pass M.enters server.entry running.entry task.desks line cookies.now result }
{
    let Server { hub, manager, .. } = server;
    let RunningCall { call, asked, .. } = running;
    let bell = line.wire.link.bell();
    let has_bell = bell.is_some();
    match start(scope, rt, server, running, task, bell) {
        Started::There(child) => {
            match watch(rt, server, &mut line, running, cookies, has_bell) {
                Watched::Done(orphaned) => {
                    line.wire.link.unlisten(rt);
                    let worked = child.join(rt);
                    Beside::On(line, orphaned, worked)
                }
                Watched::Stop(why) => {
                    let (gone, wire) = line.leave_running(
                        rt, hub, manager, why, call, asked, cookies,
                    );
                    let (link, ending) = close(wire, why);
                    let worked = child.join(rt);
                    let departed = Departed {
                        gone,
                        link,
                        why,
                        ending,
                    };
                    Beside::Left(departed, worked)
                }
            }
        }
        Started::Here(worked) => Beside::On(line, false, worked),
    }
}

/// Runs a call, whose manager asks by its task's pass whether it was cancelled: a brief one in its connection's thread,
/// which hears nothing meanwhile, any other beside it.
pub(crate) fn run_beside<R: Wait + Threads + Sync, K: Link, M: Manager + Sync>(
    rt: &R,
    server: Server<'_, M>,
    line: Line<K>,
    running: RunningCall<'_>,
    cookies: &[Option<u64>],
    task: Task<M::Pass>,
) -> Beside<K, M::Pass>
    requires ready { IsToRun K.shows M.may M.tables server line running cookies.now task }
    requires desks { M.is_pass server.manager.now task.desks }
    ensures runs { RunsBeside K.shows M.may M.tables server.entry line running.entry cookies.now result }
    ensures quiet { RunsQuietly M.tables M.is_pass M.enters server.entry running.entry task.desks line cookies.now result }
{
    let asked = running.asked;
    if server
        .manager
        .is_brief(asked.iface, asked.op, asked.stub.len())
    {
        return Beside::On(line, false, work(rt, server, running, task));
    }
    thread::scope(
        thread::scope_env(),
        rt,
        |scope| -> Beside<K, M::Pass>
            requires served { IsSync R.row × (M.tables server.manager.now ≡ tables_in server.served.now) }
            requires running { IsRunning K.shows (M.may server.manager.now) (M.tables server.manager.now) server.hub.now line running.call running.asked.now cookies.now false }
            requires row { IsRow running.asked.now cookies.now running.row }
            requires asks { MayAsk server.hub.now running.group running.call task.pass }
            requires given { IsGiven (tables_in server.served.now) running.asked.now running.row task.message task.again }
            requires desks { M.is_pass server.manager.now task.desks }
            ensures runs { RunsBeside K.shows M.may M.tables server.entry line running.entry cookies.entry.now result }
            ensures quiet { RunsQuietly M.tables M.is_pass M.enters server.entry running.entry task.desks line cookies.entry.now result }
        { run_in_scope(scope, rt, server, line, running, cookies, task) },
    )
}
