//! A call is watched while it runs.
ghost use Rattle.std.specs.Prelude.{◌≡◌, false};
ghost use Rattle.server_steps.specs.Lines.{IsSame};
ghost use Rattle.server_steps.specs.Calls.{IsRunning};
ghost use Rattle.server_steps.specs.Deeds.{Quiet};
ghost use Rattle.server_run.specs.Running.{Watches};

use conn_asks::Act;
use rpc_outside::Link;
use server_calls::Manager;
use server_steps::{Fault, Heard, Line, RunningCall, Server, Stop};
use std::sync::Wait;
use std::sync::atomic::{AtomicU64, Ordering};
use std::time::Duration;

/// How long a call is waited for between two looks at a link that has no bell, in milliseconds.
const TURN: u64 = 10;

/// What came of a call that runs.
#[derive(Drop)]
pub(crate) enum Watched {
    /// Nothing more is heard until it ends. Its client no longer waits for it, or does.
    Done(bool),
    /// The connection doesn't go on.
    Stop(Stop),
}

/// Whether the call is done. Where no bell tells of its end, it is waited for, a turn at most.
fn is_done<R: Wait>(rt: &R, done: &AtomicU64, has_bell: bool) -> bool {
    if !has_bell && done.load(Ordering::SeqCst) == 0 {
        done.park_timeout(rt, 0, Duration::from_millis(TURN));
    }
    done.load(Ordering::SeqCst) != 0
}

/// Hears whether a running call is called off, until it is done or something came that has to wait for its end. A link that has a
/// bell is woken by that end. Takes of one that has none don't wait from now on.
pub(crate) fn watch<R: Wait, K: Link, M: Manager>(
    rt: &R,
    server: Server<'_, M>,
    line: &mut Line<K>,
    running: RunningCall<'_>,
    cookies: &[Option<u64>],
    has_bell: bool,
) -> Watched
    requires { IsRunning K.shows (M.may server.manager.now) (M.tables server.manager.now) server.hub.now line.old running.call running.asked.now cookies.now false }
    ensures same { IsSame line.old line.new }
    ensures group { line.new.group ≡ line.old.group }
    ensures quiet { Quiet line.old.group line.old.pass line.new.pass }
    ensures watches { Watches K.shows M.may M.tables server.entry running.entry cookies.now result line.new }
{
    let Server { hub, manager, .. } = server;
    let RunningCall { call, asked, .. } = running;
    let mut orphaned = false;
    if !has_bell {
        line.wire.link.hasten();
    }
    for _ in rt.forever() {
        if is_done(rt, running.done, has_bell) || line.wire.conn.must_wait() {
            return Watched::Done(orphaned);
        }
        match line.hear_running(hub, manager, call, asked, cookies, orphaned) {
            Heard::Nothing => {}
            Heard::Does(Act::Cancel(_)) => {
                line.cancel_running(rt, hub, manager, call, asked, cookies, orphaned);
            }
            Heard::Does(Act::Orphan(_)) => {
                line.orphan_running(rt, hub, manager, call, asked, cookies, orphaned);
                orphaned = true;
            }
            Heard::Does(Act::Answer(_)) => unreachable!(),
            Heard::Does(Act::Group(_)) => unreachable!(),
            Heard::Does(Act::Call(_, _)) => unreachable!(),
            Heard::Does(Act::Close(_, _)) => unreachable!(),
            Heard::End => return Watched::Stop(Stop::Ended),
            Heard::Stop(Fault::Failed) => return Watched::Stop(Stop::Failed),
            Heard::Stop(Fault::Memory) => return Watched::Stop(Stop::Memory),
        }
    }
    unreachable!()
}
