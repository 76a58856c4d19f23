//! A call runs.
ghost use Rattle.manager_api.specs.Served.{tables_in};
ghost use Rattle.server_steps.specs.Works.{IsReadyToRun, WorksBy};
ghost use Rattle.server_steps.specs.Deeds.{AnswersBy};

use crate::probing::HubProbe;
use group_hub::{Hub, Pass};
use handle_model::{Asked, CookieRow, Home};
use manager_api::Served;
use ndr_value::Message;
use server_calls::{Answered, Manager, Room, first_cookies, run};
use std::alloc::{AllocError, Global};
use std::snapshot::Snapshot;
use std::sync::Wait;
use std::sync::atomic::{AtomicU64, Ordering};
use std::thread::Promise;

/// What serves the calls of a connection: the tables of the interfaces, their manager, and the hub of the groups.
pub struct Server<'a, M> {
    pub alloc: Global,
    pub served: &'a Served,
    pub manager: &'a M,
    pub hub: &'a Hub,
}

impl<'a, M> Clone for Server<'a, M> {
    fn clone(&self) -> Result<Server<'a, M>, AllocError> {
        Ok(*self)
    }
}

impl<'a, M> Copy for Server<'a, M> {}

/// A call that was taken, as the thread that runs it and the one that waits for it see it.
#[derive(Clone, Copy)]
pub struct RunningCall<'a> {
    /// The group, and the call's number there.
    pub group: u32,
    pub call: u32,
    pub asked: &'a Asked,
    /// The row of its cookies.
    pub row: CookieRow,
    /// 1 once it is done, else 0. No clause speaks of it.
    pub done: &'a AtomicU64,
}

/// What a call uses up as it runs: a pass that has seen it accepted and entered nothing, a pass of its manager, its message,
/// once for its manager and once for its end, and the room for its results.
#[derive(Drop)]
pub struct Task<P> {
    pub pass: Pass,
    pub desks: P,
    pub message: Message,
    pub again: Message,
    pub room: Room,
}

/// How a call ends that ran, the pass with which its manager asked, and the manager's pass behind its answer.
#[derive(Drop)]
pub struct Worked<P> {
    pub answered: Answered,
    pub pass: Pass,
    pub desks: P,
}

/// That a manager answers a call of a group, with the cookies of that row.
#[derive(Drop)]
pub struct Promised<M: Manager> {
    pub manager: Snapshot<M>,
    /// The manager's pass before its answer.
    pub desks: Snapshot<M::Pass>,
    pub hub: Snapshot<Hub>,
    pub asked: Snapshot<Asked>,
    pub row: CookieRow,
    pub group: u32,
    pub call: u32,
}

impl<M: Manager> Promise<Worked<M::Pass>> for Promised<M> {
    ghost use Rattle.server_steps.specs.Works.{Keeps};
    ghost use Rattle.server_steps.specs.Deeds.{AnswersAs};

    ghost kept_by = { λ p r. Keeps M.tables M.may p r × AnswersAs M.tables M.is_pass M.enters p r };
}

/// Has the manager answer a call that was taken, with the cookies of its row, and says that it is done. By the task's pass
/// the manager asks meanwhile whether it was cancelled.
pub fn work<R: Wait, M: Manager>(
    rt: &R,
    server: Server<'_, M>,
    running: RunningCall<'_>,
    task: Task<M::Pass>,
) -> Worked<M::Pass>
    requires ready { IsReadyToRun M.tables server running task }
    requires desks { M.is_pass server.manager.now task.desks }
    ensures works { WorksBy M.tables M.may server.entry running.entry result }
    ensures answers { AnswersBy M.tables M.is_pass M.enters server.entry running.entry task.desks result }
{
    let Task {
        pass,
        desks,
        message,
        again,
        room,
    } = task;
    let asked = running.asked;
    let cookies = first_cookies(&running.row, asked.slots.len());
    let home = Home {
        boot: server.hub.boot(),
        group: running.group,
    };
    let mut probe = HubProbe::new(rt, server.hub, pass, running.group, running.call);
    let (desks, answered) = run(
        rt,
        server.alloc,
        server.served,
        server.manager,
        desks,
        home,
        asked,
        message,
        &again,
        cookies,
        room,
        &mut probe,
    );
    running.done.store(1, Ordering::SeqCst);
    let pass = probe.into_pass(server.hub, running.group, running.call);
    Worked {
        answered,
        pass,
        desks,
    }
}
