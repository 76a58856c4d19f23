//! A connection leaves, and its group ends.
ghost use Rattle.std.specs.Prelude.{◌≡◌};
ghost use Rattle.group_hub.specs.Passes.{IsPassOf, HasItsShut};
ghost use Rattle.server_steps.specs.Lines.{IsSame};
ghost use Rattle.server_steps.specs.Endings.{IsStopping, IsLeft};
ghost use Rattle.server_steps.specs.Held.{Settles, retired_after};
ghost use Rattle.server_steps.specs.Deeds.{RunsDown, RunsAfter, LineCarries};

use crate::line::Line;
use crate::stop::Stop;
use group_hub::{Hub, HubRest, Pass, Retired};
use handle_model::DueList;
use rpc_outside::Link;
use server_calls::Manager;
use std::sync::Wait;

/// Runs down the handles of a group that has ended, in order.
fn run_down<R: Wait, M: Manager>(rt: &R, manager: &M, desks: M::Pass, due: DueList) -> M::Pass
    requires { M.is_pass manager.now desks }
    ensures desks { M.is_pass manager.now result }
    ensures runs { RunsDown (M.enters manager.now) (M.runs_down manager.now) (M.splits manager.now) (M.joins manager.now) desks due result }
{
    let mut desks = desks;
    let mut due = due;
    while let Some(item) = due.take_first() {
        desks = manager.rundown(rt, desks, item);
    }
    due.finish();
    desks
}

/// Runs down the handles of a group that has ended and retires it, where it has: that it was retired, then or `before`.
pub fn settle<R: Wait, M: Manager>(
    rt: &R,
    hub: &Hub,
    manager: &M,
    pass: &mut Pass,
    desks: M::Pass,
    before: Option<Retired>,
    rest: HubRest,
) -> (M::Pass, Option<Retired>)
    requires pass { IsPassOf hub.now pass.old }
    requires shut { HasItsShut pass.old rest }
    requires desks { M.is_pass manager.now desks }
    ensures pass { IsPassOf hub.now pass.new }
    ensures settles { Settles hub.now.boot rest pass.old pass.new }
    ensures retired { result.1 ≡ retired_after rest before }
    ensures desks { M.is_pass manager.now result.0 }
    ensures runs { RunsAfter (M.enters manager.now) (M.runs_down manager.now) (M.splits manager.now) (M.joins manager.now) rest desks result.0 }
{
    match rest {
        HubRest::Stays => (desks, before),
        HubRest::Shut(due, key) => {
            let desks = run_down(rt, manager, desks, due);
            (desks, Some(hub.retire(rt, pass, key)))
        }
    }
}

impl<K: Link> Line<K> {
    /// Leaves the group, and ends it where that is then due.
    pub fn leave<R: Wait, M: Manager>(
        &mut self,
        rt: &R,
        hub: &Hub,
        manager: &M,
        desks: M::Pass,
        _why: Stop,
    ) -> M::Pass
        requires stopping { IsStopping K.shows (M.may manager.now) (M.tables manager.now) hub.now self.old _why }
        requires desks { M.is_pass manager.now desks }
        ensures same { IsSame self.old self.new }
        ensures group { self.new.group ≡ self.old.group }
        ensures left { IsLeft K.shows (M.may manager.now) (M.tables manager.now) hub.now self.new _why }
        ensures desks { M.is_pass manager.now result }
        ensures carries { LineCarries M.tables M.enters M.runs_down M.splits M.joins manager.now hub.now.boot self.old desks self.new.pass result }
    {
        let rest = hub.leave(rt, &mut self.pass, self.group, self.number);
        let before = self.retired;
        let (desks, retired) = settle(rt, hub, manager, &mut self.pass, desks, before, rest);
        self.retired = retired;
        desks
    }
}
