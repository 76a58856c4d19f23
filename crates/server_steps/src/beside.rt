//! A call runs beside its connection's thread.
ghost use Rattle.std.specs.Prelude.{◌≡◌, true, false};
ghost use Rattle.hub_story.specs.Passes.{Knows};
ghost use Rattle.group_hub.specs.Passes.{IsPassOf, at_shard};
ghost use Rattle.group_hub.specs.Shards.{shard_of};
ghost use Rattle.server_steps.specs.Wires.{IsOpen};
ghost use Rattle.conn_histories.specs.declared.turn.Off.TheVariants as off;
ghost use Rattle.conn_histories.specs.Events.{word_of};
ghost use Rattle.conn_asks.specs.Answers.{FitsStub};
ghost use Rattle.server_steps.specs.Passes.{OwnsNone};
ghost use Rattle.server_steps.specs.Works.{Works};
ghost use Rattle.server_steps.specs.Held.{HasItsEnd};
ghost use Rattle.server_steps.specs.Lines.{IsSame};
ghost use Rattle.server_steps.specs.Calls.{IsRunning, IsMarked, IsSettled, ended_reply};
ghost use Rattle.server_steps.specs.Endings.{IsCutRunning, IsGone};
ghost use Rattle.server_steps.specs.Steps.{HeardRunning};
ghost use Rattle.server_steps.specs.Deeds.{Quiet, LineEnds};

use crate::gone::Gone;
use crate::leaving::settle;
use crate::line::Line;
use crate::stop::Stop;
use crate::{Heard, Wire, Worked};
use group_hub::{Hub, HubRest, Pass};
use handle_model::{Asked, Reply};
use rpc_outside::Link;
use server_calls::{Answered, Manager};
use std::snapshot::Snapshot;
use std::sync::Wait;

impl<K: Link> Line<K> {
    /// A pass with which a thread can ask whether the running call was cancelled. It enters nothing.
    pub fn split_pass<M: Manager>(
        &mut self,
        hub: &Hub,
        _manager: &M,
        _call: u32,
        _asked: &Asked,
        _cookies: &[Option<u64>],
    ) -> Pass
        requires { IsRunning K.shows (M.may _manager.now) (M.tables _manager.now) hub.now self.old _call _asked.now _cookies.now false }
        ensures same { IsSame self.old self.new }
        ensures group { self.new.group ≡ self.old.group }
        ensures running { IsRunning K.shows (M.may _manager.now) (M.tables _manager.now) hub.now self.new _call _asked.now _cookies.now false }
        ensures quiet { Quiet self.old.group self.old.pass self.new.pass }
        ensures pass { IsPassOf hub.now result }
        ensures none { OwnsNone result }
        ensures known { Knows (at_shard result (shard_of self.old.group)) self.old.group _call }
    {
        hub.split(&mut self.pass)
    }

    /// Hears what comes next, while a call runs.
    pub fn hear_running<M: Manager>(
        &mut self,
        _hub: &Hub,
        _manager: &M,
        _call: u32,
        _asked: &Asked,
        _cookies: &[Option<u64>],
        _orphaned: bool,
    ) -> Heard
        requires { IsRunning K.shows (M.may _manager.now) (M.tables _manager.now) _hub.now self.old _call _asked.now _cookies.now _orphaned }
        ensures same { IsSame self.old self.new }
        ensures group { self.new.group ≡ self.old.group }
        ensures heard { HeardRunning K.shows (M.may _manager.now) (M.tables _manager.now) _hub.now _call _asked.now _cookies.now _orphaned result self.new }
        ensures pass { self.new.pass ≡ self.old.pass }
    {
        self.wire.hear()
    }

    /// Cancels the running call: its manager is told so where it asks.
    pub fn cancel_running<R: Wait, M: Manager>(
        &mut self,
        rt: &R,
        hub: &Hub,
        _manager: &M,
        call: u32,
        _asked: &Asked,
        _cookies: &[Option<u64>],
        _orphaned: bool,
    )
        requires { IsMarked K.shows (M.may _manager.now) (M.tables _manager.now) hub.now self.old call _asked.now _cookies.now _orphaned off.Cancel }
        ensures same { IsSame self.old self.new }
        ensures group { self.new.group ≡ self.old.group }
        ensures running { IsRunning K.shows (M.may _manager.now) (M.tables _manager.now) hub.now self.new call _asked.now _cookies.now _orphaned }
        ensures quiet { Quiet self.old.group self.old.pass self.new.pass }
    {
        let _ = hub.cancel(rt, &mut self.pass, self.group, call);
    }

    /// Orphans the running call: its client isn't answered.
    pub fn orphan_running<R: Wait, M: Manager>(
        &mut self,
        rt: &R,
        hub: &Hub,
        _manager: &M,
        call: u32,
        _asked: &Asked,
        _cookies: &[Option<u64>],
        _orphaned: bool,
    )
        requires { IsMarked K.shows (M.may _manager.now) (M.tables _manager.now) hub.now self.old call _asked.now _cookies.now _orphaned off.Orphan }
        ensures same { IsSame self.old self.new }
        ensures group { self.new.group ≡ self.old.group }
        ensures running { IsRunning K.shows (M.may _manager.now) (M.tables _manager.now) hub.now self.new call _asked.now _cookies.now true }
        ensures quiet { Quiet self.old.group self.old.pass self.new.pass }
    {
        let _ = hub.orphan(rt, &mut self.pass, self.group, call);
    }

    /// Ends the running call as it was answered, and the group where that is then due: what its client is told.
    /// `orphaned` is whether the client no longer waits for it.
    pub fn end<R: Wait, M: Manager>(
        &mut self,
        rt: &R,
        hub: &Hub,
        manager: &M,
        desks: M::Pass,
        call: u32,
        _asked: &Asked,
        _cookies: &[Option<u64>],
        orphaned: bool,
        worked: Worked<M::Pass>,
    ) -> (M::Pass, Reply)
        requires running { IsRunning K.shows (M.may manager.now) (M.tables manager.now) hub.now self.old call _asked.now _cookies.now orphaned }
        requires works { Works (M.tables manager.now) (M.may manager.now) hub.now self.old.group call _asked.now _cookies.now worked }
        requires desks { M.is_pass manager.now desks × M.is_pass manager.now worked.desks }
        ensures same { IsSame self.old self.new }
        ensures group { self.new.group ≡ self.old.group }
        ensures reply { result.1 ≡ ended_reply orphaned worked.answered.said }
        ensures settled { IsSettled K.shows (M.may manager.now) (M.tables manager.now) hub.now self.new result.1 }
        ensures entered { HasItsEnd self.new.pass self.new.group call worked.answered }
        ensures fits { FitsStub (word_of result.1) }
        ensures desks { M.is_pass manager.now result.0 }
        ensures carries { LineEnds M.tables M.enters M.runs_down M.splits M.joins manager.now hub.now.boot self.old desks _asked.now _cookies.now worked self.new.pass result.0 }
    {
        let Worked {
            answered,
            pass,
            desks: theirs,
        } = worked;
        let Answered {
            results,
            said,
            told,
        } = answered;
        hub.join(&mut self.pass, pass);
        let mut desks = desks;
        manager.join(&mut desks, theirs);
        let rest = hub.end(rt, &mut self.pass, self.group, call, results, said);
        let before = self.retired;
        let (desks, retired) = settle(rt, hub, manager, &mut self.pass, desks, before, rest);
        self.retired = retired;
        if orphaned {
            (desks, Reply::Dropped)
        } else {
            (desks, Reply::Ran(told))
        }
    }

    /// Leaves the group while a call runs, which is to end then. The group goes on until that. The connection on its link is given
    /// back, to be closed.
    pub fn leave_running<R: Wait, M: Manager>(
        mut self,
        rt: &R,
        hub: &Hub,
        _manager: &M,
        _why: Stop,
        _call: u32,
        _asked: &Asked,
        _cookies: &[Option<u64>],
    ) -> (Gone<K>, Wire<K>)
        requires { IsCutRunning K.shows (M.may _manager.now) (M.tables _manager.now) hub.now self _why _call _asked.now _cookies.now }
        ensures gone { IsGone K.shows (M.may _manager.now) (M.tables _manager.now) hub.now result.0 _why _call _asked.now _cookies.now }
        ensures quiet { Quiet self.group self.pass result.0.pass }
        ensures wire { result.0.wire.value ≡ result.1 }
        ensures same { (result.0.began.value ≡ self.began.value) × (result.1.first.value ≡ self.wire.first.value) }
        ensures group { result.0.group ≡ self.group }
        ensures open { IsOpen K.shows result.1.link }
    {
        match hub.leave(rt, &mut self.pass, self.group, self.number) {
            HubRest::Shut(_due, _key) => unreachable!(),
            HubRest::Stays => {
                let Line {
                    wire,
                    pass,
                    group,
                    number,
                    retired,
                    began,
                } = self;
                let gone = Gone {
                    pass,
                    group,
                    number,
                    retired,
                    began,
                    wire: Snapshot::of(&wire),
                };
                (gone, wire)
            }
        }
    }
}
