//! A connection that left its group while its call runs.
ghost use Rattle.std.specs.Prelude.{◌≡◌};
ghost use Rattle.server_steps.specs.Works.{Works};
ghost use Rattle.server_steps.specs.Held.{HasItsEnd};
ghost use Rattle.server_steps.specs.Endings.{IsGone, HasEnded};
ghost use Rattle.server_steps.specs.Deeds.{GoneEnds};

use crate::leaving::settle;
use crate::stop::Stop;
use crate::{Wire, Worked};
use group_hub::{Hub, Pass, Retired};
use handle_model::Asked;
use rpc_outside::Link;
use server_calls::{Answered, Manager};
use std::snapshot::Snapshot;
use std::sync::Wait;

/// A connection that left its group while its call runs. Its link is given up.
#[derive(Drop)]
pub struct Gone<K: Link> {
    /// What its thread has seen of the groups, and what it entered.
    pub pass: Pass,
    /// The group, and the connection's number there.
    pub group: u32,
    pub number: u32,
    /// That the group was retired, where its Shut was this connection's.
    pub retired: Option<Retired>,
    /// The pass as it was at first.
    pub began: Snapshot<Pass>,
    /// The connection on its link, as it was where it left.
    pub wire: Snapshot<Wire<K>>,
}

impl<K: Link> Gone<K> {
    /// Ends the call as it was answered, behind the connection's Leave, and the group where that is then due.
    pub fn end<R: Wait, M: Manager>(
        &mut self,
        rt: &R,
        hub: &Hub,
        manager: &M,
        desks: M::Pass,
        _why: Stop,
        call: u32,
        _asked: &Asked,
        _cookies: &[Option<u64>],
        worked: Worked<M::Pass>,
    ) -> M::Pass
        requires gone { IsGone K.shows (M.may manager.now) (M.tables manager.now) hub.now self.old _why call _asked.now _cookies.now }
        requires works { Works (M.tables manager.now) (M.may manager.now) hub.now self.old.group call _asked.now _cookies.now worked }
        requires desks { M.is_pass manager.now desks × M.is_pass manager.now worked.desks }
        ensures began { self.new.began.value ≡ self.old.began.value }
        ensures wire { self.new.wire.value ≡ self.old.wire.value }
        ensures member { (self.new.group ≡ self.old.group) × (self.new.number ≡ self.old.number) }
        ensures ended { HasEnded K.shows (M.may manager.now) (M.tables manager.now) hub.now self.new _why }
        ensures entered { HasItsEnd self.new.pass self.new.group call worked.answered }
        ensures desks { M.is_pass manager.now result }
        ensures carries { GoneEnds M.tables M.enters M.runs_down M.splits M.joins manager.now hub.now.boot self.old desks _asked.now _cookies.now worked self.new.pass result }
    {
        let Worked {
            answered,
            pass,
            desks: theirs,
        } = worked;
        let Answered { results, said, .. } = answered;
        hub.join(&mut self.pass, pass);
        let mut desks = desks;
        manager.join(&mut desks, theirs);
        let rest = hub.end(rt, &mut self.pass, self.group, call, results, said);
        let before = self.retired;
        let (desks, retired) = settle(rt, hub, manager, &mut self.pass, desks, before, rest);
        self.retired = retired;
        desks
    }
}
