//! The call of a request in its group.
ghost use Rattle.std.specs.Prelude.{◌≡◌};
ghost use Rattle.handle_model.specs.declared.reply.Reply.TheVariants.{Never, Dropped};
ghost use Rattle.handle_model.specs.Replies.{cancelled};
ghost use Rattle.conn_histories.specs.declared.turn.Off.TheVariants as off;
ghost use Rattle.server_steps.specs.Lines.{IsSame};
ghost use Rattle.server_steps.specs.Calls.{IsPrepared, IsWaiting, IsCalledOff, IsSettled};
ghost use Rattle.server_steps.specs.Steps.{AcceptsSo, TakesSo};
ghost use Rattle.server_steps.specs.Stops.{refused_as};
ghost use Rattle.server_steps.specs.Deeds.{Quiet};

use crate::line::Line;
use crate::turns::turn_of;
use group_core::{AcceptRefusal, Taking};
use group_hub::Hub;
use handle_model::Asked;
use rpc_base::Status;
use rpc_outside::Link;
use server_calls::Manager;
use std::sync::Wait;

/// The status with which a call is refused that its group doesn't accept (C706, "Reject Status Codes").
pub fn accept_status(refusal: AcceptRefusal) -> Status
    ensures { result ≡ refused_as refusal }
{
    match refusal {
        AcceptRefusal::Memory => Status::NCA_S_FAULT_REMOTE_NO_MEMORY,
        AcceptRefusal::Calls | AcceptRefusal::Handles | AcceptRefusal::Numbers => {
            Status::NCA_S_SERVER_TOO_BUSY
        }
    }
}

impl<K: Link> Line<K> {
    /// Has the group accept the call of a request, and cancel it at once where the request is marked so, which wakes whoever
    /// waited for it already.
    ///
    /// # Errors
    ///
    /// The status that the client is told: that of the refusal, or nca_s_fault_cancel.
    pub fn accept<R: Wait, M: Manager>(
        &mut self,
        rt: &R,
        hub: &Hub,
        _manager: &M,
        given: Asked,
        marked: bool,
    ) -> Result<u32, Status>
        requires { IsPrepared K.shows (M.may _manager.now) (M.tables _manager.now) hub.now self.old given marked }
        ensures same { IsSame self.old self.new }
        ensures group { self.new.group ≡ self.old.group }
        ensures quiet { Quiet self.old.group self.old.pass self.new.pass }
        ensures accepts { AcceptsSo K.shows (M.may _manager.now) (M.tables _manager.now) hub.now given result self.new }
    {
        let call = match hub.accept(rt, &mut self.pass, self.group, given) {
            Ok(call) => call,
            Err(refused) => return Err(accept_status(refused.1)),
        };
        if marked {
            let _ = hub.cancel(rt, &mut self.pass, self.group, call);
            self.wire.link.ring(rt, turn_of(self.group, call));
            return Err(Status::NCA_S_FAULT_CANCEL);
        }
        Ok(call)
    }

    /// Has the group let the call run, where it is its turn, or deny it.
    pub fn take<R: Wait, M: Manager>(
        &mut self,
        rt: &R,
        hub: &Hub,
        _manager: &M,
        call: u32,
        _asked: &Asked,
    ) -> Taking
        requires { IsWaiting K.shows (M.may _manager.now) (M.tables _manager.now) hub.now self.old call _asked.now }
        ensures same { IsSame self.old self.new }
        ensures group { self.new.group ≡ self.old.group }
        ensures quiet { Quiet self.old.group self.old.pass self.new.pass }
        ensures takes { TakesSo K.shows (M.may _manager.now) (M.tables _manager.now) hub.now call _asked.now result self.new }
    {
        hub.take(rt, &mut self.pass, self.group, call)
    }

    /// Cancels the call, which waits.
    pub fn cancel<R: Wait, M: Manager>(&mut self, rt: &R, hub: &Hub, _manager: &M, call: u32)
        requires { IsCalledOff K.shows (M.may _manager.now) (M.tables _manager.now) hub.now self.old call off.Cancel }
        ensures same { IsSame self.old self.new }
        ensures group { self.new.group ≡ self.old.group }
        ensures quiet { Quiet self.old.group self.old.pass self.new.pass }
        ensures settled { IsSettled K.shows (M.may _manager.now) (M.tables _manager.now) hub.now self.new (Never cancelled) }
    {
        let _ = hub.cancel(rt, &mut self.pass, self.group, call);
    }

    /// Orphans the call, which waits.
    pub fn orphan<R: Wait, M: Manager>(&mut self, rt: &R, hub: &Hub, _manager: &M, call: u32)
        requires { IsCalledOff K.shows (M.may _manager.now) (M.tables _manager.now) hub.now self.old call off.Orphan }
        ensures same { IsSame self.old self.new }
        ensures group { self.new.group ≡ self.old.group }
        ensures quiet { Quiet self.old.group self.old.pass self.new.pass }
        ensures settled { IsSettled K.shows (M.may _manager.now) (M.tables _manager.now) hub.now self.new Dropped }
    {
        let _ = hub.orphan(rt, &mut self.pass, self.group, call);
    }
}
