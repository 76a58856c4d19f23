//! The desk behind the interface.
ghost use Rattle.std.specs.Prelude.{◌≡◌, false};
ghost use Rattle.ndr_value.specs.Values.{msg};
ghost use Rattle.manager_api.specs.Answers.{Does, ans};
ghost use Rattle.echo_manager.specs.ProbeSteps.{open_step, close_step};

use handle_model::{CookieRow, DueItem, Rundown};
use manager_api::{Answer, Desk, FixedDesk, Kept, Probe, handle_and_status, uint_at};
use ndr_value::Message;
use rpc_base::{NoMemory, Status};
use std::alloc::Global;
use std::marker::Model;

/// The desk of the probe. Contracts see it as the number of its handles, of those issued and neither
/// closed nor run down.
#[derive(Debug, Drop)]
pub struct ProbeDesk {
    alloc: Global,
    handles: usize,
}

impl Model for ProbeDesk {
    ghost use Rattle.std.specs.Prelude.{ℕ};

    ghost Value = { ℕ };

    ghost view = { λ desk. desk.handles };
}

impl ProbeDesk {
    /// One without handles.
    pub fn new(alloc: Global) -> ProbeDesk
        ensures { result ≡ 0 }
    {
        ProbeDesk { alloc, handles: 0 }
    }

    /// How many handles were issued and are neither closed nor run down.
    pub fn open_handles(&self) -> usize
        ensures { result ≡ self.now }
    {
        self.handles
    }

    // probe_open
    fn open<P: Probe>(&mut self, message: &Message, probe: &mut P) -> Answer
        requires { P.told probe.old ≡ false }
        ensures may { Does (open_step self.old (msg message.now) (P.told probe.new)) self.old (ans result) self.new }
        ensures key { P.key probe.new ≡ P.key probe.old }
    {
        if probe.asked() {
            return Answer::Fault(Status::NCA_S_FAULT_CANCEL);
        }
        match handle_and_status(self.alloc, Kept::Cookie(uint_at(message, 0)), 0) {
            Ok(answer) => {
                self.handles = self.handles.saturating_add(1);
                answer
            }
            Err(NoMemory) => Answer::Fault(Status::NCA_S_FAULT_REMOTE_NO_MEMORY),
        }
    }

    // probe_close
    fn close(&mut self, cookie: Option<u64>) -> Answer
        ensures may { Does (close_step self.old cookie) self.old (ans result) self.new }
    {
        match handle_and_status(self.alloc, Kept::Null, 0) {
            Ok(answer) => {
                if cookie.is_some() {
                    self.handles = self.handles.saturating_sub(1);
                }
                answer
            }
            Err(NoMemory) => Answer::Fault(Status::NCA_S_FAULT_REMOTE_NO_MEMORY),
        }
    }
}

impl Rundown for ProbeDesk {
    ghost use Rattle.std.specs.Prelude.{◌≡◌};
    ghost use Rattle.manager_api.specs.Handles.{one_less};

    ghost runs_down = { λ before item after. after ≡ one_less before };

    fn rundown(&mut self, _item: DueItem) {
        self.handles = self.handles.saturating_sub(1);
    }
}

impl Desk for ProbeDesk {
    ghost use Rattle.manager_api.specs.Answers.{Does};
    ghost use Rattle.echo_manager.specs.Table.{probe_table};
    ghost use Rattle.echo_manager.specs.ProbeSteps.{probe_step};

    ghost table = { λ desk. probe_table };

    ghost may = { λ before call told answer after. Does (probe_step before call told) before answer after };

    fn call<P: Probe>(
        &mut self,
        _iface: u16,
        op: u16,
        message: Message,
        cookies: CookieRow,
        probe: &mut P,
    ) -> Answer {
        if op == 0 {
            self.open(&message, probe)
        } else {
            self.close(cookies[0])
        }
    }
}

impl FixedDesk for ProbeDesk {
    ghost use Rattle.std.specs.Prelude.{refl};
    ghost use Rattle.echo_manager.specs.Table.{probe_table};

    ghost fixed = { probe_table };

    ghost serves = { λ desk. refl };
}
