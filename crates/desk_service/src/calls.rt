//! Calls on the desks.
ghost use Rattle.std.specs.Prelude.{◌≡◌, ◌<◌, ◌≤◌, true, false, length};
ghost use Rattle.ndr_value.specs.Values.{msg};
ghost use Rattle.ndr_table.specs.Shown.{shown};
ghost use Rattle.manager_api.specs.Answers.{ans, cancelled as cancelled_answer};
ghost use Rattle.manager_api.specs.Calls.{Owes, has_cookies, uses_at};
ghost use Rattle.manager_api.specs.Messages.{IsRequest};
ghost use Rattle.desk_counts.specs.Numbers.{listed};
ghost use Rattle.echo_manager.specs.Steps.{Answers};
ghost use Rattle.mgmt_manager.specs.Steps.{Says};
ghost use Rattle.mgmt_manager.specs.Table.{mgmt_table};
ghost use Rattle.desk_service.specs.State.{tables_of};
ghost use Rattle.desk_service.specs.Calls.{May};
ghost use Rattle.desk_service.specs.Views.{services};
ghost use Rattle.manager_api.specs.ServedCalls.{IsCall, Owed};

use crate::desks::ServiceDesks;
use crate::marked::Marked;
use desk_counts::Counted;
use echo_manager::EchoDesk;
use handle_model::CookieRow;
use manager_api::{Answer, Desk, Probe};
use mgmt_manager::{Ids, MgmtDesk};
use ndr_table::Table;
use ndr_value::Message;
use rpc_base::{Items, Status, SyntaxId};
use std::alloc::Global;

// The numbers of the interfaces.
const PROBE: u16 = 0;

const STORE: u16 = 1;

const ENDPOINTS: u16 = 2;

const MANAGEMENT: u16 = 3;

// probe_open of the probe.
const OPEN: u16 = 0;

// An echo of the table answers.
fn echo<P: Probe>(
    alloc: Global,
    table: &Table,
    iface: u16,
    op: u16,
    message: Message,
    cookies: CookieRow,
    probe: &mut P,
) -> Answer
    requires number { op < length (shown table.now).ops }
    requires request { IsRequest (shown table.now) op (msg message) }
    requires handles { has_cookies (uses_at (shown table.now) op) message.wires cookies ≡ true }
    requires untold { P.told probe.old ≡ false }
    ensures may { Answers (shown table.now) op (msg message) (ans result) }
    ensures owes { Owes (shown table.now) op (msg message) (ans result) }
    ensures told { ans result ≡ cancelled_answer → P.told probe.new ≡ true }
    ensures key { P.key probe.new ≡ P.key probe.old }
{
    let mut desk = EchoDesk::new(alloc, table);
    desk.call(iface, op, message, cookies, probe)
}

// Management answers, which tells of these interfaces and numbers.
fn manage<P: Probe>(
    alloc: Global,
    ids: &Items<SyntaxId>,
    numbers: Counted,
    iface: u16,
    op: u16,
    message: Message,
    cookies: CookieRow,
    probe: &mut P,
) -> Answer
    requires few { length ids.now ≤ 16 }
    requires number { op < length mgmt_table.ops }
    requires request { IsRequest mgmt_table op (msg message) }
    requires handles { has_cookies (uses_at mgmt_table op) message.wires cookies ≡ true }
    requires untold { P.told probe.old ≡ false }
    ensures may { Says ids.now (λ ns. ns ≡ listed numbers) (record { iface = iface; op = op; message = msg message; cookies = cookies }) (ans result) }
    ensures owes { Owes mgmt_table op (msg message) (ans result) }
    ensures told { ans result ≡ cancelled_answer → P.told probe.new ≡ true }
    ensures key { P.key probe.new ≡ P.key probe.old }
{
    let Ok(ids) = ids.copy(alloc) else {
        return Answer::Fault(Status::NCA_S_FAULT_REMOTE_NO_MEMORY);
    };
    let mut desk = MgmtDesk::new(alloc, Ids::from_items(ids), numbers);
    desk.call(iface, op, message, cookies, probe)
}

impl ServiceDesks {
    /// Answers a call of the interface of that number by its desk. The message is of a request of the
    /// operation, and there is a cookie for each handle that the group has; `numbers` are those of the
    /// calls and packets so far, of which management tells (C706, "Remote Procedure Call Model",
    /// managers).
    pub fn call<P: Probe>(
        &mut self,
        iface: u16,
        op: u16,
        message: Message,
        cookies: CookieRow,
        probe: &mut P,
        numbers: Counted,
    ) -> Answer
        requires call { IsCall (tables_of (services self.old)) (record { iface = iface; op = op; message = msg message; cookies = cookies }) }
        requires untold { P.told probe.old ≡ false }
        ensures may { May (services self.old) numbers (record { iface = iface; op = op; message = msg message; cookies = cookies }) (P.told probe.new) (ans result) (services self.new) }
        ensures owes { Owed (tables_of (services self.old)) (record { iface = iface; op = op; message = msg message; cookies = cookies }) (ans result) }
        // A call is answered as cancelled only where its probe told so.
        ensures told { ans result ≡ cancelled_answer → P.told probe.new ≡ true }
        ensures key { P.key probe.new ≡ P.key probe.old }
    {
        match iface {
            PROBE => self.probe.call(iface, op, message, cookies, probe),
            STORE => self.store.call(iface, op, message, cookies, probe),
            ENDPOINTS => self.endpoints.call(iface, op, message, cookies, probe),
            MANAGEMENT => {
                let ids = &self.ids;
                manage(self.alloc, ids, numbers, iface, op, message, cookies, probe)
            }
            _ => match &self.echo {
                Some(table) => echo(self.alloc, table, iface, op, message, cookies, probe),
                None => unreachable!(),
            },
        }
    }

    /// The same of a call of which is known whether it was cancelled: whoever asks is told so.
    pub fn answer(
        &mut self,
        iface: u16,
        op: u16,
        message: Message,
        cookies: CookieRow,
        cancelled: bool,
        numbers: Counted,
    ) -> Answer
        requires { IsCall (tables_of (services self.old)) (record { iface = iface; op = op; message = msg message; cookies = cookies }) }
        ensures may { May (services self.old) numbers (record { iface = iface; op = op; message = msg message; cookies = cookies }) cancelled (ans result) (services self.new) }
        ensures owes { Owed (tables_of (services self.old)) (record { iface = iface; op = op; message = msg message; cookies = cookies }) (ans result) }
        // A call is answered as cancelled only where it was.
        ensures told { ans result ≡ cancelled_answer → cancelled ≡ true }
    {
        // The probe asks before it opens a handle, and nothing else asks.
        if cancelled && iface == PROBE && op == OPEN {
            return Answer::Fault(Status::NCA_S_FAULT_CANCEL);
        }
        let mut probe = Marked::new(cancelled);
        let answer = self.call(iface, op, message, cookies, &mut probe, numbers);
        probe.is_honest();
        answer
    }
}
