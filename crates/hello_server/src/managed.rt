//! Management, whose desk keeps nothing: one is made for each call.
ghost use Rattle.std.specs.Prelude.{◌≡◌, ◌<◌, ◌≤◌, true, false, length};
ghost use Rattle.ndr_value.specs.Values.{msg};
ghost use Rattle.manager_api.specs.Answers.{ans, cancelled};
ghost use Rattle.manager_api.specs.Calls.{Owes, has_cookies, uses_at};
ghost use Rattle.manager_api.specs.Messages.{IsRequest};
ghost use Rattle.mgmt_manager.specs.Steps.{Says};
ghost use Rattle.mgmt_manager.specs.Table.{mgmt_table};

use desk_counts::{Counted, Tally};
use handle_model::{CookieRow, Due};
use manager_api::{Answer, Desk, Probe};
use mgmt_manager::{Ids, MgmtDesk};
use ndr_value::Message;
use rpc_base::{Items, Status, SyntaxId};
use std::alloc::Global;
use std::sync::Arc;

/// Management answers: it tells of these interfaces, and of numbers that threads share.
pub fn manage<P: Probe>(
    alloc: Global,
    ids: &Items<SyntaxId>,
    tally: &Arc<Tally, Global>,
    iface: u16,
    op: u16,
    message: Message,
    cookies: CookieRow,
    probe: &mut P,
) -> Answer
    requires few { length ids.now ≤ 16 }
    requires number { op < length mgmt_table.ops }
    requires request { IsRequest mgmt_table op (msg message) }
    requires handles { has_cookies (uses_at mgmt_table op) message.wires cookies ≡ true }
    requires untold { P.told probe.old ≡ false }
    ensures may { Says ids.now (λ ns. Unit {0}) (record { iface = iface; op = op; message = msg message; cookies = cookies }) (ans result) }
    ensures owes { Owes mgmt_table op (msg message) (ans result) }
    ensures told { ans result ≡ cancelled → P.told probe.new ≡ true }
    ensures key { P.key probe.new ≡ P.key probe.old }
{
    let (Ok(ids), Ok(tally)) = (ids.copy(alloc), Arc::try_clone(tally)) else {
        return Answer::Fault(Status::NCA_S_FAULT_REMOTE_NO_MEMORY);
    };
    let mut desk = MgmtDesk::new(alloc, Ids::from_items(ids), tally);
    desk.call(iface, op, message, cookies, probe)
}

/// Management runs down a handle, of which it keeps nothing.
pub fn run_down_managed(alloc: Global, due: Due) {
    let none = Ids::from_items(Items::new(alloc));
    let mut desk = MgmtDesk::new(alloc, none, Counted::new());
    due.spend(&mut desk);
}
