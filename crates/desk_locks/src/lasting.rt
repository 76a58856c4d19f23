//! Services that keep nothing, whose desks are made for a call each.
ghost use Rattle.std.specs.Prelude.{◌≡◌, ◌<◌, ◌≤◌, true, false, length};
ghost use Rattle.ndr_value.specs.Values.{msg};
ghost use Rattle.ndr_table.specs.Shown.{shown};
ghost use Rattle.manager_api.specs.Answers.{ans, cancelled};
ghost use Rattle.manager_api.specs.Calls.{Owes, has_cookies, uses_at};
ghost use Rattle.manager_api.specs.Messages.{IsRequest};
ghost use Rattle.echo_manager.specs.Steps.{Answers};
ghost use Rattle.mgmt_manager.specs.Steps.{Says};
ghost use Rattle.mgmt_manager.specs.Table.{mgmt_table};

use desk_counts::{Counted, Tally};
use echo_manager::EchoDesk;
use handle_model::{CookieRow, Due};
use manager_api::{Answer, Desk, Probe};
use mgmt_manager::{Ids, MgmtDesk};
use ndr_table::Table;
use ndr_value::Message;
use rpc_base::{Items, Status, SyntaxId};
use std::alloc::Global;
use std::sync::Arc;

/// An echo of the table answers.
pub(crate) fn echo<P: Probe>(
    alloc: Global,
    table: &Table,
    iface: u16,
    op: u16,
    message: Message,
    cookies: CookieRow,
    probe: &mut P,
) -> Answer
    requires number { op < length (shown table.now).ops }
    requires request { IsRequest (shown table.now) op (msg message) }
    requires handles { has_cookies (uses_at (shown table.now) op) message.wires cookies ≡ true }
    requires untold { P.told probe.old ≡ false }
    ensures may { Answers (shown table.now) op (msg message) (ans result) }
    ensures owes { Owes (shown table.now) op (msg message) (ans result) }
    ensures told { ans result ≡ cancelled → P.told probe.new ≡ true }
    ensures key { P.key probe.new ≡ P.key probe.old }
{
    let mut desk = EchoDesk::new(alloc, table);
    desk.call(iface, op, message, cookies, probe)
}

/// An echo of the table runs down a handle.
pub(crate) fn run_down_echo(alloc: Global, table: &Table, due: Due) {
    let mut desk = EchoDesk::new(alloc, table);
    due.spend(&mut desk);
}

/// Management answers, which tells of these interfaces and of numbers that threads share.
pub(crate) fn manage<P: Probe>(
    alloc: Global,
    ids: &Items<SyntaxId>,
    tally: &Arc<Tally, Global>,
    iface: u16,
    op: u16,
    message: Message,
    cookies: CookieRow,
    probe: &mut P,
) -> Answer
    requires few { length ids.now ≤ 16 }
    requires number { op < length mgmt_table.ops }
    requires request { IsRequest mgmt_table op (msg message) }
    requires handles { has_cookies (uses_at mgmt_table op) message.wires cookies ≡ true }
    requires untold { P.told probe.old ≡ false }
    ensures may { Says ids.now (λ ns. Unit {0}) (record { iface = iface; op = op; message = msg message; cookies = cookies }) (ans result) }
    ensures owes { Owes mgmt_table op (msg message) (ans result) }
    ensures told { ans result ≡ cancelled → P.told probe.new ≡ true }
    ensures key { P.key probe.new ≡ P.key probe.old }
{
    let (Ok(ids), Ok(tally)) = (ids.copy(alloc), Arc::try_clone(tally)) else {
        return Answer::Fault(Status::NCA_S_FAULT_REMOTE_NO_MEMORY);
    };
    let mut desk = MgmtDesk::new(alloc, Ids::from_items(ids), tally);
    desk.call(iface, op, message, cookies, probe)
}

/// Management runs down a handle, of which it keeps nothing.
pub(crate) fn run_down_managed(alloc: Global, due: Due) {
    let none = Ids::from_items(Items::new(alloc));
    let mut desk = MgmtDesk::new(alloc, none, Counted::new());
    due.spend(&mut desk);
}
