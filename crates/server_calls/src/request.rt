//! What a request comes to, and the message of a call.
ghost use Rattle.std.specs.Prelude.{◌≡◌, IfOk, List, slice_get, Some};
ghost use Rattle.ndr_value.specs.Values.{msg};
ghost use Rattle.ndr_table.specs.Shown.{shown};
ghost use Rattle.ndr_table.specs.Tables.{TableForm};
ghost use Rattle.conn_histories.specs.Requests.{HasSlots, IsAsked};
ghost use Rattle.manager_api.specs.Served.{tables_in};
ghost use Rattle.server_calls.specs.Suited.{ComesTo};

use crate::slots::slots_for;
use handle_model::{Asked, Slots};
use manager_api::Served;
use ndr_codec::{Way, decode};
use ndr_table::Table;
use ndr_value::Message;
use rpc_base::{NoMemory, Order, Status};
use std::alloc::Global;

// The same at the table of the interface.
fn slots_at(
    alloc: Global,
    table: &Table,
    iface: u16,
    op: u16,
    order: Order,
    stub: &[u8],
) -> Result<Slots, Status>
    ensures { (tables : List TableForm) → slice_get tables iface ≡ Some (shown table.now) → ComesTo tables iface op order stub.now result }
{
    let Some(uses) = table.handle_uses(op) else {
        return Err(Status::NCA_S_OP_RNG_ERROR);
    };
    if op >= table.op_count() {
        return Err(Status::NCA_S_OP_RNG_ERROR);
    }
    table.is_whole();
    match decode(alloc, table, op, Way::Request, order, None, stub) {
        Err(fault) => Err(fault.status()),
        Ok(message) => {
            let wires = message.wires.as_slice();
            match slots_for(alloc, iface, uses.as_slice(), wires) {
                Ok(slots) => Ok(slots),
                Err(NoMemory) => Err(Status::NCA_S_FAULT_REMOTE_NO_MEMORY),
            }
        }
    }
}

/// The slots of a request for the operation of an interface, by their numbers, before the handles that
/// it may issue are numbered.
///
/// # Errors
///
/// The status that the request is refused with, in this order: there is no such operation; its octets
/// are no stub, by the first departure; memory ran out (C706, "Reject Status Codes").
pub fn slots_of(
    alloc: Global,
    served: &Served,
    iface: u16,
    op: u16,
    order: Order,
    stub: &[u8],
) -> Result<Slots, Status>
    ensures { ComesTo (tables_in served.now) iface op order stub.now result }
{
    match served.table(iface) {
        None => Err(Status::NCA_S_OP_RNG_ERROR),
        Some(table) => slots_at(alloc, table, iface, op, order, stub),
    }
}

/// The message of a call that was accepted.
///
/// # Errors
///
/// `NoMemory` where there is no memory for it.
pub fn message_of(alloc: Global, served: &Served, asked: &Asked) -> Result<Message, NoMemory>
    requires { HasSlots (tables_in served.now) asked.now.iface asked.now.op asked.now.order asked.now.stub asked.now.slots }
    ensures { IfOk result (λ m. IsAsked (tables_in served.now) asked.now.iface asked.now.op asked.now.order asked.now.stub (msg m)) }
{
    let Some(table) = served.table(asked.iface) else {
        unreachable!()
    };
    let stub = asked.stub.as_slice();
    match decode(
        alloc,
        table,
        asked.op,
        Way::Request,
        asked.order,
        None,
        stub,
    ) {
        Ok(message) => Ok(message),
        Err(_) => Err(NoMemory),
    }
}
