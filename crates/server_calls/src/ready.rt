//! What is made ready for a call before it is accepted.
ghost use Rattle.std.specs.Prelude.{◌≡◌, IfOk};
ghost use Rattle.conn_histories.specs.Entries.{asked_as as asked_as_spec};
ghost use Rattle.manager_api.specs.Served.{tables_in};
ghost use Rattle.server_calls.specs.Suited.{Opened};
ghost use Rattle.server_calls.specs.Ready.{request_of, ComesReady, IsReady};

use crate::{Room, message_of, slots_of};
use handle_model::{Asked, Slots};
use manager_api::Served;
use ndr_value::Message;
use pdu_stream::Joined;
use rpc_base::{NoMemory, Status};
use std::alloc::Global;

/// All that the call of a request needs of memory until its end's octets are made: what is asked, once for its group
/// and once for its end; its message, once for its manager and once for its end; and the room for its results.
#[derive(Drop)]
pub struct Ready {
    /// For the group.
    pub given: Asked,
    /// For the end.
    pub asked: Asked,
    /// For the manager.
    pub message: Message,
    /// For the end.
    pub again: Message,
    pub room: Room,
}

/// A request as it is accepted of a connection.
fn asked_as(conn: u32, joined: Joined, iface: u16, slots: Slots) -> Asked
    ensures { result ≡ asked_as_spec conn (request_of joined iface) slots }
{
    Asked {
        conn,
        iface,
        op: joined.op,
        order: joined.order,
        reply: !joined.maybe,
        slots,
        stub: joined.stub,
    }
}

/// The same with the messages and the room.
fn with_messages(alloc: Global, served: &Served, given: Asked) -> Result<Ready, NoMemory>
    requires { Opened (tables_in served.now) given.iface given.op given.order given.stub given.slots }
    ensures { IfOk result (λ r. IsReady (tables_in served.now) given r) }
{
    let message = message_of(alloc, served, &given)?;
    let again = message_of(alloc, served, &given)?;
    let asked = given.copy(alloc)?;
    let room = Room::new(alloc)?;
    Ok(Ready {
        given,
        asked,
        message,
        again,
        room,
    })
}

/// Makes a request of a connection ready to be accepted, for the operation of an interface, by their numbers.
///
/// # Errors
///
/// The status that the request is refused with, in this order: there is no such operation; its octets are no stub, by
/// the first departure; memory ran out (C706, "Reject Status Codes").
pub fn prepared(
    alloc: Global,
    served: &Served,
    conn: u32,
    joined: Joined,
    iface: u16,
) -> Result<Ready, Status>
    ensures { ComesReady (tables_in served.now) conn joined iface result }
{
    let stub = joined.stub.as_slice();
    let slots = match slots_of(alloc, served, iface, joined.op, joined.order, stub) {
        Ok(slots) => slots,
        Err(status) => return Err(status),
    };
    match with_messages(alloc, served, asked_as(conn, joined, iface, slots)) {
        Ok(ready) => Ok(ready),
        Err(NoMemory) => Err(Status::NCA_S_FAULT_REMOTE_NO_MEMORY),
    }
}
