//! Reads what a call asks.
ghost use Rattle.std.specs.Prelude.{◌≡◌, ◌∷◌, [], IfOk};
ghost use Rattle.base_words.specs.Reads.{Reads};
ghost use Rattle.journal_text.specs.Texts as spec;
ghost use Rattle.journal_reader.specs.Fits.{FitsOperation, FitsAsked};
ghost use Rattle.journal_reader.specs.Parts as parts;

use crate::cut::{cut_six, cut_two};
use crate::list::read_slots;
use crate::part::{read_order, read_reply};
use base_words::{read_octets, read_u16, read_u32};
use handle_model::Asked;
use rpc_base::NoMemory;
use std::alloc::Global;

fn operation_of(iface: &[u8], op: &[u8]) -> Option<(u16, u16)>
    ensures { Reads FitsOperation parts.operation_parts (iface.now ∷ op.now ∷ []) result }
{
    let iface = read_u16(iface)?;
    let op = read_u16(op)?;
    Some((iface, op))
}

/// The numbers of an interface and of its operation.
fn read_operation(text: &[u8]) -> Option<(u16, u16)>
    ensures { Reads FitsOperation parts.operation_text text.now result }
{
    let (iface, op) = cut_two(b'.', text)?;
    operation_of(iface, op)
}

pub(crate) fn asked_of(
    alloc: Global,
    conn: &[u8],
    operation: &[u8],
    order: &[u8],
    reply: &[u8],
    slots: &[u8],
    stub: &[u8],
) -> Result<Option<Asked>, NoMemory>
    ensures { IfOk result (Reads FitsAsked parts.asked_parts
        (conn.now ∷ operation.now ∷ order.now ∷ reply.now ∷ slots.now ∷ stub.now ∷ [])) }
{
    let Some(conn) = read_u32(conn) else {
        return Ok(None);
    };
    let Some((iface, op)) = read_operation(operation) else {
        return Ok(None);
    };
    let Some(order) = read_order(order) else {
        return Ok(None);
    };
    let Some(reply) = read_reply(reply) else {
        return Ok(None);
    };
    let Some(slots) = read_slots(alloc, slots)? else {
        return Ok(None);
    };
    let Some(stub) = read_octets(alloc, stub)? else {
        return Ok(None);
    };
    Ok(Some(Asked {
        conn,
        iface,
        op,
        order,
        reply,
        slots,
        stub,
    }))
}

/// What a call asks, by its six words.
pub(crate) fn read_asked(alloc: Global, text: &[u8]) -> Result<Option<Asked>, NoMemory>
    ensures { IfOk result (Reads FitsAsked spec.asked_text text.now) }
{
    let Some((conn, operation, order, reply, slots, stub)) = cut_six(b' ', text) else {
        return Ok(None);
    };
    asked_of(alloc, conn, operation, order, reply, slots, stub)
}
