//! Messages that are read from stub data.
ghost use Rattle.std.specs.Prelude.{◌≡◌, ◌<◌, length, slice_get, map, IfOk, IfErr, Option, Some, None};
ghost use Rattle.ndr_value.specs.Values.{Msg, msg};
ghost use Rattle.ndr_table.specs.Shown.{shown};
ghost use Rattle.ndr_table.specs.Tables.{OpForm, op_form};
ghost use Rattle.ndr_model.specs.Message.{IsStub, read_stub};
ghost use Rattle.ndr_model.specs.Stub.{start};
ghost use Rattle.ndr_model.specs.Message as model;
ghost use Rattle.ndr_model.specs.Fits.{IsOfOp};
ghost use Rattle.ndr_faults.specs.Off.{HasCause};
ghost use Rattle.ndr_agree.specs.Views.{asked_of};
ghost use Rattle.ndr_read.specs.Views.{last_of};
ghost use Rattle.ndr_codec.specs.Faults.{Decodes, IsThat};

use crate::fault::unread;
use ndr_agree::{Call, first_off};
use ndr_model::{NdrFault, Way};
use ndr_read::{Tail, read};
use ndr_table::{Op, Table};
use ndr_value::Message;
use rpc_base::Order;
use std::alloc::Global;

// What was read, where its counts, tags and ranges agree with what names them.
fn compared(
    table: &Table,
    op: &Op,
    way: Way,
    asked: Option<&Message>,
    message: Message,
    tail: &Tail<'_>,
) -> Result<Message, NdrFault>
    ensures { Decodes result (model.compared (shown table.now).types (op_form op.now) way (asked_of (λ m. m.now) asked.entry) (last_of tail.now).marks (msg message)) }
{
    let call = Call {
        table,
        op,
        way,
        asked,
        said: &message,
    };
    match first_off(&call, tail.marks()) {
        None => Ok(message),
        Some(departure) => Err(NdrFault::of(departure)),
    }
}

// As `decode_op`, with what is kept while the stub is read.
fn decode_by<'a>(
    alloc: Global,
    table: &'a Table,
    op: &'a Op,
    way: Way,
    order: Order,
    asked: Option<&Message>,
    stub: &'a [u8],
    tail: &mut Tail<'a>,
) -> Result<Message, NdrFault>
    requires { last_of tail.old ≡ start }
    ensures { Decodes result (read_stub (shown table.now).types (op_form op.now) way order (asked_of (λ m. m.now) asked.entry) stub.now) }
{
    match read(alloc, table, op, way, order, stub, tail) {
        Err(error) => Err(unread(error)),
        Ok(message) => compared(table, op, way, asked, message, tail),
    }
}

pub(crate) fn decode_op(
    alloc: Global,
    table: &Table,
    op: &Op,
    way: Way,
    order: Order,
    asked: Option<&Message>,
    stub: &[u8],
) -> Result<Message, NdrFault>
    ensures { Decodes result (read_stub (shown table.now).types (op_form op.now) way order (asked_of (λ m. m.now) asked.entry) stub.now) }
{
    let mut tail = Tail::new(alloc);
    decode_by(alloc, table, op, way, order, asked, stub, &mut tail)
}

/// The message of the operation of that number that has the octets as its stub of that way. `asked` is
/// the request, for a response: a count or a switch that is named after a parameter that doesn't come
/// out is compared with the request's. C706, chapter "Transfer Syntax NDR".
///
/// # Errors
///
/// The first departure, where the octets are a stub of no message, by its cause; or want of memory.
pub fn decode(
    alloc: Global,
    table: &Table,
    op: u16,
    way: Way,
    order: Order,
    asked: Option<&Message>,
    stub: &[u8],
) -> Result<Message, NdrFault>
    requires { op < length (shown table.now).ops }
    // What is decoded has the octets as a stub, and what has them is decoded.
    ensures found { IfOk result (λ m. (o : OpForm) → slice_get (shown table.now).ops op ≡ Some o → IsStub (shown table.now).types o way order (asked_of (λ m. m.now) asked.entry) (msg m) stub.now) }
    ensures only { (o : OpForm) (m : Msg) → slice_get (shown table.now).ops op ≡ Some o → IsStub (shown table.now).types o way order (asked_of (λ m. m.now) asked.entry) m stub.now → IsThat result m }
    // It is of the operation, by its values.
    ensures of_op { IfOk result (λ m. (o : OpForm) → slice_get (shown table.now).ops op ≡ Some o → IsOfOp (shown table.now).types o way (asked_of (λ m. m.now) asked.entry) (msg m)) }
    // Which departure it is.
    ensures exact { (o : OpForm) → slice_get (shown table.now).ops op ≡ Some o → Decodes result (read_stub (shown table.now).types o way order (asked_of (λ m. m.now) asked.entry) stub.now) }
    // Its cause: what stands at its index, or which number should equal another.
    ensures cause { IfErr result (λ f. (o : OpForm) → slice_get (shown table.now).ops op ≡ Some o → HasCause (shown table.now).types o way order (asked_of (λ m. m.now) asked.entry) stub.now f) }
{
    // What holds of every table.
    table.is_whole();
    table.is_shallow();
    table.is_sound();
    decode_at(alloc, table, op, way, order, asked, stub)
}

fn decode_at(
    alloc: Global,
    table: &Table,
    op: u16,
    way: Way,
    order: Order,
    asked: Option<&Message>,
    stub: &[u8],
) -> Result<Message, NdrFault>
    requires { op < length (shown table.now).ops }
    ensures { (o : OpForm) → slice_get (shown table.now).ops op ≡ Some o → Decodes result (read_stub (shown table.now).types o way order (asked_of (λ m. m.now) asked.entry) stub.now) }
{
    match table.op(op) {
        None => Err(NdrFault::Memory),
        Some(op) => decode_op(alloc, table, op, way, order, asked, stub),
    }
}
