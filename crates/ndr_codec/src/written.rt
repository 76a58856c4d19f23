//! Messages that are written as stub data.
ghost use Rattle.std.specs.Prelude.{◌≡◌, ◌<◌, ◌++◌, length, slice_get, OnOk, OnErr, Some};
ghost use Rattle.ndr_value.specs.Values.{msg};
ghost use Rattle.ndr_table.specs.Shown.{shown};
ghost use Rattle.ndr_table.specs.Tables.{OpForm};
ghost use Rattle.ndr_agree.specs.Views.{asked_of, types_in, call_of};
ghost use Rattle.ndr_model.specs.Written.{stub};
ghost use Rattle.ndr_codec.specs.Encoded.{Encodes};
ghost use Rattle.ndr_codec.specs.Messages.{WhereOp};

use ndr_agree::Call;
use ndr_model::Way;
use ndr_table::Table;
use ndr_value::Message;
use ndr_write::write;
use rpc_base::{NoMemory, Order};

// The most octets of a stub.
const STUB_LIMIT: usize = 1 << 26;

/// Why a message isn't written.
#[derive(Clone, Copy, Debug, PartialEq, Eq)]
pub enum EncodeFault {
    /// Its canonical octets are more than 67,108,864.
    TooLong,
    /// There is no memory for them.
    Memory,
}

fn write_all(call: &Call<'_>, order: Order, into: &mut Vec<u8>) -> Result<(), EncodeFault>
    ensures ok { OnOk result (into.new.items ≡ into.old.items ++ stub (types_in call.now) (call_of call.now).op (call_of call.now).way order (call_of call.now).asked (call_of call.now).said) }
    ensures exact { Encodes result (length (stub (types_in call.now) (call_of call.now).op (call_of call.now).way order (call_of call.now).asked (call_of call.now).said)) }
    ensures err { OnErr result (into.new.items ≡ into.old.items) }
{
    let start = into.len();
    if let Err(NoMemory) = write(call, order, into) {
        return Err(EncodeFault::Memory);
    }
    if into.len() - start > STUB_LIMIT {
        into.truncate(start);
        return Err(EncodeFault::TooLong);
    }
    Ok(())
}

/// Adds the canonical octets of a message of the operation of that number as stub data of that way:
/// gaps are zeros, and pointers are numbered in the order of the octets. `asked` is the request, for a
/// response. At a refusal `into` is as before. C706, chapter "Transfer Syntax NDR".
///
/// # Errors
///
/// `TooLong` where the octets are more than a stub may have; or want of memory.
pub fn encode(
    table: &Table,
    op: u16,
    way: Way,
    order: Order,
    asked: Option<&Message>,
    message: &Message,
    into: &mut Vec<u8>,
) -> Result<(), EncodeFault>
    requires { op < length (shown table.now).ops }
    ensures ok { WhereOp table.now op (λ types o. OnOk result (into.new.items ≡ into.old.items ++ stub types o way order (asked_of (λ m. m.now) asked.entry) (msg message.now))) }
    // Which refusal it is.
    ensures exact { (o : OpForm) → slice_get (shown table.now).ops op ≡ Some o → Encodes result (length (stub (shown table.now).types o way order (asked_of (λ m. m.now) asked.entry) (msg message.now))) }
    ensures err { OnErr result (into.new.items ≡ into.old.items) }
{
    match table.op(op) {
        None => Err(EncodeFault::Memory),
        Some(op) => {
            let call = Call {
                table,
                op,
                way,
                asked,
                said: message,
            };
            write_all(&call, order, into)
        }
    }
}
