//! Which messages are of an operation.
ghost use Rattle.std.specs.Prelude.{◌≡◌, ◌<◌, ◌↔◌, IsTrue, false, length, IfOk};
ghost use Rattle.rpc_base.specs.declared.identifiers.Order.TheVariants.{Little};
ghost use Rattle.ndr_value.specs.Values.{msg};
ghost use Rattle.ndr_table.specs.Shown.{shown};
ghost use Rattle.ndr_laws.specs.Laws.{IsOp};
ghost use Rattle.ndr_model.specs.Fits.{IsOfOp};
ghost use Rattle.ndr_agree.specs.Views.{asked_of, types_in, call_of};
ghost use Rattle.ndr_model.specs.declared.fault.NdrFault.TheVariants.{Memory};
ghost use Rattle.ndr_codec.specs.Messages.{WhereOp, WhereStub, HasStub, IsStubOf, IsSaidOf, stub_of};

use crate::stub::decode_op;
use ndr_agree::{Call, same_message};
use ndr_model::{NdrFault, Way};
use ndr_table::Table;
use ndr_value::Message;
use ndr_write::write;
use rpc_base::{NoMemory, Order};
use std::alloc::Global;

// In so many octets there are ids enough for each pointer.
const IDS_SUFFICE: usize = 1 << 31;

// What departs is a stub of no message.
fn no_message(fault: NdrFault) -> Result<bool, NoMemory>
    ensures { IfOk result (λ b. (b ≡ false) × (fault ≡ Memory → ⊥)) }
{
    match fault {
        NdrFault::Memory => Err(NoMemory),
        NdrFault::Short(_) => Ok(false),
        NdrFault::Bound(_) => Ok(false),
        NdrFault::Tag(_) => Ok(false),
        NdrFault::Pointer(_) => Ok(false),
        NdrFault::Text(_) => Ok(false),
        NdrFault::TooDeep(_) => Ok(false),
        NdrFault::Trailing(_) => Ok(false),
    }
}

// Whether the octets are a stub of the message.
fn is_stub_of(alloc: Global, call: &Call<'_>, octets: &[u8]) -> Result<bool, NoMemory>
    ensures exact { IfOk result (λ b. IsOp (types_in call.now) (call_of call.now).op → IsTrue b ↔ IsStubOf call.now Little octets.now) }
    ensures of_op { IsStubOf call.now Little octets.now → IsSaidOf call.now }
{
    match decode_op(
        alloc,
        call.table,
        call.op,
        call.way,
        Order::Little,
        call.asked,
        octets,
    ) {
        Ok(message) => Ok(same_message(&message, call.said)),
        Err(fault) => no_message(fault),
    }
}

// Whether the message has its canonical octets as a stub.
fn fits_call(alloc: Global, call: &Call<'_>) -> Result<bool, NoMemory>
    ensures found { IfOk result (λ b. IsOp (types_in call.now) (call_of call.now).op → IsTrue b ↔ IsStubOf call.now Little (stub_of call.now Little)) }
    ensures exact { IfOk result (λ b. IsOp (types_in call.now) (call_of call.now).op → IsTrue b ↔ IsSaidOf call.now) }
{
    let mut octets = Vec::new(alloc);
    write(call, Order::Little, &mut octets)?;
    if is_stub_of(alloc, call, octets.as_slice())? {
        return Ok(true);
    }
    if octets.len() > IDS_SUFFICE {
        return Err(NoMemory);
    }
    Ok(false)
}

fn fits_at(
    alloc: Global,
    table: &Table,
    op: u16,
    way: Way,
    asked: Option<&Message>,
    message: &Message,
) -> Result<bool, NoMemory>
    requires { op < length (shown table.now).ops }
    ensures found { IfOk result (λ b. WhereOp table.now op (λ types o. IsOp types o → IsTrue b ↔ HasStub types o way (asked_of (λ m. m.now) asked.entry) (msg message.now))) }
    ensures exact { IfOk result (λ b. WhereOp table.now op (λ types o. IsOp types o → IsTrue b ↔ IsOfOp types o way (asked_of (λ m. m.now) asked.entry) (msg message.now))) }
{
    match table.op(op) {
        None => Err(NoMemory),
        Some(op) => {
            let call = Call {
                table,
                op,
                way,
                asked,
                said: message,
            };
            fits_call(alloc, &call)
        }
    }
}

/// Whether a message is of the operation of that number, as one of that way: whether octets are its
/// stub, however many. `asked` is the request, for a response. C706, chapter "Transfer Syntax NDR".
///
/// # Errors
///
/// `NoMemory` where there is no memory for the message's canonical octets and for the message that is
/// read from them; or where it may be of another operation and they are more than 2^31.
pub fn fits(
    alloc: Global,
    table: &Table,
    op: u16,
    way: Way,
    asked: Option<&Message>,
    message: &Message,
) -> Result<bool, NoMemory>
    requires { op < length (shown table.now).ops }
    // What fits has its canonical octets as a stub, and what has any stub fits.
    ensures found { IfOk result (λ b. WhereOp table.now op (λ types o. IsTrue b ↔ HasStub types o way (asked_of (λ m. m.now) asked.entry) (msg message.now))) }
    ensures only { IfOk result (λ b. WhereStub table.now op way (asked_of (λ m. m.now) asked.entry) (msg message.now) (IsTrue b)) }
    // The same by values alone.
    ensures exact { IfOk result (λ b. WhereOp table.now op (λ types o. IsTrue b ↔ IsOfOp types o way (asked_of (λ m. m.now) asked.entry) (msg message.now))) }
{
    // What holds of every table.
    table.is_whole();
    table.is_shallow();
    fits_at(alloc, table, op, way, asked, message)
}
