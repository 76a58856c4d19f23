//! Responses to the call that is out.
ghost use Rattle.std.specs.Prelude.{◌≡◌, ◌<◌, true, is_some, length, IfOk};
ghost use Rattle.std.specs.Option.{option_map};
ghost use Rattle.ndr_value.specs.Values.{msg};
ghost use Rattle.ndr_table.specs.Shown.{shown};
ghost use Rattle.ndr_table.specs.Tables.{TableForm};
ghost use Rattle.client_core.specs.States.{calling};
ghost use Rattle.client_core.specs.Hears.{fragment_of};
ghost use Rattle.client_core.specs.Parts.{HasOp, JoinsOut, ReadsStub};
ghost use Rattle.client_core.specs.Answers.{IsOfCall};

use crate::CallOut;
use ndr_codec::{NdrFault, Way, decode};
use ndr_table::Table;
use ndr_value::Message;
use pdu_codec::{RequestBody, ResponseBody};
use pdu_stream::{JoinFault, Joined};
use rpc_base::Order;
use std::alloc::Global;

/// Joins a fragment of the response to the call that is out.
pub(crate) fn join_to(
    call: &mut Option<CallOut>,
    order: Order,
    flags: u8,
    call_id: u32,
    body: ResponseBody,
) -> Result<Option<Joined>, JoinFault>
    requires { is_some call.old ≡ true }
    ensures joins { JoinsOut (option_map calling call.old) (fragment_of order flags call_id body) result (option_map calling call.new) }
    ensures op { (interface : TableForm) → HasOp interface call.old → HasOp interface call.new }
{
    let part = RequestBody {
        alloc_hint: body.alloc_hint,
        context: body.context,
        op: 0,
        object: None,
        stub: body.stub,
    };
    match call {
        Some(call) => call.joiner.add(order, flags, call_id, part),
        None => unreachable!(),
    }
}

/// The message of a whole response to the call.
pub(crate) fn read_response(
    alloc: Global,
    table: &Table,
    call: &CallOut,
    joined: &Joined,
) -> Result<Message, NdrFault>
    requires { call.now.op < length (shown table.now).ops }
    ensures reads { ReadsStub (shown table.now) (calling call.now) joined.now result }
    ensures of_op { IfOk result (λ m. IsOfCall (shown table.now) (calling call.now) (msg m)) }
{
    let (way, asked) = (Way::Response, Some(&call.message));
    let stub = joined.stub.as_slice();
    decode(alloc, table, call.op, way, joined.order, asked, stub)
}
