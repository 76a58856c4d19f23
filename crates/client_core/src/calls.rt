//! Calls that begin.
ghost use Rattle.std.specs.Prelude.{◌≡◌, ◌≤◌, ◌<◌, ◌^◌, ◌↔◌, Some, None, Ok, length, slice_get, IfOk, IsTrue};
ghost use Rattle.rpc_base.specs.declared.identifiers.Order.TheVariants.{Little};
ghost use Rattle.ndr_value.specs.Values.{Msg, msg};
ghost use Rattle.ndr_table.specs.Shown.{shown};
ghost use Rattle.ndr_table.specs.Tables.{OpForm};
ghost use Rattle.ndr_model.specs.declared.way.Way.TheVariants as ways;
ghost use Rattle.ndr_model.specs.Message.{IsStub};
ghost use Rattle.ndr_codec.specs.Encoded.{Encodes};
ghost use Rattle.client_core.specs.Calls.{IsMessage, asking, out_call};
ghost use Rattle.client_core.specs.Octets.{IsRequest};
ghost use Rattle.client_core.specs.States.{calling, next_id};
ghost use Rattle.std.specs.Option.{option_map};
ghost use Rattle.client_core.specs.State.{state};
ghost use Rattle.client_core.specs.Parts.{HasOp, Finds, CallsEach, ReadsRequest};

use crate::{CallOut, Client, Request};
use ndr_codec::{EncodeFault, NdrFault, Way, decode, encode, fits};
use ndr_laws::written_is_stub;
use ndr_table::Table;
use ndr_value::Message;
use pdu_stream::Joiner;
use rpc_base::{NoMemory, Octets, Order};
use std::alloc::Global;

/// The canonical octets of a message of the operation are a stub of it.
fn stands(table: &Table, op: u16, message: &Message, stub: &[u8])
    requires message { IsMessage (shown table.now) op (msg message.now) }
    requires stub { (o : OpForm) → slice_get (shown table.now).ops op ≡ Some o → stub.now ≡ asking (shown table.now) o (msg message.now) }
    requires short { (o : OpForm) → slice_get (shown table.now).ops op ≡ Some o → length (asking (shown table.now) o (msg message.now)) ≤ 2 ^ 26 }
    ensures is { (o : OpForm) → slice_get (shown table.now).ops op ≡ Some o → IsStub (shown table.now).types o ways.Request Little None (msg message.now) stub.now }
    ensures short { length stub.now ≤ 2 ^ 26 }
{
    table.is_whole();
    table.is_shallow();
    written_is_stub();
}

/// Whether the message is one of the operation, as a request.
fn is_message(alloc: Global, table: &Table, op: u16, message: &Message) -> Result<bool, NoMemory>
    requires { op < length (shown table.now).ops }
    ensures { IfOk result (λ is. IsTrue is ↔ IsMessage (shown table.now) op (msg message.now)) }
{
    fits(alloc, table, op, Way::Request, None, message)
}

/// What was found of a call is what it begins with.
fn finds(
    client: &Client,
    op: u16,
    message: &Message,
    maybe: bool,
    stub: &[u8],
    octets: &Octets,
    call: &Option<CallOut>,
)
    requires maybe { (o : OpForm) → slice_get (state client.now).interface.ops op ≡ Some o → maybe ≡ o.maybe }
    requires stub { (o : OpForm) → slice_get (state client.now).interface.ops op ≡ Some o → stub.now ≡ asking (state client.now).interface o (msg message.now) }
    requires short { length stub.now ≤ 2 ^ 26 }
    requires request { IsRequest (next_id (state client.now)) op maybe (state client.now).most stub.now octets.now }
    requires call { (o : OpForm) → slice_get (state client.now).interface.ops op ≡ Some o → option_map calling call.now ≡ out_call (state client.now) op (msg message.now) maybe }
    requires known { HasOp (state client.now).interface call.now }
    ensures { Finds (state client.now) op (msg message.now) (Ok (octets.now, call.now)) }
{}

impl Client {
    /// Begins a call: the octets of its request.
    pub(crate) fn begin(&mut self, op: u16, message: &Message) -> Result<Octets, EncodeFault>
        requires op { op < length (state self.old).interface.ops }
        requires message { IsMessage (state self.old).interface op (msg message.now) }
        ensures { CallsEach (state self.old) op (msg message.now) result (state self.new) }
    {
        let (octets, call) = self.begun(op, message)?;
        self.start(call);
        Ok(octets)
    }

    /// The call is out, if it wants an answer.
    fn start(&mut self, call: Option<CallOut>)
        requires { HasOp (state self.old).interface call }
        ensures { state self.new ≡ record (state self.old) { newest = next_id (state self.old); call = option_map calling call } }
    {
        self.newest = self.next_id();
        self.call = call;
    }

    /// The octets of a call's request, and the call, unless nobody waits for an answer.
    fn begun(&self, op: u16, message: &Message) -> Result<(Octets, Option<CallOut>), EncodeFault>
        requires op { op < length (state self.now).interface.ops }
        requires message { IsMessage (state self.now).interface op (msg message.now) }
        ensures finds { Finds (state self.now) op (msg message.now) result }
        ensures known { IfOk result (λ begun. HasOp (state self.now).interface begun.1) }
    {
        let maybe = self.is_maybe(op);
        let encoded = self.stub_of(op, message)?;
        let stub = encoded.as_slice();
        let Ok(octets) = self.request(op, maybe, stub) else {
            return Err(EncodeFault::Memory);
        };
        let Ok(call) = self.call_out(op, message, maybe, stub) else {
            return Err(EncodeFault::Memory);
        };
        finds(self, op, message, maybe, stub, &octets, &call);
        Ok((octets, call))
    }

    /// The call id of what is begun next.
    fn next_id(&self) -> u32
        ensures { result ≡ next_id (state self.now) }
    {
        self.newest.wrapping_add(1)
    }

    /// The octets of a request with the stub data.
    fn request(&self, op: u16, maybe: bool, stub: &[u8]) -> Result<Octets, NoMemory>
        requires { length stub.now ≤ 2 ^ 26 }
        ensures { IfOk result (λ octets. IsRequest (next_id (state self.now)) op maybe (state self.now).most stub.now octets) }
    {
        let request = Request {
            call_id: self.next_id(),
            op,
            maybe,
        };
        request.octets(self.alloc, self.most, stub)
    }

    /// The call with that stub data, unless nobody waits for an answer.
    fn call_out(
        &self,
        op: u16,
        message: &Message,
        maybe: bool,
        stub: &[u8],
    ) -> Result<Option<CallOut>, NoMemory>
        requires op { op < length (state self.now).interface.ops }
        requires is { (o : OpForm) → slice_get (state self.now).interface.ops op ≡ Some o → IsStub (state self.now).interface.types o ways.Request Little None (msg message.now) stub.now }
        ensures call { (o : OpForm) → slice_get (state self.now).interface.ops op ≡ Some o → IfOk result (λ call. option_map calling call ≡ out_call (state self.now) op (msg message.now) maybe) }
        ensures known { IfOk result (λ call. HasOp (state self.now).interface call) }
    {
        if maybe {
            return Ok(None);
        }
        let asked = self.asked(op, stub)?;
        Ok(Some(CallOut {
            call_id: self.next_id(),
            op,
            message: asked,
            joiner: Joiner::new(),
        }))
    }

    /// Whether the message is one of the operation of that number, as a request.
    ///
    /// # Errors
    ///
    /// `NoMemory` where there is no memory to find out, as `ndr_codec::fits` says.
    pub fn takes(&self, op: u16, message: &Message) -> Result<bool, NoMemory>
        ensures { IfOk result (λ takes. IsTrue takes ↔ IsMessage (state self.now).interface op (msg message.now)) }
    {
        match self.table.op(op) {
            None => Ok(false),
            Some(_) => is_message(self.alloc, &self.table, op, message),
        }
    }

    /// Whether nobody waits for an answer of the operation.
    fn is_maybe(&self, op: u16) -> bool
        requires { op < length (state self.now).interface.ops }
        ensures { (o : OpForm) → slice_get (state self.now).interface.ops op ≡ Some o → result ≡ o.maybe }
    {
        match self.table.op(op) {
            Some(op) => op.maybe,
            None => unreachable!(),
        }
    }

    /// The stub data of a request: its message's canonical octets.
    fn stub_of(&self, op: u16, message: &Message) -> Result<Octets, EncodeFault>
        requires op { op < length (state self.now).interface.ops }
        requires message { IsMessage (state self.now).interface op (msg message.now) }
        ensures stub { (o : OpForm) → slice_get (state self.now).interface.ops op ≡ Some o → IfOk result (λ stub. stub ≡ asking (state self.now).interface o (msg message.now)) }
        ensures exact { (o : OpForm) → slice_get (state self.now).interface.ops op ≡ Some o → Encodes result (length (asking (state self.now).interface o (msg message.now))) }
        ensures short { IfOk result (λ stub. length stub ≤ 2 ^ 26) }
        ensures is { (o : OpForm) → slice_get (state self.now).interface.ops op ≡ Some o → IfOk result (λ stub. IsStub (state self.now).interface.types o ways.Request Little None (msg message.now) stub) }
    {
        let (way, order) = (Way::Request, Order::Little);
        let mut stub = Vec::new(self.alloc);
        encode(&self.table, op, way, order, None, message, &mut stub)?;
        stands(&self.table, op, message, &stub);
        Ok(Octets::from_vec(stub))
    }

    /// The message of a request, read from its stub data.
    fn asked(&self, op: u16, stub: &[u8]) -> Result<Message, NoMemory>
        requires op { op < length (state self.now).interface.ops }
        requires is { (o : OpForm) → slice_get (state self.now).interface.ops op ≡ Some o → (m : Msg) × IsStub (state self.now).interface.types o ways.Request Little None m stub.now }
        ensures { ReadsRequest (state self.now).interface op stub.now result }
    {
        match decode(
            self.alloc,
            &self.table,
            op,
            Way::Request,
            Order::Little,
            None,
            stub,
        ) {
            Ok(message) => Ok(message),
            Err(NdrFault::Memory) => Err(NoMemory),
            Err(_) => unreachable!(),
        }
    }
}
