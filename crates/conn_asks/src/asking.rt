//! What a PDU asks.
ghost use Rattle.std.specs.Prelude.{◌≡◌, ◌<◌, ◌+◌, ◌≤◌, length, IfOk, IfSome};
ghost use Rattle.pdu_codec.specs.Constants.{header_size};
ghost use Rattle.conn_asks.specs.Asks as spec;
ghost use Rattle.conn_asks.specs.Asking.{FindsRequest, Finds, IsAnswerable};

use crate::{Ask, Caller, ConnFault};
use pdu_codec::{
    AlterBody, BindBody, Body, LEAST_FRAGMENT, Pdu, PduFault, RequestBody, ptypes, raw_head,
};
use pdu_stream::{JoinFault, Joiner};
use rpc_base::NoMemory;

fn of_bind(bound: bool, caller: Caller, flags: u8, body: BindBody) -> Ask
    ensures ask { result ≡ spec.of_bind bound caller flags body }
    ensures few { length body.elements < 256 → IsAnswerable result }
{
    if bound {
        Ask::Broken(caller, ConnFault::Rebound)
    } else if body.max_recv < LEAST_FRAGMENT {
        Ask::Broken(caller, ConnFault::Nak(0))
    } else {
        Ask::Bind(caller, flags, body)
    }
}

fn of_alter(bound: bool, caller: Caller, body: AlterBody) -> Ask
    ensures ask { result ≡ spec.of_alter bound caller body }
    ensures few { length body.elements < 256 → IsAnswerable result }
{
    if bound {
        Ask::Alter(caller, body)
    } else {
        Ask::Broken(caller, ConnFault::Unbound)
    }
}

fn of_request(
    bound: bool,
    joiner: &mut Joiner,
    flags: u8,
    caller: Caller,
    part: RequestBody,
) -> Result<Option<Ask>, NoMemory>
    requires { caller.context ≡ part.context }
    ensures few { IfOk result (λ ask. IfSome ask IsAnswerable) }
    ensures found { FindsRequest bound joiner.old (record { order = caller.order; flags = flags; call_id = caller.call_id; part = part }) result joiner.new }
{
    if !bound {
        return Ok(Some(Ask::Broken(caller, ConnFault::Unbound)));
    }
    match joiner.add(caller.order, flags, caller.call_id, part) {
        Ok(None) => Ok(None),
        Ok(Some(joined)) => Ok(Some(Ask::Call(joined))),
        Err(JoinFault::Memory) => Err(NoMemory),
        Err(fault) => Ok(Some(Ask::Broken(caller, ConnFault::Join(fault)))),
    }
}

fn is_called(id: u32, called: Option<u32>) -> bool
    ensures { result ≡ spec.is_called id called }
{
    match called {
        Some(other) => other == id,
        None => false,
    }
}

/// What the PDU asks: given whether a bind came, and the call that was asked last, where only cancels
/// and orphanings were asked since.
///
/// # Errors
///
/// `NoMemory` where there is no memory to join a fragment, or for what is asked.
pub fn ask(
    bound: bool,
    called: Option<u32>,
    joiner: &mut Joiner,
    pdu: Pdu,
) -> Result<Option<Ask>, NoMemory>
    ensures found { Finds bound joiner.old called pdu result joiner.new }
    ensures few { length (spec.offered_by pdu.body) < 256 → IfOk result (λ ask. IfSome ask IsAnswerable) }
{
    let Pdu {
        minor: _,
        flags,
        order,
        call_id,
        body,
    } = pdu;
    let caller = Caller {
        order,
        call_id,
        context: 0,
    };
    match body {
        Body::Bind(body) => Ok(Some(of_bind(bound, caller, flags, body))),
        Body::Alter(body) => Ok(Some(of_alter(bound, caller, body))),
        Body::Request(part) => {
            let caller = Caller {
                order,
                call_id,
                context: part.context,
            };
            of_request(bound, joiner, flags, caller, part)
        }
        Body::CoCancel => {
            joiner.mark(call_id);
            Ok(is_called(call_id, called).then(|| Ask::Cancel(call_id)))
        }
        Body::Orphaned => {
            joiner.drop_call(call_id);
            Ok(is_called(call_id, called).then(|| Ask::Orphan(call_id)))
        }
        _ => Ok(Some(Ask::Broken(caller, ConnFault::Direction))),
    }
}

fn reason(fault: PduFault) -> u16
    ensures { result ≡ spec.nak_reason fault }
{
    match fault {
        PduFault::Version => 4,
        _ => 0,
    }
}

/// Whom octets with that fault have to be answered, and what breaks the protocol.
pub fn broken(octets: &[u8], fault: PduFault) -> (Caller, ConnFault)
    requires { header_size ≤ length octets.now }
    ensures { result ≡ (spec.caller_at octets.now, spec.broken_by octets.now fault) }
{
    let head = raw_head(octets);
    let caller = Caller {
        order: head.order,
        call_id: head.call_id,
        context: 0,
    };
    let why = if head.kind == ptypes::BIND {
        ConnFault::Nak(reason(fault))
    } else {
        ConnFault::Pdu(fault)
    };
    (caller, why)
}
