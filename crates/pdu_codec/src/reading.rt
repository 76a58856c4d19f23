//! Reading PDUs.
ghost use Rattle.std.specs.Prelude.{◌≡◌, ◌≤◌, true, length, drop, IfOk, IfErr, MatchResult};
ghost use Rattle.pdu_codec.specs.Constants.{header_size};
ghost use Rattle.pdu_codec.specs.Pdus.{IsPdu};
ghost use Rattle.pdu_codec.specs.Faults.{is_known, IsFault};
ghost use Rattle.pdu_codec.specs.Reading.{Gives, body_at};

use crate::answers::{read_alter_resp, read_bind_ack, read_bind_nak};
use crate::bodies::{read_alter, read_bind, read_fault, read_request, read_response};
use crate::heads::front_head;
use crate::{Body, HEADER_SIZE, Head, Pdu, PduFault, ptypes};
use std::alloc::Global;

/// The body after a header.
#[tactic(auto, unfolding(crate::specs::Reading::body_at, crate::specs::Faults::is_known))]
fn read_body(alloc: Global, head: &Head, octets: &[u8]) -> Result<Body, PduFault>
    requires long { header_size ≤ length octets.now }
    requires kind { is_known head.now.kind ≡ true }
    ensures { Gives (λ b. b) result (body_at head.now.order head.now.flags head.now.kind (drop header_size octets.now)) }
{
    let (_, rest) = octets.split_at(HEADER_SIZE);
    let order = head.order;
    match head.kind {
        ptypes::REQUEST => Ok(Body::Request(read_request(alloc, order, head.flags, rest)?)),
        ptypes::RESPONSE => Ok(Body::Response(read_response(alloc, order, rest)?)),
        ptypes::FAULT => Ok(Body::Fault(read_fault(order, rest)?)),
        ptypes::BIND => Ok(Body::Bind(read_bind(alloc, order, rest)?)),
        ptypes::BIND_ACK => Ok(Body::BindAck(read_bind_ack(alloc, order, rest)?)),
        ptypes::BIND_NAK => Ok(Body::BindNak(read_bind_nak(alloc, order, rest)?)),
        ptypes::ALTER_CONTEXT => Ok(Body::Alter(read_alter(alloc, order, rest)?)),
        ptypes::ALTER_CONTEXT_RESP => Ok(Body::AlterResp(read_alter_resp(alloc, order, rest)?)),
        ptypes::SHUTDOWN => Ok(Body::Shutdown),
        ptypes::CO_CANCEL => Ok(Body::CoCancel),
        _ => Ok(Body::Orphaned),
    }
}

/// The PDU that the octets spell, all of them (C706, "Connection-oriented RPC PDUs"). The octets of
/// a stub are copied once.
///
/// # Errors
///
/// `Length` where there are fewer octets than a header has; then the fault of the header; then
/// `Body` where the octets end before the body's last field; `Memory` where there is no memory for
/// the body.
pub fn read_pdu(alloc: Global, octets: &[u8]) -> Result<Pdu, PduFault>
    // What is read is spelled so.
    ensures found { IfOk result (λ p. IsPdu p octets.now) }
    // What is spelled so is read, unless memory runs out.
    ensures only { (p : Pdu) → IsPdu p octets.now → MatchResult result (λ q. q ≡ p) (λ f. f ≡ PduFault.Memory) }
    // Which fault it is.
    ensures fault { IfErr result (IsFault octets.now) }
{
    if octets.len() < HEADER_SIZE {
        return Err(PduFault::Length);
    }
    let head = front_head(octets, Some(octets.len()))?;
    let body = read_body(alloc, &head, octets)?;
    Ok(Pdu {
        minor: octets[1],
        flags: head.flags,
        order: head.order,
        call_id: head.call_id,
        body,
    })
}
