//! The octets of answers.
ghost use Rattle.std.specs.Prelude.{◌≡◌, ◌≤◌, ◌<◌, ◌^◌, [], length, ⊤, IfOk, IfSome, IsSomeAnd, MatchResult};
ghost use Rattle.pdu_codec.specs.Pdus.{pdu_octets, IsWritable};
ghost use Rattle.conn_asks.specs.Answers as spec;

use crate::{Agreement, Caller, ConnFault};
use pdu_codec::{
    AlterRespBody, BindAckBody, BindNakBody, Body, FaultBody, LEAST_FRAGMENT, MAJOR_VERSION,
    MOST_FRAGMENT, Pdu, Results, Version, Versions, flags, write_pdu,
};
use rpc_base::{Items, NoMemory, Octets, Status};
use std::alloc::Global;

/// A PDU to the caller.
pub(crate) fn answer(caller: Caller, flags: u8, body: Body) -> Pdu
    ensures { result ≡ spec.answer caller flags body }
{
    Pdu {
        minor: 0,
        flags,
        order: caller.order,
        call_id: caller.call_id,
        body,
    }
}

/// The octets of a PDU.
pub(crate) fn written(alloc: Global, pdu: &Pdu) -> Result<Octets, NoMemory>
    requires { IsWritable pdu.now }
    ensures { IfOk result (λ octets. octets ≡ pdu_octets pdu.now) }
{
    let mut octets = Vec::new(alloc);
    write_pdu(pdu, &mut octets)?;
    Ok(Octets::from_vec(octets))
}

/// What a bind_ack agrees on, but for the group, where the bind says these sizes.
pub fn agreement(max_xmit: u16, max_recv: u16) -> Agreement
    ensures { result ≡ spec.agreement_at max_xmit max_recv 0 }
{
    Agreement {
        max_xmit: max_recv.min(MOST_FRAGMENT),
        max_recv: max_xmit.min(MOST_FRAGMENT).max(LEAST_FRAGMENT),
        group: 0,
    }
}

/// The octets of an alter_context_resp.
///
/// # Errors
///
/// `NoMemory` where there is no memory for the octets.
pub fn alter_resp(
    alloc: Global,
    caller: Caller,
    agreement: Agreement,
    results: Results,
) -> Result<Octets, NoMemory>
    requires { spec.AreResults results }
    ensures { IfOk result (λ octets. octets ≡ pdu_octets (spec.alter_resp caller agreement results)) }
{
    let body = AlterRespBody {
        max_xmit: agreement.max_xmit,
        max_recv: agreement.max_recv,
        group: agreement.group,
        address: Octets::new(alloc),
        results,
    };
    written(
        alloc,
        &answer(caller, flags::ONLY_FRAG, Body::AlterResp(body)),
    )
}

/// The octets of a bind_nak.
///
/// # Errors
///
/// `NoMemory` where there is no memory for the octets.
pub fn bind_nak(alloc: Global, caller: Caller, reason: u16) -> Result<Octets, NoMemory>
    ensures { IfOk result (λ octets. octets ≡ pdu_octets (spec.bind_nak caller reason)) }
{
    let mut versions = Items::new(alloc);
    versions.push(Version {
        major: MAJOR_VERSION,
        minor: 0,
    })?;
    let body = BindNakBody { reason, versions };
    written(
        alloc,
        &answer(caller, flags::ONLY_FRAG, Body::BindNak(body)),
    )
}

/// The octets of a fault, of a call that was executed or of one that wasn't.
///
/// # Errors
///
/// `NoMemory` where there is no memory for the octets.
pub fn fault(
    alloc: Global,
    caller: Caller,
    executed: bool,
    status: Status,
) -> Result<Octets, NoMemory>
    ensures { IfOk result (λ octets. octets ≡ pdu_octets (spec.fault caller executed status)) }
{
    let flags = if executed {
        flags::ONLY_FRAG
    } else {
        flags::ONLY_FRAG | flags::DID_NOT_EXECUTE
    };
    let body = FaultBody {
        alloc_hint: 0,
        context: caller.context,
        cancel_count: 0,
        status,
    };
    written(alloc, &answer(caller, flags, Body::Fault(body)))
}

/// The last octets to a caller, once the protocol is broken.
///
/// # Errors
///
/// `NoMemory` where there is no memory for the octets.
pub fn closing(alloc: Global, caller: Caller, why: ConnFault) -> Result<Octets, NoMemory>
    ensures { IfOk result (λ octets. octets ≡ pdu_octets (spec.closing caller why)) }
{
    match why {
        ConnFault::Nak(reason) => bind_nak(alloc, caller, reason),
        _ => fault(alloc, caller, false, Status::NCA_S_PROTO_ERROR),
    }
}

/// The octets of the answer to a request whose presentation context isn't accepted: none where no
/// answer is wanted.
///
/// # Errors
///
/// `NoMemory` where there is no memory for the octets.
pub fn refusal(alloc: Global, caller: Caller, maybe: bool) -> Result<Octets, NoMemory>
    ensures { IfOk result (λ octets. octets ≡ spec.refusal caller maybe) }
{
    if maybe {
        Ok(Octets::new(alloc))
    } else {
        fault(alloc, caller, false, Status::NCA_S_INVALID_PRES_CONTEXT_ID)
    }
}

/// The octets of a bind_ack for the group, with these flags; where there is no memory the body is as before.
///
/// # Errors
///
/// The body as it was, where there is no memory for the octets.
pub fn bind_ack(
    alloc: Global,
    caller: Caller,
    flags: u8,
    ack: BindAckBody,
    group: u32,
) -> Result<Octets, (BindAckBody, NoMemory)>
    requires address { ack.address ≡ [] }
    requires results { spec.AreResults ack.results }
    ensures { MatchResult result (λ octets. octets ≡ pdu_octets (spec.bind_ack caller flags (spec.agreement_with ack group) ack.results)) (λ back. back.0 ≡ ack) }
{
    let before = ack.group;
    let body = BindAckBody { group, ..ack };
    let pdu = answer(caller, flags, Body::BindAck(body));
    match written(alloc, &pdu) {
        Ok(octets) => Ok(octets),
        Err(fault) => Err((given_back(pdu, before), fault)),
    }
}

/// The body of a bind_ack that could not be written, with the group that it had.
fn given_back(pdu: Pdu, group: u32) -> BindAckBody
    requires { IsSomeAnd (spec.ack_in pdu.body) (λ ack. ⊤) }
    ensures { IfSome (spec.ack_in pdu.body) (λ ack. result ≡ record ack { group = group }) }
{
    match pdu.body {
        Body::BindAck(ack) => BindAckBody { group, ..ack },
        _ => unreachable!(),
    }
}
