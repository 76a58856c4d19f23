//! What connections send.
ghost use Rattle.std.specs.Prelude.{◌≡◌, ◌<◌, length, IfOk};
ghost use Rattle.pdu_codec.specs.Pdus.{pdu_octets, IsWritable};
ghost use Rattle.replay_script.specs.Sending as spec;

use pdu_codec::{
    BindBody, Body, Element, Elements, FragmentHead, MOST_FRAGMENT, Pdu, Syntaxes, flags, write_pdu,
};
use presentation::ndr;
use rpc_base::{NoMemory, Octets, Order, SyntaxId, WireHandle, put_handle, put_u32};
use std::alloc::Global;
use uuid::Uuid;

/// The probe's interface.
fn probe() -> SyntaxId
    ensures { result ≡ spec.probe }
{
    SyntaxId {
        id: Uuid::from_bytes([
            0x5f, 0x0c, 0x7a, 0x12, 0x3b, 0x4d, 0x4e, 0x6f, 0x8a, 0x90, 0xb1, 0xc2, 0xd3, 0xe4,
            0xf5, 0x06,
        ]),
        major: 1,
        minor: 0,
    }
}

fn sent(call_id: u32, body: Body) -> Pdu
    ensures { result ≡ spec.sent call_id body }
{
    Pdu {
        minor: 0,
        flags: flags::ONLY_FRAG,
        order: Order::Little,
        call_id,
        body,
    }
}

fn written(alloc: Global, pdu: &Pdu) -> Result<Octets, NoMemory>
    requires { IsWritable pdu.now }
    ensures { IfOk result (λ octets. octets ≡ pdu_octets pdu.now) }
{
    let mut octets = Vec::new(alloc);
    write_pdu(pdu, &mut octets)?;
    Ok(Octets::from_vec(octets))
}

/// A bind to the probe, to the group of that id.
///
/// # Errors
///
/// `NoMemory` where there is no memory for the octets.
#[tactic(auto, using(crate::proofs::Writable::bind_writable))]
pub fn bind(alloc: Global, group: u32) -> Result<Octets, NoMemory>
    ensures { IfOk result (λ octets. octets ≡ spec.bind_of group) }
{
    let mut transfers = Syntaxes::new(alloc);
    transfers.push(ndr())?;
    let mut elements = Elements::new(alloc);
    elements.push(Element {
        context: 0,
        syntax: probe(),
        transfers,
    })?;
    let body = BindBody {
        max_xmit: MOST_FRAGMENT,
        max_recv: MOST_FRAGMENT,
        group,
        elements,
    };
    written(alloc, &sent(1, Body::Bind(body)))
}

/// A co_cancel of the call of that id.
///
/// # Errors
///
/// `NoMemory` where there is no memory for the octets.
#[tactic(auto, using(crate::proofs::Writable::cancel_writable))]
pub fn co_cancel(alloc: Global, call: u32) -> Result<Octets, NoMemory>
    ensures { IfOk result (λ octets. octets ≡ spec.cancel_of call) }
{
    written(alloc, &sent(call, Body::CoCancel))
}

/// A whole request for an operation of the probe.
fn request(alloc: Global, call: u32, op: u16, stub: &[u8]) -> Result<Octets, NoMemory>
    requires { length stub.now < 100 }
    ensures { IfOk result (λ octets. octets ≡ spec.request_of call op stub.now) }
{
    let head = FragmentHead {
        flags: flags::ONLY_FRAG,
        order: Order::Little,
        call_id: call,
        alloc_hint: stub.len() as u32,
        context: 0,
    };
    let mut octets = Vec::new(alloc);
    head.write_request(op, stub, &mut octets)?;
    Ok(Octets::from_vec(octets))
}

/// A call of `probe_open` with that number.
///
/// # Errors
///
/// `NoMemory` where there is no memory for the octets.
#[tactic(auto, using(crate::proofs::Writable::number_short))]
pub fn probe_open(alloc: Global, call: u32, number: u32) -> Result<Octets, NoMemory>
    ensures { IfOk result (λ octets. octets ≡ spec.issue_of call number) }
{
    let mut stub = Vec::new(alloc);
    put_u32(Order::Little, number, &mut stub)?;
    request(alloc, call, 0, stub.as_slice())
}

/// A call of `probe_close` with that handle.
///
/// # Errors
///
/// `NoMemory` where there is no memory for the octets.
#[tactic(auto, using(crate::proofs::Writable::handle_short))]
pub fn probe_close(alloc: Global, call: u32, handle: WireHandle) -> Result<Octets, NoMemory>
    ensures { IfOk result (λ octets. octets ≡ spec.close_of call handle) }
{
    let mut stub = Vec::new(alloc);
    put_handle(Order::Little, &handle, &mut stub)?;
    request(alloc, call, 1, stub.as_slice())
}
