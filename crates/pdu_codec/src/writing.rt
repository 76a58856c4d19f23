//! Writing PDUs.
ghost use Rattle.std.specs.Prelude.{◌≡◌, ◌+◌, ◌<◌, ◌≤◌, ◌^◌, [], ◌∷◌, ◌++◌, length, take, drop, replicate, OnOk, OnErr};
ghost use Rattle.std.specs.List.{AllByRecursion, flat_map};
ghost use Rattle.pdu_codec.specs.Pdus.{kind_of, drep_octet, zeros_3, head_octets, head_of, object_octets, request_octets, response_octets, fault_octets, maxima_octets, syntaxes_octets, element_octets, gap, result_octets, results_octets, version_octets, versions_octets, bind_nak_octets, written_bind, acked_octets, body_octets, pdu_octets, HasSpelling, IsWritable};
ghost use Rattle.rpc_base.specs.Fields.{u16_octets};
ghost use Rattle.pdu_codec.specs.Writing.{KeepsFront};

use crate::{
    BindNakBody, Body, ContextResult, Element, FaultBody, Head, MAJOR_VERSION, Pdu, Version, ptypes,
};
use rpc_base::{NoMemory, Order, SyntaxId, put_syntax, put_u16, put_u32, put_uuid};
use uuid::Uuid;

/// The PTYPE of a body.
fn kind(body: &Body) -> u8
    ensures { result ≡ kind_of body.now }
{
    match body {
        Body::Request(_) => ptypes::REQUEST,
        Body::Response(_) => ptypes::RESPONSE,
        Body::Fault(_) => ptypes::FAULT,
        Body::Bind(_) => ptypes::BIND,
        Body::BindAck(_) => ptypes::BIND_ACK,
        Body::BindNak(_) => ptypes::BIND_NAK,
        Body::Alter(_) => ptypes::ALTER_CONTEXT,
        Body::AlterResp(_) => ptypes::ALTER_CONTEXT_RESP,
        Body::Shutdown => ptypes::SHUTDOWN,
        Body::CoCancel => ptypes::CO_CANCEL,
        Body::Orphaned => ptypes::ORPHANED,
    }
}

/// The first octet of the data representation of ASCII characters and numbers in the order.
fn drep(order: Order) -> u8
    ensures { result ≡ drep_octet order }
{
    match order {
        Order::Big => 0x00,
        Order::Little => 0x10,
    }
}

fn put(octets: &[u8], into: &mut Vec<u8>) -> Result<(), NoMemory>
    ensures ok { OnOk result (into.new.items ≡ into.old.items ++ octets.now) }
    ensures err { OnErr result (into.new.items ≡ into.old.items) }
{
    into.extend_from_slice(octets)?;
    Ok(())
}

#[tactic(auto, unfolding(crate::specs::Pdus::head_octets))]
pub(crate) fn put_head(minor: u8, head: Head, into: &mut Vec<u8>) -> Result<(), NoMemory>
    ensures ok { OnOk result (into.new.items ≡ into.old.items ++ head_octets minor zeros_3 head) }
    ensures err { OnErr result (KeepsFront into.old.items into.new.items) }
{
    let order = head.order;
    put(
        &[
            MAJOR_VERSION,
            minor,
            head.kind,
            head.flags,
            drep(order),
            0,
            0,
            0,
        ],
        into,
    )?;
    put_u16(order, head.length, into)?;
    put_u16(order, 0, into)?;
    put_u32(order, head.call_id, into)?;
    Ok(())
}

/// The header of a PDU of so many octets.
fn head_of(pdu: &Pdu, length: u16) -> Head
    ensures { result ≡ head_of pdu.now length }
{
    Head {
        kind: kind(&pdu.body),
        flags: pdu.flags,
        order: pdu.order,
        length,
        call_id: pdu.call_id,
    }
}

fn put_object(order: Order, object: &Option<Uuid>, into: &mut Vec<u8>) -> Result<(), NoMemory>
    ensures ok { OnOk result (into.new.items ≡ into.old.items ++ object_octets order object.now) }
    ensures err { OnErr result (into.new.items ≡ into.old.items) }
{
    match object {
        None => Ok(()),
        Some(id) => put_uuid(order, id, into),
    }
}

#[tactic(auto, unfolding(crate::specs::Pdus::request_octets))]
pub(crate) fn put_request(
    order: Order,
    alloc_hint: u32,
    context: u16,
    op: u16,
    object: &Option<Uuid>,
    stub: &[u8],
    into: &mut Vec<u8>,
) -> Result<(), NoMemory>
    ensures ok { OnOk result (into.new.items ≡ into.old.items ++ request_octets order (record { alloc_hint = alloc_hint; context = context; op = op; object = object.now; stub = stub.now })) }
    ensures err { OnErr result (KeepsFront into.old.items into.new.items) }
{
    put_u32(order, alloc_hint, into)?;
    put_u16(order, context, into)?;
    put_u16(order, op, into)?;
    put_object(order, object, into)?;
    put(stub, into)?;
    Ok(())
}

#[tactic(auto, unfolding(crate::specs::Pdus::response_octets))]
pub(crate) fn put_response(
    order: Order,
    alloc_hint: u32,
    context: u16,
    cancel_count: u8,
    stub: &[u8],
    into: &mut Vec<u8>,
) -> Result<(), NoMemory>
    ensures ok { OnOk result (into.new.items ≡ into.old.items ++ response_octets order 0 (record { alloc_hint = alloc_hint; context = context; cancel_count = cancel_count; stub = stub.now })) }
    ensures err { OnErr result (KeepsFront into.old.items into.new.items) }
{
    put_u32(order, alloc_hint, into)?;
    put_u16(order, context, into)?;
    put(&[cancel_count, 0], into)?;
    put(stub, into)?;
    Ok(())
}

#[tactic(auto, unfolding(crate::specs::Pdus::fault_octets))]
fn put_fault(order: Order, body: &FaultBody, into: &mut Vec<u8>) -> Result<(), NoMemory>
    ensures ok { OnOk result (into.new.items ≡ into.old.items ++ fault_octets order 0 (0 ∷ zeros_3) body.now) }
    ensures err { OnErr result (KeepsFront into.old.items into.new.items) }
{
    put_u32(order, body.alloc_hint, into)?;
    put_u16(order, body.context, into)?;
    put(&[body.cancel_count, 0], into)?;
    put_u32(order, body.status.0, into)?;
    put(&[0; 4], into)?;
    Ok(())
}

/// What a bind and its answer begin with.
fn put_maxima(
    order: Order,
    max_xmit: u16,
    max_recv: u16,
    group: u32,
    into: &mut Vec<u8>,
) -> Result<(), NoMemory>
    ensures ok { OnOk result (into.new.items ≡ into.old.items ++ maxima_octets order max_xmit max_recv group []) }
    ensures err { OnErr result (KeepsFront into.old.items into.new.items) }
{
    put_u16(order, max_xmit, into)?;
    put_u16(order, max_recv, into)?;
    put_u32(order, group, into)?;
    Ok(())
}

fn put_syntaxes(order: Order, syntaxes: &[SyntaxId], into: &mut Vec<u8>) -> Result<(), NoMemory>
    ensures ok { OnOk result (into.new.items ≡ into.old.items ++ syntaxes_octets order syntaxes.now) }
    ensures err { OnErr result (KeepsFront into.old.items into.new.items) }
{
    for syntax in syntaxes {
        put_syntax(order, syntax, into)?;
    }
    Ok(())
}

#[tactic(auto, unfolding(crate::specs::Pdus::element_octets))]
fn put_element(order: Order, element: &Element, into: &mut Vec<u8>) -> Result<(), NoMemory>
    requires { length element.now.transfers < 256 }
    ensures ok { OnOk result (into.new.items ≡ into.old.items ++ element_octets order 0 element.now) }
    ensures err { OnErr result (KeepsFront into.old.items into.new.items) }
{
    put_u16(order, element.context, into)?;
    put(&[element.transfers.len() as u8, 0], into)?;
    put_syntax(order, &element.syntax, into)?;
    put_syntaxes(order, element.transfers.as_slice(), into)?;
    Ok(())
}

fn put_elements(order: Order, elements: &[Element], into: &mut Vec<u8>) -> Result<(), NoMemory>
    requires { AllByRecursion (λ e. length e.transfers < 256) elements.now }
    ensures ok { OnOk result (into.new.items ≡ into.old.items ++ flat_map (element_octets order 0) elements.now) }
    ensures err { OnErr result (KeepsFront into.old.items into.new.items) }
{
    for element in elements {
        put_element(order, element, into)?;
    }
    Ok(())
}

/// The fields of a bind, which an alter_context has too.
#[tactic(auto, unfolding(crate::specs::Pdus::bind_octets))]
fn put_bind(
    order: Order,
    max_xmit: u16,
    max_recv: u16,
    group: u32,
    elements: &[Element],
    into: &mut Vec<u8>,
) -> Result<(), NoMemory>
    requires few { length elements.now < 256 }
    requires each { AllByRecursion (λ e. length e.transfers < 256) elements.now }
    ensures ok { OnOk result (into.new.items ≡ into.old.items ++ written_bind order (record { max_xmit = max_xmit; max_recv = max_recv; group = group; elements = elements.now })) }
    ensures err { OnErr result (KeepsFront into.old.items into.new.items) }
{
    put_maxima(order, max_xmit, max_recv, group, into)?;
    put(&[elements.len() as u8, 0, 0, 0], into)?;
    put_elements(order, elements, into)?;
    Ok(())
}

#[tactic(auto, unfolding(crate::specs::Pdus::result_octets))]
fn put_result(order: Order, answer: &ContextResult, into: &mut Vec<u8>) -> Result<(), NoMemory>
    ensures ok { OnOk result (into.new.items ≡ into.old.items ++ result_octets order answer.now) }
    ensures err { OnErr result (KeepsFront into.old.items into.new.items) }
{
    put_u16(order, answer.result, into)?;
    put_u16(order, answer.reason, into)?;
    put_syntax(order, &answer.transfer, into)?;
    Ok(())
}

fn put_results(order: Order, answers: &[ContextResult], into: &mut Vec<u8>) -> Result<(), NoMemory>
    ensures ok { OnOk result (into.new.items ≡ into.old.items ++ results_octets order answers.now) }
    ensures err { OnErr result (KeepsFront into.old.items into.new.items) }
{
    for answer in answers {
        put_result(order, answer, into)?;
    }
    Ok(())
}

/// The octets between an address of so many octets and the next multiple of four of the PDU.
fn padding(size: usize) -> &'static [u8]
    requires { size < 2 ^ 16 }
    ensures { result.now ≡ replicate (gap (10 + size)) 0 }
{
    match (10 + size) % 4 {
        0 => &[],
        1 => &[0, 0, 0],
        2 => &[0, 0],
        _ => &[0],
    }
}

/// The fields of a bind_ack, which an alter_context_resp has too.
#[tactic(auto, unfolding(crate::specs::Pdus::bind_ack_octets))]
fn put_bind_ack(
    order: Order,
    max_xmit: u16,
    max_recv: u16,
    group: u32,
    address: &[u8],
    results: &[ContextResult],
    into: &mut Vec<u8>,
) -> Result<(), NoMemory>
    requires short { length address.now < 2 ^ 16 }
    requires few { length results.now < 256 }
    ensures ok { OnOk result (into.new.items ≡ into.old.items ++ acked_octets order max_xmit max_recv group address.now results.now) }
    ensures err { OnErr result (KeepsFront into.old.items into.new.items) }
{
    put_maxima(order, max_xmit, max_recv, group, into)?;
    put_u16(order, address.len() as u16, into)?;
    put(address, into)?;
    put(padding(address.len()), into)?;
    put(&[results.len() as u8, 0, 0, 0], into)?;
    put_results(order, results, into)?;
    Ok(())
}

fn put_version(version: &Version, into: &mut Vec<u8>) -> Result<(), NoMemory>
    ensures ok { OnOk result (into.new.items ≡ into.old.items ++ version_octets version.now) }
    ensures err { OnErr result (KeepsFront into.old.items into.new.items) }
{
    put(&[version.major, version.minor], into)?;
    Ok(())
}

fn put_versions(versions: &[Version], into: &mut Vec<u8>) -> Result<(), NoMemory>
    ensures ok { OnOk result (into.new.items ≡ into.old.items ++ versions_octets versions.now) }
    ensures err { OnErr result (KeepsFront into.old.items into.new.items) }
{
    for version in versions {
        put_version(version, into)?;
    }
    Ok(())
}

#[tactic(auto, unfolding(crate::specs::Pdus::bind_nak_octets))]
fn put_bind_nak(order: Order, body: &BindNakBody, into: &mut Vec<u8>) -> Result<(), NoMemory>
    requires { length body.now.versions < 256 }
    ensures ok { OnOk result (into.new.items ≡ into.old.items ++ bind_nak_octets order [] body.now) }
    ensures err { OnErr result (KeepsFront into.old.items into.new.items) }
{
    put_u16(order, body.reason, into)?;
    put(&[body.versions.len() as u8], into)?;
    put_versions(body.versions.as_slice(), into)?;
    Ok(())
}

fn put_body(pdu: &Pdu, into: &mut Vec<u8>) -> Result<(), NoMemory>
    requires { HasSpelling pdu.now.flags pdu.now.body }
    ensures ok { OnOk result (into.new.items ≡ into.old.items ++ body_octets pdu.now.order pdu.now.body) }
    ensures err { OnErr result (KeepsFront into.old.items into.new.items) }
{
    match &pdu.body {
        Body::Request(body) => put_request(
            pdu.order,
            body.alloc_hint,
            body.context,
            body.op,
            &body.object,
            body.stub.as_slice(),
            into,
        ),
        Body::Response(body) => put_response(
            pdu.order,
            body.alloc_hint,
            body.context,
            body.cancel_count,
            body.stub.as_slice(),
            into,
        ),
        Body::Fault(body) => put_fault(pdu.order, body, into),
        Body::Bind(body) => put_bind(
            pdu.order,
            body.max_xmit,
            body.max_recv,
            body.group,
            body.elements.as_slice(),
            into,
        ),
        Body::BindAck(body) => put_bind_ack(
            pdu.order,
            body.max_xmit,
            body.max_recv,
            body.group,
            body.address.as_slice(),
            body.results.as_slice(),
            into,
        ),
        Body::BindNak(body) => put_bind_nak(pdu.order, body, into),
        Body::Alter(body) => put_bind(
            pdu.order,
            body.max_xmit,
            body.max_recv,
            body.group,
            body.elements.as_slice(),
            into,
        ),
        Body::AlterResp(body) => put_bind_ack(
            pdu.order,
            body.max_xmit,
            body.max_recv,
            body.group,
            body.address.as_slice(),
            body.results.as_slice(),
            into,
        ),
        Body::Shutdown | Body::CoCancel | Body::Orphaned => Ok(()),
    }
}

/// Puts the size of a PDU into the header that begins at an index.
fn set_size(order: Order, size: u16, at: usize, into: &mut Vec<u8>)
    requires { at + 10 ≤ length into.old.items }
    ensures { into.new.items ≡ take (at + 8) into.old.items ++ u16_octets order size ++ drop (at + 10) into.old.items }
{
    let octets = size_octets(order, size);
    into[at + 8..at + 10].copy_from_slice(&octets);
}

#[tactic(auto, unfolding(rpc_base::specs::Fields::number_octets))]
fn size_octets(order: Order, size: u16) -> [u8; 2]
    ensures { result ≡ u16_octets order size }
{
    match order {
        Order::Big => size.to_be_bytes(),
        Order::Little => size.to_le_bytes(),
    }
}

fn put_pdu(pdu: &Pdu, into: &mut Vec<u8>) -> Result<(), NoMemory>
    requires { IsWritable pdu.now }
    ensures ok { OnOk result (into.new.items ≡ into.old.items ++ pdu_octets pdu.now) }
    ensures err { OnErr result (KeepsFront into.old.items into.new.items) }
{
    let start = into.len();
    put_head(pdu.minor, head_of(pdu, 0), into)?;
    put_body(pdu, into)?;
    let size = into.len() - start;
    set_size(pdu.order, size as u16, start, into);
    Ok(())
}

/// Adds the PDU's octets at the end, with zero reserved octets and nothing after its last field
/// (C706, "Connection-oriented RPC PDUs"). Where there is no memory, nothing is added.
///
/// # Errors
///
/// `NoMemory` where there is no memory for the octets; nothing is added then.
pub fn write_pdu(pdu: &Pdu, into: &mut Vec<u8>) -> Result<(), NoMemory>
    requires { IsWritable pdu.now }
    ensures ok { OnOk result (into.new.items ≡ into.old.items ++ pdu_octets pdu.now) }
    ensures err { OnErr result (into.new.items ≡ into.old.items) }
{
    let start = into.len();
    match put_pdu(pdu, into) {
        Ok(()) => Ok(()),
        Err(fault) => {
            into.truncate(start);
            Err(fault)
        }
    }
}
