//! PDUs, read and written.
ghost use Rattle.std.specs.Prelude.{◌≡◌, false};
ghost use Rattle.pdu_codec.specs.Pdus.{has_object};

use base_words::{put, put_decimal, put_hex};
use cases_base::{Answers, CasesFault, Names, Told, answered, first_word, octets_of, put_debug};
use pdu_codec::flags::{FIRST_FRAG, LAST_FRAG};
use pdu_codec::{
    Body, FragmentHead, HEADER_SIZE, Pdu, PduFault, RequestBody, ResponseBody, raw_head, read_head,
    read_pdu, spelled_is_writable, write_pdu,
};
use rpc_base::{NoMemory, Order};
use std::alloc::Global;

/// `read OCTETS`: the PDU, or why there is none. `again OCTETS`: `same` where what is read is written as these octets, or what
/// it is written as. `fragment OCTETS`: the same where the stub of a request or a response is written from where it stands,
/// behind an octet. `head OCTETS`: the header alone, and what it says untested. `fronts OCTETS`: why no front of them is a PDU,
/// the shortest first. `sized OCTETS`: the same where each says its own size.
#[derive(Clone, Copy)]
struct PduRows;

impl Answers for PduRows {
    fn answer(
        &mut self,
        alloc: Global,
        names: &Names,
        given: &str,
        into: &mut Vec<u8>,
    ) -> Result<bool, NoMemory> {
        let (verb, words) = first_word(given);
        let Some(octets) = octets_of(alloc, names, words)? else {
            return Ok(false);
        };
        let octets = octets.as_slice();
        match verb {
            "read" => put_read(alloc, octets, into)?,
            "again" => put_again(alloc, written(alloc, octets), octets, into)?,
            "fragment" => put_again(alloc, fragment(alloc, octets), octets, into)?,
            "head" => put_head(alloc, octets, into)?,
            "fronts" => put_fronts(alloc, octets, false, into)?,
            "sized" => put_fronts(alloc, octets, true, into)?,
            _ => return Ok(false),
        }
        Ok(true)
    }
}

fn put_read(alloc: Global, octets: &[u8], into: &mut Vec<u8>) -> Result<(), NoMemory> {
    match read_pdu(alloc, octets) {
        Ok(pdu) => put_debug(alloc, &pdu, into),
        Err(fault) => put_debug(alloc, &fault, into),
    }
}

/// What is read, written again.
fn written(alloc: Global, octets: &[u8]) -> Result<Vec<u8>, PduFault> {
    spelled_is_writable();
    let pdu = read_pdu(alloc, octets)?;
    let mut again = Vec::new(alloc);
    write_pdu(&pdu, &mut again)?;
    Ok(again)
}

/// The header of a whole request or response.
fn whole_head(order: Order, call_id: u32, alloc_hint: u32, context: u16) -> FragmentHead
    ensures { has_object result.flags ≡ false }
{
    FragmentHead {
        flags: FIRST_FRAG | LAST_FRAG,
        order,
        call_id,
        alloc_hint,
        context,
    }
}

/// The request or the response, written whole from its stub. Another PDU is a `Kind`.
fn fragment(alloc: Global, octets: &[u8]) -> Result<Vec<u8>, PduFault> {
    let Pdu {
        order,
        call_id,
        body,
        ..
    } = read_pdu(alloc, octets)?;
    match body {
        Body::Request(body) => request_again(alloc, order, call_id, body),
        Body::Response(body) => response_again(alloc, order, call_id, body),
        _ => Err(PduFault::Kind),
    }
}

fn request_again(
    alloc: Global,
    order: Order,
    call_id: u32,
    body: RequestBody,
) -> Result<Vec<u8>, PduFault> {
    let head = whole_head(order, call_id, body.alloc_hint, body.context);
    let mut again = vec![in alloc; 0xff; 1]?;
    let stub = body.stub.as_slice();
    if stub.len() > 65_000 {
        return Err(PduFault::Length);
    }
    head.write_request(body.op, stub, &mut again)?;
    Ok(again)
}

fn response_again(
    alloc: Global,
    order: Order,
    call_id: u32,
    body: ResponseBody,
) -> Result<Vec<u8>, PduFault> {
    let head = whole_head(order, call_id, body.alloc_hint, body.context);
    let mut again = vec![in alloc; 0xff; 1]?;
    let stub = body.stub.as_slice();
    if stub.len() > 65_000 {
        return Err(PduFault::Length);
    }
    head.write_response(stub, &mut again)?;
    Ok(again)
}

fn put_again(
    alloc: Global,
    again: Result<Vec<u8>, PduFault>,
    octets: &[u8],
    into: &mut Vec<u8>,
) -> Result<(), NoMemory> {
    let again = match again {
        Ok(again) => again,
        Err(fault) => return put_debug(alloc, &fault, into),
    };
    let again = again.as_slice();
    if again == octets || again.strip_prefix(&[0xff]) == Some(octets) {
        return put(b"same", into);
    }
    put_hex(alloc, again, into)
}

fn put_head(alloc: Global, octets: &[u8], into: &mut Vec<u8>) -> Result<(), NoMemory> {
    if octets.len() < HEADER_SIZE {
        return put(b"short", into);
    }
    let raw = raw_head(octets);
    let Some(header) = octets.first_chunk() else {
        return put(b"short", into);
    };
    match read_head(*header) {
        Ok(head) => put_debug(alloc, &head, into)?,
        Err(fault) => put_debug(alloc, &fault, into)?,
    }
    put(b" ", into)?;
    put_debug(alloc, &raw, into)
}

/// Why a front of that size is no PDU, with its own size in its header if that is asked for.
fn front_fault(
    alloc: Global,
    octets: &[u8],
    size: usize,
    sized: bool,
) -> Result<Option<PduFault>, NoMemory> {
    let mut front = Vec::from_slice(alloc, octets)?;
    front.truncate(size);
    let [low, high, ..] = size.to_le_bytes();
    if sized && let Some(place) = front.get_mut(8) {
        *place = low;
    }
    if sized && let Some(place) = front.get_mut(9) {
        *place = high;
    }
    Ok(read_pdu(alloc, front.as_slice()).err())
}

/// How many fronts in a row have each fault.
fn put_fronts(
    alloc: Global,
    octets: &[u8],
    sized: bool,
    into: &mut Vec<u8>,
) -> Result<(), NoMemory> {
    let mut count = 0_u64;
    let mut last = front_fault(alloc, octets, 0, sized)?;
    for size in 0..octets.len() {
        let fault = front_fault(alloc, octets, size, sized)?;
        if fault != last {
            put_run(alloc, count, last, into)?;
            put(b", ", into)?;
            (count, last) = (0, fault);
        }
        count = count.saturating_add(1);
    }
    put_run(alloc, count, last, into)
}

fn put_run(
    alloc: Global,
    count: u64,
    fault: Option<PduFault>,
    into: &mut Vec<u8>,
) -> Result<(), NoMemory> {
    put_decimal(alloc, count, into)?;
    put(b" ", into)?;
    match fault {
        Some(fault) => put_debug(alloc, &fault, into),
        None => put(b"read", into),
    }
}

/// What is told of rows of PDUs.
pub fn pdus(alloc: Global, text: &str) -> Result<Told, CasesFault> {
    answered(alloc, &mut PduRows, text)
}
