//! Acts, as cases write them.

use base_words::{put, put_hex};
use conn_core::{Act, ConnFault};
use pdu_stream::Joined;
use rpc_base::NoMemory;
use std::alloc::Global;

/// `maybe` and `marked`, both, one of them or `-`.
fn flag_word(joined: &Joined) -> &'static str {
    match (joined.maybe, joined.cancel) {
        (false, false) => "-",
        (true, false) => "maybe",
        (false, true) => "marked",
        (true, true) => "maybe,marked",
    }
}

/// `call ID INTERFACE CONTEXT OP ORDER FLAGS STUB`, or `long ID SIZE` where the stub is long.
fn put_call(
    alloc: Global,
    joined: &Joined,
    interface: u16,
    into: &mut Vec<u8>,
) -> Result<(), NoMemory> {
    let Joined {
        call_id,
        order,
        context,
        op,
        ..
    } = joined;
    let size = joined.stub.len();
    if size > 1_000_000 {
        return put(
            format!(in alloc; "long {call_id} {size} ")?.as_bytes(),
            into,
        );
    }
    let flags = flag_word(joined);
    let text = format!(in alloc; "call {call_id} {interface} {context} {op} {order:?} {flags} ")?;
    put(text.as_bytes(), into)?;
    put_hex(alloc, joined.stub.as_slice(), into)
}

fn put_close(
    alloc: Global,
    octets: &[u8],
    why: ConnFault,
    into: &mut Vec<u8>,
) -> Result<(), NoMemory> {
    put(format!(in alloc; "close {why:?} ")?.as_bytes(), into)?;
    put_hex(alloc, octets, into)
}

/// Puts the act: its words, with a space behind each, and then its octets.
pub fn put_act(alloc: Global, act: &Act, into: &mut Vec<u8>) -> Result<(), NoMemory> {
    match act {
        Act::Group(id) => put(format!(in alloc; "group {id} ")?.as_bytes(), into),
        Act::Cancel(id) => put(format!(in alloc; "cancel {id} ")?.as_bytes(), into),
        Act::Orphan(id) => put(format!(in alloc; "orphan {id} ")?.as_bytes(), into),
        Act::Answer(octets) => {
            put(b"answer ", into)?;
            put_hex(alloc, octets.as_slice(), into)
        }
        Act::Call(joined, interface) => put_call(alloc, joined, *interface, into),
        Act::Close(octets, why) => put_close(alloc, octets.as_slice(), *why, into),
    }
}
