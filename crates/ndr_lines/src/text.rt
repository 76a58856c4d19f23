//! Messages and faults as texts.

use base_words::{put, put_decimal, put_hex_u32, put_hex_u128};
use ndr_codec::NdrFault;
use ndr_value::{Message, Value};
use rpc_base::{NoMemory, WireHandle};
use std::alloc::Global;
use value_text::print_value;

fn put_list(
    values: &[Value],
    alloc: Global,
    open: &[u8],
    close: &[u8],
    into: &mut Vec<u8>,
) -> Result<(), NoMemory> {
    put(open, into)?;
    let mut between: &[u8] = b"";
    for value in values {
        put(between, into)?;
        print_value(alloc, value, into)?;
        between = b", ";
    }
    put(close, into)
}

fn put_wires(wires: &[WireHandle], alloc: Global, into: &mut Vec<u8>) -> Result<(), NoMemory> {
    put(b" wires [", into)?;
    let mut between: &[u8] = b"";
    for wire in wires {
        put(between, into)?;
        put_hex_u32(alloc, wire.attributes, into)?;
        put(b":", into)?;
        put_hex_u128(alloc, wire.id, into)?;
        between = b", ";
    }
    put(b"]", into)
}

/// Adds a message: its values, its heap where it has items, and its handles where there are any.
///
/// # Errors
///
/// `NoMemory` where memory runs out.
pub fn put_message(message: &Message, alloc: Global, into: &mut Vec<u8>) -> Result<(), NoMemory> {
    put_list(&message.values, alloc, b"(", b")", into)?;
    if !message.heap.is_empty() {
        put(b" heap ", into)?;
        put_list(&message.heap, alloc, b"[", b"]", into)?;
    }
    if !message.wires.is_empty() {
        put_wires(message.wires.as_slice(), alloc, into)?;
    }
    Ok(())
}

fn put_at(kind: &[u8], number: usize, alloc: Global, into: &mut Vec<u8>) -> Result<(), NoMemory> {
    put(b"fault ", into)?;
    put(kind, into)?;
    put(b" ", into)?;
    put_decimal(alloc, number as u64, into)
}

/// Adds a fault.
///
/// # Errors
///
/// `NoMemory` where memory runs out.
pub fn put_fault(fault: NdrFault, alloc: Global, into: &mut Vec<u8>) -> Result<(), NoMemory> {
    match fault {
        NdrFault::Short(count) => put_at(b"Short", count, alloc, into),
        NdrFault::Bound(index) => put_at(b"Bound", index, alloc, into),
        NdrFault::Tag(index) => put_at(b"Tag", index, alloc, into),
        NdrFault::Pointer(index) => put_at(b"Pointer", index, alloc, into),
        NdrFault::Text(index) => put_at(b"Text", index, alloc, into),
        NdrFault::TooDeep(index) => put_at(b"TooDeep", index, alloc, into),
        NdrFault::Trailing(count) => put_at(b"Trailing", count, alloc, into),
        NdrFault::Memory => put(b"fault Memory", into),
    }
}
