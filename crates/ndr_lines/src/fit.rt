//! Messages by their texts, and whether they are of an operation.

use crate::case::is_fit;
use crate::read::message_of;
use base_words::put;
use ndr_codec::Way;
use ndr_table::Table;
use ndr_value::{Message, Value, Values};
use rpc_base::{NoMemory, Octets};
use std::alloc::Global;

/// Bytes, each for itself.
///
/// # Errors
///
/// `NoMemory` where memory runs out.
pub fn apart(alloc: Global, octets: &Octets) -> Result<Value, NoMemory> {
    let mut values = Values::new(alloc);
    for octet in octets.as_slice() {
        values.push(Value::Byte(*octet))?;
    }
    Ok(Value::Array(values))
}

fn all_apart(alloc: Global, message: Message) -> Result<Message, NoMemory> {
    let Message {
        values: whole,
        heap,
        wires,
    } = message;
    let mut values = Values::new(alloc);
    for value in whole {
        let value = match value {
            Value::Octets(octets) => apart(alloc, &octets)?,
            other => other,
        };
        values.push(value)?;
    }
    Ok(Message {
        values,
        heap,
        wires,
    })
}

/// Puts whether the request of that text is of the first operation; behind `apart` its arrays have each byte for itself. False
/// where it is no text of a request.
///
/// # Errors
///
/// `NoMemory` where memory runs out.
pub fn put_fit(
    alloc: Global,
    table: &Table,
    text: &str,
    into: &mut Vec<u8>,
) -> Result<bool, NoMemory> {
    let plain = text.strip_prefix("apart ");
    let words = plain.unwrap_or(text);
    let Some(message) = message_of(alloc, table, Way::Request, words.as_bytes()) else {
        return Ok(false);
    };
    let message = if plain.is_some() {
        all_apart(alloc, message)?
    } else {
        message
    };
    let is = is_fit(alloc, table, Way::Request, None, &message)?;
    put(if is { b"yes" } else { b"no" }, into)?;
    Ok(true)
}
