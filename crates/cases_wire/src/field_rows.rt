//! Fields of PDUs and stubs, in either order.

use base_words::{put, put_hex, put_hex_u32, put_hex_u64, put_hex_u128};
use cases_base::{Answers, CasesFault, Names, Told, answered, first_word, octets_of, put_debug};
use rpc_base::{
    NoMemory, Order, drep_order, get_handle, get_syntax, get_u16, get_u32, get_u64, get_uuid,
    put_handle, put_syntax, put_u16, put_u32, put_u64, put_uuid,
};
use std::alloc::Global;

/// `FIELD ORDER OCTETS`: what is read behind the first octet, and what is then written. `drep OCTETS`: the order that a data
/// representation says.
#[derive(Clone, Copy)]
struct FieldRows;

impl Answers for FieldRows {
    fn answer(
        &mut self,
        alloc: Global,
        names: &Names,
        given: &str,
        into: &mut Vec<u8>,
    ) -> Result<bool, NoMemory> {
        let (field, rest) = first_word(given);
        let (order, words) = match field {
            "drep" => ("big", rest),
            _ => first_word(rest),
        };
        let (Some(order), Some(octets)) = (order_of(order), octets_of(alloc, names, words)?) else {
            return Ok(false);
        };
        let mut again = Vec::new(alloc);
        if !put_field(alloc, field, order, octets.as_slice(), into, &mut again)? {
            return Ok(false);
        }
        put_hex(alloc, again.as_slice(), into)?;
        Ok(true)
    }
}

fn order_of(word: &str) -> Option<Order> {
    match word {
        "big" => Some(Order::Big),
        "little" => Some(Order::Little),
        _ => None,
    }
}

/// What the field behind the first octet is, and its octets again. False where there is no such field.
fn put_field(
    alloc: Global,
    field: &str,
    order: Order,
    octets: &[u8],
    into: &mut Vec<u8>,
    again: &mut Vec<u8>,
) -> Result<bool, NoMemory> {
    match (field, octets.len()) {
        ("u16", 3) => {
            let number = get_u16(order, octets, 1);
            put_hex_u32(alloc, number as u32, into)?;
            put_u16(order, number, again)?;
        }
        ("u32", 5) => {
            let number = get_u32(order, octets, 1);
            put_hex_u32(alloc, number, into)?;
            put_u32(order, number, again)?;
        }
        ("u64", 9) => {
            let number = get_u64(order, octets, 1);
            put_hex_u64(alloc, number, into)?;
            put_u64(order, number, again)?;
        }
        ("drep", 4) => return put_order(alloc, octets, into),
        _ => return put_identifier(alloc, field, order, octets, into, again),
    }
    put(b" ", into)?;
    Ok(true)
}

fn put_order(alloc: Global, octets: &[u8], into: &mut Vec<u8>) -> Result<bool, NoMemory> {
    match octets.first_chunk() {
        Some(drep) => put_debug(alloc, &drep_order(*drep), into)?,
        None => return Ok(false),
    }
    Ok(true)
}

fn put_identifier(
    alloc: Global,
    field: &str,
    order: Order,
    octets: &[u8],
    into: &mut Vec<u8>,
    again: &mut Vec<u8>,
) -> Result<bool, NoMemory> {
    match (field, octets.len()) {
        ("uuid", 17) => {
            let id = get_uuid(order, octets, 1);
            put_debug(alloc, &id, into)?;
            put_uuid(order, &id, again)?;
        }
        ("syntax", 21) => {
            let syntax = get_syntax(order, octets, 1);
            put_debug(alloc, &syntax, into)?;
            put_syntax(order, &syntax, again)?;
        }
        ("handle", 21) => {
            let handle = get_handle(order, octets, 1);
            put_hex_u32(alloc, handle.attributes, into)?;
            put(b" ", into)?;
            put_hex_u128(alloc, handle.id, into)?;
            put_handle(order, &handle, again)?;
        }
        _ => return Ok(false),
    }
    put(b" ", into)?;
    Ok(true)
}

/// What is told of rows of fields.
pub fn fields(alloc: Global, text: &str) -> Result<Told, CasesFault> {
    answered(alloc, &mut FieldRows, text)
}
