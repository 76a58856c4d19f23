//! Words, read and written.

use crate::given::given_octets;
use base_words::{
    cut_at, cut_line, put, put_decimal, put_hex, put_hex_u32, put_hex_u64, put_hex_u128,
    put_octets, read_between, read_hex, read_hex_u32, read_hex_u64, read_hex_u128, read_octets,
    read_u8, read_u16, read_u32, read_u64, split_words,
};
use cases_base::{Answers, CasesFault, Names, Told, answered};
use rpc_base::NoMemory;
use std::alloc::Global;

/// `READER TEXT`: what is read of a text, and what is written of that. `put_WRITER TEXT`: what is written of a number or of
/// octets, behind `x`.
#[derive(Clone, Copy)]
struct WordRows;

impl Answers for WordRows {
    fn answer(
        &mut self,
        alloc: Global,
        names: &Names,
        given: &str,
        into: &mut Vec<u8>,
    ) -> Result<bool, NoMemory> {
        let Some((verb, octets)) = given_octets(alloc, names, given)? else {
            return Ok(false);
        };
        let octets = octets.as_slice();
        if put_reading(alloc, verb, octets, into)? {
            return Ok(true);
        }
        put(b"x ", into)?;
        put_writing(alloc, verb, octets, into)
    }
}

fn put_reading(
    alloc: Global,
    verb: &str,
    given: &[u8],
    into: &mut Vec<u8>,
) -> Result<bool, NoMemory> {
    match verb {
        "u8" => put_number(alloc, read_u8(given).map(|n| n as u64), into)?,
        "u16" => put_number(alloc, read_u16(given).map(|n| n as u64), into)?,
        "u32" => put_number(alloc, read_u32(given).map(|n| n as u64), into)?,
        "u64" => put_number(alloc, read_u64(given), into)?,
        "million" => put_number(alloc, read_between(given, 1, 1_000_000), into)?,
        "hex" => put_read(alloc, given, into)?,
        "octets" => put_spelled(alloc, given, into)?,
        "hex32" => put_number(alloc, read_hex_u32(given).map(|n| n as u64), into)?,
        "hex64" => put_number(alloc, read_hex_u64(given), into)?,
        "hex128" => put_wide(alloc, given, into)?,
        "line" => put_parts(alloc, cut_line(given), into)?,
        "space" => put_parts(alloc, cut_at(b' ', given), into)?,
        "words" => put_split(alloc, given, into)?,
        _ => return Ok(false),
    }
    Ok(true)
}

fn put_writing(
    alloc: Global,
    verb: &str,
    given: &[u8],
    into: &mut Vec<u8>,
) -> Result<bool, NoMemory> {
    let number = read_u64(given).unwrap_or(0);
    match verb {
        "put" => put(given, into)?,
        "put_hex" => put_hex(alloc, given, into)?,
        "put_octets" => put_octets(alloc, given, into)?,
        "put_decimal" => put_decimal(alloc, number, into)?,
        "put_hex32" => put_hex_u32(alloc, u32::try_from(number).unwrap_or(0), into)?,
        "put_hex64" => put_hex_u64(alloc, number, into)?,
        "put_hex128" => put_hex_u128(alloc, number as u128, into)?,
        _ => return Ok(false),
    }
    Ok(true)
}

fn put_number(alloc: Global, number: Option<u64>, into: &mut Vec<u8>) -> Result<(), NoMemory> {
    match number {
        Some(number) => put_decimal(alloc, number, into),
        None => put(b"none", into),
    }
}

/// How many octets there are, and their spelling.
fn put_read(alloc: Global, given: &[u8], into: &mut Vec<u8>) -> Result<(), NoMemory> {
    let Some(octets) = read_hex(alloc, given)? else {
        return put(b"none", into);
    };
    put_decimal(alloc, octets.len() as u64, into)?;
    put(b":", into)?;
    put_hex(alloc, octets.as_slice(), into)
}

/// Each octet as a number, and the spelling of all.
fn put_spelled(alloc: Global, given: &[u8], into: &mut Vec<u8>) -> Result<(), NoMemory> {
    let Some(octets) = read_octets(alloc, given)? else {
        return put(b"none", into);
    };
    for octet in octets.as_slice() {
        put_decimal(alloc, *octet as u64, into)?;
        put(b" ", into)?;
    }
    put_octets(alloc, octets.as_slice(), into)
}

fn put_wide(alloc: Global, given: &[u8], into: &mut Vec<u8>) -> Result<(), NoMemory> {
    let Some(number) = read_hex_u128(given) else {
        return put(b"none", into);
    };
    let front = u64::try_from(number >> 64).unwrap_or(0);
    put_decimal(alloc, front, into)?;
    put(b" ", into)?;
    put_hex_u128(alloc, number, into)
}

fn put_parts(
    alloc: Global,
    parts: Option<(&[u8], &[u8])>,
    into: &mut Vec<u8>,
) -> Result<(), NoMemory> {
    let Some((front, rest)) = parts else {
        return put(b"none", into);
    };
    put_octets(alloc, front, into)?;
    put(b" ", into)?;
    put_octets(alloc, rest, into)
}

fn put_split(alloc: Global, given: &[u8], into: &mut Vec<u8>) -> Result<(), NoMemory> {
    let words = split_words(alloc, given)?;
    for word in &words {
        put(word, into)?;
        put(b";", into)?;
    }
    Ok(())
}

/// What is told of rows of words.
pub fn words(alloc: Global, text: &str) -> Result<Told, CasesFault> {
    answered(alloc, &mut WordRows, text)
}
