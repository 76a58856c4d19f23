//! Texts of cases.

use base_words::{put, put_hex};
use cases_base::{Names, octets_of};
use rpc_base::NoMemory;
use std::alloc::Global;

/// Puts a text in which `$(OCTETS)` stands for the hexadecimal digits of octets. False where those are none.
pub fn put_text(
    alloc: Global,
    names: &Names,
    text: &str,
    into: &mut Vec<u8>,
) -> Result<bool, NoMemory> {
    let mut is_first = true;
    for piece in text.split("$(") {
        if is_first {
            put(piece.as_bytes(), into)?;
        } else if !put_piece(alloc, names, piece, into)? {
            return Ok(false);
        }
        is_first = false;
    }
    Ok(true)
}

/// Puts the digits of octets, and what stands behind the bracket that closes them.
fn put_piece(
    alloc: Global,
    names: &Names,
    piece: &str,
    into: &mut Vec<u8>,
) -> Result<bool, NoMemory> {
    let Some((words, rest)) = piece.split_once(')') else {
        return Ok(false);
    };
    let Some(octets) = octets_of(alloc, names, words)? else {
        return Ok(false);
    };
    put_hex(alloc, octets.as_slice(), into)?;
    put(rest.as_bytes(), into)?;
    Ok(true)
}

/// The lines of a script, with another in place of the one of a number from 1 on, or behind the last.
pub fn with_line(
    alloc: Global,
    script: &[u8],
    number: u64,
    line: &[u8],
) -> Result<Vec<u8>, NoMemory> {
    let mut text = Vec::new(alloc);
    let mut passed = 0u64;
    for own in script.split_inclusive(|octet| *octet == b'\n') {
        passed = passed.saturating_add(1);
        if passed == number {
            put(line, &mut text)?;
            put(b"\n", &mut text)?;
        } else {
            put(own, &mut text)?;
        }
    }
    if passed < number {
        put(line, &mut text)?;
        put(b"\n", &mut text)?;
    }
    Ok(text)
}
