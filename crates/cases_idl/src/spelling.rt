//! Texts, as cases write them: on one line, whatever octets they have and however often a piece of them stands.

use base_words::{cut_at, put, put_decimal, read_hex, read_u32};
use rpc_base::NoMemory;
use std::alloc::Global;

/// The octets of a text in which `%XX` is the octet of two hexadecimal digits, and `<COUNT*PIECE>` so many pieces, in each of
/// which `%n` is the number of pieces before it, and `%s` one more. None where a `%` or a `<` begins nothing of the kind.
///
/// # Errors
///
/// `NoMemory` where there is no memory for it.
pub fn spelled(alloc: Global, text: &str) -> Result<Option<Vec<u8>>, NoMemory> {
    let mut octets = Vec::new(alloc);
    let mut is_first = true;
    for part in text.as_bytes().split(|octet| *octet == b'<') {
        let done = if is_first {
            put_piece(alloc, part, 0, &mut octets)?
        } else {
            put_pieces(alloc, part, &mut octets)?
        };
        if !done {
            return Ok(None);
        }
        is_first = false;
    }
    Ok(Some(octets))
}

/// Pieces, as many as stands before the `*`, and what stands behind the `>`.
fn put_pieces(alloc: Global, part: &[u8], into: &mut Vec<u8>) -> Result<bool, NoMemory> {
    let Some((pieces, behind)) = cut_at(b'>', part) else {
        return Ok(false);
    };
    let Some((count, piece)) = cut_at(b'*', pieces) else {
        return Ok(false);
    };
    let Some(count) = read_u32(count) else {
        return Ok(false);
    };
    for number in 0..count {
        if !put_piece(alloc, piece, number, into)? {
            return Ok(false);
        }
    }
    put_piece(alloc, behind, 0, into)
}

fn put_piece(
    alloc: Global,
    piece: &[u8],
    number: u32,
    into: &mut Vec<u8>,
) -> Result<bool, NoMemory> {
    let mut is_first = true;
    for part in piece.split(|octet| *octet == b'%') {
        if is_first {
            put(part, into)?;
        } else if !put_escape(alloc, part, number, into)? {
            return Ok(false);
        }
        is_first = false;
    }
    Ok(true)
}

/// What stands behind a `%`.
fn put_escape(
    alloc: Global,
    part: &[u8],
    number: u32,
    into: &mut Vec<u8>,
) -> Result<bool, NoMemory> {
    let rest = match part {
        [b'n', rest @ ..] => {
            put_decimal(alloc, u64::from(number), into)?;
            rest
        }
        [b's', rest @ ..] => {
            put_decimal(alloc, u64::from(number).saturating_add(1), into)?;
            rest
        }
        [high, low, rest @ ..] => match read_hex(alloc, &[*high, *low])? {
            Some(octet) => {
                put(octet.as_slice(), into)?;
                rest
            }
            None => return Ok(false),
        },
        _ => return Ok(false),
    };
    put(rest, into)?;
    Ok(true)
}
