//! Octets, as cases write them: words with spaces between them, each of which puts some or changes those that stand there.

use crate::names::Names;
use base_words::{cut_at, read_hex, read_u16, read_u32};
use rpc_base::NoMemory;
use std::alloc::Global;

/// Where fields of PDUs stand.
const FIELDS: [(&str, u16); 18] = [
    ("rpc_vers", 0),
    ("rpc_vers_minor", 1),
    ("ptype", 2),
    ("pfc_flags", 3),
    ("packed_drep", 4),
    ("frag_length", 8),
    ("auth_length", 10),
    ("call_id", 12),
    // of a bind, an alter_context and their answers
    ("max_xmit_frag", 16),
    ("max_recv_frag", 18),
    ("assoc_group_id", 20),
    ("n_context_elem", 24),
    ("n_transfer_syn", 30),
    // of a bind_nak
    ("provider_reject_reason", 16),
    // of a request, a response and a fault
    ("alloc_hint", 16),
    ("p_cont_id", 20),
    ("opnum", 22),
    ("status", 24),
];

/// The octets of the words. A name that begins with a capital puts the octets that have it, `|` begins the next PDU,
/// `=FIELD:OCTETS` changes a field of the PDU, or what stands at a number in its place, `<COUNT` leaves so many octets from
/// the front, `@FROM+COUNT` puts so many of a long stub from an index on, `"TEXT"` a text without spaces, and others are
/// octets in hexadecimal; behind these two `*COUNT` says how many times they stand. None where a word is none of these.
pub fn octets_of(alloc: Global, names: &Names, text: &str) -> Result<Option<Vec<u8>>, NoMemory> {
    let mut octets = Vec::new(alloc);
    let mut start = 0;
    for word in text.split_whitespace() {
        if word == "|" {
            start = octets.len();
        } else if !put_word(alloc, names, word.as_bytes(), start, &mut octets)? {
            return Ok(None);
        }
    }
    Ok(Some(octets))
}

/// Whether these are the octets of the words.
pub fn are_octets(
    alloc: Global,
    names: &Names,
    octets: &[u8],
    text: &str,
) -> Result<bool, NoMemory> {
    match octets_of(alloc, names, text)? {
        Some(wanted) => Ok(octets == wanted.as_slice()),
        None => Ok(false),
    }
}

fn put_word(
    alloc: Global,
    names: &Names,
    word: &[u8],
    start: usize,
    octets: &mut Vec<u8>,
) -> Result<bool, NoMemory> {
    match word {
        [b'A'..=b'Z', ..] => put_named(names, word, octets),
        [b'@', span @ ..] => put_span(span, octets),
        [b'=', change @ ..] => put_change(alloc, change, start, octets),
        [b'<', count @ ..] => Ok(leave(count, octets)),
        _ => put_times(alloc, word, octets),
    }
}

fn put_named(names: &Names, name: &[u8], octets: &mut Vec<u8>) -> Result<bool, NoMemory> {
    let Some(named) = names.find(name) else {
        return Ok(false);
    };
    octets.extend_from_slice(named)?;
    Ok(true)
}

/// Octets or a text, once or as often as the word says.
fn put_times(alloc: Global, word: &[u8], octets: &mut Vec<u8>) -> Result<bool, NoMemory> {
    let (once, times) = match cut_at(b'*', word) {
        Some((once, times)) => (once, read_u32(times)),
        None => (word, Some(1)),
    };
    let Some(times) = times else {
        return Ok(false);
    };
    if let [b'"', text @ .., b'"'] = once {
        return put_all(text, times, octets);
    }
    match read_hex(alloc, once)? {
        Some(new) => put_all(new.as_slice(), times, octets),
        None => Ok(false),
    }
}

fn put_all(once: &[u8], times: u32, octets: &mut Vec<u8>) -> Result<bool, NoMemory> {
    for _ in 0..times {
        octets.extend_from_slice(once)?;
    }
    Ok(true)
}

/// Octets of a long stub: the one at an index is the index's remainder by 251.
fn put_span(span: &[u8], octets: &mut Vec<u8>) -> Result<bool, NoMemory> {
    let Some((from, count)) = cut_at(b'+', span) else {
        return Ok(false);
    };
    let (Some(from), Some(count)) = (read_u32(from), read_u32(count)) else {
        return Ok(false);
    };
    for at in from..from.saturating_add(count) {
        octets.push((at % 251) as u8)?;
    }
    Ok(true)
}

/// Where a field stands in its PDU, or the number that the word is.
fn place_of(word: &[u8]) -> Option<u16> {
    for (name, at) in FIELDS {
        if name.as_bytes() == word {
            return Some(at);
        }
    }
    read_u16(word)
}

fn put_change(
    alloc: Global,
    change: &[u8],
    start: usize,
    octets: &mut Vec<u8>,
) -> Result<bool, NoMemory> {
    let Some((at, hex)) = cut_at(b':', change) else {
        return Ok(false);
    };
    let (Some(at), Some(new)) = (place_of(at), read_hex(alloc, hex)?) else {
        return Ok(false);
    };
    let mut place = start.saturating_add(at as usize);
    for octet in new.as_slice() {
        if let Some(old) = octets.get_mut(place) {
            *old = *octet;
        }
        place = place.saturating_add(1);
    }
    Ok(true)
}

fn leave(count: &[u8], octets: &mut Vec<u8>) -> bool {
    let Some(count) = read_u16(count) else {
        return false;
    };
    octets.truncate(count as usize);
    true
}
