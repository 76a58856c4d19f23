//! Lines that a connection holds to.

use crate::conn_stories::acts::put_act;
use crate::conn_stories::answers::{answer, answers};
use base_words::{put, put_hex};
use cases_base::{Names, first_word, octets_of};
use conn_core::Conn;
use rpc_base::NoMemory;
use std::alloc::Global;

/// How many words of a line stand before its octets. None where there is no such line.
fn plain_words(verb: &str) -> Option<u32> {
    match verb {
        "none" | "held" | "open" | "answer" | "drop" => Some(1),
        "group" | "cancel" | "orphan" | "close" | "bound" | "nak" | "fault" | "ran" => Some(2),
        "long" => Some(3),
        "call" => Some(7),
        _ => None,
    }
}

/// Puts what a line wants as what comes is put: its words, with a space behind each, and then its octets.
pub fn put_wanted(
    alloc: Global,
    names: &Names,
    line: &str,
    into: &mut Vec<u8>,
) -> Result<bool, NoMemory> {
    let (verb, rest) = first_word(line);
    let mut rest = rest;
    if verb == "out" {
        rest = rest.split_once("as").unwrap_or(("", "no octets")).1;
    }
    put(verb.as_bytes(), into)?;
    put(b" ", into)?;
    for _ in 1..plain_words(verb).unwrap_or(1) {
        let (word, behind) = first_word(rest);
        put(word.as_bytes(), into)?;
        put(b" ", into)?;
        rest = behind;
    }
    let Some(octets) = octets_of(alloc, names, rest)? else {
        return Ok(false);
    };
    put_hex(alloc, octets.as_slice(), into)?;
    Ok(verb == "out" || plain_words(verb).is_some())
}

/// Answers as the line says, and puts the octets that are sent then.
fn put_answer(
    alloc: Global,
    names: &Names,
    conn: &mut Conn,
    line: &str,
    into: &mut Vec<u8>,
) -> Result<(), NoMemory> {
    let (verb, rest) = first_word(line);
    let Some(octets) = answer(alloc, names, conn, verb, rest)? else {
        return put(b"nothing waits for it", into);
    };
    put(verb.as_bytes(), into)?;
    put(b" ", into)?;
    if matches!(verb, "bound" | "nak" | "fault" | "ran") {
        put(first_word(rest).0.as_bytes(), into)?;
        put(b" ", into)?;
    }
    put_hex(alloc, octets.as_slice(), into)
}

/// Puts the next act, or `none`; where the line asks for it, whether what stands in front must wait; or what is answered.
fn put_said(
    alloc: Global,
    names: &Names,
    conn: &mut Conn,
    line: &str,
    into: &mut Vec<u8>,
) -> Result<(), NoMemory> {
    let (verb, _) = first_word(line);
    if answers(verb) {
        return put_answer(alloc, names, conn, line, into);
    }
    if verb == "held" || verb == "open" {
        return match conn.must_wait() {
            true => put(b"held ", into),
            false => put(b"open ", into),
        };
    }
    match conn.next()? {
        Some(act) => put_act(alloc, &act, into),
        None => put(b"none ", into),
    }
}

/// Whether what the line wants comes. Else what came is put.
pub fn holds(
    alloc: Global,
    names: &Names,
    conn: &mut Conn,
    line: &str,
    come: &mut Vec<u8>,
) -> Result<bool, NoMemory> {
    let mut wanted = Vec::new(alloc);
    if !put_wanted(alloc, names, line, &mut wanted)? {
        put(b"no such line", come)?;
        return Ok(false);
    }
    let mut said = Vec::new(alloc);
    put_said(alloc, names, conn, line, &mut said)?;
    if said.as_slice() == wanted.as_slice() {
        return Ok(true);
    }
    put(said.as_slice(), come)?;
    Ok(false)
}
