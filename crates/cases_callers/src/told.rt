//! What a caller puts and what it is told, as cases write them.

use base_words::{put, put_decimal, put_hex_u32};
use client_core::Told;
use ndr_lines::put_message;
use pdu_codec::{Body, Pdu};
use pdu_stream::Feed;
use rpc_base::NoMemory;
use std::alloc::Global;

/// The flags of each fragment of a request, how many octets of the stub it has, and its hint.
pub fn put_fragments(alloc: Global, octets: &[u8], into: &mut Vec<u8>) -> Result<(), NoMemory> {
    let mut feed = Feed::new(alloc);
    feed.push(octets)?;
    for _ in 0..octets.len() {
        match feed.next() {
            Ok(
                Some(
                    Pdu {
                        flags,
                        body: Body::Request(part),
                        ..
                    },
                ),
            ) => {
                let (count, hint) = (part.stub.len(), part.alloc_hint);
                put(
                    format!(in alloc; "({flags} {count} {hint})")?.as_bytes(),
                    into,
                )?;
            }
            _ => return Ok(()),
        }
    }
    Ok(())
}

/// What a PDU told.
pub fn put_told(alloc: Global, told: Option<Told>, into: &mut Vec<u8>) -> Result<(), NoMemory> {
    match told {
        None => put(b"nothing", into),
        Some(Told::Bound(group)) => {
            put(b"bound ", into)?;
            put_decimal(alloc, u64::from(group), into)
        }
        Some(Told::NotBound(reason)) => {
            put(b"not bound ", into)?;
            put_decimal(alloc, u64::from(reason), into)
        }
        Some(Told::Done(message)) => {
            put(b"done ", into)?;
            put_message(&message, alloc, into)
        }
        Some(Told::Fault { status, not_run }) => {
            put(b"fault ", into)?;
            put_hex_u32(alloc, status.0, into)?;
            put(if not_run { b" not-run" } else { b" run" }, into)
        }
        Some(Told::Broken(fault)) => put(format!(in alloc; "broken {fault:?}")?.as_bytes(), into),
    }
}
