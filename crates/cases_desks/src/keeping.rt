//! What an interface keeps, as far as it tells.

use crate::calls::{Answered, Cancel, Request, answer_to};
use base_words::{put, put_decimal};
use desk_service::ServiceDesks;
use rpc_base::NoMemory;
use std::alloc::Global;

const STORE: u16 = 1;

const ENDPOINTS: u16 = 2;

/// The lengths of so many files are told.
const FILES: u64 = 4;

// store_size of the first view of a file, and how long it then is; none where there is no such file.
fn length_of(alloc: Global, desks: &mut ServiceDesks, file: u64) -> Result<Option<u64>, NoMemory> {
    let request = Request {
        iface: STORE,
        op: 5,
        stub: &[1; 20],
        cookie: Some(file << 32),
        cancel: Cancel::No,
        numbers: [0; 3],
    };
    match answer_to(alloc, desks, &request)? {
        Answered::Out(stub, _) => match stub.as_slice() {
            [a, b, c, d, e, f, g, h, 0, 0, 0, 0] => {
                Ok(Some(u64::from_le_bytes([*a, *b, *c, *d, *e, *f, *g, *h])))
            }
            _ => Ok(None),
        },
        _ => Ok(None),
    }
}

fn put_lengths(
    alloc: Global,
    desks: &mut ServiceDesks,
    into: &mut Vec<u8>,
) -> Result<(), NoMemory> {
    for file in 1..=FILES {
        if let Some(length) = length_of(alloc, desks, file)? {
            put(b" ", into)?;
            put_decimal(alloc, length, into)?;
        }
    }
    Ok(())
}

// ept_lookup of all entries, at most 2^32 - 1, with a null handle.
fn inquiry(alloc: Global) -> Result<Vec<u8>, NoMemory> {
    let mut stub = vec![in alloc; 0; 36]?;
    stub.resize(40, 255)?;
    Ok(stub)
}

fn put_entries(
    alloc: Global,
    desks: &mut ServiceDesks,
    into: &mut Vec<u8>,
) -> Result<(), NoMemory> {
    let stub = inquiry(alloc)?;
    let request = Request {
        iface: ENDPOINTS,
        op: 2,
        stub: stub.as_slice(),
        cookie: None,
        cancel: Cancel::No,
        numbers: [0; 3],
    };
    if let Answered::Out(stub, _) = answer_to(alloc, desks, &request)?
        && let [a, b, c, d, ..] = &stub.as_slice()[20.min(stub.len())..]
    {
        put(b" ", into)?;
        put_decimal(alloc, u64::from(u32::from_le_bytes([*a, *b, *c, *d])), into)?;
    }
    Ok(())
}

/// What the interface of that number keeps: its handles, and the files' lengths or the number of entries.
pub fn put_kept(
    alloc: Global,
    desks: &mut ServiceDesks,
    iface: u16,
    into: &mut Vec<u8>,
) -> Result<(), NoMemory> {
    put_decimal(alloc, desks.open_handles(iface) as u64, into)?;
    match iface {
        STORE => put_lengths(alloc, desks, into),
        ENDPOINTS => put_entries(alloc, desks, into),
        _ => Ok(()),
    }
}
