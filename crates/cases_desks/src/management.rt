//! Management over plain numbers and over shared ones, where the built-in interfaces are served and where none is.
ghost use Rattle.std.specs.Prelude.{◌≡◌};
ghost use Rattle.ndr_table.specs.Shown.{shown};

use crate::calls::Silent;
use base_words::{put, put_hex};
use desk_counts::{Counted, Stats, Tally};
use manager_api::{Answer, Desk, has_cookies};
use mgmt_manager::{Ids, MgmtDesk, mgmt_table};
use ndr_codec::{Way, decode, encode};
use ndr_table::Table;
use rpc_base::{Items, NoMemory, Order, SyntaxId};
use std::alloc::Global;
use std::sync::Arc;
use uuid::Uuid;

/// The built-in interfaces, by their numbers: identifier and major version.
const SERVED: [(u128, u16); 4] = [
    (0x5f0c7a12_3b4d_4e6f_8a90_b1c2d3e4f506, 1),
    (0x9b1d3c7e_52f4_4a0b_8e6d_1f0c2a3b4d5e, 1),
    (0xe1af8308_5d1f_11c9_91a4_08002b14a0fa, 3),
    (0xafa8bd80_7d8a_11c9_bef4_08002b102989, 1),
];

/// Up to four of them.
fn served(alloc: Global, count: usize) -> Result<Ids, NoMemory> {
    let mut items = Items::new(alloc);
    for (id, major) in SERVED.iter().take(count) {
        items.push(SyntaxId {
            id: Uuid::from_u128(*id),
            major: *major,
            minor: 0,
        })?;
    }
    if items.len() > SERVED.len() {
        return Err(NoMemory);
    }
    Ok(Ids::from_items(items))
}

/// Numbers to which each three are added.
fn counted(numbers: &[u32]) -> Counted {
    let mut counted = Counted::new();
    for added in numbers.chunks(3) {
        if let [calls, packets_in, packets_out] = added {
            counted.add(*calls, *packets_in, *packets_out);
        }
    }
    counted
}

/// The same that threads may share.
fn tally(numbers: &[u32]) -> Tally {
    let tally = Tally::new();
    for added in numbers.chunks(3) {
        if let [calls, packets_in, packets_out] = added {
            tally.add(*calls, *packets_in, *packets_out);
        }
    }
    tally
}

/// Puts the octets of what a desk without handles answers to a request, in hexadecimal; `no call` or `a fault` where there
/// are none.
fn put_response<D: Desk>(
    alloc: Global,
    desk: &mut D,
    table: &Table,
    op: u16,
    stub: &[u8],
    into: &mut Vec<u8>,
) -> Result<(), NoMemory>
    requires { D.table desk.old ≡ shown table.now }
{
    let (order, request, response) = (Order::Little, Way::Request, Way::Response);
    let Some(uses) = table.handle_uses(op) else {
        return put(b"no call", into);
    };
    if op >= table.op_count() {
        return put(b"no call", into);
    }
    let Ok(asked) = decode(alloc, table, op, request, order, None, stub) else {
        return put(b"no call", into);
    };
    let Ok(message) = decode(alloc, table, op, request, order, None, stub) else {
        return put(b"no call", into);
    };
    let cookies = [None; 4];
    if !has_cookies(uses.as_slice(), message.wires.as_slice(), &cookies) {
        return put(b"no call", into);
    }
    let Answer::Out(said, _) = desk.call(0, op, message, cookies, &mut Silent) else {
        return put(b"a fault", into);
    };
    let mut octets = Vec::new(alloc);
    if encode(table, op, response, order, Some(&asked), &said, &mut octets).is_err() {
        return Err(NoMemory);
    }
    put_hex(alloc, octets.as_slice(), into)
}

/// What management is asked, of which so many interfaces are served.
#[derive(Clone, Copy)]
pub struct Managed<'a> {
    pub served: usize,
    /// Threads may share its numbers.
    pub shared: bool,
    /// What is added to them before.
    pub added: &'a [u32],
    pub op: u16,
    pub stub: &'a [u8],
}

/// Puts what management answers.
pub fn put_managed(alloc: Global, asked: &Managed<'_>, into: &mut Vec<u8>) -> Result<(), NoMemory> {
    let table = mgmt_table(alloc)?;
    let ids = served(alloc, asked.served)?;
    if asked.shared {
        let numbers = Arc::new(alloc, tally(asked.added))?;
        let mut desk = MgmtDesk::new(alloc, ids, numbers);
        put_response(alloc, &mut desk, &table, asked.op, asked.stub, into)
    } else {
        let mut desk = MgmtDesk::new(alloc, ids, counted(asked.added));
        put_response(alloc, &mut desk, &table, asked.op, asked.stub, into)
    }
}

/// What is read of the numbers.
pub fn numbers_read(shared: bool, added: &[u32]) -> [u32; 4] {
    if shared {
        tally(added).read()
    } else {
        counted(added).read()
    }
}
