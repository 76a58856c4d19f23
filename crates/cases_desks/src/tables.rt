//! The interfaces' texts: read, checked and built, they give the tables that are written by hand.

use echo_manager::{PROBE_IDL, probe_table};
use epm_manager::{EPM_IDL, epm_table};
use idl_check::check;
use idl_reader::read_idl;
use marshal_table::{Table, build};
use mgmt_manager::{MGMT_IDL, mgmt_table};
use rpc_base::NoMemory;
use std::alloc::Global;
use store_manager::{STORE_IDL, store_table};

/// The table of a text. None where it is no interface's.
pub fn table_of(alloc: Global, text: &str) -> Option<Table> {
    let tree = read_idl(alloc, text.as_bytes()).ok()?;
    let checked = check(alloc, &tree).ok()?;
    build(alloc, &checked).ok()
}

/// Whether two tables have the same types.
fn same_types(alloc: Global, one: &Table, other: &Table) -> Result<bool, NoMemory> {
    let (one, other) = (one.types().as_slice(), other.types().as_slice());
    let (one, other) = (
        format!(in alloc; "{one:?}")?,
        format!(in alloc; "{other:?}")?,
    );
    Ok(one == other)
}

/// Whether two tables have the same operation of that number, and the same handles there.
fn same_op(alloc: Global, one: &Table, other: &Table, number: u16) -> Result<bool, NoMemory> {
    let (Some(op), Some(second)) = (one.op(number), other.op(number)) else {
        return Ok(false);
    };
    let (Some(uses), Some(handles)) = (one.handle_uses(number), other.handle_uses(number)) else {
        return Ok(false);
    };
    let (op, second) = (
        format!(in alloc; "{op:?}")?,
        format!(in alloc; "{second:?}")?,
    );
    Ok(op == second && uses.as_slice() == handles.as_slice())
}

/// How many operations both have, where the two are the same.
fn operations(alloc: Global, one: &Table, other: &Table) -> Result<Option<u16>, NoMemory> {
    let count = one.op_count();
    if count != other.op_count() || one.syntax() != other.syntax() {
        return Ok(None);
    }
    for number in 0..count {
        if !same_op(alloc, one, other, number)? {
            return Ok(None);
        }
    }
    Ok(same_types(alloc, one, other)?.then_some(count))
}

/// How many operations the interface of that name has in its text and by hand, where the two tables are the same.
pub fn table_told(alloc: Global, name: &str) -> Result<Option<u16>, NoMemory> {
    let (text, hand) = match name {
        "probe" => (PROBE_IDL, probe_table(alloc)?),
        "store" => (STORE_IDL, store_table(alloc)?),
        "map" => (EPM_IDL, epm_table(alloc)?),
        "management" => (MGMT_IDL, mgmt_table(alloc)?),
        _ => return Ok(None),
    };
    match table_of(alloc, text) {
        Some(table) => operations(alloc, &table, &hand),
        None => Ok(None),
    }
}
