//! Marshalling tables, as stories write them: the version, a line for each structure and union, and for each operation a line
//! with its result, one for each parameter and one for each handle.

use base_words::put;
use idl_check::check;
use idl_reader::read_idl;
use marshal_table::build;
use ndr_table::{HandleUse, Op, Param, Table};
use rpc_base::NoMemory;
use std::alloc::Global;

/// The table of an interface text, if it has one.
fn table_of(alloc: Global, text: &[u8]) -> Option<Table> {
    let tree = read_idl(alloc, text).ok()?;
    let checked = check(alloc, &tree).ok()?;
    build(alloc, &checked).ok()?.copy(alloc).ok()
}

fn way(inward: bool, outward: bool) -> &'static str {
    match (inward, outward) {
        (true, true) => "in, out",
        (true, false) => "in",
        (false, true) => "out",
        (false, false) => "neither",
    }
}

fn put_param(alloc: Global, param: &Param, into: &mut Vec<u8>) -> Result<(), NoMemory> {
    let (way, shape) = (way(param.inward, param.outward), &param.shape);
    put(format!(in alloc; "{way} {shape:?}")?.as_bytes(), into)?;
    if let Some(range) = param.range {
        let (low, high) = (range.low, range.high);
        put(
            format!(in alloc; " range {low} to {high}")?.as_bytes(),
            into,
        )?;
    }
    put(b"\n", into)
}

fn put_use(alloc: Global, of: HandleUse, into: &mut Vec<u8>) -> Result<(), NoMemory> {
    let (way, kind) = (way(of.inward, of.outward), of.kind);
    let order = if of.serialised { " serialised" } else { "" };
    put(
        format!(in alloc; "handle {kind} {way}{order}\n")?.as_bytes(),
        into,
    )
}

fn put_head(alloc: Global, op: &Op, into: &mut Vec<u8>) -> Result<(), NoMemory> {
    put(op.name.as_slice(), into)?;
    if let Some(shape) = &op.result {
        put(format!(in alloc; " -> {shape:?}")?.as_bytes(), into)?;
    }
    if op.status {
        put(b" status", into)?;
    }
    if op.maybe {
        put(b" maybe", into)?;
    }
    put(b"\n", into)
}

fn put_op(alloc: Global, op: &Op, into: &mut Vec<u8>) -> Result<(), NoMemory> {
    put_head(alloc, op, into)?;
    for param in &op.params {
        put_param(alloc, param, into)?;
    }
    Ok(())
}

/// The operation of that number and its handles; `none` where there is none.
fn put_numbered(
    alloc: Global,
    table: &Table,
    number: u16,
    into: &mut Vec<u8>,
) -> Result<(), NoMemory> {
    match (table.op(number), table.handle_uses(number)) {
        (Some(op), Some(uses)) => {
            put_op(alloc, op, into)?;
            for of in uses.as_slice() {
                put_use(alloc, *of, into)?;
            }
            Ok(())
        }
        (None, None) => put(b"none\n", into),
        _ => put(b"differ\n", into),
    }
}

/// Puts the table of an interface text; `none` stands behind its operations.
///
/// # Errors
///
/// `NoMemory` where there is no memory for it.
pub fn put_table(alloc: Global, text: &[u8], into: &mut Vec<u8>) -> Result<(), NoMemory> {
    let Some(table) = table_of(alloc, text) else {
        return put(b"no table", into);
    };
    let (major, minor) = (table.syntax().major, table.syntax().minor);
    put(format!(in alloc; "{major}.{minor}\n")?.as_bytes(), into)?;
    for shape in table.types() {
        let align = table.align(shape);
        put(
            format!(in alloc; "type {align} {shape:?}\n")?.as_bytes(),
            into,
        )?;
    }
    for number in 0..table.op_count() {
        put_numbered(alloc, &table, number, into)?;
    }
    put_numbered(alloc, &table, table.op_count(), into)
}
