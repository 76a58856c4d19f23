//! Rows of the values of requests, `NAME | WORD TEXT | WANTED`: each is read, and what comes is written again.

use base_words::{put, put_decimal};
use cases_base::{Answers, CasesFault, Names, Told, answered, bare, first_word};
use client_texts::{Handles, put_row, read_row};
use ndr_lines::table_of;
use ndr_table::Table;
use ndr_value::Message;
use rpc_base::{NoMemory, WireHandle};
use std::alloc::Global;

/// What is told of rows of values. `row` has a handle, a text and a handle, where two handles have come whose attributes are 7
/// and 8, and wants the row and the attributes of its handles; `unnamed` has the same, and is written where only the second has
/// come. `heap` has a full pointer to a node, which holds a number and a full pointer to a node, and wants how many items there
/// are. What is no text of such values is `none`.
pub fn call_texts(alloc: Global, text: &str) -> Result<Told, CasesFault> {
    let Some(table) = table_of(alloc, INTERFACE.as_bytes()) else {
        return Err(CasesFault::Memory);
    };
    answered(alloc, &mut Rows { table }, text)
}

const INTERFACE: &str = "[uuid(5f0c7a12-3b4d-4e6f-8a90-b1c2d3e4f506)] interface i {
    typedef [context_handle] void *one;
    typedef [context_handle] void *other;
    void row([in] one a, [in, string] char s[], [out] unsigned long *n, [in] other b);
    void heap([in, ptr] struct node {long v; [ptr] struct node *next;} *head);
}";

/// The interface whose operations have the values.
#[derive(Drop)]
struct Rows {
    table: Table,
}

fn known(alloc: Global, attributes: &[u32]) -> Result<Handles, NoMemory> {
    let mut known = Handles::new(alloc);
    for attributes in attributes {
        known.learn(&[WireHandle {
            attributes: *attributes,
            id: 1,
        }])?;
    }
    Ok(known)
}

impl Rows {
    fn message(
        &self,
        alloc: Global,
        op: u16,
        known: &Handles,
        text: &str,
    ) -> Result<Option<Message>, NoMemory> {
        match self.table.op(op) {
            Some(op) => read_row(
                alloc,
                self.table.types(),
                &op.params,
                known,
                text.as_bytes(),
            ),
            None => Ok(None),
        }
    }
}

/// The row of a message, and the attributes of its handles.
fn put_message(
    alloc: Global,
    known: &Handles,
    message: &Message,
    into: &mut Vec<u8>,
) -> Result<(), NoMemory> {
    let mut row = Vec::new(alloc);
    if !put_row(alloc, known, message, &mut row)? {
        return put(b"no row", into);
    }
    put(&row, into)?;
    for wire in message.wires.as_slice() {
        put(b" ", into)?;
        put_decimal(alloc, u64::from(wire.attributes), into)?;
    }
    Ok(())
}

impl Answers for Rows {
    fn answer(
        &mut self,
        alloc: Global,
        _names: &Names,
        given: &str,
        into: &mut Vec<u8>,
    ) -> Result<bool, NoMemory> {
        let (word, text) = first_word(given);
        let came = known(alloc, &[7, 8])?;
        let op = match word {
            "row" | "unnamed" => 0,
            "heap" => 1,
            _ => return Ok(false),
        };
        let Some(message) = self.message(alloc, op, &came, bare(text))? else {
            put(b"none", into)?;
            return Ok(true);
        };
        match word {
            "heap" => put_decimal(alloc, message.heap.len() as u64, into)?,
            "unnamed" => put_message(alloc, &known(alloc, &[8])?, &message, into)?,
            _ => put_message(alloc, &came, &message, into)?,
        }
        Ok(true)
    }
}
