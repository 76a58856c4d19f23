//! Messages, read from their texts.

use client_texts::{Handles, read_row};
use ndr_codec::Way;
use ndr_table::Table;
use ndr_value::{Message, Shape, Values, Wires};
use std::alloc::Global;
use value_text::read_value;

// Where the text goes on behind a word.
fn behind(word: &[u8], text: &[u8], at: usize) -> Option<usize> {
    let rest = text.get(at..)?;
    if rest.starts_with(word) {
        Some(at.saturating_add(word.len()))
    } else {
        None
    }
}

/// Values that are read one after the other.
#[derive(Drop)]
struct Reader<'a> {
    alloc: Global,
    table: &'a Table,
    text: &'a [u8],
    at: usize,
    values: Values,
}

impl Reader<'_> {
    // A value of the shape, behind a comma unless it is the first.
    fn value(&mut self, shape: &Shape) -> Option<()> {
        let between: &[u8] = if self.values.is_empty() { b"" } else { b", " };
        let at = behind(between, self.text, self.at)?;
        let (value, end) = read_value(self.alloc, self.table.types(), shape, self.text, at).ok()?;
        self.values.push(value).ok()?;
        self.at = end;
        Some(())
    }

    // The values of a response of the first operation.
    fn values(&mut self) -> Option<()> {
        let table = self.table;
        let op = table.op(0)?;
        for param in &op.params {
            if param.outward {
                self.value(&param.shape)?;
            }
        }
        match &op.result {
            Some(shape) => self.value(shape),
            None => Some(()),
        }
    }
}

// The values of a response of the first operation that have the text.
fn values_of(alloc: Global, table: &Table, text: &[u8]) -> Option<Values> {
    let mut reader = Reader {
        alloc,
        table,
        text,
        at: behind(b"(", text, 0)?,
        values: Vec::new(alloc),
    };
    reader.values()?;
    if behind(b")", text, reader.at)? != text.len() {
        return None;
    }
    Some(reader.values)
}

/// The message of the first operation that has the text, where that is plain.
pub fn message_of(alloc: Global, table: &Table, way: Way, text: &[u8]) -> Option<Message> {
    match way {
        Way::Request => {
            let params = &table.op(0)?.params;
            read_row(alloc, table.types(), params, &Handles::new(alloc), text).ok()?
        }
        Way::Response => Some(Message {
            values: values_of(alloc, table, text)?,
            heap: Vec::new(alloc),
            wires: Wires::new(alloc),
        }),
    }
}

/// Whether the text of a message is read here: it has no handles, and no heap where it is a response.
pub fn has_plain_text(way: Way, message: &Message) -> bool {
    message.wires.is_empty()
        && match way {
            Way::Request => true,
            Way::Response => message.heap.is_empty(),
        }
}
