//! Messages, read from their texts: `(v, v)`, ` heap [v, v]` where there are items, and ` wires [ATTRIBUTES:IDENTIFIER, ..]` where there
//! are handles.

use base_words::{read_hex_u32, read_hex_u128};
use ndr_codec::Way;
use ndr_table::Table;
use ndr_value::{Message, Shape, Value, Values, Wires};
use rpc_base::WireHandle;
use std::alloc::Global;
use value_text::read_value;

/// A text that is read, and the place where it goes on.
#[derive(Drop)]
struct Reader<'a> {
    alloc: Global,
    table: &'a Table,
    text: &'a [u8],
    at: usize,
}

impl Reader<'_> {
    /// Whether the word comes next, which is then read.
    fn takes(&mut self, word: &[u8]) -> bool {
        let found = match self.text.get(self.at..) {
            Some(rest) => rest.starts_with(word),
            None => false,
        };
        if found {
            self.at = self.at.saturating_add(word.len());
        }
        found
    }

    fn value(&mut self, shape: &Shape) -> Option<Value> {
        let types = self.table.types();
        let (value, end) = read_value(self.alloc, types, shape, self.text, self.at).ok()?;
        self.at = end;
        Some(value)
    }

    /// A value of the shape, behind a comma unless it is the first.
    fn add(&mut self, shape: &Shape, into: &mut Values) -> Option<()> {
        if !into.is_empty() && !self.takes(b", ") {
            return None;
        }
        let value = self.value(shape)?;
        into.push(value).ok()
    }

    fn values(&mut self, op: u16, way: Way) -> Option<Values> {
        let table = self.table;
        let op = table.op(op)?;
        let mut values = Vec::new(self.alloc);
        if !self.takes(b"(") {
            return None;
        }
        for param in &op.params {
            let goes = match way {
                Way::Request => param.inward,
                Way::Response => param.outward,
            };
            if goes {
                self.add(&param.shape, &mut values)?;
            }
        }
        if let (Way::Response, Some(shape)) = (way, &op.result) {
            self.add(shape, &mut values)?;
        }
        if self.takes(b")") { Some(values) } else { None }
    }

    /// An item of the heap: a value of the first of the interface's structures and unions whose text it is.
    fn item(&mut self) -> Option<Value> {
        let table = self.table;
        for shape in table.types().iter() {
            if let Some(value) = self.value(shape) {
                return Some(value);
            }
        }
        None
    }

    fn heap(&mut self) -> Option<Values> {
        let text = self.text;
        let mut heap = Vec::new(self.alloc);
        let mut word: &[u8] = b" heap [";
        for _ in text {
            if !self.takes(word) {
                break;
            }
            let item = self.item()?;
            heap.push(item).ok()?;
            word = b", ";
        }
        if heap.is_empty() || self.takes(b"]") {
            Some(heap)
        } else {
            None
        }
    }
}

/// The handle that has the text.
pub fn handle_of(text: &str) -> Option<WireHandle> {
    let (attributes, id) = text.split_once(':')?;
    Some(WireHandle {
        attributes: read_hex_u32(attributes.as_bytes())?,
        id: read_hex_u128(id.as_bytes())?,
    })
}

fn wires_of(alloc: Global, words: &str) -> Option<Wires> {
    let mut wires = Wires::new(alloc);
    for word in words.strip_suffix("]")?.split(", ") {
        wires.push(handle_of(word)?).ok()?;
    }
    Some(wires)
}

/// The message of the operation, of that way, that has the text.
pub fn message_of(alloc: Global, table: &Table, op: u16, way: Way, text: &str) -> Option<Message> {
    let (plain, wires) = match text.rsplit_once(" wires [") {
        Some((plain, words)) => (plain, wires_of(alloc, words)?),
        None => (text, Wires::new(alloc)),
    };
    let mut reader = Reader {
        alloc,
        table,
        text: plain.as_bytes(),
        at: 0,
    };
    let values = reader.values(op, way)?;
    let heap = reader.heap()?;
    if reader.at != plain.len() {
        return None;
    }
    Some(Message {
        values,
        heap,
        wires,
    })
}
