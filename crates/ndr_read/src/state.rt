//! Where a reader stands, and what it read.

use crate::marks::Marks;
use ndr_model::Mark;
use ndr_pointers::{Referents, Seen};
use ndr_value::{Value, Wires};
use std::alloc::Global;

/// Where a flat part goes on, and how many full pointers' ids and how many handles were met before.
#[derive(Drop)]
pub(crate) struct Flat {
    pub(crate) at: usize,
    pub(crate) ids: usize,
    pub(crate) handles: usize,
}

/// An item of the heap.
#[derive(Drop)]
pub(crate) struct Kept {
    pub(crate) number: u32,
    pub(crate) value: Value,
}

/// Where referents go on, and what was met and read before.
#[derive(Drop)]
pub struct Tail<'a> {
    pub(crate) at: usize,
    pub(crate) seen: Seen<'a>,
    pub(crate) items: Vec<Kept>,
    pub(crate) marks: Marks,
}

impl<'a> Tail<'a> {
    ghost use Rattle.std.specs.Prelude.{◌≡◌};
    ghost use Rattle.ndr_model.specs.Stub.{start};
    ghost use Rattle.ndr_read.specs.Views.{last_of};

    /// At the first octet of a stub. It takes no memory.
    pub fn new(alloc: Global) -> Tail<'a>
        ensures { last_of result ≡ start }
    {
        Tail {
            at: 0,
            seen: Seen {
                referents: Referents::new(alloc),
                wires: Wires::new(alloc),
            },
            items: Vec::new(alloc),
            marks: Marks::new(alloc),
        }
    }

    /// The marks of what was read.
    pub fn marks(&self) -> &[Mark]
        ensures { result.now ≡ (last_of self.now).marks }
    {
        self.marks.as_slice()
    }
}
