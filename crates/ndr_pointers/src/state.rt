//! What a reader reads, and what it met.

use crate::Referents;
use ndr_table::Table;
use ndr_value::Wires;
use rpc_base::Order;
use std::alloc::Global;

/// A stub, and what it is read by.
#[derive(Clone, Copy)]
pub struct Reader<'a> {
    pub alloc: Global,
    pub table: &'a Table,
    pub order: Order,
    pub octets: &'a [u8],
}

/// The full pointers and handles that were met.
#[derive(Drop)]
pub struct Seen<'a> {
    pub referents: Referents<'a>,
    pub wires: Wires,
}
