//! What every crate of the runtime speaks of: lists, identifiers, status codes, the fields of PDUs
//! and stubs, and the outside as the runtime sees it (files that are loaded whole, outputs).
#![tactic(auto)]

mod fault;
mod fields;
mod identifiers;
mod items;
mod names;
mod shelf;
mod sink;

pub use fault::{Failed, NoMemory, OutFault};
pub use fields::{
    drep_order, get_handle, get_syntax, get_u16, get_u32, get_u64, get_uuid, put_handle,
    put_syntax, put_u16, put_u32, put_u64, put_uuid,
};
pub use identifiers::{Order, Status, SyntaxId, WireHandle};
pub use items::{Exact, Items, Numbers, Octets, same_items};
pub use names::{Names, named, put_at_name};
pub use shelf::{MapShelf, Shelf, ShelfFile, ShelfFiles};
pub use sink::{Sink, VecSink, put_all};
