//! Pointers of a stub: which of them have referents, and what their ids are (C706, chapter "Transfer
//! Syntax NDR", pointers).
//!
//! Flat parts of stubs that are gone over: where their referents begin, which full pointers and handles
//! they have, or the first departure (C706, chapter "Transfer Syntax NDR").
#![tactic(auto)]

mod fault;
mod full;
mod pieces;
mod referents;
mod same;
mod scan;
mod scan_fault;
mod state;

pub use fault::PointerFault;
pub use pieces::{aligned, arm_for, tag_octets};
pub use referents::{Met, Points, Referents};
pub use same::same_shape;
pub use scan::{if_last, scan_flat};
pub use scan_fault::ReadError;
pub use state::{Reader, Seen};
