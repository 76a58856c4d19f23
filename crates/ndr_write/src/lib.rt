//! Messages that are written: their canonical octets (C706, chapter "Transfer Syntax NDR").
#![tactic(auto)]

mod arrays;
mod bytes;
mod entries;
mod flat;
mod front;
mod leaves;
mod numbers;
mod pointers;
mod state;
mod whole;

pub use entries::write;
