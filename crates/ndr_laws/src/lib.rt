//! Laws of NDR: what stands in a stub is read, and what is read stands there (C706, chapter "Transfer
//! Syntax NDR").
//!
//! The canonical octets of messages, and their laws (C706, chapter "Transfer Syntax NDR").
#![tactic(auto)]

mod laws;
mod written_laws;

pub use laws::{one_message, read_is_stub, stub_is_read};
pub use written_laws::{read_is_of_op, stub_is_of_op, written_is_read, written_is_stub};
