//! Reads interface texts (C706, chapter "Interface Definition Language"): exactly those of the
//! grammar, and every other text is refused at its first departure.
//!
//! Readers of type specs, and of the attributes and members that hold them.
#![tactic(auto)]

mod attributes;
mod declarations;
mod fault;
mod file;
mod operations;
mod read;
mod types;

pub use fault::IdlFault;
pub use read::read_idl;
pub use types::{attrs, spec};
