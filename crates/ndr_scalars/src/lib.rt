//! NDR as a relation between values and octets: numbers at aligned places, the counts of arrays and the octets of texts,
//! and how octets are read (C706, chapter "Transfer Syntax NDR"): definitions and their laws.
#![tactic(auto)]

mod read;
mod write;

pub use read::{Short, read_half_word, read_int, read_uint, read_word};
pub use write::{write_int, write_uint};
