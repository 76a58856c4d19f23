//! NDR as a relation between values and octets: numbers at aligned places, the counts of arrays and the octets of texts,
//! and how octets are read (C706, chapter "Transfer Syntax NDR"): definitions and their laws.
#![tactic(auto)]

mod counts;
mod texts;
mod write;

pub use counts::{CountFault, Counts, read_counts};
pub use texts::{TextFault, read_text};
pub use write::{write_counts, write_text};
