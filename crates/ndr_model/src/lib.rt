//! NDR as a relation between values and octets: numbers at aligned places, the counts of arrays and the octets of texts,
//! and how octets are read (C706, chapter "Transfer Syntax NDR"): definitions and their laws.
#![tactic(auto)]

mod departure;
mod fault;
mod laws;
mod mark;
mod way;

pub use departure::Departure;
pub use fault::NdrFault;
pub use laws::{read_values_stand, same_is_tested};
pub use mark::Mark;
pub use way::Way;
