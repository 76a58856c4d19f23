//! The echo: it serves any interface, and answers a call with the parameters as they came. The items of
//! the heap that these lead to are numbered anew, in the order in which they are met.
//!
//! The probe: an interface whose calls issue handles with cookies of the caller's choice, and close
//! them. It is served as interface 0.
#![tactic(auto)]

mod back;
mod copies;
mod desk;
mod flat;
mod idl;
mod lead;
mod met;
mod operations;
mod probe;
mod table;
mod walk;

pub use desk::EchoDesk;
pub use idl::PROBE_IDL;
pub use probe::ProbeDesk;
pub use table::probe_table;
