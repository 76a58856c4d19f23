//! The desk of the endpoint map: which interfaces are offered where. It is served as interface 2.
//!
//! The endpoint map (C706, chapter "Endpoint Mapper Interface Definition"): what its operations do
//! (`specs/`), its interface as text and as a table, how entries compare, and which are found.
//!
//! What requests of the endpoint map ask for: entries, and tests of entries.
//!
//! Responses of the endpoint map as messages.
//!
//! Each operation of the endpoint map answers with a response to its request: a law of the
//! definitions.
#![tactic(auto)]

mod answer_values;
mod answers;
mod asked;
mod compare;
mod desk;
mod entry;
mod finding;
mod idl;
mod laws;
mod numbering;
mod request_laws;
mod request_values;
mod table;
mod wanted;

pub use answer_values::{entry_values, tower_values};
pub use answers::{listing, status_alone};
pub use asked::{entries_at, lookup_wants, map_wants, tower_of};
pub use compare::{are_there, is_like, unlike};
pub use desk::{EpmDesk, RegisterRefusal};
pub use entry::{Likeness, MapEntry, Numbered, is_note};
pub use finding::{Given, find, last_number};
pub use idl::EPM_IDL;
pub use laws::steps_owe;
pub use request_laws::{spelled_is_tower, tower_is_spelled};
pub use table::epm_table;
pub use wanted::{Versions, Wanted, wants};
