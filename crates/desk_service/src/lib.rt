//! The built-in services of a server behind the numbers of their interfaces: the probe is interface 0, the
//! store 1, the endpoint map 2, management 3, and an echo of any interface, where there is one, 4 (C706,
//! "Remote Procedure Call Model", interfaces and managers).
#![tactic(auto)]

mod calls;
mod desks;
mod laws;
mod marked;
mod offers;
mod rundown;
mod tables;

pub use desks::ServiceDesks;
pub use laws::{one_answer, tables_stay};
pub use tables::tables_with;
