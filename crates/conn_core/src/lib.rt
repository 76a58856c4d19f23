//! One connection of a server as a pure machine: octets come in any pieces, and acts come out, in the order
//! of what the PDUs ask.
#![tactic(auto)]

mod acts;
mod behind;
mod called_off;
mod conn;
mod laws;
mod next;

pub use behind::uncut;
pub use conn::Conn;
pub use conn_asks::{Act, ConnFault};
pub use laws::{closed_for_good, failed_for_good};
