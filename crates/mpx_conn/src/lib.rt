//! One connection of a server on which up to 32 calls are unanswered at once, as a pure machine: octets come in any pieces, acts
//! come out in the order of what the PDUs ask, and calls are answered by their ids, in whichever order they end.
#![tactic(auto)]

mod acts;
mod conn;
mod next;

pub use conn::MpxConn;
pub use conn_asks::{Act, ConnFault};
