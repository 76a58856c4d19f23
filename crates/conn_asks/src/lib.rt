//! What the PDUs of a connection ask, and what is answered. Its definitions (`specs/`) are over lists of
//! PDUs and the octets behind them: they know no buffer.
#![tactic(auto)]

mod answers;
mod asking;
mod events;
mod replies;

pub use answers::{agreement, alter_resp, bind_ack, bind_nak, closing, fault, refusal};
pub use asking::{ask, broken};
pub use events::{Act, Agreement, Ask, Caller, ConnFault, Waits};
pub use replies::reply;
