//! What runs behind the calls of an interface: a desk, which answers a call from its state and the
//! call alone, and says what it may answer (C706, "Remote Procedure Call Model", managers).
//!
//! The interfaces that a server offers, by number: each as its marshalling table (C706, "Remote Procedure
//! Call Model", interfaces and managers).
#![tactic(auto)]

mod answer;
mod arguments;
mod cookies;
mod desk;
mod outgoing;
mod probe;
mod served;

pub use answer::{Answer, Kept, Kepts, or_no_memory};
pub use arguments::{append_bytes, append_value, bytes_len, text_at, text_of, uint_at, uint_of};
pub use cookies::has_cookies;
pub use desk::{Desk, FixedDesk};
pub use outgoing::{handle_and_status, response};
pub use probe::Probe;
pub use served::{MOST_INTERFACES, Served, Tables};
