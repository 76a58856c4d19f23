//! Calls of a server's interfaces, up to their managers and back: the slots of a request or why it is
//! refused, the message that a manager gets, and what the end of a call does and says by its manager's
//! answer (C706, "Remote Procedure Call Model" and "Interface Definition Language", context handles).
//!
//! Calls on managers, which serve many connections at once (C706, "Remote Procedure Call Model", managers): what a
//! manager is, what is ready for a call before it is accepted, and the end that a manager's answer gives it.
#![tactic(auto)]

mod end;
mod given;
mod laws;
mod manager;
mod outcomes;
mod ready;
mod request;
mod running;
mod service;
mod slots;
mod words;

pub use end::{Ended, end_of};
pub use given::{first_cookies, row_for, same_message, suit_cookies};
pub use laws::{cookies_are_given, kepts_are_for_slots, numbered_stay, results_suit};
pub use manager::Manager;
pub use outcomes::Room;
pub use ready::{Ready, prepared};
pub use request::{message_of, slots_of};
pub use running::{Answered, run};
pub use service::Service;
