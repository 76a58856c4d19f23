//! One connection of a caller as a pure machine: what is begun becomes octets, and the server's PDUs are
//! told as outcomes.
//!
//! What a caller begins on a connection, and what a server's PDUs tell it: the octets that are sent, and
//! definitions (`specs/`) of the states between.
#![tactic(auto)]

mod begun;
mod calls;
mod client;
mod hearing;
mod offers;
mod requests;
mod responses;
mod told;

pub use begun::{CallOut, Out, Stage};
pub use client::Client;
pub use offers::{BIND_ID, alter, bind, co_cancel};
pub use requests::Request;
pub use told::{ClientFault, Told};
