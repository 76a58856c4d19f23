//! Hello: guests come into a room that has room for so many, and leave it. It is the service to copy for one of your own
//! (`docs/new_service.sh`).
#![tactic(auto)]

mod idl;
mod room;
mod steps;

pub use idl::HELLO_IDL;
pub use room::Hello;
