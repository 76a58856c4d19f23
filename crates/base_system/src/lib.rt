//! The outside over the system: its files, what is written to it, and its TCP sockets, as links to peers, a door that
//! listens at an address, and a dial that calls one.
//!
//! A socket never blocks its thread: a call reads or writes at once where that can be done, and else waits until the system
//! reports the socket ready, for a turn of 10 milliseconds at a time. A server's take and its door wait for up to 10 seconds,
//! which octets, a caller, a number that is rung or a bell end.
//! What files and sockets hold isn't told; their failures, quiet turns and ends are counted.
#![tactic(auto)]

mod address;
mod alarm;
mod bells;
mod connection;
mod dial;
mod door;
mod files;
mod habit;
mod link;
mod output;
mod waiter;

pub use dial::SocketDial;
pub use door::SocketDoor;
pub use files::FileShelf;
pub use link::SocketLink;
pub use output::Output;
