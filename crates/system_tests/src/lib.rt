//! The outside over the system: its files and what is written to it, and its sockets, against a client of the tests' own
//! on the loopback.
#![tactic(auto)]

#[cfg(test)]
mod files;
#[cfg(test)]
mod sockets;
