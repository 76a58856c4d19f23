//! The program as server and caller over the loopback: what it prints of the connection that it serves and of the calls that it
//! makes, and its status.
#![tactic(auto)]

#[cfg(test)]
mod outcome;
#[cfg(test)]
mod round;
