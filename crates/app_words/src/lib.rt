//! The words of the program, which `clap` reads as one command with a level of subcommands.
//!
//! Texts of addresses, `A.B.C.D:PORT`: four numbers and a port, in decimal without leading zeros.
#![tactic(auto)]

mod command;
mod read;
mod usage;
mod words;

pub use command::Asked;
pub use read::read_address;
pub use words::asked;
