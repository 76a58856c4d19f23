//! Replay scripts: the texts that write one interleaving of connections and calls down, a line for
//! each step.
//!
//! A line that is read is written as the very octets that were read. Which lines may follow which
//! is a grammar over lists of lines: what is said here of scripts and of the first line that
//! departs from them holds for every such grammar.
//!
//! The script of a load: connections that are opened, bound, used and lost by numbers that follow from one number. Each step
//! depends on what was answered so far, so a load is made and played step by step.
//!
//! What a load comes to: how many entries of each kind its journals have, and the line that tells so.
#![tactic(auto)]

mod counted_line;
mod counts;
mod deed;
mod laws;
mod line;
mod load;
mod pdus;
mod read;
mod script;
mod slot;

pub use counted_line::summary;
pub use counts::Counts;
pub use deed::{Deed, Step};
pub use laws::{entry_counts, group_counts, quiet_count, tells_more};
pub use line::{Line, MOST_CONNECTIONS};
pub use load::{Load, MOST_STEPS};
pub use read::next_line;
pub use script::{first_line, lines};
