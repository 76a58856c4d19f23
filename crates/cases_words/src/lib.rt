//! Cases of words: numbers and octets as texts, the lines of scripts, what the words of a command line ask, and what links in
//! memory answer by their scripts.
#![tactic(auto)]

mod ask_rows;
mod doors;
mod given;
mod line_rows;
mod link_rows;
mod word_rows;

pub use ask_rows::asks;
pub use line_rows::lines;
pub use link_rows::links;
pub use word_rows::words;
