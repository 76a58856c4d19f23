//! The text of a journal: a heading line, the lines of its base, and one line for each entry.
#![tactic(auto)]

mod base;
mod line;
mod part;

pub use line::{entry_text, group_text, journal_text};
