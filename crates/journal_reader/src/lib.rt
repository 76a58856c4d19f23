//! Reads the texts of journals: exactly where a text begins with a line, and as what that line
//! says.
#![tactic(auto)]

mod asked;
mod bases;
mod cut;
mod entries;
mod list;
mod next;
mod part;

pub use next::{next_base, next_call, next_entry, next_group};
