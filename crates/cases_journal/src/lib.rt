//! Plays cases of journals: lines that are read and written, the verdicts on texts of journals, and calls on groups with
//! what their journals are folded to.
#![tactic(auto)]

mod escapes;
mod groups;
mod journals;
mod lines;
mod parts;
mod verdicts;

pub use groups::group_calls;
pub use journals::journal_texts;
pub use lines::entry_lines;
