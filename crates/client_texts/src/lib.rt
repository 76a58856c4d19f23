//! Texts of the values of calls, as call scripts and their answers have them: value texts in brackets, in which a context
//! handle stands by its name, `$null` or `$hN`.
//!
//! The lines in which the outcomes of a call script are told: `C bound G`, `C refused R`, `C done (v, v)`,
//! `C fault XXXXXXXX run` or `not-run`, and `C lost`.
//!
//! What is told of a caller's calls: that each answer has its line, and no other.
#![tactic(auto)]

mod aims;
mod answer_laws;
mod answers;
mod handles;
mod heaps;
mod items;
mod laws;
mod names;
mod rows;

pub use answer_laws::{has_line, has_text, one_line};
pub use answers::{put_answer, put_lost};
pub use handles::Handles;
pub use laws::{one_answer, one_message, one_request};
pub use rows::{put_row, read_row};
