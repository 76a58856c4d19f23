//! A value that threads take turns at, with one history of what they did to it.
//!
//! Whoever has the turn changes the value and enters what was added to its history, in one step.
//! Each thread has a pass, of which contracts see a beginning of the history and the places of the
//! entries that its thread entered. The history stands in contracts alone: it takes no memory and
//! never gets shorter, also where the value keeps less of it.
//!
//! The lock is this runtime's own; C706 doesn't say how a server's threads share what it keeps. No
//! clause says that a turn comes or in which order threads get it.
#![tactic(auto)]

mod held;
mod history;
mod lock;
mod steps;
mod views;

pub use history::Storied;
pub use lock::{Held, TurnLock};
pub use views::{Pass, TurnRule, View};
