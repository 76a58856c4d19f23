//! A register behind a turn lock, and a store behind one with a told history: one thread, two threads, passes that are
//! split and joined.
#![tactic(auto)]

mod register;
#[cfg(test)]
mod tests;
#[cfg(test)]
mod told;

pub use register::{Mark, Register, count_marks, enter_mark};
