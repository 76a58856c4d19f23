//! Stubs that are read: the values that stand in them, or the first departure (C706, chapter "Transfer
//! Syntax NDR").
#![tactic(auto)]

mod alone;
mod build;
mod heap;
mod leaves;
mod marks;
mod notes;
mod state;
mod whole;

pub use marks::Marks;
pub use state::Tail;
pub use whole::read;
