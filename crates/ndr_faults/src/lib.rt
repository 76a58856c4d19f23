//! The departure that a reading of a stub tells is the first of the stub, and what stands at its index is
//! its cause (C706, chapter "Transfer Syntax NDR").
//!
//! The levels that a reading of a stub counts never end before the stub's own departure (C706, chapter
//! "Transfer Syntax NDR").
#![tactic(auto)]

mod fuel_laws;
mod laws;

pub use fuel_laws::fuel_suffices;
pub use laws::{reads_first, stub_departs};
