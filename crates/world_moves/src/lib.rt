//! Laws of the moves of a caller and a server: which journal and which rows they leave, where each of them leads on, and where to
//! one world alone.
#![tactic(auto)]

mod leads;
mod legal;
mod one;
mod rows;

pub use leads::{callers_lead, ends_enter, finishes_lead, servers_lead, takes_all_lead};
pub use legal::{fates_are_always_true, handles_are_always_kept, journals_are_legal};
pub use one::{callers_lead_to_one, still_moves_lead_to_one};
pub use rows::{each_accept_is_a_rows_call, rows_are_accepted};
