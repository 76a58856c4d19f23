//! Laws of a connection's turns in its group's journal: how they go on, entry by entry, and what the journal replies to
//! their calls.
//!
//! Laws of a connection's turns and what it was asked: the octets that are put are the answers, by the journal of its
//! group.
//!
//! How a connection's turns go on with what its group says of its calls: one step of the journal after another, with
//! what the connection enters then and why. The steps are lemmas, in `proofs/`.
//!
//! Laws of a connection's turns behind the calls of its pass: what others entered in its group's journal since the pass
//! saw it leaves the turns as they stand.
#![tactic(auto)]

mod answer_laws;
mod laws;
mod pass_laws;

pub use answer_laws::{one_piece, stories_answer, turns_answer, turns_are_put};
pub use laws::{
    Serving, dues_stay, finished_stay, reasons_stay, stories_stay, turns_are_left,
    turns_are_replied, turns_go_on, turns_have_ended, turns_have_reasons, turns_stay,
};
pub use pass_laws::{calls_enter, others_enter, stories_are_kept, turns_are_kept};
