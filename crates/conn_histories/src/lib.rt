//! Definitions of what happens on a connection of a server, for all that speak of its history. They stand in `specs/`:
//! which events lead from one state to another, what is seen of them, and how they answer what the PDUs ask; why a
//! request is refused before it is accepted, which slots a call has, and what its end has to say; and the connection's
//! story as turns, by what each thing that it was asked came to: what the turns say of the journal, of what is done and
//! of what is answered.
//!
//! Laws of a connection: its acts and answers are what its octets ask, and don't depend on the pieces in which
//! they come.
#![tactic(auto)]

mod laws;
mod turn;

pub use laws::{
    act_stays, acts_are_asks, all_has_come, asks_go_on, calls_are_whole_runs,
    calls_stay_unanswered, close_is_last, comes_on, each_asks, each_call_answered, each_goes,
    each_reply, each_rests, goes_on_in_the_stream, histories_go_on, leaves_of_all, one_act,
    one_answer, one_asking, one_event_more, others_while_free, put_in_order, same_acts,
    same_answers, skipped_before, whole_runs_are_runs,
};
pub use turn::{Deed, Fate, Off, Offs, Request, Run, Turn};
