//! What is asked on a connection on which several calls are unanswered at once. Its definitions (`specs/`) are over lists of
//! PDUs and of the calls that are unanswered, which are told apart by their ids: they know no buffer.
#![tactic(auto)]

mod laws;
mod one_more;
mod open_calls;

pub use laws::{asks_by_id, asks_while_alone, ids_stay_apart};
pub use one_more::busy;
pub use open_calls::{MOST_OPEN, OpenCall, OpenCalls};
