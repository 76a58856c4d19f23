//! A replay script as it is played: the connections, groups and desks that its lines move, each by what its own layer
//! says of it. What each line does, and what a whole script leaves, is defined in `specs/`; what a load hears of its
//! steps is the PDUs that were answered, of the text that was printed.
//!
//! What holds at each moment of a replay, whatever its lines: which connection is which member of a group, and whose
//! each call is.
//!
//! Laws of replays: a text has one. A load, as what it comes to by the layers' own words (`specs/`), comes to one end, and
//! is the replay of a script.
#![tactic(auto)]

mod fault;
mod heard;
mod laws;
mod loads;
mod peer;
mod replay_laws;

pub use fault::ReplayFault;
pub use heard::answered_in;
pub use laws::{events_keep, holds_at_start, lines_keep};
pub use loads::{loads_are_replays, one_load};
pub use peer::{Member, Standing, Unanswered};
pub use replay_laws::{Serves, one_replay, only_these};
