//! A connection of a server joins the group that its bind asks for, or is refused (C706, "Connection-oriented RPC
//! PDUs", association groups), and comes to an end (C706, "Connection-oriented RPC protocol machines", server). What its
//! end says of its group's journal, of its link and of its pass is defined in `specs/`.
#![tactic(auto)]

mod ended;
mod joining;

pub use ended::{Ending, Finished};
pub use joining::{Membership, join_group};
