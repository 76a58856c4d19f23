//! The connections of a server side by side: each link that a door hands out is served in a thread of its own, and every
//! thread is joined before the round of them ends (C706, "Connection-oriented RPC protocol machines", server).
//!
//! The threads share the hub and the service, and nothing else: a connection has its link and its pass for itself, and
//! both come back at the join. What holds of a server's groups at the end of a round is the law `groups_end`.
#![tactic(auto)]

mod laws;
mod round;
mod running;
mod serving;
mod settled;

pub use laws::groups_end;
pub use round::{Round, Stop, serve};
pub use settled::Settled;
