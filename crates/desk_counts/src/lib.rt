//! What a server counts of its calls and packets (C706, "Remote Management Interface",
//! rpc__mgmt_inq_stats): calls in, calls out, packets in, packets out. A number stops at 2^32 - 1.
#![tactic(auto)]

mod counted;
mod stats;
mod tally;

pub use counted::Counted;
pub use stats::Stats;
pub use tally::Tally;
