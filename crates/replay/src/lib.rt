//! Scripts and loads are replayed, from their texts and numbers to what they print and log: each line of a script is
//! played on the player of a replay, and what is open is closed behind the last one.
//!
//! What every replay keeps of what a server owes to its clients: each connection is answered by the final journal of its
//! group.
#![tactic(auto)]

mod called;
mod closing;
mod finish;
mod laws;
mod lines;
mod lose;
mod playing;
mod promises;
mod reading;
mod replaying;
mod run;
mod say;
mod send;

pub use closing::{close, end_all};
pub use laws::{each_is_a_replay, one_summary};
pub use lines::play_line;
pub use playing::load;
pub use promises::{each_is_served, replays_serve_all};
pub use replay_world::ReplayFault;
pub use replaying::{Replayed, replay};
