//! The command `serve`: a server over a door, from its first octet to the lines and the journals that it prints.
//!
//! What holds of a served connection by the journals that are kept and printed once it is over, and what stands behind the
//! limits for which binds are refused.
//!
//! The journals of all groups of a hub as text.
//!
//! What the command `serve` prints of its connections, and its status by their endings.
#![tactic(auto)]

mod back;
mod command;
mod ending;
mod journals;
mod laws;
mod lines;
mod over;
mod printed;
mod status;
mod sums;
mod texts;

pub use command::serve;
pub use journals::put_journals;
pub use laws::{
    answers_stay, folds_tell, joins_are_taken, members_last, others_follow, room_is_taken,
};
pub use over::serve_over;
pub use printed::Printed;
pub use status::status_of;
pub use texts::{connection_line, stats_line};
