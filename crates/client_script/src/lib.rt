//! Call scripts are played: the calls of a caller over the links of a dial, a line of its script for each step, and the
//! outcomes as lines.
//!
//! Call scripts: the texts that write down the calls of a caller, a line for each step.
//!
//! `bind C new`, `bind C with D`, `start C OP (v, v)`, `cancel C`, `wait C`, `close C`. A line that is read is written as
//! the very octets that were read. What a `start` line carries after the name of its operation is judged by the
//! operation's table.
#![tactic(auto)]

mod calling;
mod channel;
mod line;
mod lines;
mod player;
mod read;
mod reading;

pub use calling::{CallEnd, Called, call};
pub use line::{CallLine, MOST_CONNECTIONS};
pub use read::next_line;
