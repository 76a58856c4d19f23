//! Plays lists of moves of a caller, a server and the connections between them, as cases: what the caller then knows of each call, what
//! became of handles, and the whole journal.
//!
//! A text begins with the interface that the server has, and a line `--`. Each case behind it is a line `# NAME`, a line for each move, a
//! line `--`, the lines of its outcome and a line `==`.
#![tactic(auto)]

mod cases;
mod messages;
mod moves;
mod outcome;

pub use cases::worlds;
