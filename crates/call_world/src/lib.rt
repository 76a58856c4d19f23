//! A caller, a server and the connections between them as one machine, over which octets are on their way and may be lost: it plays
//! lists of moves.
#![tactic(auto)]

mod finding;
mod handles;
mod line;
mod moves;
mod parts;
mod play;
mod world;

pub use moves::{Move, Moves};
pub use play::{WorldFault, play_world};
pub use world::{FateRow, World};
pub use world_ends::Fate;
