//! What happens on one connection of a replay: octets come, and then its acts and the server's words, one after the other,
//! until it rests; its call is taken or ends; or it is lost. Each call leads from each world of the script that the player
//! stands for to the next one.
//!
//! The connections of a replay: each as the connection of the script's world that it is, all of them by name, and what was
//! counted on them.
#![tactic(auto)]

mod acts;
mod answers;
mod calls;
mod coming;
mod going;
mod laws;
mod losing;
mod marked;
mod peers;
mod played;
mod player;
mod print;
mod words;

pub use laws::{totals_grow, totals_open, totals_stay};
pub use peers::Peers;
pub use played::{Kept, Played};
pub use player::Player;
