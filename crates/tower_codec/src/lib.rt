//! Protocol towers of connection-oriented RPC over TCP and IP as octets, both ways (C706, "Protocol
//! Tower Encoding").
#![tactic(auto)]

mod fault;
mod reading;
mod tower;
mod writing;

pub use fault::TowerFault;
pub use reading::read_tower;
pub use tower::{TOWER_SIZE, Tower, protocols};
pub use writing::write_tower;
