//! The groups of a server, which threads share: sixteen shards, each behind a turn of its own.
//!
//! The id of a group tells its shard. A call on a group takes the turn of that shard alone, so calls in
//! groups of different shards don't wait for each other, and nobody holds two turns. Which thread gets a
//! turn next, and whether it comes, is said by no clause.
//!
//! One shard of a hub behind its lock, which threads take turns at.
//!
//! A call takes the turn of the shard, runs its act there, and enters what the act added before it
//! gives the turn back. Its contract says at which place of that shard's history that was.
#![tactic(auto)]

mod calls;
mod find;
mod hub;
mod lock;
mod new;
mod opening;
mod pass;
mod retiring;
mod seats;
mod shard_calls;
mod shard_find;
mod shard_new;
mod shard_opening;
mod shard_pass;
mod shard_retiring;
mod shard_seats;
mod turn;

pub use hub::Hub;
pub use hub_shard::{Absence, FindRefusal, HubRest, OpenRefusal, Retired, ShutKey};
pub use lock::ShardLock;
pub use pass::Pass;
pub use shard_pass::ShardPass;
