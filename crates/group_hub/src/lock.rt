//! A shard's lock.
use hub_shard::Shard;
use turn_lock::TurnLock;

/// A seat at a shard's lock.
pub(crate) type Seat = turn_lock::Pass<Shard>;

/// One shard, which threads take turns at.
#[derive(Drop)]
pub struct ShardLock {
    pub(crate) lock: TurnLock<Shard>,
    /// The boot word of the server.
    pub(crate) boot: u64,
    /// The number of the shard.
    pub(crate) number: u32,
}
