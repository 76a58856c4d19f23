//! The shards side by side.
ghost use Rattle.std.specs.Prelude.{◌≡◌, ◌<◌, slice_index_or};
ghost use Rattle.group_hub.specs.Shards.{AreShards, shard_of};

use crate::ShardLock;
use std::sync::atomic::AtomicU64;

/// The groups of a server, in sixteen shards, each behind its own lock.
#[derive(Drop)]
pub struct Hub {
    pub(crate) shards: Vec<ShardLock>,
    /// The boot word of the server.
    pub(crate) boot: u64,
    /// Where to look first for room for a group. It is a hint: nothing is claimed of it.
    pub(crate) hint: AtomicU64,
    ghost whole: { AreShards boot shards.items },
}

impl Hub {
    /// The boot word of the server, which each group has.
    pub fn boot(&self) -> u64
        ensures { result ≡ self.now.boot }
    {
        self.boot
    }

    /// The shard of a number.
    pub(crate) fn shard(&self, number: usize) -> &ShardLock
        requires { number < 16 }
        ensures is { result.now ≡ slice_index_or self.now.shards.items number result.now }
        ensures whose { (result.now.boot ≡ self.now.boot) × (result.now.number ≡ number) }
    {
        &self.shards[number]
    }
}

/// The number of the shard of an id, from 0 to 15.
pub(crate) fn shard_of(id: u32) -> usize
    ensures is { result ≡ shard_of id }
    ensures small { result < 16 }
{
    (id.saturating_sub(1) % 16) as usize
}
