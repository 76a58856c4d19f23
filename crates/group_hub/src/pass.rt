//! What a thread has at a hub.
ghost use Rattle.std.specs.Prelude.{◌≡◌, length};

use crate::ShardPass;

/// A thread's part in a hub: what it has seen of each shard, and which entries there are its own.
#[derive(Drop)]
pub struct Pass {
    pub(crate) shards: [ShardPass; 16],
}

impl Pass {
    /// A pass of no hub, to be filled.
    pub(crate) fn of_none() -> Pass
        ensures { length result.shards ≡ 16 }
    {
        Pass {
            shards: [
                ShardPass::of_none(),
                ShardPass::of_none(),
                ShardPass::of_none(),
                ShardPass::of_none(),
                ShardPass::of_none(),
                ShardPass::of_none(),
                ShardPass::of_none(),
                ShardPass::of_none(),
                ShardPass::of_none(),
                ShardPass::of_none(),
                ShardPass::of_none(),
                ShardPass::of_none(),
                ShardPass::of_none(),
                ShardPass::of_none(),
                ShardPass::of_none(),
                ShardPass::of_none(),
            ],
        }
    }
}
