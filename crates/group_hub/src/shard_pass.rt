//! What a thread has at one shard.
use crate::lock::Seat;
use std::marker::Model;

/// A thread's part in one shard. Contracts see its front, which is the shard's history as far as it was
/// seen, and the places of its own entries in it.
#[derive(Drop)]
pub struct ShardPass {
    // None while a call has it, and where the pass is of no shard.
    pub(crate) seat: Option<Seat>,
}

impl Model for ShardPass {
    ghost use Rattle.hub_story.specs.Passes.{Seen};
    ghost use Rattle.group_hub.specs.ShardPasses.{seen, IsHome};

    ghost Value = { Seen };

    ghost view = { λ p. seen p.seat };

    ghost invariant = { λ p. IsHome p.seat };
}

impl ShardPass {
    ghost use Rattle.std.specs.Prelude.{◌≡◌};
    ghost use Rattle.group_hub.specs.ShardPasses.{unseen};

    /// A pass of no shard, to stand where one is yet to come.
    pub fn of_none() -> ShardPass
        ensures { result ≡ unseen }
    {
        ShardPass { seat: None }
    }
}
