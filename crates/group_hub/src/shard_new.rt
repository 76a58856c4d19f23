//! A shard's lock is made.
ghost use Rattle.std.specs.Prelude.{◌≡◌, ◌<◌, [], ◌∷◌, IfOk};
ghost use Rattle.hub_story.specs.declared.item.Item.TheVariants.{Begun};
ghost use Rattle.group_hub.specs.Locks.{IsPassOf};

use crate::lock::ShardLock;
use crate::shard_pass::ShardPass;
use hub_shard::{Shard, Whose};
use rpc_base::NoMemory;
use std::alloc::Global;
use turn_lock::TurnLock;

impl ShardLock {
    /// The shard of this number at a server of this boot word, without a group, and its first pass. Its
    /// history says whose it is, and nothing else; no pass entered that.
    ///
    /// # Errors
    ///
    /// `NoMemory` where there is no memory for it.
    pub fn new(alloc: Global, boot: u64, number: u32) -> Result<(ShardLock, ShardPass), NoMemory>
        requires { number < 16 }
        ensures whose { IfOk result (λ made. (made.0.boot ≡ boot) × (made.0.number ≡ number)) }
        ensures pass { IfOk result (λ made. IsPassOf made.0 made.1 × (made.1.log ≡ Begun boot number ∷ []) × (made.1.own ≡ [])) }
    {
        let shard = Shard::new(alloc, boot, number);
        let (lock, seat) = TurnLock::new(alloc, shard, &Whose { boot, number })?;
        let pass = ShardPass { seat: Some(seat) };
        Ok((ShardLock { lock, boot, number }, pass))
    }
}
