//! A hub is made.
ghost use Rattle.std.specs.Prelude.{◌≡◌, ◌<◌, ℕ, [], ◌∷◌, IfOk};
ghost use Rattle.hub_story.specs.declared.item.Item.TheVariants.{Begun};
ghost use Rattle.group_hub.specs.Passes.{IsPassOf, at_shard};

use crate::ShardLock;
use crate::hub::Hub;
use crate::pass::Pass;
use rpc_base::NoMemory;
use std::alloc::Global;
use std::sync::atomic::AtomicU64;

impl Hub {
    /// A hub without a group, of a server of that boot word, and its first pass. The history of each shard
    /// says whose it is, and nothing else.
    ///
    /// # Errors
    ///
    /// `NoMemory` where there is no memory for it.
    pub fn new(alloc: Global, boot: u64) -> Result<(Hub, Pass), NoMemory>
        ensures boot { IfOk result (λ made. made.0.boot ≡ boot) }
        ensures pass { IfOk result (λ made. IsPassOf made.0 made.1) }
        ensures empty { IfOk result (λ made. (s : ℕ) → s < 16 → ((at_shard made.1 s).log ≡ Begun boot s ∷ []) × ((at_shard made.1 s).own ≡ [])) }
    {
        let mut shards = Vec::new(alloc);
        let mut pass = Pass::of_none();
        for number in 0..16 {
            let (lock, seat) = ShardLock::new(alloc, boot, number)?;
            shards.push(lock)?;
            pass.shards[number as usize] = seat;
        }
        let hint = AtomicU64::new(0);
        Ok((Hub { shards, boot, hint }, pass))
    }
}
