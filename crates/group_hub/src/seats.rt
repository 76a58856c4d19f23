//! Passes for other threads.
ghost use Rattle.std.specs.Prelude.{◌≡◌, ◌≢◌, ◌<◌, ℕ, length, slice_index_or};
ghost use Rattle.hub_story.specs.Passes.{halved};
ghost use Rattle.group_hub.specs.ShardPasses.{IsOf, Merges};
ghost use Rattle.group_hub.specs.declared.lock.ShardLock.{ShardLock};
ghost use Rattle.group_hub.specs.Passes.{IsPassOf, At, at_shard};

use crate::ShardPass;
use crate::hub::Hub;
use crate::pass::Pass;
use std::mem;

impl Hub {
    /// Another pass, for another thread. It has seen as much, and has no entries of its own. It takes no
    /// memory.
    pub fn split(&self, pass: &mut Pass) -> Pass
        requires { IsPassOf self.now pass.old }
        ensures kept { IsPassOf self.now pass.new × ((s : ℕ) → at_shard pass.new s ≡ at_shard pass.old s) }
        ensures pass { IsPassOf self.now result }
        ensures new { (s : ℕ) → s < 16 → at_shard result s ≡ halved (at_shard pass.old s) }
    {
        let mut other = Pass::of_none();
        for number in 0..16 {
            let seat = self.split_at(pass, number);
            other.shards[number] = seat;
        }
        other
    }

    /// Takes in another pass: it has then seen what both had seen, and has the entries of both. It takes no
    /// memory.
    pub fn join(&self, pass: &mut Pass, other: Pass)
        requires pass { IsPassOf self.now pass.old }
        requires other { IsPassOf self.now other }
        ensures pass { IsPassOf self.now pass.new }
        ensures merges { (s : ℕ) → s < 16 → Merges self.now.boot s (at_shard pass.old s) (at_shard other s) (at_shard pass.new s) }
    {
        let mut other = other;
        for number in 0..16 {
            let seat = other.take_at(number);
            self.join_at(pass, seat, number);
        }
    }

    /// Another pass at one shard.
    fn split_at(&self, pass: &mut Pass, number: usize) -> ShardPass
        requires pass { IsPassOf self.now pass.old }
        requires small { number < 16 }
        ensures pass { IsPassOf self.now pass.new }
        ensures split { At number pass.old pass.new (λ v w. (w ≡ v) × (result ≡ halved v)) }
        ensures other { (l : ShardLock) → l ≡ slice_index_or self.now.shards.items number l → IsOf l.lock.table.shared.table_id self.now.boot number result }
    {
        self.shard(number).split(&mut pass.shards[number])
    }

    /// Takes in another pass at one shard.
    fn join_at(&self, pass: &mut Pass, other: ShardPass, number: usize)
        requires pass { IsPassOf self.now pass.old }
        requires small { number < 16 }
        requires other { (l : ShardLock) → l ≡ slice_index_or self.now.shards.items number l → IsOf l.lock.table.shared.table_id self.now.boot number other }
        ensures pass { IsPassOf self.now pass.new }
        ensures join { At number pass.old pass.new (λ v w. Merges self.now.boot number v other w) }
    {
        self.shard(number).join(&mut pass.shards[number], other);
    }
}

impl Pass {
    /// Takes out what it has at one shard, and leaves a pass of no shard there.
    fn take_at(&mut self, number: usize) -> ShardPass
        requires whole { length self.old.shards ≡ 16 }
        requires small { number < 16 }
        ensures whole { length self.new.shards ≡ 16 }
        ensures taken { result ≡ at_shard self.old number }
        ensures others { (t : ℕ) → t ≢ number → at_shard self.new t ≡ at_shard self.old t }
    {
        mem::replace(&mut self.shards[number], ShardPass::of_none())
    }
}
