//! Passes at one shard, for other threads.
ghost use Rattle.std.specs.Prelude.{◌≡◌};
ghost use Rattle.hub_story.specs.Passes.{halved};
ghost use Rattle.group_hub.specs.ShardPasses.{Merges};
ghost use Rattle.group_hub.specs.Locks.{IsPassOf};

use crate::lock::ShardLock;
use crate::shard_pass::ShardPass;

impl ShardLock {
    /// Another pass, for another thread. It has seen as much, and has no entries of its own. It takes no
    /// memory.
    pub fn split(&self, pass: &mut ShardPass) -> ShardPass
        requires { IsPassOf self.now pass.old }
        ensures kept { pass.new ≡ pass.old }
        ensures new { result ≡ halved pass.old }
        ensures pass { IsPassOf self.now result }
    {
        let Some(seat) = &mut pass.seat else {
            unreachable!()
        };
        let other = self.lock.split(seat);
        ShardPass { seat: Some(other) }
    }

    /// Takes in another pass: it has then seen what both had seen, and has the entries of both. It takes no
    /// memory.
    pub fn join(&self, pass: &mut ShardPass, other: ShardPass)
        requires pass { IsPassOf self.now pass.old }
        requires other { IsPassOf self.now other }
        ensures pass { IsPassOf self.now pass.new }
        ensures merges { Merges self.now.boot self.now.number pass.old other pass.new }
    {
        let Some(seat) = &mut pass.seat else {
            unreachable!()
        };
        let mut other = other;
        let Some(theirs) = other.seat.take() else {
            unreachable!()
        };
        self.lock.join(seat, theirs);
    }
}
