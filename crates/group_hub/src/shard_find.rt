//! A connection joins the group of an id.
ghost use Rattle.std.specs.Prelude.{[], IfOk};
ghost use Rattle.hub_story.specs.Passes.{Serves};
ghost use Rattle.hub_story.specs.Still.{StillHas};
ghost use Rattle.group_hub.specs.Locks.{IsPassOf};
ghost use Rattle.group_hub.specs.Finds.{FindsGroup};
ghost use Rattle.group_hub.specs.Turns.{EntersWhere};

use crate::lock::ShardLock;
use crate::shard_pass::ShardPass;
use hub_shard::{Find, FindRefusal};
use std::sync::Wait;

impl ShardLock {
    /// A connection joins the group of an id, or the id is marked as missed, where the group isn't open.
    /// Nothing was entered of a connection of that number before.
    ///
    /// # Errors
    ///
    /// As of `Hub::find_join`.
    pub fn find_join<R: Wait>(
        &self,
        rt: &R,
        pass: &mut ShardPass,
        id: u32,
    ) -> Result<u32, FindRefusal>
        requires pass { IsPassOf self.now pass.old }
        ensures pass { IsPassOf self.now pass.new }
        ensures call { EntersWhere self.now.boot self.now.number pass.old pass.new (λ log more. FindsGroup self.now.boot self.now.number id result log more) }
        ensures still { StillHas pass.old pass.new [] }
        ensures serves { IfOk result (λ conn. Serves pass.new id conn) }
    {
        self.run::<Find, R>(rt, pass, Find { id })
    }
}
