//! A group that has ended is retired at one shard.
ghost use Rattle.std.specs.Prelude.{◌≡◌, List, [], ◌∷◌};
ghost use Rattle.hub_story.specs.declared.item.Mark.TheVariants as mark;
ghost use Rattle.hub_story.specs.declared.item.Item.{Item};
ghost use Rattle.hub_story.specs.declared.item.Item.TheVariants.{Listed};
ghost use Rattle.hub_story.specs.Passes.{HasShut};
ghost use Rattle.hub_story.specs.Calls.{Enters};
ghost use Rattle.hub_story.specs.Still.{StillHas};
ghost use Rattle.group_hub.specs.Locks.{IsPassOf};

use crate::lock::ShardLock;
use crate::shard_pass::ShardPass;
use hub_shard::{Retire, Retired, ShutKey};
use std::sync::Wait;

impl ShardLock {
    /// Retires a group whose Shut this pass entered, by its key. It takes no memory.
    pub fn retire<R: Wait>(&self, rt: &R, pass: &mut ShardPass, key: ShutKey) -> Retired
        requires pass { IsPassOf self.now pass.old }
        requires shut { HasShut pass.old key }
        ensures pass { IsPassOf self.now pass.new }
        ensures call { (between : List Item) × Enters self.now.boot self.now.number pass.old pass.new between (Listed (mark.Retired key) ∷ []) }
        ensures still { StillHas pass.old pass.new (Listed (mark.Retired key) ∷ []) }
        ensures group { result.group ≡ key }
    {
        self.run::<Retire, R>(rt, pass, Retire { key })
    }
}
