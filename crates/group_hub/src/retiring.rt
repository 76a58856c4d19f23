//! A group that has ended is retired.
ghost use Rattle.std.specs.Prelude.{◌≡◌, [], ◌∷◌};
ghost use Rattle.hub_story.specs.declared.item.Mark.TheVariants as mark;
ghost use Rattle.hub_story.specs.declared.item.Item.TheVariants.{Listed};
ghost use Rattle.hub_story.specs.Passes.{HasShut};
ghost use Rattle.hub_story.specs.Still.{StillHas};
ghost use Rattle.group_hub.specs.Passes.{IsPassOf, at_shard, EntersAt};
ghost use Rattle.group_hub.specs.Shards.{shard_of};

use crate::hub::{Hub, shard_of};
use crate::pass::Pass;
use hub_shard::{Retired, ShutKey};
use std::sync::Wait;

impl Hub {
    /// Retires a group whose Shut this pass entered, by its key. It takes no memory.
    pub fn retire<R: Wait>(&self, rt: &R, pass: &mut Pass, key: ShutKey) -> Retired
        requires pass { IsPassOf self.now pass.old }
        requires shut { HasShut (at_shard pass.old (shard_of key)) key }
        ensures pass { IsPassOf self.now pass.new }
        ensures call { EntersAt self.now.boot key pass.old pass.new (λ log more. more ≡ Listed (mark.Retired key) ∷ []) }
        ensures still { StillHas (at_shard pass.old (shard_of key)) (at_shard pass.new (shard_of key)) (Listed (mark.Retired key) ∷ []) }
        ensures group { result.group ≡ key }
    {
        let number = shard_of(key.group());
        self.shard(number).retire(rt, &mut pass.shards[number], key)
    }
}
