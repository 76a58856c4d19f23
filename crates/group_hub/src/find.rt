//! A connection joins the group of an id, and a group's journal is copied.
ghost use Rattle.std.specs.Prelude.{◌≤◌, IfOk, []};
ghost use Rattle.hub_story.specs.Passes.{Serves};
ghost use Rattle.hub_story.specs.Still.{StillHas};
ghost use Rattle.hub_shard.specs.Copies.{gives_copy};
ghost use Rattle.group_hub.specs.Passes.{IsPassOf, at_shard, EntersAt};
ghost use Rattle.group_hub.specs.Shards.{shard_of};
ghost use Rattle.group_hub.specs.Finds.{FindsGroup};

use crate::hub::{Hub, shard_of};
use crate::pass::Pass;
use group_core::Journal;
use hub_shard::FindRefusal;
use rpc_base::NoMemory;
use std::sync::Wait;

impl Hub {
    /// A connection joins the group of an id, or the id is marked as missed, where the group isn't open.
    /// Nothing was entered of a connection of that number before.
    ///
    /// # Errors
    ///
    /// `NoGroup` where the group isn't open or has ended, `TooMany` and `Numbers` at its limits, and
    /// `Memory` for want of memory.
    pub fn find_join<R: Wait>(&self, rt: &R, pass: &mut Pass, id: u32) -> Result<u32, FindRefusal>
        requires pass { IsPassOf self.now pass.old }
        requires id { 1 ≤ id }
        ensures pass { IsPassOf self.now pass.new }
        ensures call { EntersAt self.now.boot id pass.old pass.new (λ log more. FindsGroup self.now.boot (shard_of id) id result log more) }
        ensures still { StillHas (at_shard pass.old (shard_of id)) (at_shard pass.new (shard_of id)) [] }
        ensures serves { IfOk result (λ conn. Serves (at_shard pass.new (shard_of id)) id conn) }
    {
        let number = shard_of(id);
        self.shard(number)
            .find_join(rt, &mut pass.shards[number], id)
    }

    /// A copy of a group's journal as it stands in the hub, retired or not; none where the id was not
    /// opened. It enters nothing.
    ///
    /// # Errors
    ///
    /// `NoMemory` where there is no memory for it.
    pub fn journal<R: Wait>(
        &self,
        rt: &R,
        pass: &mut Pass,
        group: u32,
    ) -> Result<Option<Journal>, NoMemory>
        requires pass { IsPassOf self.now pass.old }
        requires id { 1 ≤ group }
        ensures pass { IsPassOf self.now pass.new }
        ensures call { EntersAt self.now.boot group pass.old pass.new (λ log more. gives_copy (record { id = group }) self.now.boot (shard_of group) log result more) }
        ensures still { StillHas (at_shard pass.old (shard_of group)) (at_shard pass.new (shard_of group)) [] }
    {
        let number = shard_of(group);
        self.shard(number)
            .journal(rt, &mut pass.shards[number], group)
    }
}
