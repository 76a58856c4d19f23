//! A group is opened at one shard, and a group's journal is copied.
ghost use Rattle.std.specs.Prelude.{[], IfOk};
ghost use Rattle.hub_story.specs.Passes.{Serves};
ghost use Rattle.hub_story.specs.Still.{StillHas};
ghost use Rattle.hub_shard.specs.Copies.{gives_copy};
ghost use Rattle.group_hub.specs.Locks.{IsPassOf};
ghost use Rattle.group_hub.specs.Openings.{Tries};
ghost use Rattle.group_hub.specs.Turns.{EntersWhere};

use crate::lock::ShardLock;
use crate::shard_pass::ShardPass;
use group_core::Journal;
use hub_shard::{Copied, OpenNext, OpenRefusal};
use rpc_base::NoMemory;
use std::sync::Wait;

impl ShardLock {
    /// Opens the group of the least id that was not opened, which connection 1 of this pass has joined.
    ///
    /// # Errors
    ///
    /// `GroupsFull` where 64 groups are open at the shard, `Ids` where it has no id left, and `Memory` for want
    /// of memory.
    pub fn open_next<R: Wait>(&self, rt: &R, pass: &mut ShardPass) -> Result<u32, OpenRefusal>
        requires pass { IsPassOf self.now pass.old }
        ensures pass { IsPassOf self.now pass.new }
        ensures call { Tries self.now.boot self.now.number result pass.old pass.new }
        ensures still { StillHas pass.old pass.new [] }
        ensures serves { IfOk result (λ id. Serves pass.new id 1) }
    {
        self.run::<OpenNext, R>(rt, pass, OpenNext)
    }

    /// A copy of a group's journal as it stands in the hub, retired or not. It enters nothing.
    ///
    /// # Errors
    ///
    /// `NoMemory` where there is no memory for it.
    pub fn journal<R: Wait>(
        &self,
        rt: &R,
        pass: &mut ShardPass,
        id: u32,
    ) -> Result<Option<Journal>, NoMemory>
        requires pass { IsPassOf self.now pass.old }
        ensures pass { IsPassOf self.now pass.new }
        ensures call { EntersWhere self.now.boot self.now.number pass.old pass.new (λ log more. gives_copy (record { id = id }) self.now.boot self.now.number log result more) }
        ensures still { StillHas pass.old pass.new [] }
    {
        self.run::<Copied, R>(rt, pass, Copied { id })
    }
}
