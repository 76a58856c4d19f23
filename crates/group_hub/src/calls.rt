//! Calls on a group.
ghost use Rattle.std.specs.Prelude.{◌≡◌, ◌≤◌, ℕ, true, IfOk, [], ◌∷◌, length};
ghost use Rattle.handle_model.specs.declared.entry.Entry.TheVariants as entry;
ghost use Rattle.group_core.specs.Calls.{Accepts, Takes, Cancels, Orphans};
ghost use Rattle.group_core.specs.declared.answer.Stage.TheVariants.{Over};
ghost use Rattle.call_table.specs.Ahead.{last_ahead};
ghost use Rattle.group_core.specs.Stages.{stage_of, is_asked};
ghost use Rattle.hub_story.specs.declared.item.Item.TheVariants.{Of};
ghost use Rattle.hub_story.specs.Directories.{is_retired_id};
ghost use Rattle.hub_story.specs.Histories.{marks_in, journal_in};
ghost use Rattle.hub_story.specs.Passes.{Serves, HasCall, Knows, Runs};
ghost use Rattle.hub_story.specs.Calls.{IsNewCall};
ghost use Rattle.hub_story.specs.Still.{StillHas, IsAccepted, IfTaken};
ghost use Rattle.hub_shard.specs.Answers.{SettlesWith};
ghost use Rattle.group_hub.specs.Shards.{shard_of};
ghost use Rattle.group_hub.specs.Asks.{is_asked_by_kept, IsToldWhileItRuns};
ghost use Rattle.group_hub.specs.Passes.{IsPassOf, at_shard, CallsAt, LooksAt, HasItsShut};

use crate::hub::{Hub, shard_of};
use crate::pass::Pass;
use group_core::{AcceptRefusal, Cancelled, Orphaned, Stage, Taking};
use handle_model::{Asked, Outcomes, Said};
use hub_shard::HubRest;
use std::sync::Wait;

impl Hub {
    /// Accepts a call of a connection that is this pass's, as `Group::accept`. Nothing was entered of a call
    /// of that number before.
    ///
    /// # Errors
    ///
    /// What was asked, given back, beside why: `Calls` where 256 calls wait or run, `Handles` where there would
    /// be more than 65,536 handles, `Numbers` where a number would pass 32 bits, and `Memory` for want of
    /// memory.
    pub fn accept<R: Wait>(
        &self,
        rt: &R,
        pass: &mut Pass,
        group: u32,
        asked: Asked,
    ) -> Result<u32, (Asked, AcceptRefusal)>
        requires pass { IsPassOf self.now pass.old }
        requires serves { Serves (at_shard pass.old (shard_of group)) group asked.conn }
        requires few { length asked.slots ≤ 4 }
        ensures pass { IsPassOf self.now pass.new }
        ensures call { CallsAt self.now.boot group pass.old pass.new (λ j k. Accepts j asked result k × IfOk result (λ call. IsNewCall call j)) }
        ensures still { StillHas (at_shard pass.old (shard_of group)) (at_shard pass.new (shard_of group)) [] }
        ensures accepted { IfOk result (λ call. IsAccepted (at_shard pass.new (shard_of group)) group asked.conn call asked.slots) }
    {
        let number = shard_of(group);
        self.shard(number)
            .accept(rt, &mut pass.shards[number], group, asked)
    }

    /// Takes or denies a call of a connection that is this pass's, as `Group::take`. It takes no memory.
    pub fn take<R: Wait>(&self, rt: &R, pass: &mut Pass, group: u32, call: u32) -> Taking
        requires pass { IsPassOf self.now pass.old }
        requires serves { (conn : ℕ) × HasCall (at_shard pass.old (shard_of group)) group conn call }
        ensures pass { IsPassOf self.now pass.new }
        ensures call { CallsAt self.now.boot group pass.old pass.new (λ j k. Takes j call result k) }
        ensures still { StillHas (at_shard pass.old (shard_of group)) (at_shard pass.new (shard_of group)) [] }
        ensures taken { IfTaken (at_shard pass.new (shard_of group)) group call result }
    {
        let number = shard_of(group);
        self.shard(number)
            .take(rt, &mut pass.shards[number], group, call)
    }

    /// Cancels a call of a connection that is this pass's, as `Group::cancel`. It takes no memory.
    pub fn cancel<R: Wait>(&self, rt: &R, pass: &mut Pass, group: u32, call: u32) -> Cancelled
        requires pass { IsPassOf self.now pass.old }
        requires serves { (conn : ℕ) × HasCall (at_shard pass.old (shard_of group)) group conn call }
        ensures pass { IsPassOf self.now pass.new }
        ensures call { CallsAt self.now.boot group pass.old pass.new (λ j k. Cancels j call result k) }
        ensures still { StillHas (at_shard pass.old (shard_of group)) (at_shard pass.new (shard_of group)) [] }
    {
        let number = shard_of(group);
        self.shard(number)
            .cancel(rt, &mut pass.shards[number], group, call)
    }

    /// Orphans a call of a connection that is this pass's, as `Group::orphan`. It takes no memory.
    pub fn orphan<R: Wait>(&self, rt: &R, pass: &mut Pass, group: u32, call: u32) -> Orphaned
        requires pass { IsPassOf self.now pass.old }
        requires serves { (conn : ℕ) × HasCall (at_shard pass.old (shard_of group)) group conn call }
        ensures pass { IsPassOf self.now pass.new }
        ensures call { CallsAt self.now.boot group pass.old pass.new (λ j k. Orphans j call result k) }
        ensures still { StillHas (at_shard pass.old (shard_of group)) (at_shard pass.new (shard_of group)) [] }
    {
        let number = shard_of(group);
        self.shard(number)
            .orphan(rt, &mut pass.shards[number], group, call)
    }

    /// Ends a call that this pass took, and the group where that is then due. It takes no memory.
    pub fn end<R: Wait>(
        &self,
        rt: &R,
        pass: &mut Pass,
        group: u32,
        call: u32,
        results: Outcomes,
        said: Said,
    ) -> HubRest
        requires pass { IsPassOf self.now pass.old }
        requires runs { Runs (at_shard pass.old (shard_of group)) group call results }
        ensures pass { IsPassOf self.now pass.new }
        ensures call { CallsAt self.now.boot group pass.old pass.new (SettlesWith group (entry.End call results said) result) }
        ensures still { StillHas (at_shard pass.old (shard_of group)) (at_shard pass.new (shard_of group)) (Of group (entry.End call results said) ∷ []) }
        ensures shut { HasItsShut pass.new result }
    {
        let number = shard_of(group);
        self.shard(number)
            .end(rt, &mut pass.shards[number], group, call, results, said)
    }

    /// A connection that is this pass's leaves, and the group ends where that is then due. It takes no memory.
    pub fn leave<R: Wait>(&self, rt: &R, pass: &mut Pass, group: u32, conn: u32) -> HubRest
        requires pass { IsPassOf self.now pass.old }
        requires serves { Serves (at_shard pass.old (shard_of group)) group conn }
        ensures pass { IsPassOf self.now pass.new }
        ensures call { CallsAt self.now.boot group pass.old pass.new (SettlesWith group (entry.Leave conn) result) }
        ensures still { StillHas (at_shard pass.old (shard_of group)) (at_shard pass.new (shard_of group)) (Of group (entry.Leave conn) ∷ []) }
        ensures shut { HasItsShut pass.new result }
    {
        let number = shard_of(group);
        self.shard(number)
            .leave(rt, &mut pass.shards[number], group, conn)
    }

    /// Where a call is; of a group that was retired each is over. It enters nothing and takes no memory.
    pub fn stage<R: Wait>(&self, rt: &R, pass: &mut Pass, group: u32, call: u32) -> Stage
        requires pass { IsPassOf self.now pass.old }
        requires known { Knows (at_shard pass.old (shard_of group)) group call }
        ensures pass { IsPassOf self.now pass.new }
        ensures call { LooksAt self.now.boot group pass.old pass.new (λ log. result ≡ stage_of (journal_in self.now.boot group log) call) }
        ensures still { StillHas (at_shard pass.old (shard_of group)) (at_shard pass.new (shard_of group)) [] }
        ensures over { is_retired_id (marks_in (at_shard pass.new (shard_of group)).log) group ≡ true → result ≡ Over }
    {
        let number = shard_of(group);
        self.shard(number)
            .stage(rt, &mut pass.shards[number], group, call)
    }

    /// Whether a call was asked to end, by the journal as the group keeps it; of a group that was retired it
    /// answers false. What it tells is so by the whole journal, and of a call that runs it tells that. It
    /// enters nothing and takes no memory.
    pub fn asked<R: Wait>(&self, rt: &R, pass: &mut Pass, group: u32, call: u32) -> bool
        requires pass { IsPassOf self.now pass.old }
        requires known { Knows (at_shard pass.old (shard_of group)) group call }
        ensures pass { IsPassOf self.now pass.new }
        ensures call { LooksAt self.now.boot group pass.old pass.new (λ log. result ≡ is_asked_by_kept self.now.boot group log call) }
        ensures still { StillHas (at_shard pass.old (shard_of group)) (at_shard pass.new (shard_of group)) [] }
        ensures told { result ≡ true → is_asked (journal_in self.now.boot group (at_shard pass.new (shard_of group)).log) call ≡ true }
        ensures running { IsToldWhileItRuns self.now.boot group (at_shard pass.new (shard_of group)).log call result }
    {
        let number = shard_of(group);
        self.shard(number)
            .asked(rt, &mut pass.shards[number], group, call)
    }

    /// The last of the calls that stand in the way of one that waits, as `Group::last_ahead`. It enters nothing
    /// and takes no memory.
    pub fn last_in_way<R: Wait>(
        &self,
        rt: &R,
        pass: &mut Pass,
        group: u32,
        call: u32,
    ) -> Option<u32>
        requires pass { IsPassOf self.now pass.old }
        requires known { Knows (at_shard pass.old (shard_of group)) group call }
        ensures pass { IsPassOf self.now pass.new }
        ensures call { LooksAt self.now.boot group pass.old pass.new (λ log. result ≡ last_ahead (journal_in self.now.boot group log) call) }
        ensures still { StillHas (at_shard pass.old (shard_of group)) (at_shard pass.new (shard_of group)) [] }
    {
        let number = shard_of(group);
        self.shard(number)
            .last_in_way(rt, &mut pass.shards[number], group, call)
    }
}
