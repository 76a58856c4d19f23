//! Calls on a group of one shard.
ghost use Rattle.std.specs.Prelude.{◌≡◌, ◌≤◌, ℕ, true, IfOk, [], ◌∷◌, length};
ghost use Rattle.handle_model.specs.declared.entry.Entry.TheVariants as entry;
ghost use Rattle.group_core.specs.Calls.{Accepts, Takes, Cancels, Orphans};
ghost use Rattle.group_core.specs.declared.answer.Stage.TheVariants.{Over};
ghost use Rattle.call_table.specs.Ahead.{last_ahead};
ghost use Rattle.group_core.specs.Stages.{stage_of, is_asked};
ghost use Rattle.hub_story.specs.declared.item.Item.TheVariants.{Of};
ghost use Rattle.hub_story.specs.Directories.{is_retired_id};
ghost use Rattle.hub_story.specs.Histories.{marks_in, journal_in};
ghost use Rattle.hub_story.specs.Passes.{Serves, HasCall, Knows, Runs};
ghost use Rattle.hub_story.specs.Calls.{IsNewCall, Calls};
ghost use Rattle.hub_story.specs.Still.{StillHas, IsAccepted, IfTaken};
ghost use Rattle.hub_shard.specs.Answers.{SettlesWith};
ghost use Rattle.group_hub.specs.ShardPasses.{HasItsShut};
ghost use Rattle.group_hub.specs.Locks.{IsPassOf};
ghost use Rattle.group_hub.specs.Asks.{is_asked_by_kept, IsToldWhileItRuns};
ghost use Rattle.group_hub.specs.Turns.{LooksWhere};

use crate::lock::ShardLock;
use crate::shard_pass::ShardPass;
use group_core::{AcceptRefusal, Cancelled, Orphaned, Stage, Taking};
use handle_model::{Asked, Outcomes, Said};
use hub_shard::{Accept, Ask, Cancel, End, HubRest, LastAhead, Leave, Orphan, Stand, Take};
use std::sync::Wait;

impl ShardLock {
    /// Accepts a call of a connection that is this pass's, as `Group::accept`. Nothing was entered of a call
    /// of that number before.
    ///
    /// # Errors
    ///
    /// As of `Hub::accept`.
    pub fn accept<R: Wait>(
        &self,
        rt: &R,
        pass: &mut ShardPass,
        group: u32,
        asked: Asked,
    ) -> Result<u32, (Asked, AcceptRefusal)>
        requires pass { IsPassOf self.now pass.old }
        requires serves { Serves pass.old group asked.conn }
        requires few { length asked.slots ≤ 4 }
        ensures pass { IsPassOf self.now pass.new }
        ensures call { Calls self.now.boot self.now.number pass.old pass.new group (λ j k. Accepts j asked result k × IfOk result (λ call. IsNewCall call j)) }
        ensures still { StillHas pass.old pass.new [] }
        ensures accepted { IfOk result (λ call. IsAccepted pass.new group asked.conn call asked.slots) }
    {
        self.run::<Accept, R>(rt, pass, Accept { group, asked })
    }

    /// Takes or denies a call of a connection that is this pass's, as `Group::take`. It takes no memory.
    pub fn take<R: Wait>(&self, rt: &R, pass: &mut ShardPass, group: u32, call: u32) -> Taking
        requires pass { IsPassOf self.now pass.old }
        requires serves { (conn : ℕ) × HasCall pass.old group conn call }
        ensures pass { IsPassOf self.now pass.new }
        ensures call { Calls self.now.boot self.now.number pass.old pass.new group (λ j k. Takes j call result k) }
        ensures still { StillHas pass.old pass.new [] }
        ensures taken { IfTaken pass.new group call result }
    {
        self.run::<Take, R>(rt, pass, Take { group, call })
    }

    /// Cancels a call of a connection that is this pass's, as `Group::cancel`. It takes no memory.
    pub fn cancel<R: Wait>(&self, rt: &R, pass: &mut ShardPass, group: u32, call: u32) -> Cancelled
        requires pass { IsPassOf self.now pass.old }
        requires serves { (conn : ℕ) × HasCall pass.old group conn call }
        ensures pass { IsPassOf self.now pass.new }
        ensures call { Calls self.now.boot self.now.number pass.old pass.new group (λ j k. Cancels j call result k) }
        ensures still { StillHas pass.old pass.new [] }
    {
        self.run::<Cancel, R>(rt, pass, Cancel { group, call })
    }

    /// Orphans a call of a connection that is this pass's, as `Group::orphan`. It takes no memory.
    pub fn orphan<R: Wait>(&self, rt: &R, pass: &mut ShardPass, group: u32, call: u32) -> Orphaned
        requires pass { IsPassOf self.now pass.old }
        requires serves { (conn : ℕ) × HasCall pass.old group conn call }
        ensures pass { IsPassOf self.now pass.new }
        ensures call { Calls self.now.boot self.now.number pass.old pass.new group (λ j k. Orphans j call result k) }
        ensures still { StillHas pass.old pass.new [] }
    {
        self.run::<Orphan, R>(rt, pass, Orphan { group, call })
    }

    /// Ends a call that this pass took, and the group where that is then due. It takes no memory.
    pub fn end<R: Wait>(
        &self,
        rt: &R,
        pass: &mut ShardPass,
        group: u32,
        call: u32,
        results: Outcomes,
        said: Said,
    ) -> HubRest
        requires pass { IsPassOf self.now pass.old }
        requires runs { Runs pass.old group call results }
        ensures pass { IsPassOf self.now pass.new }
        ensures call { Calls self.now.boot self.now.number pass.old pass.new group (SettlesWith group (entry.End call results said) result) }
        ensures still { StillHas pass.old pass.new (Of group (entry.End call results said) ∷ []) }
        ensures shut { HasItsShut pass.new result }
    {
        self.run::<End, R>(
            rt,
            pass,
            End {
                group,
                call,
                results,
                said,
            },
        )
    }

    /// A connection that is this pass's leaves, and the group ends where that is then due. It takes no memory.
    pub fn leave<R: Wait>(&self, rt: &R, pass: &mut ShardPass, group: u32, conn: u32) -> HubRest
        requires pass { IsPassOf self.now pass.old }
        requires serves { Serves pass.old group conn }
        ensures pass { IsPassOf self.now pass.new }
        ensures call { Calls self.now.boot self.now.number pass.old pass.new group (SettlesWith group (entry.Leave conn) result) }
        ensures still { StillHas pass.old pass.new (Of group (entry.Leave conn) ∷ []) }
        ensures shut { HasItsShut pass.new result }
    {
        self.run::<Leave, R>(rt, pass, Leave { group, conn })
    }

    /// Where a call is; of a group that was retired each is over. It enters nothing and takes no memory.
    pub fn stage<R: Wait>(&self, rt: &R, pass: &mut ShardPass, group: u32, call: u32) -> Stage
        requires pass { IsPassOf self.now pass.old }
        requires known { Knows pass.old group call }
        ensures pass { IsPassOf self.now pass.new }
        ensures call { LooksWhere self.now.boot self.now.number pass.old pass.new (λ log. result ≡ stage_of (journal_in self.now.boot group log) call) }
        ensures over { is_retired_id (marks_in pass.new.log) group ≡ true → result ≡ Over }
        ensures still { StillHas pass.old pass.new [] }
    {
        self.run::<Stand, R>(rt, pass, Stand { group, call })
    }

    /// Whether a call was asked to end, by the journal as the group keeps it; of a group that was retired it
    /// answers false. What it tells is so by the whole journal, and of a call that runs it tells that. It
    /// enters nothing and takes no memory.
    pub fn asked<R: Wait>(&self, rt: &R, pass: &mut ShardPass, group: u32, call: u32) -> bool
        requires pass { IsPassOf self.now pass.old }
        requires known { Knows pass.old group call }
        ensures pass { IsPassOf self.now pass.new }
        ensures call { LooksWhere self.now.boot self.now.number pass.old pass.new (λ log. result ≡ is_asked_by_kept self.now.boot group log call) }
        ensures still { StillHas pass.old pass.new [] }
        ensures told { result ≡ true → is_asked (journal_in self.now.boot group pass.new.log) call ≡ true }
        ensures running { IsToldWhileItRuns self.now.boot group pass.new.log call result }
    {
        self.run::<Ask, R>(rt, pass, Ask { group, call })
    }

    /// The last of the calls that stand in the way of one that waits, as `Group::last_ahead`. It enters nothing
    /// and takes no memory.
    pub fn last_in_way<R: Wait>(
        &self,
        rt: &R,
        pass: &mut ShardPass,
        group: u32,
        call: u32,
    ) -> Option<u32>
        requires pass { IsPassOf self.now pass.old }
        requires known { Knows pass.old group call }
        ensures pass { IsPassOf self.now pass.new }
        ensures call { LooksWhere self.now.boot self.now.number pass.old pass.new (λ log. result ≡ last_ahead (journal_in self.now.boot group log) call) }
        ensures still { StillHas pass.old pass.new [] }
    {
        self.run::<LastAhead, R>(rt, pass, LastAhead { group, call })
    }
}
