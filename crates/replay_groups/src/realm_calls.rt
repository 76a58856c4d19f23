//! What comes to a call before it ends.
ghost use Rattle.std.specs.Prelude.{◌≡◌, IfOk, ⊤};
ghost use Rattle.group_core.specs.Calls.{Takes, Cancels, Orphans};
ghost use Rattle.group_core.specs.Stages.{stage_of};
ghost use Rattle.replay_groups.specs.Keeps.{Told};

use crate::realm::Realm;
use crate::{goes_on, has, stage};
use group_core::{Cancelled, Orphaned, Stage, Taking};
use replay_world::Member;
use rpc_base::NoMemory;

impl Realm {
    ghost use Rattle.replay_groups.specs.Holding.{Known, Moves, Going};

    /// Where a call is.
    ///
    /// # Errors
    ///
    /// `NoMemory` where there is no such group.
    pub fn stage(&self, member: Member, call: u32) -> Result<Stage, NoMemory>
        ensures { IfOk result (λ at. Told self.now.groups member.group (λ j. at ≡ stage_of j call)) }
    {
        if !has(&self.groups, member.group) {
            return Err(NoMemory);
        }
        Ok(stage(&self.groups, member.group, call))
    }

    /// Cancels a call: it ends where it waits, and is asked to end where it runs.
    ///
    /// # Errors
    ///
    /// `NoMemory` where its group has ended.
    pub fn cancel(&mut self, member: Member, call: u32) -> Result<Cancelled, NoMemory>
        requires { Known self.old (λ w. ⊤) }
        ensures { IfOk result (λ answer. Moves self.old (Going member.group (λ old new. Cancels old call answer new)) self.new) }
    {
        if !goes_on(&self.groups, member.group) {
            return Err(NoMemory);
        }
        Ok(self.groups.cancel(member.group, call))
    }

    /// Orphans a call: it ends where it waits, and its answer is not sent where it runs.
    ///
    /// # Errors
    ///
    /// `NoMemory` where its group has ended.
    pub fn orphan(&mut self, member: Member, call: u32) -> Result<Orphaned, NoMemory>
        requires { Known self.old (λ w. ⊤) }
        ensures { IfOk result (λ answer. Moves self.old (Going member.group (λ old new. Orphans old call answer new)) self.new) }
    {
        if !goes_on(&self.groups, member.group) {
            return Err(NoMemory);
        }
        Ok(self.groups.orphan(member.group, call))
    }

    /// Takes a call, where it waits and nothing is in its way, or denies it for its handles.
    ///
    /// # Errors
    ///
    /// `NoMemory` where its group has ended.
    pub fn take(&mut self, member: Member, call: u32) -> Result<Taking, NoMemory>
        requires { Known self.old (λ w. ⊤) }
        ensures { IfOk result (λ answer. Moves self.old (Going member.group (λ old new. Takes old call answer new)) self.new) }
    {
        if !goes_on(&self.groups, member.group) {
            return Err(NoMemory);
        }
        Ok(self.groups.take(member.group, call))
    }
}
