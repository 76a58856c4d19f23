//! A member leaves.
ghost use Rattle.std.specs.Prelude.{◌≡◌, true, OnOk};
ghost use Rattle.handle_model.specs.Journal.{is_open};
ghost use Rattle.handle_model.specs.declared.entry.Entry.TheVariants.{Leave};
ghost use Rattle.replay_world.specs.Groups.{SettlesIn};
ghost use Rattle.replay_world.specs.Worlds.{journal};
ghost use Rattle.replay_groups.specs.Service.{service_of};

use crate::goes_on;
use crate::realm::{Realm, settle};
use replay_world::Member;
use rpc_base::NoMemory;

impl Realm {
    ghost use Rattle.replay_groups.specs.Holding.{Known, Moves};

    /// A member leaves its group, and the group ends where that is then due.
    ///
    /// # Errors
    ///
    /// `NoMemory` where its group has ended.
    pub fn leave(&mut self, member: Member) -> Result<(), NoMemory>
        requires { Known self.old (λ w. is_open (journal w member.group) member.number ≡ true) }
        ensures { OnOk result (Moves self.old (λ echo w v. SettlesIn (service_of echo) w member.group (Leave member.number) v) self.new) }
    {
        if !goes_on(&self.groups, member.group) {
            return Err(NoMemory);
        }
        let rest = self.groups.leave(member.group, member.number);
        settle(&mut self.desks, rest);
        Ok(())
    }
}
