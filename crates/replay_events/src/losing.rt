//! A connection is lost.
ghost use Rattle.std.specs.Prelude.{◌≡◌, OnOk};
ghost use Rattle.replay_world.specs.declared.peer.Standing.TheVariants.{Open};

use crate::marked::leave;
use crate::{Played, Player};
use replay_world::Standing;
use rpc_base::NoMemory;

impl Player {
    ghost use Rattle.replay_events.specs.Hands.{IsInHand, Leads, LosesIn};

    /// The connection in hand is lost: it leaves its group, if it joined one.
    ///
    /// # Errors
    ///
    /// `NoMemory` where its group has ended.
    pub fn lose(&mut self, played: &mut Played) -> Result<(), NoMemory>
        requires hand { IsInHand self.old played.old }
        requires open { played.old.standing ≡ Open }
        ensures { OnOk result (Leads (LosesIn played.old.name) self.old played.old self.new played.new) }
    {
        leave(&mut self.realm, played.member)?;
        self.told = None;
        played.standing = Standing::Lost;
        Ok(())
    }
}
