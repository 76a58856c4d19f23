//! Octets come, and what is to be done is asked for.
ghost use Rattle.std.specs.Prelude.{◌≡◌, IfOk, OnOk};
ghost use Rattle.conn_histories.specs.Histories.Event.{Came};
ghost use Rattle.replay_world.specs.declared.peer.Standing.TheVariants.{Open};
ghost use Rattle.replay_events.specs.Living.{IsPlayed, event_of};

use crate::{Played, Player};
use conn_core::Act;
use rpc_base::NoMemory;

impl Player {
    ghost use Rattle.replay_events.specs.Hands.{IsInHand, Leads, HappensIn};
    ghost use Rattle.replay_events.specs.Lived.{Lived};

    /// Octets come on the connection in hand, which may end anywhere.
    ///
    /// # Errors
    ///
    /// `NoMemory` where there is no memory for them.
    pub fn come(&mut self, played: &mut Played, octets: &[u8]) -> Result<(), NoMemory>
        requires hand { IsInHand self.old played.old }
        requires open { played.old.standing ≡ Open }
        ensures { OnOk result (Leads (HappensIn played.old.name (Came octets.now)) self.old played.old self.new played.new) }
    {
        self.come_to(played, octets)?;
        Ok(())
    }

    fn come_to(&mut self, played: &mut Played, octets: &[u8]) -> Result<(), NoMemory>
        requires { IsPlayed played.old }
        ensures { OnOk result (Lived self.old played.old (Came octets.now) self.new played.new) }
    {
        let call = played.call.take();
        played.come(octets, &mut self.totals)?;
        played.call = call;
        Ok(())
    }

    /// The next act of the connection in hand, before its group knows of it.
    pub(crate) fn next_act(&mut self, played: &mut Played) -> Result<Option<Act>, NoMemory>
        requires { IsPlayed played.old }
        ensures { IfOk result (λ act. Lived self.old played.old (event_of act) self.new played.new) }
    {
        let call = played.call.take();
        let act = played.next(self.alloc, &mut self.totals, &mut self.out)?;
        played.call = call;
        Ok(act)
    }
}
