//! Acts of a connection and words of the server, until it rests.
ghost use Rattle.std.specs.Prelude.{◌≡◌, IfOk, OnOk};
ghost use Rattle.replay_world.specs.declared.peer.Standing.TheVariants.{Open};

use crate::{Played, Player};
use replay_world::Standing;
use rpc_base::NoMemory;

impl Player {
    ghost use Rattle.replay_events.specs.Hands.{IsInHand, Leads, GoesOnIn};
    ghost use Rattle.replay_events.specs.Lived.{StepsIn};

    /// Does all that the octets of the connection in hand ask for, up to a call that has to wait.
    ///
    /// # Errors
    ///
    /// `NoMemory` where there is no memory for it.
    pub fn go_on(&mut self, played: &mut Played) -> Result<(), NoMemory>
        requires { IsInHand self.old played.old }
        ensures { OnOk result (Leads (GoesOnIn played.old.name) self.old played.old self.new played.new) }
    {
        for _ in 0..u64::MAX {
            let goes = self.step(played)?;
            if !goes {
                return Ok(());
            }
        }
        Err(NoMemory)
    }

    /// The next act or word, if there is one.
    fn step(&mut self, played: &mut Played) -> Result<bool, NoMemory>
        requires { IsInHand self.old played.old }
        ensures { IfOk result (λ goes. Leads (StepsIn played.old.name goes) self.old played.old self.new played.new) }
    {
        match played.standing {
            Standing::Open => {
                let goes = self.open_step(played)?;
                Ok(goes)
            }
            Standing::Closed => Ok(false),
            Standing::Lost => Ok(false),
        }
    }

    fn open_step(&mut self, played: &mut Played) -> Result<bool, NoMemory>
        requires hand { IsInHand self.old played.old }
        requires open { played.old.standing ≡ Open }
        ensures { IfOk result (λ goes. Leads (StepsIn played.old.name goes) self.old played.old self.new played.new) }
    {
        let due = self.is_due(played)?;
        if due {
            self.word(played)?;
            return Ok(true);
        }
        let next = self.next_act(played)?;
        match next {
            Some(act) => {
                self.act(played, act)?;
                Ok(true)
            }
            None => Ok(false),
        }
    }
}
