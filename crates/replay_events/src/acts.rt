//! What the acts of a connection mean to its group.
ghost use Rattle.std.specs.Prelude.{ℕ, List, OnOk};
ghost use Rattle.conn_asks.specs.declared.events.ConnFault.{ConnFault as ConnFaultSpec};
ghost use Rattle.conn_asks.specs.declared.events.Act.TheVariants as acts;
ghost use Rattle.conn_histories.specs.Histories.Event.{Did};

use crate::marked::{cancelled, leave, marked, orphaned, with_orphan};
use crate::{Kept, Played, Player};
use conn_core::Act;
use pdu_stream::Joined;
use replay_groups::Requested;
use replay_world::{Standing, Unanswered};
use rpc_base::NoMemory;

impl Player {
    ghost use Rattle.replay_events.specs.Lived.{IsMidway, Means};

    /// What the act means to the group of the connection in hand.
    pub(crate) fn act(&mut self, played: &mut Played, act: Act) -> Result<(), NoMemory>
        requires { IsMidway (Did act) self.old played.old }
        ensures { OnOk result (Means act self.old played.old self.new played.new) }
    {
        match act {
            Act::Answer(_) => Ok(()),
            Act::Group(asked) => {
                played.unanswered = Unanswered::Bind(asked);
                Ok(())
            }
            Act::Call(joined, iface) => {
                self.request(played, joined, iface)?;
                Ok(())
            }
            Act::Cancel(_) => {
                self.cancel(played)?;
                Ok(())
            }
            Act::Orphan(_) => {
                self.orphan(played)?;
                Ok(())
            }
            Act::Close(_, _) => {
                self.close(played)?;
                Ok(())
            }
        }
    }

    /// A request is refused, or is accepted as a call.
    fn request(&mut self, played: &mut Played, joined: Joined, iface: u16) -> Result<(), NoMemory>
        requires { IsMidway (Did (acts.Call joined iface)) self.old played.old }
        ensures { OnOk result (Means (acts.Call joined iface) self.old played.old self.new played.new) }
    {
        let Some(member) = played.member else {
            return Err(NoMemory);
        };
        let cancel = joined.cancel;
        let requested = self.realm.request(member, joined, iface)?;
        match requested {
            Requested::Refused(status) => {
                played.unanswered = Unanswered::Refused(status);
                Ok(())
            }
            Requested::Accepted(call, asked) => {
                let told = marked(&mut self.realm, cancel, member, call)?;
                self.told = told;
                played.unanswered = Unanswered::Call(call);
                played.call = Some(Kept {
                    asked,
                    cookies: None,
                    orphaned: false,
                });
                Ok(())
            }
        }
    }

    /// The call that is unanswered is cancelled.
    fn cancel(&mut self, played: &mut Played) -> Result<(), NoMemory>
        requires { (id : ℕ) × IsMidway (Did (acts.Cancel id)) self.old played.old }
        ensures { OnOk result ((id : ℕ) → Means (acts.Cancel id) self.old played.old self.new played.new) }
    {
        let Some(member) = played.member else {
            return Err(NoMemory);
        };
        let Unanswered::Call(call) = played.unanswered else {
            return Err(NoMemory);
        };
        let told = cancelled(&mut self.realm, member, call)?;
        self.told = told;
        Ok(())
    }

    /// The call that is unanswered is orphaned.
    fn orphan(&mut self, played: &mut Played) -> Result<(), NoMemory>
        requires { (id : ℕ) × IsMidway (Did (acts.Orphan id)) self.old played.old }
        ensures { OnOk result ((id : ℕ) → Means (acts.Orphan id) self.old played.old self.new played.new) }
    {
        let Some(member) = played.member else {
            return Err(NoMemory);
        };
        let Unanswered::Call(call) = played.unanswered else {
            return Err(NoMemory);
        };
        let (told, now) = orphaned(&mut self.realm, member, call)?;
        self.told = told;
        let kept = played.call.take();
        played.call = with_orphan(now, kept);
        Ok(())
    }

    /// The connection is closed: it leaves its group, if it joined one.
    fn close(&mut self, played: &mut Played) -> Result<(), NoMemory>
        requires { (octets : List ℕ) × (why : ConnFaultSpec) × IsMidway (Did (acts.Close octets why)) self.old played.old }
        ensures { OnOk result ((octets : List ℕ) (why : ConnFaultSpec) → Means (acts.Close octets why) self.old played.old self.new played.new) }
    {
        leave(&mut self.realm, played.member)?;
        played.unanswered = Unanswered::Nothing;
        played.standing = Standing::Closed;
        Ok(())
    }
}
