//! Words of the server.
ghost use Rattle.std.specs.Bool.{OnTrue};
ghost use Rattle.std.specs.Prelude.{◌≡◌, ℕ, true, Option, IfOk, OnOk};
ghost use Rattle.std.specs.Option.{option_copied};
ghost use Rattle.ndr_table.specs.Tables.{TableForm};
ghost use Rattle.conn_asks.specs.Answers.{FitsStub};
ghost use Rattle.conn_histories.specs.Histories.Decision.{ToGroup, RefuseGroup, Reply as Answer};
ghost use Rattle.conn_histories.specs.Events.{word_of, has_run};
ghost use Rattle.desk_service.specs.State.{Services};
ghost use Rattle.replay_world.specs.declared.peer.Standing.TheVariants.{Open};
ghost use Rattle.replay_world.specs.declared.peer.Unanswered.TheVariants as unanswered;
ghost use Rattle.replay_world.specs.Events.{is_call_over};
ghost use Rattle.replay_world.specs.Worlds.{World};
ghost use Rattle.replay_events.specs.Living.{IsPlayed};
ghost use Rattle.replay_groups.specs.Holding.{Holds};
ghost use Rattle.replay_events.specs.Lived as lived;

use crate::{Played, Player};
use group_core::Stage;
use handle_model::{Reply, Said};
use pdu_stream::MOST_STUB;
use replay_groups::BindRefusal;
use replay_world::{Member, Standing, Unanswered};
use rpc_base::{NoMemory, Status};

/// Whether a response may have that stub.
fn fits(said: Option<&Said>) -> bool
    ensures { OnTrue result (FitsStub (option_copied said.entry)) }
{
    match said {
        Some(Said::Out(stub)) => stub.len() <= MOST_STUB,
        _ => true,
    }
}

/// Whether a call at that stage is over.
fn is_end(at: Stage) -> bool
    ensures { result ≡ lived.is_end at }
{
    match at {
        Stage::Over => true,
        Stage::Waiting => false,
        Stage::Running => false,
    }
}

impl Player {
    ghost use Rattle.replay_events.specs.Hands.{IsInHand, Leads};
    ghost use Rattle.replay_events.specs.Lived.{IsDue, DecidesIn, LivedWord};

    fn is_over(&self, member: Option<Member>, call: u32) -> Result<bool, NoMemory>
        ensures { IfOk result (λ over. (echo : Option TableForm) (w : World Services) → Holds echo self.now.realm w → is_call_over w member call ≡ over) }
    {
        match member {
            None => Ok(false),
            Some(member) => {
                let at = self.realm.stage(member, call)?;
                Ok(is_end(at))
            }
        }
    }

    /// Whether a word of the server is due on the connection in hand.
    pub(crate) fn is_due(&self, played: &Played) -> Result<bool, NoMemory>
        ensures { IfOk result (λ due. IsDue self.now played.now due) }
    {
        match played.unanswered {
            Unanswered::Nothing => Ok(false),
            Unanswered::Bind(_) => Ok(true),
            Unanswered::Refused(_) => Ok(true),
            Unanswered::Call(call) => {
                let over = self.is_over(played.member, call)?;
                Ok(over)
            }
        }
    }

    /// Says the word that is due.
    pub(crate) fn word(&mut self, played: &mut Played) -> Result<(), NoMemory>
        requires hand { IsInHand self.old played.old }
        requires open { played.old.standing ≡ Open }
        requires due { IsDue self.old played.old true }
        ensures { OnOk result (Leads (DecidesIn played.old.name) self.old played.old self.new played.new) }
    {
        match played.unanswered {
            Unanswered::Nothing => Err(NoMemory),
            Unanswered::Bind(asked) => {
                self.bind(played, asked)?;
                Ok(())
            }
            Unanswered::Refused(status) => {
                self.refused(played, status)?;
                Ok(())
            }
            Unanswered::Call(_) => {
                self.replied(played)?;
                Ok(())
            }
        }
    }

    /// A bind comes to a group, or is refused.
    fn bind(&mut self, played: &mut Played, asked: u32) -> Result<(), NoMemory>
        requires hand { IsInHand self.old played.old }
        requires open { played.old.standing ≡ Open }
        requires asked { played.old.unanswered ≡ unanswered.Bind asked }
        ensures { OnOk result (Leads (DecidesIn played.old.name) self.old played.old self.new played.new) }
    {
        let answer = self.realm.bind(asked);
        match answer {
            Ok(member) => {
                self.bound(played, member.group)?;
                played.member = Some(member);
                played.unanswered = Unanswered::Nothing;
                Ok(())
            }
            Err(refusal) => {
                self.refuse(played, refusal)?;
                played.unanswered = Unanswered::Nothing;
                played.standing = Standing::Closed;
                Ok(())
            }
        }
    }

    fn refuse(&mut self, played: &mut Played, refusal: BindRefusal) -> Result<(), NoMemory>
        requires { IsPlayed played.old }
        ensures { OnOk result (lived.RefusesBind refusal self.old played.old self.new played.new) }
    {
        match refusal {
            BindRefusal::Refused(reason) => {
                self.nak(played, reason)?;
                Ok(())
            }
            BindRefusal::Memory => Err(NoMemory),
        }
    }

    fn bound(&mut self, played: &mut Played, group: u32) -> Result<(), NoMemory>
        requires { IsPlayed played.old }
        ensures { OnOk result (LivedWord self.old played.old (ToGroup group) self.new played.new) }
    {
        if !played.conn.is_grouping() {
            return Err(NoMemory);
        }
        let call = played.call.take();
        played.bound(self.alloc, group, &mut self.totals, &mut self.out)?;
        played.call = call;
        Ok(())
    }

    fn nak(&mut self, played: &mut Played, reason: u16) -> Result<(), NoMemory>
        requires { IsPlayed played.old }
        ensures { OnOk result (LivedWord self.old played.old (RefuseGroup reason) self.new played.new) }
    {
        if !played.conn.is_grouping() {
            return Err(NoMemory);
        }
        let call = played.call.take();
        played.nak(self.alloc, reason, &mut self.totals, &mut self.out)?;
        played.call = call;
        Ok(())
    }

    /// A request that is refused is answered.
    fn refused(&mut self, played: &mut Played, status: Status) -> Result<(), NoMemory>
        requires hand { IsInHand self.old played.old }
        requires open { played.old.standing ≡ Open }
        requires status { played.old.unanswered ≡ unanswered.Refused status }
        ensures { OnOk result (Leads (DecidesIn played.old.name) self.old played.old self.new played.new) }
    {
        let reply = Reply::Never(status);
        self.reply(played, &reply)?;
        played.unanswered = Unanswered::Nothing;
        Ok(())
    }

    /// A call that is over is answered, where the reply is known.
    fn replied(&mut self, played: &mut Played) -> Result<(), NoMemory>
        requires hand { IsInHand self.old played.old }
        requires open { played.old.standing ≡ Open }
        requires call { (k : ℕ) × (played.old.unanswered ≡ unanswered.Call k) }
        requires due { IsDue self.old played.old true }
        ensures { OnOk result (Leads (DecidesIn played.old.name) self.old played.old self.new played.new) }
    {
        let Some(reply) = self.told.take() else {
            return Err(NoMemory);
        };
        self.reply(played, &reply)?;
        played.unanswered = Unanswered::Nothing;
        Ok(())
    }

    fn reply(&mut self, played: &mut Played, reply: &Reply) -> Result<(), NoMemory>
        requires { IsPlayed played.old }
        ensures { OnOk result (LivedWord self.old played.old (Answer (word_of reply.now) (has_run reply.now)) self.new played.new) }
    {
        match reply {
            Reply::Never(status) => {
                let fault = Said::Fault(*status);
                self.say(played, Some(&fault), false)?;
                Ok(())
            }
            Reply::Ran(said) => {
                self.say(played, Some(said), true)?;
                Ok(())
            }
            Reply::Dropped => {
                self.say(played, None, false)?;
                Ok(())
            }
            Reply::Open => {
                self.say(played, None, false)?;
                Ok(())
            }
        }
    }

    fn say(
        &mut self,
        played: &mut Played,
        said: Option<&Said>,
        executed: bool,
    ) -> Result<(), NoMemory>
        requires { IsPlayed played.old }
        ensures { OnOk result (LivedWord self.old played.old (Answer (option_copied said.entry) executed) self.new played.new) }
    {
        if !played.conn.is_calling() || !fits(said) {
            return Err(NoMemory);
        }
        let call = played.call.take();
        played.reply(self.alloc, said, executed, &mut self.totals, &mut self.out)?;
        played.call = call;
        Ok(())
    }
}
