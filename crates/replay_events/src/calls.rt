//! The call of the connection in hand is taken, and ends.
ghost use Rattle.std.specs.Prelude.{◌≡◌, Some, IfOk};
ghost use Rattle.replay_world.specs.declared.peer.Unanswered.TheVariants.{Call};
ghost use Rattle.replay_events.specs.Marked as spec;

use crate::{Kept, Played, Player};
use group_core::{Stage, Taking};
use handle_model::{Reply, Said};
use replay_world::{Member, Standing};
use rpc_base::{NoMemory, Status};

/// What is kept of a call that is tried: with its cookies where it is taken.
fn with_cookies(taking: Taking, kept: Option<Kept>) -> Option<Kept>
    ensures { result ≡ spec.with_cookies taking kept }
{
    match (taking, kept) {
        (Taking::Run(row, _), Some(kept)) => Some(Kept {
            asked: kept.asked,
            cookies: Some(row),
            orphaned: kept.orphaned,
        }),
        (_, kept) => kept,
    }
}

/// What the client of a call that is tried is told: only where it is denied.
fn told_of(taking: Taking) -> Option<Reply>
    ensures { result ≡ spec.told_of taking }
{
    match taking {
        Taking::Denied(_) => Some(Reply::Never(Status::NCA_S_FAULT_CONTEXT_MISMATCH)),
        Taking::Run(..) | Taking::Dropped | Taking::Wait(_) => None,
    }
}

/// What the client of a call that ends is told, where its connection is there.
fn told_at(standing: Standing, orphaned: bool, said: Said) -> Option<Reply>
    ensures { result ≡ spec.told_at standing orphaned said }
{
    match standing {
        Standing::Open => {
            if orphaned {
                Some(Reply::Dropped)
            } else {
                Some(Reply::Ran(said))
            }
        }
        Standing::Closed => None,
        Standing::Lost => None,
    }
}

impl Player {
    ghost use Rattle.replay_events.specs.Hands.{IsInHand, Leads, TakesIn, EndsAs, Runs};

    /// Takes the call of the connection in hand, where it waits and nothing is in its way, or denies it for its handles.
    ///
    /// # Errors
    ///
    /// `NoMemory` where its group has ended.
    pub fn take_call(
        &mut self,
        played: &mut Played,
        member: Member,
        call: u32,
    ) -> Result<Taking, NoMemory>
        requires hand { IsInHand self.old played.old }
        requires member { played.old.member ≡ Some member }
        requires call { played.old.unanswered ≡ Call call }
        ensures { IfOk result (λ answer. Leads (TakesIn member call answer) self.old played.old self.new played.new) }
    {
        let at = self.realm.stage(member, call)?;
        match at {
            Stage::Waiting => {
                let taking = self.try_call(played, member, call)?;
                Ok(taking)
            }
            Stage::Running => Ok(Taking::Dropped),
            Stage::Over => Ok(Taking::Dropped),
        }
    }

    /// Takes a call that waits.
    fn try_call(
        &mut self,
        played: &mut Played,
        member: Member,
        call: u32,
    ) -> Result<Taking, NoMemory>
        requires hand { IsInHand self.old played.old }
        requires member { played.old.member ≡ Some member }
        requires call { played.old.unanswered ≡ Call call }
        ensures { IfOk result (λ answer. Leads (TakesIn member call answer) self.old played.old self.new played.new) }
    {
        let taking = self.realm.take(member, call)?;
        let kept = played.call.take();
        played.call = with_cookies(taking, kept);
        self.told = told_of(taking);
        Ok(taking)
    }

    /// Has the desk of the call's interface answer it, where it runs, and ends it so. Answers false where it doesn't run.
    ///
    /// # Errors
    ///
    /// `NoMemory` where there is no memory for the answer, or its group has ended.
    pub fn finish_call(
        &mut self,
        played: &mut Played,
        member: Member,
        call: u32,
    ) -> Result<bool, NoMemory>
        requires hand { IsInHand self.old played.old }
        requires member { played.old.member ≡ Some member }
        requires call { played.old.unanswered ≡ Call call }
        ensures { IfOk result (λ ended. EndsAs member call ended self.old played.old self.new played.new) }
    {
        let at = self.realm.stage(member, call)?;
        match at {
            Stage::Running => {
                let ended = self.end_call(played, member, call)?;
                Ok(ended)
            }
            Stage::Waiting => Ok(false),
            Stage::Over => Ok(false),
        }
    }

    /// Ends a running call.
    fn end_call(&mut self, played: &mut Played, member: Member, call: u32) -> Result<bool, NoMemory>
        requires hand { IsInHand self.old played.old }
        requires member { played.old.member ≡ Some member }
        requires call { played.old.unanswered ≡ Call call }
        requires runs { Runs self.old played.old member call }
        ensures { IfOk result (λ ended. EndsAs member call ended self.old played.old self.new played.new) }
    {
        let taken = played.call.take();
        let Some(kept) = taken else {
            return Err(NoMemory);
        };
        let Some(row) = kept.cookies else {
            return Err(NoMemory);
        };
        let said = self
            .realm
            .finish(member, call, &kept.asked, &row, &self.totals)?;
        self.told = told_at(played.standing, kept.orphaned, said);
        played.call = Some(kept);
        Ok(true)
    }
}
