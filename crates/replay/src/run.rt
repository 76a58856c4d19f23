//! A connection's call is tried.
ghost use Rattle.std.specs.Prelude.{◌≡◌, Some, IfOk, OnOk};
ghost use Rattle.replay_script.specs.declared.line.Line.TheVariants as lines;
ghost use Rattle.replay_world.specs.declared.peer.Unanswered.TheVariants.{Call};
ghost use Rattle.replay_events.specs.Hands.{IsInHand, Leads};
ghost use Rattle.replay.specs.Lines.{HasWorld, Comes};
ghost use Rattle.replay.specs.Hands.{Does, TriesIn};

use crate::called::call_of;
use crate::say::{say_idle, say_waits};
use group_core::Taking;
use replay_events::{Played, Player};
use replay_world::Member;
use rpc_base::NoMemory;

/// What follows where the call was taken, denied, has to wait for another, or doesn't wait.
fn follow(player: &mut Player, played: &mut Played, answer: Taking) -> Result<(), NoMemory>
    requires { IsInHand player.old played.old }
    ensures { OnOk result (Leads (TriesIn played.old.name answer) player.old played.old player.new played.new) }
{
    match answer {
        Taking::Run(_, _) => Ok(()),
        Taking::Denied(_) => {
            player.go_on(played)?;
            Ok(())
        }
        Taking::Wait(other) => {
            say_waits(player, played, other)?;
            Ok(())
        }
        Taking::Dropped => {
            say_idle(player, played)?;
            Ok(())
        }
    }
}

/// The accepted call of the one in hand.
fn try_call(
    player: &mut Player,
    played: &mut Played,
    member: Member,
    call: u32,
) -> Result<(), NoMemory>
    requires hand { IsInHand player.old played.old }
    requires member { played.old.member ≡ Some member }
    requires call { played.old.unanswered ≡ Call call }
    ensures { OnOk result (Leads (Does (lines.Run played.old.name)) player.old played.old player.new played.new) }
{
    let answer = player.take_call(played, member, call)?;
    follow(player, played, answer)?;
    Ok(())
}

/// That of the one in hand, if it has one.
fn run_it(player: &mut Player, played: &mut Played) -> Result<(), NoMemory>
    requires { IsInHand player.old played.old }
    ensures { OnOk result (Leads (Does (lines.Run played.old.name)) player.old played.old player.new played.new) }
{
    match call_of(played) {
        Some((member, call)) => try_call(player, played, member, call),
        None => {
            say_idle(player, played)?;
            Ok(())
        }
    }
}

/// The call of the connection of that name is taken, denied, or said to wait for another. Answers false where there is none of
/// that name.
///
/// # Errors
///
/// `NoMemory` where there is no memory for what is said or printed.
pub fn run(player: &mut Player, name: u32) -> Result<bool, NoMemory>
    requires { HasWorld player.old }
    ensures { IfOk result (λ taken. Comes player.old (lines.Run name) taken player.new) }
{
    let Some(mut played) = player.pick(name) else {
        return Ok(false);
    };
    run_it(player, &mut played)?;
    player.put_back(played)?;
    Ok(true)
}
