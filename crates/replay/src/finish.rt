//! A connection's running call ends.
ghost use Rattle.std.specs.Prelude.{◌≡◌, Some, IfOk, OnOk};
ghost use Rattle.replay_script.specs.declared.line.Line.TheVariants as lines;
ghost use Rattle.replay_world.specs.declared.peer.Unanswered.TheVariants.{Call};
ghost use Rattle.replay_events.specs.Hands.{IsInHand, Leads};
ghost use Rattle.replay.specs.Lines.{HasWorld, Comes};
ghost use Rattle.replay.specs.Hands.{Does, FollowsIn, MayEnd};

use crate::called::call_of;
use crate::say::say_idle;
use replay_events::{Played, Player};
use replay_world::{Member, Standing};
use rpc_base::NoMemory;

/// What follows where the connection in hand had this standing.
fn follow(player: &mut Player, played: &mut Played, standing: Standing) -> Result<(), NoMemory>
    requires { IsInHand player.old played.old }
    ensures { OnOk result (Leads (FollowsIn played.old.name standing) player.old played.old player.new played.new) }
{
    match standing {
        Standing::Open => {
            player.go_on(played)?;
            Ok(())
        }
        Standing::Closed => Ok(()),
        Standing::Lost => Ok(()),
    }
}

/// The accepted call of the one in hand ends, where it runs.
fn end_call(
    player: &mut Player,
    played: &mut Played,
    member: Member,
    call: u32,
) -> Result<bool, NoMemory>
    requires hand { IsInHand player.old played.old }
    requires member { played.old.member ≡ Some member }
    requires call { played.old.unanswered ≡ Call call }
    ensures { IfOk result (λ ended. MayEnd ended player.old played.old player.new played.new) }
{
    let standing = played.standing;
    if !player.finish_call(played, member, call)? {
        return Ok(false);
    }
    follow(player, played, standing)?;
    Ok(true)
}

/// The call of the one in hand ends, if it has one and that runs.
///
/// # Errors
///
/// `NoMemory` where there is no memory for what is said or printed.
pub fn end(player: &mut Player, played: &mut Played) -> Result<bool, NoMemory>
    requires { IsInHand player.old played.old }
    ensures { IfOk result (λ ended. MayEnd ended player.old played.old player.new played.new) }
{
    match call_of(played) {
        Some((member, call)) => end_call(player, played, member, call),
        None => Ok(false),
    }
}

/// The same, and where it has none that is printed.
fn finish_it(player: &mut Player, played: &mut Played) -> Result<(), NoMemory>
    requires { IsInHand player.old played.old }
    ensures { OnOk result (Leads (Does (lines.Finish played.old.name)) player.old played.old player.new played.new) }
{
    if end(player, played)? {
        return Ok(());
    }
    say_idle(player, played)?;
    Ok(())
}

/// The running call of the connection of that name ends, if it has one, and what waited behind it goes on. Answers false where
/// there is none of that name.
///
/// # Errors
///
/// `NoMemory` where there is no memory for what is said or printed.
pub fn finish(player: &mut Player, name: u32) -> Result<bool, NoMemory>
    requires { HasWorld player.old }
    ensures { IfOk result (λ taken. Comes player.old (lines.Finish name) taken player.new) }
{
    let Some(mut played) = player.pick(name) else {
        return Ok(false);
    };
    finish_it(player, &mut played)?;
    player.put_back(played)?;
    Ok(true)
}
