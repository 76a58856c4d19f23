//! Octets come to a connection.
ghost use Rattle.std.specs.Prelude.{◌≡◌, IfOk, OnOk};
ghost use Rattle.replay_script.specs.declared.line.Line.TheVariants as lines;
ghost use Rattle.replay_world.specs.declared.peer.Standing.TheVariants.{Open};
ghost use Rattle.replay_events.specs.Hands.{IsInHand, Leads};
ghost use Rattle.replay.specs.Lines.{HasWorld, Comes};
ghost use Rattle.replay.specs.Hands.{Does, MayDo};

use replay_events::{Played, Player};
use replay_world::Standing;
use rpc_base::NoMemory;

/// To the one in hand, which is there.
fn send_open(player: &mut Player, played: &mut Played, octets: &[u8]) -> Result<(), NoMemory>
    requires hand { IsInHand player.old played.old }
    requires is_open { played.old.standing ≡ Open }
    ensures { OnOk result (Leads (Does (lines.Send played.old.name octets.now)) player.old played.old player.new played.new) }
{
    player.come(played, octets)?;
    player.go_on(played)?;
    Ok(())
}

/// To the one in hand: false where it was lost.
fn send_to(player: &mut Player, played: &mut Played, octets: &[u8]) -> Result<bool, NoMemory>
    requires { IsInHand player.old played.old }
    ensures { IfOk result (λ taken. MayDo (lines.Send played.old.name octets.now) taken player.old played.old player.new played.new) }
{
    match played.standing {
        Standing::Open => {
            send_open(player, played, octets)?;
            Ok(true)
        }
        Standing::Closed => Ok(true),
        Standing::Lost => Ok(false),
    }
}

/// Octets come to the connection of that name, and all is done that they ask for. Answers false where there is none of
/// that name, or it was lost.
///
/// # Errors
///
/// `NoMemory` where there is no memory for the octets, or for what is said or printed.
pub fn send(player: &mut Player, name: u32, octets: &[u8]) -> Result<bool, NoMemory>
    requires { HasWorld player.old }
    ensures { IfOk result (λ taken. Comes player.old (lines.Send name octets.now) taken player.new) }
{
    let Some(mut played) = player.pick(name) else {
        return Ok(false);
    };
    if !send_to(player, &mut played, octets)? {
        return Ok(false);
    }
    player.put_back(played)?;
    Ok(true)
}
