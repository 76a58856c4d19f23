//! A connection is lost.
ghost use Rattle.std.specs.Prelude.{IfOk, OnOk};
ghost use Rattle.replay_script.specs.declared.line.Line.TheVariants as lines;
ghost use Rattle.replay_events.specs.Hands.{IsInHand, Leads};
ghost use Rattle.replay.specs.Lines.{HasWorld, Comes};
ghost use Rattle.replay.specs.Hands.{LosesIfThere, MayDo};

use replay_events::{Played, Player};
use replay_world::Standing;
use rpc_base::NoMemory;

/// The one in hand is lost: false where it was already.
fn lose_it(player: &mut Player, played: &mut Played) -> Result<bool, NoMemory>
    requires { IsInHand player.old played.old }
    ensures { IfOk result (λ taken. MayDo (lines.Lose played.old.name) taken player.old played.old player.new played.new) }
{
    match played.standing {
        Standing::Open => {
            player.lose(played)?;
            Ok(true)
        }
        Standing::Closed => Ok(true),
        Standing::Lost => Ok(false),
    }
}

/// The one in hand is lost, if it is there.
///
/// # Errors
///
/// `NoMemory` where there is no memory for what is said or printed.
pub fn lose_if_there(player: &mut Player, played: &mut Played) -> Result<(), NoMemory>
    requires { IsInHand player.old played.old }
    ensures { OnOk result (Leads (LosesIfThere played.old.name) player.old played.old player.new played.new) }
{
    match played.standing {
        Standing::Open => {
            player.lose(played)?;
            Ok(())
        }
        Standing::Closed => Ok(()),
        Standing::Lost => Ok(()),
    }
}

/// The connection of that name is lost. Answers false where there is none of that name, or it was lost already.
///
/// # Errors
///
/// `NoMemory` where there is no memory for what is said or printed.
pub fn lose(player: &mut Player, name: u32) -> Result<bool, NoMemory>
    requires { HasWorld player.old }
    ensures { IfOk result (λ taken. Comes player.old (lines.Lose name) taken player.new) }
{
    let Some(mut played) = player.pick(name) else {
        return Ok(false);
    };
    if !lose_it(player, &mut played)? {
        return Ok(false);
    }
    player.put_back(played)?;
    Ok(true)
}
