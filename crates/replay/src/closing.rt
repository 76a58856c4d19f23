//! What happens behind the last line.
ghost use Rattle.std.specs.Prelude.{IfOk, OnOk};
ghost use Rattle.replay_events.specs.Hands.{Plays};
ghost use Rattle.replay.specs.Lines.{HasWorld};
ghost use Rattle.replay.specs.Hands.{EndsOrElse, LosesIfThere};
ghost use Rattle.replay.specs.Closing.{LosesNames, FinishesNames, AllLost, AllFinished, AllEnded, IsLeft};

use crate::finish::end;
use crate::lose::lose_if_there;
use replay_events::Player;
use rpc_base::NoMemory;
use std::alloc::Global;

/// The connection of that name is lost, if it is there.
fn lose_one(player: &mut Player, name: u32) -> Result<(), NoMemory>
    requires { HasWorld player.old }
    ensures { OnOk result (Plays (LosesIfThere name) player.old player.new) }
{
    let Some(mut played) = player.pick(name) else {
        return Err(NoMemory);
    };
    lose_if_there(player, &mut played)?;
    player.put_back(played)?;
    Ok(())
}

/// The running call of the connection of that name ends, if it has one.
fn finish_one(player: &mut Player, name: u32) -> Result<(), NoMemory>
    requires { HasWorld player.old }
    ensures { OnOk result (Plays (EndsOrElse (λ w. w) name) player.old player.new) }
{
    let Some(mut played) = player.pick(name) else {
        return Err(NoMemory);
    };
    end(player, &mut played)?;
    player.put_back(played)?;
    Ok(())
}

/// The connections of these names that are there are lost, one after the other.
fn lose_names(player: &mut Player, names: &[u32]) -> Result<(), NoMemory>
    requires { HasWorld player.old }
    ensures { OnOk result (Plays (LosesNames names.now) player.old player.new) }
{
    for name in names {
        lose_one(player, *name)?;
    }
    Ok(())
}

/// The running calls of the connections of these names end, one after the other.
fn finish_names(player: &mut Player, names: &[u32]) -> Result<(), NoMemory>
    requires { HasWorld player.old }
    ensures { OnOk result (Plays (FinishesNames names.now) player.old player.new) }
{
    for name in names {
        finish_one(player, *name)?;
    }
    Ok(())
}

/// All connections that are there are lost, by rising name.
fn lose_all(alloc: Global, player: &mut Player) -> Result<(), NoMemory>
    requires { HasWorld player.old }
    ensures { OnOk result (Plays AllLost player.old player.new) }
{
    let names = player.peers.names(alloc)?;
    lose_names(player, names.as_slice())?;
    Ok(())
}

/// All running calls end, in the same order.
fn finish_all(alloc: Global, player: &mut Player) -> Result<(), NoMemory>
    requires { HasWorld player.old }
    ensures { OnOk result (Plays AllFinished player.old player.new) }
{
    let names = player.peers.names(alloc)?;
    finish_names(player, names.as_slice())?;
    Ok(())
}

/// What happens behind the last line of a replay: connections that are there are lost, and then running calls end, both by
/// rising name.
///
/// # Errors
///
/// `NoMemory` where there is no memory for it.
pub fn end_all(alloc: Global, player: &mut Player) -> Result<(), NoMemory>
    requires { HasWorld player.old }
    ensures { OnOk result (Plays AllEnded player.old player.new) }
{
    lose_all(alloc, player)?;
    finish_all(alloc, player)?;
    Ok(())
}

/// Closes a replay behind its last line. What was printed, and the text of the journals.
///
/// # Errors
///
/// `NoMemory` where there is no memory for it.
pub fn close(alloc: Global, player: Player) -> Result<(Vec<u8>, Vec<u8>), NoMemory>
    requires { HasWorld player }
    ensures { IfOk result (λ texts. IsLeft player texts.0.items texts.1.items) }
{
    let mut player = player;
    end_all(alloc, &mut player)?;
    let mut log = Vec::new(alloc);
    player.realm.log(&mut log)?;
    Ok((player.out, log))
}
