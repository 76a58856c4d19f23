//! What is printed of a call that isn't taken, or doesn't end.
ghost use Rattle.std.specs.Prelude.{◌≡◌, ◌++◌, OnOk, [], ◌∷◌};
ghost use Rattle.replay_world.specs.Worlds.Printed.{Waits, Idle};
ghost use Rattle.replay_world.specs.Printing.{printed_text};
ghost use Rattle.replay_world.specs.Answered.{FitsPrinted};
ghost use Rattle.replay_events.specs.Hands.{IsInHand, Leads};
ghost use Rattle.replay.specs.Hands.{PrintsIn};

use base_words::{put, put_decimal};
use replay_events::{Played, Player};
use rpc_base::NoMemory;
use std::alloc::Global;

#[tactic(auto, unfolding(replay_world::specs::Printing::printed_text))]
fn put_idle(alloc: Global, name: u32, out: &mut Vec<u8>) -> Result<(), NoMemory>
    ensures text { OnOk result (out.new.items ≡ out.old.items ++ printed_text (Idle name)) }
    ensures fits { FitsPrinted (Idle name) }
{
    put_decimal(alloc, u64::from(name), out)?;
    put(b" idle", out)?;
    put(b"\n", out)
}

#[tactic(auto, unfolding(replay_world::specs::Printing::printed_text))]
fn put_waits(alloc: Global, name: u32, call: u32, out: &mut Vec<u8>) -> Result<(), NoMemory>
    ensures text { OnOk result (out.new.items ≡ out.old.items ++ printed_text (Waits name call)) }
    ensures fits { FitsPrinted (Waits name call) }
{
    put_decimal(alloc, u64::from(name), out)?;
    put(b" waits ", out)?;
    put_decimal(alloc, u64::from(call), out)?;
    put(b"\n", out)
}

/// The connection in hand has no call to take, or to end.
///
/// # Errors
///
/// `NoMemory` where there is no memory for the line.
pub fn say_idle(player: &mut Player, played: &Played) -> Result<(), NoMemory>
    ensures { OnOk result (Leads (PrintsIn (Idle played.now.name ∷ [])) player.old played.now player.new played.now) }
{
    put_idle(player.alloc, played.name, &mut player.out)?;
    Ok(())
}

/// The call of the connection in hand has to wait for that one.
///
/// # Errors
///
/// `NoMemory` where there is no memory for the line.
pub fn say_waits(player: &mut Player, played: &Played, call: u32) -> Result<(), NoMemory>
    ensures { OnOk result (Leads (PrintsIn (Waits played.now.name call ∷ [])) player.old played.now player.new played.now) }
{
    put_waits(player.alloc, played.name, call, &mut player.out)?;
    Ok(())
}
