//! A load is played.
ghost use Rattle.std.specs.Prelude.{ℕ, ◌<◌, ◌≤◌, ◌∷◌, List, IfOk, OnOk, None};
ghost use Rattle.replay_script.specs.Rounds.{Round};
ghost use Rattle.replay_world.specs.Loads.{IsSummary};
ghost use Rattle.replay_groups.specs.Service.{service_of};
ghost use Rattle.replay_events.specs.Hands.{Plays};
ghost use Rattle.replay.specs.Lines.{HasWorld};
ghost use Rattle.replay.specs.Playing.{LinesLead, IsBehind, HasPlayed};

use crate::closing::end_all;
use crate::lines::play_line;
use replay_events::Player;
use replay_script::{Line, Load, lines, summary};
use replay_world::answered_in;
use rpc_base::NoMemory;
use std::alloc::Global;

/// The boot word of the server that a load is played on.
const BOOT: u64 = 1;

/// Plays lines, one after the other. It recurses once for each line, so they are those of one step.
fn play_lines(player: &mut Player, lines: Vec<Line>) -> Result<(), NoMemory>
    requires { HasWorld player.old }
    ensures { OnOk result (Plays (LinesLead lines.items) player.old player.new) }
{
    let mut front = lines;
    let Some(last) = front.pop() else {
        return Ok(());
    };
    play_lines(player, front)?;
    if play_line(player, last)? {
        Ok(())
    } else {
        Err(NoMemory)
    }
}

/// Plays the next step of a load, which hears what is answered.
fn step(alloc: Global, player: &mut Player, load: &mut Load) -> Result<(), NoMemory>
    requires world { HasWorld player.old }
    requires more { load.old.steps < 100000 }
    ensures { OnOk result ((number : ℕ) (rounds : List Round) → IsBehind number rounds player.old load.old → (r : Round) × IsBehind number (r ∷ rounds) player.new load.new) }
{
    let step = load.next();
    let before = player.out.len();
    play_lines(player, lines(alloc, step.deed)?)?;
    let (_, printed) = player.out.as_slice().split_at(before);
    let answers = answered_in(alloc, printed)?;
    load.played(step, answers.as_slice());
    Ok(())
}

/// The player behind so many steps of the load of a number.
fn played(alloc: Global, number: u64, steps: u32) -> Result<Player, NoMemory>
    requires { steps ≤ 100000 }
    ensures { IfOk result (HasPlayed number steps) }
{
    let mut player = Player::begin(alloc, BOOT, None)?;
    let mut load = Load::new(number);
    while load.steps() < steps {
        step(alloc, &mut player, &mut load)?;
    }
    Ok(player)
}

/// Plays the load of a number in so many steps, 100,000 at most, and makes the line that tells what it comes to. Its time is
/// linear in the steps.
///
/// # Errors
///
/// `NoMemory` where there is no memory for it.
pub fn load(alloc: Global, number: u64, steps: u32) -> Result<Vec<u8>, NoMemory>
    requires { steps ≤ 100000 }
    ensures { IfOk result (λ text. IsSummary (service_of None) number steps text.items) }
{
    let mut player = played(alloc, number, steps)?;
    end_all(alloc, &mut player)?;
    let mut text = Vec::new(alloc);
    summary(alloc, steps, player.realm.counts(), &mut text)?;
    Ok(text)
}
