//! The lines of a text, one after the other.
ghost use Rattle.std.specs.Prelude.{◌≡◌, IfOk, IfErr, OnOk, MatchOption};
ghost use Rattle.replay_script.specs.Lines.{BeginsWith, BeginsWithNoLine};
ghost use Rattle.replay_script.specs.declared.line.Line.TheVariants as lines;
ghost use Rattle.replay_world.specs.declared.fault.ReplayFault.TheVariants as faults;
ghost use Rattle.replay.specs.Lines.{HasWorld, Comes};
ghost use Rattle.replay.specs.Departures.{BeginsWithNoBoot};
ghost use Rattle.replay.specs.Reading.{HasNoBoot, Continues, Stops, Played, Halts};

use crate::lines::play_line;
use replay_events::Player;
use replay_script::{Line, next_line};
use replay_world::ReplayFault;
use rpc_base::NoMemory;
use std::alloc::Global;

/// The first line of a text, and what follows it.
fn first_line(alloc: Global, text: &[u8]) -> Result<Option<(Line, &[u8])>, ReplayFault>
    ensures line { IfOk result (λ found. MatchOption found (BeginsWithNoLine text.now) (λ x. BeginsWith x.0 x.1.now text.now)) }
    ensures fault { IfErr result (λ e. e ≡ faults.Memory) }
{
    match next_line(alloc, text) {
        Ok(found) => Ok(found),
        Err(NoMemory) => Err(ReplayFault::Memory),
    }
}

/// The boot word of a line.
fn boot_in(line: &Line) -> Option<u64>
    ensures { MatchOption result (HasNoBoot line.now) (λ word. line.now ≡ lines.Boot word) }
{
    match line {
        Line::Boot(word) => Some(*word),
        _ => None,
    }
}

/// The boot word with which a text begins, and what follows its line.
///
/// # Errors
///
/// `ReplayFault::Memory` where there is no memory for the line.
pub fn first_boot(alloc: Global, text: &[u8]) -> Result<Option<(u64, &[u8])>, ReplayFault>
    ensures boot { IfOk result (λ found. MatchOption found (BeginsWithNoBoot text.now) (λ x. BeginsWith (lines.Boot x.0) x.1.now text.now)) }
    ensures fault { IfErr result (λ e. e ≡ faults.Memory) }
{
    let Some((line, rest)) = first_line(alloc, text)? else {
        return Ok(None);
    };
    let Some(word) = boot_in(&line) else {
        return Ok(None);
    };
    Ok(Some((word, rest)))
}

/// Plays a line, where it may come now.
fn is_played(player: &mut Player, line: Line) -> Result<bool, ReplayFault>
    requires { HasWorld player.old }
    ensures line { IfOk result (λ taken. Comes player.old line taken player.new) }
    ensures fault { IfErr result (λ e. e ≡ faults.Memory) }
{
    match play_line(player, line) {
        Ok(taken) => Ok(taken),
        Err(NoMemory) => Err(ReplayFault::Memory),
    }
}

/// Plays the first line of a text, as the line of this number, and gives what follows it. None where
/// no line begins the text.
fn play_next<'a>(
    alloc: Global,
    player: &mut Player,
    text: &'a [u8],
    number: usize,
) -> Result<Option<&'a [u8]>, ReplayFault>
    requires { HasWorld player.old }
    ensures next { IfOk result (λ next. MatchOption next (BeginsWithNoLine text.now × (player.new ≡ player.old)) (λ rest. Continues player.old text.now rest.now player.new)) }
    ensures fault { IfErr result (Stops player.old text.now number) }
{
    let Some((line, rest)) = first_line(alloc, text)? else {
        return Ok(None);
    };
    if is_played(player, line)? {
        Ok(Some(rest))
    } else {
        Err(ReplayFault::Line(number))
    }
}

/// Plays the lines behind the first one.
///
/// # Errors
///
/// `ReplayFault::Line` with the number of the first line, from 1, that departs from the scripts,
/// and `ReplayFault::Memory` where memory runs out.
pub fn play_rest(alloc: Global, player: &mut Player, text: &[u8]) -> Result<(), ReplayFault>
    requires { HasWorld player.old }
    ensures played { OnOk result (Played player.old text.now player.new) }
    ensures fault { IfErr result (Halts player.old text.now) }
{
    let mut rest = text;
    let mut count = 0;
    while let Some(after) = play_next(alloc, player, rest, count + 2)? {
        rest = after;
        count += 1;
    }
    if rest.is_empty() {
        Ok(())
    } else {
        Err(ReplayFault::Line(count + 2))
    }
}
