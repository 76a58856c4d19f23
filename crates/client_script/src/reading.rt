//! The lines of a text, one after the other.
ghost use Rattle.std.specs.Prelude.{◌≡◌, Some, None, Ok, Err, IfOk, IfErr};
ghost use Rattle.ndr_table.specs.Shown.{shown};
ghost use Rattle.client_script.specs.Worlds.{nothing_yet};
ghost use Rattle.client_script.specs.Shows.{HasWorld};
ghost use Rattle.client_script.specs.Plays.{Runs, PlaysNext, PlaysOn, AllEnds, stopped_as};

use crate::calling::CallEnd;
use crate::lines::play_line;
use crate::next_line;
use crate::player::{Player, Stop};
use ndr_table::Table;
use rpc_outside::{Address, Dial};

/// Plays the first line of a text, and gives what follows it. None where no line begins the text, or it may not come.
fn play_next<'a, Q: Dial>(
    player: &mut Player<Q::Link>,
    table: &Table,
    dial: &mut Q,
    at: Address,
    text: &'a [u8],
) -> Result<Option<&'a [u8]>, Stop>
    requires { HasWorld Q.Link.shows player.old }
    ensures next { IfOk result (λ found. PlaysOn Q.Link.shows found (λ rest. rest.now) (shown table.now) at text.now player.old (Q.shows dial.old) player.new (Q.shows dial.new)) }
    ensures stop { IfErr result (λ why. PlaysNext Q.Link.shows (shown table.now) at text.now player.old (Q.shows dial.old) (Err why) player.new (Q.shows dial.new)) }
{
    let Some((line, rest)) = next_line(player.alloc, text)? else {
        return Ok(None);
    };
    if play_line(player, table, dial, at, &line)? {
        Ok(Some(rest))
    } else {
        Ok(None)
    }
}

/// How a script ends that doesn't go on.
fn end_of(stop: Stop) -> CallEnd
    ensures { result ≡ stopped_as stop }
{
    match stop {
        Stop::Lost => CallEnd::Lost,
        Stop::Dial => CallEnd::DialFault,
        Stop::Memory => CallEnd::Memory,
    }
}

/// Plays the lines of a text, with a player that did nothing yet.
pub fn play_all<Q: Dial>(
    player: &mut Player<Q::Link>,
    table: &Table,
    dial: &mut Q,
    at: Address,
    text: &[u8],
) -> CallEnd
    requires { Runs Q.Link.shows (shown table.now) at (Q.shows dial.old) player.old (Q.shows dial.old) nothing_yet }
    ensures { AllEnds Q.Link.shows (shown table.now) at text.now (Q.shows dial.old) result player.new (Q.shows dial.new) }
{
    let mut rest = text;
    let mut number = 1;
    while !rest.is_empty() {
        match play_next(player, table, dial, at, rest) {
            Ok(Some(after)) => {
                rest = after;
                number += 1;
            }
            Ok(None) => return CallEnd::Line(number),
            Err(stop) => return end_of(stop),
        }
    }
    if player.failed {
        CallEnd::Failed
    } else {
        CallEnd::Done
    }
}
