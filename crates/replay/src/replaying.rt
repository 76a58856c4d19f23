//! Scripts are replayed.
ghost use Rattle.std.specs.Prelude.{◌≡◌, Option, IfOk, IfErr};
ghost use Rattle.ndr_table.specs.Tables.{TableForm};
ghost use Rattle.desk_service.specs.Shows.{shown_by};
ghost use Rattle.desk_service.specs.Start.{at_start};
ghost use Rattle.replay_world.specs.declared.fault.ReplayFault.TheVariants as faults;
ghost use Rattle.replay_world.specs.Worlds.{booted};
ghost use Rattle.replay_world.specs.Replays.{Replays, IsCause};
ghost use Rattle.replay_groups.specs.Service.{service_of, IsEcho};
ghost use Rattle.replay.specs.Laws.{ServesAll};
ghost use Rattle.replay_events.specs.Standing.{Stands};
ghost use Rattle.replay.specs.Lines.{HasWorld};
ghost use Rattle.replay.specs.Closing.{IsLeft};
ghost use Rattle.replay.specs.Departures.{StopsAt};

use crate::closing::close;
use crate::reading::{first_boot, play_rest};
use crate::replays_serve_all;
use ndr_table::Table;
use replay_events::Player;
use replay_groups::BuiltIn;
use replay_world::ReplayFault;
use rpc_base::{NoMemory, Octets};
use std::alloc::Global;

/// What a script puts on the two outputs.
#[derive(Drop)]
pub struct Replayed {
    /// The octets answered, a line for each PDU, and the calls that wait for another or for a line.
    pub out: Octets,
    /// The journals of the groups.
    pub log: Octets,
}

/// A server that was booted, with an echo of that interface.
fn begun(alloc: Global, boot: u64, echo: Option<&Table>) -> Result<Player, ReplayFault>
    ensures stands { IfOk result (λ player. Stands (shown_by (λ t. t.now) echo.entry) player (booted boot (at_start (shown_by (λ t. t.now) echo.entry)))) }
    ensures fault { IfErr result (λ e. e ≡ faults.Memory) }
{
    match Player::begin(alloc, boot, echo) {
        Ok(player) => Ok(player),
        Err(NoMemory) => Err(ReplayFault::Memory),
    }
}

/// Closes a replay behind its last line: what it leaves.
fn left(alloc: Global, player: Player) -> Result<Replayed, ReplayFault>
    requires { HasWorld player }
    ensures left { IfOk result (λ r. IsLeft player r.out r.log) }
    ensures fault { IfErr result (λ e. e ≡ faults.Memory) }
{
    match close(alloc, player) {
        Ok((out, log)) => Ok(Replayed {
            out: Octets::from_vec(out),
            log: Octets::from_vec(log),
        }),
        Err(NoMemory) => Err(ReplayFault::Memory),
    }
}

/// The interface of a table is one of an echo.
fn is_echo(echo: Option<&Table>)
    ensures { IsEcho (shown_by (λ t. t.now) echo.entry) }
{
    if let Some(table) = echo {
        table.is_whole();
        table.is_shallow();
    }
}

/// Replays the text of a script: its lines move connections, groups and the desks behind the interfaces, one after the
/// other, and then all connections are lost and all calls ended. For each connection of the script what is put on out are the
/// answers to what its octets ask, by the final journal of its group. `echo` is an interface that is served beside the
/// built-in ones, each of whose calls is answered with what came (C706, chapters "Remote Procedure Call Model" and
/// "Connection-oriented RPC Protocol Machines").
///
/// # Errors
///
/// `Line` with the number of the first line that departs from the scripts: the lines before it were played, and what follows
/// begins with no line, or with one that may not come there. `Memory` where there is no memory.
pub fn replay(alloc: Global, text: &[u8], echo: Option<&Table>) -> Result<Replayed, ReplayFault>
    ensures replayed { IfOk result (λ r. Replays (service_of (shown_by (λ t. t.now) echo.entry)) text.now r.out r.log) }
    ensures served { IfOk result (λ r. ServesAll (service_of (shown_by (λ t. t.now) echo.entry)) text.now r.out r.log) }
    ensures fault { IfErr result (IsCause (service_of (shown_by (λ t. t.now) echo.entry)) text.now) }
    ensures stops { IfErr result (StopsAt (service_of (shown_by (λ t. t.now) echo.entry)) text.now) }
{
    is_echo(echo);
    replays_serve_all::<BuiltIn>();
    let Some((boot, rest)) = first_boot(alloc, text)? else {
        return Err(ReplayFault::Line(1));
    };
    let mut player = begun(alloc, boot, echo)?;
    play_rest(alloc, &mut player, rest)?;
    let replayed = left(alloc, player)?;
    Ok(replayed)
}
