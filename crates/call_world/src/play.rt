//! Lists of moves.
ghost use Rattle.std.specs.Prelude.{IfOk, IfErr};
ghost use Rattle.rpc_base.specs.Fields.{FitsSyntax};
ghost use Rattle.ndr_table.specs.Shown.{shown};
ghost use Rattle.call_world.specs.Moves.{moves_of};
ghost use Rattle.call_world.specs.Played.{Leads, Stops, LeadsNowhere, IsPlayed};
ghost use Rattle.call_world.specs.Worlds.{IsWorld};
ghost use Rattle.world_laws.specs.Worlds.{empty};

use crate::{Moves, World};
use ndr_table::Table;
use rpc_base::SyntaxId;
use std::alloc::Global;
use thiserror::Error;
use world_laws::{
    calls_are_rows, fates_are_told, fates_are_true, handles_are_kept, only_where_it_may,
    starts_are_rows,
};

/// Why a list of moves isn't played.
#[derive(Clone, Copy, Debug, PartialEq, Eq, Error)]
pub enum WorldFault {
    /// The move at that place, from 0, is the first whose condition doesn't hold then: it can't be played.
    #[error("the move at place {0} can't be played then")]
    NotNow(usize),
    #[error("out of memory")]
    Memory,
}

/// What holds of every identifier.
fn is_syntax(syntax: SyntaxId)
    ensures { FitsSyntax syntax }
{
    let _id = syntax.id.as_bytes();
}

/// Plays them all from the empty world, one after the other.
fn play_on(world: World, moves: Moves) -> Result<World, WorldFault>
    requires { IsWorld world empty }
    ensures played { IfOk result (IsPlayed (shown world.table) (moves_of moves.items)) }
    ensures stops { IfErr result (Stops (shown world.table) (moves_of moves.items)) }
{
    let mut world = world;
    let mut left = moves;
    left.reverse();
    let mut place = 0;
    while let Some(step) = left.pop() {
        match world.play(step) {
            Ok(true) => place += 1,
            Ok(false) => return Err(WorldFault::NotNow(place)),
            Err(_) => return Err(WorldFault::Memory),
        }
    }
    Ok(world)
}

fn play_all(alloc: Global, table: &Table, moves: Moves) -> Result<World, WorldFault>
    ensures played { IfOk result (IsPlayed (shown table.now) (moves_of moves.items)) }
    ensures stops { IfErr result (Stops (shown table.now) (moves_of moves.items)) }
{
    match World::begin(alloc, table) {
        Ok(world) => play_on(world, moves),
        Err(_) => Err(WorldFault::Memory),
    }
}

/// The world to which these moves lead, one after the other, from the empty one, whose server has that interface.
///
/// # Errors
///
/// `NotNow` at the first move whose condition doesn't hold then; or want of memory.
pub fn play_world(alloc: Global, table: &Table, moves: Moves) -> Result<World, WorldFault>
    ensures leads { IfOk result (Leads (shown table.now) (moves_of moves.items)) }
    ensures stops { IfErr result (Stops (shown table.now) (moves_of moves.items)) }
    ensures leads_nowhere { IfErr result (LeadsNowhere (shown table.now) (moves_of moves.items)) }
{
    table.is_whole();
    table.is_shallow();
    table.is_sound();
    is_syntax(table.syntax());
    calls_are_rows();
    fates_are_true();
    fates_are_told();
    starts_are_rows();
    handles_are_kept();
    only_where_it_may();
    play_all(alloc, table, moves)
}
