//! What a list of moves leaves, as lines.

use crate::messages::handle_of;
use base_words::{put, put_hex_u32};
use call_world::{Fate, FateRow, Moves, World, WorldFault, play_world};
use cases_base::first_word;
use handle_model::{Base, Home};
use journal_text::journal_text;
use ndr_lines::put_message;
use ndr_table::Table;
use rpc_base::{NoMemory, WireHandle};
use std::alloc::Global;

/// Whose journal it is.
const HOME: Home = Home { boot: 1, group: 1 };

fn put_fate(alloc: Global, fate: &Fate, into: &mut Vec<u8>) -> Result<(), NoMemory> {
    match fate {
        Fate::Open => put(b"open\n", into),
        Fate::Lost => put(b"lost\n", into),
        Fate::Done(message) => {
            put(b"done ", into)?;
            put_message(message, alloc, into)?;
            put(b"\n", into)
        }
        Fate::Fault { status, not_run } => {
            put(b"fault ", into)?;
            put_hex_u32(alloc, status.0, into)?;
            put(if *not_run { b" not-run\n" } else { b" run\n" }, into)
        }
    }
}

fn put_row(alloc: Global, row: FateRow<'_>, into: &mut Vec<u8>) -> Result<(), NoMemory> {
    let conn = row.conn;
    let head = match row.call {
        Some(call) => format!(in alloc; "fate {conn} {call} ")?,
        None => format!(in alloc; "fate {conn} none ")?,
    };
    put(head.as_bytes(), into)?;
    put_fate(alloc, row.fate, into)
}

fn put_fates(alloc: Global, world: &World, into: &mut Vec<u8>) -> Result<(), NoMemory> {
    for at in 0..world.started() {
        if let Some(row) = world.fate(at) {
            put_row(alloc, row, into)?;
        }
    }
    Ok(())
}

/// What became of a handle.
fn handle_word(world: &World, handle: WireHandle) -> &'static str {
    if world.is_live(handle) {
        "live"
    } else if world.in_shut(handle) {
        "shut"
    } else {
        "neither"
    }
}

/// What is said of the handles of which the lines that are wanted speak.
fn put_handles(
    alloc: Global,
    world: &World,
    wanted: &str,
    into: &mut Vec<u8>,
) -> Result<(), NoMemory> {
    for line in wanted.lines() {
        let Some(words) = line.strip_prefix("handle ") else {
            continue;
        };
        let (text, _) = first_word(words);
        if let Some(handle) = handle_of(text) {
            let word = handle_word(world, handle);
            let line = format!(in alloc; "handle {text} {word}\n")?;
            put(line.as_bytes(), into)?;
        }
    }
    Ok(())
}

/// Puts what these moves leave.
///
/// # Errors
///
/// `NoMemory` where memory runs out.
pub fn put_outcome(
    alloc: Global,
    table: &Table,
    moves: Moves,
    wanted: &str,
    into: &mut Vec<u8>,
) -> Result<(), NoMemory> {
    let world = match play_world(alloc, table, moves) {
        Ok(world) => world,
        Err(WorldFault::Memory) => return Err(NoMemory),
        Err(WorldFault::NotNow(place)) => {
            let line = format!(in alloc; "not-now {place}\n")?;
            return put(line.as_bytes(), into);
        }
    };
    put_fates(alloc, &world, into)?;
    put_handles(alloc, &world, wanted, into)?;
    journal_text(alloc, HOME, &Base::empty(alloc), world.journal(), into)
}
