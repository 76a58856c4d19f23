//! Moves, a line for each.

use crate::messages::message_of;
use base_words::{read_u16, read_u32, read_u64};
use call_world::{Move, Moves, play_world};
use cases_base::first_word;
use handle_model::Entry;
use manager_api::{Kept, Kepts};
use ndr_codec::Way;
use ndr_table::Table;
use ndr_value::{Message, Wires};
use std::alloc::Global;

/// A line, and the operation of the call that it ends, where it ends one.
type Line<'a> = (&'a str, Option<u16>);

fn kept_of(word: &str) -> Option<Kept> {
    match word {
        "stays" => Some(Kept::Stays),
        "null" => Some(Kept::Null),
        _ => Some(Kept::Cookie(read_u64(word.strip_prefix("cookie:")?.as_bytes())?)),
    }
}

fn kepts_of(alloc: Global, words: &str) -> Option<Kepts> {
    let mut kepts = Kepts::new(alloc);
    if words != "-" {
        for word in words.split(',') {
            kepts.push(kept_of(word)?).ok()?;
        }
    }
    Some(kepts)
}

/// The message that has the text, and one of nothing where no such message of the operation has it.
fn message_or_none(alloc: Global, table: &Table, op: Option<u16>, way: Way, text: &str) -> Message {
    match op.and_then(|op| message_of(alloc, table, op, way, text)) {
        Some(message) => message,
        None => Message {
            values: Vec::new(alloc),
            heap: Vec::new(alloc),
            wires: Wires::new(alloc),
        },
    }
}

fn start_of(alloc: Global, table: &Table, conn: u32, words: &str) -> Option<Move> {
    let (op, text) = first_word(words);
    let op = read_u16(op.as_bytes())?;
    let message = message_or_none(alloc, table, Some(op), Way::Request, text);
    Some(Move::Start { conn, op, message })
}

fn finish_of(
    alloc: Global,
    table: &Table,
    op: Option<u16>,
    call: u32,
    words: &str,
) -> Option<Move> {
    let (kepts, text) = first_word(words);
    let kepts = kepts_of(alloc, kepts)?;
    let out = message_or_none(alloc, table, op, Way::Response, text);
    Some(Move::Finish { call, kepts, out })
}

fn move_of(alloc: Global, table: &Table, line: Line<'_>) -> Option<Move> {
    let (line, op) = line;
    if line == "restart" {
        return Some(Move::Restart);
    }
    let (word, words) = first_word(line);
    let (first, rest) = first_word(words);
    let name = read_u32(first.as_bytes())?;
    let number = read_u32(rest.as_bytes());
    Some(match word {
        "open" => Move::Open {
            conn: name,
            group: number?,
        },
        "start" => return start_of(alloc, table, name, rest),
        "to-server" => Move::ToServer {
            conn: name,
            octets: number?,
        },
        "to-caller" => Move::ToCaller {
            conn: name,
            octets: number?,
        },
        "cancel" => Move::Cancel { conn: name },
        "lose" => Move::Lose { conn: name },
        "take" => Move::Take { call: name },
        "finish" => return finish_of(alloc, table, op, name, rest),
        _ => return None,
    })
}

fn all_of(alloc: Global, table: &Table, lines: &[Line<'_>]) -> Option<Moves> {
    let mut moves = Vec::new(alloc);
    for line in lines {
        moves.push(move_of(alloc, table, *line)?).ok()?;
    }
    Some(moves)
}

/// The operation of the call once those lines are played, if it was accepted.
fn op_behind(alloc: Global, table: &Table, lines: &[Line<'_>], call: u32) -> Option<u16> {
    let world = play_world(alloc, table, all_of(alloc, table, lines)?).ok()?;
    for entry in world.journal() {
        match entry {
            Entry::Accept { call: k, asked } if *k == call => return Some(asked.op),
            _ => {}
        }
    }
    None
}

/// The call that a line ends.
fn ended(line: &str) -> Option<u32> {
    let (call, _) = first_word(line.strip_prefix("finish ")?);
    read_u32(call.as_bytes())
}

/// The moves of a text. None where a line is no move.
pub fn moves_of(alloc: Global, table: &Table, text: &str) -> Option<Moves> {
    let mut lines: Vec<Line<'_>> = Vec::new(alloc);
    for line in text.lines() {
        let op = match ended(line) {
            Some(call) => op_behind(alloc, table, lines.as_slice(), call),
            None => None,
        };
        lines.push((line, op)).ok()?;
    }
    all_of(alloc, table, lines.as_slice())
}
