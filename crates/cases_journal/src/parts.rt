//! The parts of a journal's text.

use handle_model::{Base, BaseCalls, Entry};
use journal_reader::{next_base, next_call, next_entry};
use rpc_base::{Items, NoMemory};
use std::alloc::Global;

/// The calls of a base whose lines begin the text, and what follows.
fn calls_of(alloc: Global, text: &[u8]) -> Result<(BaseCalls, &[u8]), NoMemory> {
    let mut calls = Items::new(alloc);
    let mut rest = text;
    for _ in 0..text.len() {
        let Some((call, later)) = next_call(alloc, rest)? else {
            break;
        };
        calls.push(call)?;
        rest = later;
    }
    Ok((calls, rest))
}

/// The base whose lines begin the text, where there is one, and what follows.
pub fn base_of(alloc: Global, text: &[u8]) -> Result<(Option<Base>, &[u8]), NoMemory> {
    let Some((base, after)) = next_base(alloc, text)? else {
        return Ok((None, text));
    };
    let (calls, rest) = calls_of(alloc, after)?;
    Ok((Some(Base { calls, ..base }), rest))
}

/// The entries whose lines begin the text, and what follows.
pub fn entries_of(alloc: Global, text: &[u8]) -> Result<(Vec<Entry>, &[u8]), NoMemory> {
    let mut entries = Vec::new(alloc);
    let mut rest = text;
    for _ in 0..text.len() {
        let Some((entry, later)) = next_entry(alloc, rest)? else {
            break;
        };
        entries.push(entry)?;
        rest = later;
    }
    Ok((entries, rest))
}
