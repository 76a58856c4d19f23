//! Lines of entries: rows `NAME | LINE | ENTRY`. A line that isn't an entry's comes to `none`.

use crate::escapes::put_unescaped;
use base_words::{put, put_decimal};
use cases_base::{Answers, CasesFault, Names, Told, answered, put_debug};
use journal_reader::next_entry;
use journal_text::entry_text;
use rpc_base::NoMemory;
use std::alloc::Global;

/// Reads an entry and writes it again.
#[derive(Drop)]
struct Lines;

/// Puts the entry, and how many octets stand behind its line.
fn put_entry(alloc: Global, text: &[u8], into: &mut Vec<u8>) -> Result<(), NoMemory> {
    let Some((entry, rest)) = next_entry(alloc, text)? else {
        return put(b"none", into);
    };
    let mut again = Vec::new(alloc);
    entry_text(alloc, &entry, &mut again)?;
    put(rest, &mut again)?;
    if again.as_slice() != text {
        put(b"otherwise written ", into)?;
    }
    put_debug(alloc, &entry, into)?;
    if !rest.is_empty() {
        put(b" before ", into)?;
        put_decimal(alloc, rest.len() as u64, into)?;
    }
    Ok(())
}

impl Answers for Lines {
    fn answer(
        &mut self,
        alloc: Global,
        _names: &Names,
        given: &str,
        into: &mut Vec<u8>,
    ) -> Result<bool, NoMemory> {
        let mut text = Vec::new(alloc);
        put_unescaped(given, &mut text)?;
        put_entry(alloc, text.as_slice(), into)?;
        Ok(true)
    }
}

/// What is told of rows of lines.
pub fn entry_lines(alloc: Global, text: &str) -> Result<Told, CasesFault> {
    answered(alloc, &mut Lines, text)
}
