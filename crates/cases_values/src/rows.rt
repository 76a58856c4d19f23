//! Rows of values, `NAME | WORD .. | WANTED`.

use crate::shapes::{Shaped, shape_of};
use crate::texts::value_of;
use base_words::{put, put_decimal, read_u32};
use cases_base::{Answers, CasesFault, Names, Told, answered, first_word, put_debug};
use cases_idl::spelled;
use ndr_value::{Value, well_typed};
use rpc_base::NoMemory;
use std::alloc::Global;
use value_text::{TextFault, print_value, read_value};

/// What is told of rows of values, whose texts are spelled on one line. `value SHAPE :: TEXT` is read, and wants the value or the
/// fault; `from INDEX SHAPE :: TEXT` is read from that index on; `print SHAPE :: TEXT` wants `same` where the value has that very
/// text. `is SHAPE :: OTHER SHAPE :: TEXT` wants `yes` where the value that the text has by the other shape is of the shape, where
/// the heap has one byte, and else `no`.
pub fn values(alloc: Global, text: &str) -> Result<Told, CasesFault> {
    answered(alloc, &mut Rows, text)
}

/// Rows.
#[derive(Drop)]
struct Rows;

impl Answers for Rows {
    fn answer(
        &mut self,
        alloc: Global,
        _names: &Names,
        given: &str,
        into: &mut Vec<u8>,
    ) -> Result<bool, NoMemory> {
        let (word, rest) = first_word(given);
        let Some((words, text)) = rest.rsplit_once("::") else {
            return Ok(false);
        };
        let Some(text) = spelled(alloc, text.trim())? else {
            return Ok(false);
        };
        match word {
            "value" => put_read(alloc, words, &text, into),
            "from" => put_read_from(alloc, words, &text, into),
            "print" => put_printed(alloc, words, &text, into),
            "is" => put_is(alloc, words, &text, into),
            _ => Ok(false),
        }
    }
}

/// What stands before the texts that aren't read from their begin on.
const FRONT: &[u8] = b"{1, ";

/// What is read of a text, also where it stands behind another.
fn put_read(alloc: Global, words: &str, text: &[u8], into: &mut Vec<u8>) -> Result<bool, NoMemory> {
    let Some(shaped) = shape_of(alloc, words)? else {
        return Ok(false);
    };
    put_value(alloc, &shaped, text, 0, into)?;
    let mut behind = Vec::from_slice(alloc, FRONT)?;
    put(text, &mut behind)?;
    let mut told = Vec::new(alloc);
    put_value(alloc, &shaped, &behind, FRONT.len(), &mut told)?;
    if told.as_slice() != into.as_slice() {
        put(b" behind another text ", into)?;
        put(&told, into)?;
    }
    Ok(true)
}

/// What is read of a text from an index on; indices are told from there on.
fn put_value(
    alloc: Global,
    shaped: &Shaped,
    text: &[u8],
    at: usize,
    into: &mut Vec<u8>,
) -> Result<(), NoMemory> {
    match read_value(alloc, &shaped.types, &shaped.shape, text, at) {
        Err(TextFault::Syntax(index)) => put_index(alloc, b"Syntax", index, at, into),
        Err(TextFault::Kind(index)) => put_index(alloc, b"Kind", index, at, into),
        Err(TextFault::Range(index)) => put_index(alloc, b"Range", index, at, into),
        Err(TextFault::Memory) => Err(NoMemory),
        Ok((value, end)) => {
            put_debug(alloc, &value, into)?;
            if end < text.len() {
                put_index(alloc, b" to", end, at, into)?;
            }
            let mut printed = Vec::new(alloc);
            print_value(alloc, &value, &mut printed)?;
            match text.get(at..) {
                Some(rest) if rest.starts_with(printed.as_slice()) => Ok(()),
                _ => put(b" of another text", into),
            }
        }
    }
}

fn put_index(
    alloc: Global,
    word: &[u8],
    index: usize,
    at: usize,
    into: &mut Vec<u8>,
) -> Result<(), NoMemory> {
    put(word, into)?;
    put(b" ", into)?;
    put_decimal(alloc, index.saturating_sub(at) as u64, into)
}

fn put_read_from(
    alloc: Global,
    words: &str,
    text: &[u8],
    into: &mut Vec<u8>,
) -> Result<bool, NoMemory> {
    let (index, words) = first_word(words);
    let Some(index) = read_u32(index.as_bytes()) else {
        return Ok(false);
    };
    let Some(shaped) = shape_of(alloc, words)? else {
        return Ok(false);
    };
    match read_value(alloc, &shaped.types, &shaped.shape, text, index as usize) {
        Ok((value, _)) => put_debug(alloc, &value, into)?,
        Err(fault) => put_debug(alloc, &fault, into)?,
    }
    Ok(true)
}

fn put_printed(
    alloc: Global,
    words: &str,
    text: &[u8],
    into: &mut Vec<u8>,
) -> Result<bool, NoMemory> {
    let Some(value) = value_of(alloc, words, text)? else {
        return Ok(false);
    };
    let mut printed = Vec::new(alloc);
    print_value(alloc, &value, &mut printed)?;
    if printed.as_slice() == text {
        put(b"same", into)?;
    } else {
        put(&printed, into)?;
    }
    Ok(true)
}

fn put_is(alloc: Global, words: &str, text: &[u8], into: &mut Vec<u8>) -> Result<bool, NoMemory> {
    let Some((own, other)) = words.split_once("::") else {
        return Ok(false);
    };
    let Some(shaped) = shape_of(alloc, own)? else {
        return Ok(false);
    };
    let Some(value) = value_of(alloc, other, text)? else {
        return Ok(false);
    };
    let mut heap = Vec::new(alloc);
    heap.push(Value::Byte(1))?;
    let is = well_typed(&shaped.types, &shaped.shape, &value, &heap);
    put(if is { b"yes" } else { b"no" }, into)?;
    Ok(true)
}
