//! The spelling of each line of a replay script, and each way in which a line departs from it.

use crate::given::given_octets;
use base_words::{put, put_octets};
use cases_base::{Answers, CasesFault, Names, Told, answered, put_debug};
use replay_script::{Line, next_line};
use rpc_base::NoMemory;
use std::alloc::Global;

/// `line TEXT`: what a text with a line feed behind it says in its first line, and what is left. `text TEXT`: the same of the
/// text as it is.
#[derive(Clone, Copy)]
struct LineRows;

impl Answers for LineRows {
    fn answer(
        &mut self,
        alloc: Global,
        names: &Names,
        given: &str,
        into: &mut Vec<u8>,
    ) -> Result<bool, NoMemory> {
        let Some((verb, mut text)) = given_octets(alloc, names, given)? else {
            return Ok(false);
        };
        match verb {
            "line" => text.push(b'\n')?,
            "text" => {}
            _ => return Ok(false),
        }
        let Some((line, rest)) = next_line(alloc, text.as_slice())? else {
            put(b"none", into)?;
            return Ok(true);
        };
        put_line(alloc, &line, into)?;
        put(b" ", into)?;
        put_octets(alloc, rest, into)?;
        Ok(true)
    }
}

fn put_line(alloc: Global, line: &Line, into: &mut Vec<u8>) -> Result<(), NoMemory> {
    match line {
        Line::Send(connection, octets) => {
            let text = format!(in alloc; "Send({connection}) ")?;
            put(text.as_bytes(), into)?;
            put_octets(alloc, octets.as_slice(), into)
        }
        _ => put_debug(alloc, line, into),
    }
}

/// What is told of rows of scripts' lines.
pub fn lines(alloc: Global, text: &str) -> Result<Told, CasesFault> {
    answered(alloc, &mut LineRows, text)
}
