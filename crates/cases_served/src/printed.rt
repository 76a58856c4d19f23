//! What a server prints of its connections: rows `NAME | ENDING.. | STATUS: LINES`.

use crate::seen::put_joined;
use base_words::{put, put_decimal};
use cases_base::{Answers, CasesFault, Names, Told, answered};
use conn_asks::ConnFault;
use rpc_base::NoMemory;
use server_command::{connection_line, status_of};
use server_ends::Ending;
use std::alloc::Global;

/// Prints what rows say.
#[derive(Drop)]
struct Printed;

fn ending_of(word: &str) -> Option<Ending> {
    match word {
        "closed" => Some(Ending::Closed),
        "link" => Some(Ending::LinkFault),
        "refused" => Some(Ending::Refused(ConnFault::Unbound)),
        "memory" => Some(Ending::Memory),
        _ => Some(Ending::Cut(word.parse::<usize>().ok()?)),
    }
}

impl Answers for Printed {
    fn answer(
        &mut self,
        alloc: Global,
        _names: &Names,
        given: &str,
        into: &mut Vec<u8>,
    ) -> Result<bool, NoMemory> {
        let mut endings = Vec::new(alloc);
        let mut text = Vec::new(alloc);
        let mut number = 0u64;
        for word in given.split_whitespace() {
            let Some(ending) = ending_of(word) else {
                return Ok(false);
            };
            number = number.saturating_add(1);
            connection_line(alloc, number, ending, &mut text)?;
            endings.push(ending)?;
        }
        put_decimal(alloc, u64::from(status_of(endings.as_slice())), into)?;
        if number > 0 {
            put(b": ", into)?;
        }
        put_joined(text.as_slice(), into)?;
        Ok(true)
    }
}

/// What is told of rows of what a server prints.
pub fn printed_lines(alloc: Global, text: &str) -> Result<Told, CasesFault> {
    answered(alloc, &mut Printed, text)
}
