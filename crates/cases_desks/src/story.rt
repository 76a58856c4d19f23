//! Stories: rows of calls, one after another on desks that are new where a case begins. Lines `idl TEXT` in front of them are
//! the interface of an echo that stands beside the desks. Other lines are `table NAME = OPERATIONS`, `register MOST = ANSWER`,
//! `numbers KIND ADDED = NUMBERS` and `management SERVED KIND ADDED op NUMBER STUB = OCTETS`.

use crate::calls::{Cancel, Request, answer_to, put_answered};
use crate::keeping::put_kept;
use crate::management::{Managed, numbers_read, put_managed};
use crate::registrations::registered;
use crate::rows::{Row, row_of};
use crate::tables::{table_of, table_told};
use base_words::{put, put_hex};
use cases_base::{CasesFault, Names, Plays, Step, Told, first_word, octets_of, played, put_debug};
use desk_service::ServiceDesks;
use handle_model::{DueItem, Rundown};
use rpc_base::NoMemory;
use std::alloc::Global;
use std::thread::{Builder, Threads};

/// What a thread that answers a call is to be given: the deepest message takes some 2.8 MiB.
const STACK: usize = 4 << 20;

/// The present case: the text of its echo's interface, and its desks once a row has come.
#[derive(Drop)]
struct Story {
    interface: String,
    desks: Option<ServiceDesks>,
}

// The numbers that management tells of.
fn numbers_of(row: &Row<'_>) -> [u32; 3] {
    let mut numbers = [0; 3];
    if row.iface == 3 {
        for (number, word) in numbers.iter_mut().zip(row.before.split_whitespace()) {
            *number = word.parse::<u32>().unwrap_or(0);
        }
    }
    numbers
}

// The request of a row whose operation has that number and whose message has those octets.
fn request_of<'a>(row: &Row<'_>, op: u16, stub: &'a [u8], behind: &str) -> Request<'a> {
    let mut request = Request {
        iface: row.iface,
        op,
        stub,
        cookie: None,
        cancel: Cancel::No,
        numbers: numbers_of(row),
    };
    for word in behind.split_whitespace() {
        match word {
            "cancelled" => request.cancel = Cancel::Told,
            "marked" => request.cancel = Cancel::Marked,
            _ => request.cookie = word.parse::<u64>().ok(),
        }
    }
    request
}

// What a row's answer is to be: its octets in one word.
fn put_wanted(
    alloc: Global,
    names: &Names,
    row: &Row<'_>,
    into: &mut Vec<u8>,
) -> Result<(), NoMemory> {
    let Some((stub, behind)) = row.answer.split_once(';') else {
        return put(row.answer.as_bytes(), into);
    };
    match octets_of(alloc, names, stub)? {
        None => put(b"no octets", into)?,
        Some(stub) => put_hex(alloc, stub.as_slice(), into)?,
    }
    put(b";", into)?;
    for word in behind.split_whitespace() {
        put(b" ", into)?;
        put(word.as_bytes(), into)?;
    }
    Ok(())
}

fn put_row_wanted(
    alloc: Global,
    names: &Names,
    row: &Row<'_>,
    into: &mut Vec<u8>,
) -> Result<(), NoMemory> {
    put(row.before.as_bytes(), into)?;
    put(b"|", into)?;
    put_wanted(alloc, names, row, into)?;
    put(b"|", into)?;
    put(row.after.as_bytes(), into)
}

fn put_call(
    alloc: Global,
    names: &Names,
    desks: &mut ServiceDesks,
    row: &Row<'_>,
    into: &mut Vec<u8>,
) -> Result<(), NoMemory> {
    let (stub, behind) = row.message_parts();
    let (Some(stub), Ok(op)) = (octets_of(alloc, names, stub)?, row.op.parse::<u16>()) else {
        return put(b"no row", into);
    };
    let request = request_of(row, op, stub.as_slice(), behind);
    let answered = answer_to(alloc, desks, &request)?;
    put_answered(alloc, &answered, into)
}

// The handle is run down.
fn run_down(desks: &mut ServiceDesks, row: &Row<'_>, into: &mut Vec<u8>) -> Result<(), NoMemory> {
    let Ok(cookie) = row.message.parse::<u64>() else {
        return put(b"no row", into);
    };
    desks.rundown(DueItem {
        serial: 1,
        kind: u32::from(row.iface) << 16,
        cookie,
    });
    Ok(())
}

fn put_state(
    alloc: Global,
    desks: &mut ServiceDesks,
    row: &Row<'_>,
    into: &mut Vec<u8>,
) -> Result<(), NoMemory> {
    match row.iface {
        3 => put(row.before.as_bytes(), into),
        iface => put_kept(alloc, desks, iface, into),
    }
}

// Puts the states and the answer of a row.
fn put_row(
    alloc: Global,
    names: &Names,
    desks: &mut ServiceDesks,
    row: &Row<'_>,
    into: &mut Vec<u8>,
) -> Result<(), NoMemory> {
    put_state(alloc, desks, row, into)?;
    put(b"|", into)?;
    match row.op {
        "rundown" => run_down(desks, row, into)?,
        _ => put_call(alloc, names, desks, row, into)?,
    }
    put(b"|", into)?;
    put_state(alloc, desks, row, into)
}

/// The numbers of words, as far as they are numbers.
fn numbers(alloc: Global, text: &str) -> Result<Vec<u32>, NoMemory> {
    let mut numbers = Vec::new(alloc);
    for word in text.split_whitespace() {
        match word.parse::<u32>() {
            Ok(number) => numbers.push(number)?,
            Err(_) => break,
        }
    }
    Ok(numbers)
}

/// Puts what management answers to what is asked behind its word. False where that is nothing of the kind.
fn put_management(
    alloc: Global,
    names: &Names,
    asked: &str,
    into: &mut Vec<u8>,
) -> Result<bool, NoMemory> {
    let (served, rest) = first_word(asked);
    let (kind, rest) = first_word(rest);
    let Some((added, call)) = rest.split_once("op ") else {
        return Ok(false);
    };
    let (op, stub) = first_word(call);
    let (Ok(served), Ok(op), Some(stub)) = (
        served.parse::<usize>(),
        op.parse::<u16>(),
        octets_of(alloc, names, stub)?,
    ) else {
        return Ok(false);
    };
    let added = numbers(alloc, added)?;
    let managed = Managed {
        served,
        shared: kind == "shared",
        added: added.as_slice(),
        op,
        stub: stub.as_slice(),
    };
    put_managed(alloc, &managed, into)?;
    Ok(true)
}

/// Puts what a line that is no row comes to. False where it is none.
fn put_other(
    alloc: Global,
    names: &Names,
    given: &str,
    into: &mut Vec<u8>,
) -> Result<bool, NoMemory> {
    match first_word(given) {
        ("table", name) => put_debug(alloc, &table_told(alloc, name)?, into)?,
        ("register", most) => {
            let most = most.parse::<u16>().unwrap_or(0);
            put_debug(alloc, &registered(alloc, most), into)?;
        }
        ("numbers", rest) => {
            let (kind, added) = first_word(rest);
            let added = numbers(alloc, added)?;
            put_debug(
                alloc,
                &numbers_read(kind == "shared", added.as_slice()),
                into,
            )?;
        }
        ("management", asked) => return put_management(alloc, names, asked, into),
        _ => return Ok(false),
    }
    Ok(true)
}

fn judged(come: &[u8], wanted: &[u8]) -> Step {
    if come == wanted {
        Step::Held
    } else {
        Step::Differs
    }
}

impl Story {
    /// Makes the desks, where no row has come yet. They aren't made where the interface of the echo isn't one.
    fn make_desks(&mut self, alloc: Global) -> Result<(), NoMemory> {
        if self.desks.is_some() {
            return Ok(());
        }
        let echo = table_of(alloc, self.interface.as_str());
        if echo.is_some() || self.interface.is_empty() {
            self.desks = Some(ServiceDesks::new(alloc, echo.as_ref())?);
        }
        Ok(())
    }

    fn row(
        &mut self,
        alloc: Global,
        names: &Names,
        row: &Row<'_>,
        come: &mut Vec<u8>,
    ) -> Result<Step, NoMemory> {
        self.make_desks(alloc)?;
        let Some(desks) = &mut self.desks else {
            return Ok(Step::Outside);
        };
        put_row(alloc, names, desks, row, come)?;
        let mut wanted = Vec::new(alloc);
        put_row_wanted(alloc, names, row, &mut wanted)?;
        Ok(judged(come.as_slice(), wanted.as_slice()))
    }
}

impl Plays for Story {
    fn begin(&mut self, _alloc: Global, _name: &str) -> Result<(), NoMemory> {
        self.interface.clear();
        self.desks = None;
        Ok(())
    }

    fn step(
        &mut self,
        alloc: Global,
        names: &Names,
        line: &str,
        come: &mut Vec<u8>,
    ) -> Result<Step, NoMemory> {
        if let Some(row) = row_of(line) {
            return self.row(alloc, names, &row, come);
        }
        if let Some(text) = line.strip_prefix("idl ") {
            self.interface.push_str(text)?;
            self.interface.push('\n')?;
            return Ok(Step::Held);
        }
        let Some((given, wanted)) = line.split_once(" = ") else {
            return Ok(Step::Outside);
        };
        if !put_other(alloc, names, given, come)? {
            return Ok(Step::Outside);
        }
        Ok(judged(come.as_slice(), wanted.as_bytes()))
    }

    fn end(
        &mut self,
        _alloc: Global,
        _names: &Names,
        _come: &mut Vec<u8>,
    ) -> Result<Step, NoMemory> {
        Ok(Step::Held)
    }
}

fn story_of(alloc: Global, text: &str) -> Result<Told, CasesFault> {
    let mut story = Story {
        interface: String::new(alloc),
        desks: None,
    };
    played(alloc, &mut story, text)
}

/// What is told of a text of stories, each call answered in a thread of that stack.
pub fn desk_calls<R: Threads>(rt: &R, alloc: Global, text: &str) -> Result<Told, CasesFault> {
    let text = String::from_str(alloc, text)?;
    let child = Builder::new()
        .stack_size(STACK)
        .spawn(rt, move || -> Result<Told, CasesFault> {
            story_of(alloc, text.as_str())
        });
    match child {
        Ok(child) => child.join(rt),
        Err(_) => Err(CasesFault::Memory),
    }
}
