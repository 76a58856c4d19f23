//! Stories of a caller's connection: what it begins, and what the server's PDUs tell.

use crate::told::{put_fragments, put_told};
use base_words::{put, put_hex, read_u16, read_u32};
use cases_base::{CasesFault, Names, Plays, Step, Told, first_word, octets_of, played};
use client_core::Client;
use ndr_codec::{EncodeFault, Way, decode};
use ndr_lines::table_of;
use ndr_value::{Message, Value, Wires};
use pdu_codec::read_pdu;
use rpc_base::{NoMemory, Octets, Order};
use std::alloc::Global;

/// What is told of stories of a caller's connection, which is new at the begin of each. `bind GROUP`, `alter CONTEXT`,
/// `call OPERATION STUB` and `cancel` want octets, `hear OCTETS` what is told, `lost` what was out, and `is` how the connection
/// stands. `put COUNT` calls operation 3 with that many octets, and wants the flags of each fragment, how many octets of the stub
/// it has, and its hint. What is wanted stands behind `->`; what may not be done then is `may not`.
pub fn callers(alloc: Global, text: &str) -> Result<Told, CasesFault> {
    let mut caller = Caller {
        client: new_client(alloc)?,
    };
    played(alloc, &mut caller, text)
}

const INTERFACE: &str = "[uuid(5f0c7a12-3b4d-4e6f-8a90-b1c2d3e4f506), version(1.0)] interface i {
    unsigned long add([in] unsigned long n);
    [maybe] void note([in] unsigned long n);
    void read([in] unsigned long most, [out] unsigned long *n, [out, size_is(most), length_is(*n)] byte d[]);
    void put([in] unsigned long n, [in, size_is(n)] byte d[]);
}";

fn new_client(alloc: Global) -> Result<Client, NoMemory> {
    match table_of(alloc, INTERFACE.as_bytes()) {
        Some(table) => Ok(Client::new(alloc, table)),
        None => Err(NoMemory),
    }
}

/// A connection.
#[derive(Drop)]
struct Caller {
    client: Client,
}

/// A message of operation 3: that many octets.
fn many(alloc: Global, count: u32) -> Result<Message, NoMemory> {
    let mut octets = Octets::new(alloc);
    for at in 0..count {
        octets.push((at % 251) as u8)?;
    }
    let mut values = Vec::new(alloc);
    values.push(Value::Uint(u64::from(count)))?;
    values.push(Value::Octets(octets))?;
    Ok(Message {
        values,
        heap: Vec::new(alloc),
        wires: Wires::new(alloc),
    })
}

impl Caller {
    // The octets of a call, where it may be made.
    fn call(&mut self, op: u16, message: &Message) -> Result<Option<Octets>, NoMemory> {
        let client = &mut self.client;
        if !client.is_bound() || client.is_calling() || !client.takes(op, message)? {
            return Ok(None);
        }
        match client.call(op, message) {
            Ok(octets) => Ok(Some(octets)),
            Err(EncodeFault::TooLong) => Ok(None),
            Err(EncodeFault::Memory) => Err(NoMemory),
        }
    }

    // The same with a message that has that stub.
    fn call_of(&mut self, alloc: Global, op: u16, stub: &[u8]) -> Result<Option<Octets>, NoMemory> {
        let (table, way, order) = (self.client.table(), Way::Request, Order::Little);
        if op >= table.op_count() {
            return Ok(None);
        }
        match decode(alloc, table, op, way, order, None, stub) {
            Ok(message) => self.call(op, &message),
            Err(_) => Ok(None),
        }
    }

    fn bind(&mut self, group: u32) -> Result<Option<Octets>, NoMemory> {
        if self.client.is_bound() {
            return Ok(None);
        }
        Ok(Some(self.client.bind(group)?))
    }

    fn alter(&mut self, context: u16) -> Result<Option<Octets>, NoMemory> {
        if !self.client.is_bound() || self.client.is_calling() {
            return Ok(None);
        }
        Ok(Some(self.client.alter(context)?))
    }

    fn cancel(&mut self) -> Result<Option<Octets>, NoMemory> {
        if !self.client.is_calling() {
            return Ok(None);
        }
        Ok(Some(self.client.cancel()?))
    }

    // The octets of what is begun, where it may be.
    fn begun(
        &mut self,
        alloc: Global,
        names: &Names,
        word: &str,
        rest: &str,
    ) -> Result<Option<Octets>, NoMemory> {
        match word {
            "bind" => self.bind(read_u32(rest.as_bytes()).unwrap_or(0)),
            "alter" => self.alter(read_u16(rest.as_bytes()).unwrap_or(0)),
            "cancel" => self.cancel(),
            "put" => {
                let count = read_u32(rest.as_bytes()).unwrap_or(0);
                self.call(3, &many(alloc, count)?)
            }
            "call" => {
                let (op, words) = first_word(rest);
                match octets_of(alloc, names, words)? {
                    Some(stub) => {
                        self.call_of(alloc, read_u16(op.as_bytes()).unwrap_or(0), &stub)
                    }
                    None => Ok(None),
                }
            }
            _ => Ok(None),
        }
    }

    // What a PDU tells.
    fn hear(
        &mut self,
        alloc: Global,
        names: &Names,
        words: &str,
        into: &mut Vec<u8>,
    ) -> Result<(), NoMemory> {
        let Some(octets) = octets_of(alloc, names, words)? else {
            return put(b"no octets", into);
        };
        match read_pdu(alloc, &octets) {
            Ok(pdu) => put_told(alloc, self.client.on_pdu(pdu)?, into),
            Err(_) => put(b"no PDU", into),
        }
    }

    fn put_state(&self, into: &mut Vec<u8>) -> Result<(), NoMemory> {
        match (self.client.is_bound(), self.client.is_calling()) {
            (true, true) => put(b"calling", into),
            (true, false) => put(b"bound", into),
            (false, true) => put(b"calling, not bound", into),
            (false, false) => put(b"not bound", into),
        }
    }

    fn put_lost(&mut self, into: &mut Vec<u8>) -> Result<(), NoMemory> {
        let lost: &[u8] = if self.client.lost() {
            b"a call"
        } else {
            b"no call"
        };
        put(lost, into)
    }

    // What is begun: the octets, and of operation 3 how they are cut.
    fn put_begun(
        &mut self,
        alloc: Global,
        names: &Names,
        given: &str,
        wanted: &str,
        come: &mut Vec<u8>,
    ) -> Result<Step, NoMemory> {
        let (word, rest) = first_word(given);
        let Some(octets) = self.begun(alloc, names, word, rest)? else {
            put(b"may not", come)?;
            return Ok(held(wanted, come.as_slice()));
        };
        if word == "put" {
            put_fragments(alloc, octets.as_slice(), come)?;
            return Ok(held(wanted, come.as_slice()));
        }
        put_hex(alloc, octets.as_slice(), come)?;
        match octets_of(alloc, names, wanted)? {
            Some(wanted) => Ok(step_of(wanted.as_slice() == octets.as_slice())),
            None => Ok(Step::Outside),
        }
    }
}

/// Whether what came is what is wanted.
fn held(wanted: &str, come: &[u8]) -> Step {
    step_of(wanted.as_bytes() == come)
}

fn step_of(held: bool) -> Step {
    match held {
        true => Step::Held,
        false => Step::Differs,
    }
}

impl Plays for Caller {
    fn begin(&mut self, alloc: Global, _name: &str) -> Result<(), NoMemory> {
        self.client = new_client(alloc)?;
        Ok(())
    }

    fn step(
        &mut self,
        alloc: Global,
        names: &Names,
        line: &str,
        come: &mut Vec<u8>,
    ) -> Result<Step, NoMemory> {
        let Some((given, wanted)) = line.split_once("->") else {
            return Ok(Step::Outside);
        };
        let (given, wanted) = (given.trim(), wanted.trim());
        let (word, words) = first_word(given);
        match word {
            "hear" => self.hear(alloc, names, words, come)?,
            "is" => self.put_state(come)?,
            "lost" => self.put_lost(come)?,
            _ => return self.put_begun(alloc, names, given, wanted, come),
        }
        Ok(held(wanted, come.as_slice()))
    }

    fn end(
        &mut self,
        _alloc: Global,
        _names: &Names,
        _come: &mut Vec<u8>,
    ) -> Result<Step, NoMemory> {
        Ok(Step::Held)
    }
}
