//! One stub, and what it is.

use crate::read::{has_plain_text, message_of};
use crate::text::{put_fault, put_message};
use crate::typed::are_typed;
use base_words::put;
use cases_base::{Names, octets_of};
use ndr_codec::{NdrFault, Way, decode, encode, fits, in_range};
use ndr_table::Table;
use ndr_value::Message;
use rpc_base::{NoMemory, Order};
use std::alloc::Global;

/// A line `WAY ORDER OCTETS = TEXT`, with `==` in place of `=` where the octets are the canonical ones.
#[derive(Clone, Copy)]
pub struct Case<'a> {
    way: Way,
    order: Order,
    words: &'a str,
    is_canonical: bool,
    pub wanted: &'a str,
}

fn way_of(word: &str) -> Option<Way> {
    match word {
        "request" => Some(Way::Request),
        "response" => Some(Way::Response),
        _ => None,
    }
}

fn order_of(word: &str) -> Option<Order> {
    match word {
        "little" => Some(Order::Little),
        "big" => Some(Order::Big),
        _ => None,
    }
}

/// The case of a line. None where it has another form.
pub fn case_of(line: &str) -> Option<Case<'_>> {
    let (way, rest) = line.split_once(' ')?;
    let (order, rest) = rest.split_once(' ')?;
    let (words, rest) = rest.split_once(" =")?;
    let (is_canonical, wanted) = match rest.strip_prefix("= ") {
        Some(wanted) => (true, wanted),
        None => (false, rest.strip_prefix(' ')?),
    };
    Some(Case {
        way: way_of(way)?,
        order: order_of(order)?,
        words,
        is_canonical,
        wanted,
    })
}

/// The octets of words; `-` are none. None where they aren't octets.
///
/// # Errors
///
/// `NoMemory` where memory runs out.
pub fn octets_of_words(alloc: Global, words: &str) -> Result<Option<Vec<u8>>, NoMemory> {
    if words == "-" {
        return Ok(Some(Vec::new(alloc)));
    }
    octets_of(alloc, &Names::new(alloc), words)
}

/// The message of the first operation that has a stub.
///
/// # Errors
///
/// What the stub departs by, and `Memory` where memory runs out or the table has no operation.
pub fn decoded(
    alloc: Global,
    table: &Table,
    way: Way,
    order: Order,
    asked: Option<&Message>,
    stub: &[u8],
) -> Result<Message, NdrFault> {
    if table.op_count() == 0 {
        return Err(NdrFault::Memory);
    }
    decode(alloc, table, 0, way, order, asked, stub)
}

/// Whether a message is of the first operation.
///
/// # Errors
///
/// `NoMemory` as `fits` of `ndr_codec` says.
pub fn is_fit(
    alloc: Global,
    table: &Table,
    way: Way,
    asked: Option<&Message>,
    message: &Message,
) -> Result<bool, NoMemory> {
    if table.op_count() == 0 {
        return Ok(false);
    }
    fits(alloc, table, 0, way, asked, message)
}

impl Case<'_> {
    // The octets that a message is written as. None where it isn't written.
    fn written(
        &self,
        alloc: Global,
        table: &Table,
        asked: Option<&Message>,
        message: &Message,
    ) -> Option<Vec<u8>> {
        if table.op_count() == 0 {
            return None;
        }
        let mut octets = Vec::new(alloc);
        encode(table, 0, self.way, self.order, asked, message, &mut octets).ok()?;
        Some(octets)
    }

    // Whether what is read from octets has that text.
    fn is_read_as(
        &self,
        alloc: Global,
        table: &Table,
        asked: Option<&Message>,
        octets: &[u8],
        text: &[u8],
    ) -> Result<bool, NoMemory> {
        let mut again = Vec::new(alloc);
        match decoded(alloc, table, self.way, self.order, asked, octets) {
            Ok(message) => put_message(&message, alloc, &mut again)?,
            Err(fault) => put_fault(fault, alloc, &mut again)?,
        }
        Ok(again.as_slice() == text)
    }

    // Adds what is amiss with the octets that the message of the text is written as.
    fn put_written(
        &self,
        alloc: Global,
        table: &Table,
        asked: Option<&Message>,
        message: &Message,
        stub: &[u8],
        into: &mut Vec<u8>,
    ) -> Result<(), NoMemory> {
        let Some(octets) = self.written(alloc, table, asked, message) else {
            return put(b" not written", into);
        };
        let octets = octets.as_slice();
        if !self.is_read_as(alloc, table, asked, octets, into.as_slice())? {
            put(b" written otherwise", into)?;
        }
        if self.is_canonical && octets != stub {
            put(b" in other octets", into)?;
        }
        if self.is_canonical
            && has_plain_text(self.way, message)
            && !self.is_read(alloc, table, asked, stub)
        {
            put(b" read otherwise", into)?;
        }
        Ok(())
    }

    // Whether the message that the wanted text is read as is written as those octets.
    fn is_read(&self, alloc: Global, table: &Table, asked: Option<&Message>, stub: &[u8]) -> bool {
        match message_of(alloc, table, self.way, self.wanted.as_bytes()) {
            None => false,
            Some(message) => match self.written(alloc, table, asked, &message) {
                None => false,
                Some(octets) => octets.as_slice() == stub,
            },
        }
    }

    // The text of what the stub is.
    fn put_answer(
        &self,
        alloc: Global,
        table: &Table,
        asked: Option<&Message>,
        stub: &[u8],
        into: &mut Vec<u8>,
    ) -> Result<(), NoMemory> {
        let message = match decoded(alloc, table, self.way, self.order, asked, stub) {
            Ok(message) => message,
            Err(fault) => return put_fault(fault, alloc, into),
        };
        put_message(&message, alloc, into)?;
        self.put_written(alloc, table, asked, &message, stub, into)?;
        if !is_fit(alloc, table, self.way, asked, &message)? {
            put(b" of another operation", into)?;
        }
        if table.op_count() != 0 && !in_range(table, 0, self.way, &message) {
            put(b" out of range", into)?;
        }
        if !are_typed(table, self.way, &message) {
            put(b" of other shapes", into)?;
        }
        Ok(())
    }

    /// The text of what the stub is. None where the line has no octets.
    ///
    /// # Errors
    ///
    /// `NoMemory` where memory runs out.
    pub fn answer(
        &self,
        alloc: Global,
        table: &Table,
        asked: Option<&Message>,
    ) -> Result<Option<Vec<u8>>, NoMemory> {
        let Some(stub) = octets_of_words(alloc, self.words)? else {
            return Ok(None);
        };
        let mut answer = Vec::new(alloc);
        self.put_answer(alloc, table, asked, &stub, &mut answer)?;
        Ok(Some(answer))
    }
}
