//! Offers as clients make them, and what they are answered.

use base_words::put;
use cases_base::{CasesFault, Names, Plays, Step, Told, first_word, played};
use pdu_codec::{ContextResult, Element, Elements, Syntaxes};
use presentation::{Contexts, ndr};
use rpc_base::{NoMemory, SyntaxId};
use std::alloc::Global;
use std::str::SplitWhitespace;
use uuid::Uuid;

/// Offers to one connection, for a server without interfaces at first. `server NAME VERSION..`: it has these. `offer CONTEXT
/// NAME VERSION TRANSFER VERSION, .. | ANSWERS`: what the elements of one PDU are answered, one after the other: result, reason,
/// and whether NDR comes with it or zeros do. `find CONTEXT | INTERFACE`: the number of the interface that a context has.
#[derive(Drop)]
struct Offers {
    contexts: Contexts,
}

/// The syntax that the next two words name, with its version.
fn syntax(names: &Names, words: &mut SplitWhitespace<'_>) -> Option<SyntaxId> {
    let octets = names.find(words.next()?.as_bytes())?;
    let id = Uuid::from_u128(u128::from_be_bytes(*octets.first_chunk()?));
    let (major, minor) = words.next()?.split_once('.')?;
    Some(SyntaxId {
        id,
        major: major.parse::<u16>().ok()?,
        minor: minor.parse::<u16>().ok()?,
    })
}

/// What an element offers: its context, an interface and a transfer syntax.
fn offered(names: &Names, text: &str) -> Option<(u16, SyntaxId, SyntaxId)> {
    let mut words = text.split_whitespace();
    let context = words.next()?.parse::<u16>().ok()?;
    let iface = syntax(names, &mut words)?;
    let transfer = syntax(names, &mut words)?;
    Some((context, iface, transfer))
}

/// The elements of a PDU. None where a text is no element.
fn elements_of(alloc: Global, names: &Names, text: &str) -> Result<Option<Elements>, NoMemory> {
    let mut elements = Elements::new(alloc);
    for text in text.split(',') {
        let Some((context, syntax, transfer)) = offered(names, text) else {
            return Ok(None);
        };
        let mut transfers = Syntaxes::new(alloc);
        transfers.push(transfer)?;
        elements.push(Element {
            context,
            syntax,
            transfers,
        })?;
    }
    Ok(Some(elements))
}

/// A result and its reason, and which transfer syntax it names.
fn put_result(alloc: Global, one: &ContextResult, into: &mut Vec<u8>) -> Result<(), NoMemory> {
    let nil = SyntaxId {
        id: Uuid::from_u128(0),
        major: 0,
        minor: 0,
    };
    let transfer = if one.transfer == ndr() {
        "NDR"
    } else if one.transfer == nil {
        "nil"
    } else {
        "other"
    };
    let (result, reason) = (one.result, one.reason);
    let text = format!(in alloc; "{result} {reason} {transfer};")?;
    put(text.as_bytes(), into)
}

impl Offers {
    fn new(alloc: Global) -> Result<Offers, NoMemory> {
        let contexts = Contexts::new(alloc, &[])?;
        Ok(Offers { contexts })
    }

    fn serve(&mut self, alloc: Global, names: &Names, text: &str) -> Result<Step, NoMemory> {
        let mut ids = Vec::new(alloc);
        let mut words = text.split_whitespace();
        for _ in 0..8 {
            if let Some(id) = syntax(names, &mut words) {
                ids.push(id)?;
            }
        }
        if ids.len() > 65_536 {
            return Ok(Step::Outside);
        }
        self.contexts = Contexts::new(alloc, ids.as_slice())?;
        Ok(Step::Held)
    }

    fn ask(
        &mut self,
        alloc: Global,
        names: &Names,
        given: &str,
        come: &mut Vec<u8>,
    ) -> Result<bool, NoMemory> {
        let (verb, text) = first_word(given);
        match verb {
            "find" => {
                let found = text
                    .parse::<u16>()
                    .ok()
                    .and_then(|context| self.contexts.find(context));
                match found {
                    Some(interface) => put(format!(in alloc; "{interface}")?.as_bytes(), come)?,
                    None => put(b"none", come)?,
                }
            }
            "offer" => {
                let Some(elements) = elements_of(alloc, names, text)? else {
                    return Ok(false);
                };
                let results = self.contexts.offer(&elements)?;
                for one in results.as_slice() {
                    put_result(alloc, one, come)?;
                }
            }
            _ => return Ok(false),
        }
        Ok(true)
    }
}

impl Plays for Offers {
    fn begin(&mut self, alloc: Global, _name: &str) -> Result<(), NoMemory> {
        self.contexts = Contexts::new(alloc, &[])?;
        Ok(())
    }

    fn step(
        &mut self,
        alloc: Global,
        names: &Names,
        line: &str,
        come: &mut Vec<u8>,
    ) -> Result<Step, NoMemory> {
        if let Some(text) = line.strip_prefix("server ") {
            return self.serve(alloc, names, text);
        }
        let Some((given, wanted)) = line.split_once('|') else {
            return Ok(Step::Outside);
        };
        if !self.ask(alloc, names, given.trim(), come)? {
            Ok(Step::Outside)
        } else if come.as_slice() == wanted.trim().as_bytes() {
            Ok(Step::Held)
        } else {
            Ok(Step::Differs)
        }
    }

    fn end(
        &mut self,
        _alloc: Global,
        _names: &Names,
        _come: &mut Vec<u8>,
    ) -> Result<Step, NoMemory> {
        Ok(Step::Held)
    }
}

/// What is told of stories of offers.
pub fn contexts(alloc: Global, text: &str) -> Result<Told, CasesFault> {
    let mut offers = Offers::new(alloc)?;
    played(alloc, &mut offers, text)
}
