//! Stories of connections on which several calls are unanswered at once. `feed OCTETS` lets octets come. Lines of acts are those
//! of other stories. `bound GROUP OCTETS` answers a bind; `to ID` before a line that answers says which call it answers: `to ID out
//! STUB as OCTETS`, `to ID fault STATUS OCTETS`, `to ID ran STATUS OCTETS`, `to ID drop`. `unanswered COUNT`: so many calls are.

use crate::conn_stories::acts::put_act;
use crate::conn_stories::answers::{answers, fits, said};
use crate::conn_stories::lines::put_wanted;
use crate::conn_stories::player::{interfaces, step_of};
use base_words::{put, put_hex};
use cases_base::{Names, Plays, Step, first_word, octets_of};
use mpx_conn::MpxConn;
use rpc_base::{NoMemory, Octets};
use std::alloc::Global;

/// The connection of a story.
#[derive(Drop)]
pub struct Several {
    conn: MpxConn,
}

/// Answers a call: the octets that are sent then. None where it may not be answered so.
fn answer(
    alloc: Global,
    names: &Names,
    conn: &mut MpxConn,
    call_id: u32,
    line: &str,
) -> Result<Option<Octets>, NoMemory> {
    let (verb, rest) = first_word(line);
    let said = said(alloc, names, verb, rest)?;
    let said = said.as_ref();
    if !conn.is_taking() || !conn.has(call_id) || !fits(said) {
        return Ok(None);
    }
    if !answers(verb) || said.is_none() != (verb == "drop") {
        return Ok(None);
    }
    let executed = verb == "ran" || verb == "out";
    Ok(Some(conn.reply(call_id, said, executed)?))
}

/// Joins the connection to a group: the octets that are sent then. None where it waits for none, or isn't multiplexed.
fn bound(conn: &mut MpxConn, word: &str) -> Result<Option<Octets>, NoMemory> {
    let Ok(group) = word.parse::<u32>() else {
        return Ok(None);
    };
    if !conn.is_grouping() || !conn.is_multiplexed() {
        return Ok(None);
    }
    Ok(Some(conn.bound(group)?))
}

/// Puts what is sent: the verb, the word behind it unless it is octets, and the octets.
fn put_sent(
    alloc: Global,
    line: &str,
    octets: Option<&Octets>,
    into: &mut Vec<u8>,
) -> Result<(), NoMemory> {
    let (verb, rest) = first_word(line);
    let Some(octets) = octets else {
        return put(b"nothing waits for it", into);
    };
    put(verb.as_bytes(), into)?;
    put(b" ", into)?;
    if matches!(verb, "bound" | "fault" | "ran") {
        put(first_word(rest).0.as_bytes(), into)?;
        put(b" ", into)?;
    }
    put_hex(alloc, octets.as_slice(), into)
}

impl Several {
    /// A new connection.
    pub fn new(alloc: Global) -> Result<Several, NoMemory> {
        Ok(Several {
            conn: MpxConn::new(alloc, &interfaces())?,
        })
    }

    /// Puts the next act, or `none`; or what is sent where the line answers.
    fn put_said(
        &mut self,
        alloc: Global,
        names: &Names,
        call_id: Option<u32>,
        line: &str,
        into: &mut Vec<u8>,
    ) -> Result<(), NoMemory> {
        let (verb, rest) = first_word(line);
        if let Some(call_id) = call_id {
            let octets = answer(alloc, names, &mut self.conn, call_id, line)?;
            return put_sent(alloc, line, octets.as_ref(), into);
        }
        if verb == "bound" {
            let octets = bound(&mut self.conn, first_word(rest).0)?;
            return put_sent(alloc, line, octets.as_ref(), into);
        }
        match self.conn.next()? {
            Some(act) => put_act(alloc, &act, into),
            None => put(b"none ", into),
        }
    }

    /// Whether what the line wants comes. Else what came is put.
    fn holds(
        &mut self,
        alloc: Global,
        names: &Names,
        call_id: Option<u32>,
        line: &str,
        come: &mut Vec<u8>,
    ) -> Result<Step, NoMemory> {
        let mut wanted = Vec::new(alloc);
        if !put_wanted(alloc, names, line, &mut wanted)? {
            return Ok(Step::Outside);
        }
        let mut said = Vec::new(alloc);
        self.put_said(alloc, names, call_id, line, &mut said)?;
        if said.as_slice() != wanted.as_slice() {
            put(said.as_slice(), come)?;
            return Ok(Step::Differs);
        }
        Ok(Step::Held)
    }

    fn unanswered(&self, alloc: Global, word: &str, come: &mut Vec<u8>) -> Result<Step, NoMemory> {
        let count = self.conn.unanswered();
        put(format!(in alloc; "{count}")?.as_bytes(), come)?;
        Ok(step_of(word.parse::<usize>() == Ok(count)))
    }
}

impl Plays for Several {
    fn begin(&mut self, alloc: Global, _name: &str) -> Result<(), NoMemory> {
        *self = Several::new(alloc)?;
        Ok(())
    }

    fn step(
        &mut self,
        alloc: Global,
        names: &Names,
        line: &str,
        come: &mut Vec<u8>,
    ) -> Result<Step, NoMemory> {
        let (verb, rest) = first_word(line);
        match verb {
            "feed" => match octets_of(alloc, names, rest)? {
                Some(octets) => {
                    self.conn.feed(octets.as_slice())?;
                    Ok(Step::Held)
                }
                None => Ok(Step::Outside),
            },
            "unanswered" => self.unanswered(alloc, rest, come),
            "to" => {
                let (id, answer) = first_word(rest);
                match id.parse::<u32>() {
                    Ok(id) => self.holds(alloc, names, Some(id), answer, come),
                    Err(_) => Ok(Step::Outside),
                }
            }
            _ => self.holds(alloc, names, None, line, come),
        }
    }

    fn end(
        &mut self,
        _alloc: Global,
        _names: &Names,
        _come: &mut Vec<u8>,
    ) -> Result<Step, NoMemory> {
        Ok(Step::Held)
    }
}
