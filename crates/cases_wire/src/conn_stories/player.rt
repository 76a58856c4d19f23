//! Stories of connections. `feed OCTETS` lets octets come, whole to one connection and one by one to another, unless a line
//! `whole` stood before; behind that each line is played on both. `times COUNT OCTETS ; LINE` lets them come so often, and each
//! time the line holds. `bind` is a bind and its answer. `left COUNT OCTETS`: so many octets are left of a stream. `cut APART
//! OCTETS` stands first in its story: then the stream comes, cut in each way at places so far apart, and the lines behind are
//! its acts and answers.
//!
//! Lines of acts: `group ID`, `answer OCTETS`, `call ID INTERFACE CONTEXT OP ORDER FLAGS STUB`, `long ID SIZE`, `cancel ID`,
//! `orphan ID`, `close CAUSE OCTETS`, and `none`. `held` and `open`: what stands in front must wait, or needn't. Lines that
//! answer: `bound GROUP OCTETS`, `nak REASON OCTETS`, `fault STATUS OCTETS`, `ran STATUS OCTETS`, `out STUB as OCTETS`, `drop`.

use crate::conn_stories::cuts::Cut;
use crate::conn_stories::lines::holds;
use base_words::put;
use cases_base::{Names, Plays, Step, first_word, octets_of};
use conn_core::Conn;
use rpc_base::{NoMemory, SyntaxId};
use std::alloc::Global;
use uuid::Uuid;

/// The probe, interface 0, and the store, interface 1.
pub fn interfaces() -> [SyntaxId; 2] {
    let probe = SyntaxId {
        id: Uuid::from_u128(0x5f0c_7a12_3b4d_4e6f_8a90_b1c2_d3e4_f506),
        major: 1,
        minor: 0,
    };
    let store = SyntaxId {
        id: Uuid::from_u128(0x9b1d_3c7e_52f4_4a0b_8e6d_1f0c_2a3b_4d5e),
        major: 1,
        minor: 0,
    };
    [probe, store]
}

/// A server of the probe and the store.
pub fn server(alloc: Global) -> Result<Conn, NoMemory> {
    Conn::new(alloc, &interfaces())
}

/// The connections of a story.
#[derive(Drop)]
pub struct Conns {
    /// To this one octets come as they are fed.
    whole: Conn,
    /// To this one they come one by one.
    singly: Option<Conn>,
    cut: Option<Cut>,
}

pub fn step_of(holds: bool) -> Step {
    if holds { Step::Held } else { Step::Differs }
}

/// Octets come one by one. Whether there is no act before the last of them.
fn come_singly(conn: &mut Conn, octets: &[u8]) -> Result<bool, NoMemory> {
    let Some((last, others)) = octets.split_last() else {
        return Ok(true);
    };
    for octet in others {
        conn.feed(&[*octet])?;
        if conn.next()?.is_some() {
            return Ok(false);
        }
    }
    conn.feed(&[*last])?;
    Ok(true)
}

/// How many octets are left of a stream.
fn left_of(alloc: Global, octets: &[u8]) -> Result<usize, NoMemory> {
    let mut conn = server(alloc)?;
    conn.feed(octets)?;
    conn.rest()
}

/// A number, and the octets of the words behind it.
fn counted(alloc: Global, names: &Names, text: &str) -> Result<Option<(u32, Vec<u8>)>, NoMemory> {
    let (count, words) = first_word(text);
    let Ok(count) = count.parse::<u32>() else {
        return Ok(None);
    };
    Ok(octets_of(alloc, names, words)?.map(|octets| (count, octets)))
}

impl Conns {
    /// New connections.
    pub fn new(alloc: Global) -> Result<Conns, NoMemory> {
        Ok(Conns {
            whole: server(alloc)?,
            singly: Some(server(alloc)?),
            cut: None,
        })
    }

    fn feed(&mut self, octets: &[u8], come: &mut Vec<u8>) -> Result<Step, NoMemory> {
        self.whole.feed(octets)?;
        let comes = match &mut self.singly {
            Some(singly) => come_singly(singly, octets)?,
            None => true,
        };
        if !comes {
            put(b"an act before the last octet", come)?;
        }
        Ok(step_of(comes))
    }

    /// Plays a line on each connection.
    fn each(
        &mut self,
        alloc: Global,
        names: &Names,
        line: &str,
        come: &mut Vec<u8>,
    ) -> Result<Step, NoMemory> {
        if !holds(alloc, names, &mut self.whole, line, come)? {
            return Ok(Step::Differs);
        }
        match &mut self.singly {
            Some(singly) => Ok(step_of(holds(alloc, names, singly, line, come)?)),
            None => Ok(Step::Held),
        }
    }

    fn times(
        &mut self,
        alloc: Global,
        names: &Names,
        text: &str,
        come: &mut Vec<u8>,
    ) -> Result<Step, NoMemory> {
        let Some((words, line)) = text.split_once(';') else {
            return Ok(Step::Outside);
        };
        let Some((count, octets)) = counted(alloc, names, words)? else {
            return Ok(Step::Outside);
        };
        for _ in 0..count {
            self.whole.feed(octets.as_slice())?;
            if let Some(singly) = &mut self.singly {
                singly.feed(octets.as_slice())?;
            }
            if self.each(alloc, names, line, come)? != Step::Held {
                return Ok(Step::Differs);
            }
        }
        Ok(Step::Held)
    }

    fn left(
        &mut self,
        alloc: Global,
        names: &Names,
        text: &str,
        come: &mut Vec<u8>,
    ) -> Result<Step, NoMemory> {
        let Some((count, octets)) = counted(alloc, names, text)? else {
            return Ok(Step::Outside);
        };
        let left = left_of(alloc, octets.as_slice())?;
        put(format!(in alloc; "{left}")?.as_bytes(), come)?;
        Ok(step_of(left == count as usize))
    }

    fn begin_cut(&mut self, alloc: Global, names: &Names, text: &str) -> Result<Step, NoMemory> {
        let Some((apart, stream)) = counted(alloc, names, text)? else {
            return Ok(Step::Outside);
        };
        self.cut = Some(Cut {
            stream,
            apart,
            lines: Vec::new(alloc),
        });
        Ok(Step::Held)
    }

    /// A bind of call 1 comes, and is accepted in group 1.
    fn bind(&mut self, alloc: Global, names: &Names, come: &mut Vec<u8>) -> Result<Step, NoMemory> {
        for line in ["feed BIND", "group 0", "bound 1 ACK"] {
            if self.line(alloc, names, line, come)? != Step::Held {
                return Ok(Step::Differs);
            }
        }
        Ok(Step::Held)
    }

    fn line(
        &mut self,
        alloc: Global,
        names: &Names,
        line: &str,
        come: &mut Vec<u8>,
    ) -> Result<Step, NoMemory> {
        let (verb, rest) = first_word(line);
        match verb {
            "feed" => match octets_of(alloc, names, rest)? {
                Some(octets) => self.feed(octets.as_slice(), come),
                None => Ok(Step::Outside),
            },
            "times" => self.times(alloc, names, rest, come),
            "left" => self.left(alloc, names, rest, come),
            "cut" => self.begin_cut(alloc, names, rest),
            "whole" => {
                self.singly = None;
                Ok(Step::Held)
            }
            _ => self.each(alloc, names, line, come),
        }
    }
}

impl Plays for Conns {
    fn begin(&mut self, alloc: Global, _name: &str) -> Result<(), NoMemory> {
        *self = Conns::new(alloc)?;
        Ok(())
    }

    fn step(
        &mut self,
        alloc: Global,
        names: &Names,
        line: &str,
        come: &mut Vec<u8>,
    ) -> Result<Step, NoMemory> {
        if let Some(cut) = &mut self.cut {
            cut.lines.push(String::from_str(alloc, line)?)?;
            return Ok(Step::Held);
        }
        match line {
            "bind" => self.bind(alloc, names, come),
            _ => self.line(alloc, names, line, come),
        }
    }

    fn end(&mut self, alloc: Global, names: &Names, come: &mut Vec<u8>) -> Result<Step, NoMemory> {
        match &self.cut {
            Some(cut) => Ok(step_of(cut.agrees(alloc, names, come)?)),
            None => Ok(Step::Held),
        }
    }
}
