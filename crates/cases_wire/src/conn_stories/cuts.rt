//! Streams that come to the same acts however they are cut: octet by octet, and in two pieces.
ghost use Rattle.std.specs.Prelude.{◌<◌};

use crate::conn_stories::lines::holds;
use crate::conn_stories::player::server;
use base_words::put;
use cases_base::Names;
use conn_core::Conn;
use rpc_base::NoMemory;
use std::alloc::Global;

/// A stream, the lines of its acts and of what answers them, and how far apart the places are where it is cut.
#[derive(Drop)]
pub struct Cut {
    pub stream: Vec<u8>,
    pub apart: u32,
    pub lines: Vec<String>,
}

/// Takes the acts that there are, each with what answers it, and says how many lines hold then; None where what comes isn't
/// what is written, and that is put.
fn take_acts(
    alloc: Global,
    names: &Names,
    conn: &mut Conn,
    lines: &[String],
    before: usize,
    come: &mut Vec<u8>,
) -> Result<Option<usize>, NoMemory> {
    let mut done = before;
    for line in lines.iter().skip(before) {
        let mut said = Vec::new(alloc);
        if holds(alloc, names, conn, line.as_str(), &mut said)? {
            done = done.saturating_add(1);
        } else if said.as_slice() == b"none ".as_slice() {
            return Ok(Some(done));
        } else {
            put(line.as_bytes(), come)?;
            put(b" but ", come)?;
            put(said.as_slice(), come)?;
            return Ok(None);
        }
    }
    if holds(alloc, names, conn, "none", come)? {
        Ok(Some(done))
    } else {
        Ok(None)
    }
}

impl Cut {
    /// Whether a connection comes to the acts where a first piece comes, and then the others in pieces of a size.
    fn hears(
        &self,
        alloc: Global,
        names: &Names,
        first: usize,
        size: usize,
        come: &mut Vec<u8>,
    ) -> Result<bool, NoMemory> {
        let mut conn = server(alloc)?;
        let (front, back) = self
            .stream
            .as_slice()
            .split_at(first.min(self.stream.len()));
        conn.feed(front)?;
        let lines = self.lines.as_slice();
        let Some(mut done) = take_acts(alloc, names, &mut conn, lines, 0, come)? else {
            return Ok(false);
        };
        for piece in back.chunks(size.max(1)) {
            conn.feed(piece)?;
            let Some(further) = take_acts(alloc, names, &mut conn, lines, done, come)? else {
                return Ok(false);
            };
            done = further;
        }
        if done != lines.len() {
            put(b"fewer acts", come)?;
        }
        Ok(done == lines.len())
    }

    /// Whether the stream comes to the acts in two pieces, the first of which leaves it whole, cut at places so far apart.
    fn agrees_in_two(
        &self,
        alloc: Global,
        names: &Names,
        apart: usize,
        come: &mut Vec<u8>,
    ) -> Result<bool, NoMemory>
        requires { 0 < apart }
    {
        for at in (0..=self.stream.len()).step_by(apart) {
            if !self.hears(alloc, names, at, self.stream.len(), come)? {
                return Ok(false);
            }
        }
        Ok(true)
    }

    /// Whether the stream comes to the acts, octet by octet and in two pieces.
    pub fn agrees(
        &self,
        alloc: Global,
        names: &Names,
        come: &mut Vec<u8>,
    ) -> Result<bool, NoMemory> {
        let apart = (self.apart as usize).max(1);
        Ok(self.hears(alloc, names, 0, 1, come)? && self.agrees_in_two(alloc, names, apart, come)?)
    }
}
