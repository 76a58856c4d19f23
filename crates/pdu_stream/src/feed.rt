//! A stream of octets that comes in pieces.
ghost use Rattle.std.specs.Prelude.{◌≡◌, ◌≤◌, [], ◌++◌, length, drop, None, OnOk, OnErr};
ghost use Rattle.pdu_stream.specs.Cuts.{GivesNext};

use crate::front::front;
use pdu_codec::{Pdu, PduFault};
use rpc_base::NoMemory;
use std::alloc::Global;
use std::marker::Model;

/// The octets of one direction of a connection, as they come, and the PDUs that they spell, one after the
/// other, each with as many octets as its header says (C706, "Connection-oriented RPC PDUs", common fields).
/// Contracts see it as the octets that were pushed and not yet given, and the fault that was answered.
#[derive(Debug, Drop)]
pub struct Feed {
    octets: Vec<u8>,
    start: usize,
    fault: Option<PduFault>,
    alloc: Global,
}

impl Model for Feed {
    ghost use Rattle.std.specs.Prelude.{◌≤◌, length, drop};
    ghost use Rattle.pdu_stream.specs.Cuts.{Fed};

    ghost Value = { Fed };

    ghost view = { λ f. record { rest = drop f.start f.octets.items; fault = f.fault } };

    ghost invariant = { λ f. f.start ≤ length f.octets.items };
}

impl Feed {
    /// Nothing has come. It takes no memory.
    pub fn new(alloc: Global) -> Feed
        ensures { result ≡ record { rest = []; fault = None } }
    {
        Feed {
            octets: Vec::new(alloc),
            start: 0,
            fault: None,
            alloc,
        }
    }

    /// Octets come, which may end anywhere. At `NoMemory` none came.
    ///
    /// # Errors
    ///
    /// `NoMemory` where there is no memory for the octets; none came then.
    pub fn push(&mut self, piece: &[u8]) -> Result<(), NoMemory>
        ensures ok { OnOk result (self.new ≡ record { rest = self.old.rest ++ piece.now; fault = self.old.fault }) }
        ensures err { OnErr result (self.new ≡ self.old) }
    {
        if self.start > self.octets.len() / 2 {
            drop_front(&mut self.octets, self.start);
            self.start = 0;
        }
        self.octets.extend_from_slice(piece)?;
        Ok(())
    }

    /// The next PDU of the octets pushed. `None` where they end within a header, or within a PDU whose header has
    /// no fault. A header's fault is answered as soon as the header came, that of a body once its PDU's octets
    /// did. A fault is answered for good. The octets of a stub are copied once.
    ///
    /// # Errors
    ///
    /// The fault of the header or of the body that comes next, `Memory` among them; the same one is
    /// answered from then on.
    pub fn next(&mut self) -> Result<Option<Pdu>, PduFault>
        ensures { GivesNext self.old result self.new }
    {
        if let Some(fault) = self.fault {
            return Err(fault);
        }
        match front(self.alloc, self.held()) {
            Ok(Some((pdu, size))) => {
                self.start += size;
                Ok(Some(pdu))
            }
            Ok(None) => Ok(None),
            Err(fault) => {
                self.fault = Some(fault);
                Err(fault)
            }
        }
    }

    /// The number of octets pushed and not given.
    pub fn rest(&self) -> usize
        ensures { result ≡ length self.now.rest }
    {
        self.octets.len() - self.start
    }

    /// The octets pushed and not given.
    pub fn held(&self) -> &[u8]
        ensures { result.now ≡ self.now.rest }
    {
        &self.octets[self.start..]
    }
}

/// Drops so many octets from the front.
fn drop_front(octets: &mut Vec<u8>, count: usize)
    requires { count ≤ length octets.old.items }
    ensures { octets.new.items ≡ drop count octets.old.items }
{
    let left = octets.len() - count;
    octets.copy_within(count.., 0);
    octets.truncate(left);
}
