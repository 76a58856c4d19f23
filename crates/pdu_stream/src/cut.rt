//! The PDUs of a whole stream.
ghost use Rattle.std.specs.Prelude.{◌≡◌, ◌++◌, ℕ, List, None, IfOk};
ghost use Rattle.std.specs.List.{flat_map};
ghost use Rattle.pdu_stream.specs.Cuts.{IsCut, IsCutSoFar, TakesPdus};

use crate::Feed;
use pdu_codec::{Pdu, PduFault};
use rpc_base::{Items, NoMemory, Octets};
use std::alloc::Global;

/// A list of PDUs.
pub type Pdus = Items<Pdu>;

/// A stream of octets, cut.
#[derive(Debug, Drop)]
pub struct Cut {
    /// The PDUs at its front, in order.
    pub pdus: Pdus,
    /// The octets that follow them.
    pub rest: Octets,
    /// The fault with which these begin, where they aren't the beginning of a PDU.
    pub fault: Option<PduFault>,
}

/// The cut of the stream that comes in these pieces: its PDUs, and what follows them, up to the first fault.
/// Which pieces they are doesn't matter.
///
/// # Errors
///
/// `NoMemory` where there is no memory for the octets or for their PDUs.
pub fn cut_stream(alloc: Global, pieces: &[Octets]) -> Result<Cut, NoMemory>
    ensures { IfOk result (IsCut (flat_map (λ piece. piece) pieces.now)) }
{
    let mut feed = Feed::new(alloc);
    let mut pdus = Pdus::new(alloc);
    let mut fault = None;
    for piece in pieces {
        fault = take_piece(&mut feed, &mut pdus, fault, piece.as_slice())?;
    }
    let rest = Octets::from_vec(Vec::from_slice(alloc, feed.held())?);
    Ok(Cut { pdus, rest, fault })
}

/// Moves the PDUs that are whole with one piece more to the end of a list. Answers the fault that follows
/// them, if there is one.
fn take_piece(
    feed: &mut Feed,
    pdus: &mut Pdus,
    fault: Option<PduFault>,
    piece: &[u8],
) -> Result<Option<PduFault>, NoMemory>
    requires { feed.old.fault ≡ fault }
    ensures { (stream : List ℕ) → IsCutSoFar stream pdus.old feed.old fault → IfOk result (IsCutSoFar (stream ++ piece.now) pdus.new feed.new) }
{
    feed.push(piece)?;
    match fault {
        Some(fault) => Ok(Some(fault)),
        None => take_pdus(feed, pdus),
    }
}

/// Moves the PDUs that are whole to the end of a list. Answers the fault that follows them, if there is one.
fn take_pdus(feed: &mut Feed, pdus: &mut Pdus) -> Result<Option<PduFault>, NoMemory>
    requires { feed.old.fault ≡ None }
    ensures { IfOk result (λ fault. TakesPdus feed.old pdus.old fault feed.new pdus.new) }
{
    loop {
        match feed.next() {
            Ok(Some(pdu)) => pdus.push(pdu)?,
            Ok(None) => return Ok(None),
            Err(PduFault::Memory) => return Err(NoMemory),
            Err(fault) => return Ok(Some(fault)),
        }
    }
}
