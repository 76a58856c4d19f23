//! The octets of requests.
ghost use Rattle.std.specs.Prelude.{◌≡◌, ◌+◌, ◌≤◌, ◌<◌, ◌++◌, length, IfOk, OnOk};
ghost use Rattle.pdu_codec.specs.Constants.{least_fragment, most_fragment};
ghost use Rattle.pdu_codec.specs.Pdus.{pdu_octets};
ghost use Rattle.pdu_stream.specs.Fragments.{most_stub};
ghost use Rattle.client_core.specs.Octets as spec;

use pdu_codec::{FragmentHead, STUB_OFFSET, flags};
use pdu_stream::piece;
use rpc_base::{NoMemory, Octets, Order};
use std::alloc::Global;

/// What the fragments of a request have in common.
#[derive(Clone, Copy)]
pub struct Request {
    pub call_id: u32,
    /// The operation's number.
    pub op: u16,
    /// Nobody waits for an answer.
    pub maybe: bool,
}

/// The flags of a fragment.
fn flags_of(maybe: bool, first: bool, last: bool) -> u8
    ensures { result ≡ spec.request_flags maybe first last }
{
    let place = match (first, last) {
        (true, true) => flags::ONLY_FRAG,
        (true, false) => flags::FIRST_FRAG,
        (false, true) => flags::LAST_FRAG,
        (false, false) => 0,
    };
    if maybe { flags::MAYBE + place } else { place }
}

impl Request {
    /// Adds a fragment with a piece of the stub, after which there are so many octets. The piece is copied once.
    fn put_fragment(
        self,
        first: bool,
        part: &[u8],
        later: usize,
        into: &mut Vec<u8>,
    ) -> Result<(), NoMemory>
        requires short { length part.now < most_fragment }
        requires hint { length part.now + later ≤ most_stub }
        ensures { OnOk result (into.new.items ≡ into.old.items ++ pdu_octets (spec.request_fragment self.call_id self.op self.maybe first part.now later)) }
    {
        let head = FragmentHead {
            flags: flags_of(self.maybe, first, later == 0),
            order: Order::Little,
            call_id: self.call_id,
            alloc_hint: (part.len() + later) as u32,
            context: 0,
        };
        head.write_request(self.op, part, into)
    }

    /// The octets of the request with the stub, in fragments of at most so many octets.
    ///
    /// # Errors
    ///
    /// `NoMemory` where there is no memory for the octets.
    pub fn octets(self, alloc: Global, most: u16, stub: &[u8]) -> Result<Octets, NoMemory>
        requires most { (least_fragment ≤ most) × (most ≤ most_fragment) }
        requires stub { length stub.now ≤ most_stub }
        ensures { IfOk result (λ octets. spec.IsRequest self.call_id self.op self.maybe most stub.now octets) }
    {
        let fragments = 1 + stub.len() / (most / 2) as usize;
        let mut octets = Vec::with_capacity(alloc, stub.len() + fragments * STUB_OFFSET as usize)?;
        let mut left = stub.len();
        let mut k = 0;
        while let Some((start, size)) = piece(stub.len(), most, STUB_OFFSET, k) {
            let (_, rest) = stub.split_at(start);
            let (part, _) = rest.split_at(size);
            left -= size;
            self.put_fragment(k == 0, part, left, &mut octets)?;
            k += 1;
        }
        Ok(Octets::from_vec(octets))
    }
}
