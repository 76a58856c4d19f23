//! The answers of calls.
ghost use Rattle.std.specs.Prelude.{◌≡◌, ◌+◌, ◌≤◌, ◌<◌, ◌++◌, length, IfOk, OnOk};
ghost use Rattle.std.specs.Option.{option_copied};
ghost use Rattle.pdu_codec.specs.Constants.{least_fragment, most_fragment};
ghost use Rattle.pdu_codec.specs.Pdus.{pdu_octets};
ghost use Rattle.pdu_stream.specs.Fragments.{most_stub};
ghost use Rattle.conn_asks.specs.Answers as spec;

use crate::Caller;
use crate::answers::fault;
use handle_model::Said;
use pdu_codec::{FragmentHead, STUB_OFFSET, flags};
use pdu_stream::piece;
use rpc_base::{NoMemory, Octets};
use std::alloc::Global;

/// The flags of a fragment.
fn flags_of(first: bool, last: bool) -> u8
    ensures { result ≡ spec.flags_of first last }
{
    match (first, last) {
        (true, true) => flags::ONLY_FRAG,
        (true, false) => flags::FIRST_FRAG,
        (false, true) => flags::LAST_FRAG,
        (false, false) => 0,
    }
}

/// Adds a fragment with a piece of the stub, behind which there are so many octets. The piece is copied once.
fn put_fragment(
    caller: Caller,
    first: bool,
    part: &[u8],
    later: usize,
    into: &mut Vec<u8>,
) -> Result<(), NoMemory>
    requires short { length part.now < most_fragment }
    requires hint { length part.now + later ≤ most_stub }
    ensures { OnOk result (into.new.items ≡ into.old.items ++ pdu_octets (spec.response_fragment caller first part.now later)) }
{
    let head = FragmentHead {
        flags: flags_of(first, later == 0),
        order: caller.order,
        call_id: caller.call_id,
        alloc_hint: (part.len() + later) as u32,
        context: caller.context,
    };
    head.write_response(part, into)
}

/// The octets of a response with the stub, in fragments of at most so many octets.
fn respond(alloc: Global, caller: Caller, most: u16, stub: &[u8]) -> Result<Octets, NoMemory>
    requires most { (least_fragment ≤ most) × (most ≤ most_fragment) }
    requires stub { length stub.now ≤ most_stub }
    ensures { IfOk result (λ octets. spec.IsResponse caller most stub.now octets) }
{
    let fragments = 1 + stub.len() / (most / 2) as usize;
    let mut octets = Vec::with_capacity(alloc, stub.len() + fragments * STUB_OFFSET as usize)?;
    let mut left = stub.len();
    let mut k = 0;
    while let Some((start, size)) = piece(stub.len(), most, STUB_OFFSET, k) {
        let (_, rest) = stub.split_at(start);
        let (part, _) = rest.split_at(size);
        left -= size;
        put_fragment(caller, k == 0, part, left, &mut octets)?;
        k += 1;
    }
    Ok(Octets::from_vec(octets))
}

/// The octets of a call's answer, in fragments of at most so many octets. There are none where
/// nothing is said, or no answer is wanted.
///
/// # Errors
///
/// `NoMemory` where there is no memory for the octets.
pub fn reply(
    alloc: Global,
    caller: Caller,
    most: u16,
    maybe: bool,
    executed: bool,
    said: Option<&Said>,
) -> Result<Octets, NoMemory>
    requires most { (least_fragment ≤ most) × (most ≤ most_fragment) }
    requires stub { spec.FitsStub (option_copied said) }
    ensures { IfOk result (λ octets. spec.Replies caller most maybe executed (option_copied said.entry) octets) }
{
    if maybe {
        return Ok(Octets::new(alloc));
    }
    match said {
        None => Ok(Octets::new(alloc)),
        Some(Said::Fault(status)) => fault(alloc, caller, executed, *status),
        Some(Said::Out(stub)) => respond(alloc, caller, most, stub.as_slice()),
    }
}
