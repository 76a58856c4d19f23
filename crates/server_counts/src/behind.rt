//! Where a stream stands behind a header, and within a packet.
ghost use Rattle.std.specs.Prelude.{◌≡◌, ◌≤◌, ◌==◌, ◌&&◌};
ghost use Rattle.pdu_codec.specs.Constants.{request_type, last_frag};
ghost use Rattle.pdu_stream.specs.Fragments.{has_flag};
ghost use Rattle.server_counts.specs.Packets.{IsBehind, IsOpen, Enters};

use crate::{NewPackets, Place};
use pdu_codec::{HEADER_SIZE, Head, flags, ptypes, read_head};

/// No packets.
pub const NONE: NewPackets = NewPackets {
    packets: 0,
    calls: 0,
};

/// Where a stream stands within a packet to which so many octets are missing.
pub fn entered(call: bool, missing: usize) -> (Place, NewPackets)
    ensures few { (result.1.packets ≤ 1) × (result.1.calls ≤ 1) }
    ensures open { IsOpen result.0 }
    ensures enters { Enters call missing result.0 result.1 }
{
    if missing > 0 {
        return (Place::Body(call, missing), NONE);
    }
    let new = NewPackets {
        packets: 1,
        calls: u64::from(call),
    };
    (Place::Head, new)
}

/// Where a stream stands behind a header.
pub fn behind(head: [u8; HEADER_SIZE]) -> (Place, NewPackets)
    ensures few { (result.1.packets ≤ 1) × (result.1.calls ≤ 1) }
    ensures open { IsOpen result.0 }
    ensures behind { IsBehind head result.0 result.1 }
{
    match read_head(head) {
        Ok(head) => entered(ends_call(&head), head.length as usize - HEADER_SIZE),
        Err(_) => (Place::Stopped, NONE),
    }
}

/// Whether a packet with that header ends a call.
fn ends_call(head: &Head) -> bool
    ensures { result ≡ (head.now.kind == request_type && has_flag last_frag head.now.flags) }
{
    head.kind == ptypes::REQUEST && head.flags & flags::LAST_FRAG != 0
}
