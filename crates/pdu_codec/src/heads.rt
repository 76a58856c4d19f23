//! Reading the common header.
ghost use Rattle.std.specs.Prelude.{◌≡◌, ◌≤◌, ◌<◌, ◌^◌, ℕ, length, slice_index, Ok, Some, None, IfOk, IfErr};
ghost use Rattle.std.specs.Bool.{OnTrue, OnFalse};
ghost use Rattle.pdu_codec.specs.Constants.{header_size};
ghost use Rattle.pdu_codec.specs.Faults.{is_known, length_order, frag_length, auth_length, IsRightLength, IsWrongLength, PassesHead, IsHeadFault, head_at, IsHead, raw_head_of};

use crate::ptypes::{ALTER_CONTEXT_RESP, BIND, FAULT, ORPHANED, REQUEST, RESPONSE, SHUTDOWN};
use crate::{HEADER_SIZE, Head, MAJOR_VERSION, MOST_MINOR, PduFault, RawHead};
use rpc_base::{Order, drep_order, get_u16, get_u32};

/// Whether the protocol has the PTYPE.
#[tactic(auto, unfolding(crate::specs::Faults::is_known))]
fn is_kind(kind: u8) -> bool
    ensures { result ≡ is_known kind }
{
    matches!(kind, REQUEST | RESPONSE | FAULT | BIND..=ALTER_CONTEXT_RESP | SHUTDOWN..=ORPHANED)
}

/// The order of a header's lengths, before it is known whether its data representation is.
fn order_of_lengths(drep: u8) -> Order
    ensures { result ≡ length_order drep }
{
    if drep / 16 == 0 {
        Order::Big
    } else {
        Order::Little
    }
}

fn is_length(length: u16, size: Option<usize>) -> bool
    ensures right { OnTrue result (IsRightLength size length) }
    ensures wrong { OnFalse result (IsWrongLength size length) }
{
    let length = length as usize;
    match size {
        None => length >= HEADER_SIZE,
        Some(size) => length >= HEADER_SIZE && length == size,
    }
}

/// What a header says before any of it is tested, its numbers in the order of its lengths.
pub fn raw_head(octets: &[u8]) -> RawHead
    requires { header_size ≤ length octets.now }
    ensures { result ≡ raw_head_of octets.now }
{
    let order = order_of_lengths(octets[4]);
    RawHead {
        kind: octets[2],
        order,
        call_id: get_u32(order, octets, 12),
    }
}

/// The header at the front of octets, given, where all of the PDU's octets are at hand, how many they are.
///
/// # Errors
///
/// The first of `Version`, `Kind`, `Length`, `Auth` and `Characters` whose test the header fails.
pub fn front_head(octets: &[u8], size: Option<usize>) -> Result<Head, PduFault>
    requires { header_size ≤ length octets.now }
    ensures head { IfOk result (λ h. PassesHead size h.order octets.now) }
    ensures fields { IfOk result (λ h. h ≡ head_at h.order octets.now) }
    ensures fault { IfErr result (IsHeadFault size octets.now) }
{
    if octets[0] != MAJOR_VERSION || octets[1] > MOST_MINOR {
        return Err(PduFault::Version);
    }
    if !is_kind(octets[2]) {
        return Err(PduFault::Kind);
    }
    let lengths = order_of_lengths(octets[4]);
    let length = get_u16(lengths, octets, 8);
    if !is_length(length, size) {
        return Err(PduFault::Length);
    }
    if get_u16(lengths, octets, 10) != 0 {
        return Err(PduFault::Auth);
    }
    match drep_order([octets[4], octets[5], octets[6], octets[7]]) {
        None => Err(PduFault::Characters),
        Some(order) => Ok(Head {
            kind: octets[2],
            flags: octets[3],
            order,
            length,
            call_id: get_u32(order, octets, 12),
        }),
    }
}

/// What the octets of a header say.
fn whole_head(octets: &[u8]) -> Result<Head, PduFault>
    requires { length octets.now ≡ header_size }
    ensures head { IfOk result (λ h. IsHead h octets.now) }
    ensures only { (h : Head) → IsHead h octets.now → result ≡ Ok h }
    ensures fault { IfErr result (IsHeadFault None octets.now) }
{
    front_head(octets, None)
}

/// What a PDU's common header says (C706, "Connection-oriented RPC PDUs", common fields). The tests
/// are those of the faults `Version`, `Kind`, `Length`, `Auth` and `Characters`, in this order; the
/// length must be at least a header's. It takes no memory.
///
/// # Errors
///
/// The first of `Version`, `Kind`, `Length`, `Auth` and `Characters` whose test the header fails.
pub fn read_head(octets: [u8; HEADER_SIZE]) -> Result<Head, PduFault>
    // What is read is what the octets say.
    ensures head { IfOk result (λ h. IsHead h octets) }
    // A header is read.
    ensures only { (h : Head) → IsHead h octets → result ≡ Ok h }
    // Which fault it is.
    ensures fault { IfErr result (IsHeadFault None octets) }
{
    whole_head(&octets)
}
