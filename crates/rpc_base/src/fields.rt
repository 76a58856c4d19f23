//! The fields of PDUs and of stub data, read and written in either order of octets.
ghost use Rattle.std.specs.Prelude.{◌≡◌, ◌≢◌, ◌+◌, ◌/◌, ◌%◌, ◌<◌, ◌≤◌, ◌↔◌, ◌⊎◌, ◌++◌, length, slice_index, take, drop, IsNone, OnOk, OnErr};
ghost use Rattle.std.specs.Int.{w16, w32, w64};
ghost use Rattle.uuid.specs.Parts.{swap_fields};
ghost use Rattle.rpc_base.specs.Fields.{order_of, number_of, u16_octets, u32_octets, u64_octets, uuid_octets, syntax_octets, syntax_of, handle_octets, wire_of};

use crate::{NoMemory, Order, SyntaxId, WireHandle};
use uuid::Uuid;

/// The order of octets that a data representation names (C706, "Transfer Syntax NDR", data
/// representation format label). There is none for characters that aren't ASCII or an integer
/// representation that isn't known. Octets 1 to 3 of the label don't matter.
pub fn drep_order(drep: [u8; 4]) -> Option<Order>
    ensures order { result ≡ order_of (slice_index drep 0) }
    ensures none { IsNone result ↔ ((slice_index drep 0 % 16 ≢ 0) ⊎ (1 < slice_index drep 0 / 16)) }
{
    match (drep[0] % 16, drep[0] / 16) {
        (0, 0) => Some(Order::Big),
        (0, 1) => Some(Order::Little),
        _ => None,
    }
}

/// As many octets from an index on as the array holds.
fn octets_at<const N: usize>(from: &[u8], at: usize) -> [u8; N]
    requires { at + N ≤ length from.now }
    ensures { result ≡ take N (drop at from.now) }
{
    let mut octets = [0; N];
    octets.copy_from_slice(&from[at..at + N]);
    octets
}

/// The number in the two octets from an index on.
#[tactic(auto, unfolding(crate::specs::Fields::number_octets, crate::specs::Fields::number_of))]
pub fn get_u16(order: Order, from: &[u8], at: usize) -> u16
    requires { at + 2 ≤ length from.now }
    ensures number { result ≡ number_of order w16 (take 2 (drop at from.now)) }
    ensures octets { u16_octets order result ≡ take 2 (drop at from.now) }
{
    let octets = octets_at(from, at);
    match order {
        Order::Big => u16::from_be_bytes(octets),
        Order::Little => u16::from_le_bytes(octets),
    }
}

/// The number in the four octets from an index on.
#[tactic(auto, unfolding(crate::specs::Fields::number_octets, crate::specs::Fields::number_of))]
pub fn get_u32(order: Order, from: &[u8], at: usize) -> u32
    requires { at + 4 ≤ length from.now }
    ensures number { result ≡ number_of order w32 (take 4 (drop at from.now)) }
    ensures octets { u32_octets order result ≡ take 4 (drop at from.now) }
{
    let octets = octets_at(from, at);
    match order {
        Order::Big => u32::from_be_bytes(octets),
        Order::Little => u32::from_le_bytes(octets),
    }
}

/// The number in the eight octets from an index on.
#[tactic(auto, unfolding(crate::specs::Fields::number_octets, crate::specs::Fields::number_of))]
pub fn get_u64(order: Order, from: &[u8], at: usize) -> u64
    requires { at + 8 ≤ length from.now }
    ensures number { result ≡ number_of order w64 (take 8 (drop at from.now)) }
    ensures octets { u64_octets order result ≡ take 8 (drop at from.now) }
{
    let octets = octets_at(from, at);
    match order {
        Order::Big => u64::from_be_bytes(octets),
        Order::Little => u64::from_le_bytes(octets),
    }
}

/// The UUID in the 16 octets from an index on. Its first three fields are numbers in the order.
#[tactic(auto, unfolding(crate::specs::Fields::uuid_octets))]
pub fn get_uuid(order: Order, from: &[u8], at: usize) -> Uuid
    requires { at + 16 ≤ length from.now }
    ensures uuid { result ≡ uuid_octets order (take 16 (drop at from.now)) }
    ensures octets { uuid_octets order result ≡ take 16 (drop at from.now) }
{
    let octets = octets_at(from, at);
    match order {
        Order::Big => Uuid::from_bytes(octets),
        Order::Little => Uuid::from_bytes_le(octets),
    }
}

/// The syntax in the 20 octets from an index on: a UUID, and a word with the major version in its
/// low 16 bits and the minor version in its high 16.
pub fn get_syntax(order: Order, from: &[u8], at: usize) -> SyntaxId
    requires { at + 20 ≤ length from.now }
    ensures syntax { result ≡ syntax_of order (take 20 (drop at from.now)) }
    ensures octets { syntax_octets order result ≡ take 20 (drop at from.now) }
{
    let version = get_u32(order, from, at + 16);
    SyntaxId {
        id: get_uuid(order, from, at),
        major: (version % 0x1_0000) as u16,
        minor: (version / 0x1_0000) as u16,
    }
}

/// The context handle in the 20 octets from an index on: its attributes, and its identifier as a UUID.
pub fn get_handle(order: Order, from: &[u8], at: usize) -> WireHandle
    requires { at + 20 ≤ length from.now }
    ensures handle { result ≡ wire_of order (take 20 (drop at from.now)) }
    ensures octets { handle_octets order result ≡ take 20 (drop at from.now) }
{
    WireHandle {
        attributes: get_u32(order, from, at),
        id: get_uuid(order, from, at + 4).as_u128(),
    }
}

#[tactic(auto, unfolding(crate::specs::Fields::number_octets))]
fn u32_array(order: Order, value: u32) -> [u8; 4]
    ensures { result ≡ u32_octets order value }
{
    match order {
        Order::Big => value.to_be_bytes(),
        Order::Little => value.to_le_bytes(),
    }
}

#[tactic(auto, unfolding(crate::specs::Fields::uuid_octets))]
fn uuid_array(order: Order, id: Uuid) -> [u8; 16]
    ensures { result ≡ uuid_octets order id }
{
    match order {
        Order::Big => id.into_bytes(),
        Order::Little => id.to_bytes_le(),
    }
}

/// Adds two pieces at the end, both or none.
fn put_both(first: &[u8], second: &[u8], into: &mut Vec<u8>) -> Result<(), NoMemory>
    ensures ok { OnOk result (into.new.items ≡ into.old.items ++ (first.now ++ second.now)) }
    ensures err { OnErr result (into.new.items ≡ into.old.items) }
{
    let start = into.len();
    into.extend_from_slice(first)?;
    if into.extend_from_slice(second).is_err() {
        into.truncate(start);
        return Err(NoMemory);
    }
    Ok(())
}

/// Adds the two octets of a number at the end.
///
/// # Errors
///
/// `NoMemory` where there is no memory for the octets; nothing is added then.
#[tactic(auto, unfolding(crate::specs::Fields::number_octets))]
pub fn put_u16(order: Order, value: u16, into: &mut Vec<u8>) -> Result<(), NoMemory>
    ensures ok { OnOk result (into.new.items ≡ into.old.items ++ u16_octets order value) }
    ensures err { OnErr result (into.new.items ≡ into.old.items) }
{
    match order {
        Order::Big => into.extend_from_slice(&value.to_be_bytes())?,
        Order::Little => into.extend_from_slice(&value.to_le_bytes())?,
    }
    Ok(())
}

/// Adds the four octets of a number at the end.
///
/// # Errors
///
/// `NoMemory` where there is no memory for the octets; nothing is added then.
pub fn put_u32(order: Order, value: u32, into: &mut Vec<u8>) -> Result<(), NoMemory>
    ensures ok { OnOk result (into.new.items ≡ into.old.items ++ u32_octets order value) }
    ensures err { OnErr result (into.new.items ≡ into.old.items) }
{
    into.extend_from_slice(&u32_array(order, value))?;
    Ok(())
}

/// Adds the eight octets of a number at the end.
///
/// # Errors
///
/// `NoMemory` where there is no memory for the octets; nothing is added then.
#[tactic(auto, unfolding(crate::specs::Fields::number_octets))]
pub fn put_u64(order: Order, value: u64, into: &mut Vec<u8>) -> Result<(), NoMemory>
    ensures ok { OnOk result (into.new.items ≡ into.old.items ++ u64_octets order value) }
    ensures err { OnErr result (into.new.items ≡ into.old.items) }
{
    match order {
        Order::Big => into.extend_from_slice(&value.to_be_bytes())?,
        Order::Little => into.extend_from_slice(&value.to_le_bytes())?,
    }
    Ok(())
}

/// Adds the 16 octets of a UUID at the end. Its first three fields are numbers in the order.
///
/// # Errors
///
/// `NoMemory` where there is no memory for the octets; nothing is added then.
pub fn put_uuid(order: Order, value: &Uuid, into: &mut Vec<u8>) -> Result<(), NoMemory>
    ensures ok { OnOk result (into.new.items ≡ into.old.items ++ uuid_octets order value.now) }
    ensures err { OnErr result (into.new.items ≡ into.old.items) }
{
    into.extend_from_slice(&uuid_array(order, *value))?;
    Ok(())
}

/// Adds the 20 octets of a syntax at the end: its UUID, and a word with the major version in its low
/// 16 bits and the minor version in its high 16.
///
/// # Errors
///
/// `NoMemory` where there is no memory for the octets; nothing is added then.
#[tactic(auto, unfolding(crate::specs::Fields::syntax_octets))]
pub fn put_syntax(order: Order, value: &SyntaxId, into: &mut Vec<u8>) -> Result<(), NoMemory>
    ensures ok { OnOk result (into.new.items ≡ into.old.items ++ syntax_octets order value.now) }
    ensures err { OnErr result (into.new.items ≡ into.old.items) }
{
    let version = value.minor as u32 * 0x1_0000 + value.major as u32;
    put_both(
        &uuid_array(order, value.id),
        &u32_array(order, version),
        into,
    )
}

/// Adds the 20 octets of a context handle at the end: its attributes, and its identifier as a UUID.
///
/// # Errors
///
/// `NoMemory` where there is no memory for the octets; nothing is added then.
pub fn put_handle(order: Order, value: &WireHandle, into: &mut Vec<u8>) -> Result<(), NoMemory>
    ensures ok { OnOk result (into.new.items ≡ into.old.items ++ handle_octets order value.now) }
    ensures err { OnErr result (into.new.items ≡ into.old.items) }
{
    put_both(
        &u32_array(order, value.attributes),
        &uuid_array(order, Uuid::from_u128(value.id)),
        into,
    )
}
