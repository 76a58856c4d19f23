//! Fields at the front of octets: each call gives a field and the octets after it, and answers
//! `Body` where the octets end within the field.
ghost use Rattle.std.specs.Prelude.{◌≡◌};
ghost use Rattle.pdu_codec.specs.Reading.{Gives, u16_at, u32_at, uuid_at, syntax_at, piece_at, octet_at};

use crate::PduFault;
use rpc_base::{Order, SyntaxId, get_syntax, get_u16, get_u32, get_uuid};
use uuid::Uuid;

/// An octet, and what follows it.
///
/// # Errors
///
/// `Body` where there are fewer octets.
pub fn take_u8(octets: &[u8]) -> Result<(u8, &[u8]), PduFault>
    ensures { Gives (λ x. (x.0, x.1.now)) result (octet_at octets.now) }
{
    match octets {
        [] => Err(PduFault::Body),
        [octet, rest @ ..] => Ok((*octet, rest)),
    }
}

/// A number of two octets, and what follows it.
///
/// # Errors
///
/// `Body` where there are fewer octets.
#[tactic(auto, unfolding(crate::specs::Reading::u16_at))]
pub fn take_u16(order: Order, octets: &[u8]) -> Result<(u16, &[u8]), PduFault>
    ensures { Gives (λ x. (x.0, x.1.now)) result (u16_at order octets.now) }
{
    if octets.len() < 2 {
        return Err(PduFault::Body);
    }
    let (_, rest) = octets.split_at(2);
    Ok((get_u16(order, octets, 0), rest))
}

/// A number of four octets, and what follows it.
///
/// # Errors
///
/// `Body` where there are fewer octets.
#[tactic(auto, unfolding(crate::specs::Reading::u32_at))]
pub fn take_u32(order: Order, octets: &[u8]) -> Result<(u32, &[u8]), PduFault>
    ensures { Gives (λ x. (x.0, x.1.now)) result (u32_at order octets.now) }
{
    if octets.len() < 4 {
        return Err(PduFault::Body);
    }
    let (_, rest) = octets.split_at(4);
    Ok((get_u32(order, octets, 0), rest))
}

/// A UUID of 16 octets, and what follows it.
///
/// # Errors
///
/// `Body` where there are fewer octets.
#[tactic(auto, unfolding(crate::specs::Reading::uuid_at))]
pub fn take_uuid(order: Order, octets: &[u8]) -> Result<(Uuid, &[u8]), PduFault>
    ensures { Gives (λ x. (x.0, x.1.now)) result (uuid_at order octets.now) }
{
    if octets.len() < 16 {
        return Err(PduFault::Body);
    }
    let (_, rest) = octets.split_at(16);
    Ok((get_uuid(order, octets, 0), rest))
}

/// A syntax of 20 octets, and what follows it.
///
/// # Errors
///
/// `Body` where there are fewer octets.
#[tactic(auto, unfolding(crate::specs::Reading::syntax_at))]
pub fn take_syntax(order: Order, octets: &[u8]) -> Result<(SyntaxId, &[u8]), PduFault>
    ensures { Gives (λ x. (x.0, x.1.now)) result (syntax_at order octets.now) }
{
    if octets.len() < 20 {
        return Err(PduFault::Body);
    }
    let (_, rest) = octets.split_at(20);
    Ok((get_syntax(order, octets, 0), rest))
}

/// So many octets.
///
/// # Errors
///
/// `Body` where there are fewer octets.
#[tactic(auto, unfolding(crate::specs::Reading::piece_at))]
pub fn take_piece(size: usize, octets: &[u8]) -> Result<(&[u8], &[u8]), PduFault>
    ensures { Gives (λ x. (x.0.now, x.1.now)) result (piece_at size octets.now) }
{
    if octets.len() < size {
        return Err(PduFault::Body);
    }
    Ok(octets.split_at(size))
}
