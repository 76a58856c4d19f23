//! Reading the bodies of PDUs that answer a bind or an alter_context.
ghost use Rattle.std.specs.Prelude.{◌≡◌};
ghost use Rattle.pdu_codec.specs.Reading.{Gives, items_at, result_at, address_at, bind_ack_at, version_at, bind_nak_at, alter_resp_at};

use crate::fields::{take_piece, take_syntax, take_u8, take_u16, take_u32};
use crate::{
    AlterRespBody, BindAckBody, BindNakBody, ContextResult, PduFault, Results, Version, Versions,
};
use rpc_base::{Octets, Order};
use std::alloc::Global;

#[tactic(auto, unfolding(crate::specs::Reading::result_at))]
fn take_result(order: Order, octets: &[u8]) -> Result<(ContextResult, &[u8]), PduFault>
    ensures { Gives (λ x. (x.0, x.1.now)) result (result_at order octets.now) }
{
    let (result, rest) = take_u16(order, octets)?;
    let (reason, rest) = take_u16(order, rest)?;
    let (transfer, rest) = match take_syntax(order, rest) {
        Ok(taken) => taken,
        Err(fault) => return Err(fault),
    };
    Ok((
        ContextResult {
            result,
            reason,
            transfer,
        },
        rest,
    ))
}

fn take_results(
    alloc: Global,
    order: Order,
    count: u8,
    octets: &[u8],
) -> Result<(Results, &[u8]), PduFault>
    ensures { Gives (λ x. (x.0, x.1.now)) result (items_at (result_at order) count octets.now) }
{
    let mut results = Results::new(alloc);
    let mut rest = octets;
    for _ in 0..count {
        let (answer, after) = match take_result(order, rest) {
            Ok(taken) => taken,
            Err(fault) => return Err(fault),
        };
        results.push(answer)?;
        rest = after;
    }
    Ok((results, rest))
}

/// An address after ten octets of a body, with its length before it and its padding after it.
#[tactic(auto, unfolding(crate::specs::Reading::address_at))]
fn take_address(order: Order, octets: &[u8]) -> Result<(&[u8], &[u8]), PduFault>
    ensures { Gives (λ x. (x.0.now, x.1.now)) result (address_at order octets.now) }
{
    let (size, rest) = take_u16(order, octets)?;
    let (address, rest) = take_piece(size as usize, rest)?;
    let (_padding, rest) = take_piece((4 - (10 + size as usize) % 4) % 4, rest)?;
    Ok((address, rest))
}

/// The body of a bind_ack, from the octets after its header (C706, "Connection-oriented RPC
/// PDUs").
///
/// # Errors
///
/// `Body` where the octets end before the last field, and `Memory` where there is no memory for the
/// body.
#[tactic(auto, unfolding(crate::specs::Reading::bind_ack_at))]
pub fn read_bind_ack(alloc: Global, order: Order, octets: &[u8]) -> Result<BindAckBody, PduFault>
    ensures { Gives (λ b. b) result (bind_ack_at order octets.now) }
{
    let (max_xmit, rest) = take_u16(order, octets)?;
    let (max_recv, rest) = take_u16(order, rest)?;
    let (group, rest) = take_u32(order, rest)?;
    let (address, rest) = take_address(order, rest)?;
    let address = Octets::from_vec(Vec::from_slice(alloc, address)?);
    let (count, rest) = take_u8(rest)?;
    let (_reserved, rest) = take_piece(3, rest)?;
    let (results, _rest) = match take_results(alloc, order, count, rest) {
        Ok(taken) => taken,
        Err(fault) => return Err(fault),
    };
    Ok(BindAckBody {
        max_xmit,
        max_recv,
        group,
        address,
        results,
    })
}

/// An alter_context_resp has the fields of a bind_ack.
///
/// # Errors
///
/// `Body` where the octets end before the last field, and `Memory` where there is no memory for the
/// body.
#[tactic(auto, unfolding(crate::specs::Reading::alter_resp_at))]
pub fn read_alter_resp(
    alloc: Global,
    order: Order,
    octets: &[u8],
) -> Result<AlterRespBody, PduFault>
    ensures { Gives (λ b. b) result (alter_resp_at order octets.now) }
{
    let body = read_bind_ack(alloc, order, octets)?;
    Ok(AlterRespBody {
        max_xmit: body.max_xmit,
        max_recv: body.max_recv,
        group: body.group,
        address: body.address,
        results: body.results,
    })
}

fn take_version(octets: &[u8]) -> Result<(Version, &[u8]), PduFault>
    ensures { Gives (λ x. (x.0, x.1.now)) result (version_at octets.now) }
{
    let (major, rest) = take_u8(octets)?;
    let (minor, rest) = take_u8(rest)?;
    Ok((Version { major, minor }, rest))
}

fn take_versions(alloc: Global, count: u8, octets: &[u8]) -> Result<(Versions, &[u8]), PduFault>
    ensures { Gives (λ x. (x.0, x.1.now)) result (items_at version_at count octets.now) }
{
    let mut versions = Versions::new(alloc);
    let mut rest = octets;
    for _ in 0..count {
        let (version, after) = match take_version(rest) {
            Ok(taken) => taken,
            Err(fault) => return Err(fault),
        };
        versions.push(version)?;
        rest = after;
    }
    Ok((versions, rest))
}

/// The body of a bind_nak, from the octets after its header.
///
/// # Errors
///
/// `Body` where the octets end before the last field, and `Memory` where there is no memory for the
/// body.
#[tactic(auto, unfolding(crate::specs::Reading::bind_nak_at))]
pub fn read_bind_nak(alloc: Global, order: Order, octets: &[u8]) -> Result<BindNakBody, PduFault>
    ensures { Gives (λ b. b) result (bind_nak_at order octets.now) }
{
    let (reason, rest) = take_u16(order, octets)?;
    let (count, rest) = take_u8(rest)?;
    let (versions, _rest) = match take_versions(alloc, count, rest) {
        Ok(taken) => taken,
        Err(fault) => return Err(fault),
    };
    Ok(BindNakBody { reason, versions })
}
