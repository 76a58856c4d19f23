//! Reading the bodies of PDUs that a client sends, and those that answer a call.
ghost use Rattle.std.specs.Prelude.{◌≡◌};
ghost use Rattle.pdu_codec.specs.Pdus.{has_object};
ghost use Rattle.pdu_codec.specs.Reading.{Gives, syntax_at, object_at, request_at, response_at, fault_at, items_at, element_at, bind_at, alter_at};

use crate::fields::{take_piece, take_syntax, take_u8, take_u16, take_u32, take_uuid};
use crate::{
    AlterBody, BindBody, Element, Elements, FaultBody, PduFault, RequestBody, ResponseBody,
    Syntaxes, flags,
};
use rpc_base::{Octets, Order, Status};
use std::alloc::Global;
use uuid::Uuid;

fn with_object(flags: u8) -> bool
    ensures { result ≡ has_object flags }
{
    flags & flags::OBJECT_UUID != 0
}

#[tactic(auto, unfolding(crate::specs::Reading::object_at))]
fn take_object(order: Order, flags: u8, octets: &[u8]) -> Result<(Option<Uuid>, &[u8]), PduFault>
    ensures { Gives (λ x. (x.0, x.1.now)) result (object_at order flags octets.now) }
{
    if with_object(flags) {
        let (id, rest) = match take_uuid(order, octets) {
            Ok(taken) => taken,
            Err(fault) => return Err(fault),
        };
        Ok((Some(id), rest))
    } else {
        Ok((None, octets))
    }
}

/// The body of a request, from the octets after its header. The octets of the stub are copied
/// once.
///
/// # Errors
///
/// `Body` where the octets end before the last field, and `Memory` where there is no memory for the
/// body.
#[tactic(auto, unfolding(crate::specs::Reading::request_at))]
pub fn read_request(
    alloc: Global,
    order: Order,
    flags: u8,
    octets: &[u8],
) -> Result<RequestBody, PduFault>
    ensures { Gives (λ b. b) result (request_at order flags octets.now) }
{
    let (alloc_hint, rest) = take_u32(order, octets)?;
    let (context, rest) = take_u16(order, rest)?;
    let (op, rest) = take_u16(order, rest)?;
    let (object, rest) = match take_object(order, flags, rest) {
        Ok(taken) => taken,
        Err(fault) => return Err(fault),
    };
    let stub = Octets::from_vec(Vec::from_slice(alloc, rest)?);
    Ok(RequestBody {
        alloc_hint,
        context,
        op,
        object,
        stub,
    })
}

/// The body of a response, from the octets after its header. The octets of the stub are copied
/// once.
///
/// # Errors
///
/// `Body` where the octets end before the last field, and `Memory` where there is no memory for the
/// body.
#[tactic(auto, unfolding(crate::specs::Reading::response_at))]
pub fn read_response(alloc: Global, order: Order, octets: &[u8]) -> Result<ResponseBody, PduFault>
    ensures { Gives (λ b. b) result (response_at order octets.now) }
{
    let (alloc_hint, rest) = take_u32(order, octets)?;
    let (context, rest) = take_u16(order, rest)?;
    let (cancel_count, rest) = take_u8(rest)?;
    let (_reserved, rest) = take_u8(rest)?;
    let stub = Octets::from_vec(Vec::from_slice(alloc, rest)?);
    Ok(ResponseBody {
        alloc_hint,
        context,
        cancel_count,
        stub,
    })
}

/// The body of a fault, from the octets after its header.
///
/// # Errors
///
/// `Body` where the octets end before the last field.
#[tactic(auto, unfolding(crate::specs::Reading::fault_at))]
pub fn read_fault(order: Order, octets: &[u8]) -> Result<FaultBody, PduFault>
    ensures { Gives (λ b. b) result (fault_at order octets.now) }
{
    let (alloc_hint, rest) = take_u32(order, octets)?;
    let (context, rest) = take_u16(order, rest)?;
    let (cancel_count, rest) = take_u8(rest)?;
    let (_reserved, rest) = take_u8(rest)?;
    let (status, rest) = take_u32(order, rest)?;
    let _last = take_piece(4, rest)?;
    Ok(FaultBody {
        alloc_hint,
        context,
        cancel_count,
        status: Status(status),
    })
}

fn take_syntaxes(
    alloc: Global,
    order: Order,
    count: u8,
    octets: &[u8],
) -> Result<(Syntaxes, &[u8]), PduFault>
    ensures { Gives (λ x. (x.0, x.1.now)) result (items_at (syntax_at order) count octets.now) }
{
    let mut syntaxes = Syntaxes::new(alloc);
    let mut rest = octets;
    for _ in 0..count {
        let (syntax, after) = match take_syntax(order, rest) {
            Ok(taken) => taken,
            Err(fault) => return Err(fault),
        };
        syntaxes.push(syntax)?;
        rest = after;
    }
    Ok((syntaxes, rest))
}

#[tactic(auto, unfolding(crate::specs::Reading::element_at))]
fn take_element(alloc: Global, order: Order, octets: &[u8]) -> Result<(Element, &[u8]), PduFault>
    ensures { Gives (λ x. (x.0, x.1.now)) result (element_at order octets.now) }
{
    let (context, rest) = take_u16(order, octets)?;
    let (count, rest) = take_u8(rest)?;
    let (_reserved, rest) = take_u8(rest)?;
    let (syntax, rest) = match take_syntax(order, rest) {
        Ok(taken) => taken,
        Err(fault) => return Err(fault),
    };
    let (transfers, rest) = match take_syntaxes(alloc, order, count, rest) {
        Ok(taken) => taken,
        Err(fault) => return Err(fault),
    };
    Ok((
        Element {
            context,
            syntax,
            transfers,
        },
        rest,
    ))
}

fn take_elements(
    alloc: Global,
    order: Order,
    count: u8,
    octets: &[u8],
) -> Result<(Elements, &[u8]), PduFault>
    ensures { Gives (λ x. (x.0, x.1.now)) result (items_at (element_at order) count octets.now) }
{
    let mut elements = Elements::new(alloc);
    let mut rest = octets;
    for _ in 0..count {
        let (element, after) = match take_element(alloc, order, rest) {
            Ok(taken) => taken,
            Err(fault) => return Err(fault),
        };
        elements.push(element)?;
        rest = after;
    }
    Ok((elements, rest))
}

/// The body of a bind, from the octets after its header.
///
/// # Errors
///
/// `Body` where the octets end before the last field, and `Memory` where there is no memory for the
/// body.
#[tactic(auto, unfolding(crate::specs::Reading::bind_at))]
pub fn read_bind(alloc: Global, order: Order, octets: &[u8]) -> Result<BindBody, PduFault>
    ensures { Gives (λ b. b) result (bind_at order octets.now) }
{
    let (max_xmit, rest) = take_u16(order, octets)?;
    let (max_recv, rest) = take_u16(order, rest)?;
    let (group, rest) = take_u32(order, rest)?;
    let (count, rest) = take_u8(rest)?;
    let (_reserved, rest) = take_piece(3, rest)?;
    let (elements, _rest) = match take_elements(alloc, order, count, rest) {
        Ok(taken) => taken,
        Err(fault) => return Err(fault),
    };
    Ok(BindBody {
        max_xmit,
        max_recv,
        group,
        elements,
    })
}

/// An alter_context has the fields of a bind.
///
/// # Errors
///
/// `Body` where the octets end before the last field, and `Memory` where there is no memory for the
/// body.
#[tactic(auto, unfolding(crate::specs::Reading::alter_at))]
pub fn read_alter(alloc: Global, order: Order, octets: &[u8]) -> Result<AlterBody, PduFault>
    ensures { Gives (λ b. b) result (alter_at order octets.now) }
{
    let body = read_bind(alloc, order, octets)?;
    Ok(AlterBody {
        max_xmit: body.max_xmit,
        max_recv: body.max_recv,
        group: body.group,
        elements: body.elements,
    })
}
