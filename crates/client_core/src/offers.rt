//! The octets of what a caller sends in one PDU.
ghost use Rattle.std.specs.Prelude.{◌≡◌, IfOk};
ghost use Rattle.rpc_base.specs.Fields.{FitsSyntax};
ghost use Rattle.pdu_codec.specs.Pdus.{pdu_octets, IsWritable};
ghost use Rattle.client_core.specs.Octets as spec;

use pdu_codec::{
    AlterBody, BindBody, Body, Element, Elements, MOST_FRAGMENT, Pdu, Syntaxes, flags, write_pdu,
};
use presentation::ndr;
use rpc_base::{NoMemory, Octets, Order, SyntaxId};
use std::alloc::Global;

/// The call id of a bind.
pub const BIND_ID: u32 = 1;

fn sent(call_id: u32, body: Body) -> Pdu
    ensures { result ≡ spec.sent call_id body }
{
    Pdu {
        minor: 0,
        flags: flags::ONLY_FRAG,
        order: Order::Little,
        call_id,
        body,
    }
}

fn written(alloc: Global, pdu: &Pdu) -> Result<Octets, NoMemory>
    requires { IsWritable pdu.now }
    ensures { IfOk result (λ octets. octets ≡ pdu_octets pdu.now) }
{
    let mut octets = Vec::new(alloc);
    write_pdu(pdu, &mut octets)?;
    Ok(Octets::from_vec(octets))
}

/// The offer of one presentation context: the interface over NDR.
fn offer(alloc: Global, syntax: SyntaxId, context: u16) -> Result<Elements, NoMemory>
    ensures { IfOk result (λ elements. elements ≡ spec.offer syntax context) }
{
    let mut transfers = Syntaxes::new(alloc);
    transfers.push(ndr())?;
    let mut elements = Elements::new(alloc);
    elements.push(Element {
        context,
        syntax,
        transfers,
    })?;
    Ok(elements)
}

/// What holds of every identifier.
fn is_syntax(syntax: SyntaxId)
    ensures { FitsSyntax syntax }
{
    let _id = syntax.id.as_bytes();
}

/// The octets of a bind to the group of that id, 0 for a new one, which offers the interface as context 0.
///
/// # Errors
///
/// `NoMemory` where there is no memory for the octets.
#[tactic(auto, using(crate::proofs::Writable::bind_writable))]
pub fn bind(alloc: Global, syntax: SyntaxId, group: u32) -> Result<Octets, NoMemory>
    ensures { IfOk result (λ octets. octets ≡ pdu_octets (spec.bind_pdu syntax group)) }
{
    is_syntax(syntax);
    let body = BindBody {
        max_xmit: MOST_FRAGMENT,
        max_recv: MOST_FRAGMENT,
        group,
        elements: offer(alloc, syntax, 0)?,
    };
    written(alloc, &sent(BIND_ID, Body::Bind(body)))
}

/// The octets of an alter_context, which offers the interface as that context.
///
/// # Errors
///
/// `NoMemory` where there is no memory for the octets.
#[tactic(auto, using(crate::proofs::Writable::alter_writable))]
pub fn alter(
    alloc: Global,
    call_id: u32,
    syntax: SyntaxId,
    context: u16,
) -> Result<Octets, NoMemory>
    ensures { IfOk result (λ octets. octets ≡ pdu_octets (spec.alter_pdu call_id syntax context)) }
{
    is_syntax(syntax);
    let body = AlterBody {
        max_xmit: MOST_FRAGMENT,
        max_recv: MOST_FRAGMENT,
        group: 0,
        elements: offer(alloc, syntax, context)?,
    };
    written(alloc, &sent(call_id, Body::Alter(body)))
}

/// The octets of a co_cancel of the call with that id.
///
/// # Errors
///
/// `NoMemory` where there is no memory for the octets.
#[tactic(auto, using(crate::proofs::Writable::cancel_writable))]
pub fn co_cancel(alloc: Global, call_id: u32) -> Result<Octets, NoMemory>
    ensures { IfOk result (λ octets. octets ≡ pdu_octets (spec.co_cancel call_id)) }
{
    written(alloc, &sent(call_id, Body::CoCancel))
}
