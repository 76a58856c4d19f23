//! What one offered context is answered.
ghost use Rattle.std.specs.Prelude.{◌≡◌, ◌≤◌, ◌^◌, length};
ghost use Rattle.presentation.specs.Serving as spec_serving;
ghost use Rattle.presentation.specs.Offers as spec;

use crate::verdict::{Accepted, Reason, Verdict};
use pdu_codec::{ContextResult, Element};
use rpc_base::SyntaxId;
use uuid::Uuid;

/// The transfer syntax NDR (C706, "Transfer Syntax NDR").
pub fn ndr() -> SyntaxId
    ensures { result ≡ spec_serving.ndr }
{
    SyntaxId {
        id: Uuid::from_bytes([
            0x8a, 0x88, 0x5d, 0x04, 0x1c, 0xeb, 0x11, 0xc9, 0x9f, 0xe8, 0x08, 0x00, 0x2b, 0x10,
            0x48, 0x60,
        ]),
        major: 2,
        minor: 0,
    }
}

/// The syntax in the answer to a rejected context.
fn no_syntax() -> SyntaxId
    ensures { result ≡ spec_serving.no_syntax }
{
    SyntaxId {
        id: Uuid::from_bytes([0; 16]),
        major: 0,
        minor: 0,
    }
}

/// How many contexts a connection may have.
const MOST_CONTEXTS: usize = 32;

/// The result of an element that is accepted, on the wire.
const ACCEPTANCE: u16 = 0;

/// The result of an element that is rejected by the server, on the wire.
const PROVIDER_REJECTION: u16 = 2;

/// Whether an interface serves one that is asked for.
fn serves(asked: &SyntaxId, served: &SyntaxId) -> bool
    ensures { result ≡ spec_serving.serves asked.now served.now }
{
    served.id == asked.id && served.major == asked.major && asked.minor <= served.minor
}

/// The number of the interface that serves the syntax, the least of those that do.
fn serving(ids: &[SyntaxId], asked: &SyntaxId) -> Option<usize>
    ensures { result ≡ spec_serving.serving ids.now asked.now }
{
    ids.iter().position(|served| serves(asked, served))
}

fn is_ndr(syntax: &SyntaxId) -> bool
    ensures { result ≡ spec_serving.is_ndr syntax.now }
{
    *syntax == ndr()
}

fn has_ndr(transfers: &[SyntaxId]) -> bool
    ensures { result ≡ spec_serving.has_ndr transfers.now }
{
    transfers.iter().any(|syntax| is_ndr(syntax))
}

/// The interface for which the context is accepted.
pub fn interface_of(accepted: &[Accepted], context: u16) -> Option<u16>
    ensures { result ≡ spec.interface_of accepted.now context }
{
    accepted
        .iter()
        .find(|accepted| accepted.context == context)
        .map(|accepted| accepted.interface)
}

fn settle(accepted: &[Accepted], interface: u16, before: Option<u16>) -> Verdict
    ensures { result ≡ spec.verdict_for accepted.now interface before }
{
    match before {
        Some(other) if other != interface => Verdict::Reject(Reason::NotSpecified),
        None if accepted.len() >= MOST_CONTEXTS => Verdict::Reject(Reason::LocalLimit),
        _ => Verdict::Accept(interface),
    }
}

/// What becomes of an element, after the contexts that are accepted.
#[tactic(auto, unfolding(crate::specs::Offers::verdict))]
pub fn verdict(ids: &[SyntaxId], accepted: &[Accepted], element: &Element) -> Verdict
    requires { length ids.now ≤ 2 ^ 16 }
    ensures { result ≡ spec.verdict ids.now accepted.now element.now }
{
    let Some(interface) = serving(ids, &element.syntax) else {
        return Verdict::Reject(Reason::AbstractSyntax);
    };
    if !has_ndr(element.transfers.as_slice()) {
        return Verdict::Reject(Reason::TransferSyntaxes);
    }
    settle(
        accepted,
        interface as u16,
        interface_of(accepted, element.context),
    )
}

/// The number of a reason on the wire.
fn number(reason: Reason) -> u16
    ensures { result ≡ spec.number_of reason }
{
    match reason {
        Reason::NotSpecified => 0,
        Reason::AbstractSyntax => 1,
        Reason::TransferSyntaxes => 2,
        Reason::LocalLimit => 3,
    }
}

/// The answer to an element, as it travels.
pub fn answer(verdict: Verdict) -> ContextResult
    ensures { result ≡ spec.result_of verdict }
{
    match verdict {
        Verdict::Accept(_) => ContextResult {
            result: ACCEPTANCE,
            reason: number(Reason::NotSpecified),
            transfer: ndr(),
        },
        Verdict::Reject(reason) => ContextResult {
            result: PROVIDER_REJECTION,
            reason: number(reason),
            transfer: no_syntax(),
        },
    }
}
