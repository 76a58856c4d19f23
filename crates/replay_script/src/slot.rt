//! A slot, and what rounds make of it.
ghost use Rattle.std.specs.Prelude.{◌≡◌, ◌<◌, Some, [], ◌∷◌};
ghost use Rattle.std.specs.List.{list_any};
ghost use Rattle.replay_script.specs.Rounds as spec;
ghost use Rattle.replay_script.specs.Knowing.{slot_after, empty_slot};

use crate::{Deed, Step};
use pdu_codec::ptypes;
use rpc_base::{Octets, Order, WireHandle, get_handle, get_u32};

/// What a load knows of a slot.
#[derive(Clone, Copy, Debug, PartialEq, Eq)]
pub struct Slot {
    /// The name of its connection, while it has one.
    pub conn: Option<u32>,
    /// The id of the last call on its connection.
    pub call: u32,
    /// The handle that was answered last.
    pub handle: WireHandle,
    /// The group that it got last.
    pub group: Option<u32>,
}

fn is_long(kind: u8, least: usize, pdu: &[u8]) -> bool
    ensures { result ≡ spec.is_long kind least pdu.now }
{
    pdu.len() >= least && pdu.get(2).copied().unwrap_or(255) == kind
}

fn is_ack(pdu: &[u8]) -> bool
    ensures { result ≡ spec.is_ack pdu.now }
{
    is_long(ptypes::BIND_ACK, 24, pdu)
}

fn any_ack(answers: &[Octets]) -> bool
    ensures { result ≡ list_any spec.is_ack answers.now }
{
    match answers.split_first() {
        None => false,
        Some((pdu, more)) => is_ack(pdu.as_slice()) || any_ack(more),
    }
}

fn group_told(pdu: &[u8], before: Option<u32>) -> Option<u32>
    ensures { result ≡ spec.told_last spec.is_ack (λ p. Some (spec.group_in p)) (pdu.now ∷ []) before }
{
    if is_ack(pdu) {
        Some(get_u32(Order::Little, pdu, 20))
    } else {
        before
    }
}

/// The group that a slot got last.
fn group_after(answers: &[Octets], before: Option<u32>) -> Option<u32>
    ensures { result ≡ spec.told_last spec.is_ack (λ p. Some (spec.group_in p)) answers.now before }
{
    match answers.split_first() {
        None => before,
        Some((pdu, more)) => group_after(more, group_told(pdu.as_slice(), before)),
    }
}

fn handle_told(pdu: &[u8], before: WireHandle) -> WireHandle
    ensures { result ≡ spec.told_last spec.is_response spec.handle_in (pdu.now ∷ []) before }
{
    if is_long(ptypes::RESPONSE, 44, pdu) {
        get_handle(Order::Little, pdu, 24)
    } else {
        before
    }
}

/// The handle that was answered last.
fn handle_after(answers: &[Octets], before: WireHandle) -> WireHandle
    ensures { result ≡ spec.told_last spec.is_response spec.handle_in answers.now before }
{
    match answers.split_first() {
        None => before,
        Some((pdu, more)) => handle_after(more, handle_told(pdu.as_slice(), before)),
    }
}

/// The connection behind a deed, whose bind was answered by a bind_ack or not.
fn conn_by(deed: Deed, bound: bool, before: Option<u32>) -> Option<u32>
    ensures { result ≡ spec.conn_by deed bound before }
{
    match deed {
        Deed::Open { name, .. } => { if bound { Some(name) } else { None } }
        Deed::Lose { .. } => None,
        _ => before,
    }
}

/// The last call's id behind a deed.
fn call_by(deed: Deed, before: u32) -> u32
    ensures { before < 100000 → result ≡ spec.call_by deed before }
{
    match deed {
        Deed::Open { .. } => 1,
        Deed::Issue { .. } | Deed::Close { .. } => before.saturating_add(1),
        _ => before,
    }
}

impl Slot {
    /// A slot before its first round.
    pub fn empty() -> Slot
        ensures { result ≡ empty_slot }
    {
        Slot {
            conn: None,
            call: 0,
            handle: WireHandle::NULL,
            group: None,
        }
    }

    /// Behind a round of its own, in which these PDUs were answered.
    pub fn after(self, step: Step, answers: &[Octets]) -> Slot
        ensures { self.call < 100000 → result ≡ slot_after (record { step = step; answers = answers.now }) self }
    {
        Slot {
            conn: conn_by(step.deed, any_ack(answers), self.conn),
            call: call_by(step.deed, self.call),
            handle: handle_after(answers, self.handle),
            group: group_after(answers, self.group),
        }
    }
}
