//! Reads the parts of a line.
ghost use Rattle.std.specs.Prelude.{◌≡◌, ◌++◌, ◌∷◌, [], decimal, IfOk};
ghost use Rattle.base_words.specs.Reads.{Reads};
ghost use Rattle.journal_text.specs.Texts as spec;
ghost use Rattle.journal_reader.specs.Fits.{FitsWire, FitsSlot, FitsOutcome, FitsIssue, FitsCookie, FitsDue, FitsSaid, FitsAlways, FitsCount, FitsStage};
ghost use Rattle.journal_reader.specs.Parts as parts;

use crate::cut::{cut_three, cut_two};
use base_words::{
    cut_at, read_between, read_hex_u32, read_hex_u128, read_octets, read_u32, read_u64,
};
use handle_model::{DueItem, Outcome, Said, Slot};
use rpc_base::{NoMemory, Order, Status, WireHandle};
use std::alloc::Global;

fn due_of(serial: &[u8], kind: &[u8], cookie: &[u8]) -> Option<DueItem>
    ensures { Reads FitsDue parts.due_parts (serial.now ∷ kind.now ∷ cookie.now ∷ []) result }
{
    Some(DueItem {
        serial: read_u32(serial)?,
        kind: read_u32(kind)?,
        cookie: read_u64(cookie)?,
    })
}

/// A handle with its kind and its cookie.
pub(crate) fn read_due(text: &[u8]) -> Option<DueItem>
    ensures { Reads FitsDue spec.due_text text.now result }
{
    let (serial, kind, cookie) = cut_three(b':', text)?;
    due_of(serial, kind, cookie)
}

/// A handle as it travels: 8 digits of attributes and 32 of the identifier.
fn read_wire(text: &[u8]) -> Option<WireHandle>
    ensures { Reads FitsWire spec.wire_text text.now result }
{
    if text.len() < 8 {
        return None;
    }
    let attributes = read_hex_u32(&text[..8])?;
    let id = read_hex_u128(&text[8..])?;
    Some(WireHandle { attributes, id })
}

#[tactic(auto, unfolding(crate::specs::Parts::use_name))]
fn slot_of(name: &[u8], kind: &[u8], object: &[u8]) -> Option<Slot>
    ensures { Reads FitsSlot parts.slot_parts (name.now ∷ kind.now ∷ object.now ∷ []) result }
{
    let kind = read_u32(kind)?;
    if name == b"shares".as_slice() {
        let wire = read_wire(object)?;
        Some(Slot::Shares { kind, wire })
    } else if name == b"holds".as_slice() {
        let wire = read_wire(object)?;
        Some(Slot::Holds { kind, wire })
    } else if name == b"changes".as_slice() {
        let wire = read_wire(object)?;
        Some(Slot::Changes { kind, wire })
    } else if name == b"opens".as_slice() {
        let serial = read_u32(object)?;
        Some(Slot::Opens { kind, serial })
    } else {
        None
    }
}

/// A slot: its use, its kind, and the handle or serial.
pub(crate) fn read_slot(text: &[u8]) -> Option<Slot>
    ensures { Reads FitsSlot spec.slot_text text.now result }
{
    let (name, kind, object) = cut_three(b':', text)?;
    slot_of(name, kind, object)
}

/// The cookie of a slot, or none.
pub(crate) fn read_cookie(text: &[u8]) -> Option<Option<u64>>
    ensures { Reads FitsCookie spec.cookie_text text.now result }
{
    if text == b"none".as_slice() {
        return Some(None);
    }
    let cookie = read_u64(text)?;
    Some(Some(cookie))
}

/// A serial and its cookie.
fn issue_of(serial: &[u8], cookie: &[u8]) -> Option<(u32, u64)>
    ensures { Reads FitsIssue parts.issue_parts (serial.now ∷ cookie.now ∷ []) result }
{
    let serial = read_u32(serial)?;
    let cookie = read_u64(cookie)?;
    Some((serial, cookie))
}

fn read_issue(text: &[u8]) -> Option<(u32, u64)>
    ensures { Reads FitsIssue parts.issue_text text.now result }
{
    let (serial, cookie) = cut_two(b':', text)?;
    issue_of(serial, cookie)
}

fn named_outcome(name: &[u8]) -> Option<Outcome>
    ensures { Reads FitsOutcome parts.outcome_parts (name.now ∷ []) result }
{
    if name == b"close".as_slice() {
        Some(Outcome::Close)
    } else if name == b"none".as_slice() {
        Some(Outcome::Nothing)
    } else {
        None
    }
}

fn numbered_outcome(name: &[u8], rest: &[u8]) -> Option<Outcome>
    ensures { Reads FitsOutcome parts.outcome_parts (name.now ∷ rest.now ∷ []) result }
{
    if name == b"keep".as_slice() {
        let cookie = read_u64(rest)?;
        Some(Outcome::Keep(cookie))
    } else if name == b"issue".as_slice() {
        let (serial, cookie) = read_issue(rest)?;
        Some(Outcome::Issue { serial, cookie })
    } else {
        None
    }
}

/// What the end of a call did at a slot.
pub(crate) fn read_outcome(text: &[u8]) -> Option<Outcome>
    ensures { Reads FitsOutcome spec.outcome_text text.now result }
{
    match cut_at(b':', text) {
        None => named_outcome(text),
        Some((name, rest)) => numbered_outcome(name, rest),
    }
}

fn said_of(alloc: Global, name: &[u8], rest: &[u8]) -> Result<Option<Said>, NoMemory>
    ensures { IfOk result (Reads FitsSaid parts.said_parts (name.now ∷ rest.now ∷ [])) }
{
    if name == b"out".as_slice() {
        Ok(read_octets(alloc, rest)?.map(Said::Out))
    } else if name == b"fault".as_slice() {
        let Some(status) = read_hex_u32(rest) else {
            return Ok(None);
        };
        Ok(Some(Said::Fault(Status(status))))
    } else {
        Ok(None)
    }
}

/// What the end of a call says.
pub(crate) fn read_said(alloc: Global, text: &[u8]) -> Result<Option<Said>, NoMemory>
    ensures { IfOk result (Reads FitsSaid spec.said_text text.now) }
{
    let Some((name, rest)) = cut_two(b':', text) else {
        return Ok(None);
    };
    said_of(alloc, name, rest)
}

#[tactic(auto, unfolding(journal_text::specs::Texts::order_text))]
pub(crate) fn read_order(text: &[u8]) -> Option<Order>
    ensures { Reads FitsAlways spec.order_text text.now result }
{
    if text == b"big".as_slice() {
        Some(Order::Big)
    } else if text == b"little".as_slice() {
        Some(Order::Little)
    } else {
        None
    }
}

/// Whether the caller waits for an answer.
#[tactic(auto, unfolding(journal_text::specs::Texts::reply_text))]
pub(crate) fn read_reply(text: &[u8]) -> Option<bool>
    ensures { Reads FitsAlways spec.reply_text text.now result }
{
    if text == b"answer".as_slice() {
        Some(true)
    } else if text == b"maybe".as_slice() {
        Some(false)
    } else {
        None
    }
}

/// How many entries a base stands for: at least one.
pub(crate) fn read_count(text: &[u8]) -> Option<u64>
    ensures { Reads FitsCount decimal text.now result }
{
    read_between(text, 1, (1 << 63) - 1)
}

/// How far a call of a base has come: whether it was taken, cancelled, orphaned.
pub(crate) type Stage = (bool, bool, bool);

#[tactic(auto, unfolding(journal_text::specs::Texts::stage_text))]
pub(crate) fn read_stage(text: &[u8]) -> Option<Stage>
    ensures { Reads FitsStage spec.stage_text text.now result }
{
    if text == b"waiting".as_slice() {
        Some((false, false, false))
    } else if text == b"taken".as_slice() {
        Some((true, false, false))
    } else if text == b"taken-cancel".as_slice() {
        Some((true, true, false))
    } else if text == b"taken-orphan".as_slice() {
        Some((true, false, true))
    } else if text == b"taken-cancel-orphan".as_slice() {
        Some((true, true, true))
    } else {
        None
    }
}
