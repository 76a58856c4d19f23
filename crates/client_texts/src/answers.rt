//! Lines of outcomes.
ghost use Rattle.std.specs.Prelude.{◌≡◌, ◌++◌, List, OnOk, IfOk, codes, decimal};
ghost use Rattle.ndr_value.specs.Values.{msg};
ghost use Rattle.client_core.specs.States as states;
ghost use Rattle.client_core.specs.States.Outcome.{TDone};
ghost use Rattle.client_texts.specs.Answers as spec;

use crate::{Handles, put_row};
use base_words::{put, put_decimal, put_hex_u32};
use client_core::Told;
use ndr_value::Message;
use rpc_base::{NoMemory, Status};
use std::alloc::Global;

#[tactic(auto, unfolding(crate::specs::Answers::bound_text))]
fn put_bound(alloc: Global, group: u32, into: &mut Vec<u8>) -> Result<(), NoMemory>
    ensures { OnOk result (into.new.items ≡ into.old.items ++ spec.bound_text group) }
{
    put(b" bound ", into)?;
    put_decimal(alloc, u64::from(group), into)
}

#[tactic(auto, unfolding(crate::specs::Answers::refused_text))]
fn put_refused(alloc: Global, reason: u16, into: &mut Vec<u8>) -> Result<(), NoMemory>
    ensures { OnOk result (into.new.items ≡ into.old.items ++ spec.refused_text reason) }
{
    put(b" refused ", into)?;
    put_decimal(alloc, u64::from(reason), into)
}

#[tactic(auto, unfolding(crate::specs::Answers::fault_text))]
fn put_fault(
    alloc: Global,
    status: Status,
    not_run: bool,
    into: &mut Vec<u8>,
) -> Result<(), NoMemory>
    ensures { OnOk result (into.new.items ≡ into.old.items ++ spec.fault_text status.0 not_run) }
{
    put(b" fault ", into)?;
    put_hex_u32(alloc, status.0, into)?;
    if not_run {
        put(b" not-run", into)
    } else {
        put(b" run", into)
    }
}

fn put_done(
    alloc: Global,
    known: &Handles,
    message: &Message,
    into: &mut Vec<u8>,
) -> Result<bool, NoMemory>
    ensures { IfOk result (λ done. spec.Said done known.now (TDone (msg message.now)) into.old.items into.new.items) }
{
    put(b" done ", into)?;
    put_row(alloc, known, message, into)
}

/// Adds what is said of an outcome. False where nothing is.
fn put_said(
    alloc: Global,
    known: &Handles,
    told: &Told,
    into: &mut Vec<u8>,
) -> Result<bool, NoMemory>
    ensures { IfOk result (λ done. spec.Said done known.now (states.told told.now) into.old.items into.new.items) }
{
    match told {
        Told::Bound(group) => put_bound(alloc, *group, into)?,
        Told::NotBound(reason) => put_refused(alloc, *reason, into)?,
        Told::Done(message) => return put_done(alloc, known, message, into),
        Told::Fault { status, not_run } => put_fault(alloc, *status, *not_run, into)?,
        Told::Broken(_) => return Ok(false),
    }
    Ok(true)
}

/// Adds the line of a connection's outcome, where these handles have come. False where it has none: it is a breach of the protocol,
/// or a handle of its message has no place among its wires, or no name; what is added then means nothing.
///
/// # Errors
///
/// `NoMemory` where there is no memory for the line; what is added then means nothing.
#[tactic(auto, using(crate::proofs::Lines::tells))]
pub fn put_answer(
    alloc: Global,
    known: &Handles,
    connection: u32,
    told: &Told,
    into: &mut Vec<u8>,
) -> Result<bool, NoMemory>
    ensures { IfOk result (λ done. spec.WritesLine done known.now connection (states.told told.now) into.old.items into.new.items) }
{
    put_decimal(alloc, u64::from(connection), into)?;
    let done = put_said(alloc, known, told, into)?;
    put(b"\n", into)?;
    Ok(done)
}

/// Adds the line of a connection that is lost with a call out.
///
/// # Errors
///
/// `NoMemory` where there is no memory for the line; what is added then means nothing.
#[tactic(auto, unfolding(crate::specs::Answers::lost_line))]
pub fn put_lost(alloc: Global, connection: u32, into: &mut Vec<u8>) -> Result<(), NoMemory>
    ensures { OnOk result (into.new.items ≡ into.old.items ++ spec.lost_line connection) }
{
    put_decimal(alloc, u64::from(connection), into)?;
    put(b" lost\n", into)
}
