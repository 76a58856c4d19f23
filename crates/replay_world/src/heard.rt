//! Printed lines, read again.
ghost use Rattle.std.specs.Prelude.{IfOk, OnOk, []};
ghost use Rattle.replay_world.specs.Answered as spec;

use base_words::{cut_at, cut_line, read_hex};
use rpc_base::{NoMemory, Octets};
use std::alloc::Global;

/// The PDU that a printed line tells, without its line feed, where it tells one.
#[tactic(auto, using(crate::proofs::Hearing::tells_none, crate::proofs::Hearing::tells_word))]
fn answer_in(alloc: Global, line: &[u8]) -> Result<Option<Octets>, NoMemory>
    ensures { IfOk result (spec.LineTells line.now) }
{
    match cut_at(b' ', line) {
        None => Ok(None),
        Some((_, word)) => read_hex(alloc, word),
    }
}

/// Adds the PDU of a printed line, where it tells one.
#[tactic(auto, using(crate::proofs::Hearing::adds_none, crate::proofs::Hearing::adds_some))]
fn add_answer(alloc: Global, line: &[u8], into: &mut Vec<Octets>) -> Result<(), NoMemory>
    ensures { OnOk result (spec.AddsLine line.now into.old.items into.new.items) }
{
    match answer_in(alloc, line)? {
        None => Ok(()),
        Some(octets) => {
            into.push(octets)?;
            Ok(())
        }
    }
}

#[tactic(auto, using(crate::proofs::Hearing::text_none, crate::proofs::Hearing::text_on))]
fn add_answers(alloc: Global, text: &[u8], into: &mut Vec<Octets>) -> Result<(), NoMemory>
    ensures { OnOk result (spec.AddsText text.now into.old.items into.new.items) }
{
    match cut_line(text) {
        None => Ok(()),
        Some((line, rest)) => {
            add_answer(alloc, line, into)?;
            add_answers(alloc, rest, into)
        }
    }
}

/// The PDUs that were answered, in order, of a text of lines that a replay printed. It recurses once for each line, so the text
/// is that of one step.
///
/// # Errors
///
/// `NoMemory` where there is no memory for them.
pub fn answered_in(alloc: Global, text: &[u8]) -> Result<Vec<Octets>, NoMemory>
    ensures { IfOk result (λ pdus. spec.AddsText text.now [] pdus.items) }
{
    let mut pdus = Vec::new(alloc);
    add_answers(alloc, text, &mut pdus)?;
    Ok(pdus)
}
