//! The lines of a base.
ghost use Rattle.std.specs.Prelude.{◌≡◌, ◌++◌, OnOk};
ghost use Rattle.journal_text.specs.Texts as spec;

use crate::line::put_asked;
use crate::part::{put_head, put_list};
use base_words::{put, put_decimal};
use handle_model::{Base, BaseCall};
use rpc_base::NoMemory;
use std::alloc::Global;

#[tactic(auto, unfolding(crate::specs::Texts::stage_text))]
fn stage_word(taken: bool, cancelled: bool, orphaned: bool) -> &'static [u8]
    ensures { result.now ≡ spec.stage_text (taken, cancelled, orphaned) }
{
    match (taken, cancelled, orphaned) {
        (false, _, _) => b"waiting",
        (true, false, false) => b"taken",
        (true, true, false) => b"taken-cancel",
        (true, false, true) => b"taken-orphan",
        (true, true, true) => b"taken-cancel-orphan",
    }
}

fn put_call_line(alloc: Global, call: &BaseCall, into: &mut Vec<u8>) -> Result<(), NoMemory>
    ensures { OnOk result (into.new.items ≡ into.old.items ++ spec.call_line call.now) }
{
    put_head(alloc, b"base-call", u64::from(call.call), into)?;
    put(b" ", into)?;
    put_asked(alloc, &call.asked, into)?;
    put(b" ", into)?;
    put(stage_word(call.taken, call.cancelled, call.orphaned), into)
}

#[tactic(auto, unfolding(crate::specs::Texts::base_call_text))]
fn put_call(alloc: Global, call: &BaseCall, into: &mut Vec<u8>) -> Result<(), NoMemory>
    ensures { OnOk result (into.new.items ≡ into.old.items ++ spec.base_call_text call.now) }
{
    put_call_line(alloc, call, into)?;
    put(b"\n", into)
}

fn put_calls(alloc: Global, calls: &[BaseCall], into: &mut Vec<u8>) -> Result<(), NoMemory>
    ensures { OnOk result (into.new.items ≡ into.old.items ++ spec.base_calls_text calls.now) }
{
    for call in calls {
        put_call(alloc, call, into)?;
    }
    Ok(())
}

fn put_base_lists(alloc: Global, base: &Base, into: &mut Vec<u8>) -> Result<(), NoMemory>
    ensures { OnOk result (into.new.items ≡ into.old.items ++ spec.base_lists base.now) }
{
    put(b" ", into)?;
    put_list(alloc, base.conns.as_slice(), into)?;
    put(b" ", into)?;
    put_list(alloc, base.handles.as_slice(), into)
}

fn put_base_end(alloc: Global, base: &Base, into: &mut Vec<u8>) -> Result<(), NoMemory>
    ensures { OnOk result (into.new.items ≡ into.old.items ++ spec.base_end base.now) }
{
    put(b" ", into)?;
    put_decimal(alloc, u64::from(base.accepts), into)?;
    put(b" ", into)?;
    put_decimal(alloc, u64::from(base.opens), into)?;
    put_base_lists(alloc, base, into)
}

fn put_base_line(alloc: Global, base: &Base, into: &mut Vec<u8>) -> Result<(), NoMemory>
    ensures { OnOk result (into.new.items ≡ into.old.items ++ spec.base_line base.now) }
{
    put_head(alloc, b"base", base.count, into)?;
    put(b" ", into)?;
    put_decimal(alloc, u64::from(base.joins), into)?;
    put_base_end(alloc, base, into)
}

#[tactic(auto, unfolding(crate::specs::Texts::base_text))]
fn put_base_text(alloc: Global, base: &Base, into: &mut Vec<u8>) -> Result<(), NoMemory>
    ensures { OnOk result (into.new.items ≡ into.old.items ++ spec.base_text base.now) }
{
    put_base_line(alloc, base, into)?;
    put(b"\n", into)
}

/// Adds the lines of a base: none where there were no entries before.
pub(crate) fn put_base(alloc: Global, base: &Base, into: &mut Vec<u8>) -> Result<(), NoMemory>
    ensures { OnOk result (into.new.items ≡ into.old.items ++ spec.base_lines base.now) }
{
    if base.count == 0 {
        return Ok(());
    }
    put_base_text(alloc, base, into)?;
    put_calls(alloc, base.calls.as_slice(), into)
}
