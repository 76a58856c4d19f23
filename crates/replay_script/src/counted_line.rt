//! The line of a load.
ghost use Rattle.std.specs.Prelude.{◌≡◌, ◌++◌, OnOk};
ghost use Rattle.replay_script.specs.Summary as spec;

use crate::Counts;
use base_words::{put, put_decimal};
use rpc_base::NoMemory;
use std::alloc::Global;

#[tactic(auto, unfolding(crate::specs::Summary::number_text))]
fn put_number(alloc: Global, word: &[u8], number: u64, into: &mut Vec<u8>) -> Result<(), NoMemory>
    ensures { OnOk result (into.new.items ≡ into.old.items ++ spec.number_text word.now number) }
{
    put(word, into)?;
    put_decimal(alloc, number, into)
}

/// Adds the line that tells what a load of so many steps came to, by counts that are shown.
///
/// # Errors
///
/// `NoMemory` where there is no memory for it, or a count stopped.
#[tactic(auto, using(crate::proofs::Counting::told_text))]
pub fn summary(
    alloc: Global,
    steps: u32,
    counts: &Counts,
    into: &mut Vec<u8>,
) -> Result<(), NoMemory>
    ensures { OnOk result (spec.Told steps counts.now into.old.items into.new.items) }
{
    if !counts.is_whole() {
        return Err(NoMemory);
    }
    put_summary(alloc, steps, counts, into)
}

#[tactic(auto, unfolding(crate::specs::Summary::front_text))]
fn put_front(alloc: Global, steps: u32, counts: &Counts, into: &mut Vec<u8>) -> Result<(), NoMemory>
    ensures { OnOk result (into.new.items ≡ into.old.items ++ spec.front_text steps counts.now) }
{
    put_number(alloc, b"steps ", u64::from(steps), into)?;
    put_number(alloc, b" groups ", counts.groups, into)?;
    put_number(alloc, b" accepted ", counts.accepted, into)
}

#[tactic(auto, unfolding(crate::specs::Summary::calls_text))]
fn put_calls(alloc: Global, counts: &Counts, into: &mut Vec<u8>) -> Result<(), NoMemory>
    ensures { OnOk result (into.new.items ≡ into.old.items ++ spec.calls_text counts.now) }
{
    put_number(alloc, b" taken ", counts.taken, into)?;
    put_number(alloc, b" denied ", counts.denied, into)?;
    put_number(alloc, b" cancelled ", counts.cancelled, into)
}

#[tactic(auto, unfolding(crate::specs::Summary::handles_text))]
fn put_handles(alloc: Global, counts: &Counts, into: &mut Vec<u8>) -> Result<(), NoMemory>
    ensures { OnOk result (into.new.items ≡ into.old.items ++ spec.handles_text counts.now) }
{
    put_number(alloc, b" issued ", counts.issued, into)?;
    put_number(alloc, b" closed ", counts.closed, into)?;
    put_number(alloc, b" rundown ", counts.rundown, into)
}

fn put_summary(
    alloc: Global,
    steps: u32,
    counts: &Counts,
    into: &mut Vec<u8>,
) -> Result<(), NoMemory>
    ensures { OnOk result (into.new.items ≡ into.old.items ++ spec.summary_text steps counts.now) }
{
    put_front(alloc, steps, counts, into)?;
    put_calls(alloc, counts, into)?;
    put_handles(alloc, counts, into)?;
    put(b"\n", into)
}
