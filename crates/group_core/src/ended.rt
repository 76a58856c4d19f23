//! Where a call ended.
ghost use Rattle.std.specs.Prelude.{◌≡◌, ◌+◌, length, reverse};
ghost use Rattle.std.specs.Option.{option_map};
ghost use Rattle.handle_model.specs.Bases.{taken_before};
ghost use Rattle.handle_model.specs.Journal as journal;
ghost use Rattle.group_core.specs.Ended as spec;

use handle_model::{Base, Entry};

/// Whether the base has the call as taken.
fn is_taken(base: &Base, call: u32) -> bool
    ensures { result ≡ taken_before base.now call }
{
    let mut calls = base.calls.as_slice().iter();
    calls.any(|c| c.call == call && c.taken)
}

/// Whether the entry is the Take of the call.
fn takes(entry: &Entry, call: u32) -> bool
    ensures { result ≡ journal.takes call entry.now }
{
    match entry {
        Entry::Take { call: k, .. } => *k == call,
        _ => false,
    }
}

/// Whether the entry ends the call, which was taken before or not.
fn ends(entry: &Entry, taken: bool, call: u32) -> bool
    ensures { result ≡ spec.ends_call taken call entry.now }
{
    match entry {
        Entry::Deny { call: k, .. } | Entry::End { call: k, .. } => *k == call,
        Entry::Cancel { call: k } => *k == call && !taken,
        _ => false,
    }
}

/// How many of the entries stand before the first that ends the call, where there is one.
pub(crate) fn entries_before_end(base: &Base, entries: &[Entry], call: u32) -> Option<usize>
    ensures { option_map (λ count. base.now.count + count) result ≡ spec.ended_since base.now (reverse entries.now) call }
{
    let mut taken = is_taken(base, call);
    for (at, entry) in entries.iter().enumerate() {
        if ends(entry, taken, call) {
            return Some(at);
        }
        taken = taken || takes(entry, call);
    }
    None
}
