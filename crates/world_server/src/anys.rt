//! Whether an entry of a kind stands in a journal.
ghost use Rattle.std.specs.Prelude.{◌≡◌, reverse};
ghost use Rattle.std.specs.List.{list_any};
ghost use Rattle.handle_model.specs.Entries as spec;

use handle_model::Entry;

pub fn any_joins(entries: &[Entry], conn: u32) -> bool
    ensures { result ≡ list_any (spec.joins conn) (reverse entries.now) }
{
    entries.iter().rev().any(|entry| entry.joins(conn))
}

pub fn any_leaves(entries: &[Entry], conn: u32) -> bool
    ensures { result ≡ list_any (spec.leaves conn) (reverse entries.now) }
{
    entries.iter().rev().any(|entry| entry.leaves(conn))
}

pub fn any_takes(entries: &[Entry], call: u32) -> bool
    ensures { result ≡ list_any (spec.takes call) (reverse entries.now) }
{
    entries.iter().rev().any(|entry| entry.takes(call))
}

pub fn any_denies(entries: &[Entry], call: u32) -> bool
    ensures { result ≡ list_any (spec.denies call) (reverse entries.now) }
{
    entries.iter().rev().any(|entry| entry.denies(call))
}

pub fn any_cancels(entries: &[Entry], call: u32) -> bool
    ensures { result ≡ list_any (spec.cancels call) (reverse entries.now) }
{
    entries.iter().rev().any(|entry| entry.cancels(call))
}

pub fn any_orphans(entries: &[Entry], call: u32) -> bool
    ensures { result ≡ list_any (spec.orphans call) (reverse entries.now) }
{
    entries.iter().rev().any(|entry| entry.orphans(call))
}
