//! What became of handles, by the whole journal.
ghost use Rattle.std.specs.Prelude.{◌≡◌, ◌&&◌, not, reverse};
ghost use Rattle.std.specs.List.{list_any};
ghost use Rattle.std.specs.Option.{option_copied};
ghost use Rattle.handle_model.specs.Journal as spec;
ghost use Rattle.world_server.specs.Servers.{home, whole};
ghost use Rattle.call_world.specs.Handles.{slots_at};

use handle_model::{Entry, Home, Outcome, Slot};
use rpc_base::WireHandle;

/// The server's boot word and the id of its group.
const HOME: Home = Home { boot: 1, group: 1 };

/// The serial that was given, where that is the handle which the slot names.
fn named_by(given: &Outcome, slot: &Slot) -> Option<u32>
    ensures { result ≡ spec.named_by home slot.now given.now }
{
    match given {
        Outcome::Issue { serial, .. } if slot.names(HOME.wire(*serial)) => Some(*serial),
        _ => None,
    }
}

fn first_named(results: &[Outcome], slot: &Slot) -> Option<u32>
    ensures { result ≡ spec.first_named home slot.now results.now }
{
    match results.split_first() {
        None => None,
        Some((given, others)) => match named_by(given, slot) {
            Some(serial) => Some(serial),
            None => first_named(others, slot),
        },
    }
}

fn serial_in(entry: &Entry, slot: &Slot) -> Option<u32>
    ensures { result ≡ spec.serial_in home entry.now slot.now }
{
    match entry {
        Entry::End { results, .. } => first_named(results.as_slice(), slot),
        _ => None,
    }
}

/// The serial of the handle that the slot names, among those that were issued.
pub fn serial_named(entries: &[Entry], slot: &Slot) -> Option<u32>
    ensures { result ≡ spec.serial_named (whole (reverse entries.now)) slot.now }
{
    let mut rest = entries;
    while let Some((entry, older)) = rest.split_last() {
        match serial_in(entry, slot) {
            Some(serial) => return Some(serial),
            None => rest = older,
        }
    }
    None
}

/// The slots of the call, where the entry is its Accept.
fn slots_at(entry: &Entry, call: u32) -> Option<&[Slot]>
    ensures { option_copied result ≡ slots_at call entry.now }
{
    match entry {
        Entry::Accept { call: k, asked } if *k == call => Some(asked.slots.as_slice()),
        _ => None,
    }
}

fn slots_of(entries: &[Entry], call: u32) -> &[Slot]
    ensures { result.now ≡ spec.slots (whole (reverse entries.now)) call }
{
    let mut rest = entries;
    while let Some((entry, older)) = rest.split_last() {
        match slots_at(entry, call) {
            Some(slots) => return slots,
            None => rest = older,
        }
    }
    &[]
}

/// Whether the results close the handle at a slot that names it.
fn any_closes(slots: &[Slot], results: &[Outcome], handle: WireHandle) -> bool
    ensures { result ≡ spec.any_closes handle slots.now results.now }
{
    match (slots.split_first(), results.split_first()) {
        (Some((slot, slots)), Some((given, results))) => {
            slot.closes(handle, given) || any_closes(slots, results, handle)
        }
        _ => false,
    }
}

fn closes_in(older: &[Entry], entry: &Entry, serial: u32) -> bool
    ensures { result ≡ spec.closes_in (whole (reverse older.now)) entry.now serial }
{
    match entry {
        Entry::End { call, results, .. } => any_closes(
            slots_of(older, *call),
            results.as_slice(),
            HOME.wire(serial),
        ),
        _ => false,
    }
}

fn is_closed(entries: &[Entry], serial: u32) -> bool
    ensures { result ≡ spec.is_closed (whole (reverse entries.now)) serial }
{
    let mut rest = entries;
    while let Some((entry, older)) = rest.split_last() {
        if closes_in(older, entry, serial) {
            return true;
        }
        rest = older;
    }
    false
}

fn any_issues(entries: &[Entry], serial: u32) -> bool
    ensures { result ≡ list_any (spec.issues_in serial) (reverse entries.now) }
{
    entries.iter().rev().any(|entry| entry.issues(serial))
}

/// Whether the handle of that serial is in the Shut.
pub fn is_run_down(entries: &[Entry], serial: u32) -> bool
    ensures { result ≡ list_any (spec.runs_down serial) (reverse entries.now) }
{
    entries.iter().rev().any(|entry| entry.runs_down(serial))
}

fn lives(issued: bool, closed: bool, run_down: bool) -> bool
    ensures { result ≡ (issued && not closed && not run_down) }
{
    issued && !closed && !run_down
}

/// Whether the handle of that serial is live.
pub fn is_live(entries: &[Entry], serial: u32) -> bool
    ensures { result ≡ spec.is_live (whole (reverse entries.now)) serial }
{
    let issued = any_issues(entries, serial);
    let closed = is_closed(entries, serial);
    let run_down = is_run_down(entries, serial);
    lives(issued, closed, run_down)
}
