//! What is looked up of a call, by number.
ghost use Rattle.std.specs.Prelude.{◌≡◌, ℕ, ◌&&◌, ◌||◌, OnOk};
ghost use Rattle.std.specs.List.{list_any, list_all};
ghost use Rattle.handle_model.specs.Bases.{is_number};
ghost use Rattle.journal_audit.specs.Calls.{serials_in};
ghost use Rattle.journal_audit.specs.Numbered as spec;

use crate::numbers::{Numbers, add, has};
use handle_model::{BaseCall, Slot};
use handle_table::HandleTable;
use rpc_base::NoMemory;

/// Whether the call was taken, or its connection is open and it has neither mark.
pub(crate) fn is_fresh(conns: &Numbers, call: &BaseCall) -> bool
    ensures { result ≡ spec.fresh_by conns.now call.now }
{
    call.taken || has(conns, call.asked.conn) && !call.cancelled && !call.orphaned
}

// HANDLES THAT A SLOT NAMES

/// The serial of the base's handle that a slot names.
fn serial_named(handles: &HandleTable, slot: &Slot) -> Option<u32>
    ensures { result ≡ spec.serial_named handles.now.home handles.now.items slot.now }
{
    match slot.named() {
        Some(wire) => handles.find(&wire),
        None => None,
    }
}

fn is_kind(handles: &HandleTable, kind: u32, serial: Option<u32>) -> bool
    ensures { result ≡ spec.is_kind_at handles.now.items kind serial }
{
    match serial {
        Some(serial) => has_kind(kind, handles.look(serial)),
        None => false,
    }
}

fn has_kind(kind: u32, found: Option<(u32, u64)>) -> bool
    ensures { result ≡ spec.has_kind kind found }
{
    match found {
        Some((of, _)) => of == kind,
        None => false,
    }
}

/// Whether a slot names no handle, or one of the base's of its kind.
fn is_known(handles: &HandleTable, slot: &Slot) -> bool
    ensures { result ≡ spec.known_by handles.now.home handles.now.items slot.now }
{
    slot.named().is_none() || is_kind(handles, slot.kind(), serial_named(handles, slot))
}

pub(crate) fn all_known(handles: &HandleTable, slots: &[Slot]) -> bool
    ensures { result ≡ list_all (spec.known_by handles.now.home handles.now.items) slots.now }
{
    slots.iter().all(|slot| is_known(handles, slot))
}

fn is_free_at(used: &Numbers, held: &Numbers, exclusive: bool, serial: Option<u32>) -> bool
    ensures { result ≡ spec.free_at used.now held.now exclusive serial }
{
    match serial {
        Some(serial) => !(has(held, serial) || exclusive && has(used, serial)),
        None => true,
    }
}

/// Whether a slot may be used beside those of the taken calls.
fn is_free(handles: &HandleTable, used: &Numbers, held: &Numbers, slot: &Slot) -> bool
    ensures { result ≡ spec.free_by handles.now.home handles.now.items used.now held.now slot.now }
{
    is_free_at(used, held, slot.is_exclusive(), serial_named(handles, slot))
}

pub(crate) fn all_free(
    handles: &HandleTable,
    used: &Numbers,
    held: &Numbers,
    slots: &[Slot],
) -> bool
    ensures { result ≡ list_all (spec.free_by handles.now.home handles.now.items used.now held.now) slots.now }
{
    slots.iter().all(|slot| is_free(handles, used, held, slot))
}

/// Adds the serials of the handles that the slots name.
fn add_uses(handles: &HandleTable, used: &mut Numbers, slots: &[Slot]) -> Result<(), NoMemory>
    ensures { OnOk result ((h : ℕ) → spec.has used.new h ≡ (list_any (spec.uses_by handles.now.home handles.now.items h) slots.now || spec.has used.old h)) }
{
    match slots.split_first() {
        None => Ok(()),
        Some((slot, later)) => {
            add_uses(handles, used, later)?;
            add_named(used, serial_named(handles, slot))
        }
    }
}

/// Adds those that the call alone may use.
fn add_holds(handles: &HandleTable, held: &mut Numbers, slots: &[Slot]) -> Result<(), NoMemory>
    ensures { OnOk result ((h : ℕ) → spec.has held.new h ≡ (list_any (spec.holds_by handles.now.home handles.now.items h) slots.now || spec.has held.old h)) }
{
    match slots.split_first() {
        None => Ok(()),
        Some((slot, later)) => {
            add_holds(handles, held, later)?;
            if slot.is_exclusive() {
                add_named(held, serial_named(handles, slot))?;
            }
            Ok(())
        }
    }
}

/// The same of a call, where it was taken.
pub(crate) fn add_uses_of(
    handles: &HandleTable,
    used: &mut Numbers,
    call: &BaseCall,
) -> Result<(), NoMemory>
    ensures { OnOk result ((h : ℕ) → spec.has used.new h ≡ (call.now.taken && list_any (spec.uses_by handles.now.home handles.now.items h) call.now.asked.slots || spec.has used.old h)) }
{
    if call.taken {
        add_uses(handles, used, call.asked.slots.as_slice())?;
    }
    Ok(())
}

pub(crate) fn add_holds_of(
    handles: &HandleTable,
    held: &mut Numbers,
    call: &BaseCall,
) -> Result<(), NoMemory>
    ensures { OnOk result ((h : ℕ) → spec.has held.new h ≡ (call.now.taken && list_any (spec.holds_by handles.now.home handles.now.items h) call.now.asked.slots || spec.has held.old h)) }
{
    if call.taken {
        add_holds(handles, held, call.asked.slots.as_slice())?;
    }
    Ok(())
}

fn add_named(numbers: &mut Numbers, serial: Option<u32>) -> Result<(), NoMemory>
    ensures { OnOk result ((h : ℕ) → spec.has numbers.new h ≡ (spec.is_serial h serial || spec.has numbers.old h)) }
{
    match serial {
        Some(serial) => add(numbers, serial),
        None => Ok(()),
    }
}

// SERIALS THAT A CALL MAY ISSUE

/// Whether a serial may be issued yet: it is from 1 to `opens`, of none of the handles, and of none of
/// the calls before.
fn may_open(handles: &HandleTable, opens: u32, serials: &Numbers, serial: u32) -> bool
    ensures { result ≡ spec.opens_by handles.now.items opens serials.now serial }
{
    0 < serial && serial <= opens && handles.look(serial).is_none() && !has(serials, serial)
}

pub(crate) fn all_may_open(
    handles: &HandleTable,
    opens: u32,
    serials: &Numbers,
    slots: &[Slot],
) -> bool
    ensures { result ≡ list_all (spec.opens_by handles.now.items opens serials.now) (serials_in slots.now) }
{
    match slots.split_first() {
        None => true,
        Some((Slot::Opens { serial, .. }, later)) => {
            may_open(handles, opens, serials, *serial)
                && all_may_open(handles, opens, serials, later)
        }
        Some((Slot::Shares { .. } | Slot::Holds { .. } | Slot::Changes { .. }, later)) => {
            all_may_open(handles, opens, serials, later)
        }
    }
}

/// Adds the serials that the slots may issue.
pub(crate) fn add_serials(serials: &mut Numbers, slots: &[Slot]) -> Result<(), NoMemory>
    ensures { OnOk result ((n : ℕ) → spec.has serials.new n ≡ (list_any (is_number n) (serials_in slots.now) || spec.has serials.old n)) }
{
    match slots.split_first() {
        None => Ok(()),
        Some((Slot::Opens { serial, .. }, later)) => {
            add_serials(serials, later)?;
            add(serials, *serial)
        }
        Some((Slot::Shares { .. } | Slot::Holds { .. } | Slot::Changes { .. }, later)) => {
            add_serials(serials, later)
        }
    }
}
