//! Which calls use a handle: those that run stand before those that wait, and these by their numbers.
ghost use Rattle.std.specs.Prelude.{◌≡◌, ◌↔◌, ℕ, Bool, false, ◌&&◌, ◌||◌, not, IsTrue, OnOk};
ghost use Rattle.rpc_base.specs.declared.identifiers.WireHandle.{WireHandle};
ghost use Rattle.audit_tables.specs.Users as spec;

use handle_model::Slot;
use rpc_base::{NoMemory, WireHandle};
use std::alloc::Global;
use std::collections::BTreeSet;

/// Uses, each with its handle's attributes and identifier, whether its call waits, and the call.
pub(crate) type Users = BTreeSet<(u32, u128, bool, u32)>;

/// No uses.
pub(crate) fn no_users(alloc: Global) -> Users
    ensures { (w : WireHandle) (waits : Bool) (k : ℕ) → spec.has result w waits k ≡ false }
{
    BTreeSet::new(alloc)
}

fn add(users: &mut Users, wire: WireHandle, waits: bool, call: u32) -> Result<(), NoMemory>
    ensures { OnOk result ((w : WireHandle) (b : Bool) (k : ℕ) → spec.has users.new w b k ≡ (spec.is_use wire waits call w b k || spec.has users.old w b k)) }
{
    users.insert((wire.attributes, wire.id, waits, call))?;
    Ok(())
}

fn remove(users: &mut Users, wire: WireHandle, waits: bool, call: u32)
    ensures { (w : WireHandle) (b : Bool) (k : ℕ) → spec.has users.new w b k ≡ (not (spec.is_use wire waits call w b k) && spec.has users.old w b k) }
{
    users.remove(&(wire.attributes, wire.id, waits, call));
}

/// The handle that a slot uses, if it isn't null; where not `any`, only of an exclusive use.
fn used(slot: &Slot, any: bool) -> Option<WireHandle>
    ensures { result ≡ spec.used any slot.now }
{
    match slot.named() {
        Some(wire) if !wire.is_null() && (any || slot.is_exclusive()) => Some(wire),
        _ => None,
    }
}

/// Adds the uses of a call with these slots.
pub(crate) fn add_all(
    users: &mut Users,
    any: bool,
    slots: &[Slot],
    waits: bool,
    call: u32,
) -> Result<(), NoMemory>
    ensures { OnOk result ((w : WireHandle) (b : Bool) (k : ℕ) → spec.has users.new w b k ≡ (spec.uses_as any slots.now waits call w b k || spec.has users.old w b k)) }
{
    match slots.split_first() {
        None => Ok(()),
        Some((slot, later)) => {
            add_all(users, any, later, waits, call)?;
            add_used(users, used(slot, any), waits, call)
        }
    }
}

fn add_used(
    users: &mut Users,
    wire: Option<WireHandle>,
    waits: bool,
    call: u32,
) -> Result<(), NoMemory>
    ensures { OnOk result ((w : WireHandle) (b : Bool) (k : ℕ) → spec.has users.new w b k ≡ (spec.is_use_of wire waits call w b k || spec.has users.old w b k)) }
{
    match wire {
        Some(wire) => add(users, wire, waits, call),
        None => Ok(()),
    }
}

/// Removes the uses of a call with these slots.
pub(crate) fn remove_all(users: &mut Users, any: bool, slots: &[Slot], waits: bool, call: u32)
    ensures { (w : WireHandle) (b : Bool) (k : ℕ) → spec.has users.new w b k ≡ (not (spec.uses_as any slots.now waits call w b k) && spec.has users.old w b k) }
{
    match slots.split_first() {
        None => {}
        Some((slot, later)) => {
            remove_all(users, any, later, waits, call);
            remove_used(users, used(slot, any), waits, call);
        }
    }
}

fn remove_used(users: &mut Users, wire: Option<WireHandle>, waits: bool, call: u32)
    ensures { (w : WireHandle) (b : Bool) (k : ℕ) → spec.has users.new w b k ≡ (not (spec.is_use_of wire waits call w b k) && spec.has users.old w b k) }
{
    match wire {
        Some(wire) => remove(users, wire, waits, call),
        None => {}
    }
}

/// Whether a running call uses the handle, or a waiting one of a lesser number.
pub(crate) fn any_before(users: &Users, wire: WireHandle, call: u32) -> bool
    ensures { IsTrue result ↔ spec.IsUsedBefore users.now wire call }
{
    let first = (wire.attributes, wire.id, false, 0);
    let end = (wire.attributes, wire.id, true, call);
    match users.range(first..end).next() {
        Some(_) => true,
        None => false,
    }
}
