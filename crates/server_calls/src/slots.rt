//! The slots of a request.
ghost use Rattle.std.specs.Prelude.{◌≡◌, ◌+◌, ◌*◌, ◌^◌, ◌++◌, OnOk, IfOk};
ghost use Rattle.conn_histories.specs.Requests as spec;

use handle_model::{Slot, Slots};
use ndr_table::HandleUse;
use rpc_base::{NoMemory, WireHandle};
use std::alloc::Global;

fn kind_in(iface: u16, own: u16) -> u32
    ensures { result ≡ iface * 2 ^ 16 + own }
{
    u32::from(iface) * (1 << 16) + u32::from(own)
}

// One that may be issued. It gets its serial when the call is accepted.
fn opening(iface: u16, handle: &HandleUse) -> Slot
    ensures { result ≡ spec.opening iface handle.now }
{
    Slot::Opens {
        kind: kind_in(iface, handle.kind),
        serial: 0,
    }
}

// One that came in.
fn slot_for(iface: u16, handle: &HandleUse, wire: &WireHandle) -> Slot
    ensures { result ≡ spec.slot_for iface handle.now wire.now }
{
    let kind = kind_in(iface, handle.kind);
    let wire = *wire;
    if handle.outward {
        if wire.is_null() {
            opening(iface, handle)
        } else {
            Slot::Changes { kind, wire }
        }
    } else if handle.serialised {
        Slot::Holds { kind, wire }
    } else {
        Slot::Shares { kind, wire }
    }
}

// Adds a slot for each handle of the operation; those that go in stand in the request, in order.
fn add_slots(
    iface: u16,
    uses: &[HandleUse],
    wires: &[WireHandle],
    into: &mut Slots,
) -> Result<(), NoMemory>
    ensures { OnOk result (into.new ≡ into.old ++ spec.slots_for iface uses.now wires.now) }
{
    let Some((first, others)) = uses.split_first() else {
        return Ok(());
    };
    if !first.inward {
        into.push(opening(iface, first))?;
        return add_slots(iface, others, wires, into);
    }
    match wires.split_first() {
        None => Ok(()),
        Some((wire, behind)) => {
            into.push(slot_for(iface, first, wire))?;
            add_slots(iface, others, behind, into)
        }
    }
}

/// The slots of a call with these handle parameters, whose request has these wire handles. Those that
/// may issue a handle have no serials yet.
///
/// # Errors
///
/// `NoMemory` where there is no memory for them.
pub fn slots_for(
    alloc: Global,
    iface: u16,
    uses: &[HandleUse],
    wires: &[WireHandle],
) -> Result<Slots, NoMemory>
    ensures { IfOk result (λ slots. slots ≡ spec.slots_for iface uses.now wires.now) }
{
    let mut slots = Slots::new(alloc);
    add_slots(iface, uses, wires, &mut slots)?;
    Ok(slots)
}
