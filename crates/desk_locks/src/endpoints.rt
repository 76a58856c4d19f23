//! The endpoint map of a server's interfaces.
ghost use Rattle.std.specs.Prelude.{◌≡◌, true, IfOk, OnOk};
ghost use Rattle.epm_manager.specs.Entries.{is_note};
ghost use Rattle.desk_locks.specs.Offers as spec;

use epm_manager::{EpmDesk, MapEntry};
use presentation::ndr;
use rpc_base::{NoMemory, Octets, SyntaxId};
use rpc_outside::Address;
use std::alloc::Global;
use tower_codec::Tower;
use uuid::Uuid;

fn tower_of(iface: SyntaxId, at: Address) -> Tower
    ensures { result ≡ spec.tower_of at iface }
{
    let ip = at.ip;
    Tower {
        iface,
        transfer: ndr(),
        minor: 0,
        port: at.port,
        ip,
    }
}

fn offer_of(alloc: Global, iface: SyntaxId, at: Address) -> MapEntry
    ensures offer { result ≡ spec.offer_of at iface }
    ensures note { is_note result.note ≡ true }
{
    MapEntry {
        object: Uuid::nil(),
        tower: tower_of(iface, at),
        note: Octets::new(alloc),
    }
}

// Registers the interfaces one after another.
fn register(alloc: Global, ids: &[SyntaxId], at: Address, map: &mut EpmDesk) -> Result<(), NoMemory>
    ensures { OnOk result (map.new ≡ spec.with_offers at ids.now map.old) }
{
    match ids.split_first() {
        None => Ok(()),
        Some((first, others)) => match map.register(offer_of(alloc, *first, at)) {
            Ok(()) => register(alloc, others, at, map),
            Err(_) => Err(NoMemory),
        },
    }
}

/// The map in which each of the interfaces is registered at the address.
pub(crate) fn endpoint_map(
    alloc: Global,
    ids: &[SyntaxId],
    at: Address,
) -> Result<EpmDesk, NoMemory>
    ensures { IfOk result (λ map. map ≡ spec.with_offers at ids.now spec.no_entries) }
{
    let mut map = EpmDesk::new(alloc);
    register(alloc, ids, at, &mut map)?;
    Ok(map)
}
