//! The endpoint map: each interface is offered at the server's address.
ghost use Rattle.std.specs.Prelude.{◌≡◌, IfOk, OnOk, true};
ghost use Rattle.epm_manager.specs.Entries.{is_note};
ghost use Rattle.desk_locks.specs.Offers as spec;

use epm_manager::{EpmDesk, MapEntry};
use presentation::ndr;
use rpc_base::{NoMemory, Octets, SyntaxId};
use rpc_outside::Address;
use std::alloc::Global;
use tower_codec::Tower;
use uuid::Uuid;

fn offer_of(alloc: Global, iface: SyntaxId, at: Address) -> MapEntry
    ensures offer { result ≡ spec.offer_of at iface }
    ensures note { is_note result.note ≡ true }
{
    let ip = at.ip;
    let tower = Tower {
        iface,
        transfer: ndr(),
        minor: 0,
        port: at.port,
        ip,
    };
    MapEntry {
        object: Uuid::nil(),
        tower,
        note: Octets::new(alloc),
    }
}

// Registers the interfaces one after another.
fn register(alloc: Global, ids: &[SyntaxId], at: Address, map: &mut EpmDesk) -> Result<(), NoMemory>
    ensures { OnOk result (map.new ≡ spec.with_offers at ids.now map.old) }
{
    match ids.split_first() {
        None => Ok(()),
        Some((first, others)) => match map.register(offer_of(alloc, *first, at)) {
            Ok(()) => register(alloc, others, at, map),
            Err(_) => Err(NoMemory),
        },
    }
}

/// The map in which each of the interfaces is registered at the address.
///
/// # Errors
///
/// `NoMemory` where there is no memory for its entries.
pub fn endpoint_map(alloc: Global, ids: &[SyntaxId], at: Address) -> Result<EpmDesk, NoMemory>
    ensures { IfOk result (λ map. map ≡ spec.with_offers at ids.now spec.no_entries) }
{
    let mut map = EpmDesk::new(alloc);
    register(alloc, ids, at, &mut map)?;
    Ok(map)
}
