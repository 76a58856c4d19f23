//! The endpoint map of the services.
ghost use Rattle.std.specs.Prelude.{◌≡◌, IfOk, OnOk, true};
ghost use Rattle.epm_manager.specs.Entries.{is_note};
ghost use Rattle.desk_service.specs.Start as spec;

use epm_manager::{EpmDesk, MapEntry};
use presentation::ndr;
use rpc_base::{NoMemory, Octets, SyntaxId};
use std::alloc::Global;
use tower_codec::Tower;
use uuid::Uuid;

// Where the services are offered.
const PORT: u16 = 5000;

fn tower_of(iface: SyntaxId) -> Tower
    ensures { result ≡ spec.tower_of iface }
{
    Tower {
        iface,
        transfer: ndr(),
        minor: 0,
        port: PORT,
        ip: [127, 0, 0, 1],
    }
}

fn offer_of(alloc: Global, iface: SyntaxId) -> MapEntry
    ensures offer { result ≡ spec.offer_of iface }
    ensures note { is_note result.note ≡ true }
{
    MapEntry {
        object: Uuid::nil(),
        tower: tower_of(iface),
        note: Octets::new(alloc),
    }
}

/// Registers an interface.
///
/// # Errors
///
/// `NoMemory` where there is no memory for its entry, or the map is full.
pub fn register(alloc: Global, map: &mut EpmDesk, iface: SyntaxId) -> Result<(), NoMemory>
    ensures { OnOk result (map.new ≡ spec.registering map.old iface) }
{
    match map.register(offer_of(alloc, iface)) {
        Ok(()) => Ok(()),
        Err(_) => Err(NoMemory),
    }
}
