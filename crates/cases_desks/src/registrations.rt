//! Entries that are registered in the endpoint map.
ghost use Rattle.std.specs.Prelude.{◌≡◌, true};
ghost use Rattle.epm_manager.specs.Entries.{is_note};

use epm_manager::{EpmDesk, MapEntry, RegisterRefusal};
use rpc_base::{Octets, SyntaxId};
use std::alloc::Global;
use tower_codec::Tower;
use uuid::Uuid;

fn syntax(number: u16) -> SyntaxId {
    SyntaxId {
        id: Uuid::from_u128(u128::from(number)),
        major: 1,
        minor: 0,
    }
}

// An interface of that number for every object.
fn offered(alloc: Global, number: u16) -> MapEntry
    ensures { is_note result.note ≡ true }
{
    MapEntry {
        object: Uuid::nil(),
        tower: Tower {
            iface: syntax(number),
            transfer: syntax(u16::MAX),
            minor: 0,
            port: 5000,
            ip: [127, 0, 0, 1],
        },
        note: Octets::new(alloc),
    }
}

/// How many interfaces are registered before one is refused, and the refusals of that one and then of the first again.
pub fn registered(
    alloc: Global,
    most: u16,
) -> (u16, Option<RegisterRefusal>, Option<RegisterRefusal>) {
    let mut desk = EpmDesk::new(alloc);
    for number in 0..most {
        if let Err(refusal) = desk.register(offered(alloc, number)) {
            return (
                number,
                Some(refusal),
                desk.register(offered(alloc, 0)).err(),
            );
        }
    }
    (most, None, None)
}
