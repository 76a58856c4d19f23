//! Why octets are no tower.
ghost use Rattle.std.specs.Prelude.{◌≡◌};
ghost use Rattle.tower_codec.specs.declared.fault.TowerFault.TheVariants.{Memory};

use rpc_base::NoMemory;
use thiserror::Error;

/// Why octets are no tower: where they first depart from the encoding.
#[derive(Clone, Copy, Debug, PartialEq, Eq, Error)]
pub enum TowerFault {
    /// The octets end within a field.
    #[error("octets end within the tower")]
    Short,
    /// The count of floors isn't five.
    #[error("number of floors")]
    Floors,
    /// The floor of that number, from 1, has another length or another protocol identifier.
    #[error("protocol of floor {0}")]
    FloorKind(u8),
    /// Octets stand after the last floor.
    #[error("octets behind the tower")]
    Trailing,
    /// There is no memory for the tower. Reading one takes none.
    #[error("out of memory")]
    Memory,
}

impl From<NoMemory> for TowerFault {
    ghost from_gives = { λ _ e. e ≡ Memory };

    fn from(_: NoMemory) -> Self {
        TowerFault::Memory
    }
}
