//! Why octets are no PDU.
ghost use Rattle.std.specs.Prelude.{◌≡◌};
ghost use Rattle.pdu_codec.specs.declared.fault.PduFault.TheVariants.{Memory};

use rpc_base::NoMemory;
use std::alloc::{AllocError, AllocFailed};
use thiserror::Error;

/// Why octets are no PDU: the first of these that is so, except that fewer octets than a header's are a
/// `Length` before all else.
#[derive(Clone, Copy, Debug, PartialEq, Eq, Error)]
pub enum PduFault {
    /// The major version is another, or the minor version is above the greatest known.
    #[error("protocol version")]
    Version,
    /// The protocol has no such PTYPE.
    #[error("kind of PDU")]
    Kind,
    /// The PDU's length is below that of a header, or isn't the number of octets.
    #[error("length of the PDU")]
    Length,
    /// There is authentication data.
    #[error("authentication data")]
    Auth,
    /// The data representation isn't known.
    #[error("data representation")]
    Characters,
    /// The octets end before the body's last field.
    #[error("octets end within the body")]
    Body,
    #[error("out of memory")]
    Memory,
}

impl From<NoMemory> for PduFault {
    ghost from_gives = { λ _ e. e ≡ Memory };

    fn from(_: NoMemory) -> Self {
        PduFault::Memory
    }
}

impl From<AllocError> for PduFault {
    ghost from_gives = { λ _ e. e ≡ Memory };

    fn from(_: AllocError) -> Self {
        PduFault::Memory
    }
}

impl<T: Drop> From<AllocFailed<T>> for PduFault {
    ghost from_gives = { λ _ e. e ≡ Memory };

    fn from(_: AllocFailed<T>) -> Self {
        PduFault::Memory
    }
}
