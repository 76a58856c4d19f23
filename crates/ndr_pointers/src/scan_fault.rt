//! Why a stub could not be read.
ghost use Rattle.std.specs.Prelude.{◌≡◌};
ghost use Rattle.ndr_pointers.specs.declared.scan_fault.ReadError.TheVariants.{Memory};

use ndr_model::Departure;
use rpc_base::NoMemory;
use std::alloc::{AllocError, AllocFailed};

/// Why a stub could not be read.
#[derive(Clone, Copy, Debug, PartialEq, Eq)]
pub enum ReadError {
    /// There is no memory for what it holds.
    Memory,
    /// Its first departure.
    Departs(Departure),
}

impl From<NoMemory> for ReadError {
    ghost from_gives = { λ _ e. e ≡ Memory };

    fn from(_: NoMemory) -> Self {
        ReadError::Memory
    }
}

impl From<AllocError> for ReadError {
    ghost from_gives = { λ _ e. e ≡ Memory };

    fn from(_: AllocError) -> Self {
        ReadError::Memory
    }
}

impl<T: Drop> From<AllocFailed<T>> for ReadError {
    ghost from_gives = { λ _ e. e ≡ Memory };

    fn from(_: AllocFailed<T>) -> Self {
        ReadError::Memory
    }
}
