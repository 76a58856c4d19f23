//! What a call answers where memory or the outside refuses.
ghost use Rattle.std.specs.Prelude.{◌≡◌};
ghost use Rattle.rpc_base.specs.declared.fault.OutFault.TheVariants.{Memory};

use std::alloc::{AllocError, AllocFailed};
use thiserror::Error;

/// There is no memory for what was asked.
#[derive(Clone, Copy, Debug, PartialEq, Eq, Error)]
#[error("out of memory")]
pub struct NoMemory;

impl From<AllocError> for NoMemory {
    fn from(_: AllocError) -> Self {
        NoMemory
    }
}

impl<T: Drop> From<AllocFailed<T>> for NoMemory {
    fn from(_: AllocFailed<T>) -> Self {
        NoMemory
    }
}

/// An object of the outside failed, and counted that as a fault.
#[derive(Clone, Copy, Debug, PartialEq, Eq, Error)]
#[error("the outside failed")]
pub struct Failed;

/// Why an object of the outside gave nothing.
#[derive(Clone, Copy, Debug, PartialEq, Eq, Error)]
pub enum OutFault {
    /// It failed, and counted that as a fault.
    #[error("the outside failed")]
    Failed,
    /// There is no memory for what it would give.
    #[error("out of memory")]
    Memory,
}

impl From<AllocError> for OutFault {
    ghost from_gives = { λ _ e. e ≡ Memory };

    fn from(_: AllocError) -> Self {
        OutFault::Memory
    }
}

impl<T: Drop> From<AllocFailed<T>> for OutFault {
    ghost from_gives = { λ _ e. e ≡ Memory };

    fn from(_: AllocFailed<T>) -> Self {
        OutFault::Memory
    }
}

impl From<NoMemory> for OutFault {
    ghost from_gives = { λ _ e. e ≡ Memory };

    fn from(_: NoMemory) -> Self {
        OutFault::Memory
    }
}
