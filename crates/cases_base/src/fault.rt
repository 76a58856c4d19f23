//! Why a text of cases can't be played.

use rpc_base::NoMemory;
use std::alloc::{AllocError, AllocFailed};
use thiserror::Error;

/// Why a text of cases can't be played.
#[derive(Clone, Copy, Debug, PartialEq, Eq, Error)]
pub enum CasesFault {
    #[error("out of memory")]
    Memory,
    /// The line of that number, from 1 on, is no line of cases.
    #[error("line {0} is no line of cases")]
    Line(u64),
}

impl From<NoMemory> for CasesFault {
    fn from(_: NoMemory) -> Self {
        CasesFault::Memory
    }
}

impl From<AllocError> for CasesFault {
    fn from(_: AllocError) -> Self {
        CasesFault::Memory
    }
}

impl<T: Drop> From<AllocFailed<T>> for CasesFault {
    fn from(_: AllocFailed<T>) -> Self {
        CasesFault::Memory
    }
}
