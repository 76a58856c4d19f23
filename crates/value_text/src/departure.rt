//! Why no value of a shape was read.
ghost use Rattle.std.specs.Prelude.{◌≡◌};
ghost use Rattle.value_text.specs.declared.departure.Stop.TheVariants.{Memory};

use rpc_base::NoMemory;
use std::alloc::{AllocError, AllocFailed};
use thiserror::Error;

/// Why no value of a shape stands at a place of a text, with the index of the octet where the text departs.
#[derive(Clone, Copy, Debug, PartialEq, Eq, Error)]
pub enum TextFault {
    /// No value text goes on with the octet there, or the text ends there.
    #[error("no text of a value goes on at octet {0}")]
    Syntax(usize),
    /// A value text may go on so, but not that of a value of the shape, whatever its numbers and octets.
    #[error("no value of the shape goes on at octet {0}")]
    Kind(usize),
    /// The number or the octet of a text that begins there is outside of its shape's range.
    #[error("out of range at octet {0}")]
    Range(usize),
    /// There is no memory for the value.
    #[error("out of memory")]
    Memory,
}

/// How a text departs, with the number of octets that are left there.
#[derive(Clone, Copy, Debug, PartialEq, Eq)]
pub enum Departure {
    Syntax(usize),
    Kind(usize),
    Range(usize),
    /// Values nest deeper than is read.
    TooDeep,
}

/// Why reading stops.
#[derive(Clone, Copy, Debug, PartialEq, Eq)]
pub enum Stop {
    /// There is no memory for the value.
    Memory,
    Departs(Departure),
}

impl From<NoMemory> for Stop {
    ghost from_gives = { λ _ e. e ≡ Memory };

    fn from(_: NoMemory) -> Self {
        Stop::Memory
    }
}

impl From<AllocError> for Stop {
    ghost from_gives = { λ _ e. e ≡ Memory };

    fn from(_: AllocError) -> Self {
        Stop::Memory
    }
}

impl<T: Drop> From<AllocFailed<T>> for Stop {
    ghost from_gives = { λ _ e. e ≡ Memory };

    fn from(_: AllocFailed<T>) -> Self {
        Stop::Memory
    }
}
