//! Why reading stops.

use idl_tokens::Token;
use rpc_base::NoMemory;
use std::alloc::{AllocError, AllocFailed};

/// Why reading stops.
#[derive(Debug, Drop)]
pub enum Stop<'a> {
    /// Memory ran out.
    Memory,
    /// In front of these tokens: the first may not stand there, or there is none. The flag says
    /// that it may but for its size.
    At(bool, &'a [Token]),
}

impl<'a> From<AllocError> for Stop<'a> {
    ghost use Rattle.std.specs.Prelude.{◌≡◌};
    ghost use Rattle.idl_parts.specs.declared.stop.Stop.TheVariants.{Memory};

    ghost from_gives = { λ _ e. e ≡ Memory };

    fn from(_error: AllocError) -> Self {
        Stop::Memory
    }
}

impl<'a, T: Drop> From<AllocFailed<T>> for Stop<'a> {
    ghost use Rattle.std.specs.Prelude.{◌≡◌};
    ghost use Rattle.idl_parts.specs.declared.stop.Stop.TheVariants.{Memory};

    ghost from_gives = { λ _ e. e ≡ Memory };

    fn from(_error: AllocFailed<T>) -> Self {
        Stop::Memory
    }
}

impl<'a> From<NoMemory> for Stop<'a> {
    ghost use Rattle.std.specs.Prelude.{◌≡◌};
    ghost use Rattle.idl_parts.specs.declared.stop.Stop.TheVariants.{Memory};

    ghost from_gives = { λ _ e. e ≡ Memory };

    fn from(_error: NoMemory) -> Self {
        Stop::Memory
    }
}
