//! Why a pointer could not be met.
ghost use Rattle.std.specs.Prelude.{◌≡◌};
ghost use Rattle.ndr_pointers.specs.declared.fault.PointerFault.TheVariants.{Memory};

use rpc_base::NoMemory;
use std::alloc::AllocFailed;

/// Why a pointer could not be met or named.
#[derive(Clone, Copy, Debug, PartialEq, Eq)]
pub enum PointerFault {
    /// The full pointer at that index has an id that was met with another shape.
    AliasShape(usize),
    /// The referent of the pointer at that index would stand at the 257th level.
    TooDeep(usize),
    /// There is no memory for what was met.
    Memory,
}

impl From<NoMemory> for PointerFault {
    ghost from_gives = { λ _ e. e ≡ Memory };

    fn from(_: NoMemory) -> Self {
        PointerFault::Memory
    }
}

impl<T: Drop> From<AllocFailed<T>> for PointerFault {
    ghost from_gives = { λ _ e. e ≡ Memory };

    fn from(_: AllocFailed<T>) -> Self {
        PointerFault::Memory
    }
}
