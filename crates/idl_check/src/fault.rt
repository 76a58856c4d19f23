//! Why a tree is no interface of the profile.

use rpc_base::NoMemory;
use thiserror::Error;

/// Why a tree is no interface of the profile.
#[derive(Clone, Copy, Debug, PartialEq, Eq, Error)]
pub enum CheckFault {
    /// The rule of that number, 1 to 9, is broken at that octet of the text: the least octet where a
    /// rule is broken, and at it the least number.
    #[error("rule {number} is broken at octet {at}")]
    Rule { number: u8, at: usize },
    /// Memory ran out, or a type has more than 1,024 pointers and arrays, or more than 64 where it is used
    /// by its name.
    #[error("out of memory")]
    Memory,
}

impl From<NoMemory> for CheckFault {
    ghost use Rattle.std.specs.Prelude.{◌≡◌};
    ghost use Rattle.idl_check.specs.declared.fault.CheckFault.TheVariants.{Memory};

    ghost from_gives = { λ _ e. e ≡ Memory };

    fn from(_error: NoMemory) -> Self {
        CheckFault::Memory
    }
}
