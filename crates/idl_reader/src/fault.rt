//! Why a text is no interface text.

use rpc_base::NoMemory;
use thiserror::Error;

/// Why a text is no interface text. The number is the index of the octet where the text departs
/// from the grammar: the first octet of the token that departs, or of the unfinished token or
/// comment, or the text's length where the text ends too early.
#[derive(Clone, Copy, Debug, PartialEq, Eq, Error)]
pub enum IdlFault {
    /// An octet that begins no token, or an unfinished token or comment.
    #[error("no token at octet {0}")]
    BadToken(usize),
    /// A token, or the end, that the grammar doesn't allow there.
    #[error("unexpected token at octet {0}")]
    Expected(usize),
    /// A number that passes its type, where a number may stand.
    #[error("number too large at octet {0}")]
    TooLarge(usize),
    /// The opening of nesting level 65, where such a bracket may stand.
    #[error("nested too deep at octet {0}")]
    TooDeep(usize),
    /// Memory ran out.
    #[error("out of memory")]
    Memory,
}

impl From<NoMemory> for IdlFault {
    ghost use Rattle.std.specs.Prelude.{◌≡◌};
    ghost use Rattle.idl_reader.specs.declared.fault.IdlFault.TheVariants.{Memory};

    ghost from_gives = { λ _ e. e ≡ Memory };

    fn from(_error: NoMemory) -> Self {
        IdlFault::Memory
    }
}
