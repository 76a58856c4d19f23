//! Whole requests, and why fragments don't join to one.
ghost use Rattle.std.specs.Prelude.{◌≡◌};
ghost use Rattle.pdu_stream.specs.declared.joined.JoinFault.TheVariants.{Memory};

use rpc_base::{NoMemory, Octets, Order};
use thiserror::Error;

/// A request, joined from its fragments (C706, "Connection-oriented RPC PDUs", fragmentation and reassembly).
#[derive(Debug, Drop)]
pub struct Joined {
    pub call_id: u32,
    /// The order of its numbers, in the stub too.
    pub order: Order,
    /// The presentation context.
    pub context: u16,
    /// The operation's number.
    pub op: u16,
    /// The client wants no answer: its first fragment says so.
    pub maybe: bool,
    /// The client wants it cancelled: a fragment says so, or a co_cancel came between them.
    pub cancel: bool,
    /// The stub data of all fragments, in order.
    pub stub: Octets,
}

/// Why a fragment doesn't go on with a request: the first of these that is so.
#[derive(Clone, Copy, Debug, PartialEq, Eq, Error)]
pub enum JoinFault {
    /// It says that it is the first one while a request is being joined, or that it isn't while none is, or it
    /// has another call id, presentation context or operation than the request.
    #[error("order of fragments")]
    FragOrder,
    /// Its numbers are in another order than those of the first fragment.
    #[error("data representation of a fragment")]
    FragDrep,
    /// The stub would pass [`MOST_STUB`](crate::MOST_STUB).
    #[error("stub data above 64 MiB")]
    TooLong,
    #[error("out of memory")]
    Memory,
}

impl From<NoMemory> for JoinFault {
    ghost from_gives = { λ _ e. e ≡ Memory };

    fn from(_: NoMemory) -> Self {
        JoinFault::Memory
    }
}
