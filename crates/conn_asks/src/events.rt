//! What is asked on a connection, and what it comes to.

use pdu_codec::{AlterBody, BindAckBody, BindBody, PduFault};
use pdu_stream::{JoinFault, Joined};
use rpc_base::{Octets, Order};
use thiserror::Error;

/// To whom an answer goes, as the PDU says that it answers.
#[derive(Clone, Copy, Debug, PartialEq, Eq)]
pub struct Caller {
    /// The order of the answer's numbers.
    pub order: Order,
    pub call_id: u32,
    /// The presentation context of a request, 0 where there was none.
    pub context: u16,
}

/// What a bind_ack agrees on: the sizes of fragments, and the group.
#[derive(Clone, Copy, Debug, PartialEq, Eq)]
pub struct Agreement {
    /// The largest fragment, in octets, that the server sends.
    pub max_xmit: u16,
    /// The largest fragment, in octets, that the server takes.
    pub max_recv: u16,
    /// The association group's id.
    pub group: u32,
}

/// Why a server closes a connection.
#[derive(Clone, Copy, Debug, PartialEq, Eq, Error)]
pub enum ConnFault {
    /// Octets that are no PDU, and have not the PTYPE of a bind.
    #[error("no PDU: {0}")]
    Pdu(PduFault),
    /// A fragment that doesn't go on with the request.
    #[error("fragments: {0}")]
    Join(JoinFault),
    /// A PDU that a server doesn't take.
    #[error("a PDU for a client")]
    Direction,
    /// An alter_context or a request before a bind.
    #[error("not bound")]
    Unbound,
    /// A second bind.
    #[error("bound already")]
    Rebound,
    /// A bind is refused, for the reason of the bind_nak.
    #[error("a bind is refused")]
    Nak(u16),
}

/// What a connection waits for, before it goes on with the PDUs that come.
#[derive(Debug, Drop)]
pub enum Waits {
    /// Nothing: each PDU is taken.
    Nothing,
    /// The group of a bind. The bind_ack is ready but for the group's id.
    Group(Caller, BindAckBody),
    /// The answer of a call, and whether it wants none.
    Call(Caller, bool),
    /// The connection is closed.
    Over,
    /// Memory ran out.
    Failed,
}

/// What PDUs ask, in their order.
#[derive(Debug, Drop)]
pub enum Ask {
    /// The connection is to be bound, by a bind with these flags.
    Bind(Caller, u8, BindBody),
    /// Further presentation contexts are offered.
    Alter(Caller, AlterBody),
    /// A whole request is to be answered.
    Call(Joined),
    /// The call asked before is to be cancelled.
    Cancel(u32),
    /// The call asked before is no longer waited for.
    Orphan(u32),
    /// The protocol is broken. Nothing follows.
    Broken(Caller, ConnFault),
}

/// What a connection does, or leaves to the server.
#[derive(Debug, Drop)]
pub enum Act {
    /// These octets are an answer.
    Answer(Octets),
    /// The connection wants to join the group of that id, 0 for a new one.
    Group(u32),
    /// A call of the interface of that number.
    Call(Joined, u16),
    /// A cancel of the call that is unanswered.
    Cancel(u32),
    /// The call that is unanswered is no longer waited for.
    Orphan(u32),
    /// These octets are the last answer.
    Close(Octets, ConnFault),
}
