//! What a caller is told.

use ndr_codec::NdrFault;
use ndr_value::Message;
use pdu_stream::JoinFault;
use rpc_base::Status;
use thiserror::Error;

/// The outcome of what a caller began (C706, "Connection-oriented RPC protocol machines", client).
#[derive(Debug, Drop)]
pub enum Told {
    /// The presentation context is accepted, by a server that serves the connection in that group.
    Bound(u32),
    /// A bind is refused, for the reason of the bind_nak; or the context is rejected, for 16 plus that
    /// reason, at most 65,535.
    NotBound(u16),
    /// The call ran, and this is its response.
    Done(Message),
    /// What was begun failed.
    Fault {
        status: Status,
        /// The server says that the call didn't run: it may be made again.
        not_run: bool,
    },
    /// The server breaks the protocol. What was begun is as it was.
    Broken(ClientFault),
}

/// How a server breaks the protocol.
#[derive(Clone, Copy, Debug, PartialEq, Eq, Error)]
pub enum ClientFault {
    /// A PDU for a server; one that doesn't answer what has its call id; or an ack without a result.
    #[error("no answer")]
    Direction,
    /// A fragment that doesn't go on with the response.
    #[error("fragments: {0}")]
    Join(JoinFault),
    /// A response that is no message of the operation.
    #[error("stub data that is no response")]
    Ndr(NdrFault),
}
