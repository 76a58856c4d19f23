//! What a replay keeps of each connection beside the connection itself.

use rpc_base::Status;

/// Whether a connection is there.
#[derive(Clone, Copy, Debug, PartialEq, Eq)]
pub enum Standing {
    /// It is there.
    Open,
    /// The server closed it, or refused its bind.
    Closed,
    /// It was lost.
    Lost,
}

/// What on a connection waits for the server's word.
#[derive(Clone, Copy, Debug, PartialEq, Eq)]
pub enum Unanswered {
    Nothing,
    /// A bind that asks for the group of this id, 0 for a new one.
    Bind(u32),
    /// A request that is refused with this status.
    Refused(Status),
    /// An accepted call, by its number in its group. Of a connection that was lost it is its last one, whatever became of it.
    Call(u32),
}

/// A connection's place in a group.
#[derive(Clone, Copy, Debug, PartialEq, Eq)]
pub struct Member {
    /// The group's id.
    pub group: u32,
    /// The connection's number there.
    pub number: u32,
}
