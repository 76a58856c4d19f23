//! What a caller is told.
use crate::entry::Said;
use rpc_base::Status;

/// What a journal says to the caller of a call.
#[derive(Debug, Drop)]
pub enum Reply {
    /// A fault of this status: the call never ran.
    Never(Status),
    /// What the call's end said.
    Ran(Said),
    /// Nothing: the call was orphaned, or its connection has left.
    Dropped,
    /// Nothing yet.
    Open,
}
