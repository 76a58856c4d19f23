use rpc_base::Octets;

/// The greatest number that a script gives to a connection. They are numbered from 1.
pub const MOST_CONNECTIONS: u32 = 1_000_000;

/// A line of a call script. Connections go by their numbers.
#[derive(Debug, Drop)]
pub enum CallLine {
    /// A connection binds: to a new group, or to the group that the other connection is bound to.
    Bind(u32, Option<u32>),
    /// A call of the operation of that name, with the text of its message.
    Start(u32, Octets, Octets),
    /// The call that is out is asked to end.
    Cancel(u32),
    /// The outcome of the call that is out is waited for.
    Wait(u32),
    /// The connection is closed.
    Close(u32),
}
