use rpc_base::Octets;

/// The greatest number that a script gives to a connection. They are numbered from 1.
pub const MOST_CONNECTIONS: u32 = 1_000_000;

/// A line of a replay script. Connections go by their numbers.
#[derive(Debug, Drop)]
pub enum Line {
    /// The server starts, with this boot word.
    Boot(u64),
    /// A client opens the connection.
    Open(u32),
    /// These octets arrive on the connection.
    Send(u32, Octets),
    /// The connection's waiting call is to be taken.
    Run(u32),
    /// The connection's running call is to be ended.
    Finish(u32),
    /// The connection is lost.
    Lose(u32),
}
