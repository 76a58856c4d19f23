//! Why a connection doesn't go on.

use conn_asks::ConnFault;

/// Why nothing more is taken from a connection's link and put on it.
#[derive(Clone, Copy, Debug, PartialEq, Eq)]
pub enum Stop {
    /// The peer ended.
    Ended,
    /// The link failed.
    Failed,
    /// The server closed the connection for this fault.
    Refused(ConnFault),
    /// Memory ran out.
    Memory,
}
