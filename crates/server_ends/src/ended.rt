//! The end of a connection.

use conn_asks::ConnFault;
use group_hub::{Pass, Retired};

/// Why a connection ended.
#[derive(Clone, Copy, Debug, PartialEq, Eq)]
pub enum Ending {
    /// The peer ended behind a whole PDU.
    Closed,
    /// The peer ended with so many octets of a further PDU.
    Cut(usize),
    /// The link failed.
    LinkFault,
    /// The server closed the connection for this fault.
    Refused(ConnFault),
    /// Memory ran out.
    Memory,
}

/// What a connection came to.
#[derive(Drop)]
pub struct Finished<K> {
    /// Its link, which is closed.
    pub link: K,
    /// The pass with which it was served.
    pub pass: Pass,
    /// The group that it joined and its number there, where it joined one.
    pub joined: Option<(u32, u32)>,
    pub ending: Ending,
    /// The group, where it ended with an entry of this connection and was retired.
    pub retired: Option<Retired>,
}
