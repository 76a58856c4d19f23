//! Where a stream stands, and how many packets came.

/// Where a stream stands.
#[derive(Clone, Copy, Debug, PartialEq, Eq)]
pub enum Place {
    /// Within a header, or before it.
    Head,
    /// Within a packet behind its header: whether it ends a call, and how many of its octets are still to come.
    Body(bool, usize),
    /// Behind a header with a fault. No packet follows.
    Stopped,
}

/// How many packets became whole.
#[derive(Clone, Copy, Debug, PartialEq, Eq)]
pub struct NewPackets {
    pub packets: u64,
    /// Those of them that are the last fragment of a request.
    pub calls: u64,
}
