//! A connection that is over.
use group_hub::{Pass, Retired};
use server_ends::Ending;
use std::snapshot::Snapshot;

/// What a connection of a round came to. The pass with which it was served was taken into the round's.
#[derive(Drop)]
pub struct Settled<K> {
    /// Its link, which is closed.
    pub link: K,
    /// The group that it joined and its number there, where it joined one.
    pub joined: Option<(u32, u32)>,
    pub ending: Ending,
    /// The group, where it ended with an entry of this connection and was retired.
    pub retired: Option<Retired>,
    /// The link as the door handed it out, the pass with which the connection began, and the same pass at its end. They
    /// have no octets: clauses alone read them.
    pub came: Snapshot<K>,
    pub began: Snapshot<Pass>,
    pub pass: Snapshot<Pass>,
}
