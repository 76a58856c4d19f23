//! What a shard's history consists of.
use handle_model::Entry;

/// An entry of a shard's directory of groups.
#[derive(Clone, Copy, Debug, PartialEq, Eq)]
pub enum Mark {
    /// The group of this id was opened.
    Opened(u32),
    /// It was looked for, and was not open.
    Missed(u32),
    /// It had ended, and its handles were run down.
    Retired(u32),
}

/// One event of a shard: an entry of its directory, or an entry of a group's journal. No value of it is
/// made.
#[derive(Drop)]
pub enum Item {
    /// The first of all: whose it is, by the server's boot word and the shard's number.
    Begun { boot: u64, shard: u32 },
    Listed(Mark),
    Of { group: u32, entry: Entry },
}
