//! What calls come to.

use group_core::{AcceptRefusal, Cancelled, JoinRefusal, Orphaned, Stage, Taking};
use handle_model::DueItem;
use std::fmt;

/// What a call came to.
#[derive(Drop)]
pub enum Answer {
    /// The number of a connection or a call.
    Number(u32),
    /// How many entries there are.
    Count(u64),
    NoJoin(JoinRefusal),
    NoAccept(AcceptRefusal),
    Taking(Taking),
    Cancelled(Cancelled),
    Orphaned(Orphaned),
    Stays,
    /// The group has ended, and these handles were run down.
    Shut(Vec<DueItem>),
    Asked(bool),
    Stage(Stage),
    /// The last call in the way.
    Ahead(Option<u32>),
    /// An entry's line.
    Line(Vec<u8>),
    /// The condition of the call doesn't hold, so it was not made.
    Unfit,
    /// What was asked didn't come back as it was.
    Changed,
    /// The line is no call's.
    Unread,
}

impl fmt::Display for Answer {
    fn fmt<W: fmt::Write>(&self, f: &mut fmt::Formatter<W>) -> fmt::Result {
        match self {
            Answer::Number(number) => write!(f, "{number}"),
            Answer::Count(count) => write!(f, "{count}"),
            Answer::NoJoin(refusal) => write!(f, "{refusal:?}"),
            Answer::NoAccept(refusal) => write!(f, "{refusal:?}"),
            Answer::Taking(taking) => write!(f, "{taking:?}"),
            Answer::Cancelled(cancelled) => write!(f, "{cancelled:?}"),
            Answer::Orphaned(orphaned) => write!(f, "{orphaned:?}"),
            Answer::Stays => write!(f, "stays"),
            Answer::Shut(items) => write!(f, "{items:?}"),
            Answer::Asked(asked) => write!(f, "{asked}"),
            Answer::Stage(stage) => write!(f, "{stage:?}"),
            Answer::Ahead(ahead) => write!(f, "{ahead:?}"),
            Answer::Line(line) => {
                match str::from_utf8(line.as_slice()) {
                    Ok(line) => write!(f, "{line}"),
                    Err(_) => write!(f, "no text"),
                }
            }
            Answer::Unfit => write!(f, "unfit"),
            Answer::Changed => write!(f, "changed"),
            Answer::Unread => write!(f, "unread"),
        }
    }
}
