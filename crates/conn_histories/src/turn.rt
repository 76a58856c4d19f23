//! What came of what a connection was asked.

use conn_asks::ConnFault;
use handle_model::{Cookies, Outcomes, Said, Slots};
use pdu_stream::Joined;
use rpc_base::{Items, Octets, Status};

/// What calls off a call that is unanswered.
#[derive(Clone, Copy, Debug, PartialEq, Eq)]
pub enum Off {
    /// A cancel.
    Cancel,
    /// An orphaning: the client no longer waits for it.
    Orphan,
}

/// What called off a call while it was unanswered, the newest first.
pub type Offs = Items<Off>;

/// How a call ran.
#[derive(Debug, Drop)]
pub struct Run {
    /// The cookies that it was given.
    pub cookies: Cookies,
    /// What its end did at its slots.
    pub results: Outcomes,
    /// What its end said.
    pub said: Said,
}

/// What became of an accepted call.
#[derive(Debug, Drop)]
pub enum Fate {
    /// It waits.
    Waiting,
    /// It was denied for the slot of that index.
    Denied(u8),
    /// It was cancelled while it waited.
    Cancelled,
    /// It was orphaned while it waited.
    Orphaned,
    /// The connection left while it waited.
    LeftWaiting,
    /// It runs, with these cookies.
    Running(Cookies),
    /// The connection left while it runs.
    LeftRunning(Cookies),
    /// It ran and ended.
    Ended(Run),
    /// The connection left while it ran, and then it ended.
    LeftEnded(Run),
}

/// What became of a request whose presentation context is accepted.
#[derive(Debug, Drop)]
pub enum Deed {
    /// Nothing yet.
    Pending,
    /// It was refused by a fault of this status before it was accepted.
    Refused(Status),
    /// It was accepted as a call.
    Accepted { call: u32, slots: Slots, fate: Fate },
}

/// A request of an interface.
#[derive(Debug, Drop)]
pub struct Request {
    pub joined: Joined,
    /// The interface's number.
    pub iface: u16,
    /// What called it off while it was unanswered.
    pub offs: Offs,
    pub deed: Deed,
    /// The octets of its answer, once there are any; those of no PDU where nothing is answered.
    pub answer: Option<Octets>,
}

/// What one thing that a connection was asked came to.
#[derive(Debug, Drop)]
pub enum Turn {
    /// A bind asks for the group of that id, 0 for a new one.
    Binding(u32),
    /// A bind was answered.
    Bound {
        asked: u32,
        group: u32,
        octets: Octets,
    },
    /// A bind was refused.
    NotBound {
        asked: u32,
        reason: u16,
        octets: Octets,
    },
    /// An alter_context, or a request whose presentation context isn't accepted, was answered at
    /// once.
    Answered(Octets),
    /// A request of an interface.
    Called(Request),
    /// The connection was closed for a fault, with these octets.
    Closed(Octets, ConnFault),
}
