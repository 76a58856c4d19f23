//! What a caller has begun.

use ndr_value::Message;
use pdu_stream::Joiner;

/// How far the binding of a caller's connection is.
#[derive(Clone, Copy)]
pub enum Stage {
    /// No bind was made, or it was refused.
    Unbound,
    /// A bind is not yet answered.
    Binding,
    /// A bind was accepted.
    Bound,
}

/// What a server's PDU answers, by its call id.
#[derive(Clone, Copy)]
pub enum Out {
    Bind,
    Alter,
    Call,
}

/// A call that is not yet answered.
#[derive(Drop)]
pub struct CallOut {
    pub call_id: u32,
    /// The operation's number.
    pub op: u16,
    /// What was asked.
    pub message: Message,
    /// The fragments of the response, as far as they came.
    pub joiner: Joiner,
}
