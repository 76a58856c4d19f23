//! What a call is answered.
ghost use Rattle.std.specs.Prelude.{◌≡◌};
ghost use Rattle.manager_api.specs.Answers.{ans, settled};

use ndr_value::Message;
use rpc_base::{Items, NoMemory, Status};

/// What an answer does at one of the call's context handles.
#[derive(Clone, Copy, Debug, PartialEq, Eq)]
pub enum Kept {
    /// The handle stays with its cookie: the call only uses it.
    Stays,
    /// The handle stays with this cookie, or one is issued with it.
    Cookie(u64),
    /// The handle is closed, or none is issued.
    Null,
}

/// What an answer does at each of the call's context handles, in order.
pub type Kepts = Items<Kept>;

/// What a call is answered.
#[derive(Debug, Drop)]
pub enum Answer {
    /// The operation's response, and what becomes of the handles. The message has a wire handle for
    /// each handle that goes out, of any value: whoever serves the call puts the group's there.
    Out(Message, Kepts),
    /// A fault. Handles that were given stay with their cookies, and none is issued.
    Fault(Status),
}

/// The answer, or the fault of want of memory.
pub fn or_no_memory(answered: Result<Answer, NoMemory>) -> Answer
    ensures { ans result ≡ settled answered }
{
    match answered {
        Ok(answer) => answer,
        Err(NoMemory) => Answer::Fault(Status::NCA_S_FAULT_REMOTE_NO_MEMORY),
    }
}
