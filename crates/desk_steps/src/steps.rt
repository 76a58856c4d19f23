//! What the operations of an interface do.
ghost use Rattle.std.specs.Prelude.{◌≡◌, IfOk, OnErr, OnOk};
ghost use Rattle.ndr_value.specs.Values.{msg};
ghost use Rattle.manager_api.specs.Answers.{Step, ans};
ghost use Rattle.manager_api.specs.Calls.{Call};

use handle_model::{CookieRow, Rundown};
use manager_api::Answer;
use ndr_value::Message;
use rpc_base::NoMemory;
use std::alloc::Global;

/// What a service keeps, what its operations answer, and what they leave. It is seen by contracts as what it keeps.
/// What it answers is made first, and what is left then: so a call that isn't answered leaves nothing.
pub trait Steps: Rundown {
    /// The answer to a call and what is then kept, by what is kept and the call.
    ghost step: { Self → Call → Step Self };

    /// The answer. Nothing changes.
    ///
    /// # Errors
    ///
    /// `NoMemory` where there is no memory for the answer.
    fn answer(
        &self,
        alloc: Global,
        iface: u16,
        op: u16,
        message: &Message,
        cookies: &CookieRow,
    ) -> Result<Answer, NoMemory>
        ensures { IfOk result (λ a. ans a ≡ (step self.now (record { iface = iface; op = op; message = msg message.now; cookies = cookies.now })).answer) };

    /// Keeps what the call leaves, once it has its answer.
    ///
    /// # Errors
    ///
    /// `NoMemory` where there is no memory for what is left; then nothing has changed.
    fn keep(
        &mut self,
        iface: u16,
        op: u16,
        message: &Message,
        cookies: &CookieRow,
    ) -> Result<(), NoMemory>
        ensures ok { OnOk result (self.new ≡ (step self.old (record { iface = iface; op = op; message = msg message.now; cookies = cookies.now })).next) }
        ensures err { OnErr result (self.new ≡ self.old) };
}
