//! The calls that are unanswered.
ghost use Rattle.std.specs.Prelude.{◌≡◌, ◌≤◌, ◌<◌, ◌++◌, ◌∷◌, [], false, length, OnOk, OnErr};
ghost use Rattle.std.specs.List.{find};
ghost use Rattle.std.specs.Option.{option_copied};
ghost use Rattle.mpx_asks.specs.Open as spec;

use conn_asks::Caller;
use rpc_base::NoMemory;
use std::alloc::Global;
use std::marker::Model;

/// How many calls of a connection may be unanswered at once.
pub const MOST_OPEN: usize = 32;

/// A call that is unanswered.
#[derive(Clone, Copy, Debug, PartialEq, Eq)]
pub struct OpenCall {
    /// To whom its answer goes.
    pub caller: Caller,
    /// Whether the client wants no answer.
    pub maybe: bool,
}

/// The calls of a connection that are unanswered, each with an id of its own. Contracts see them in the order in which they
/// were asked.
#[derive(Drop)]
pub struct OpenCalls {
    calls: Vec<OpenCall>,
}

impl Model for OpenCalls {
    ghost use Rattle.std.specs.Prelude.{List};
    ghost use Rattle.mpx_asks.specs.declared.open_calls.OpenCall.{OpenCall};
    ghost use Rattle.mpx_asks.specs.Open.{AreOpen};

    ghost Value = { List OpenCall };

    ghost view = { λ t. t.calls.items };

    ghost invariant = { λ t. AreOpen t.calls.items };
}

impl OpenCalls {
    /// No call is unanswered. It takes no memory.
    pub fn new(alloc: Global) -> OpenCalls
        ensures { result ≡ [] }
    {
        OpenCalls {
            calls: Vec::new(alloc),
        }
    }

    /// How many are unanswered.
    pub fn len(&self) -> usize
        ensures count { result ≡ length self.now }
        ensures most { result ≤ spec.most_open }
    {
        self.calls.len()
    }

    /// Whether none is unanswered.
    pub fn is_empty(&self) -> bool
        ensures { result ≡ spec.is_none self.now }
    {
        self.calls.len() == 0
    }

    /// Whether no further call is taken.
    pub fn is_full(&self) -> bool
        ensures { result ≡ spec.is_full self.now }
    {
        self.calls.len() >= MOST_OPEN
    }

    /// Whether a call with that id is unanswered.
    pub fn has(&self, id: u32) -> bool
        ensures { result ≡ spec.has id self.now }
    {
        self.calls.iter().any(|call| call.caller.call_id == id)
    }

    /// The id, where a call with it is unanswered.
    pub fn named(&self, id: u32) -> Option<u32>
        ensures { result ≡ spec.named id self.now }
    {
        self.has(id).then_some(id)
    }

    /// The call with that id, where it is unanswered.
    pub fn find(&self, id: u32) -> Option<&OpenCall>
        ensures { option_copied result ≡ find (spec.is_of id) self.now }
    {
        self.calls.iter().find(|call| call.caller.call_id == id)
    }

    /// A further call is unanswered.
    ///
    /// # Errors
    ///
    /// `NoMemory` where there is no memory to keep it; the calls are then as before.
    pub fn add(&mut self, call: OpenCall) -> Result<(), NoMemory>
        requires room { spec.is_full self.old ≡ false }
        requires free { spec.has call.caller.call_id self.old ≡ false }
        ensures ok { OnOk result (self.new ≡ self.old ++ call ∷ []) }
        ensures err { OnErr result (self.new ≡ self.old) }
    {
        self.calls.push(call)?;
        Ok(())
    }

    /// The call with that id is unanswered no more.
    pub fn remove(&mut self, id: u32)
        ensures { self.new ≡ spec.without id self.old }
    {
        self.calls.retain(|call| call.caller.call_id != id);
    }
}
