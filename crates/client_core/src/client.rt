//! A caller's connection.
ghost use Rattle.std.specs.Prelude.{◌≤◌, ◌<◌, length, IfSome};
ghost use Rattle.ndr_table.specs.Shown.{shown};
ghost use Rattle.std.proofs.Props.{props};
ghost use Rattle.pdu_codec.specs.Constants.{least_fragment, most_fragment};

use crate::{BIND_ID, CallOut, Out, Stage};
use ndr_codec::EncodeFault;
use ndr_table::Table;
use ndr_value::Message;
use pdu_codec::LEAST_FRAGMENT;
use rpc_base::{NoMemory, Octets};
use std::alloc::Global;

/// One connection of a caller, for one interface (C706, "Connection-oriented RPC protocol machines"), as far
/// as it depends on what the caller begins and on the PDUs that come: its octets are sent, and received, by
/// whoever has it. What it began is out until it is told.
#[derive(Drop)]
pub struct Client {
    pub(crate) table: Table,
    pub(crate) newest: u32,
    pub(crate) stage: Stage,
    pub(crate) most: u16,
    pub(crate) alters: Vec<u32>,
    pub(crate) call: Option<CallOut>,
    pub(crate) alloc: Global,
    ghost wide: { (least_fragment ≤ most) × (most ≤ most_fragment) },
    ghost known: { IfSome call (λ c. c.op < length (shown table).ops) } by { Prim.hlevel props },
}

impl Client {
    ghost use Rattle.std.specs.Prelude.{◌≡◌, ◌==◌, ◌&&◌, true, false};
    ghost use Rattle.std.specs.List.{list_any};
    ghost use Rattle.ndr_value.specs.Values.{msg};
    ghost use Rattle.client_core.specs.State.{state};
    ghost use Rattle.client_core.specs.States as states;
    ghost use Rattle.client_core.specs.Calls as spec;

    /// A caller of the interface, which began nothing. It takes no memory.
    pub fn new(alloc: Global, table: Table) -> Client
        ensures { state result ≡ states.at_start (shown table) }
    {
        Client {
            table,
            newest: 0,
            stage: Stage::Unbound,
            most: LEAST_FRAGMENT,
            alters: Vec::new(alloc),
            call: None,
            alloc,
        }
    }

    /// The interface.
    pub fn table(&self) -> &Table
        ensures { shown result.now ≡ (state self.now).interface }
    {
        &self.table
    }

    /// Whether the server accepted a bind.
    pub fn is_bound(&self) -> bool
        ensures { result ≡ states.is_bound (state self.now) }
    {
        matches!(self.stage, Stage::Bound)
    }

    /// Whether a call is out.
    pub fn is_calling(&self) -> bool
        ensures { result ≡ states.is_calling (state self.now) }
    {
        self.call.is_some()
    }

    /// Begins to bind the connection to the group of that id, 0 for a new one: the octets of the bind, which
    /// offers the interface as context 0. Whatever bind was out before is so no more. At `NoMemory` nothing
    /// changes.
    ///
    /// # Errors
    ///
    /// `NoMemory` where there is no memory for the octets.
    pub fn bind(&mut self, group: u32) -> Result<Octets, NoMemory>
        requires { states.is_bound (state self.old) ≡ false }
        ensures { spec.Binds (state self.old) group result (state self.new) }
    {
        let octets = crate::bind(self.alloc, self.table.syntax(), group)?;
        self.begin_anew(BIND_ID, Stage::Binding);
        Ok(octets)
    }

    /// Nothing else is out.
    fn begin_anew(&mut self, newest: u32, stage: Stage)
        ensures { (state self.new) ≡ record (states.at_start (state self.old).interface) { newest = newest; stage = stage } }
    {
        self.newest = newest;
        self.stage = stage;
        self.most = LEAST_FRAGMENT;
        self.alters = Vec::new(self.alloc);
        self.call = None;
    }

    /// Begins to offer the interface as that presentation context too: the octets of the alter_context. Calls
    /// go on in context 0. At `NoMemory` nothing changes.
    ///
    /// # Errors
    ///
    /// `NoMemory` where there is no memory for the octets or for the list of offers; nothing
    /// changes then.
    pub fn alter(&mut self, context: u16) -> Result<Octets, NoMemory>
        requires bound { states.is_bound (state self.old) ≡ true }
        requires free { states.is_calling (state self.old) ≡ false }
        ensures { spec.Alters (state self.old) context result (state self.new) }
    {
        let call_id = self.newest.wrapping_add(1);
        let octets = crate::alter(self.alloc, call_id, self.table.syntax(), context)?;
        self.alters.push(call_id)?;
        self.newest = call_id;
        Ok(octets)
    }

    /// Begins a call of the operation: the octets of its request. It is out then, unless nobody waits for an
    /// answer of the operation. At a refusal nothing changes.
    ///
    /// # Errors
    ///
    /// `TooLong` where the message's canonical octets are more than a stub may have; or want of memory.
    pub fn call(&mut self, op: u16, message: &Message) -> Result<Octets, EncodeFault>
        requires bound { states.is_bound (state self.old) ≡ true }
        requires free { states.is_calling (state self.old) ≡ false }
        requires message { spec.IsMessage (state self.old).interface op (msg message.now) }
        ensures { spec.Calls (state self.old) op (msg message.now) result (state self.new) }
    {
        self.begin(op, message)
    }

    /// Asks for the cancelling of the call that is out: the octets of the co_cancel.
    ///
    /// # Errors
    ///
    /// `NoMemory` where there is no memory for the octets; the call stays as it was.
    pub fn cancel(&mut self) -> Result<Octets, NoMemory>
        requires { states.is_calling (state self.old) ≡ true }
        ensures { spec.Cancels (state self.old) result (state self.new) }
    {
        match &self.call {
            Some(call) => crate::co_cancel(self.alloc, call.call_id),
            None => unreachable!(),
        }
    }

    /// The connection is lost: nothing is out any more, and the caller may bind another one. True where a call
    /// was out: its outcome is that it is lost. It takes no memory.
    pub fn lost(&mut self) -> bool
        ensures { spec.Loses (state self.old) result (state self.new) }
    {
        let called = self.call.is_some();
        self.begin_anew(0, Stage::Unbound);
        called
    }

    /// What is out with that call id.
    pub(crate) fn out(&self, call_id: u32) -> Option<Out>
        ensures { result ≡ states.out_with (state self.now) call_id }
    {
        if self.is_bind(call_id) {
            Some(Out::Bind)
        } else if self.is_call(call_id) {
            Some(Out::Call)
        } else if self.is_alter(call_id) {
            Some(Out::Alter)
        } else {
            None
        }
    }

    fn is_bind(&self, call_id: u32) -> bool
        ensures { result ≡ (states.is_binding_at (state self.now).stage && (call_id == states.bind_id)) }
    {
        matches!(self.stage, Stage::Binding) && call_id == BIND_ID
    }

    fn is_alter(&self, call_id: u32) -> bool
        ensures { result ≡ list_any (states.is_id call_id) (state self.now).alters }
    {
        self.alters.iter().any(|alter| *alter == call_id)
    }

    fn is_call(&self, call_id: u32) -> bool
        ensures { result ≡ states.has_id call_id (state self.now).call }
    {
        match &self.call {
            Some(call) => call.call_id == call_id,
            None => false,
        }
    }
}
