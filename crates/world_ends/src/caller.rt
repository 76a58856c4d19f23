//! The caller's end.
ghost use Rattle.std.specs.Prelude.{◌≡◌, ◌++◌, ◌∷◌, [], true, false, map, IfOk, OnOk};
ghost use Rattle.ndr_table.specs.Shown.{shown};
ghost use Rattle.ndr_value.specs.Values.{msg};
ghost use Rattle.client_core.specs.Calls as calls;
ghost use Rattle.client_core.specs.State.{state};
ghost use Rattle.client_core.specs.States as states;
ghost use Rattle.world_laws.specs.Moves.{Fate as fates};
ghost use Rattle.world_laws.specs.Ends.{CallerEnd};
ghost use Rattle.world_laws.specs.Calling.{lost_caller};
ghost use Rattle.world_ends.specs.Callers.{IsCaller, fate_of, set_if, with_last};

use crate::Fate;
use client_core::Client;
use ndr_codec::EncodeFault;
use ndr_table::Table;
use ndr_value::Message;
use rpc_base::{NoMemory, Octets};
use std::alloc::Global;

/// A connection of a caller: what it began, the octets that came and are no whole PDU, and what it knows of each of its calls, in the
/// order in which they were started.
#[derive(Drop)]
pub struct Caller {
    pub client: Client,
    pub rest: Vec<u8>,
    pub fates: Vec<Fate>,
    pub(crate) alloc: Global,
}

impl Caller {
    /// A caller of the interface, which began nothing. It takes no memory.
    pub fn new(alloc: Global, table: Table) -> Caller
        ensures state { state result.client ≡ states.at_start (shown table) }
        ensures rest { result.rest.items ≡ [] }
        ensures fates { result.fates.items ≡ [] }
    {
        Caller {
            client: Client::new(alloc, table),
            rest: Vec::new(alloc),
            fates: Vec::new(alloc),
            alloc,
        }
    }

    /// Begins to bind the connection to the group of that id, 0 for a new one: the octets that are sent.
    ///
    /// # Errors
    ///
    /// `NoMemory` where there is no memory for them.
    pub fn bind(&mut self, group: u32) -> Result<Octets, NoMemory>
        requires { states.is_bound (state self.old.client) ≡ false }
        ensures binds { calls.Binds (state self.old.client) group result (state self.new.client) }
        ensures same { self.new ≡ record self.old { client = self.new.client } }
    {
        self.client.bind(group)
    }

    /// Starts a call: the octets that are sent.
    ///
    /// # Errors
    ///
    /// `TooLong` where the message's canonical octets are more than a stub may have; or want of memory.
    pub fn start(&mut self, op: u16, message: &Message) -> Result<Octets, EncodeFault>
        requires bound { states.is_bound (state self.old.client) ≡ true }
        requires free { states.is_calling (state self.old.client) ≡ false }
        requires message { calls.IsMessage (state self.old.client).interface op (msg message.now) }
        ensures calls { calls.Calls (state self.old.client) op (msg message.now) result (state self.new.client) }
        ensures rest { IfOk result (λ octets. self.new.rest ≡ self.old.rest) }
        ensures fates { IfOk result (λ octets. map fate_of self.new.fates.items ≡ map fate_of self.old.fates.items ++ fates.Open ∷ []) }
    {
        match self.fates.reserve(1) {
            Ok(()) => {}
            Err(_) => return Err(EncodeFault::Memory),
        }
        let octets = self.client.call(op, message)?;
        self.fates.push_reserved(Fate::Open);
        Ok(octets)
    }

    /// Asks for the cancelling of the call that is out: the octets that are sent.
    ///
    /// # Errors
    ///
    /// `NoMemory` where there is no memory for them.
    pub fn cancel(&mut self) -> Result<Octets, NoMemory>
        requires { states.is_calling (state self.old.client) ≡ true }
        ensures cancels { calls.Cancels (state self.old.client) result (state self.new.client) }
        ensures same { self.new ≡ record self.old { client = self.new.client } }
    {
        self.client.cancel()
    }

    /// The call that was started last has that fate, where it is out.
    pub(crate) fn set(&mut self, out: bool, fate: Fate)
        ensures fates { map fate_of self.new.fates.items ≡ set_if out (fate_of fate) (map fate_of self.old.fates.items) }
        ensures same { self.new ≡ record self.old { fates = self.new.fates } }
    {
        if out {
            set_last(&mut self.fates, fate);
        }
    }

    /// The connection is lost. It takes no memory.
    pub fn lose(&mut self)
        ensures { (c : CallerEnd) → IsCaller self.old c → IsCaller self.new (lost_caller c) }
    {
        let out = self.client.lost();
        self.rest.clear();
        self.set(out, Fate::Lost);
    }
}

fn set_last(fates: &mut Vec<Fate>, fate: Fate)
    ensures { map fate_of fates.new.items ≡ with_last (fate_of fate) (map fate_of fates.old.items) }
{
    let count = fates.len();
    if count > 0 {
        fates[count - 1] = fate;
    }
}
