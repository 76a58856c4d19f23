//! Requests that come in fragments.
ghost use Rattle.std.specs.Prelude.{◌≡◌, Ok, Err, None};
ghost use Rattle.pdu_stream.specs.Fragments.{is_joining, AddsFragment, Marks, Drops};

use crate::fragment::{has_flag, with_fragment};
use crate::{JoinFault, Joined};
use pdu_codec::RequestBody;
use pdu_codec::flags::LAST_FRAG;
use rpc_base::Order;
use std::marker::Model;
use std::mem;

/// The request that is being joined on a connection (C706, "Connection-oriented RPC PDUs", fragmentation and
/// reassembly). Contracts see it as that request as far as its fragments came, where there is one, or the
/// fault that was answered.
#[derive(Debug, Drop)]
pub struct Joiner {
    state: Result<Option<Joined>, JoinFault>,
}

impl Model for Joiner {
    ghost use Rattle.pdu_stream.specs.Fragments.{Joining};

    ghost Value = { Joining };

    ghost view = { λ j. j.state };
}

impl Joiner {
    /// No request is being joined. It takes no memory.
    pub fn new() -> Joiner
        ensures { result ≡ Ok None }
    {
        Joiner { state: Ok(None) }
    }

    /// The next fragment, a request PDU's flags, call id and body. The request is whole at its last one. A fault
    /// is answered for good, and then no request is being joined. The octets of a stub are moved where they are
    /// the first fragment's, and else copied once.
    ///
    /// # Errors
    ///
    /// The first of `FragOrder`, `FragDrep` and `TooLong` that is so; `Memory` where there is no
    /// memory for the stub. The same one is answered from then on.
    pub fn add(
        &mut self,
        order: Order,
        flags: u8,
        call_id: u32,
        part: RequestBody,
    ) -> Result<Option<Joined>, JoinFault>
        ensures { AddsFragment self.old (record { order = order; flags = flags; call_id = call_id; part = part }) result self.new }
    {
        let run = match mem::replace(&mut self.state, Ok(None)) {
            Ok(run) => run,
            Err(fault) => return self.stop(fault),
        };
        match with_fragment(run, order, flags, call_id, part) {
            Ok(joined) if has_flag(flags, LAST_FRAG) => Ok(Some(joined)),
            Ok(joined) => {
                self.state = Ok(Some(joined));
                Ok(None)
            }
            Err(fault) => self.stop(fault),
        }
    }

    fn stop(&mut self, fault: JoinFault) -> Result<Option<Joined>, JoinFault>
        ensures fault { result ≡ Err fault }
        ensures for_good { self.new ≡ Err fault }
    {
        self.state = Err(fault);
        Err(fault)
    }

    /// Marks the request being joined as cancelled, where it has that call id. False where no such request is
    /// being joined. It takes no memory.
    pub fn mark(&mut self, call_id: u32) -> bool
        ensures { Marks self.old call_id result self.new }
    {
        match &mut self.state {
            Ok(Some(joined)) if joined.call_id == call_id => {
                joined.cancel = true;
                true
            }
            _ => false,
        }
    }

    /// Drops the fragments of the request being joined, where it has that call id. False where no such request
    /// is being joined. It takes no memory.
    pub fn drop_call(&mut self, call_id: u32) -> bool
        ensures { Drops self.old call_id result self.new }
    {
        let found = self.is_joining(call_id);
        if found {
            self.state = Ok(None);
        }
        found
    }

    fn is_joining(&self, call_id: u32) -> bool
        ensures { result ≡ is_joining self.now call_id }
    {
        match &self.state {
            Ok(Some(joined)) => joined.call_id == call_id,
            _ => false,
        }
    }
}
