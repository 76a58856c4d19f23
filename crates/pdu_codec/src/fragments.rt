//! Writing fragments of requests and responses whose stub is borrowed.
ghost use Rattle.std.specs.Prelude.{◌≡◌, ◌+◌, ◌<◌, ◌^◌, ◌++◌, false, length, OnOk, OnErr};
ghost use Rattle.pdu_codec.specs.Constants.{stub_offset};
ghost use Rattle.pdu_codec.specs.Pdus.{has_object, pdu_octets};
ghost use Rattle.pdu_codec.specs.Fragments.{request_pdu, response_pdu};
ghost use Rattle.pdu_codec.specs.Writing.{KeepsFront};

use crate::writing::{put_head, put_request, put_response};
use crate::{Head, STUB_OFFSET, ptypes};
use rpc_base::{NoMemory, Order};

/// What a fragment says in front of its stub, of minor version 0.
#[derive(Clone, Copy, Debug, PartialEq, Eq)]
pub struct FragmentHead {
    /// The flags of [`flags`](crate::flags).
    pub flags: u8,
    pub order: Order,
    pub call_id: u32,
    /// Octets of stub data in this and later fragments, as a hint.
    pub alloc_hint: u32,
    /// The presentation context.
    pub context: u16,
}

impl FragmentHead {
    /// The common header of a fragment of that PTYPE with so many octets of stub data.
    fn head(self, kind: u8, stub: usize) -> Head
        requires { stub_offset + stub < 2 ^ 16 }
        ensures { result ≡ record { kind = kind; flags = self.flags; order = self.order; length = stub_offset + stub; call_id = self.call_id } }
    {
        Head {
            kind,
            flags: self.flags,
            order: self.order,
            length: STUB_OFFSET + stub as u16,
            call_id: self.call_id,
        }
    }

    fn put_request(self, op: u16, stub: &[u8], into: &mut Vec<u8>) -> Result<(), NoMemory>
        requires { stub_offset + length stub.now < 2 ^ 16 }
        ensures ok { OnOk result (into.new.items ≡ into.old.items ++ pdu_octets (request_pdu self op stub.now)) }
        ensures err { OnErr result (KeepsFront into.old.items into.new.items) }
    {
        put_head(0, self.head(ptypes::REQUEST, stub.len()), into)?;
        put_request(
            self.order,
            self.alloc_hint,
            self.context,
            op,
            &None,
            stub,
            into,
        )?;
        Ok(())
    }

    fn put_response(self, stub: &[u8], into: &mut Vec<u8>) -> Result<(), NoMemory>
        requires { stub_offset + length stub.now < 2 ^ 16 }
        ensures ok { OnOk result (into.new.items ≡ into.old.items ++ pdu_octets (response_pdu self stub.now)) }
        ensures err { OnErr result (KeepsFront into.old.items into.new.items) }
    {
        put_head(0, self.head(ptypes::RESPONSE, stub.len()), into)?;
        put_response(self.order, self.alloc_hint, self.context, 0, stub, into)?;
        Ok(())
    }

    /// Adds a request's fragment at the end, without an object. The octets of the stub are copied once. Where
    /// there is no memory, nothing is added.
    ///
    /// # Errors
    ///
    /// `NoMemory` where there is no memory for the octets; nothing is added then.
    pub fn write_request(self, op: u16, stub: &[u8], into: &mut Vec<u8>) -> Result<(), NoMemory>
        requires object { has_object self.flags ≡ false }
        requires short { stub_offset + length stub.now < 2 ^ 16 }
        ensures ok { OnOk result (into.new.items ≡ into.old.items ++ pdu_octets (request_pdu self op stub.now)) }
        ensures err { OnErr result (into.new.items ≡ into.old.items) }
    {
        let start = into.len();
        let put = self.put_request(op, stub, into);
        if put.is_err() {
            into.truncate(start);
        }
        put
    }

    /// Adds a response's fragment at the end, with no cancels. The octets of the stub are copied once. Where
    /// there is no memory, nothing is added.
    ///
    /// # Errors
    ///
    /// `NoMemory` where there is no memory for the octets; nothing is added then.
    pub fn write_response(self, stub: &[u8], into: &mut Vec<u8>) -> Result<(), NoMemory>
        requires { stub_offset + length stub.now < 2 ^ 16 }
        ensures ok { OnOk result (into.new.items ≡ into.old.items ++ pdu_octets (response_pdu self stub.now)) }
        ensures err { OnErr result (into.new.items ≡ into.old.items) }
    {
        let start = into.len();
        let put = self.put_response(stub, into);
        if put.is_err() {
            into.truncate(start);
        }
        put
    }
}
