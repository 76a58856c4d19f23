//! PDUs of the connection-oriented protocol (C706, "Connection-oriented RPC PDUs").

use rpc_base::{Items, Octets, Order, Status, SyntaxId};
use uuid::Uuid;

/// What a PDU is, by its PTYPE.
pub mod ptypes {
    pub const REQUEST: u8 = 0;

    pub const RESPONSE: u8 = 2;

    pub const FAULT: u8 = 3;

    pub const BIND: u8 = 11;

    pub const BIND_ACK: u8 = 12;

    pub const BIND_NAK: u8 = 13;

    pub const ALTER_CONTEXT: u8 = 14;

    pub const ALTER_CONTEXT_RESP: u8 = 15;

    pub const SHUTDOWN: u8 = 17;

    pub const CO_CANCEL: u8 = 18;

    pub const ORPHANED: u8 = 19;
}

/// The flags of a PDU that this runtime knows. It ignores the others.
pub mod flags {
    /// The first fragment of a message.
    pub const FIRST_FRAG: u8 = 0x01;
    /// The last fragment of a message.
    pub const LAST_FRAG: u8 = 0x02;
    /// The only fragment of a message.
    pub const ONLY_FRAG: u8 = FIRST_FRAG | LAST_FRAG;
    /// A cancel was pending at the sender (requests alone).
    pub const PENDING_CANCEL: u8 = 0x04;
    /// The connection carries several calls at once.
    pub const CONC_MPX: u8 = 0x10;
    /// The call was not executed (faults alone).
    pub const DID_NOT_EXECUTE: u8 = 0x20;
    /// The call wants no answer.
    pub const MAYBE: u8 = 0x40;
    /// The body has an object UUID (requests alone).
    pub const OBJECT_UUID: u8 = 0x80;
}

/// The protocol's major version.
pub const MAJOR_VERSION: u8 = 5;

/// The greatest minor version that this runtime knows.
pub const MOST_MINOR: u8 = 1;

/// The octets of a common header.
pub const HEADER_SIZE: usize = 16;

/// The octets in front of a response's stub, or of that of a request without an object.
pub const STUB_OFFSET: u16 = 24;

/// The fragment that each side takes at least, in octets.
pub const LEAST_FRAGMENT: u16 = 1432;

/// The fragment that this runtime sends and takes at most, in octets.
pub const MOST_FRAGMENT: u16 = 4280;

/// A PDU without what its octets say of themselves: lengths, counts and reserved octets. The major
/// version is [`MAJOR_VERSION`].
#[derive(Debug, Drop)]
pub struct Pdu {
    /// The minor version, at most [`MOST_MINOR`].
    pub minor: u8,
    /// The flags of [`flags`], and others.
    pub flags: u8,
    pub order: Order,
    pub call_id: u32,
    pub body: Body,
}

/// What follows the common header.
#[derive(Debug, Drop)]
pub enum Body {
    Request(RequestBody),
    Response(ResponseBody),
    Fault(FaultBody),
    Bind(BindBody),
    BindAck(BindAckBody),
    BindNak(BindNakBody),
    Alter(AlterBody),
    AlterResp(AlterRespBody),
    /// The server asks the client to end the connection.
    Shutdown,
    /// The client asks for the cancelling of the call.
    CoCancel,
    /// The client no longer waits for the call.
    Orphaned,
}

/// A fragment of a call's request.
#[derive(Debug, Drop)]
pub struct RequestBody {
    /// Octets of stub data in this and later fragments, as a hint.
    pub alloc_hint: u32,
    /// The presentation context.
    pub context: u16,
    /// The operation's number.
    pub op: u16,
    /// There is one exactly under the flag `OBJECT_UUID`.
    pub object: Option<Uuid>,
    pub stub: Octets,
}

/// A fragment of a call's response.
#[derive(Debug, Drop)]
pub struct ResponseBody {
    /// Octets of stub data in this and later fragments, as a hint.
    pub alloc_hint: u32,
    pub context: u16,
    /// Cancels received for the call.
    pub cancel_count: u8,
    pub stub: Octets,
}

/// A call's failure.
#[derive(Debug, Drop)]
pub struct FaultBody {
    pub alloc_hint: u32,
    pub context: u16,
    pub cancel_count: u8,
    pub status: Status,
}

/// The first offer of presentation contexts on a connection.
#[derive(Debug, Drop)]
pub struct BindBody {
    /// The largest fragment, in octets, that the sender sends.
    pub max_xmit: u16,
    /// The largest fragment, in octets, that the sender takes.
    pub max_recv: u16,
    /// The association group, 0 for a new one.
    pub group: u32,
    pub elements: Elements,
}

/// The answer to a bind.
#[derive(Debug, Drop)]
pub struct BindAckBody {
    pub max_xmit: u16,
    pub max_recv: u16,
    pub group: u32,
    /// The secondary address.
    pub address: Octets,
    /// One for each element of the bind.
    pub results: Results,
}

/// The refusal of a bind.
#[derive(Debug, Drop)]
pub struct BindNakBody {
    pub reason: u16,
    /// The versions of the protocol that the sender knows.
    pub versions: Versions,
}

/// A later offer of presentation contexts. Its maxima and its group are those of a bind, and mean
/// nothing here.
#[derive(Debug, Drop)]
pub struct AlterBody {
    pub max_xmit: u16,
    pub max_recv: u16,
    pub group: u32,
    pub elements: Elements,
}

/// The answer to an alter_context.
#[derive(Debug, Drop)]
pub struct AlterRespBody {
    pub max_xmit: u16,
    pub max_recv: u16,
    pub group: u32,
    pub address: Octets,
    /// One for each element of the alter_context.
    pub results: Results,
}

/// A version of the protocol.
#[derive(Clone, Copy, Debug, PartialEq, Eq)]
pub struct Version {
    pub major: u8,
    pub minor: u8,
}

/// An offer of one presentation context: an abstract syntax, and the transfer syntaxes for it.
#[derive(Debug, Drop)]
pub struct Element {
    pub context: u16,
    pub syntax: SyntaxId,
    pub transfers: Syntaxes,
}

/// The answer to an element.
#[derive(Clone, Copy, Debug, PartialEq, Eq)]
pub struct ContextResult {
    pub result: u16,
    pub reason: u16,
    pub transfer: SyntaxId,
}

pub type Elements = Items<Element>;

pub type Results = Items<ContextResult>;

pub type Syntaxes = Items<SyntaxId>;

pub type Versions = Items<Version>;

/// What a PDU's common header says.
#[derive(Clone, Copy, Debug, PartialEq, Eq)]
pub struct Head {
    /// The PTYPE, of [`ptypes`].
    pub kind: u8,
    pub flags: u8,
    pub order: Order,
    /// The PDU's octets, with those of the header.
    pub length: u16,
    pub call_id: u32,
}

/// What a PDU's common header says before any of it is tested.
#[derive(Clone, Copy, Debug, PartialEq, Eq)]
pub struct RawHead {
    /// The PTYPE, of [`ptypes`] or another.
    pub kind: u8,
    /// The order of the header's numbers: big-endian, or else little-endian.
    pub order: Order,
    pub call_id: u32,
}
