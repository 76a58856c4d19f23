//! Identifiers of interfaces and context handles, and status codes.
ghost use Rattle.std.specs.Prelude.{◌≡◌, ◌↔◌, IsTrue};

use uuid::Uuid;

/// The order of a number's octets, as a PDU's data representation names it (C706, "Transfer Syntax
/// NDR", integer representation).
#[derive(Clone, Copy, Debug, PartialEq, Eq)]
pub enum Order {
    Big,
    Little,
}

/// The name and version of an interface or a transfer syntax (C706, "Connection-oriented RPC PDUs",
/// presentation syntax identifiers).
#[derive(Clone, Copy, Debug, PartialEq, Eq)]
pub struct SyntaxId {
    pub id: Uuid,
    pub major: u16,
    pub minor: u16,
}

/// A context handle as it travels (C706, "Interface Definition Language", context handles): an
/// attributes word, which is 0, and an identifier, most significant octet first in a `Uuid`'s text.
#[derive(Clone, Copy, Debug, PartialEq, Eq)]
pub struct WireHandle {
    pub attributes: u32,
    pub id: u128,
}

impl WireHandle {
    /// The handle of no state: a client opens with it, and a closed handle comes back as it.
    pub const NULL: WireHandle = WireHandle {
        attributes: 0,
        id: 0,
    };

    /// Whether this is the handle of no state.
    pub fn is_null(&self) -> bool
        ensures { IsTrue result ↔ ((self.now.attributes ≡ 0) × (self.now.id ≡ 0)) }
    {
        self.attributes == 0 && self.id == 0
    }
}

/// A status code of a fault PDU or of an operation's result (C706, "Reject Status Codes"). The
/// constants have the names of C706; their values are this runtime's profile.
#[derive(Clone, Copy, Debug, PartialEq, Eq)]
pub struct Status(pub u32);

impl Status {
    /// The operation succeeded.
    pub const OK: Status = Status(0);
    /// The interface has no operation of that number.
    pub const NCA_S_OP_RNG_ERROR: Status = Status(0x1C01_0002);
    /// The peer broke the protocol.
    pub const NCA_S_PROTO_ERROR: Status = Status(0x1C01_000B);
    /// A limit of the association group is reached.
    pub const NCA_S_SERVER_TOO_BUSY: Status = Status(0x1C01_0014);
    /// A union's tag selects no arm.
    pub const NCA_S_FAULT_INVALID_TAG: Status = Status(0x1C00_0006);
    /// An array's counts don't agree.
    pub const NCA_S_FAULT_INVALID_BOUND: Status = Status(0x1C00_0007);
    /// The call was cancelled.
    pub const NCA_S_FAULT_CANCEL: Status = Status(0x1C00_000D);
    /// A fault without a name of its own.
    pub const NCA_S_FAULT_UNSPEC: Status = Status(0x1C00_0012);
    /// A context handle isn't live here.
    pub const NCA_S_FAULT_CONTEXT_MISMATCH: Status = Status(0x1C00_001A);
    /// The server has no memory for the call.
    pub const NCA_S_FAULT_REMOTE_NO_MEMORY: Status = Status(0x1C00_001B);
    /// The presentation context isn't accepted.
    pub const NCA_S_INVALID_PRES_CONTEXT_ID: Status = Status(0x1C00_001C);
    /// The endpoint map has no such entry.
    pub const EPT_S_NOT_REGISTERED: Status = Status(0x16C9_A0D6);
}
