//! What a journal is made of.
ghost use Rattle.std.specs.Prelude.{◌≡◌, IfOk};

use rpc_base::{Exact, Items, NoMemory, Octets, Order, Status, WireHandle};
use std::alloc::Global;

/// Whose journal it is: the boot word of the server, and the id of the association group.
#[derive(Clone, Copy, Debug, PartialEq, Eq)]
pub struct Home {
    pub boot: u64,
    pub group: u32,
}

/// One context handle parameter of a call, in the order of the parameters (C706, "Interface
/// Definition Language", context handles). `kind` is the number of the interface times 65,536 plus
/// the number of the handle type in its interface, both from 0.
#[derive(Clone, Copy, Debug, PartialEq, Eq)]
pub enum Slot {
    /// An [in] use of a `context_handle_noserialize` type, beside others.
    Shares { kind: u32, wire: WireHandle },
    /// An [in] use of a serialised type, which excludes others.
    Holds { kind: u32, wire: WireHandle },
    /// An [in, out] use of a handle that is not null, which excludes others.
    Changes { kind: u32, wire: WireHandle },
    /// An [out] parameter, or an [in, out] one that came as null: it may issue this serial.
    Opens { kind: u32, serial: u32 },
}

/// The slots of a call.
pub type Slots = Items<Slot>;

/// What the end of a call did at one of its slots. A cookie is the manager's own word for its state.
#[derive(Clone, Copy, Debug, PartialEq, Eq)]
pub enum Outcome {
    /// The handle stays live, with this cookie.
    Keep(u64),
    /// The handle is closed.
    Close,
    /// A handle is issued.
    Issue { serial: u32, cookie: u64 },
    /// Nothing.
    Nothing,
}

/// The results of a call, one for each slot.
pub type Outcomes = Items<Outcome>;

/// The cookies that a taken call is given, one for each slot; none where the slot opens a handle.
pub type Cookies = Items<Option<u64>>;

/// The same as four places, those of slots that the call doesn't have empty.
pub type CookieRow = [Option<u64>; 4];

/// What the end of a call says.
#[derive(Debug, Drop)]
pub enum Said {
    /// The stub of its response.
    Out(Octets),
    /// A fault.
    Fault(Status),
}

impl Said {
    /// An equal one.
    ///
    /// # Errors
    /// `NoMemory` where memory runs out.
    pub fn copy(&self, alloc: Global) -> Result<Said, NoMemory>
        ensures { IfOk result (λ copy. copy ≡ self.now) }
    {
        match self {
            Said::Out(stub) => Ok(Said::Out(stub.copy(alloc)?)),
            Said::Fault(status) => Ok(Said::Fault(*status)),
        }
    }
}

/// A request as it was accepted.
#[derive(Debug, Drop)]
pub struct Asked {
    /// The number of its connection in the group.
    pub conn: u32,
    /// The number of the interface.
    pub iface: u16,
    /// The number of the operation.
    pub op: u16,
    /// The order of the stub's numbers.
    pub order: Order,
    /// Whether the caller waits for an answer: false for a maybe call.
    pub reply: bool,
    pub slots: Slots,
    /// The stub data.
    pub stub: Octets,
}

impl Asked {
    /// An equal one.
    ///
    /// # Errors
    /// `NoMemory` where memory runs out.
    pub fn copy(&self, alloc: Global) -> Result<Asked, NoMemory>
        ensures { IfOk result (λ copy. copy ≡ self.now) }
    {
        Ok(Asked {
            conn: self.conn,
            iface: self.iface,
            op: self.op,
            order: self.order,
            reply: self.reply,
            slots: self.slots.copy(alloc)?,
            stub: self.stub.copy(alloc)?,
        })
    }
}

/// A handle that is run down when its group ends.
#[derive(Clone, Copy, Debug, PartialEq, Eq)]
pub struct DueItem {
    pub serial: u32,
    pub kind: u32,
    pub cookie: u64,
}

/// The handles that are run down, by rising serial.
pub type DueItems = Items<DueItem>;

/// One event of a group.
#[derive(Debug, Drop)]
pub enum Entry {
    /// A connection joins the group. Connections are numbered from 1.
    Join {
        conn: u32,
    },
    /// A request is accepted as a call. Calls are numbered from 1.
    Accept {
        call: u32,
        asked: Asked,
    },
    /// A waiting call is handed to its manager.
    Take {
        call: u32,
        cookies: Cookies,
    },
    /// A waiting call is refused for the slot of that index.
    Deny {
        call: u32,
        slot: u8,
    },
    /// A call is cancelled: it ends where it waits, and is told where it runs.
    Cancel {
        call: u32,
    },
    /// A call is orphaned: it ends where it waits, and its answer is dropped where it runs.
    Orphan {
        call: u32,
    },
    /// A running call ends.
    End {
        call: u32,
        results: Outcomes,
        said: Said,
    },
    /// A connection is lost or closed.
    Leave {
        conn: u32,
    },
    /// The group ends: its last connection has left, and no call runs.
    Shut {
        due: DueItems,
    },
}

impl Entry {
    /// An equal one.
    ///
    /// # Errors
    /// `NoMemory` where memory runs out.
    pub fn copy(&self, alloc: Global) -> Result<Entry, NoMemory>
        ensures { IfOk result (λ copy. copy ≡ self.now) }
    {
        match self {
            Entry::Join { conn } => Ok(Entry::Join { conn: *conn }),
            Entry::Accept { call, asked } => Ok(Entry::Accept {
                call: *call,
                asked: asked.copy(alloc)?,
            }),
            Entry::Take { call, cookies } => Ok(Entry::Take {
                call: *call,
                cookies: cookies.copy(alloc)?,
            }),
            Entry::Deny { call, slot } => Ok(Entry::Deny {
                call: *call,
                slot: *slot,
            }),
            Entry::Cancel { call } => Ok(Entry::Cancel { call: *call }),
            Entry::Orphan { call } => Ok(Entry::Orphan { call: *call }),
            Entry::End {
                call,
                results,
                said,
            } => Ok(Entry::End {
                call: *call,
                results: results.copy(alloc)?,
                said: said.copy(alloc)?,
            }),
            Entry::Leave { conn } => Ok(Entry::Leave { conn: *conn }),
            Entry::Shut { due } => Ok(Entry::Shut {
                due: due.copy(alloc)?,
            }),
        }
    }
}

impl Exact for Slot {
    fn same(&self, other: &Self) -> bool {
        self == other
    }
}

impl Exact for Outcome {
    fn same(&self, other: &Self) -> bool {
        self == other
    }
}

impl Exact for DueItem {
    fn same(&self, other: &Self) -> bool {
        self == other
    }
}
