//! What happens in a step.

use rpc_base::WireHandle;

/// What happens on the connection of that name.
#[derive(Clone, Copy, Debug, PartialEq, Eq)]
pub enum Deed {
    /// It is opened, and binds to the probe and to the group of that id, or with 0 to a new one.
    Open {
        name: u32,
        group: u32,
    },
    /// It is lost.
    Lose {
        name: u32,
    },
    /// Its waiting call is to be taken.
    Run {
        name: u32,
    },
    /// Its running call is to be ended.
    Finish {
        name: u32,
    },
    /// The call of that id is to be cancelled.
    Cancel {
        name: u32,
        call: u32,
    },
    /// A call of that id asks for a handle, by `probe_open` of that number.
    Issue {
        name: u32,
        call: u32,
        number: u32,
    },
    /// A call of that id gives a handle back, by `probe_close`.
    Close {
        name: u32,
        call: u32,
        handle: WireHandle,
    },
}

/// A step: to which of the eight slots it belongs, from 0, and what happens.
#[derive(Clone, Copy, Debug, PartialEq, Eq)]
pub struct Step {
    pub slot: usize,
    pub deed: Deed,
}
