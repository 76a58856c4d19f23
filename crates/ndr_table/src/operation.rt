//! Operations, their parameters and their handles.

use ndr_value::Shape;
use rpc_base::{Items, Octets};

/// The numbers from `low` to `high`, both among them.
#[derive(Clone, Copy, Debug, PartialEq, Eq)]
pub struct Bounds {
    pub low: i64,
    pub high: i64,
}

/// A parameter. Those of type `handle_t` are not listed.
#[derive(Debug, Drop)]
pub struct Param {
    pub shape: Shape,
    /// It is part of a request.
    pub inward: bool,
    /// It is part of a response.
    pub outward: bool,
    /// The numbers that it may be (MIDL's attribute `range`). None: any of its shape.
    pub range: Option<Bounds>,
}

/// The parameters of an operation, in order.
pub type Params = Vec<Param>;

/// An operation.
#[derive(Debug, Drop)]
pub struct Op {
    pub name: Octets,
    pub params: Params,
    /// None: it has no result.
    pub result: Option<Shape>,
    /// Whether the result is of type `error_status_t`.
    pub status: bool,
    /// Whether nobody waits for an answer.
    pub maybe: bool,
}

/// The operations of an interface, by number.
pub type Ops = Vec<Op>;

/// A parameter that is a context handle, or points to one.
#[derive(Clone, Copy, Debug, PartialEq, Eq)]
pub struct HandleUse {
    /// The number of its handle type in the interface, from 0.
    pub kind: u16,
    pub inward: bool,
    pub outward: bool,
    /// Whether calls with it come one after another.
    pub serialised: bool,
}

/// The handles of an operation, in the order of its parameters.
pub type HandleUses = Items<HandleUse>;

/// The handles of each operation, by number.
pub type Uses = Vec<HandleUses>;
