//! Values, and the messages that they make up.

use rpc_base::{Items, Octets, WireHandle};

/// A list of values.
pub type Values = Vec<Value>;

/// Context handles as they travel.
pub type Wires = Items<WireHandle>;

/// A value of a shape. A value of a `Ref` is the value that it points to.
#[derive(Debug, Drop)]
pub enum Value {
    Bool(bool),
    Byte(u8),
    Char(u8),
    Int(i64),
    Uint(u64),
    Enum(u16),
    Struct(Values),
    Union { tag: i64, arm: Option<Box<Value>> },
    Array(Values),
    /// An array of `Byte` values by its octets: the same array as `Array` with those values.
    Octets(Octets),
    Text(Octets),
    Ptr(Option<Box<Value>>),
    /// An index of the heap.
    Full(Option<u32>),
    /// A place in the message's `wires`.
    Handle(u8),
}

/// The values of the parameters of one way.
#[derive(Debug, Drop)]
pub struct Message {
    pub values: Values,
    pub heap: Values,
    pub wires: Wires,
}
