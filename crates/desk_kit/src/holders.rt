//! Values that hold others.
ghost use Rattle.std.specs.Prelude.{◌≡◌, ◌<◌, ◌+◌, ◌^◌, IfOk};
ghost use Rattle.ndr_value.specs.Values.{VArray, VStruct, val, vals};
ghost use Rattle.desk_kit.specs.MessageParts as spec;

use ndr_value::{Value, Values};
use rpc_base::NoMemory;
use std::alloc::Global;

/// A structure of members.
pub fn structure(members: Values) -> Value
    ensures { val result ≡ VStruct (vals members.items) }
{
    Value::Struct(members)
}

/// An array of elements.
pub fn array(items: Values) -> Value
    ensures { val result ≡ VArray (vals items.items) }
{
    Value::Array(items)
}

/// Full pointers to so many items of the heap, from that number on.
///
/// # Errors
///
/// `NoMemory` where there is no memory for them.
#[tactic(auto, using(crate::proofs::Rows::rows))]
pub fn pointers(alloc: Global, first: u32, count: u32) -> Result<Values, NoMemory>
    requires { first + count < 2 ^ 32 }
    ensures { IfOk result (λ vs. vals vs.items ≡ spec.pointers first count) }
{
    let mut pointers = Vec::new(alloc);
    for at in 0..count {
        pointers.push(Value::Full(Some(first + at)))?;
    }
    Ok(pointers)
}
