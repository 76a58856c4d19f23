//! Responses that are made from values.
ghost use Rattle.std.specs.Prelude.{◌≡◌, ◌∷◌, [], IfOk};
ghost use Rattle.ndr_value.specs.Values.{msg, vals};
ghost use Rattle.manager_api.specs.Answers.{AOut, ans};
ghost use Rattle.manager_api.specs.Responses as spec;

use crate::answer::{Answer, Kept, Kepts};
use ndr_value::{Message, Value, Values, Wires};
use rpc_base::{NoMemory, WireHandle};
use std::alloc::Global;

/// A message of these values without full pointers, and with a null handle for each handle in it.
///
/// # Errors
///
/// `NoMemory` where there is no memory for it.
pub fn response(alloc: Global, values: Values, handles: usize) -> Result<Message, NoMemory>
    ensures { IfOk result (λ m. msg m ≡ spec.response (vals values.items) handles) }
{
    let wires = vec![in alloc; WireHandle::NULL; handles]?;
    Ok(Message {
        values,
        heap: Vec::new(alloc),
        wires: Wires::from_vec(wires),
    })
}

/// A response of one handle, with what becomes of it, and a status.
///
/// # Errors
///
/// `NoMemory` where there is no memory for it.
pub fn handle_and_status(alloc: Global, kept: Kept, status: u32) -> Result<Answer, NoMemory>
    ensures { IfOk result (λ a. ans a ≡ AOut (spec.handle_and_status status) (kept ∷ [])) }
{
    let mut values = Vec::new(alloc);
    values.push(Value::Handle(0))?;
    values.push(Value::Uint(u64::from(status)))?;
    let mut kepts = Kepts::new(alloc);
    kepts.push(kept)?;
    Ok(Answer::Out(response(alloc, values, 1)?, kepts))
}
