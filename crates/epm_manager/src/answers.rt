//! The answers.
ghost use Rattle.std.specs.Prelude.{◌≡◌, ◌∷◌, [], IfOk};
ghost use Rattle.ndr_value.specs.Values.{vals};
ghost use Rattle.manager_api.specs.Answers.{AOut, ans};
ghost use Rattle.epm_manager.specs.Answered as spec;

use desk_kit::array;
use manager_api::{Answer, Kept, Kepts, response};
use ndr_value::{Message, Value, Values, Wires};
use rpc_base::{NoMemory, WireHandle};
use std::alloc::Global;

/// A status alone.
///
/// # Errors
///
/// `NoMemory` where there is no memory for it.
pub fn status_alone(alloc: Global, status: u32) -> Result<Answer, NoMemory>
    ensures { IfOk result (λ a. ans a ≡ AOut (spec.status_alone status) []) }
{
    let mut values = Vec::new(alloc);
    values.push(Value::Uint(u64::from(status)))?;
    Ok(Answer::Out(response(alloc, values, 0)?, Kepts::new(alloc)))
}

/// A handle and what becomes of it, items that point to the towers, and a status.
///
/// # Errors
///
/// `NoMemory` where there is no memory for it.
pub fn listing(
    alloc: Global,
    items: Values,
    towers: Values,
    status: u32,
    kept: Kept,
) -> Result<Answer, NoMemory>
    ensures { IfOk result (λ a. ans a ≡ AOut (spec.listing (vals items.items) (vals towers.items) status) (kept ∷ [])) }
{
    let mut values = Vec::new(alloc);
    values.push(Value::Handle(0))?;
    values.push(Value::Uint(items.len() as u64))?;
    values.push(array(items))?;
    values.push(Value::Uint(u64::from(status)))?;
    let mut wires = Wires::new(alloc);
    wires.push(WireHandle::NULL)?;
    let mut kepts = Kepts::new(alloc);
    kepts.push(kept)?;
    let message = Message {
        values,
        heap: towers,
        wires,
    };
    Ok(Answer::Out(message, kepts))
}
