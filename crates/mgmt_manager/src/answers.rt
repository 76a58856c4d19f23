//! Parts of the answers.
ghost use Rattle.std.specs.Prelude.{◌≡◌, ◌+◌, ◌<◌, ◌^◌, IfOk, length, min, take};
ghost use Rattle.ndr_value.specs.Values.{msg, val, vals};
ghost use Rattle.mgmt_manager.specs.Fits.{AreSyntaxes, AreWords};
ghost use Rattle.mgmt_manager.specs.Steps as spec;

use desk_kit::{array, note_syntax, pointers, structure, syntax_value};
use manager_api::response;
use ndr_value::{Message, Value, Values, Wires};
use rpc_base::{NoMemory, SyntaxId};
use std::alloc::Global;

fn vector(alloc: Global, ids: &[SyntaxId]) -> Result<Value, NoMemory>
    requires { length ids.now + 1 < 2 ^ 32 }
    ensures { IfOk result (λ v. val v ≡ spec.vector ids.now) }
{
    let mut members = Vec::new(alloc);
    members.push(Value::Uint(ids.len() as u64))?;
    members.push(array(pointers(alloc, 1, ids.len() as u32)?))?;
    Ok(structure(members))
}

// The heap: the vector, and what it points to.
#[tactic(auto, using(desk_kit::proofs::Rows::rows))]
fn heap(alloc: Global, ids: &[SyntaxId]) -> Result<Values, NoMemory>
    requires { length ids.now + 1 < 2 ^ 32 }
    ensures values { IfOk result (λ vs. vals vs.items ≡ spec.heap ids.now) }
    ensures fits { IfOk result (λ vs. AreSyntaxes ids.now) }
{
    let mut heap = Vec::new(alloc);
    heap.push(vector(alloc, ids)?)?;
    for id in ids {
        note_syntax(id);
        heap.push(syntax_value(alloc, id)?)?;
    }
    Ok(heap)
}

/// The served interfaces.
///
/// # Errors
///
/// `NoMemory` where there is no memory for the message.
pub fn ids_message(alloc: Global, ids: &[SyntaxId]) -> Result<Message, NoMemory>
    requires { length ids.now + 1 < 2 ^ 32 }
    ensures values { IfOk result (λ m. msg m ≡ spec.ids_message ids.now) }
    ensures fits { IfOk result (λ m. AreSyntaxes ids.now) }
{
    let mut values = Vec::new(alloc);
    values.push(Value::Full(Some(0)))?;
    values.push(Value::Uint(0))?;
    Ok(Message {
        values,
        heap: heap(alloc, ids)?,
        wires: Wires::new(alloc),
    })
}

#[tactic(auto, using(desk_kit::proofs::Rows::rows))]
fn uints(alloc: Global, numbers: &[u32]) -> Result<Values, NoMemory>
    ensures values { IfOk result (λ vs. vals vs.items ≡ spec.uints numbers.now) }
    ensures fits { AreWords numbers.now }
{
    let mut values = Vec::new(alloc);
    for number in numbers {
        values.push(Value::Uint(u64::from(*number)))?;
    }
    Ok(values)
}

/// The first of the numbers, as many as are asked for.
///
/// # Errors
///
/// `NoMemory` where there is no memory for the message.
pub fn stats_message(alloc: Global, asked: u64, numbers: [u32; 4]) -> Result<Message, NoMemory>
    ensures values { IfOk result (λ m. msg m ≡ spec.stats_message (min asked 4) numbers) }
    ensures fits { AreWords (take (min asked 4) numbers) }
    ensures given { length (take (min asked 4) numbers) ≡ min asked 4 }
{
    let given = asked.min(4);
    let statistics = uints(alloc, &numbers[..given as usize])?;
    let mut values = Vec::new(alloc);
    values.push(Value::Uint(given))?;
    values.push(array(statistics))?;
    values.push(Value::Uint(0))?;
    response(alloc, values, 0)
}

/// That the server listens.
///
/// # Errors
///
/// `NoMemory` where there is no memory for the message.
pub fn listening_message(alloc: Global) -> Result<Message, NoMemory>
    ensures { IfOk result (λ m. msg m ≡ spec.listening_message) }
{
    let mut values = Vec::new(alloc);
    values.push(Value::Uint(0))?;
    values.push(Value::Uint(1))?;
    response(alloc, values, 0)
}
