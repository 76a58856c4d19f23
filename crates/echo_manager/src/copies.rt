//! Copies of values, whose items of the heap have other numbers.
ghost use Rattle.std.specs.Prelude.{◌≡◌, IfOk};
ghost use Rattle.ndr_value.specs.Values.{val, vals};
ghost use Rattle.echo_manager.specs.Numbered as spec;

use crate::met::Met;
use desk_kit::{array, structure};
use ndr_value::{Value, Values};
use rpc_base::NoMemory;
use std::alloc::Global;

fn item(number: &Option<u32>, met: &Met) -> Result<Option<u32>, NoMemory>
    ensures { IfOk result (λ n. n ≡ spec.new_item met.now number.now) }
{
    match number {
        None => Ok(None),
        Some(number) => Ok(Some(met.number(*number)?)),
    }
}

/// A copy of a value, with the numbers of what was met.
///
/// # Errors
///
/// `NoMemory` where there is no memory for the copy.
#[tactic(auto, using(crate::proofs::Anew::copies))]
#[cycle(numbered)]
pub fn numbered(value: &Value, met: &Met, alloc: Global) -> Result<Value, NoMemory>
    ensures { IfOk result (λ copy. val copy ≡ spec.numbered met.now (val value.now)) }
{
    match value {
        Value::Bool(bit) => Ok(Value::Bool(*bit)),
        Value::Byte(octet) => Ok(Value::Byte(*octet)),
        Value::Char(octet) => Ok(Value::Char(*octet)),
        Value::Int(number) => Ok(Value::Int(*number)),
        Value::Uint(number) => Ok(Value::Uint(*number)),
        Value::Enum(name) => Ok(Value::Enum(*name)),
        Value::Struct(members) => Ok(structure(all_numbered(members, met, alloc)?)),
        Value::Union { tag, arm } => match arm {
            None => Ok(Value::Union {
                tag: *tag,
                arm: None,
            }),
            Some(inner) => Ok(Value::Union {
                tag: *tag,
                arm: Some(boxed(inner, met, alloc)?),
            }),
        },
        Value::Array(items) => Ok(array(all_numbered(items, met, alloc)?)),
        Value::Octets(octets) => Ok(Value::Octets(octets.copy(alloc)?)),
        Value::Text(text) => Ok(Value::Text(text.copy(alloc)?)),
        Value::Ptr(pointed) => match pointed {
            None => Ok(Value::Ptr(None)),
            Some(inner) => Ok(Value::Ptr(Some(boxed(inner, met, alloc)?))),
        },
        Value::Full(number) => Ok(Value::Full(item(number, met)?)),
        Value::Handle(slot) => Ok(Value::Handle(*slot)),
    }
}

#[cycle(numbered)]
fn boxed(value: &Value, met: &Met, alloc: Global) -> Result<Box<Value>, NoMemory>
    ensures { IfOk result (λ copy. val copy.value ≡ spec.numbered met.now (val value.now)) }
{
    let copy = numbered(value, met, alloc)?;
    Ok(Box::new(alloc, copy)?)
}

#[tactic(auto, using(desk_kit::proofs::Rows::rows))]
#[cycle(numbered)]
fn all_numbered(values: &[Value], met: &Met, alloc: Global) -> Result<Values, NoMemory>
    ensures { IfOk result (λ copies. vals copies.items ≡ spec.all_numbered met.now (vals values.now)) }
{
    let mut copies = Vec::new(alloc);
    for value in values {
        copies.push(numbered(value, met, alloc)?)?;
    }
    Ok(copies)
}
