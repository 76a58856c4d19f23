//! The arguments of a call.
ghost use Rattle.std.specs.Prelude.{◌≡◌, ◌++◌, [], IfOk, MatchOption, OnErr, OnOk, length, slice_get};
ghost use Rattle.std.specs.Option.{option_copied};
ghost use Rattle.ndr_value.specs.Values.{VText, msg, val, vals};
ghost use Rattle.manager_api.specs.Arguments as spec;

use ndr_value::{Message, Value};
use rpc_base::{NoMemory, Octets};
use std::alloc::Global;

fn item_at(values: &[Value], at: usize) -> Option<&Value>
    ensures { option_copied result ≡ slice_get values.now at }
{
    values.get(at)
}

// The value at a place.
fn value_at(message: &Message, at: usize) -> Option<&Value>
    ensures { MatchOption result (spec.value_at (msg message.now).values at ≡ VText []) (λ v. spec.value_at (msg message.now).values at ≡ val v.now) }
{
    item_at(&message.values, at)
}

/// The unsigned number of a value.
pub fn uint_of(value: &Value) -> u64
    ensures { result ≡ spec.uint_of (val value.now) }
{
    match value {
        Value::Uint(number) => *number,
        _ => 0,
    }
}

/// The text of a value, without its NUL.
pub fn text_of(value: &Value) -> &[u8]
    ensures { result.now ≡ spec.text_of (val value.now) }
{
    match value {
        Value::Text(text) => text.as_slice(),
        _ => &[],
    }
}

fn byte_of(value: &Value) -> u8
    ensures { result ≡ spec.byte_of (val value.now) }
{
    match value {
        Value::Byte(byte) => *byte,
        _ => 0,
    }
}

/// The unsigned number at a place of a message.
pub fn uint_at(message: &Message, at: usize) -> u64
    ensures { result ≡ spec.uint_at (msg message.now) at }
{
    match value_at(message, at) {
        Some(value) => uint_of(value),
        None => 0,
    }
}

/// The text at a place of a message, without its NUL.
pub fn text_at(message: &Message, at: usize) -> &[u8]
    ensures { result.now ≡ spec.text_at (msg message.now) at }
{
    match value_at(message, at) {
        Some(value) => text_of(value),
        None => &[],
    }
}

// The octets of bytes that stand one by one.
#[tactic(auto, using(crate::proofs::Places::rest))]
fn collected(alloc: Global, bytes: &[Value]) -> Result<Octets, NoMemory>
    ensures { IfOk result (λ octets. octets ≡ spec.bytes_in (vals bytes.now)) }
{
    let mut octets = Octets::new(alloc);
    for byte in bytes {
        octets.push(byte_of(byte))?;
    }
    Ok(octets)
}

/// Adds the octets of an array of bytes.
///
/// # Errors
///
/// `NoMemory` where there is no memory for them.
#[tactic(auto, using(crate::proofs::Places::arrays))]
pub fn append_value(alloc: Global, value: &Value, into: &mut Octets) -> Result<(), NoMemory>
    ensures ok { OnOk result (into.new ≡ into.old ++ spec.bytes_of (val value.now)) }
    ensures err { OnErr result (into.new ≡ into.old) }
{
    match value {
        Value::Octets(octets) => into.append(octets.as_slice()),
        Value::Array(bytes) => {
            let octets = collected(alloc, bytes)?;
            into.append(octets.as_slice())
        }
        _ => Ok(()),
    }
}

#[tactic(auto, using(crate::proofs::Places::lengths))]
fn value_len(value: &Value) -> usize
    ensures { result ≡ length (spec.bytes_of (val value.now)) }
{
    match value {
        Value::Octets(octets) => octets.len(),
        Value::Array(bytes) => bytes.len(),
        _ => 0,
    }
}

/// How many octets the array of bytes at a place of a message has.
pub fn bytes_len(message: &Message, at: usize) -> usize
    ensures { result ≡ length (spec.bytes_at (msg message.now) at) }
{
    match value_at(message, at) {
        Some(value) => value_len(value),
        None => 0,
    }
}

/// Adds the octets of the array of bytes at a place of a message.
///
/// # Errors
///
/// `NoMemory` where there is no memory for them.
pub fn append_bytes(
    alloc: Global,
    message: &Message,
    at: usize,
    into: &mut Octets,
) -> Result<(), NoMemory>
    ensures ok { OnOk result (into.new ≡ into.old ++ spec.bytes_at (msg message.now) at) }
    ensures err { OnErr result (into.new ≡ into.old) }
{
    match value_at(message, at) {
        Some(value) => append_value(alloc, value, into),
        None => Ok(()),
    }
}
