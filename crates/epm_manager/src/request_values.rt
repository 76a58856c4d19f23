//! Parts of values.
ghost use Rattle.std.specs.Prelude.{◌≡◌, ◌++◌, [], MatchOption, OnErr, OnOk};
ghost use Rattle.std.specs.Int.{to_be_bytes, w16, w32};
ghost use Rattle.std.specs.Option.{option_copied};
ghost use Rattle.std.specs.Prelude.{slice_get};
ghost use Rattle.ndr_value.specs.Values.{VText, val, vals};
ghost use Rattle.manager_api.specs.Arguments.{bytes_of, text_of as text_of_spec, uint_of as uint_of_spec, value_at as value_at_spec};
ghost use Rattle.epm_manager.specs.Asked as spec;

use manager_api::{append_value, text_of, uint_of};
use ndr_value::Value;
use rpc_base::{NoMemory, Octets};
use std::alloc::Global;

fn item_at(values: &[Value], at: usize) -> Option<&Value>
    ensures { option_copied result ≡ slice_get values.now at }
{
    values.get(at)
}

/// The value at a place.
pub fn value_at(values: &[Value], at: usize) -> Option<&Value>
    ensures { MatchOption result (value_at_spec (vals values.now) at ≡ VText []) (λ v. value_at_spec (vals values.now) at ≡ val v.now) }
{
    item_at(values, at)
}

/// The unsigned number at a place.
pub fn uint_in(values: &[Value], at: usize) -> u64
    ensures { result ≡ uint_of_spec (value_at_spec (vals values.now) at) }
{
    match value_at(values, at) {
        Some(value) => uint_of(value),
        None => 0,
    }
}

/// The text at a place, without its NUL.
pub fn text_in(values: &[Value], at: usize) -> &[u8]
    ensures { result.now ≡ text_of_spec (value_at_spec (vals values.now) at) }
{
    match value_at(values, at) {
        Some(value) => text_of(value),
        None => &[],
    }
}

/// Adds the octets of the array of bytes at a place.
///
/// # Errors
///
/// `NoMemory` where there is no memory for them: the octets are as before then.
pub fn append_in(
    alloc: Global,
    values: &[Value],
    at: usize,
    into: &mut Octets,
) -> Result<(), NoMemory>
    ensures ok { OnOk result (into.new ≡ into.old ++ bytes_of (value_at_spec (vals values.now) at)) }
    ensures err { OnErr result (into.new ≡ into.old) }
{
    match value_at(values, at) {
        Some(value) => append_value(alloc, value, into),
        None => Ok(()),
    }
}

/// The members of a structure.
#[tactic(auto, using(ndr_value::proofs::Mirror::val_struct))]
pub fn members_of(value: &Value) -> &[Value]
    ensures { vals result.now ≡ spec.members_of (val value.now) }
{
    match value {
        Value::Struct(members) => members.as_slice(),
        _ => &[],
    }
}

fn item_of(value: &Value) -> Option<usize>
    ensures { result ≡ spec.item_of (val value.now) }
{
    match value {
        Value::Full(Some(item)) => Some(*item as usize),
        _ => None,
    }
}

/// What the full pointer at a place points to.
pub fn pointed_to<'a>(heap: &'a [Value], values: &[Value], at: usize) -> Option<&'a Value>
    ensures { MatchOption result (spec.pointed_to (vals heap.now) (value_at_spec (vals values.now) at) ≡ VText []) (λ v. spec.pointed_to (vals heap.now) (value_at_spec (vals values.now) at) ≡ val v.now) }
{
    match value_at(values, at) {
        Some(value) => match item_of(value) {
            Some(item) => value_at(heap, item),
            None => None,
        },
        None => None,
    }
}

/// Adds the lower four octets of a number, most significant first.
///
/// # Errors
///
/// `NoMemory` where there is no memory for them: the octets are as before then.
pub fn append_u32(number: u64, into: &mut Octets) -> Result<(), NoMemory>
    ensures ok { OnOk result (into.new ≡ into.old ++ to_be_bytes w32 number) }
    ensures err { OnErr result (into.new ≡ into.old) }
{
    into.append(&number.to_be_bytes()[4..])
}

/// Adds the lower two octets of a number, most significant first.
///
/// # Errors
///
/// `NoMemory` where there is no memory for them: the octets are as before then.
pub fn append_u16(number: u64, into: &mut Octets) -> Result<(), NoMemory>
    ensures ok { OnOk result (into.new ≡ into.old ++ to_be_bytes w16 number) }
    ensures err { OnErr result (into.new ≡ into.old) }
{
    into.append(&number.to_be_bytes()[6..])
}
