//! What counts and switches have to be.
ghost use Rattle.std.specs.Prelude.{◌≡◌, ◌≤◌, ◌^◌, pos, neg_ℤ, ◌≤ℤ◌, ◌<ℤ◌, map, take, slice_get, MatchOption, IfSome, None, Some};
ghost use Rattle.ndr_value.specs.Values.{val, vals, msg};
ghost use Rattle.ndr_table.specs.Tables.{op_form, param_form};
ghost use Rattle.ndr_model.specs.Stub as stub;
ghost use Rattle.ndr_model.specs.Named as spec;
ghost use Rattle.ndr_agree.specs.Views.{call_of, known_of};

use crate::call::Call;
use ndr_model::Way;
use ndr_table::{Op, Param};
use ndr_value::{Count, Message, Value};

/// A value, and the heap that it points into.
#[derive(Clone, Copy)]
pub(crate) struct Known<'a> {
    pub(crate) value: &'a Value,
    pub(crate) heap: &'a [Value],
}

pub(crate) fn goes(way: Way, param: &Param) -> bool
    ensures { result ≡ stub.goes way (param_form param.now) }
{
    match way {
        Way::Request => param.inward,
        Way::Response => param.outward,
    }
}

// How many of the first parameters go that way.
fn how_many(way: Way, params: &[Param], index: usize) -> usize
    ensures is { result ≡ spec.how_many way (take index (map param_form params.now)) }
    ensures small { result ≤ index }
{
    if index == 0 {
        return 0;
    }
    match params.split_first() {
        None => 0,
        Some((param, rest)) => {
            let more = how_many(way, rest, index - 1);
            if goes(way, param) { more + 1 } else { more }
        }
    }
}

fn param_at(op: &Op, index: usize) -> Option<&Param>
    ensures { MatchOption result (slice_get (op_form op.now).params index ≡ None) (λ p. slice_get (op_form op.now).params index ≡ Some (param_form p.now)) }
{
    op.params.get(index)
}

/// The value at that place.
pub(crate) fn value_at(values: &[Value], index: usize) -> Option<&Value>
    ensures { MatchOption result (spec.nth (vals values.now) index ≡ None) (λ v. spec.nth (vals values.now) index ≡ Some (val v.now)) }
{
    match values.get(index) {
        None => None,
        Some(value) => Some(value),
    }
}

// The value of a parameter in a message of that way.
fn sent<'a>(way: Way, op: &Op, message: &'a Message, index: u8) -> Option<Known<'a>>
    ensures { MatchOption result (spec.sent way (op_form op.now) (msg message.now) index ≡ None) (λ k. spec.sent way (op_form op.now) (msg message.now) index ≡ Some (known_of k)) }
{
    let index = index as usize;
    match param_at(op, index) {
        None => None,
        Some(param) => {
            if !goes(way, param) {
                return None;
            }
            let place = how_many(way, op.params.as_slice(), index);
            match value_at(message.values.as_slice(), place) {
                None => None,
                Some(value) => Some(Known {
                    value,
                    heap: message.heap.as_slice(),
                }),
            }
        }
    }
}

// The value of a parameter: in a response that of the request, where it doesn't come out.
fn parameter<'a>(call: &Call<'a>, index: u8) -> Option<Known<'a>>
    ensures { MatchOption result (spec.known (call_of call.now) index ≡ None) (λ k. spec.known (call_of call.now) index ≡ Some (known_of k)) }
{
    match sent(call.way, call.op, call.said, index) {
        Some(known) => Some(known),
        None => match call.asked {
            None => None,
            Some(asked) => sent(Way::Request, call.op, asked, index),
        },
    }
}

/// The number that a value is.
pub(crate) fn number(value: &Value) -> Option<i128>
    ensures is { result ≡ spec.number (val value.now) }
    ensures small { IfSome result (λ z. (neg_ℤ (pos (2 ^ 63)) ≤ℤ z) × (z <ℤ pos (2 ^ 64))) }
{
    match value {
        Value::Bool(truth) => Some(if *truth { 1 } else { 0 }),
        Value::Byte(octet) => Some(i128::from(*octet)),
        Value::Char(octet) => Some(i128::from(*octet)),
        Value::Int(number) => Some(i128::from(*number)),
        Value::Uint(number) => Some(i128::from(*number)),
        Value::Enum(name) => Some(i128::from(*name)),
        _ => None,
    }
}

fn added(value: &Value, plus: u8) -> Option<i128>
    ensures { result ≡ spec.added plus (spec.number (val value.now)) }
{
    match number(value) {
        None => None,
        Some(number) => Some(number + i128::from(plus)),
    }
}

fn item_added(heap: &[Value], item: u32, plus: u8) -> Option<i128>
    ensures { result ≡ spec.added plus (spec.number_of (spec.nth (vals heap.now) item)) }
{
    match value_at(heap, item as usize) {
        None => None,
        Some(value) => added(value, plus),
    }
}

// The number behind a pointer, or of the value.
fn pointed(heap: &[Value], plus: u8, value: &Value) -> Option<i128>
    ensures { result ≡ spec.pointed (vals heap.now) plus (val value.now) }
{
    match value {
        Value::Ptr(held) => match held {
            None => Some(0),
            Some(inner) => added(inner, plus),
        },
        Value::Full(item) => match item {
            None => Some(0),
            Some(item) => item_added(heap, *item, plus),
        },
        _ => added(value, plus),
    }
}

/// What a count or a tag has to be, in a body of those members.
pub(crate) fn named(call: &Call<'_>, body: &[Value], count: Count) -> Option<i128>
    ensures { result ≡ spec.named (call_of call.now) (vals body.now) count }
{
    match count {
        Count::Number(number) => Some(i128::from(number)),
        Count::Param {
            index,
            through,
            plus,
        } => match parameter(call, index) {
            None => None,
            Some(known) => {
                if through {
                    pointed(known.heap, plus, known.value)
                } else {
                    added(known.value, plus)
                }
            }
        },
        Count::Member { index, plus } => item_added(body, u32::from(index), plus),
    }
}
