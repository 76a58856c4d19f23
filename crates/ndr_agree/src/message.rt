//! Values with parts, and messages.
ghost use Rattle.std.specs.Prelude.{◌≡◌, ◌↔◌, IsTrue};
ghost use Rattle.ndr_value.specs.Values.{val, vals, msg, VStruct, VUnion, VArray, VPtr};
ghost use Rattle.ndr_agree.specs.Same.{same, same_each, same_wire, same_wires, same_msg};

use crate::arrays::{bytes_are, is_octets};
use crate::leaves::{
    is_bool, is_byte, is_char, is_empty, is_enum, is_full, is_handle, is_int, is_null, is_text,
    is_uint,
};
use ndr_value::{Message, Value};
use rpc_base::WireHandle;

/// Whether two messages are the same: their values, the items of their heaps and their handles, each
/// in order. An array of bytes is the same in either form. It takes no memory.
pub fn same_message(message: &Message, other: &Message) -> bool
    ensures { IsTrue result ↔ (msg message.now ≡ msg other.now) }
{
    all_same(message, other)
}

fn all_same(message: &Message, other: &Message) -> bool
    ensures { result ≡ same_msg (msg message.now) (msg other.now) }
{
    each_same(message.values.as_slice(), other.values.as_slice())
        && each_same(message.heap.as_slice(), other.heap.as_slice())
        && wires_same(message.wires.as_slice(), other.wires.as_slice())
}

#[cycle(same)]
fn value_same(value: &Value, other: &Value) -> bool
    ensures { result ≡ same (val value.now) (val other.now) }
{
    match value {
        Value::Bool(own) => is_bool(*own, other),
        Value::Byte(own) => is_byte(*own, other),
        Value::Char(own) => is_char(*own, other),
        Value::Int(own) => is_int(*own, other),
        Value::Uint(own) => is_uint(*own, other),
        Value::Enum(own) => is_enum(*own, other),
        Value::Struct(members) => is_struct(members, other),
        Value::Union { tag, arm } => match arm {
            None => is_empty(*tag, other),
            Some(inner) => is_union(inner, *tag, other),
        },
        Value::Array(items) => is_array(items, other),
        Value::Octets(octets) => is_octets(octets.as_slice(), other),
        Value::Text(octets) => is_text(octets.as_slice(), other),
        Value::Ptr(pointed) => match pointed {
            None => is_null(other),
            Some(inner) => is_pointer(inner, other),
        },
        Value::Full(item) => is_full(*item, other),
        Value::Handle(slot) => is_handle(*slot, other),
    }
}

#[cycle(same)]
fn is_struct(members: &[Value], other: &Value) -> bool
    ensures { result ≡ same (VStruct (vals members.now)) (val other.now) }
{
    match other {
        Value::Struct(own) => each_same(members, own),
        _ => false,
    }
}

#[cycle(same)]
fn is_array(items: &[Value], other: &Value) -> bool
    ensures { result ≡ same (VArray (vals items.now)) (val other.now) }
{
    match other {
        Value::Array(own) => each_same(items, own),
        Value::Octets(own) => bytes_are(items, own.as_slice()),
        _ => false,
    }
}

#[cycle(same)]
fn is_union(value: &Value, tag: i64, other: &Value) -> bool
    ensures { result ≡ same (VUnion tag (val value.now)) (val other.now) }
{
    match other {
        Value::Union { tag: own, arm } => match arm {
            None => false,
            Some(inner) => tag == *own && value_same(value, inner),
        },
        _ => false,
    }
}

#[cycle(same)]
fn is_pointer(value: &Value, other: &Value) -> bool
    ensures { result ≡ same (VPtr (val value.now)) (val other.now) }
{
    match other {
        Value::Ptr(own) => match own {
            None => false,
            Some(inner) => value_same(value, inner),
        },
        _ => false,
    }
}

#[cycle(same)]
fn each_same(values: &[Value], others: &[Value]) -> bool
    ensures { result ≡ same_each (vals values.now) (vals others.now) }
{
    let mut rest = others;
    for value in values {
        match rest.split_first() {
            None => return false,
            Some((first, behind)) => {
                if !value_same(value, first) {
                    return false;
                }
                rest = behind;
            }
        }
    }
    rest.is_empty()
}

fn wire_same(wire: &WireHandle, other: &WireHandle) -> bool
    ensures { result ≡ same_wire wire.now other.now }
{
    wire.attributes == other.attributes && wire.id == other.id
}

fn wires_same(wires: &[WireHandle], others: &[WireHandle]) -> bool
    ensures { result ≡ same_wires wires.now others.now }
{
    let mut rest = others;
    for wire in wires {
        match rest.split_first() {
            None => return false,
            Some((first, behind)) => {
                if !wire_same(wire, first) {
                    return false;
                }
                rest = behind;
            }
        }
    }
    rest.is_empty()
}
