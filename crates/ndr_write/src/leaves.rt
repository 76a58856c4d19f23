//! Parts without parts and pointers.
ghost use Rattle.std.specs.Prelude.{◌≡◌, ◌<◌, ◌^◌, true, slice_get};
ghost use Rattle.ndr_value.specs.Forms.{form};
ghost use Rattle.ndr_value.specs.Values.{val};
ghost use Rattle.ndr_agree.specs.Views.{call_of};
ghost use Rattle.ndr_table.specs.Ordered.{is_size};
ghost use Rattle.ndr_arrays.specs.Written.{both};
ghost use Rattle.ndr_model.specs.Pieces as pieces;
ghost use Rattle.ndr_model.specs.Written as spec;
ghost use Rattle.ndr_write.specs.Views.{under, Puts};

use crate::numbers::{gap, natural, number, signed};
use crate::state::Writer;
use ndr_arrays::write_text;
use ndr_value::{Shape, Value};
use rpc_base::{NoMemory, WireHandle, put_handle};

fn wire_at(writer: &Writer<'_>, slot: u8) -> Option<WireHandle>
    ensures { result ≡ slice_get (call_of writer.now.call).said.wires slot }
{
    match writer.call.said.wires.get(slot as usize) {
        None => None,
        Some(wire) => Some(*wire),
    }
}

fn put_wire(writer: &Writer<'_>, slot: u8, into: &mut Vec<u8>) -> Result<(), NoMemory>
    ensures { Puts result into.old.items into.new.items (under writer.now spec.wire (slice_get (call_of writer.now.call).said.wires slot)) }
{
    match wire_at(writer, slot) {
        None => Ok(()),
        Some(wire) => {
            gap(4, into)?;
            put_handle(writer.order, &wire, into)
        }
    }
}

// A text of an array of that size, or of any.
fn put_text(
    writer: &Writer<'_>,
    size: Option<u32>,
    octets: &[u8],
    moved: bool,
    into: &mut Vec<u8>,
) -> Result<(), NoMemory>
    ensures { Puts result into.old.items into.new.items (under writer.now spec.text size octets.now moved) }
{
    if octets.len() < (1 << 32) - 1 {
        write_text(size, writer.order, octets, !moved, into)
    } else {
        Ok(())
    }
}

/// A value without parts and pointers, of a shape of its kind.
pub(crate) fn put_leaf(
    writer: &Writer<'_>,
    moved: bool,
    shape: &Shape,
    value: &Value,
    into: &mut Vec<u8>,
) -> Result<(), NoMemory>
    ensures { Puts result into.old.items into.new.items (under writer.now spec.leaf moved (form shape.now) (val value.now)) }
{
    match shape {
        Shape::Bool => match value {
            Value::Bool(b) => number(writer.order, 1, u64::from(*b), into),
            _ => Ok(()),
        },
        Shape::Byte => match value {
            Value::Byte(octet) => number(writer.order, 1, u64::from(*octet), into),
            _ => Ok(()),
        },
        Shape::Char => match value {
            Value::Char(octet) => number(writer.order, 1, u64::from(*octet), into),
            _ => Ok(()),
        },
        Shape::Int(size) => match value {
            Value::Int(z) => signed(writer.order, *size, *z, into),
            _ => Ok(()),
        },
        Shape::Uint(size) => match value {
            Value::Uint(n) => number(writer.order, *size, *n, into),
            _ => Ok(()),
        },
        Shape::Enum(_) => match value {
            Value::Enum(name) => number(writer.order, 2, u64::from(*name), into),
            _ => Ok(()),
        },
        Shape::Text(size) => match value {
            Value::Text(octets) => put_text(writer, *size, octets.as_slice(), moved, into),
            _ => Ok(()),
        },
        Shape::Handle(_) => match value {
            Value::Handle(slot) => put_wire(writer, *slot, into),
            _ => Ok(()),
        },
        _ => Ok(()),
    }
}

// A union's tag, as a number of its kind.
fn put_number(
    writer: &Writer<'_>,
    kind: &Shape,
    tag: i64,
    into: &mut Vec<u8>,
) -> Result<(), NoMemory>
    ensures { Puts result into.old.items into.new.items (under writer.now spec.tag (form kind.now) tag) }
{
    match kind {
        Shape::Int(size) => signed(writer.order, *size, tag, into),
        Shape::Uint(size) => number(writer.order, *size, natural(tag), into),
        Shape::Enum(_) => number(writer.order, 2, natural(tag), into),
        _ => number(writer.order, 1, natural(tag), into),
    }
}

/// A union's tag, at the union's alignment.
pub(crate) fn put_tag(
    writer: &Writer<'_>,
    align: u8,
    kind: &Shape,
    tag: i64,
    into: &mut Vec<u8>,
) -> Result<(), NoMemory>
    requires { is_size align ≡ true }
    ensures { Puts result into.old.items into.new.items (both (pieces.gap align) (under writer.now spec.tag (form kind.now) tag)) }
{
    gap(align, into)?;
    put_number(writer, kind, tag, into)
}
