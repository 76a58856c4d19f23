//! The max_count that stands in front of a structure.
ghost use Rattle.std.specs.Prelude.{◌≡◌, true};
ghost use Rattle.ndr_value.specs.Forms.{form, forms};
ghost use Rattle.ndr_value.specs.Values.{val, vals};
ghost use Rattle.ndr_table.specs.Ordered.{is_size};
ghost use Rattle.ndr_model.specs.Fronts as spec;
ghost use Rattle.ndr_write.specs.Views.{front_octets, under, Puts, front_of, last_front, opening_of, LaidOut};

use crate::arrays::size_of;
use crate::numbers::{gap, number};
use crate::state::Writer;
use ndr_value::{ArrayKind, Shape, Value};
use rpc_base::NoMemory;

fn front_array(writer: &Writer<'_>, body: &[Value], kind: &ArrayKind, value: &Value) -> u64
    ensures { result ≡ under writer.now spec.front_array (vals body.now) kind.now (val value.now) }
{
    match value {
        Value::Array(values) => {
            let count = values.as_slice().len() as u64;
            u64::from(size_of(writer, body, kind, count))
        }
        Value::Octets(octets) => {
            let count = octets.len() as u64;
            u64::from(size_of(writer, body, kind, count))
        }
        _ => 0,
    }
}

fn front_text(writer: &Writer<'_>, value: &Value) -> u64
    ensures { result ≡ under writer.now spec.front_text (val value.now) }
{
    match value {
        Value::Text(octets) => octets.as_slice().len() as u64 + 1,
        _ => 0,
    }
}

#[tactic(auto, unfolding(ndr_model::specs::Fronts::front))]
#[cycle(front)]
fn front_count(fuel: u32, writer: &Writer<'_>, body: &[Value], shape: &Shape, value: &Value) -> u64
    ensures { result ≡ front_of writer.now fuel (vals body.now) (form shape.now) (val value.now) }
{
    if fuel == 0 {
        return 0;
    }
    front_one(fuel - 1, writer, body, shape, value)
}

#[cycle(front)]
fn front_one(fuel: u32, writer: &Writer<'_>, body: &[Value], shape: &Shape, value: &Value) -> u64
    ensures { result ≡ under writer.now spec.front_at (front_of writer.now fuel) (vals body.now) (form shape.now) (val value.now) }
{
    match shape {
        Shape::Named(number, _) => match writer.named(*number) {
            None => 0,
            Some(other) => front_count(fuel, writer, body, other, value),
        },
        Shape::Struct(members) => front_struct(fuel, writer, members, value),
        Shape::Array(kind, _) => front_array(writer, body, kind, value),
        Shape::Text(_) => front_text(writer, value),
        _ => 0,
    }
}

#[cycle(front)]
fn front_struct(fuel: u32, writer: &Writer<'_>, members: &[Shape], value: &Value) -> u64
    ensures { result ≡ under writer.now spec.front_struct (front_of writer.now fuel) (forms members.now) (val value.now) }
{
    match value {
        Value::Struct(values) => front_last(fuel, writer, members, values),
        _ => 0,
    }
}

// That of the last member.
#[cycle(front)]
fn front_last(fuel: u32, writer: &Writer<'_>, members: &[Shape], values: &[Value]) -> u64
    ensures { result ≡ last_front writer.now fuel (vals values.now) (forms members.now) }
{
    if members.is_empty() {
        return 0;
    }
    let last = members.len() - 1;
    match values.get(last) {
        None => 0,
        Some(value) => front_count(fuel, writer, values, &members[last], value),
    }
}

// The max_count, where it stands in front.
fn put_front(
    fuel: u32,
    writer: &Writer<'_>,
    stands: bool,
    members: &[Shape],
    values: &[Value],
    into: &mut Vec<u8>,
) -> Result<(), NoMemory>
    ensures { Puts result into.old.items into.new.items (front_octets writer.now.order stands (last_front writer.now fuel (vals values.now) (forms members.now))) }
{
    if !stands {
        return Ok(());
    }
    number(
        writer.order,
        4,
        front_last(fuel, writer, members, values),
        into,
    )
}

/// What stands in front of a structure's members: the max_count, where the structure `opens` with one
/// that hasn't `moved` further, and the structure's gap.
pub(crate) fn put_opening(
    fuel: u32,
    writer: &Writer<'_>,
    moved: bool,
    opens: bool,
    align: u8,
    members: &[Shape],
    values: &[Value],
    into: &mut Vec<u8>,
) -> Result<(), NoMemory>
    requires { is_size align ≡ true }
    ensures { LaidOut writer.now opens align (forms members.now) (Puts result into.old.items into.new.items (opening_of writer.now fuel moved (forms members.now) (vals values.now))) }
{
    put_front(fuel, writer, !moved && opens, members, values, into)?;
    gap(align, into)
}
