//! The flat part of a value.
ghost use Rattle.std.specs.Prelude.{◌≡◌, ◌&&◌, ◌||◌, true, Some, None, MatchOption};
ghost use Rattle.ndr_value.specs.Forms.{form, forms, body};
ghost use Rattle.ndr_value.specs.Fits.{arm_of};
ghost use Rattle.ndr_value.specs.Values.{val, vals};
ghost use Rattle.ndr_table.specs.Aligned.{is_last};
ghost use Rattle.ndr_table.specs.Ordered.{is_size};
ghost use Rattle.ndr_model.specs.Written as spec;
ghost use Rattle.ndr_agree.specs.Views.{union_form};
ghost use Rattle.ndr_write.specs.Views.{octets_only, under, Adds, flat_of, one_of, struct_of, union_of, LaidOut, IsAligned};

use crate::arrays::put_counts;
use crate::bytes::flat_octets;
use crate::front::put_opening;
use crate::leaves::{put_leaf, put_tag};
use crate::pointers::{point, put_full, put_unique};
use crate::state::{Out, Pending, Pointed, Writer};
use ndr_value::{Arm, ArrayKind, Shape, Value, selected_arm, tag_fits};
use rpc_base::NoMemory;

/// Adds the flat part of a value, and what its pointers point to at the end of `behind`. `moved`: its
/// max_count stands in front.
#[tactic(auto, unfolding(ndr_model::specs::Written::flat))]
#[cycle(flat)]
pub(crate) fn flat_value<'a>(
    fuel: u32,
    writer: &Writer<'a>,
    body: &'a [Value],
    moved: bool,
    shape: &'a Shape,
    value: &'a Value,
    out: &mut Out,
    behind: &mut Vec<Pending<'a>>,
) -> Result<(), NoMemory>
    ensures { Adds result out.old behind.old.items out.new behind.new.items (flat_of writer.now fuel (vals body.now) moved (form shape.now) (val value.now)) }
{
    if fuel == 0 {
        return Ok(());
    }
    flat_one(fuel - 1, writer, body, moved, shape, value, out, behind)
}

#[cycle(flat)]
fn flat_one<'a>(
    fuel: u32,
    writer: &Writer<'a>,
    body: &'a [Value],
    moved: bool,
    shape: &'a Shape,
    value: &'a Value,
    out: &mut Out,
    behind: &mut Vec<Pending<'a>>,
) -> Result<(), NoMemory>
    ensures { Adds result out.old behind.old.items out.new behind.new.items (one_of writer.now fuel (vals body.now) moved (form shape.now) (val value.now)) }
{
    match shape {
        Shape::Named(number, _) => match writer.named(*number) {
            None => Ok(()),
            Some(other) => flat_value(fuel, writer, body, moved, other, value, out, behind),
        },
        Shape::Struct(members) => {
            let opens = writer.call.table.ends_open(shape);
            let align = writer.call.table.align(shape);
            flat_struct(
                fuel, writer, moved, opens, align, members, value, out, behind,
            )
        }
        Shape::Union { tag, arms } => {
            let align = writer.call.table.align(shape);
            flat_union(fuel, writer, align, tag, arms, value, out, behind)
        }
        Shape::Array(kind, inner) => {
            flat_array(fuel, writer, body, moved, kind, inner, value, out, behind)
        }
        Shape::Ref(inner) => {
            let pending = Pending {
                body,
                shape: inner,
                what: Pointed::Value(value),
            };
            point(writer, pending, out, behind)
        }
        Shape::Unique(inner) => put_unique(writer, body, inner, value, out, behind),
        Shape::Full(inner) => put_full(writer, body, inner, value, out, behind),
        Shape::Bool => flat_leaf(writer, moved, shape, value, out),
        Shape::Byte => flat_leaf(writer, moved, shape, value, out),
        Shape::Char => flat_leaf(writer, moved, shape, value, out),
        Shape::Int(_) => flat_leaf(writer, moved, shape, value, out),
        Shape::Uint(_) => flat_leaf(writer, moved, shape, value, out),
        Shape::Enum(_) => flat_leaf(writer, moved, shape, value, out),
        Shape::Text(_) => flat_leaf(writer, moved, shape, value, out),
        Shape::Handle(_) => flat_leaf(writer, moved, shape, value, out),
    }
}

fn flat_leaf(
    writer: &Writer<'_>,
    moved: bool,
    shape: &Shape,
    value: &Value,
    out: &mut Out,
) -> Result<(), NoMemory>
    ensures { (b : _) → Adds result out.old b out.new b (octets_only (under writer.now spec.leaf moved (form shape.now) (val value.now))) }
{
    put_leaf(writer, moved, shape, value, &mut out.octets)
}

// Whether the max_count of a structure's last member stands in front of it.
fn is_fronted(moved: bool, opens: bool) -> bool
    ensures { result ≡ (moved || opens) }
{
    moved || opens
}

#[cycle(flat)]
fn flat_struct<'a>(
    fuel: u32,
    writer: &Writer<'a>,
    moved: bool,
    opens: bool,
    align: u8,
    members: &'a [Shape],
    value: &'a Value,
    out: &mut Out,
    behind: &mut Vec<Pending<'a>>,
) -> Result<(), NoMemory>
    requires { is_size align ≡ true }
    ensures { LaidOut writer.now opens align (forms members.now) (Adds result out.old behind.old.items out.new behind.new.items (struct_of writer.now fuel moved (forms members.now) (val value.now))) }
{
    match value {
        Value::Struct(values) => {
            put_opening(
                fuel,
                writer,
                moved,
                opens,
                align,
                members,
                values,
                &mut out.octets,
            )?;
            let fronted = is_fronted(moved, opens);
            flat_members(fuel, writer, fronted, members, values, out, behind)
        }
        _ => Ok(()),
    }
}

// The max_count of the last member alone stands in front.
#[tactic(auto, using(ndr_table::proofs::Aligns::last_is))]
fn for_last(moved: bool, others: &[Shape]) -> bool
    ensures { result ≡ (moved && is_last (forms others.now)) }
{
    moved && others.is_empty()
}

// Members, in the body that they are.
#[cycle(flat)]
fn flat_members<'a>(
    fuel: u32,
    writer: &Writer<'a>,
    moved: bool,
    members: &'a [Shape],
    values: &'a [Value],
    out: &mut Out,
    behind: &mut Vec<Pending<'a>>,
) -> Result<(), NoMemory>
    ensures { Adds result out.old behind.old.items out.new behind.new.items (under writer.now spec.members (flat_of writer.now fuel) (vals values.now) moved (forms members.now) (vals values.now)) }
{
    let mut rest = members;
    for value in values {
        match rest.split_first() {
            None => return Ok(()),
            Some((member, others)) => {
                let last = for_last(moved, others);
                flat_value(fuel, writer, values, last, member, value, out, behind)?;
                rest = others;
            }
        }
    }
    Ok(())
}

// The arm that a tag selects, where it is of the union's kind.
fn arm_for<'a>(kind: &Shape, arms: &'a [Arm], tag: i64) -> Option<&'a Arm>
    ensures { MatchOption result (arm_of (union_form kind.now arms.now) tag ≡ None) (λ a. arm_of (union_form kind.now arms.now) tag ≡ Some (body a.now.shape)) }
{
    if tag_fits(kind, tag) {
        selected_arm(arms, tag)
    } else {
        None
    }
}

#[cycle(flat)]
fn flat_arm<'a>(
    fuel: u32,
    writer: &Writer<'a>,
    kind: &Shape,
    arms: &'a [Arm],
    tag: i64,
    value: &'a Value,
    out: &mut Out,
    behind: &mut Vec<Pending<'a>>,
) -> Result<(), NoMemory>
    ensures { Adds result out.old behind.old.items out.new behind.new.items (under writer.now spec.arm_piece (flat_of writer.now fuel) (arm_of (union_form kind.now arms.now) tag) (val value.now)) }
{
    match arm_for(kind, arms, tag) {
        None => Ok(()),
        Some(arm) => match &arm.shape {
            None => Ok(()),
            Some(shape) => flat_value(fuel, writer, &[], false, shape, value, out, behind),
        },
    }
}

#[cycle(flat)]
fn flat_union<'a>(
    fuel: u32,
    writer: &Writer<'a>,
    align: u8,
    kind: &Shape,
    arms: &'a [Arm],
    value: &'a Value,
    out: &mut Out,
    behind: &mut Vec<Pending<'a>>,
) -> Result<(), NoMemory>
    requires { is_size align ≡ true }
    ensures { IsAligned writer.now align (union_form kind.now arms.now) → Adds result out.old behind.old.items out.new behind.new.items (union_of writer.now fuel kind.now arms.now (val value.now)) }
{
    match value {
        Value::Union { tag, arm } => {
            put_tag(writer, align, kind, *tag, &mut out.octets)?;
            match arm {
                None => Ok(()),
                Some(inner) => flat_arm(fuel, writer, kind, arms, *tag, inner, out, behind),
            }
        }
        _ => Ok(()),
    }
}

#[cycle(flat)]
fn flat_elements<'a>(
    fuel: u32,
    writer: &Writer<'a>,
    body: &'a [Value],
    inner: &'a Shape,
    values: &'a [Value],
    out: &mut Out,
    behind: &mut Vec<Pending<'a>>,
) -> Result<(), NoMemory>
    ensures { Adds result out.old behind.old.items out.new behind.new.items (under writer.now spec.elements (flat_of writer.now fuel) (vals body.now) (form inner.now) (vals values.now)) }
{
    for value in values {
        flat_value(fuel, writer, body, false, inner, value, out, behind)?;
    }
    Ok(())
}

#[cycle(flat)]
fn flat_array<'a>(
    fuel: u32,
    writer: &Writer<'a>,
    body: &'a [Value],
    moved: bool,
    kind: &ArrayKind,
    inner: &'a Shape,
    value: &'a Value,
    out: &mut Out,
    behind: &mut Vec<Pending<'a>>,
) -> Result<(), NoMemory>
    ensures { Adds result out.old behind.old.items out.new behind.new.items (under writer.now spec.array_piece (flat_of writer.now fuel) (vals body.now) moved kind.now (form inner.now) (val value.now)) }
{
    match value {
        Value::Array(values) => {
            let count = values.len() as u64;
            put_counts(writer, body, moved, kind, count, &mut out.octets)?;
            flat_elements(fuel, writer, body, inner, values, out, behind)
        }
        Value::Octets(octets) => {
            let count = octets.len() as u64;
            put_counts(writer, body, moved, kind, count, &mut out.octets)?;
            flat_octets(fuel, writer, body, inner, octets.as_slice(), out, behind)
        }
        _ => Ok(()),
    }
}
