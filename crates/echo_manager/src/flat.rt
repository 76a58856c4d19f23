//! The pointers in the flat part of a value.
ghost use Rattle.std.specs.Prelude.{◌≡◌, OnOk, MatchOption, Some, None, slice_get};
ghost use Rattle.ndr_value.specs.Forms.{form, forms, arms_of, body, types_of, OfUnion};
ghost use Rattle.ndr_value.specs.Fits.{arm_of};
ghost use Rattle.ndr_value.specs.Values.{val, vals, in_union};
ghost use Rattle.echo_manager.specs.Met as spec;
ghost use Rattle.echo_manager.specs.Views.{flat_of};

use crate::lead::Lead;
use crate::met::Met;
use ndr_value::{Arm, Shape, Value, selected_arm, tag_fits};
use rpc_base::NoMemory;

// What a name stands for.
fn named(types: &[Shape], number: usize) -> Option<&Shape>
    ensures { MatchOption result (slice_get (types_of types.now) number ≡ None) (λ s. slice_get (types_of types.now) number ≡ Some (form s.now)) }
{
    types.get(number)
}

fn is_byte(shape: &Shape) -> bool
    ensures { result ≡ spec.is_byte (form shape.now) }
{
    match shape {
        Shape::Byte => true,
        _ => false,
    }
}

// A pointer to a value of its own.
#[tactic(auto, using(crate::proofs::Walks::leads))]
fn lead<'a>(
    shape: &'a Shape,
    value: &'a Value,
    met: &Met,
    behind: &mut Vec<Lead<'a>>,
) -> Result<(), NoMemory>
    ensures { OnOk result (flat_of met.now behind.new.items ≡ spec.with_lead (spec.to_value (form shape.now) (val value.now)) (flat_of met.now behind.old.items)) }
{
    behind.push(Lead::Value(shape, value))?;
    Ok(())
}

// A pointer to an item, which stands behind the flat part where it is met first.
#[tactic(auto, using(crate::proofs::Walks::leads))]
fn meet<'a>(
    shape: &'a Shape,
    number: u32,
    met: &mut Met,
    behind: &mut Vec<Lead<'a>>,
) -> Result<(), NoMemory>
    ensures { OnOk result (flat_of met.new behind.new.items ≡ spec.meets (form shape.now) number (flat_of met.old behind.old.items)) }
{
    if met.meet(number)? {
        behind.push(Lead::Item(shape, number))?;
    }
    Ok(())
}

fn unique<'a>(
    shape: &'a Shape,
    value: &'a Value,
    met: &Met,
    behind: &mut Vec<Lead<'a>>,
) -> Result<(), NoMemory>
    ensures { OnOk result (flat_of met.now behind.new.items ≡ spec.flat_unique (form shape.now) (val value.now) (flat_of met.now behind.old.items)) }
{
    match value {
        Value::Ptr(held) => match held {
            None => Ok(()),
            Some(pointed) => lead(shape, pointed, met, behind),
        },
        _ => Ok(()),
    }
}

fn full<'a>(
    shape: &'a Shape,
    value: &'a Value,
    met: &mut Met,
    behind: &mut Vec<Lead<'a>>,
) -> Result<(), NoMemory>
    ensures { OnOk result (flat_of met.new behind.new.items ≡ spec.flat_full (form shape.now) (val value.now) (flat_of met.old behind.old.items)) }
{
    match value {
        Value::Full(item) => match item {
            None => Ok(()),
            Some(number) => meet(shape, *number, met, behind),
        },
        _ => Ok(()),
    }
}

/// The pointers in the flat part of a value, at most `fuel` constructs deep.
///
/// # Errors
///
/// `NoMemory` where there is no memory to note a pointer.
#[tactic(auto, using(crate::proofs::Walks::flats), unfolding(crate::specs::Met::flat))]
#[cycle(flat)]
pub fn flat_value<'a>(
    fuel: u32,
    types: &'a [Shape],
    shape: &'a Shape,
    value: &'a Value,
    met: &mut Met,
    behind: &mut Vec<Lead<'a>>,
) -> Result<(), NoMemory>
    ensures { OnOk result (flat_of met.new behind.new.items ≡ spec.flat (types_of types.now) fuel (form shape.now) (val value.now) (flat_of met.old behind.old.items)) }
{
    if fuel == 0 {
        return Ok(());
    }
    flat_one(fuel - 1, types, shape, value, met, behind)
}

#[tactic(auto, using(crate::proofs::Walks::flats))]
#[cycle(flat)]
fn flat_one<'a>(
    fuel: u32,
    types: &'a [Shape],
    shape: &'a Shape,
    value: &'a Value,
    met: &mut Met,
    behind: &mut Vec<Lead<'a>>,
) -> Result<(), NoMemory>
    ensures { OnOk result (flat_of met.new behind.new.items ≡ spec.flat_at (types_of types.now) (spec.flat (types_of types.now) fuel) (form shape.now) (val value.now) (flat_of met.old behind.old.items)) }
{
    match shape {
        Shape::Named(number, _) => match named(types, *number) {
            None => Ok(()),
            Some(other) => flat_value(fuel, types, other, value, met, behind),
        },
        Shape::Struct(members) => flat_struct(fuel, types, members, value, met, behind),
        Shape::Union { tag, arms } => flat_union(fuel, types, tag, arms, value, met, behind),
        Shape::Array(_, inner) => flat_array(fuel, types, inner, value, met, behind),
        Shape::Ref(inner) => lead(inner, value, met, behind),
        Shape::Unique(inner) => unique(inner, value, met, behind),
        Shape::Full(inner) => full(inner, value, met, behind),
        Shape::Bool => Ok(()),
        Shape::Byte => Ok(()),
        Shape::Char => Ok(()),
        Shape::Int(_) => Ok(()),
        Shape::Uint(_) => Ok(()),
        Shape::Enum(_) => Ok(()),
        Shape::Text(_) => Ok(()),
        Shape::Handle(_) => Ok(()),
    }
}

#[tactic(auto, using(crate::proofs::Walks::flats))]
#[cycle(flat)]
fn flat_struct<'a>(
    fuel: u32,
    types: &'a [Shape],
    members: &'a [Shape],
    value: &'a Value,
    met: &mut Met,
    behind: &mut Vec<Lead<'a>>,
) -> Result<(), NoMemory>
    ensures { OnOk result (flat_of met.new behind.new.items ≡ spec.deep_struct (types_of types.now) fuel (forms members.now) (val value.now) (flat_of met.old behind.old.items)) }
{
    match value {
        Value::Struct(values) => flat_members(fuel, types, members, values, met, behind),
        _ => Ok(()),
    }
}

#[cycle(flat)]
fn flat_members<'a>(
    fuel: u32,
    types: &'a [Shape],
    members: &'a [Shape],
    values: &'a [Value],
    met: &mut Met,
    behind: &mut Vec<Lead<'a>>,
) -> Result<(), NoMemory>
    ensures { OnOk result (flat_of met.new behind.new.items ≡ spec.deep_members (types_of types.now) fuel (forms members.now) (vals values.now) (flat_of met.old behind.old.items)) }
{
    let mut rest = values;
    for member in members {
        match rest.split_first() {
            None => return Ok(()),
            Some((value, others)) => {
                flat_value(fuel, types, member, value, met, behind)?;
                rest = others;
            }
        }
    }
    Ok(())
}

// The arm that a tag selects, where it is of the union's kind.
fn arm_for<'a>(kind: &Shape, arms: &'a [Arm], tag: i64) -> Option<&'a Arm>
    ensures { MatchOption result (arm_of (OfUnion (form kind.now) (arms_of arms.now)) tag ≡ None) (λ a. arm_of (OfUnion (form kind.now) (arms_of arms.now)) tag ≡ Some (body a.now.shape)) }
{
    if tag_fits(kind, tag) {
        selected_arm(arms, tag)
    } else {
        None
    }
}

#[cycle(flat)]
fn flat_arm<'a>(
    fuel: u32,
    types: &'a [Shape],
    kind: &Shape,
    arms: &'a [Arm],
    tag: i64,
    value: &'a Value,
    met: &mut Met,
    behind: &mut Vec<Lead<'a>>,
) -> Result<(), NoMemory>
    ensures { OnOk result (flat_of met.new behind.new.items ≡ spec.deep_arm (types_of types.now) fuel (OfUnion (form kind.now) (arms_of arms.now)) tag (val value.now) (flat_of met.old behind.old.items)) }
{
    match arm_for(kind, arms, tag) {
        None => Ok(()),
        Some(arm) => match &arm.shape {
            None => Ok(()),
            Some(shape) => flat_value(fuel, types, shape, value, met, behind),
        },
    }
}

#[cycle(flat)]
fn flat_union<'a>(
    fuel: u32,
    types: &'a [Shape],
    kind: &Shape,
    arms: &'a [Arm],
    value: &'a Value,
    met: &mut Met,
    behind: &mut Vec<Lead<'a>>,
) -> Result<(), NoMemory>
    ensures { OnOk result (flat_of met.new behind.new.items ≡ spec.deep_union (types_of types.now) fuel (OfUnion (form kind.now) (arms_of arms.now)) (val value.now) (flat_of met.old behind.old.items)) }
{
    match value {
        Value::Union { tag, arm } => match arm {
            None => Ok(()),
            Some(inner) => flat_arm(fuel, types, kind, arms, *tag, inner, met, behind),
        },
        _ => Ok(()),
    }
}

#[cycle(flat)]
fn flat_items<'a>(
    fuel: u32,
    types: &'a [Shape],
    inner: &'a Shape,
    values: &'a [Value],
    met: &mut Met,
    behind: &mut Vec<Lead<'a>>,
) -> Result<(), NoMemory>
    ensures { OnOk result (flat_of met.new behind.new.items ≡ spec.deep_items (types_of types.now) fuel (form inner.now) (vals values.now) (flat_of met.old behind.old.items)) }
{
    for value in values {
        flat_value(fuel, types, inner, value, met, behind)?;
    }
    Ok(())
}

#[tactic(auto, using(crate::proofs::Walks::flats))]
#[cycle(flat)]
fn flat_array<'a>(
    fuel: u32,
    types: &'a [Shape],
    inner: &'a Shape,
    value: &'a Value,
    met: &mut Met,
    behind: &mut Vec<Lead<'a>>,
) -> Result<(), NoMemory>
    ensures { OnOk result (flat_of met.new behind.new.items ≡ spec.deep_array (types_of types.now) fuel (form inner.now) (val value.now) (flat_of met.old behind.old.items)) }
{
    if is_byte(inner) {
        return Ok(());
    }
    match value {
        Value::Array(values) => flat_items(fuel, types, inner, values, met, behind),
        // octets are the value of an array of bytes alone
        Value::Octets(_) => Err(NoMemory),
        _ => Ok(()),
    }
}
