//! Full pointers in values.
ghost use Rattle.std.specs.Prelude.{◌≡◌, ◌++◌, ◌∷◌, [], map, true, false, OnOk, MatchOption, Some, None};
ghost use Rattle.ndr_value.specs.Forms.{form, forms, arms_of, body, OfUnion};
ghost use Rattle.ndr_value.specs.Values.{val, vals};
ghost use Rattle.ndr_value.specs.Fits.{arm_of};
ghost use Rattle.ndr_value.specs.Judged as judged;
ghost use Rattle.ndr_table.specs.Tables.{param_form};
ghost use Rattle.client_texts.specs.Texts.{inwards};
ghost use Rattle.client_texts.specs.Heaps as spec;
ghost use Rattle.client_texts.specs.Pointers.{aim_of};

use ndr_table::Param;
use ndr_value::{Arm, Shape, Value, selected_arm, tag_fits};
use rpc_base::NoMemory;

/// A full pointer that isn't null: the number of its item, and the shape that it points to.
#[derive(Clone, Copy)]
pub(crate) struct Aim<'a> {
    pub number: u32,
    pub shape: &'a Shape,
}

// What references lead to.
fn refs_off(shape: &Shape) -> &Shape
    ensures { form result.now ≡ judged.behind_refs (form shape.now) }
{
    match shape {
        Shape::Ref(inner) => refs_off(inner),
        _ => shape,
    }
}

// What a name stands for.
fn type_of<'a>(types: &'a [Shape], shape: &Shape) -> Option<&'a Shape>
    ensures { MatchOption result (judged.named (map form types.now) (form shape.now) ≡ None) (λ s. judged.named (map form types.now) (form shape.now) ≡ Some (form s.now)) }
{
    match shape {
        Shape::Named(number, _) => types.get(*number),
        _ => None,
    }
}

/// The shape to which references and at most that many names lead.
fn plain_shape<'a>(types: &'a [Shape], shape: &'a Shape, names: usize) -> &'a Shape
    ensures { form result.now ≡ judged.plain (map form types.now) names (form shape.now) }
{
    let shape = refs_off(shape);
    if names == 0 {
        return shape;
    }
    match type_of(types, shape) {
        None => shape,
        Some(other) => plain_shape(types, other, names - 1),
    }
}

/// A structure's members.
fn members(shape: &Shape) -> &[Shape]
    ensures { forms result.now ≡ judged.members (form shape.now) }
{
    match shape {
        Shape::Struct(members) => members.as_slice(),
        _ => &[],
    }
}

/// What an array holds, and a pointer points to.
fn inner(shape: &Shape) -> &Shape
    ensures { form result.now ≡ judged.inner (form shape.now) }
{
    match shape {
        Shape::Array(_, inner) => inner,
        Shape::Unique(inner) => inner,
        Shape::Full(inner) => inner,
        _ => shape,
    }
}

// The arm that a tag selects, where it is of the union's kind.
fn arm_for<'a>(kind: &Shape, arms: &'a [Arm], tag: i64) -> Option<&'a Arm>
    ensures { MatchOption result (arm_of (OfUnion (form kind.now) (arms_of arms.now)) tag ≡ None) (λ a. arm_of (OfUnion (form kind.now) (arms_of arms.now)) tag ≡ Some (body a.now.shape)) }
{
    if tag_fits(kind, tag) {
        selected_arm(arms, tag)
    } else {
        None
    }
}

// What the arm holds that a tag selects.
fn held_in<'a>(kind: &Shape, arms: &'a [Arm], tag: i64) -> Option<&'a Shape>
    ensures { let arm = arm_of (OfUnion (form kind.now) (arms_of arms.now)) tag in MatchOption result (judged.is_held arm ≡ false) (λ s. (judged.is_held arm ≡ true) × (judged.held arm ≡ form s.now)) }
{
    match arm_for(kind, arms, tag) {
        Some(arm) => match &arm.shape {
            None => None,
            Some(inner) => Some(inner),
        },
        None => None,
    }
}

/// What the arm of a union holds that a tag selects.
fn held(shape: &Shape, tag: i64) -> Option<&Shape>
    ensures { let arm = arm_of (form shape.now) tag in MatchOption result (judged.is_held arm ≡ false) (λ s. (judged.is_held arm ≡ true) × (judged.held arm ≡ form s.now)) }
{
    match shape {
        Shape::Union { tag: kind, arms } => held_in(kind, arms, tag),
        _ => None,
    }
}

/// Adds the full pointers in a value, in the order in which they stand.
#[cycle(aims)]
pub(crate) fn add_aims<'a>(
    value: &Value,
    types: &'a [Shape],
    shape: &'a Shape,
    into: &mut Vec<Aim<'a>>,
) -> Result<(), NoMemory>
    ensures { OnOk result (map aim_of into.new.items ≡ map aim_of into.old.items ++ spec.aims (map form types.now) (form shape.now) (val value.now)) }
{
    let shape = plain_shape(types, shape, types.len());
    match value {
        Value::Bool(_) => Ok(()),
        Value::Byte(_) => Ok(()),
        Value::Char(_) => Ok(()),
        Value::Int(_) => Ok(()),
        Value::Uint(_) => Ok(()),
        Value::Enum(_) => Ok(()),
        Value::Struct(values) => add_each(values, types, members(shape), into),
        Value::Union { tag, arm } => match arm {
            None => Ok(()),
            Some(value) => add_arm(value, types, shape, *tag, into),
        },
        Value::Array(items) => add_all(items, types, inner(shape), into),
        Value::Octets(_) => Ok(()),
        Value::Text(_) => Ok(()),
        Value::Ptr(pointed) => match pointed {
            None => Ok(()),
            Some(value) => add_aims(value, types, inner(shape), into),
        },
        Value::Full(item) => match item {
            None => Ok(()),
            Some(number) => add_aim(*number, inner(shape), into),
        },
        Value::Handle(_) => Ok(()),
    }
}

fn add_aim<'a>(number: u32, shape: &'a Shape, into: &mut Vec<Aim<'a>>) -> Result<(), NoMemory>
    ensures { OnOk result (map aim_of into.new.items ≡ map aim_of into.old.items ++ (number, form shape.now) ∷ []) }
{
    into.push(Aim { number, shape })?;
    Ok(())
}

#[cycle(aims)]
fn add_arm<'a>(
    value: &Value,
    types: &'a [Shape],
    shape: &'a Shape,
    tag: i64,
    into: &mut Vec<Aim<'a>>,
) -> Result<(), NoMemory>
    ensures { OnOk result (map aim_of into.new.items ≡ map aim_of into.old.items ++ spec.arm_aims (map form types.now) (arm_of (form shape.now) tag) (val value.now)) }
{
    match held(shape, tag) {
        Some(inner) => add_aims(value, types, inner, into),
        None => Ok(()),
    }
}

#[cycle(aims)]
fn add_each<'a>(
    values: &[Value],
    types: &'a [Shape],
    shapes: &'a [Shape],
    into: &mut Vec<Aim<'a>>,
) -> Result<(), NoMemory>
    ensures { OnOk result (map aim_of into.new.items ≡ map aim_of into.old.items ++ spec.each_aims (map form types.now) (forms shapes.now) (vals values.now)) }
{
    let mut rest = shapes;
    for value in values {
        let Some((shape, others)) = rest.split_first() else {
            return Ok(());
        };
        add_aims(value, types, shape, into)?;
        rest = others;
    }
    Ok(())
}

#[cycle(aims)]
fn add_all<'a>(
    items: &[Value],
    types: &'a [Shape],
    shape: &'a Shape,
    into: &mut Vec<Aim<'a>>,
) -> Result<(), NoMemory>
    ensures { OnOk result (map aim_of into.new.items ≡ map aim_of into.old.items ++ spec.all_aims (map form types.now) (form shape.now) (vals items.now)) }
{
    for item in items {
        add_aims(item, types, shape, into)?;
    }
    Ok(())
}

/// Adds the full pointers in the values of the parameters that go in.
pub(crate) fn add_row_aims<'a>(
    values: &[Value],
    types: &'a [Shape],
    params: &'a [Param],
    into: &mut Vec<Aim<'a>>,
) -> Result<(), NoMemory>
    ensures { OnOk result (map aim_of into.new.items ≡ map aim_of into.old.items ++ spec.each_aims (map form types.now) (inwards (map param_form params.now)) (vals values.now)) }
{
    let mut rest = values;
    for param in params {
        if param.inward {
            let Some((value, others)) = rest.split_first() else {
                return Ok(());
            };
            add_aims(value, types, &param.shape, into)?;
            rest = others;
        }
    }
    Ok(())
}
