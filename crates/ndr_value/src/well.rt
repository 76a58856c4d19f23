//! Which values are of a shape.
ghost use Rattle.std.specs.Prelude.{◌≡◌, ◌<◌, ◌+◌, ◌==◌, ◌&&◌, ◌||◌, ◌↔◌, ℕ, map, nat_lt, length, IsTrue, true, false, MatchOption};
ghost use Rattle.ndr_value.specs.Forms.{Form, Forms, form, forms, types_of};
ghost use Rattle.ndr_value.specs.Values.{val, vals, count_of};
ghost use Rattle.ndr_value.specs.Fits.{arm_of};
ghost use Rattle.ndr_value.specs.Typed.{Typed};
ghost use Rattle.ndr_value.specs.Judged.{typed, each_typed, all_typed, is_struct, is_unique, members, inner, is_empty, is_held, held, holds_items, is_byte, plain};

use crate::parts::{
    array_shape, holds_name, holds_signed, holds_unsigned, is_a_bool, is_a_byte, is_a_char,
    is_a_handle, is_a_unique, names_item, struct_shapes, text_fits, union_arm, unique_shape,
};
use crate::reach::plain_shape;
use crate::shape::{Shape, Shapes};
use crate::value::{Value, Values};

/// Whether the value is of the shape: `types` are what `Named` numbers, and `heap` is what full
/// pointers name. A pointer that isn't null stands under at most 255 others in a value of any
/// shape; full pointers aren't followed. It takes no memory.
pub fn well_typed(types: &Shapes, shape: &Shape, value: &Value, heap: &Values) -> bool
    ensures { IsTrue result ↔ Typed (types_of types.now.items) (length heap.now.items) 0 (form shape.now) (val value.now) }
{
    is_typed(value, types, shape, heap.len(), 0)
}

#[cycle(typed)]
fn is_typed(value: &Value, types: &[Shape], shape: &Shape, heap: usize, level: u16) -> bool
    ensures { result ≡ typed (map form types.now) heap level (val value.now) (form shape.now) }
{
    let shape = plain_shape(types, shape, types.len());
    match value {
        Value::Bool(_) => is_a_bool(shape),
        Value::Byte(_) => is_a_byte(shape),
        Value::Char(_) => is_a_char(shape),
        Value::Int(number) => holds_signed(shape, *number),
        Value::Uint(number) => holds_unsigned(shape, *number),
        Value::Enum(name) => holds_name(shape, *name),
        Value::Struct(members) => struct_typed(members, types, shape, heap, level),
        Value::Union { tag, arm } => match arm {
            None => is_empty_arm(shape, *tag),
            Some(inner) => arm_typed(inner, types, shape, *tag, heap, level),
        },
        Value::Array(items) => array_typed(items, types, shape, heap, level),
        Value::Octets(octets) => octets_typed(octets.len(), types, shape),
        Value::Text(octets) => text_fits(shape, octets.as_slice()),
        Value::Ptr(pointed) => match pointed {
            None => is_a_unique(shape),
            Some(inner) => pointer_typed(inner, types, shape, heap, level),
        },
        Value::Full(item) => names_item(shape, *item, heap),
        Value::Handle(_) => is_a_handle(shape),
    }
}

// Whether the tag selects an empty arm.
fn is_empty_arm(shape: &Shape, tag: i64) -> bool
    ensures { result ≡ is_empty (arm_of (form shape.now) tag) }
{
    match union_arm(shape, tag) {
        Some(arm) => match &arm.shape {
            None => true,
            Some(_) => false,
        },
        None => false,
    }
}

// What the arm holds that the tag selects.
fn arm_shape(shape: &Shape, tag: i64) -> Option<&Shape>
    ensures { MatchOption result (is_held (arm_of (form shape.now) tag) ≡ false) (λ s. (is_held (arm_of (form shape.now) tag) ≡ true) × (held (arm_of (form shape.now) tag) ≡ form s.now)) }
{
    match union_arm(shape, tag) {
        Some(arm) => match &arm.shape {
            None => None,
            Some(inner) => Some(inner),
        },
        None => None,
    }
}

#[cycle(typed)]
fn arm_typed(
    value: &Value,
    types: &[Shape],
    shape: &Shape,
    tag: i64,
    heap: usize,
    level: u16,
) -> bool
    ensures { result ≡ is_held (arm_of (form shape.now) tag) && typed (map form types.now) heap level (val value.now) (held (arm_of (form shape.now) tag)) }
{
    match arm_shape(shape, tag) {
        Some(inner) => is_typed(value, types, inner, heap, level),
        None => false,
    }
}

#[cycle(typed)]
fn pointer_typed(value: &Value, types: &[Shape], shape: &Shape, heap: usize, level: u16) -> bool
    ensures { result ≡ is_unique (form shape.now) && nat_lt level 256 && typed (map form types.now) heap (level + 1) (val value.now) (inner (form shape.now)) }
{
    match unique_shape(shape) {
        Some(pointed) => level < 256 && is_typed(value, types, pointed, heap, level + 1),
        None => false,
    }
}

#[cycle(typed)]
fn array_typed(items: &[Value], types: &[Shape], shape: &Shape, heap: usize, level: u16) -> bool
    ensures { result ≡ holds_items (form shape.now) (length items.now) && all_typed (map form types.now) heap level (vals items.now) (inner (form shape.now)) }
{
    match array_shape(shape, items.len()) {
        Some(inner) => all_of(items, types, inner, heap, level),
        None => false,
    }
}

// Whether an array of the shape may have that many octets.
fn octets_typed(count: usize, types: &[Shape], shape: &Shape) -> bool
    ensures { result ≡ holds_items (form shape.now) count && ((count == 0) || is_byte (plain (map form types.now) (length types.now) (inner (form shape.now)))) }
{
    match array_shape(shape, count) {
        Some(inner) => count == 0 || is_a_byte(plain_shape(types, inner, types.len())),
        None => false,
    }
}

#[cycle(typed)]
fn struct_typed(values: &[Value], types: &[Shape], shape: &Shape, heap: usize, level: u16) -> bool
    ensures { result ≡ is_struct (form shape.now) && each_typed (map form types.now) heap level (vals values.now) (members (form shape.now)) }
{
    match struct_shapes(shape) {
        Some(shapes) => each_of(values, types, shapes, heap, level),
        None => false,
    }
}

// Whether the values are of the shapes, one by one.
#[cycle(typed)]
fn each_of(values: &[Value], types: &[Shape], shapes: &[Shape], heap: usize, level: u16) -> bool
    ensures { result ≡ each_typed (map form types.now) heap level (vals values.now) (forms shapes.now) }
{
    let mut rest = shapes;
    for value in values {
        match rest.split_first() {
            None => return false,
            Some((first, others)) => {
                if !is_typed(value, types, first, heap, level) {
                    return false;
                }
                rest = others;
            }
        }
    }
    rest.is_empty()
}

// Whether all values are of the shape.
#[cycle(typed)]
fn all_of(items: &[Value], types: &[Shape], shape: &Shape, heap: usize, level: u16) -> bool
    ensures { result ≡ all_typed (map form types.now) heap level (vals items.now) (form shape.now) }
{
    for item in items {
        if !is_typed(item, types, shape, heap, level) {
            return false;
        }
    }
    true
}
