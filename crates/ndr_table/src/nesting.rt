//! How deep shapes nest by value.
ghost use Rattle.std.specs.Prelude.{◌≡◌, ◌+◌, ◌&&◌, ◌||◌, max, min, map, true, IfOk, unwrap_or, slice_get};
ghost use Rattle.std.specs.List.{list_all};
ghost use Rattle.ndr_value.specs.Forms.{form, forms, arms_of, body, types_of};
ghost use Rattle.ndr_table.specs.Nested as spec;
ghost use Rattle.ndr_table.specs.Tables.{op_form, param_form, result_form};

use crate::operation::{Op, Param};
use ndr_value::{Arm, Shape};
use rpc_base::{Items, NoMemory};
use std::alloc::Global;

/// The most levels that a shape of a table nests by value: so deep go the calls that read and write
/// its values between one pointer and the next.
pub const MOST_LEVELS: u16 = 256;

/// The levels of types, by number.
pub type Depths = Items<u16>;

// The levels of a type, by its number; `most` where there are more.
fn type_levels(depths: &[u16], number: usize, most: u16) -> u16
    ensures { result ≡ min (unwrap_or (slice_get depths.now number) 0) most }
{
    match depths.get(number) {
        Some(levels) => (*levels).min(most),
        None => 0,
    }
}

// The levels of a shape, by those of the types that it names; `most` where there are more.
#[cycle(levels)]
fn levels_at(shape: &Shape, depths: &[u16], most: u16) -> u16
    ensures { result ≡ min (spec.levels depths.now (form shape.now)) most }
{
    match shape {
        Shape::Bool => 0,
        Shape::Byte => 0,
        Shape::Char => 0,
        Shape::Int(_) => 0,
        Shape::Uint(_) => 0,
        Shape::Enum(_) => 0,
        Shape::Named(number, _) => type_levels(depths, *number, most),
        Shape::Struct(members) => struct_levels(members, depths, most),
        Shape::Union { tag, arms } => {
            let own = deeper(tag, depths, most);
            own.max(arms_deeper(arms, depths, most))
        }
        Shape::Array(_, inner) => deeper(inner, depths, most),
        Shape::Text(_) => 0,
        Shape::Ref(inner) => deeper(inner, &[], most),
        Shape::Unique(inner) => deeper(inner, &[], most),
        Shape::Full(inner) => deeper(inner, &[], most),
        Shape::Handle(_) => 0,
    }
}

// One level above a shape.
#[cycle(levels)]
fn deeper(inner: &Shape, depths: &[u16], most: u16) -> u16
    ensures { result ≡ min (spec.levels depths.now (form inner.now) + 1) most }
{
    if most == 0 {
        return 0;
    }
    levels_at(inner, depths, most - 1) + 1
}

#[cycle(levels)]
fn struct_levels(members: &[Shape], depths: &[u16], most: u16) -> u16
    ensures { result ≡ min (spec.members_levels depths.now (forms members.now) + 1) most }
{
    if most == 0 {
        return 0;
    }
    members_levels(members, depths, most - 1) + 1
}

#[cycle(levels)]
fn arms_deeper(arms: &[Arm], depths: &[u16], most: u16) -> u16
    ensures { result ≡ min (spec.arms_levels depths.now (arms_of arms.now) + 1) most }
{
    if most == 0 {
        return 0;
    }
    arms_levels(arms, depths, most - 1) + 1
}

#[cycle(levels)]
fn members_levels(members: &[Shape], depths: &[u16], most: u16) -> u16
    ensures { result ≡ min (spec.members_levels depths.now (forms members.now)) most }
{
    let mut found = 0;
    for member in members {
        found = levels_at(member, depths, most).max(found);
    }
    found
}

#[cycle(levels)]
fn arms_levels(arms: &[Arm], depths: &[u16], most: u16) -> u16
    ensures { result ≡ min (spec.arms_levels depths.now (arms_of arms.now)) most }
{
    let mut found = 0;
    for arm in arms {
        found = arm_levels(arm, depths, most).max(found);
    }
    found
}

#[cycle(levels)]
fn arm_levels(arm: &Arm, depths: &[u16], most: u16) -> u16
    ensures { result ≡ min (spec.body_levels depths.now (body arm.now.shape)) most }
{
    match &arm.shape {
        None => 0,
        Some(inner) => levels_at(inner, depths, most),
    }
}

/// The levels of the types, in the order of their numbers.
///
/// # Errors
///
/// `NoMemory` where there is no memory for the list, or a type nests by value more than `MOST_LEVELS`
/// levels.
pub fn depths_of(alloc: Global, types: &[Shape]) -> Result<Depths, NoMemory>
    ensures exact { IfOk result (λ depths. depths ≡ spec.depths_of (types_of types.now)) }
    ensures few { IfOk result (λ depths. list_all (spec.is_few 256) depths ≡ true) }
{
    let mut depths = Depths::new(alloc);
    for ty in types {
        let levels = levels_at(ty, depths.as_slice(), MOST_LEVELS + 1);
        if levels > MOST_LEVELS {
            return Err(NoMemory);
        }
        depths.push(levels)?;
    }
    Ok(depths)
}

/// Whether a shape nests by value no more than `MOST_LEVELS` levels, by those of the types that it
/// names.
pub fn has_few_levels(shape: &Shape, depths: &[u16]) -> bool
    ensures { result ≡ spec.is_few 256 (spec.levels depths.now (form shape.now)) }
{
    levels_at(shape, depths, MOST_LEVELS + 1) <= MOST_LEVELS
}

fn is_pointer(shape: &Shape) -> bool
    ensures { result ≡ spec.is_pointer (form shape.now) }
{
    matches!(shape, Shape::Ref(_) | Shape::Unique(_) | Shape::Full(_))
}

#[cycle(reach)]
fn reaches_few(shape: &Shape, depths: &[u16]) -> bool
    ensures { result ≡ spec.reaches_few 256 depths.now (form shape.now) }
{
    match shape {
        Shape::Bool => true,
        Shape::Byte => true,
        Shape::Char => true,
        Shape::Int(_) => true,
        Shape::Uint(_) => true,
        Shape::Enum(_) => true,
        Shape::Named(_, _) => true,
        Shape::Struct(members) => each_reaches(members, depths),
        Shape::Union { arms, .. } => arms_reach(arms, depths),
        Shape::Array(_, inner) => reaches_few(inner, depths),
        Shape::Text(_) => true,
        Shape::Ref(inner) => pointed_few(inner, depths),
        Shape::Unique(inner) => pointed_few(inner, depths),
        Shape::Full(inner) => pointed_few(inner, depths),
        Shape::Handle(_) => true,
    }
}

#[cycle(reach)]
fn pointed_few(inner: &Shape, depths: &[u16]) -> bool
    ensures { result ≡ ((spec.is_pointer (form inner.now) || spec.is_few 256 (spec.levels depths.now (form inner.now))) && spec.reaches_few 256 depths.now (form inner.now)) }
{
    (is_pointer(inner) || has_few_levels(inner, depths)) && reaches_few(inner, depths)
}

#[cycle(reach)]
fn each_reaches(members: &[Shape], depths: &[u16]) -> bool
    ensures { result ≡ spec.each_reaches 256 depths.now (forms members.now) }
{
    for member in members {
        if !reaches_few(member, depths) {
            return false;
        }
    }
    true
}

#[cycle(reach)]
fn arms_reach(arms: &[Arm], depths: &[u16]) -> bool
    ensures { result ≡ spec.arms_reach 256 depths.now (arms_of arms.now) }
{
    for arm in arms {
        if !arm_reaches(arm, depths) {
            return false;
        }
    }
    true
}

#[cycle(reach)]
fn arm_reaches(arm: &Arm, depths: &[u16]) -> bool
    ensures { result ≡ spec.body_reaches 256 depths.now (body arm.now.shape) }
{
    match &arm.shape {
        None => true,
        Some(inner) => reaches_few(inner, depths),
    }
}

/// Whether what the pointers in the types point to nests by value no more than `MOST_LEVELS` levels, by
/// the levels of the types.
pub fn types_reach(types: &[Shape], depths: &[u16]) -> bool
    ensures { result ≡ list_all (spec.reaches_few 256 depths.now) (types_of types.now) }
{
    for ty in types {
        if !reaches_few(ty, depths) {
            return false;
        }
    }
    true
}

fn is_shallow(shape: &Shape, depths: &[u16]) -> bool
    ensures { result ≡ spec.is_shallow 256 depths.now (form shape.now) }
{
    has_few_levels(shape, depths) && reaches_few(shape, depths)
}

fn params_few(params: &[Param], depths: &[u16]) -> bool
    ensures { result ≡ list_all (spec.param_few 256 depths.now) (map param_form params.now) }
{
    for param in params {
        if !is_shallow(&param.shape, depths) {
            return false;
        }
    }
    true
}

fn result_few(shape: &Option<Shape>, depths: &[u16]) -> bool
    ensures { result ≡ spec.result_few 256 depths.now (result_form shape.now) }
{
    match shape {
        None => true,
        Some(shape) => is_shallow(shape, depths),
    }
}

fn op_few(op: &Op, depths: &[u16]) -> bool
    ensures { result ≡ spec.op_few 256 depths.now (op_form op.now) }
{
    let params = params_few(&op.params, depths);
    let own = result_few(&op.result, depths);
    params && own
}

/// Whether no parameter and no result, and nothing that their pointers point to, nests by value more
/// than `MOST_LEVELS` levels, by the levels of the types.
pub fn ops_few(ops: &[Op], depths: &[u16]) -> bool
    ensures { result ≡ list_all (spec.op_few 256 depths.now) (map op_form ops.now) }
{
    for op in ops {
        if !op_few(op, depths) {
            return false;
        }
    }
    true
}
