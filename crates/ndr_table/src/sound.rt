//! What can be marshalled.
ghost use Rattle.std.specs.Prelude.{◌≡◌, ◌&&◌, map};
ghost use Rattle.std.specs.List.{list_all};
ghost use Rattle.std.specs.Option.{option_copied};
ghost use Rattle.ndr_value.specs.Forms.{form, forms, arms_of, body, types_of};
ghost use Rattle.ndr_table.specs.Sound as spec;
ghost use Rattle.ndr_table.specs.Tables.{op_form, param_form, result_form};

use crate::operation::{Bounds, HandleUse, HandleUses, Op, Param};
use ndr_value::{Arm, ArrayKind, Shape};

fn is_tag(shape: &Shape) -> bool
    ensures { result ≡ spec.is_tag (form shape.now) }
{
    match shape {
        Shape::Bool => true,
        Shape::Char => true,
        Shape::Int(_) => true,
        Shape::Uint(size) => *size <= 4,
        Shape::Enum(_) => true,
        _ => false,
    }
}

fn has_element(kind: &ArrayKind) -> bool
    ensures { result ≡ spec.has_element kind.now }
{
    match kind {
        ArrayKind::Fixed(size) => *size >= 1,
        ArrayKind::Varying(size, _) => *size >= 1,
        ArrayKind::Conformant(_) => true,
        ArrayKind::ConformantVarying(_, _) => true,
    }
}

fn has_room(most: Option<u32>) -> bool
    ensures { result ≡ spec.has_room most }
{
    match most {
        None => true,
        Some(most) => most >= 1,
    }
}

fn both(one: bool, other: bool) -> bool
    ensures { result ≡ (one && other) }
{
    one && other
}

#[cycle(sound)]
fn is_sound(shape: &Shape) -> bool
    ensures { result ≡ spec.is_sound (form shape.now) }
{
    match shape {
        Shape::Bool => true,
        Shape::Byte => true,
        Shape::Char => true,
        Shape::Int(_) => true,
        Shape::Uint(_) => true,
        Shape::Enum(count) => *count >= 1,
        Shape::Named(_, _) => true,
        Shape::Struct(members) => struct_sound(members),
        Shape::Union { tag, arms } => both(tag_sound(tag), arms_sound(arms)),
        Shape::Array(kind, inner) => has_element(kind) && is_sound(inner),
        Shape::Text(most) => has_room(*most),
        Shape::Ref(inner) => is_sound(inner),
        Shape::Unique(inner) => is_sound(inner),
        Shape::Full(inner) => is_sound(inner),
        Shape::Handle(_) => false,
    }
}

#[cycle(sound)]
fn tag_sound(tag: &Shape) -> bool
    ensures { result ≡ (spec.is_tag (form tag.now) && spec.is_sound (form tag.now)) }
{
    is_tag(tag) && is_sound(tag)
}

#[cycle(sound)]
fn struct_sound(members: &[Shape]) -> bool
    ensures { result ≡ (spec.has_member (forms members.now) && spec.each_sound (forms members.now)) }
{
    match members.first() {
        None => false,
        Some(_) => each_sound(members),
    }
}

#[cycle(sound)]
fn each_sound(members: &[Shape]) -> bool
    ensures { result ≡ spec.each_sound (forms members.now) }
{
    for member in members {
        if !is_sound(member) {
            return false;
        }
    }
    true
}

#[cycle(sound)]
fn arms_sound(arms: &[Arm]) -> bool
    ensures { result ≡ spec.arms_sound (arms_of arms.now) }
{
    for arm in arms {
        if !arm_sound(arm) {
            return false;
        }
    }
    true
}

#[cycle(sound)]
fn arm_sound(arm: &Arm) -> bool
    ensures { result ≡ spec.body_sound (body arm.now.shape) }
{
    match &arm.shape {
        None => true,
        Some(inner) => is_sound(inner),
    }
}

/// Whether each structure of the types has a member, each array and text of a fixed size an element,
/// each enumeration a name and each union a tag that can be one, and no handle is among them.
pub fn types_sound(types: &[Shape]) -> bool
    ensures { result ≡ list_all spec.is_sound (types_of types.now) }
{
    for ty in types {
        if !is_sound(ty) {
            return false;
        }
    }
    true
}

fn own_kind(shape: &Shape) -> Option<u16>
    ensures { result ≡ spec.own_kind (form shape.now) }
{
    match shape {
        Shape::Handle(kind) => Some(*kind),
        _ => None,
    }
}

fn handle_kind(shape: &Shape) -> Option<u16>
    ensures { result ≡ spec.handle_kind (form shape.now) }
{
    match shape {
        Shape::Ref(inner) => own_kind(inner),
        Shape::Handle(kind) => Some(*kind),
        _ => None,
    }
}

fn is_small_number(shape: &Shape) -> bool
    ensures { result ≡ spec.is_small_number (form shape.now) }
{
    match shape {
        Shape::Int(size) => *size <= 4,
        Shape::Uint(size) => *size <= 4,
        _ => false,
    }
}

fn may_range(shape: &Shape) -> bool
    ensures { result ≡ spec.may_range (form shape.now) }
{
    match shape {
        Shape::Ref(inner) => is_small_number(inner),
        Shape::Int(size) => *size <= 4,
        Shape::Uint(size) => *size <= 4,
        _ => false,
    }
}

fn range_sound(shape: &Shape, range: Option<Bounds>) -> bool
    ensures { result ≡ spec.range_sound (form shape.now) range }
{
    match range {
        None => true,
        Some(range) => may_range(shape) && range.low <= range.high,
    }
}

fn param_sound(param: &Param) -> bool
    ensures { result ≡ spec.param_sound (param_form param.now) }
{
    (handle_kind(&param.shape).is_some() || is_sound(&param.shape))
        && range_sound(&param.shape, param.range)
}

fn params_sound(params: &[Param]) -> bool
    ensures { result ≡ list_all spec.param_sound (map param_form params.now) }
{
    for param in params {
        if !param_sound(param) {
            return false;
        }
    }
    true
}

fn result_sound(shape: &Option<Shape>) -> bool
    ensures { result ≡ spec.result_sound (result_form shape.now) }
{
    match shape {
        None => true,
        Some(shape) => is_sound(shape),
    }
}

fn op_sound(op: &Op) -> bool
    ensures { result ≡ spec.op_sound (op_form op.now) }
{
    params_sound(&op.params) && result_sound(&op.result)
}

/// The same of the parameters and results, but for handles, which stand as parameters or behind their
/// `Ref`; and a range stands on an integer of at most 32 bits or a `Ref` to one.
pub fn ops_sound(ops: &[Op]) -> bool
    ensures { result ≡ list_all spec.op_sound (map op_form ops.now) }
{
    for op in ops {
        if !op_sound(op) {
            return false;
        }
    }
    true
}

fn is_use(kind: u16, param: &Param, of: &HandleUse) -> bool
    ensures { result ≡ spec.is_use kind (param_form param.now) of.now }
{
    of.kind == kind && of.inward == param.inward && of.outward == param.outward
}

fn behind_param<'a>(param: &Param, uses: &'a [HandleUse]) -> Option<&'a [HandleUse]>
    ensures { option_copied result ≡ spec.behind_param (param_form param.now) uses.now }
{
    match handle_kind(&param.shape) {
        None => Some(uses),
        Some(kind) => behind_use(kind, param, uses),
    }
}

fn behind_use<'a>(kind: u16, param: &Param, uses: &'a [HandleUse]) -> Option<&'a [HandleUse]>
    ensures { option_copied result ≡ spec.behind_use kind (param_form param.now) uses.now }
{
    match uses.split_first() {
        None => None,
        Some((first, others)) => {
            if is_use(kind, param, first) {
                Some(others)
            } else {
                None
            }
        }
    }
}

fn are_none(uses: &[HandleUse]) -> bool
    ensures { result ≡ spec.are_none uses.now }
{
    match uses.first() {
        None => true,
        Some(_) => false,
    }
}

fn are_uses(params: &[Param], uses: &[HandleUse]) -> bool
    ensures { result ≡ spec.are_uses (map param_form params.now) uses.now }
{
    let mut rest = uses;
    for param in params {
        match behind_param(param, rest) {
            None => return false,
            Some(others) => rest = others,
        }
    }
    are_none(rest)
}

/// Whether the uses of each operation are those of its parameters that are handles, in order.
pub fn each_uses(ops: &[Op], uses: &[HandleUses]) -> bool
    ensures { result ≡ spec.each_uses (map op_form ops.now) uses.now }
{
    let mut rest = uses;
    for op in ops {
        match rest.split_first() {
            None => return false,
            Some((first, others)) => {
                if !are_uses(&op.params, first.as_slice()) {
                    return false;
                }
                rest = others;
            }
        }
    }
    true
}
