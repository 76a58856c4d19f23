//! What a shape holds, and the parts that it consists of.
ghost use Rattle.std.specs.Prelude.{◌≡◌, ◌<◌, ◌==◌, ℕ, pos, length, ◌&&◌, MatchOption, None, Some, true, false, nat_lt};
ghost use Rattle.ndr_value.specs.Forms.{Form, OfUnion, form, forms, arms_of, body, Body, empty, holds};
ghost use Rattle.ndr_value.specs.Fits.{limit, within, fits_int, fits_count, fits_text, fits_tag, has_nul, with_case, with_default, selected, arm_of};
ghost use Rattle.ndr_value.specs.Judged.{is_bool, is_byte, is_char, is_handle, is_unique, holds_int, holds_uint, holds_enum, holds_text, holds_item, holds_items, is_struct, members, inner};

use crate::shape::{Arm, ArrayKind, Shape};

// low ≤ number < high
fn is_within(low: i64, high: i64, number: i64) -> bool
    ensures { result ≡ within low high number }
{
    low <= number && number < high
}

// Whether a signed number has that many octets.
fn int_fits(size: u8, number: i64) -> bool
    ensures { result ≡ fits_int size number }
{
    match size {
        1 => is_within(-(1 << 7), 1 << 7, number),
        2 => is_within(-(1 << 15), 1 << 15, number),
        4 => is_within(-(1 << 31), 1 << 31, number),
        8 => true,
        _ => false,
    }
}

// Whether an unsigned number has that many octets.
fn uint_fits(size: u8, number: u64) -> bool
    ensures { result ≡ nat_lt number (limit size) }
{
    match size {
        1 => number < 1 << 8,
        2 => number < 1 << 16,
        4 => number < 1 << 32,
        8 => true,
        _ => false,
    }
}

// Whether a number that may be negative is an unsigned one of that many octets.
fn is_unsigned(size: u8, number: i64) -> bool
    ensures { result ≡ within (pos 0) (pos (limit size)) number }
{
    match size {
        1 => is_within(0, 1 << 8, number),
        2 => is_within(0, 1 << 16, number),
        4 => is_within(0, 1 << 32, number),
        8 => 0 <= number,
        _ => false,
    }
}

/// Whether a number is a tag of that shape: a Boolean, a character, a number or a name of an
/// enumeration.
pub fn tag_fits(shape: &Shape, tag: i64) -> bool
    ensures { result ≡ fits_tag (form shape.now) tag }
{
    match shape {
        Shape::Bool => is_within(0, 2, tag),
        Shape::Char => is_within(0, 1 << 8, tag),
        Shape::Int(size) => int_fits(*size, tag),
        Shape::Uint(size) => is_unsigned(*size, tag),
        Shape::Enum(count) => is_within(0, i64::from(*count), tag),
        _ => false,
    }
}

// The first arm with that case.
fn cased_arm(arms: &[Arm], tag: i64) -> Option<&Arm>
    ensures { MatchOption result (with_case (arms_of arms.now) tag ≡ None) (λ a. with_case (arms_of arms.now) tag ≡ Some (body a.now.shape)) }
{
    for arm in arms {
        if arm.cases.as_slice().contains(&tag) {
            return Some(arm);
        }
    }
    None
}

// The first default arm.
fn default_arm(arms: &[Arm]) -> Option<&Arm>
    ensures { MatchOption result (with_default (arms_of arms.now) ≡ None) (λ a. with_default (arms_of arms.now) ≡ Some (body a.now.shape)) }
{
    for arm in arms {
        if arm.default {
            return Some(arm);
        }
    }
    None
}

/// The arm that a tag selects: the one with that case, else the default arm.
pub fn selected_arm(arms: &[Arm], tag: i64) -> Option<&Arm>
    ensures { MatchOption result (selected (arms_of arms.now) tag ≡ None) (λ a. selected (arms_of arms.now) tag ≡ Some (body a.now.shape)) }
{
    match cased_arm(arms, tag) {
        Some(arm) => Some(arm),
        None => default_arm(arms),
    }
}

/// The arm of a union that a tag selects, where the tag is of the union's kind.
pub fn union_arm(shape: &Shape, tag: i64) -> Option<&Arm>
    ensures { MatchOption result (arm_of (form shape.now) tag ≡ None) (λ a. arm_of (form shape.now) tag ≡ Some (body a.now.shape)) }
{
    match shape {
        Shape::Union { tag: kind, arms } => arm_of_kind(kind, arms, tag),
        _ => None,
    }
}

fn arm_of_kind<'a>(kind: &Shape, arms: &'a [Arm], tag: i64) -> Option<&'a Arm>
    ensures { MatchOption result (arm_of (OfUnion (form kind.now) (arms_of arms.now)) tag ≡ None) (λ a. arm_of (OfUnion (form kind.now) (arms_of arms.now)) tag ≡ Some (body a.now.shape)) }
{
    if tag_fits(kind, tag) {
        selected_arm(arms, tag)
    } else {
        None
    }
}

/// A structure's members.
pub fn struct_shapes(shape: &Shape) -> Option<&[Shape]>
    ensures { MatchOption result (is_struct (form shape.now) ≡ false) (λ s. (is_struct (form shape.now) ≡ true) × (members (form shape.now) ≡ forms s.now)) }
{
    match shape {
        Shape::Struct(members) => Some(members.as_slice()),
        _ => None,
    }
}

// Whether an array of that kind may have so many elements.
fn count_fits(kind: &ArrayKind, count: usize) -> bool
    ensures { result ≡ fits_count kind.now count }
{
    match kind {
        ArrayKind::Fixed(exact) => count == *exact as usize,
        ArrayKind::Varying(most, _) => count <= *most as usize,
        ArrayKind::Conformant(_) | ArrayKind::ConformantVarying(_, _) => count < 1 << 32,
    }
}

/// What an array holds, where it may hold that many.
pub fn array_shape(shape: &Shape, count: usize) -> Option<&Shape>
    ensures { MatchOption result (holds_items (form shape.now) count ≡ false) (λ s. (holds_items (form shape.now) count ≡ true) × (inner (form shape.now) ≡ form s.now)) }
{
    match shape {
        Shape::Array(kind, inner) => match count_fits(kind, count) {
            true => Some(inner),
            false => None,
        },
        _ => None,
    }
}

/// What a unique pointer points to.
pub fn unique_shape(shape: &Shape) -> Option<&Shape>
    ensures { MatchOption result (is_unique (form shape.now) ≡ false) (λ s. (is_unique (form shape.now) ≡ true) × (inner (form shape.now) ≡ form s.now)) }
{
    match shape {
        Shape::Unique(inner) => Some(inner),
        _ => None,
    }
}

// Whether a text of so many octets fits, with its NUL.
fn length_fits(most: Option<u32>, count: usize) -> bool
    ensures { result ≡ fits_text most count }
{
    match most {
        None => count < (1 << 32) - 1,
        Some(most) => count < most as usize,
    }
}

// Whether an octet is NUL.
fn contains_nul(octets: &[u8]) -> bool
    ensures { result ≡ has_nul octets.now }
{
    octets.iter().any(|octet| *octet == 0)
}

pub(crate) fn text_fits(shape: &Shape, octets: &[u8]) -> bool
    ensures { result ≡ holds_text (form shape.now) octets.now }
{
    match shape {
        Shape::Text(most) => length_fits(*most, octets.len()) && !contains_nul(octets),
        _ => false,
    }
}

pub(crate) fn holds_signed(shape: &Shape, number: i64) -> bool
    ensures { result ≡ holds_int (form shape.now) number }
{
    match shape {
        Shape::Int(size) => int_fits(*size, number),
        _ => false,
    }
}

pub(crate) fn holds_unsigned(shape: &Shape, number: u64) -> bool
    ensures { result ≡ holds_uint (form shape.now) number }
{
    match shape {
        Shape::Uint(size) => uint_fits(*size, number),
        _ => false,
    }
}

pub(crate) fn holds_name(shape: &Shape, name: u16) -> bool
    ensures { result ≡ holds_enum (form shape.now) name }
{
    match shape {
        Shape::Enum(count) => name < *count,
        _ => false,
    }
}

// Whether the number of a full pointer's item is below that of the heap's items.
pub(crate) fn names_item(shape: &Shape, item: Option<u32>, heap: usize) -> bool
    ensures { result ≡ holds_item (form shape.now) item heap }
{
    match shape {
        Shape::Full(_) => match item {
            None => true,
            Some(number) => (number as usize) < heap,
        },
        _ => false,
    }
}

pub(crate) fn is_a_bool(shape: &Shape) -> bool
    ensures { result ≡ is_bool (form shape.now) }
{
    matches!(shape, Shape::Bool)
}

pub(crate) fn is_a_byte(shape: &Shape) -> bool
    ensures { result ≡ is_byte (form shape.now) }
{
    matches!(shape, Shape::Byte)
}

pub(crate) fn is_a_char(shape: &Shape) -> bool
    ensures { result ≡ is_char (form shape.now) }
{
    matches!(shape, Shape::Char)
}

pub(crate) fn is_a_handle(shape: &Shape) -> bool
    ensures { result ≡ is_handle (form shape.now) }
{
    matches!(shape, Shape::Handle(_))
}

pub(crate) fn is_a_unique(shape: &Shape) -> bool
    ensures { result ≡ is_unique (form shape.now) }
{
    matches!(shape, Shape::Unique(_))
}
