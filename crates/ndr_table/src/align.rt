//! Where shapes begin.
ghost use Rattle.std.specs.Prelude.{◌≡◌, max, false, IfOk, unwrap_or, slice_get};
ghost use Rattle.ndr_value.specs.Forms.{form, forms, arms_of, body, types_of};
ghost use Rattle.ndr_table.specs.Aligned.{octets_of, counts_align, aligned, members_align, arms_align, body_align, alignments, align_of};

use ndr_value::{Arm, ArrayKind, Shape};
use rpc_base::{NoMemory, Octets};
use std::alloc::Global;

/// The octets of a number: 1, 2, 4 or 8; those of any other size are 8.
pub fn octets(size: u8) -> u8
    ensures { result ≡ octets_of size }
{
    match size {
        1 => 1,
        2 => 2,
        4 => 4,
        _ => 8,
    }
}

// The alignment of an array's counts.
fn counts(ends: bool, kind: &ArrayKind) -> u8
    ensures { result ≡ counts_align ends kind.now }
{
    match kind {
        ArrayKind::Fixed(_) => 1,
        ArrayKind::Conformant(_) => { if ends { 1 } else { 4 } }
        ArrayKind::Varying(_, _) => 4,
        ArrayKind::ConformantVarying(_, _) => 4,
    }
}

// The alignment of a type, by its number.
fn type_align(aligns: &[u8], number: usize) -> u8
    ensures { result ≡ unwrap_or (slice_get aligns.now number) 1 }
{
    match aligns.get(number) {
        Some(align) => *align,
        None => 1,
    }
}

/// The alignment of a shape, by those of the types that it names.
pub fn align_by(shape: &Shape, aligns: &[u8]) -> u8
    ensures { result ≡ align_of aligns.now (form shape.now) }
{
    align_at(shape, aligns, false)
}

// The same. `ends`: it ends a structure.
#[cycle(align)]
fn align_at(shape: &Shape, aligns: &[u8], ends: bool) -> u8
    ensures { result ≡ aligned aligns.now ends (form shape.now) }
{
    match shape {
        Shape::Bool => 1,
        Shape::Byte => 1,
        Shape::Char => 1,
        Shape::Int(size) => octets(*size),
        Shape::Uint(size) => octets(*size),
        Shape::Enum(_) => 2,
        Shape::Named(number, _) => type_align(aligns, *number),
        Shape::Struct(members) => members_at(members, aligns),
        Shape::Union { tag, arms } => {
            let own = align_at(tag, aligns, false);
            own.max(arms_at(arms, aligns))
        }
        Shape::Array(kind, inner) => array_at(inner, aligns, ends, kind),
        Shape::Text(_) => 4,
        Shape::Ref(_) => 4,
        Shape::Unique(_) => 4,
        Shape::Full(_) => 4,
        Shape::Handle(_) => 4,
    }
}

#[cycle(align)]
fn array_at(inner: &Shape, aligns: &[u8], ends: bool, kind: &ArrayKind) -> u8
    ensures { result ≡ max (counts_align ends kind.now) (aligned aligns.now false (form inner.now)) }
{
    counts(ends, kind).max(align_at(inner, aligns, false))
}

#[cycle(align)]
fn members_at(members: &[Shape], aligns: &[u8]) -> u8
    ensures { result ≡ members_align aligns.now (forms members.now) }
{
    let mut most = 1;
    let mut left = members.len();
    for member in members {
        left -= 1;
        most = align_at(member, aligns, left == 0).max(most);
    }
    most
}

#[cycle(align)]
fn arms_at(arms: &[Arm], aligns: &[u8]) -> u8
    ensures { result ≡ arms_align aligns.now (arms_of arms.now) }
{
    let mut most = 1;
    for arm in arms {
        most = arm_at(arm, aligns).max(most);
    }
    most
}

#[cycle(align)]
fn arm_at(arm: &Arm, aligns: &[u8]) -> u8
    ensures { result ≡ body_align aligns.now (body arm.now.shape) }
{
    match &arm.shape {
        None => 1,
        Some(inner) => align_at(inner, aligns, false),
    }
}

/// The alignments of the types, in the order of their numbers.
///
/// # Errors
///
/// `NoMemory` where there is no memory for the list.
pub fn aligns_of(alloc: Global, types: &[Shape]) -> Result<Octets, NoMemory>
    ensures { IfOk result (λ aligns. aligns ≡ alignments (types_of types.now)) }
{
    let mut aligns = Octets::new(alloc);
    for ty in types {
        let align = align_by(ty, aligns.as_slice());
        aligns.push(align)?;
    }
    Ok(aligns)
}
