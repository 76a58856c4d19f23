//! Which shapes end in a conformant array or text.
ghost use Rattle.std.specs.Prelude.{◌≡◌, false, IfOk, unwrap_or, slice_get};
ghost use Rattle.ndr_value.specs.Forms.{form, forms, types_of};
ghost use Rattle.ndr_table.specs.Tails as spec;

use ndr_value::{ArrayKind, Shape};
use rpc_base::{Items, NoMemory};
use std::alloc::Global;

/// Whether each type ends in a conformant array or text, by number.
pub type Tails = Items<bool>;

fn is_conformant(kind: &ArrayKind) -> bool
    ensures { result ≡ spec.is_conformant kind.now }
{
    match kind {
        ArrayKind::Fixed(_) => false,
        ArrayKind::Varying(_, _) => false,
        ArrayKind::Conformant(_) => true,
        ArrayKind::ConformantVarying(_, _) => true,
    }
}

fn type_tail(tails: &[bool], number: usize) -> bool
    ensures { result ≡ unwrap_or (slice_get tails.now number) false }
{
    match tails.get(number) {
        Some(tail) => *tail,
        None => false,
    }
}

/// Whether a shape ends in a conformant array or text, itself or by its last members, by what holds of
/// the types that it names.
#[cycle(ends)]
pub fn ends_by(shape: &Shape, tails: &[bool]) -> bool
    ensures { result ≡ spec.ends_open tails.now (form shape.now) }
{
    match shape {
        Shape::Bool => false,
        Shape::Byte => false,
        Shape::Char => false,
        Shape::Int(_) => false,
        Shape::Uint(_) => false,
        Shape::Enum(_) => false,
        Shape::Named(number, _) => type_tail(tails, *number),
        Shape::Struct(members) => last_by(members, tails),
        Shape::Union { .. } => false,
        Shape::Array(kind, _) => is_conformant(kind),
        Shape::Text(most) => most.is_none(),
        Shape::Ref(_) => false,
        Shape::Unique(_) => false,
        Shape::Full(_) => false,
        Shape::Handle(_) => false,
    }
}

#[cycle(ends)]
fn last_by(members: &[Shape], tails: &[bool]) -> bool
    ensures { result ≡ spec.last_open tails.now (forms members.now) }
{
    let mut ends = false;
    for member in members {
        ends = ends_by(member, tails);
    }
    ends
}

/// Whether each type ends in a conformant array or text, in the order of their numbers.
///
/// # Errors
///
/// `NoMemory` where there is no memory for the list.
pub fn tails_of(alloc: Global, types: &[Shape]) -> Result<Tails, NoMemory>
    ensures { IfOk result (λ tails. tails ≡ spec.tails_of (types_of types.now)) }
{
    let mut tails = Tails::new(alloc);
    for ty in types {
        let tail = ends_by(ty, tails.as_slice());
        tails.push(tail)?;
    }
    Ok(tails)
}
