//! Shapes that hold others, and those of identifiers.
ghost use Rattle.std.specs.Prelude.{◌≡◌, IfOk};
ghost use Rattle.ndr_value.specs.Forms.{OfArray, OfFull, OfRef, OfStruct, form, forms};
ghost use Rattle.desk_kit.specs.TableParts as spec;

use ndr_value::{ArrayKind, Shape, Shapes};
use rpc_base::NoMemory;
use std::alloc::Global;

/// The type of that number.
pub fn named(number: usize) -> Shape
    ensures { form result ≡ spec.named number }
{
    Shape::Named(number, None)
}

/// A reference to what is of a shape.
///
/// # Errors
///
/// `NoMemory` where there is no memory for it.
pub fn behind(alloc: Global, shape: Shape) -> Result<Shape, NoMemory>
    ensures { IfOk result (λ s. form s ≡ OfRef (form shape)) }
{
    Ok(Shape::Ref(Box::new(alloc, shape)?))
}

/// A full pointer to what is of a shape.
///
/// # Errors
///
/// `NoMemory` where there is no memory for it.
pub fn pointer_to(alloc: Global, shape: Shape) -> Result<Shape, NoMemory>
    ensures { IfOk result (λ s. form s ≡ OfFull (form shape)) }
{
    Ok(Shape::Full(Box::new(alloc, shape)?))
}

/// An array.
///
/// # Errors
///
/// `NoMemory` where there is no memory for it.
pub fn array_of(alloc: Global, kind: ArrayKind, shape: Shape) -> Result<Shape, NoMemory>
    ensures { IfOk result (λ s. form s ≡ OfArray kind (form shape)) }
{
    Ok(Shape::Array(kind, Box::new(alloc, shape)?))
}

/// A structure of members.
pub fn structure_of(members: Shapes) -> Shape
    ensures { form result ≡ OfStruct (forms members.items) }
{
    Shape::Struct(members)
}

/// A UUID (C706, appendix "Universal Unique Identifier").
///
/// # Errors
///
/// `NoMemory` where there is no memory for it.
pub fn uuid_shape(alloc: Global) -> Result<Shape, NoMemory>
    ensures { IfOk result (λ s. form s ≡ spec.uuid_form) }
{
    let mut members = Shapes::new(alloc);
    members.push(Shape::Uint(4))?;
    members.push(Shape::Uint(2))?;
    members.push(Shape::Uint(2))?;
    members.push(array_of(alloc, ArrayKind::Fixed(8), Shape::Byte)?)?;
    Ok(structure_of(members))
}

/// The identifier of an interface, in a table whose type 0 is a UUID.
///
/// # Errors
///
/// `NoMemory` where there is no memory for it.
pub fn syntax_shape(alloc: Global) -> Result<Shape, NoMemory>
    ensures { IfOk result (λ s. form s ≡ spec.syntax_form) }
{
    let mut members = Shapes::new(alloc);
    members.push(named(0))?;
    members.push(Shape::Uint(2))?;
    members.push(Shape::Uint(2))?;
    Ok(structure_of(members))
}
