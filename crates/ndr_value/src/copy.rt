//! Copies of shapes.
ghost use Rattle.std.specs.Prelude.{◌≡◌, map, IfOk};
ghost use Rattle.ndr_value.specs.Forms.{form, forms, body, face, types_of, arms_of, OfStruct, OfUnion};

use crate::shape::{Arm, Arms, Shape, Shapes};
use rpc_base::NoMemory;
use std::alloc::Global;

/// A shape that is the same in every item.
///
/// # Errors
///
/// `NoMemory` where memory runs out.
pub fn copy_shape(alloc: Global, shape: &Shape) -> Result<Shape, NoMemory>
    ensures { IfOk result (λ copy. form copy ≡ form shape.now) }
{
    copied(shape, alloc)
}

/// A list of shapes that are the same in every item.
///
/// # Errors
///
/// `NoMemory` where memory runs out.
pub fn copy_shapes(alloc: Global, shapes: &[Shape]) -> Result<Shapes, NoMemory>
    ensures { IfOk result (λ copy. types_of copy.items ≡ types_of shapes.now) }
{
    each_copied(shapes, alloc)
}

#[cycle(copy)]
fn copied(shape: &Shape, alloc: Global) -> Result<Shape, NoMemory>
    ensures { IfOk result (λ copy. form copy ≡ form shape.now) }
{
    match shape {
        Shape::Bool => Ok(Shape::Bool),
        Shape::Byte => Ok(Shape::Byte),
        Shape::Char => Ok(Shape::Char),
        Shape::Int(size) => Ok(Shape::Int(*size)),
        Shape::Uint(size) => Ok(Shape::Uint(*size)),
        Shape::Enum(count) => Ok(Shape::Enum(*count)),
        Shape::Named(number, switch) => Ok(Shape::Named(*number, *switch)),
        Shape::Struct(members) => Ok(struct_of(each_copied(members, alloc)?)),
        Shape::Union { tag, arms } => {
            let tag = boxed(tag, alloc)?;
            Ok(union_of(tag, arms_copied(arms, alloc)?))
        }
        Shape::Array(kind, inner) => Ok(Shape::Array(*kind, boxed(inner, alloc)?)),
        Shape::Text(most) => Ok(Shape::Text(*most)),
        Shape::Ref(inner) => Ok(Shape::Ref(boxed(inner, alloc)?)),
        Shape::Unique(inner) => Ok(Shape::Unique(boxed(inner, alloc)?)),
        Shape::Full(inner) => Ok(Shape::Full(boxed(inner, alloc)?)),
        Shape::Handle(kind) => Ok(Shape::Handle(*kind)),
    }
}

// A structure of these members.
fn struct_of(members: Shapes) -> Shape
    ensures { form result ≡ OfStruct (forms members.items) }
{
    Shape::Struct(members)
}

// A union of that tag and these arms.
fn union_of(tag: Box<Shape>, arms: Arms) -> Shape
    ensures { form result ≡ OfUnion (form tag.value) (arms_of arms.items) }
{
    Shape::Union { tag, arms }
}

#[cycle(copy)]
fn boxed(shape: &Shape, alloc: Global) -> Result<Box<Shape>, NoMemory>
    ensures { IfOk result (λ copy. form copy.value ≡ form shape.now) }
{
    let copy = copied(shape, alloc)?;
    Ok(Box::new(alloc, copy)?)
}

#[cycle(copy)]
fn each_copied(shapes: &[Shape], alloc: Global) -> Result<Shapes, NoMemory>
    ensures { IfOk result (λ copy. map form copy.items ≡ map form shapes.now) }
{
    let mut copies = Vec::new(alloc);
    for shape in shapes {
        copies.push(copied(shape, alloc)?)?;
    }
    Ok(copies)
}

#[cycle(copy)]
fn arms_copied(arms: &[Arm], alloc: Global) -> Result<Arms, NoMemory>
    ensures { IfOk result (λ copy. map face copy.items ≡ map face arms.now) }
{
    let mut copies = Vec::new(alloc);
    for arm in arms {
        copies.push(arm_copied(arm, alloc)?)?;
    }
    Ok(copies)
}

#[cycle(copy)]
fn arm_copied(arm: &Arm, alloc: Global) -> Result<Arm, NoMemory>
    ensures { IfOk result (λ copy. face copy ≡ face arm.now) }
{
    let cases = arm.cases.copy(alloc)?;
    let shape = match &arm.shape {
        None => None,
        Some(inner) => Some(copied(inner, alloc)?),
    };
    Ok(Arm {
        cases,
        default: arm.default,
        shape,
    })
}
