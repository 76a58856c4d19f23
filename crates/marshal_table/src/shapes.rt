//! The shapes of types and of what declarators declare.
ghost use Rattle.std.specs.Prelude.{◌≡◌, IfOk};
ghost use Rattle.ndr_value.specs.Forms.{form, forms, OfStruct};
ghost use Rattle.marshal_table.specs.Shapes as spec;

use crate::numbers::{in_16, in_32};
use crate::said::Terms;
use idl_outline::{Core, DataType, Declared, Extent, Layer, Text};
use idl_tree::Pk;
use ndr_table::octets;
use ndr_value::{ArrayKind, Count, Shape, Shapes};
use rpc_base::NoMemory;
use std::alloc::Global;

/// A structure of these members.
pub fn struct_shape(members: Shapes) -> Shape
    ensures { form result ≡ OfStruct (forms members.items) }
{
    Shape::Struct(members)
}

/// The shape of what has no values. It takes no memory.
pub fn nothing(alloc: Global) -> Shape
    ensures { form result ≡ spec.nothing }
{
    let members = Shapes::new(alloc);
    struct_shape(members)
}

fn int_shape(unsigned: bool, size: u8) -> Shape
    ensures { form result ≡ spec.int_form unsigned size }
{
    if unsigned {
        Shape::Uint(octets(size))
    } else {
        Shape::Int(octets(size))
    }
}

fn text_shape(text: Text) -> Result<Shape, NoMemory>
    ensures { IfOk result (λ s. form s ≡ spec.text_form text) }
{
    match text {
        Text::Pointed => Ok(Shape::Text(None)),
        Text::Fixed(size) => Ok(Shape::Text(Some(in_32(size)?))),
        Text::Open => Ok(Shape::Text(None)),
    }
}

/// The shape of what stands behind all pointers and arrays. `switch`: what names the tag of a union that
/// has no switch.
///
/// # Errors
///
/// `NoMemory` where a number has no room in its field: no interface that keeps the rules has such a
/// number.
pub fn core_shape(alloc: Global, switch: Option<Count>, core: Core) -> Result<Shape, NoMemory>
    ensures { IfOk result (λ s. form s ≡ spec.core_form switch core) }
{
    match core {
        Core::Boolean => Ok(Shape::Bool),
        Core::Byte => Ok(Shape::Byte),
        Core::Char => Ok(Shape::Char),
        Core::Text(text) => text_shape(text),
        Core::Int { unsigned, size } => Ok(int_shape(unsigned, size)),
        Core::ErrorStatus => Ok(Shape::Uint(4)),
        Core::Enum(names) => Ok(Shape::Enum(in_16(names as u64)?)),
        Core::Struct { number, .. } => Ok(Shape::Named(number, switch)),
        Core::Union { number, .. } => Ok(Shape::Named(number, switch)),
        Core::ContextHandle { kind, .. } => Ok(Shape::Handle(in_16(kind as u64)?)),
        Core::Void => Ok(nothing(alloc)),
        Core::HandleT => Ok(nothing(alloc)),
        Core::Unknown => Ok(nothing(alloc)),
    }
}

fn pointer(alloc: Global, class: Pk, shape: Shape) -> Result<Shape, NoMemory>
    ensures { IfOk result (λ s. form s ≡ spec.pointer class (form shape)) }
{
    let target = Box::new(alloc, shape)?;
    match class {
        Pk::Ref => Ok(Shape::Ref(target)),
        Pk::Unique => Ok(Shape::Unique(target)),
        Pk::Ptr => Ok(Shape::Full(target)),
    }
}

fn array(alloc: Global, kind: ArrayKind, shape: Shape) -> Result<Shape, NoMemory>
    ensures { IfOk result (λ s. form s ≡ spec.array kind (form shape)) }
{
    Ok(Shape::Array(kind, Box::new(alloc, shape)?))
}

fn layer(alloc: Global, of: Layer, shape: Shape) -> Result<Shape, NoMemory>
    ensures { IfOk result (λ s. form s ≡ spec.layer of (form shape)) }
{
    match of {
        Layer::Pointer(class) => pointer(alloc, class, shape),
        Layer::Array(size) => array(alloc, ArrayKind::Fixed(in_32(size)?), shape),
        Layer::OpenArray => array(alloc, ArrayKind::Conformant(Count::Number(0)), shape),
    }
}

// It goes as deep as there are layers.
fn layered(alloc: Global, layers: &[Layer], shape: Shape) -> Result<Shape, NoMemory>
    ensures { IfOk result (λ s. form s ≡ spec.layered layers.now (form shape)) }
{
    match layers.split_first() {
        None => Ok(shape),
        Some((first, rest)) => {
            let behind = layered(alloc, rest, shape)?;
            layer(alloc, *first, behind)
        }
    }
}

/// The shape of a type.
///
/// # Errors
///
/// `NoMemory` where there is no memory for it, or a number has no room in its field.
pub fn type_shape(alloc: Global, ty: &DataType) -> Result<Shape, NoMemory>
    ensures { IfOk result (λ s. form s ≡ spec.type_form ty.now) }
{
    let inner = core_shape(alloc, None, ty.core)?;
    layered(alloc, ty.layers.as_slice(), inner)
}

// An array that has no size is refused.
fn or_none(most: Option<Count>) -> Result<Count, NoMemory>
    ensures { IfOk result (λ c. c ≡ spec.or_none most) }
{
    match most {
        None => Err(NoMemory),
        Some(count) => Ok(count),
    }
}

fn open_kind(most: Count, travel: Option<Count>) -> ArrayKind
    ensures { result ≡ spec.open_kind most travel }
{
    match travel {
        None => ArrayKind::Conformant(most),
        Some(travel) => ArrayKind::ConformantVarying(most, travel),
    }
}

fn fixed_kind(size: u32, travel: Option<Count>) -> ArrayKind
    ensures { result ≡ spec.fixed_kind size travel }
{
    match travel {
        None => ArrayKind::Fixed(size),
        Some(travel) => ArrayKind::Varying(size, travel),
    }
}

// A declarator's outermost layer, with its counts.
fn counted(alloc: Global, terms: Terms, of: Layer, shape: Shape) -> Result<Shape, NoMemory>
    ensures { IfOk result (λ s. form s ≡ spec.counted terms of (form shape)) }
{
    match of {
        Layer::Pointer(class) => pointer(alloc, class, shape),
        Layer::Array(size) => array(alloc, fixed_kind(in_32(size)?, terms.travel), shape),
        Layer::OpenArray => array(alloc, open_kind(or_none(terms.most)?, terms.travel), shape),
    }
}

fn own_layers(
    alloc: Global,
    terms: Terms,
    layers: &[Layer],
    shape: Shape,
) -> Result<Shape, NoMemory>
    ensures { IfOk result (λ s. form s ≡ spec.own_layers terms layers.now (form shape)) }
{
    match layers.split_first() {
        None => Ok(shape),
        Some((first, rest)) => {
            let behind = layered(alloc, rest, shape)?;
            counted(alloc, terms, *first, behind)
        }
    }
}

/// The shape of what a declarator declares.
///
/// # Errors
///
/// `NoMemory` where there is no memory for it, an array has no size, or a number has no room in its
/// field.
pub fn declared_shape(alloc: Global, terms: Terms, declared: &Declared) -> Result<Shape, NoMemory>
    ensures { IfOk result (λ s. form s ≡ spec.declared_form terms declared.now) }
{
    let inner = core_shape(alloc, terms.switch, declared.ty.core)?;
    let layers = declared.ty.layers.as_slice();
    match declared.extent {
        Extent::Single => layered(alloc, layers, inner),
        Extent::Open => own_layers(alloc, terms, layers, inner),
        Extent::Fixed(_) => own_layers(alloc, terms, layers, inner),
    }
}
