//! How types are made.
ghost use Rattle.std.specs.Prelude.{◌≡◌, ◌∷◌, ◌++◌, [], IfOk, OnOk};
ghost use Rattle.idl_outline.specs.Names as names;
ghost use Rattle.idl_outline.specs.Types as spec;

use crate::manner::{Manner, Structure};
use crate::outline::Outline;
use crate::ty::{Core, DataType, Layer, Text};
use idl_names::Extent;
use idl_tree::{Base, Ident, Num, Pk};
use rpc_base::{Items, NoMemory};
use std::alloc::Global;

/// The most pointers and arrays of one type. A type with more is refused as want of memory: whoever
/// goes over the shape of such a type goes as deep on the machine's stack.
pub const MOST_LAYERS: usize = 1_024;

/// The type without pointers and arrays. It takes no memory.
pub fn bare(alloc: Global, core: Core) -> DataType
    ensures { result ≡ spec.bare core }
{
    DataType {
        core,
        layers: Items::new(alloc),
    }
}

/// What a base type's words name; each spelling of an integer is the integer of its octets.
pub fn core_of(base: Base) -> Core
    ensures { result ≡ spec.core_of base }
{
    match base {
        Base::Boolean => Core::Boolean,
        Base::Byte => Core::Byte,
        Base::Char { .. } => Core::Char,
        Base::Int { unsigned, size, .. } => Core::Int { unsigned, size },
    }
}

fn bound(size: Option<Num>) -> u64
    ensures { result ≡ spec.bound size }
{
    match size {
        None => 0,
        Some(number) => number.value,
    }
}

fn outermost(manner: Manner, extent: Extent) -> Pk
    ensures { result ≡ spec.outermost manner extent }
{
    match extent {
        Extent::Single => manner.outer,
        Extent::Open => manner.element,
        Extent::Fixed(_) => manner.element,
    }
}

fn text_array(extent: Extent, core: Core) -> Core
    ensures { result ≡ spec.text_array extent core }
{
    match extent {
        Extent::Single => core,
        Extent::Open => Core::Text(Text::Open),
        Extent::Fixed(size) => Core::Text(Text::Fixed(bound(size))),
    }
}

// `text`: `string` makes a text of it.
fn own_core(text: bool, stars: usize, extent: Extent, core: Core) -> Core
    ensures { result ≡ spec.own_core text stars extent core }
{
    if !text {
        core
    } else if stars == 0 {
        text_array(extent, core)
    } else {
        Core::Text(Text::Pointed)
    }
}

fn is_characters(ty: &DataType) -> bool
    ensures { result ≡ spec.is_characters ty.now }
{
    matches!(ty.core, Core::Char) && ty.outer().is_none()
}

// An array, before the pointers of its elements.
fn array_begins(layers: &mut Items<Layer>, extent: Extent) -> Result<(), NoMemory>
    ensures { OnOk result (layers.new ≡ layers.old ++ spec.in_array extent []) }
{
    match extent {
        Extent::Single => Ok(()),
        Extent::Open => layers.push(Layer::OpenArray),
        Extent::Fixed(size) => layers.push(Layer::Array(bound(size))),
    }
}

#[tactic(auto, using(crate::proofs::Layered::chains))]
fn add_chain(layers: &mut Items<Layer>, class: Pk, stars: usize) -> Result<(), NoMemory>
    ensures { OnOk result (layers.new ≡ layers.old ++ spec.chain class stars []) }
{
    for made in 0..stars {
        layers.push(Layer::Pointer(class))?;
    }
    Ok(())
}

#[tactic(auto, using(crate::proofs::Layered::chains))]
fn add_pointers(
    layers: &mut Items<Layer>,
    inner: Pk,
    outer: Pk,
    stars: usize,
) -> Result<(), NoMemory>
    ensures { OnOk result (layers.new ≡ layers.old ++ spec.pointers inner outer stars []) }
{
    if stars == 0 {
        return Ok(());
    }
    layers.push(Layer::Pointer(outer))?;
    add_chain(layers, inner, stars - 1)
}

// The layers of what a declarator declares, before those of its spec.
#[tactic(auto, using(crate::proofs::Layered::chains))]
fn own_layers(
    alloc: Global,
    manner: Manner,
    stars: usize,
    extent: Extent,
    others: &[Layer],
) -> Result<Items<Layer>, NoMemory>
    ensures { IfOk result (λ ls. ls ≡ spec.in_array extent (spec.pointers manner.inner (spec.outermost manner extent) stars others.now)) }
{
    if stars > MOST_LAYERS || others.len() > MOST_LAYERS {
        return Err(NoMemory);
    }
    if stars + others.len() >= MOST_LAYERS {
        return Err(NoMemory);
    }
    let mut layers = Items::new(alloc);
    array_begins(&mut layers, extent)?;
    add_pointers(&mut layers, manner.inner, outermost(manner, extent), stars)?;
    layers.append(others)?;
    Ok(layers)
}

fn declared_with(
    alloc: Global,
    text: bool,
    manner: Manner,
    stars: usize,
    extent: Extent,
    ty: &DataType,
) -> Result<DataType, NoMemory>
    ensures { IfOk result (λ t. t ≡ spec.declared_with text manner stars extent ty.now) }
{
    let core = own_core(text, stars, extent, ty.core);
    if text && stars == 0 {
        return Ok(DataType {
            core,
            layers: Items::new(alloc),
        });
    }
    let layers = own_layers(alloc, manner, stars, extent, ty.layers.as_slice())?;
    Ok(DataType { core, layers })
}

/// The type of what a declarator with so many stars declares. `handle`: it stands in a typedef with a
/// word for context handles, of which `kind` were declared before.
///
/// # Errors
///
/// `NoMemory` where there is no memory for its layers, or they are more than `MOST_LAYERS`.
pub(crate) fn declared_type(
    alloc: Global,
    handle: bool,
    kind: usize,
    manner: Manner,
    stars: usize,
    extent: Extent,
    ty: &DataType,
) -> Result<DataType, NoMemory>
    ensures { IfOk result (λ t. t ≡ spec.declared_type handle kind manner stars extent ty.now) }
{
    if handle {
        let serialised = manner.serialised;
        Ok(bare(alloc, Core::ContextHandle { kind, serialised }))
    } else {
        let text = manner.text && is_characters(ty);
        declared_with(alloc, text, manner, stars, extent, ty)
    }
}

/// The type that a name stands for; `Core::Unknown` where no event declares it.
///
/// # Errors
///
/// `NoMemory` where there is no memory for its layers.
pub fn named_type(alloc: Global, outline: &Outline, name: &Ident) -> Result<DataType, NoMemory>
    ensures { IfOk result (λ t. t ≡ spec.or_unknown (names.type_named name.now.text outline.now)) }
{
    match outline.type_named(name.text.as_slice()) {
        Some(ty) => ty.copy(alloc),
        None => Ok(bare(alloc, Core::Unknown)),
    }
}

fn struct_type(alloc: Global, known: Option<Structure>) -> DataType
    ensures { result ≡ spec.struct_type known }
{
    match known {
        None => bare(alloc, Core::Unknown),
        Some(known) => bare(
            alloc,
            Core::Struct {
                open: known.ends_open,
                number: known.number,
            },
        ),
    }
}

/// The type that a structure's tag stands for. `pointed`: it stands behind a pointer, as it has to
/// inside of the structure's own body; `Core::Unknown` elsewhere there, and where no event declares it.
pub fn tagged_type(alloc: Global, outline: &Outline, pointed: bool, tag: &Ident) -> DataType
    ensures { result ≡ spec.struct_type (names.tag_named pointed tag.now.text outline.now) }
{
    struct_type(alloc, outline.tag_named(pointed, tag.text.as_slice()))
}
