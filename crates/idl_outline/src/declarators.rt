//! What attributes and declarators declare.
ghost use Rattle.std.specs.Prelude.{◌≡◌, ◌+◌, reverse, IfOk, OnOk, MatchOption, ◌∷◌, []};
ghost use Rattle.idl_forms.specs.Forms.{attrs_form};
ghost use Rattle.idl_outline.specs.Names as spec;
ghost use Rattle.idl_outline.specs.Parts as parts;
ghost use Rattle.idl_outline.specs.Types as types;

use crate::event::{Event, Labels, Tag};
use crate::field::{Attribute, Attributes, Bare, Declared, Field, Mark, NameRef, Size};
use crate::manner::Manner;
use crate::outline::Outline;
use crate::setting::Setting;
use crate::ty::{Core, DataType, Layer};
use crate::types::{bare, declared_type};
use idl_names::{
    Place, Word, all_pointed, copy_name, extent_of, is_serialised, or_class, outer_class,
    pointer_given, says,
};
use idl_tree::{ArraySize, Attr, Dtor, Pk, SizeRef};
use rpc_base::{Items, NoMemory};
use std::alloc::Global;

fn tag_of(mark: &Mark) -> Option<Tag>
    ensures { result ≡ spec.tag_of mark.now }
{
    match mark {
        Mark::SwitchType { spec_at, ty } => Some(Tag::Given {
            at: *spec_at,
            ty: *ty,
        }),
        _ => None,
    }
}

fn first_tag(attributes: &[Attribute]) -> Option<Tag>
    ensures { result ≡ spec.first_tag attributes.now }
{
    for attribute in attributes {
        let tag = tag_of(&attribute.mark);
        if tag.is_some() {
            return tag;
        }
    }
    None
}

/// The tag that the list's first `switch_type` gives.
pub fn tag_given(attributes: &[Attribute]) -> Tag
    ensures { result ≡ spec.tag_given attributes.now }
{
    match first_tag(attributes) {
        Some(tag) => tag,
        None => Tag::Missing,
    }
}

fn is_typedef(place: Place) -> bool
    ensures { result ≡ spec.is_typedef place }
{
    matches!(place, Place::Typedef)
}

fn declared(
    alloc: Global,
    outline: &Outline,
    handle: bool,
    kind: usize,
    manner: Manner,
    ty: &DataType,
    dtor: &Dtor,
) -> Result<Declared, NoMemory>
    ensures { IfOk result (λ d. d ≡ spec.declared outline.now handle kind manner ty.now dtor.now) }
{
    let name = copy_name(alloc, &dtor.name)?;
    let extent = extent_of(outline.constants(), &dtor.array);
    let ty = declared_type(alloc, handle, kind, manner, dtor.stars, extent, ty)?;
    Ok(Declared {
        name,
        stars: dtor.stars,
        extent,
        ty,
    })
}

// `first`: the number of the first declarator's type of context handles, where they are such.
fn each_declared(
    alloc: Global,
    outline: &Outline,
    handle: bool,
    first: usize,
    manner: Manner,
    ty: &DataType,
    dtors: &[Dtor],
) -> Result<Items<Declared>, NoMemory>
    ensures { IfOk result (λ ds. ds ≡ spec.each_declared outline.now handle first manner ty.now dtors.now) }
{
    let mut all = Items::new(alloc);
    let mut kind = first;
    for dtor in dtors {
        all.push(declared(alloc, outline, handle, kind, manner, ty, dtor)?)?;
        kind = next(kind)?;
    }
    Ok(all)
}

fn next(number: usize) -> Result<usize, NoMemory>
    ensures { IfOk result (λ n. n ≡ number + 1) }
{
    match number.checked_add(1) {
        Some(next) => Ok(next),
        None => Err(NoMemory),
    }
}

fn manner_of(default: Pk, place: Place, attrs: &[Attr]) -> Manner
    ensures { result ≡ spec.manner_of default place (attrs_form attrs.now) }
{
    Manner {
        inner: default,
        outer: outer_class(default, place, attrs),
        element: or_class(pointer_given(attrs), default),
        text: says(attrs, Word::Text),
        serialised: is_serialised(attrs),
    }
}

fn declared_all(
    alloc: Global,
    outline: &Outline,
    default: Pk,
    place: Place,
    attrs: &[Attr],
    ty: &DataType,
    dtors: &[Dtor],
) -> Result<Items<Declared>, NoMemory>
    ensures { IfOk result (λ ds. ds ≡ spec.declared_all outline.now place default (attrs_form attrs.now) ty.now dtors.now) }
{
    let handle = is_typedef(place) && says(attrs, Word::Handle);
    let manner = manner_of(default, place, attrs);
    each_declared(alloc, outline, handle, outline.kinds(), manner, ty, dtors)
}

/// The field of a spec, its attributes and its declarators. `attrs`: these attributes in the tree. The
/// class of a pointer is that of the list's first pointer attribute, else `ref` for a parameter's own
/// pointers, else `default`.
///
/// # Errors
///
/// `NoMemory` where there is no memory for the declared names.
pub fn field_with(
    alloc: Global,
    outline: &Outline,
    default: Pk,
    place: Place,
    attrs: &[Attr],
    attributes: Attributes,
    ty: DataType,
    bare: Bare,
    dtors: &[Dtor],
) -> Result<Field, NoMemory>
    ensures { IfOk result (λ f. f ≡ parts.field_of default place (attrs_form attrs.now) attributes ty bare dtors.now outline.now) }
{
    let declared = declared_all(alloc, outline, default, place, attrs, &ty, dtors)?;
    Ok(Field {
        place,
        attributes,
        spec: ty,
        bare,
        labels: Labels::new(alloc),
        declared,
    })
}

/// The field of an arm that has no member.
pub fn empty_field(alloc: Global, labels: Labels) -> Field
    ensures { result ≡ parts.empty_field labels }
{
    Field {
        place: Place::Arm,
        attributes: Attributes::new(alloc),
        spec: bare(alloc, Core::Void),
        bare: Bare::No,
        labels,
        declared: Items::new(alloc),
    }
}

fn open_core(core: Core) -> bool
    ensures { result ≡ types.open_core core }
{
    match core {
        Core::Struct { open, .. } => open,
        _ => false,
    }
}

fn is_open(ty: &DataType) -> bool
    ensures { result ≡ types.is_open ty.now }
{
    match ty.outer() {
        None => open_core(ty.core),
        Some(layer) => match layer {
            Layer::OpenArray => true,
            Layer::Array(_) => false,
            Layer::Pointer(_) => false,
        },
    }
}

fn last_declared(declared: &[Declared]) -> Option<(&Declared, &[Declared])>
    ensures { MatchOption result (reverse declared.now ≡ []) (λ p. reverse declared.now ≡ p.0.now ∷ reverse p.1.now) }
{
    declared.split_last()
}

fn last_field(fields: &[Field]) -> Option<(&Field, &[Field])>
    ensures { MatchOption result (reverse fields.now ≡ []) (λ p. reverse fields.now ≡ p.0.now ∷ reverse p.1.now) }
{
    fields.split_last()
}

fn last_open(declared: &[Declared]) -> bool
    ensures { result ≡ spec.last_open declared.now }
{
    match last_declared(declared) {
        None => false,
        Some((last, _)) => is_open(&last.ty),
    }
}

/// Whether a conformant array ends a body: its last declarator is one, or is a structure, by value, that
/// ends in one.
pub fn ends_open(fields: &[Field]) -> bool
    ensures { result ≡ spec.ends_open fields.now }
{
    match last_field(fields) {
        None => false,
        Some((last, _)) => last_open(last.declared.as_slice()),
    }
}

fn may_be_void(place: Place, attrs: &[Attr]) -> bool
    ensures { result ≡ parts.may_be_void place (attrs_form attrs.now) }
{
    match place {
        Place::Typedef => says(attrs, Word::Handle),
        Place::Operation => true,
        Place::Alone | Place::Parameter | Place::Member | Place::Arm => false,
    }
}

/// The setting of a spec at a place, behind these attributes and before these declarators. `given`: the
/// tag that the attributes give.
pub fn setting_of(default: Pk, place: Place, attrs: &[Attr], dtors: &[Dtor], given: Tag) -> Setting
    ensures { result ≡ parts.setting_at default place (attrs_form attrs.now) dtors.now given }
{
    Setting {
        default,
        pointed: all_pointed(dtors),
        void_allowed: may_be_void(place, attrs),
        given,
    }
}

/// The setting of a union's switch, and of a spec in a `switch_type`.
pub fn setting_alone(default: Pk) -> Setting
    ensures { result ≡ parts.alone default }
{
    setting_of(default, Place::Alone, &[], &[], Tag::Missing)
}

/// A copy of the size that an attribute gives.
///
/// # Errors
///
/// `NoMemory` where there is no memory for a name.
pub fn size(alloc: Global, size: &SizeRef) -> Result<Size, NoMemory>
    ensures { IfOk result (λ s. s ≡ parts.size_of size.now) }
{
    match size {
        SizeRef::Number(number) => Ok(Size::Number(number.value)),
        SizeRef::Named { star, name } => {
            let name = copy_name(alloc, name)?;
            Ok(Size::Of(NameRef { star: *star, name }))
        }
    }
}

fn array_used(alloc: Global, size: &ArraySize, outline: &mut Outline) -> Result<(), NoMemory>
    ensures { OnOk result (outline.new ≡ parts.array_past size.now outline.old) }
{
    match size {
        ArraySize::Named(name) => {
            let name = copy_name(alloc, name)?;
            outline.happen(Event::ConstantUsed(name))
        }
        ArraySize::Empty => Ok(()),
        ArraySize::Star => Ok(()),
        ArraySize::Number(_) => Ok(()),
    }
}

fn size_used(
    alloc: Global,
    array: &Option<ArraySize>,
    outline: &mut Outline,
) -> Result<(), NoMemory>
    ensures { OnOk result (outline.new ≡ parts.size_past array.now outline.old) }
{
    match array {
        None => Ok(()),
        Some(size) => array_used(alloc, size, outline),
    }
}

/// Adds the names that the declarators use as sizes, in order.
///
/// # Errors
///
/// `NoMemory` where there is no memory for a name or an event.
pub fn sizes_used(alloc: Global, dtors: &[Dtor], outline: &mut Outline) -> Result<(), NoMemory>
    ensures { OnOk result (outline.new ≡ parts.sizes_past dtors.now outline.old) }
{
    for dtor in dtors {
        size_used(alloc, &dtor.array, outline)?;
    }
    Ok(())
}
