//! What a list of attributes says.
ghost use Rattle.std.specs.Prelude.{◌≡◌, map};
ghost use Rattle.idl_forms.specs.Forms.{attr_kind_form, attrs_form, file_kind_form, file_form};
ghost use Rattle.idl_names.specs.Attributes as spec;

use crate::place::Place;
use idl_tree::{Attr, AttrKind, FileAttr, FileAttrKind, Pk};

/// What an attribute may say by a word alone.
#[derive(Clone, Copy, PartialEq, Eq)]
pub enum Word {
    In,
    Out,
    /// `string`.
    Text,
    Maybe,
    /// One of the three for context handles.
    Handle,
    /// `context_handle_noserialize`.
    Noserialize,
}

fn is_word(word: Word, kind: &AttrKind) -> bool
    ensures { result ≡ spec.is_word word (attr_kind_form kind.now) }
{
    match word {
        Word::In => matches!(kind, AttrKind::In),
        Word::Out => matches!(kind, AttrKind::Out),
        Word::Text => matches!(kind, AttrKind::Text),
        Word::Maybe => matches!(kind, AttrKind::Maybe),
        Word::Handle => matches!(
            kind,
            AttrKind::Handle | AttrKind::HandleSerialize | AttrKind::HandleNoserialize
        ),
        Word::Noserialize => matches!(kind, AttrKind::HandleNoserialize),
    }
}

/// Whether an attribute says so.
pub fn says(attrs: &[Attr], word: Word) -> bool
    ensures { result ≡ spec.says (spec.is_word word) (attrs_form attrs.now) }
{
    for attr in attrs {
        if is_word(word, &attr.what) {
            return true;
        }
    }
    false
}

/// Whether calls with a handle of these attributes come one after another.
pub fn is_serialised(attrs: &[Attr]) -> bool
    ensures { result ≡ spec.is_serialised (attrs_form attrs.now) }
{
    !says(attrs, Word::Noserialize)
}

fn pointer_in(kind: &AttrKind) -> Option<Pk>
    ensures { result ≡ spec.pointer_in (attr_kind_form kind.now) }
{
    match kind {
        AttrKind::Pointer(class) => Some(*class),
        AttrKind::In
        | AttrKind::Out
        | AttrKind::Text
        | AttrKind::Idempotent
        | AttrKind::Maybe
        | AttrKind::Handle
        | AttrKind::HandleSerialize
        | AttrKind::HandleNoserialize
        | AttrKind::SizeIs(_)
        | AttrKind::MaxIs(_)
        | AttrKind::LengthIs(_)
        | AttrKind::SwitchIs { .. }
        | AttrKind::SwitchType(_)
        | AttrKind::Range(..) => None,
    }
}

/// The class that the first pointer attribute gives.
pub fn pointer_given(attrs: &[Attr]) -> Option<Pk>
    ensures { result ≡ spec.given spec.pointer_in (attrs_form attrs.now) }
{
    for attr in attrs {
        let found = pointer_in(&attr.what);
        if found.is_some() {
            return found;
        }
    }
    None
}

/// The class that is given, else the other.
pub fn or_class(class: Option<Pk>, other: Pk) -> Pk
    ensures { result ≡ spec.or_class class other }
{
    match class {
        Some(class) => class,
        None => other,
    }
}

// The class of a declarator's own pointers where no attribute gives one.
fn class_at(default: Pk, place: Place) -> Pk
    ensures { result ≡ spec.class_at default place }
{
    match place {
        Place::Parameter => Pk::Ref,
        Place::Typedef | Place::Alone | Place::Operation | Place::Member | Place::Arm => default,
    }
}

/// The class of the outermost pointer of what a declarator behind these attributes declares that is no
/// array. `default`: that of the interface.
pub fn outer_class(default: Pk, place: Place, attrs: &[Attr]) -> Pk
    ensures { result ≡ spec.outer_class default place (attrs_form attrs.now) }
{
    or_class(pointer_given(attrs), class_at(default, place))
}

fn default_in(kind: &FileAttrKind) -> Option<Pk>
    ensures { result ≡ spec.default_in (file_kind_form kind.now) }
{
    match kind {
        FileAttrKind::PointerDefault(class) => Some(*class),
        _ => None,
    }
}

/// The pointer class of an interface, `unique` where it says none.
pub fn pointer_default(attributes: &[FileAttr]) -> Pk
    ensures { result ≡ spec.pointer_default (map file_form attributes.now) }
{
    for attribute in attributes {
        if let Some(class) = default_in(&attribute.what) {
            return class;
        }
    }
    Pk::Unique
}
