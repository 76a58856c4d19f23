//! What declarators and labels say.
ghost use Rattle.std.specs.Prelude.{◌≡◌};
ghost use Rattle.rpc_base.specs.Named.{at_name};
ghost use Rattle.idl_names.specs.Declarators as spec;

use crate::place::Extent;
use idl_tree::{ArraySize, Dtor, Ident, LabelKind, Num};
use rpc_base::{Names, named};

fn constant(constants: &Names<Num>, name: &Ident) -> Option<Num>
    ensures { result ≡ at_name constants.now name.now.text }
{
    named(constants, name.text.as_slice()).copied()
}

fn size_extent(constants: &Names<Num>, size: &ArraySize) -> Extent
    ensures { result ≡ spec.size_extent (at_name constants.now) size.now }
{
    match size {
        ArraySize::Empty => Extent::Open,
        ArraySize::Star => Extent::Open,
        ArraySize::Number(number) => Extent::Fixed(Some(*number)),
        ArraySize::Named(name) => Extent::Fixed(constant(constants, name)),
    }
}

/// Whether a declarator with these brackets, or with none, is an array, and of what size.
pub fn extent_of(constants: &Names<Num>, array: &Option<ArraySize>) -> Extent
    ensures { result ≡ spec.extent_of (at_name constants.now) array.now }
{
    match array {
        None => Extent::Single,
        Some(size) => size_extent(constants, size),
    }
}

/// Whether a declarator has no star.
pub fn any_by_value(dtors: &[Dtor]) -> bool
    ensures { result ≡ spec.by_value dtors.now }
{
    dtors.iter().any(|dtor| dtor.stars == 0)
}

/// Whether there is a declarator, and each has a star.
pub fn all_pointed(dtors: &[Dtor]) -> bool
    ensures { result ≡ spec.all_pointed dtors.now }
{
    !dtors.is_empty() && !any_by_value(dtors)
}

/// The number of a case; None for the default, and where a name isn't declared.
pub fn label_number(constants: &Names<Num>, kind: &LabelKind) -> Option<Num>
    ensures { result ≡ spec.label_number (at_name constants.now) kind.now }
{
    match kind {
        LabelKind::Number(number) => Some(*number),
        LabelKind::Named(name) => constant(constants, name),
        LabelKind::Default => None,
    }
}
