//! Names, constants and sizes outside the profile.
ghost use Rattle.std.specs.Prelude.{◌≡◌};
ghost use Rattle.idl_rules.specs.OutsideProfile as spec;

use idl_outline::{Declared, Extent, Field, Mark, Size};
use idl_rules::{int_holds, is_pointer_layer, is_typedef, value_of, within};
use idl_tree::{Base, Num};

/// Whether it is the name of a type that the profile leaves out.
pub(crate) fn is_outside_name(name: &[u8]) -> bool
    ensures { result ≡ spec.is_outside_name name.now }
{
    name == b"float".as_slice()
        || name == b"double".as_slice()
        || name == b"wchar_t".as_slice()
        || name == b"pipe".as_slice()
}

/// Whether a constant of that type may have the value.
pub(crate) fn base_holds(base: Base, number: i128) -> bool
    ensures { result ≡ spec.base_holds base number }
{
    match base {
        Base::Boolean => within(0, 2, number),
        Base::Byte => within(0, 256, number),
        Base::Char { .. } => within(0, 256, number),
        Base::Int { unsigned, size, .. } => int_holds(unsigned, size, number),
    }
}

/// Whether a typedef declares a pointer to a pointer.
pub(crate) fn is_two_pointers(field: &Field, declared: &Declared) -> bool
    ensures { result ≡ spec.is_two_pointers field.now declared.now }
{
    is_typedef(field.place)
        && (declared.stars >= 2 || declared.stars == 1 && is_pointer_layer(field.spec.outer()))
}

fn is_bad_size(size: Option<Num>) -> bool
    ensures { result ≡ spec.is_bad_size size }
{
    match size {
        None => false,
        Some(number) => !within(1, 1 << 32, value_of(number)),
    }
}

/// Whether the size of an array isn't from 1 to 2^32 - 1.
pub(crate) fn is_bad_extent(extent: Extent) -> bool
    ensures { result ≡ spec.is_bad_extent extent }
{
    match extent {
        Extent::Fixed(size) => is_bad_size(size),
        Extent::Single => false,
        Extent::Open => false,
    }
}

fn is_size_above(most: u64, size: &Size) -> bool
    ensures { result ≡ spec.is_size_above most size.now }
{
    match size {
        Size::Number(number) => most < *number,
        Size::Of(_) => false,
    }
}

fn is_above(mark: &Mark) -> bool
    ensures { result ≡ spec.is_above mark.now }
{
    match mark {
        Mark::SizeIs(size) => is_size_above(4_294_967_295, size),
        Mark::LengthIs(size) => is_size_above(4_294_967_295, size),
        Mark::MaxIs(size) => is_size_above(4_294_967_294, size),
        _ => false,
    }
}

/// Whether an attribute of the field gives a number above the greatest size.
pub(crate) fn has_above(field: &Field) -> bool
    ensures { result ≡ spec.has_above field.now }
{
    field
        .attributes
        .as_slice()
        .iter()
        .any(|attribute| is_above(&attribute.mark))
}
