//! Conformant arrays, and structures that end in one.
ghost use Rattle.std.specs.Prelude.{◌≡◌};
ghost use Rattle.idl_rules.specs.Least.{least};
ghost use Rattle.idl_rules.specs.BadAttribute as spec;
ghost use Rattle.idl_uses.specs.Facts as facts;

use crate::facts::Said;
use crate::parameters::is_bad_parameter;
use idl_outline::{Declared, Field};
use idl_rules::{
    by_value, is_arm, is_member, is_open_extent, is_open_layer, is_open_struct, is_parameter,
    is_single, place_if,
};

fn is_sized(field: &Field, said: Said, declared: &Declared) -> bool
    requires { said ≡ facts.said_by field.now }
    ensures { result ≡ spec.is_sized field.now declared.now }
{
    said.size || said.string && declared.stars == 0
}

fn may_be_open(field: &Field, followed: bool) -> bool
    ensures { result ≡ spec.may_be_open field.now followed }
{
    is_parameter(field.place) || is_member(field.place) && !followed
}

fn is_bad_array(field: &Field, said: Said, followed: bool, declared: &Declared) -> bool
    requires { said ≡ facts.said_by field.now }
    ensures { result ≡ spec.is_bad_array field.now followed declared.now }
{
    is_open_extent(declared.extent)
        && (!is_sized(field, said, declared) || !may_be_open(field, followed))
}

fn is_open_by_value(field: &Field) -> bool
    ensures { result ≡ spec.is_open_by_value field.now }
{
    by_value(&field.spec) && is_open_struct(field.spec.core)
}

fn is_bad_element(field: &Field, declared: &Declared) -> bool
    ensures { result ≡ spec.is_bad_element field.now declared.now }
{
    !is_single(declared.extent)
        && declared.stars == 0
        && (is_open_layer(field.spec.outer()) || is_open_by_value(field))
}

fn is_bad_struct(field: &Field, followed: bool, declared: &Declared) -> bool
    ensures { result ≡ spec.is_bad_struct field.now followed declared.now }
{
    (is_single(declared.extent) && declared.stars == 0)
        && (is_open_by_value(field) && (is_member(field.place) && followed || is_arm(field.place)))
}

/// The declarator's place, where it is at fault. `followed`: a member of the same structure comes
/// behind it.
pub(crate) fn declared_place(
    field: &Field,
    said: Said,
    followed: bool,
    declared: &Declared,
) -> Option<usize>
    requires { said ≡ facts.said_by field.now }
    ensures { result ≡ least (spec.declared_places field.now followed declared.now) }
{
    place_if(
        is_parameter(field.place) && is_bad_parameter(field, said, declared)
            || is_bad_array(field, said, followed, declared)
            || is_bad_element(field, declared)
            || is_bad_struct(field, followed, declared),
        declared.name.at,
    )
}
