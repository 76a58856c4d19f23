//! The ninth rule: what lies outside the profile.
ghost use Rattle.std.specs.Prelude.{◌≡◌};
ghost use Rattle.std.specs.List.{flat_map};
ghost use Rattle.idl_rules.specs.Least.{least};
ghost use Rattle.idl_rules.specs.OutsideProfile as spec;

use crate::handles::place_behind;
use crate::limits::{base_holds, has_above, is_bad_extent, is_outside_name, is_two_pointers};
use idl_outline::{Declared, Event, Field, Outline};
use idl_rules::{lesser, place_if, value_of};

/// `above`: an attribute gives a number above the greatest size.
fn declared_place(field: &Field, above: bool, declared: &Declared) -> Option<usize>
    requires { above ≡ spec.has_above field.now }
    ensures { result ≡ least (spec.declared_places field.now declared.now) }
{
    place_if(
        is_two_pointers(field, declared) || is_bad_extent(declared.extent) || above,
        declared.name.at,
    )
}

#[tactic(auto, using(idl_rules::proofs::Leasts::leasts))]
fn field_place(field: &Field) -> Option<usize>
    ensures { result ≡ least (spec.field_places field.now) }
{
    let above = has_above(field);
    let mut found = None;
    for declared in field.declared.as_slice() {
        found = lesser(found, declared_place(field, above, declared));
    }
    found
}

#[tactic(auto, using(idl_rules::proofs::Leasts::leasts))]
fn each_place(fields: &[Field]) -> Option<usize>
    ensures { result ≡ least (flat_map spec.field_places fields.now) }
{
    let mut found = None;
    for field in fields {
        found = lesser(found, field_place(field));
    }
    found
}

#[tactic(auto, using(idl_rules::proofs::Leasts::leasts))]
fn listed_place(fields: &[Field]) -> Option<usize>
    ensures { result ≡ least (spec.listed_places fields.now) }
{
    lesser(place_behind(fields, 255), each_place(fields))
}

/// The least place where an event, behind those of the outline, lies outside the profile.
#[tactic(auto, using(idl_rules::proofs::Leasts::leasts))]
pub fn outside_profile(past: &Outline, event: &Event) -> Option<usize>
    ensures { result ≡ least (spec.outside_profile past.now event.now) }
{
    match event {
        Event::TypeUsed(name) => place_if(is_outside_name(name.text.as_slice()), name.at),
        Event::VoidUsed(at) => Some(*at),
        Event::Operation(name) => place_if(past.operations() == 65_535, name.at),
        Event::Typedef { name, .. } => place_if(past.typedefs() == 65_535, name.at),
        Event::EnumName { name, value } => place_if(value.value == 65_535, name.at),
        Event::Constant {
            base,
            name,
            value: number,
        } => place_if(!base_holds(*base, value_of(*number)), name.at),
        Event::Single(field) => field_place(field),
        Event::Body { fields, .. } => listed_place(fields.as_slice()),
        Event::Call { result, parameters } => {
            lesser(field_place(result), listed_place(parameters.as_slice()))
        }
        _ => None,
    }
}
