//! The fifth rule: how handles are declared and used.
ghost use Rattle.std.specs.Prelude.{◌≡◌, List, false};
ghost use Rattle.std.specs.List.{flat_map};
ghost use Rattle.idl_outline.specs.declared.event.Event.{Event};
ghost use Rattle.idl_rules.specs.Least.{least};
ghost use Rattle.idl_rules.specs.HandleUse as spec;
ghost use Rattle.idl_uses.specs.Facts as facts;

use crate::facts::{Said, said_by};
use idl_outline::{Declared, Event, Field, Tag};
use idl_rules::{
    by_value, is_context_handle, is_handle_t, is_one_pointer, is_parameter, is_ref_layer,
    is_single, is_typedef, is_unknown, is_void, lesser, place_if,
};

fn is_bad_handle_type(field: &Field, said: Said, declared: &Declared) -> bool
    requires { said ≡ facts.said_by field.now }
    ensures { result ≡ spec.is_bad_handle_type field.now declared.now }
{
    let ty = &field.spec;
    is_typedef(field.place)
        && said.handle
        && !(is_unknown(ty.core)
            || is_void(ty.core)
                && by_value(ty)
                && declared.stars == 1
                && is_single(declared.extent))
}

fn is_good_use(field: &Field, said: Said, declared: &Declared) -> bool
    requires { said ≡ facts.said_by field.now }
    ensures { result ≡ spec.is_good_use field.now declared.now }
{
    let ty = &declared.ty;
    let by_pointer = is_one_pointer(ty) && is_ref_layer(ty.outer());
    is_parameter(field.place)
        && (said.inward && !said.outward && by_value(ty) || said.outward && by_pointer)
}

fn is_bad_use(field: &Field, said: Said, declared: &Declared) -> bool
    requires { said ≡ facts.said_by field.now }
    ensures { result ≡ spec.is_bad_use field.now declared.now }
{
    is_context_handle(field.spec.core) && !is_good_use(field, said, declared)
}

fn is_bad_binding(first: bool, field: &Field, declared: &Declared) -> bool
    ensures { result ≡ spec.is_bad_binding first field.now declared.now }
{
    is_handle_t(field.spec.core) && !(first && by_value(&declared.ty))
}

fn declared_place(first: bool, field: &Field, said: Said, declared: &Declared) -> Option<usize>
    requires { said ≡ facts.said_by field.now }
    ensures { result ≡ least (spec.declared_places first field.now declared.now) }
{
    place_if(
        is_bad_handle_type(field, said, declared)
            || is_bad_use(field, said, declared)
            || is_bad_binding(first, field, declared),
        declared.name.at,
    )
}

/// `first`: the field is an operation's first parameter.
#[tactic(auto, using(idl_rules::proofs::Leasts::leasts))]
fn field_place(first: bool, field: &Field) -> Option<usize>
    ensures { result ≡ least (spec.field_places first field.now) }
{
    let said = said_by(field);
    let mut found = None;
    for declared in field.declared.as_slice() {
        found = lesser(found, declared_place(first, field, said, declared));
    }
    found
}

#[tactic(auto, using(idl_rules::proofs::Leasts::leasts))]
fn each_place(fields: &[Field]) -> Option<usize>
    ensures { result ≡ least (flat_map (spec.field_places false) fields.now) }
{
    let mut found = None;
    for field in fields {
        found = lesser(found, field_place(false, field));
    }
    found
}

#[tactic(auto, using(idl_rules::proofs::Leasts::leasts))]
fn parameter_place(parameters: &[Field]) -> Option<usize>
    ensures { result ≡ least (spec.parameter_places parameters.now) }
{
    match parameters.split_first() {
        None => None,
        Some((first, others)) => lesser(field_place(true, first), each_place(others)),
    }
}

fn tag_place(tag: Tag) -> Option<usize>
    ensures { result ≡ least (spec.tag_places tag) }
{
    match tag {
        Tag::Switch { at, ty } => place_if(is_handle_t(ty.core) || is_context_handle(ty.core), at),
        Tag::Given { .. } => None,
        Tag::Missing => None,
    }
}

/// The least place where the event declares a context handle as other than `void *`, or uses a handle
/// other than as it may be.
#[tactic(auto, using(idl_rules::proofs::Leasts::leasts))]
pub fn handle_use(event: &Event) -> Option<usize>
    ensures { (past : List Event) → result ≡ least (spec.handle_use past event.now) }
{
    match event {
        Event::Union { tag, .. } => tag_place(*tag),
        Event::Single(field) => field_place(false, field),
        Event::Body { fields, .. } => each_place(fields.as_slice()),
        Event::Call { result, parameters } => lesser(
            field_place(false, result),
            parameter_place(parameters.as_slice()),
        ),
        _ => None,
    }
}
