//! The third rule: attributes, and what asks for them.
ghost use Rattle.std.specs.Prelude.{◌≡◌, List, map, IfOk};
ghost use Rattle.std.specs.List.{flat_map, list_any};
ghost use Rattle.idl_forms.specs.Forms.{tree_form, file_form};
ghost use Rattle.idl_outline.specs.declared.event.Event.{Event};
ghost use Rattle.idl_rules.specs.Types as types;
ghost use Rattle.idl_rules.specs.Least.{least};
ghost use Rattle.idl_rules.specs.Places.{repeats};
ghost use Rattle.idl_rules.specs.BadAttribute as spec;
ghost use Rattle.idl_uses.specs.Facts as facts;

use crate::arrays::declared_place;
use crate::facts::{Said, Together, holding, said_by};
use crate::meanings::has_meaning;
use crate::parameters::bad_on_parameter;
use idl_outline::{Attribute, Declared, Event, Field};
use idl_rules::{Saying, has, is_parameter, is_uuid, is_void, lesser, place_if, repeated, says};
use idl_tree::{Ast, FileAttr};
use rpc_base::NoMemory;
use std::alloc::Global;

fn attribute_place(
    field: &Field,
    said: Said,
    together: Together,
    attribute: &Attribute,
) -> Option<usize>
    requires said { said ≡ facts.said_by field.now }
    requires together { together ≡ facts.holding field.now }
    ensures { result ≡ least (spec.attribute_places field.now attribute.now) }
{
    let mark = &attribute.mark;
    place_if(
        !has_meaning(field, together, mark)
            || is_parameter(field.place) && bad_on_parameter(field, said, together, mark),
        attribute.at,
    )
}

#[tactic(auto, using(idl_rules::proofs::Leasts::leasts))]
fn attributes_place(field: &Field, said: Said) -> Option<usize>
    requires { said ≡ facts.said_by field.now }
    ensures { result ≡ least (flat_map (spec.attribute_places field.now) field.now.attributes) }
{
    let together = holding(field);
    let mut found = None;
    for attribute in field.attributes.as_slice() {
        found = lesser(found, attribute_place(field, said, together, attribute));
    }
    found
}

fn is_more<T>(rest: &[T]) -> bool
    ensures { result ≡ spec.is_more rest.now }
{
    match rest.first() {
        None => false,
        Some(_) => true,
    }
}

/// `more`: another field follows it.
#[tactic(auto, using(idl_rules::proofs::Leasts::leasts))]
fn each_declared(field: &Field, said: Said, more: bool, declared: &[Declared]) -> Option<usize>
    requires { said ≡ facts.said_by field.now }
    ensures { result ≡ least (spec.each_declared field.now more declared.now) }
{
    let mut found = None;
    let mut rest = declared;
    while let Some((one, others)) = rest.split_first() {
        let followed = is_more(others) || more;
        found = lesser(found, declared_place(field, said, followed, one));
        rest = others;
    }
    found
}

#[tactic(auto, using(idl_rules::proofs::Leasts::leasts))]
fn field_place(alloc: Global, field: &Field, more: bool) -> Result<Option<usize>, NoMemory>
    ensures { IfOk result (λ at. at ≡ least (spec.field_places field.now more)) }
{
    let said = said_by(field);
    let again = repeated(alloc, field.attributes.as_slice())?;
    Ok(lesser(
        again,
        lesser(
            attributes_place(field, said),
            each_declared(field, said, more, field.declared.as_slice()),
        ),
    ))
}

#[tactic(auto, using(idl_rules::proofs::Leasts::leasts))]
fn each_field(alloc: Global, fields: &[Field]) -> Result<Option<usize>, NoMemory>
    ensures { IfOk result (λ at. at ≡ least (spec.each_field fields.now)) }
{
    let mut found = None;
    let mut rest = fields;
    while let Some((field, others)) = rest.split_first() {
        found = lesser(found, field_place(alloc, field, is_more(others))?);
        rest = others;
    }
    Ok(found)
}

fn any_out(parameters: &[Field]) -> bool
    ensures { result ≡ list_any (types.has types.says_out) parameters.now }
{
    parameters.iter().any(|field| has(field, Saying::Out))
}

fn answers(field: &Field, parameters: &[Field]) -> bool
    ensures { result ≡ spec.answers field.now parameters.now }
{
    !is_void(field.spec.core) || any_out(parameters)
}

/// The place of `maybe` on an operation that has a result or a parameter that comes back.
#[tactic(auto, using(idl_rules::proofs::Leasts::leasts))]
fn maybe_place(field: &Field, parameters: &[Field]) -> Option<usize>
    ensures { result ≡ least (flat_map (spec.maybe_places field.now parameters.now) field.now.attributes) }
{
    let answers = answers(field, parameters);
    let mut found = None;
    for attribute in field.attributes.as_slice() {
        let at = place_if(
            says(Saying::Maybe, &attribute.mark) && answers,
            attribute.at,
        );
        found = lesser(found, at);
    }
    found
}

#[tactic(auto, using(idl_rules::proofs::Leasts::leasts))]
fn call_place(alloc: Global, field: &Field, parameters: &[Field]) -> Result<Option<usize>, NoMemory>
    ensures { IfOk result (λ at. at ≡ least (spec.call_places field.now parameters.now)) }
{
    let own = field_place(alloc, field, false)?;
    let each = each_field(alloc, parameters)?;
    Ok(lesser(own, lesser(maybe_place(field, parameters), each)))
}

/// The least place where the event has an attribute twice or without a meaning, or lacks one.
///
/// # Errors
///
/// `NoMemory` where there is no memory for the attributes that were seen.
pub fn bad_attribute(alloc: Global, event: &Event) -> Result<Option<usize>, NoMemory>
    ensures { IfOk result (λ at. (past : List Event) → at ≡ least (spec.bad_attribute past event.now)) }
{
    match event {
        Event::Single(field) => Ok(field_place(alloc, field, false)?),
        Event::Body { fields, .. } => Ok(each_field(alloc, fields.as_slice())?),
        Event::Call { result, parameters } => Ok(call_place(alloc, result, parameters.as_slice())?),
        _ => Ok(None),
    }
}

fn any_uuid(attributes: &[FileAttr]) -> bool
    ensures { result ≡ list_any (λ a. spec.is_uuid (file_form a)) attributes.now }
{
    attributes.iter().any(|attribute| is_uuid(attribute))
}

// Whether the interface has a uuid.
#[tactic(auto, using(idl_rules::proofs::Mapped::any_mapped))]
fn has_uuid(attributes: &[FileAttr]) -> bool
    ensures { result ≡ list_any spec.is_uuid (map file_form attributes.now) }
{
    any_uuid(attributes)
}

// The least place of an attribute that stands twice.
#[tactic(auto, using(idl_rules::proofs::Mapped::repeats_mapped))]
fn again(alloc: Global, attributes: &[FileAttr]) -> Result<Option<usize>, NoMemory>
    ensures { IfOk result (λ at. at ≡ least (repeats spec.same_file_kind spec.file_place (map file_form attributes.now))) }
{
    let found = repeated(alloc, attributes)?;
    Ok(found)
}

/// The least place where the interface's own attributes stand twice, or its name where it has no uuid.
///
/// # Errors
///
/// `NoMemory` where there is no memory for the attributes that were seen.
#[tactic(auto, using(idl_rules::proofs::Leasts::leasts))]
pub fn bad_file(alloc: Global, tree: &Ast) -> Result<Option<usize>, NoMemory>
    ensures { IfOk result (λ at. at ≡ least (spec.bad_file (tree_form tree.now))) }
{
    let attributes: &[FileAttr] = &tree.attributes;
    let found = again(alloc, attributes)?;
    Ok(lesser(found, place_if(!has_uuid(attributes), tree.name.at)))
}
