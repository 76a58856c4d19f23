//! The bodies of structures and unions.
ghost use Rattle.std.specs.Prelude.{◌≡◌, ◌<◌, ◌++◌, map, IfOk, OnOk};
ghost use Rattle.std.specs.List.{flat_map, list_any};
ghost use Rattle.ndr_value.specs.Forms.{form, body, face, arms_of, OfStruct, OfUnion};
ghost use Rattle.marshal_table.specs.Bodies as spec;
ghost use Rattle.marshal_table.specs.Shapes as shapes;

use crate::numbers::signed_64;
use crate::said::Terms;
use crate::shapes::{core_shape, declared_shape, nothing, struct_shape};
use crate::terms::terms;
use idl_names::copy_name;
use idl_outline::{Declared, Field, Label, Tag, TagType};
use idl_tree::{Ident, Num};
use ndr_value::{Arm, Arms, Cases, Shape, Shapes};
use rpc_base::NoMemory;
use std::alloc::Global;

fn add_names(alloc: Global, field: &Field, names: &mut Vec<Ident>) -> Result<(), NoMemory>
    ensures { OnOk result (names.new.items ≡ names.old.items ++ spec.names_in field.now) }
{
    for declared in field.declared.as_slice() {
        names.push(copy_name(alloc, &declared.name)?)?;
    }
    Ok(())
}

/// The names of all that a list of fields declares.
///
/// # Errors
///
/// `NoMemory` where there is no memory for them.
pub fn names_of(alloc: Global, fields: &[Field]) -> Result<Vec<Ident>, NoMemory>
    ensures { IfOk result (λ names. names.items ≡ spec.names_of fields.now) }
{
    let mut names = Vec::new(alloc);
    for field in fields {
        add_names(alloc, field, &mut names)?;
    }
    Ok(names)
}

fn add_declared(
    alloc: Global,
    terms: Terms,
    declared: &[Declared],
    into: &mut Shapes,
) -> Result<(), NoMemory>
    ensures { OnOk result (map form into.new.items ≡ map form into.old.items ++ map (shapes.declared_form terms) declared.now) }
{
    for one in declared {
        into.push(declared_shape(alloc, terms, one)?)?;
    }
    Ok(())
}

// Adds the shapes of what a field declares, with the names of all that its list declares.
fn add_field(
    alloc: Global,
    names: &[Ident],
    field: &Field,
    into: &mut Shapes,
) -> Result<(), NoMemory>
    ensures { OnOk result (map form into.new.items ≡ map form into.old.items ++ spec.field_forms names.now field.now) }
{
    let terms = terms(field.attributes.as_slice(), field.place, names)?;
    add_declared(alloc, terms, field.declared.as_slice(), into)
}

fn members(alloc: Global, names: &[Ident], fields: &[Field]) -> Result<Shapes, NoMemory>
    ensures { IfOk result (λ ss. map form ss.items ≡ flat_map (spec.field_forms names.now) fields.now) }
{
    let mut all = Shapes::new(alloc);
    for field in fields {
        add_field(alloc, names, field, &mut all)?;
    }
    Ok(all)
}

// A structure of these members, with their forms as they stand.
fn struct_of(members: Shapes) -> Shape
    ensures { form result ≡ OfStruct (spec.row (map form members.items)) }
{
    struct_shape(members)
}

// What an arm of these members holds.
#[tactic(auto, using(crate::proofs::Rows::helds))]
fn held(members: Shapes) -> Option<Shape>
    ensures { body result ≡ spec.held (map form members.items) }
{
    let mut members = members;
    if members.len() <= 1 {
        return members.pop();
    }
    Some(struct_of(members))
}

// A constant that isn't declared is refused.
fn add_number(all: &mut Cases, number: Option<Num>) -> Result<(), NoMemory>
    ensures { OnOk result (all.new ≡ all.old ++ spec.if_case number) }
{
    match number {
        None => Err(NoMemory),
        Some(number) => all.push(signed_64(number)?),
    }
}

fn add_case(all: &mut Cases, label: &Label) -> Result<(), NoMemory>
    ensures { OnOk result (all.new ≡ all.old ++ spec.case_in label.now) }
{
    match label {
        Label::Case { value, .. } => add_number(all, *value),
        Label::Default(_) => Ok(()),
    }
}

fn cases(alloc: Global, labels: &[Label]) -> Result<Cases, NoMemory>
    ensures { IfOk result (λ all. all ≡ flat_map spec.case_in labels.now) }
{
    let mut all = Cases::new(alloc);
    for label in labels {
        add_case(&mut all, label)?;
    }
    Ok(all)
}

fn is_default(label: &Label) -> bool
    ensures { result ≡ spec.is_default label.now }
{
    matches!(label, Label::Default(_))
}

fn has_default(labels: &[Label]) -> bool
    ensures { result ≡ list_any spec.is_default labels.now }
{
    labels.iter().any(|label| is_default(label))
}

fn arm_of(alloc: Global, names: &[Ident], field: &Field) -> Result<Arm, NoMemory>
    ensures { IfOk result (λ a. face a ≡ spec.face names.now field.now) }
{
    let cases = cases(alloc, field.labels.as_slice())?;
    let default = has_default(field.labels.as_slice());
    let mut shapes = Shapes::new(alloc);
    add_field(alloc, names, field, &mut shapes)?;
    Ok(Arm {
        cases,
        default,
        shape: held(shapes),
    })
}

fn arms(alloc: Global, names: &[Ident], fields: &[Field]) -> Result<Arms, NoMemory>
    ensures { IfOk result (λ as'. map face as'.items ≡ map (spec.face names.now) fields.now) }
{
    let mut all = Arms::new(alloc);
    for field in fields {
        all.push(arm_of(alloc, names, field)?)?;
    }
    Ok(all)
}

fn tag_type_shape(alloc: Global, ty: TagType) -> Result<Shape, NoMemory>
    ensures { IfOk result (λ s. form s ≡ spec.tag_type_form ty) }
{
    if ty.by_value {
        core_shape(alloc, None, ty.core)
    } else {
        Ok(nothing(alloc))
    }
}

fn tag_shape(alloc: Global, tag: Tag) -> Result<Shape, NoMemory>
    ensures { IfOk result (λ s. form s ≡ spec.tag_form tag) }
{
    match tag {
        Tag::Switch { ty, .. } => tag_type_shape(alloc, ty),
        Tag::Given { ty, .. } => tag_type_shape(alloc, ty),
        Tag::Missing => Ok(nothing(alloc)),
    }
}

// A union of that tag and these arms, with their faces as they stand.
fn union_of(tag: Box<Shape>, arms: Arms) -> Shape
    ensures { form result ≡ OfUnion (form tag.value) (spec.arm_row (map face arms.items)) }
{
    Shape::Union { tag, arms }
}

fn union_shape(alloc: Global, tag: Tag, fields: &[Field]) -> Result<Shape, NoMemory>
    ensures { IfOk result (λ s. form s ≡ OfUnion (spec.tag_form tag) (spec.arm_row (map (spec.face (spec.names_of fields.now)) fields.now))) }
{
    let names = names_of(alloc, fields)?;
    let by = Box::new(alloc, tag_shape(alloc, tag)?)?;
    let arms = arms(alloc, &names, fields)?;
    Ok(union_of(by, arms))
}

fn struct_with(alloc: Global, fields: &[Field]) -> Result<Shape, NoMemory>
    ensures { IfOk result (λ s. form s ≡ OfStruct (spec.row (flat_map (spec.field_forms (spec.names_of fields.now)) fields.now))) }
{
    let names = names_of(alloc, fields)?;
    let members = members(alloc, &names, fields)?;
    Ok(struct_of(members))
}

/// The shape of a body: a union's where there is a tag.
///
/// # Errors
///
/// `NoMemory` where there is no memory for it, a constant isn't declared, or a number has no room in its
/// field.
pub fn body_shape(alloc: Global, tag: Option<Tag>, fields: &[Field]) -> Result<Shape, NoMemory>
    ensures { IfOk result (λ s. form s ≡ spec.body_form tag fields.now) }
{
    match tag {
        None => struct_with(alloc, fields),
        Some(tag) => union_shape(alloc, tag, fields),
    }
}
