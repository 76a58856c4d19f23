//! The eighth rule: the tags of unions, and their cases.
ghost use Rattle.std.specs.Prelude.{◌≡◌, List, IfOk};
ghost use Rattle.std.specs.List.{flat_map};
ghost use Rattle.idl_outline.specs.declared.event.Event.{Event};
ghost use Rattle.idl_rules.specs.Least.{least};
ghost use Rattle.idl_rules.specs.UnionTag as spec;

use idl_outline::{Bare, Core, Declared, Event, Field, Label, Tag, TagType};
use idl_rules::{
    Saying, has, int_holds, is_tag_core, is_unknown, lesser, place_if, repeated, value_of, within,
};
use idl_tree::Num;
use rpc_base::NoMemory;
use std::alloc::Global;

fn is_bad_tag(ty: TagType) -> bool
    ensures { result ≡ spec.is_bad_tag ty }
{
    !(is_unknown(ty.core) || is_tag_core(ty.core) && ty.by_value)
}

fn tag_place(tag: Tag) -> Option<usize>
    ensures { result ≡ least (spec.tag_places tag) }
{
    match tag {
        Tag::Switch { at, ty } => place_if(is_bad_tag(ty), at),
        Tag::Given { at, ty } => place_if(is_bad_tag(ty), at),
        Tag::Missing => None,
    }
}

fn enum_holds(count: usize, number: i128) -> bool
    ensures { result ≡ spec.enum_holds count number }
{
    within(0, count as i128, number)
}

fn core_holds(core: Core, number: i128) -> bool
    ensures { result ≡ spec.core_holds core number }
{
    match core {
        Core::Boolean => within(0, 2, number),
        Core::Char => within(0, 256, number),
        Core::Text(_) => within(0, 256, number),
        Core::Int { unsigned, size } => int_holds(unsigned, size, number),
        Core::Enum(count) => enum_holds(count, number),
        _ => true,
    }
}

fn value_outside(ty: TagType, at: usize, number: Option<Num>) -> Option<usize>
    ensures { result ≡ least (spec.value_outside ty at number) }
{
    match number {
        None => None,
        Some(number) => place_if(ty.by_value && !core_holds(ty.core, value_of(number)), at),
    }
}

fn outside(ty: TagType, label: &Label) -> Option<usize>
    ensures { result ≡ least (spec.outside ty label.now) }
{
    match label {
        Label::Case { at, value } => value_outside(ty, *at, *value),
        Label::Default(_) => None,
    }
}

#[tactic(auto, using(idl_rules::proofs::Leasts::leasts))]
fn all_outside(ty: TagType, labels: &[Label]) -> Option<usize>
    ensures { result ≡ least (flat_map (spec.outside ty) labels.now) }
{
    let mut found = None;
    for label in labels {
        found = lesser(found, outside(ty, label));
    }
    found
}

fn outside_place(tag: Tag, labels: &[Label]) -> Option<usize>
    ensures { result ≡ least (spec.outside_places tag labels.now) }
{
    match tag {
        Tag::Switch { ty, .. } => all_outside(ty, labels),
        Tag::Given { ty, .. } => all_outside(ty, labels),
        Tag::Missing => None,
    }
}

#[tactic(auto, using(idl_rules::proofs::Leasts::leasts))]
fn labels_place(alloc: Global, tag: Tag, labels: &[Label]) -> Result<Option<usize>, NoMemory>
    ensures { IfOk result (λ at. at ≡ least (spec.labels_places tag labels.now)) }
{
    let again = repeated(alloc, labels)?;
    Ok(lesser(tag_place(tag), lesser(again, outside_place(tag, labels))))
}

fn first_name(declared: &[Declared]) -> Option<usize>
    ensures { result ≡ least (spec.first_name declared.now) }
{
    match declared.first() {
        None => None,
        Some(one) => Some(one.name.at),
    }
}

fn bare_place(bare: Bare, declared: &[Declared]) -> Option<usize>
    ensures { result ≡ least (spec.bare_place bare declared.now) }
{
    match bare {
        Bare::No => None,
        Bare::Tagless => first_name(declared),
        Bare::Tagged(at) => Some(at),
    }
}

fn untagged(field: &Field) -> Option<usize>
    ensures { result ≡ least (spec.field_places field.now) }
{
    if has(field, Saying::SwitchType) {
        None
    } else {
        bare_place(field.bare, field.declared.as_slice())
    }
}

#[tactic(auto, using(idl_rules::proofs::Leasts::leasts))]
fn each_untagged(fields: &[Field]) -> Option<usize>
    ensures { result ≡ least (flat_map spec.field_places fields.now) }
{
    let mut found = None;
    for field in fields {
        found = lesser(found, untagged(field));
    }
    found
}

/// The least place where a union of the event has a tag of a wrong type, a case that stands twice or
/// isn't one of the tag's, a second default, or no tag.
///
/// # Errors
///
/// `NoMemory` where there is no memory for the cases that were seen.
#[tactic(auto, using(idl_rules::proofs::Leasts::leasts))]
pub fn union_tag(alloc: Global, event: &Event) -> Result<Option<usize>, NoMemory>
    ensures { IfOk result (λ at. (past : List Event) → at ≡ least (spec.union_tag past event.now)) }
{
    match event {
        Event::Union { tag, labels } => Ok(labels_place(alloc, *tag, labels.as_slice())?),
        Event::Single(field) => Ok(untagged(field)),
        Event::Body { fields, .. } => Ok(each_untagged(fields.as_slice())),
        Event::Call { result, parameters } => Ok(lesser(
            untagged(result),
            each_untagged(parameters.as_slice()),
        )),
        _ => Ok(None),
    }
}
