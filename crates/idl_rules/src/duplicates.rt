//! The second rule: names that are declared twice.
ghost use Rattle.std.specs.Prelude.{◌≡◌, ◌++◌, ◌||◌, ℕ, List, map, Some, IfOk, OnOk, bytes_eq};
ghost use Rattle.idl_outline.specs.Names.{name_in, tag_in, is_declared, is_tag_declared};
ghost use Rattle.idl_rules.specs.Least.{least};
ghost use Rattle.idl_rules.specs.Places.{repeats};
ghost use Rattle.idl_rules.specs.Seen.{has_name};
ghost use Rattle.idl_rules.specs.Duplicate as spec;

use crate::least::{lesser, place_if};
use idl_names::copy_name;
use idl_outline::{Declared, Event, Field, Outline};
use idl_tree::Ident;
use rpc_base::{Items, NoMemory};
use std::alloc::Global;
use std::collections::BTreeSet;

fn declared_again(past: &Outline, name: &Ident) -> Option<usize>
    ensures { result ≡ least (spec.again is_declared past.now (Some name.now)) }
{
    place_if(past.declares(name.text.as_slice()), name.at)
}

fn tagged_again(past: &Outline, tag: &Ident) -> Option<usize>
    ensures { result ≡ least (spec.again is_tag_declared past.now (Some tag.now)) }
{
    place_if(past.declares_tag(tag.text.as_slice()), tag.at)
}

fn name_again(past: &Outline, event: &Event) -> Option<usize>
    ensures { result ≡ least (spec.again is_declared past.now (name_in event.now)) }
{
    match event {
        Event::Typedef { name, .. } => declared_again(past, name),
        Event::Constant { name, .. } => declared_again(past, name),
        Event::EnumName { name, .. } => declared_again(past, name),
        Event::Operation(name) => declared_again(past, name),
        _ => None,
    }
}

fn tag_again(past: &Outline, event: &Event) -> Option<usize>
    ensures { result ≡ least (spec.again is_tag_declared past.now (tag_in event.now)) }
{
    match event {
        Event::StructBegins { tag, .. } => tagged_again(past, tag),
        Event::OtherTag(tag) => tagged_again(past, tag),
        _ => None,
    }
}

#[tactic(auto, using(crate::proofs::Leasts::rows))]
fn add_names(alloc: Global, declared: &[Declared], names: &mut Items<Ident>) -> Result<(), NoMemory>
    ensures { OnOk result (names.new ≡ names.old ++ map spec.name_of declared.now) }
{
    for one in declared {
        names.push(copy_name(alloc, &one.name)?)?;
    }
    Ok(())
}

#[tactic(auto, using(crate::proofs::Leasts::rows))]
fn all_names(alloc: Global, fields: &[Field]) -> Result<Items<Ident>, NoMemory>
    ensures { IfOk result (λ names. names ≡ spec.names_of fields.now) }
{
    let mut names = Items::new(alloc);
    for field in fields {
        add_names(alloc, field.declared.as_slice(), &mut names)?;
    }
    Ok(names)
}

/// Whether the name was seen before; it has been seen now.
#[tactic(auto, using(crate::proofs::Seen::inserted))]
fn was_seen(alloc: Global, seen: &mut BTreeSet<Vec<u8>>, name: &Ident) -> Result<bool, NoMemory>
    ensures before { IfOk result (λ was. was ≡ has_name seen.old name.now.text) }
    ensures now { OnOk result ((text : List ℕ) → has_name seen.new text ≡ (bytes_eq name.now.text text || has_name seen.old text)) }
{
    let was = seen.contains(name.text.as_slice());
    let key = name.text.copy(alloc)?.into_vec();
    let Ok(_) = seen.insert(key) else {
        return Err(NoMemory);
    };
    Ok(was)
}

fn repeated_names(alloc: Global, names: &[Ident]) -> Result<Option<usize>, NoMemory>
    ensures { IfOk result (λ at. at ≡ least (repeats spec.same_name spec.place_of names.now)) }
{
    let mut seen = BTreeSet::new(alloc);
    let mut found = None;
    for name in names {
        let again = was_seen(alloc, &mut seen, name)?;
        found = lesser(found, place_if(again, name.at));
    }
    Ok(found)
}

fn names_again(alloc: Global, fields: &[Field]) -> Result<Option<usize>, NoMemory>
    ensures { IfOk result (λ at. at ≡ least (spec.names_again fields.now)) }
{
    let names = all_names(alloc, fields)?;
    repeated_names(alloc, names.as_slice())
}

fn listed_again(alloc: Global, event: &Event) -> Result<Option<usize>, NoMemory>
    ensures { IfOk result (λ at. at ≡ least (spec.listed_again event.now)) }
{
    match event {
        Event::Body { fields, .. } => Ok(names_again(alloc, fields.as_slice())?),
        Event::Call { parameters, .. } => Ok(names_again(alloc, parameters.as_slice())?),
        _ => Ok(None),
    }
}

/// The least place of a name that the event declares and that was declared before.
///
/// # Errors
///
/// `NoMemory` where there is no memory for the names of a list.
#[tactic(auto, using(crate::proofs::Leasts::leasts))]
pub fn duplicate(alloc: Global, past: &Outline, event: &Event) -> Result<Option<usize>, NoMemory>
    ensures { IfOk result (λ at. at ≡ least (spec.duplicate past.now event.now)) }
{
    let listed = listed_again(alloc, event)?;
    Ok(lesser(
        name_again(past, event),
        lesser(tag_again(past, event), listed),
    ))
}
