//! The fourth rule: the names in attributes.
ghost use Rattle.std.specs.Prelude.{◌≡◌, List, [], IfOk};
ghost use Rattle.std.specs.List.{flat_map};
ghost use Rattle.idl_outline.specs.declared.event.Event.{Event};
ghost use Rattle.idl_rules.specs.Least.{least};
ghost use Rattle.idl_rules.specs.SizeName as spec;
ghost use Rattle.idl_rules.specs.Types.{has, says_in};
ghost use Rattle.idl_uses.specs.Offers.{IsOffers, want};

use crate::offers::{Offers, Want, is_offered, offers_of};
use idl_outline::{Attribute, Event, Field, Mark, NameRef, Size};
use idl_rules::{Asked, Saying, has, is_arm, is_parameter, lesser, place_if};
use rpc_base::NoMemory;
use std::alloc::Global;
use std::slice;

fn wanted(asked: Asked, field: &Field, inward: bool, named: &NameRef) -> Want
    requires { inward ≡ has says_in field.now }
    ensures { result ≡ want asked field.now named.now }
{
    Want {
        asked,
        star: named.star,
        inward: is_parameter(field.place) && inward,
    }
}

fn name_place(
    asked: Asked,
    list: &[Field],
    offers: &Offers,
    field: &Field,
    inward: bool,
    named: &NameRef,
) -> Option<usize>
    requires offers { IsOffers list.now offers.now }
    requires inward { inward ≡ has says_in field.now }
    ensures { result ≡ least (spec.name_places asked list.now field.now named.now) }
{
    let want = wanted(asked, field, inward, named);
    place_if(
        !is_offered(offers, named.name.text.as_slice(), want),
        named.name.at,
    )
}

fn size_place(
    list: &[Field],
    offers: &Offers,
    field: &Field,
    inward: bool,
    size: &Size,
) -> Option<usize>
    requires offers { IsOffers list.now offers.now }
    requires inward { inward ≡ has says_in field.now }
    ensures { result ≡ least (spec.size_places list.now field.now size.now) }
{
    match size {
        Size::Number(_) => None,
        Size::Of(named) => name_place(Asked::Integer, list, offers, field, inward, named),
    }
}

fn attribute_place(
    list: &[Field],
    offers: &Offers,
    field: &Field,
    inward: bool,
    attribute: &Attribute,
) -> Option<usize>
    requires offers { IsOffers list.now offers.now }
    requires inward { inward ≡ has says_in field.now }
    ensures { result ≡ least (spec.attribute_places list.now field.now attribute.now) }
{
    match &attribute.mark {
        Mark::SizeIs(size) => size_place(list, offers, field, inward, size),
        Mark::MaxIs(size) => size_place(list, offers, field, inward, size),
        Mark::LengthIs(size) => size_place(list, offers, field, inward, size),
        Mark::SwitchIs(named) => name_place(Asked::Tag, list, offers, field, inward, named),
        _ => None,
    }
}

#[tactic(auto, using(idl_rules::proofs::Leasts::leasts))]
fn field_place(list: &[Field], offers: &Offers, field: &Field) -> Option<usize>
    requires { IsOffers list.now offers.now }
    ensures { result ≡ least (spec.field_places list.now field.now) }
{
    let inward = has(field, Saying::In);
    let mut found = None;
    for attribute in field.attributes.as_slice() {
        found = lesser(
            found,
            attribute_place(list, offers, field, inward, attribute),
        );
    }
    found
}

/// The names of a field that stands in no list.
fn alone(alloc: Global, field: &Field) -> Result<Option<usize>, NoMemory>
    ensures { IfOk result (λ at. at ≡ least (spec.field_places [] field.now)) }
{
    let offers = offers_of(alloc, &[])?;
    Ok(field_place(&[], &offers, field))
}

// The names of a field of a list; in a union's arm, those of the arm alone.
fn listed_place(
    alloc: Global,
    list: &[Field],
    offers: &Offers,
    field: &Field,
) -> Result<Option<usize>, NoMemory>
    requires { IsOffers list.now offers.now }
    ensures { IfOk result (λ at. at ≡ least (spec.listed_places list.now field.now)) }
{
    if is_arm(field.place) {
        let own = slice::from_ref(field);
        let offers = offers_of(alloc, own)?;
        return Ok(field_place(own, &offers, field));
    }
    Ok(field_place(list, offers, field))
}

#[tactic(auto, using(idl_rules::proofs::Leasts::leasts))]
fn each_place(alloc: Global, list: &[Field]) -> Result<Option<usize>, NoMemory>
    ensures { IfOk result (λ at. at ≡ least (flat_map (spec.listed_places list.now) list.now)) }
{
    let offers = offers_of(alloc, list)?;
    let mut found = None;
    for field in list {
        found = lesser(found, listed_place(alloc, list, &offers, field)?);
    }
    Ok(found)
}

/// The least place of a name in an attribute that isn't a parameter or member of the same list, or
/// isn't of a type that may stand there.
///
/// # Errors
///
/// `NoMemory` where there is no memory for the names of the list.
#[tactic(auto, using(idl_rules::proofs::Leasts::leasts))]
pub fn size_name(alloc: Global, event: &Event) -> Result<Option<usize>, NoMemory>
    ensures { IfOk result (λ at. (past : List Event) → at ≡ least (spec.size_name past event.now)) }
{
    match event {
        Event::Single(field) => Ok(alone(alloc, field)?),
        Event::Body { fields, .. } => Ok(each_place(alloc, fields.as_slice())?),
        Event::Call { result, parameters } => {
            let own = alone(alloc, result)?;
            let each = each_place(alloc, parameters.as_slice())?;
            Ok(lesser(own, each))
        }
        _ => Ok(None),
    }
}
