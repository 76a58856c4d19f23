//! What the names of a list may stand for in attributes.
ghost use Rattle.std.specs.Prelude.{◌≡◌, IfOk, OnOk};
ghost use Rattle.idl_rules.specs.SizeName as rule;
ghost use Rattle.idl_rules.specs.Types.{has, says_in};
ghost use Rattle.idl_uses.specs.Offers as spec;

use idl_outline::{Declared, Field};
use idl_rules::{Asked, Saying, by_value, has, is_asked, is_one_pointer, is_parameter, is_unknown};
use rpc_base::{Names, NoMemory, named, put_at_name};
use std::alloc::Global;
use std::collections::BTreeMap;

/// What is asked of the declarator that a name in an attribute stands for.
#[derive(Clone, Copy)]
pub(crate) struct Want {
    pub(crate) asked: Asked,
    /// A star stands before the name.
    pub(crate) star: bool,
    /// It has to be [in].
    pub(crate) inward: bool,
}

/// For which kinds of type it may be named.
#[derive(Clone, Copy)]
pub(crate) struct Kinds {
    pub(crate) integer: bool,
    pub(crate) tag: bool,
}

/// For what the declarators of one name may be named: with a star or without, by all of them or by
/// those that are [in].
#[derive(Clone, Copy)]
pub(crate) struct Offer {
    pub(crate) plain: Kinds,
    pub(crate) star: Kinds,
    pub(crate) plain_in: Kinds,
    pub(crate) star_in: Kinds,
}

/// The offers of the names of a list.
pub(crate) type Offers = Names<Offer>;

fn kind(kinds: Kinds, asked: Asked) -> bool
    ensures { result ≡ spec.kind kinds asked }
{
    match asked {
        Asked::Integer => kinds.integer,
        Asked::Tag => kinds.tag,
    }
}

fn meets(offer: Offer, want: Want) -> bool
    ensures { result ≡ spec.meets offer want }
{
    let kinds = match (want.inward, want.star) {
        (false, false) => offer.plain,
        (false, true) => offer.star,
        (true, false) => offer.plain_in,
        (true, true) => offer.star_in,
    };
    kind(kinds, want.asked)
}

fn both(a: Kinds, b: Kinds) -> Kinds
    ensures { result ≡ spec.both a b }
{
    Kinds {
        integer: a.integer || b.integer,
        tag: a.tag || b.tag,
    }
}

fn joined(a: Offer, b: Offer) -> Offer
    ensures { result ≡ spec.joined a b }
{
    Offer {
        plain: both(a.plain, b.plain),
        star: both(a.star, b.star),
        plain_in: both(a.plain_in, b.plain_in),
        star_in: both(a.star_in, b.star_in),
    }
}

fn is_of(asked: Asked, star: bool, field: &Field, declared: &Declared) -> bool
    ensures { result ≡ rule.is_of asked star field.now declared.now }
{
    let ty = &declared.ty;
    let fits = if star {
        is_parameter(field.place) && is_one_pointer(ty)
    } else {
        by_value(ty)
    };
    is_unknown(ty.core) || is_asked(asked, ty.core) && fits
}

fn kinds_of(star: bool, field: &Field, declared: &Declared) -> Kinds
    ensures { result ≡ spec.kinds_of star field.now declared.now }
{
    Kinds {
        integer: is_of(Asked::Integer, star, field, declared),
        tag: is_of(Asked::Tag, star, field, declared),
    }
}

fn kinds_if(condition: bool, kinds: Kinds) -> Kinds
    ensures { result ≡ spec.kinds_if condition kinds }
{
    Kinds {
        integer: condition && kinds.integer,
        tag: condition && kinds.tag,
    }
}

fn offer_of(field: &Field, inward: bool, declared: &Declared) -> Offer
    requires { inward ≡ has says_in field.now }
    ensures { result ≡ spec.offer_of field.now declared.now }
{
    let plain = kinds_of(false, field, declared);
    let star = kinds_of(true, field, declared);
    Offer {
        plain,
        star,
        plain_in: kinds_if(inward, plain),
        star_in: kinds_if(inward, star),
    }
}

fn no_kinds() -> Kinds
    ensures { result ≡ spec.no_kinds }
{
    Kinds {
        integer: false,
        tag: false,
    }
}

fn no_offer() -> Offer
    ensures { result ≡ spec.no_offer }
{
    Offer {
        plain: no_kinds(),
        star: no_kinds(),
        plain_in: no_kinds(),
        star_in: no_kinds(),
    }
}

fn found(offers: &Offers, name: &[u8]) -> Offer
    ensures { result ≡ spec.found offers.now name.now }
{
    match named(offers, name) {
        None => no_offer(),
        Some(offer) => *offer,
    }
}

#[tactic(auto, using(crate::proofs::Added::added))]
fn add(
    alloc: Global,
    offers: &mut Offers,
    declared: &Declared,
    offer: Offer,
) -> Result<(), NoMemory>
    ensures { OnOk result (spec.Gains (spec.meets_as declared.now offer) offers.old offers.new) }
{
    let text = declared.name.text.as_slice();
    let all = joined(offer, found(offers, text));
    let key = declared.name.text.copy(alloc)?.into_vec();
    put_at_name(offers, key, all)
}

fn add_field(alloc: Global, offers: &mut Offers, field: &Field) -> Result<(), NoMemory>
    ensures { OnOk result (spec.Gains (spec.any_meets field.now) offers.old offers.new) }
{
    let inward = has(field, Saying::In);
    for declared in field.declared.as_slice() {
        add(alloc, offers, declared, offer_of(field, inward, declared))?;
    }
    Ok(())
}

/// The offers of the names of a list of fields.
///
/// # Errors
///
/// `NoMemory` where there is no memory for the names.
pub(crate) fn offers_of(alloc: Global, list: &[Field]) -> Result<Offers, NoMemory>
    ensures { IfOk result (spec.IsOffers list.now) }
{
    let mut offers = BTreeMap::new(alloc);
    for field in list {
        add_field(alloc, &mut offers, field)?;
    }
    Ok(offers)
}

/// Whether the list offers what is wanted under that name.
pub(crate) fn is_offered(offers: &Offers, name: &[u8], want: Want) -> bool
    ensures { result ≡ spec.meets (spec.found offers.now name.now) want }
{
    meets(found(offers, name), want)
}
