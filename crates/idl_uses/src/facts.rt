//! What a field's attributes say, and what holds for its declarators together.
ghost use Rattle.std.specs.Prelude.{◌≡◌};
ghost use Rattle.std.specs.List.{list_all, list_any};
ghost use Rattle.idl_rules.specs.BadAttribute as rule;
ghost use Rattle.idl_uses.specs.Facts as spec;

use idl_outline::{Declared, Field};
use idl_rules::{
    Saying, by_value, has, is_char, is_context_handle, is_listed, is_open_extent, is_single,
    is_typedef, is_unknown,
};

/// What a field's attributes say.
#[derive(Clone, Copy)]
pub(crate) struct Said {
    pub(crate) inward: bool,
    pub(crate) outward: bool,
    pub(crate) string: bool,
    /// `size_is` or `max_is`.
    pub(crate) size: bool,
    /// A word for context handles.
    pub(crate) handle: bool,
}

/// What a field's attributes say.
pub(crate) fn said_by(field: &Field) -> Said
    ensures { result ≡ spec.said_by field.now }
{
    Said {
        inward: has(field, Saying::In),
        outward: has(field, Saying::Out),
        string: has(field, Saying::Text),
        size: has(field, Saying::Most),
        handle: has(field, Saying::Handle),
    }
}

/// Whether the declarator has a star.
pub(crate) fn has_star(declared: &Declared) -> bool
    ensures { result ≡ rule.has_star declared.now }
{
    declared.stars != 0
}

fn is_plain_array(text: bool, declared: &Declared) -> bool
    ensures { result ≡ rule.is_plain_array text declared.now }
{
    !is_single(declared.extent) && !(text && declared.stars == 0)
}

fn is_plain_open(text: bool, declared: &Declared) -> bool
    ensures { result ≡ rule.is_plain_open text declared.now }
{
    is_open_extent(declared.extent) && !(text && declared.stars == 0)
}

fn has_star_or_array(declared: &Declared) -> bool
    ensures { result ≡ rule.has_star_or_array declared.now }
{
    has_star(declared) || !is_single(declared.extent)
}

fn has_declarator(field: &Field) -> bool
    ensures { result ≡ rule.has_declarator field.now }
{
    is_typedef(field.place) || is_listed(field.place)
}

fn is_char_spec(field: &Field) -> bool
    ensures { result ≡ rule.is_char_spec field.now }
{
    is_unknown(field.spec.core) || is_char(field.spec.core) && by_value(&field.spec)
}

fn all_plain_open(text: bool, declared: &[Declared]) -> bool
    ensures { result ≡ list_all (rule.is_plain_open text) declared.now }
{
    declared.iter().all(|one| is_plain_open(text, one))
}

fn all_plain_arrays(text: bool, declared: &[Declared]) -> bool
    ensures { result ≡ list_all (rule.is_plain_array text) declared.now }
{
    declared.iter().all(|one| is_plain_array(text, one))
}

fn all_star_or_array(declared: &[Declared]) -> bool
    ensures { result ≡ list_all rule.has_star_or_array declared.now }
{
    declared.iter().all(|one| has_star_or_array(one))
}

fn all_star(declared: &[Declared]) -> bool
    ensures { result ≡ list_all rule.has_star declared.now }
{
    declared.iter().all(|one| has_star(one))
}

fn is_sizeable(field: &Field) -> bool
    ensures { result ≡ rule.is_sizeable field.now }
{
    is_listed(field.place) && all_plain_open(has(field, Saying::Text), field.declared.as_slice())
}

fn is_countable(field: &Field) -> bool
    ensures { result ≡ rule.is_countable field.now }
{
    is_listed(field.place) && all_plain_arrays(has(field, Saying::Text), field.declared.as_slice())
}

fn is_text(field: &Field) -> bool
    ensures { result ≡ rule.is_text field.now }
{
    has_declarator(field) && is_char_spec(field) && all_star_or_array(field.declared.as_slice())
}

fn is_pointed(field: &Field) -> bool
    ensures { result ≡ rule.is_pointed field.now }
{
    has_declarator(field) && all_star(field.declared.as_slice())
}

fn is_out_value(declared: &Declared) -> bool
    ensures { result ≡ rule.is_out_value declared.now }
{
    let ty = &declared.ty;
    by_value(ty) && !(is_context_handle(ty.core) || is_unknown(ty.core))
}

fn is_own_pointer(declared: &Declared) -> bool
    ensures { result ≡ rule.is_own_pointer declared.now }
{
    has_star(declared) && is_single(declared.extent)
}

fn any_out_value(declared: &[Declared]) -> bool
    ensures { result ≡ list_any rule.is_out_value declared.now }
{
    declared.iter().any(|one| is_out_value(one))
}

fn any_own_pointer(declared: &[Declared]) -> bool
    ensures { result ≡ list_any rule.is_own_pointer declared.now }
{
    declared.iter().any(|one| is_own_pointer(one))
}

/// What holds for a field's declarators together.
#[derive(Clone, Copy)]
pub(crate) struct Together {
    /// A pointer class may stand before them.
    pub(crate) pointed: bool,
    /// `string` may.
    pub(crate) text: bool,
    /// `size_is` and `max_is` may.
    pub(crate) sizeable: bool,
    /// `length_is` may.
    pub(crate) countable: bool,
    /// One of them is a value that can't come back.
    pub(crate) out_value: bool,
    /// One of them is a pointer by its own star.
    pub(crate) own_pointer: bool,
}

/// What holds for a field's declarators together.
pub(crate) fn holding(field: &Field) -> Together
    ensures { result ≡ spec.holding field.now }
{
    Together {
        pointed: is_pointed(field),
        text: is_text(field),
        sizeable: is_sizeable(field),
        countable: is_countable(field),
        out_value: any_out_value(field.declared.as_slice()),
        own_pointer: any_own_pointer(field.declared.as_slice()),
    }
}
