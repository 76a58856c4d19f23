//! Values without parts, beside others.
ghost use Rattle.std.specs.Prelude.{◌≡◌, bytes_eq};
ghost use Rattle.ndr_value.specs.Values.{val, VBool, VByte, VChar, VInt, VUint, VEnum, VEmpty, VText, VNull, VFull, VHandle};
ghost use Rattle.ndr_model.specs.Same.{same_size};
ghost use Rattle.ndr_agree.specs.Same.{same};

use ndr_value::Value;

pub(crate) fn is_bool(value: bool, other: &Value) -> bool
    ensures { result ≡ same (VBool value) (val other.now) }
{
    match other {
        Value::Bool(own) => value == *own,
        _ => false,
    }
}

pub(crate) fn is_byte(octet: u8, other: &Value) -> bool
    ensures { result ≡ same (VByte octet) (val other.now) }
{
    match other {
        Value::Byte(own) => octet == *own,
        _ => false,
    }
}

pub(crate) fn is_char(octet: u8, other: &Value) -> bool
    ensures { result ≡ same (VChar octet) (val other.now) }
{
    match other {
        Value::Char(own) => octet == *own,
        _ => false,
    }
}

pub(crate) fn is_int(number: i64, other: &Value) -> bool
    ensures { result ≡ same (VInt number) (val other.now) }
{
    match other {
        Value::Int(own) => number == *own,
        _ => false,
    }
}

pub(crate) fn is_uint(number: u64, other: &Value) -> bool
    ensures { result ≡ same (VUint number) (val other.now) }
{
    match other {
        Value::Uint(own) => number == *own,
        _ => false,
    }
}

pub(crate) fn is_enum(name: u16, other: &Value) -> bool
    ensures { result ≡ same (VEnum name) (val other.now) }
{
    match other {
        Value::Enum(own) => name == *own,
        _ => false,
    }
}

pub(crate) fn is_empty(tag: i64, other: &Value) -> bool
    ensures { result ≡ same (VEmpty tag) (val other.now) }
{
    match other {
        Value::Union { tag: own, arm } => match arm {
            None => tag == *own,
            Some(_) => false,
        },
        _ => false,
    }
}

pub(crate) fn same_octets(octets: &[u8], others: &[u8]) -> bool
    ensures { result ≡ bytes_eq octets.now others.now }
{
    octets == others
}

pub(crate) fn is_text(octets: &[u8], other: &Value) -> bool
    ensures { result ≡ same (VText octets.now) (val other.now) }
{
    match other {
        Value::Text(own) => same_octets(octets, own.as_slice()),
        _ => false,
    }
}

pub(crate) fn is_null(other: &Value) -> bool
    ensures { result ≡ same VNull (val other.now) }
{
    match other {
        Value::Ptr(own) => own.is_none(),
        _ => false,
    }
}

fn same_item(item: Option<u32>, other: Option<u32>) -> bool
    ensures { result ≡ same_size item other }
{
    match item {
        None => other.is_none(),
        Some(number) => match other {
            None => false,
            Some(own) => number == own,
        },
    }
}

pub(crate) fn is_full(item: Option<u32>, other: &Value) -> bool
    ensures { result ≡ same (VFull item) (val other.now) }
{
    match other {
        Value::Full(own) => same_item(item, *own),
        _ => false,
    }
}

pub(crate) fn is_handle(slot: u8, other: &Value) -> bool
    ensures { result ≡ same (VHandle slot) (val other.now) }
{
    match other {
        Value::Handle(own) => slot == *own,
        _ => false,
    }
}
