//! Arrays of octets, beside others.
ghost use Rattle.std.specs.Prelude.{◌≡◌};
ghost use Rattle.ndr_value.specs.Values.{val, vals, bytes, VByte, VArray};
ghost use Rattle.ndr_agree.specs.Same.{same, same_each};

use crate::leaves::{is_byte, same_octets};
use ndr_value::Value;

// Whether the value is that octet.
fn byte_is(value: &Value, octet: u8) -> bool
    ensures { result ≡ same (val value.now) (VByte octet) }
{
    match value {
        Value::Byte(own) => *own == octet,
        _ => false,
    }
}

/// Whether the values are those octets.
pub(crate) fn bytes_are(values: &[Value], octets: &[u8]) -> bool
    ensures { result ≡ same_each (vals values.now) (bytes octets.now) }
{
    let mut rest = octets;
    for value in values {
        match rest.split_first() {
            None => return false,
            Some((first, behind)) => {
                if !byte_is(value, *first) {
                    return false;
                }
                rest = behind;
            }
        }
    }
    rest.is_empty()
}

// Whether the octets are those values.
fn are_bytes(octets: &[u8], values: &[Value]) -> bool
    ensures { result ≡ same_each (bytes octets.now) (vals values.now) }
{
    let mut rest = values;
    for octet in octets {
        match rest.split_first() {
            None => return false,
            Some((first, behind)) => {
                if !is_byte(*octet, first) {
                    return false;
                }
                rest = behind;
            }
        }
    }
    rest.is_empty()
}

fn are_octets(octets: &[u8], others: &[u8]) -> bool
    ensures { result ≡ same_each (bytes octets.now) (bytes others.now) }
{
    same_octets(octets, others)
}

/// An array of octets beside a value: an array has the same values in either form.
pub(crate) fn is_octets(octets: &[u8], other: &Value) -> bool
    ensures { result ≡ same (VArray (bytes octets.now)) (val other.now) }
{
    match other {
        Value::Array(own) => are_bytes(octets, own),
        Value::Octets(own) => are_octets(octets, own.as_slice()),
        _ => false,
    }
}
