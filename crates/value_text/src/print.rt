//! Values, written.
ghost use Rattle.std.specs.Prelude.{◌≡◌, ◌++◌, OnOk, OnErr, codes, decimal};
ghost use Rattle.std.specs.Fmt.{signed_decimal};
ghost use Rattle.std.specs.List.{flat_map};
ghost use Rattle.ndr_value.specs.Values.{val, vals, bytes, VStruct, VArray, VText, VEmpty, VUnion, VFull};
ghost use Rattle.value_text.specs.Texts.{char_text, value_text, list_text, more_text};
ghost use Rattle.value_text.specs.Rows.{item_text};

use crate::quoted::stands_plain;
use base_words::{put, put_hex};
use itoa::Buffer;
use ndr_value::Value;
use rpc_base::NoMemory;
use std::alloc::Global;

fn put_number(number: u64, into: &mut Vec<u8>) -> Result<(), NoMemory>
    ensures { OnOk result (into.new.items ≡ into.old.items ++ decimal number) }
{
    let mut buffer = Buffer::new();
    put(buffer.format(number).as_bytes(), into)
}

fn put_signed(number: i64, into: &mut Vec<u8>) -> Result<(), NoMemory>
    ensures { OnOk result (into.new.items ≡ into.old.items ++ signed_decimal number) }
{
    let mut buffer = Buffer::new();
    put(buffer.format(number).as_bytes(), into)
}

#[tactic(auto, unfolding(crate::specs::Texts::char_text))]
fn put_char(octet: u8, alloc: Global, into: &mut Vec<u8>) -> Result<(), NoMemory>
    ensures { OnOk result (into.new.items ≡ into.old.items ++ char_text octet) }
{
    if stands_plain(octet) {
        return put(&[octet], into);
    }
    put(b"\\x", into)?;
    put_hex(alloc, &[octet], into)
}

fn put_chars(octets: &[u8], alloc: Global, into: &mut Vec<u8>) -> Result<(), NoMemory>
    ensures { OnOk result (into.new.items ≡ into.old.items ++ flat_map char_text octets.now) }
{
    for octet in octets {
        put_char(*octet, alloc, into)?;
    }
    Ok(())
}

#[tactic(auto, unfolding(crate::specs::Texts::value_text))]
fn put_quoted(octets: &[u8], alloc: Global, into: &mut Vec<u8>) -> Result<(), NoMemory>
    ensures { OnOk result (into.new.items ≡ into.old.items ++ value_text (VText octets.now)) }
{
    put(b"\"", into)?;
    put_chars(octets, alloc, into)?;
    put(b"\"", into)
}

// Octets behind the first.
#[tactic(auto, unfolding(crate::specs::Texts::value_text))]
fn put_more_octets(octets: &[u8], into: &mut Vec<u8>) -> Result<(), NoMemory>
    ensures { OnOk result (into.new.items ≡ into.old.items ++ more_text (bytes octets.now)) }
{
    for octet in octets {
        put(b", ", into)?;
        put_number(u64::from(*octet), into)?;
    }
    Ok(())
}

#[tactic(auto, unfolding(crate::specs::Texts::value_text))]
fn put_octet_list(octets: &[u8], into: &mut Vec<u8>) -> Result<(), NoMemory>
    ensures { OnOk result (into.new.items ≡ into.old.items ++ list_text (bytes octets.now)) }
{
    match octets.split_first() {
        None => Ok(()),
        Some((first, others)) => {
            put_number(u64::from(*first), into)?;
            put_more_octets(others, into)
        }
    }
}

#[tactic(auto, unfolding(crate::specs::Texts::value_text))]
fn put_octets(octets: &[u8], into: &mut Vec<u8>) -> Result<(), NoMemory>
    ensures { OnOk result (into.new.items ≡ into.old.items ++ value_text (VArray (bytes octets.now))) }
{
    put(b"[", into)?;
    put_octet_list(octets, into)?;
    put(b"]", into)
}

#[tactic(auto, unfolding(crate::specs::Texts::value_text))]
fn put_empty_arm(tag: i64, into: &mut Vec<u8>) -> Result<(), NoMemory>
    ensures { OnOk result (into.new.items ≡ into.old.items ++ value_text (VEmpty tag)) }
{
    put(b"(", into)?;
    put_signed(tag, into)?;
    put(b")", into)
}

#[tactic(auto, unfolding(crate::specs::Texts::value_text))]
#[cycle(print)]
fn put_value(value: &Value, alloc: Global, into: &mut Vec<u8>) -> Result<(), NoMemory>
    ensures { OnOk result (into.new.items ≡ into.old.items ++ value_text (val value.now)) }
{
    match value {
        Value::Bool(true) => put(b"true", into),
        Value::Bool(false) => put(b"false", into),
        Value::Byte(number) => put_number(u64::from(*number), into),
        Value::Char(number) => put_number(u64::from(*number), into),
        Value::Int(number) => put_signed(*number, into),
        Value::Uint(number) => put_number(*number, into),
        Value::Enum(number) => put_number(u64::from(*number), into),
        Value::Struct(members) => put_struct(members, alloc, into),
        Value::Union { tag, arm } => match arm {
            None => put_empty_arm(*tag, into),
            Some(inner) => put_union(inner, *tag, alloc, into),
        },
        Value::Array(items) => put_array(items, alloc, into),
        Value::Octets(octets) => put_octets(octets.as_slice(), into),
        Value::Text(octets) => put_quoted(octets.as_slice(), alloc, into),
        Value::Ptr(pointed) => match pointed {
            None => put(b"null", into),
            Some(inner) => {
                put(b"&", into)?;
                put_value(inner, alloc, into)
            }
        },
        Value::Full(item) => put_full(*item, into),
        Value::Handle(slot) => {
            put(b"$", into)?;
            put_number(u64::from(*slot), into)
        }
    }
}

#[tactic(auto, unfolding(crate::specs::Texts::value_text))]
fn put_full(item: Option<u32>, into: &mut Vec<u8>) -> Result<(), NoMemory>
    ensures { OnOk result (into.new.items ≡ into.old.items ++ value_text (VFull item)) }
{
    match item {
        None => put(b"null", into),
        Some(item) => {
            put(b"@", into)?;
            put_number(u64::from(item), into)
        }
    }
}

#[tactic(auto, unfolding(crate::specs::Texts::value_text))]
#[cycle(print)]
fn put_union(inner: &Value, tag: i64, alloc: Global, into: &mut Vec<u8>) -> Result<(), NoMemory>
    ensures { OnOk result (into.new.items ≡ into.old.items ++ value_text (VUnion tag (val inner.now))) }
{
    put(b"(", into)?;
    put_signed(tag, into)?;
    put(b": ", into)?;
    put_value(inner, alloc, into)?;
    put(b")", into)
}

#[tactic(auto, unfolding(crate::specs::Texts::value_text))]
#[cycle(print)]
fn put_struct(values: &[Value], alloc: Global, into: &mut Vec<u8>) -> Result<(), NoMemory>
    ensures { OnOk result (into.new.items ≡ into.old.items ++ value_text (VStruct (vals values.now))) }
{
    put(b"{", into)?;
    put_list(values, alloc, into)?;
    put(b"}", into)
}

#[tactic(auto, unfolding(crate::specs::Texts::value_text))]
#[cycle(print)]
fn put_array(values: &[Value], alloc: Global, into: &mut Vec<u8>) -> Result<(), NoMemory>
    ensures { OnOk result (into.new.items ≡ into.old.items ++ value_text (VArray (vals values.now))) }
{
    put(b"[", into)?;
    put_list(values, alloc, into)?;
    put(b"]", into)
}

// A value of a list, behind a comma unless it is the first.
#[tactic(auto, unfolding(crate::specs::Texts::value_text))]
#[cycle(print)]
fn put_item(value: &Value, first: bool, alloc: Global, into: &mut Vec<u8>) -> Result<(), NoMemory>
    ensures { OnOk result (into.new.items ≡ into.old.items ++ item_text first (val value.now)) }
{
    if !first {
        put(b", ", into)?;
    }
    put_value(value, alloc, into)
}

// Values with a comma and a space between each two.
#[cycle(print)]
fn put_list(values: &[Value], alloc: Global, into: &mut Vec<u8>) -> Result<(), NoMemory>
    ensures { OnOk result (into.new.items ≡ into.old.items ++ list_text (vals values.now)) }
{
    let mut first = true;
    for value in values {
        put_item(value, first, alloc, into)?;
        first = false;
    }
    Ok(())
}

/// Adds the text of a value. Where memory runs out nothing is added.
///
/// # Errors
///
/// `NoMemory` where memory runs out.
pub fn print_value(alloc: Global, value: &Value, into: &mut Vec<u8>) -> Result<(), NoMemory>
    ensures ok { OnOk result (into.new.items ≡ into.old.items ++ value_text (val value.now)) }
    ensures err { OnErr result (into.new.items ≡ into.old.items) }
{
    let mut text = Vec::new(alloc);
    put_value(value, alloc, &mut text)?;
    put(text.as_slice(), into)
}
