//! Texts of values with the places of handles, and with their names.
ghost use Rattle.std.specs.Prelude.{◌≡◌, ◌++◌, ◌∷◌, ◌<◌, ◌^◌, length, List, ℕ, Some, false, true, IfOk, MatchOption, All};
ghost use Rattle.rpc_base.specs.declared.identifiers.WireHandle.{WireHandle};
ghost use Rattle.value_text.specs.Marks as marks;
ghost use Rattle.client_texts.specs.Handles as spec;
ghost use Rattle.client_texts.specs.Renaming.{Renames, CameAt, NoneCameAt, HeadsName, HeadsNoName, IsUnnamed, IsOnlyNamed, IsWireAt, NoWireAt};

use crate::handles::Handles;
use base_words::{cut_at, put, put_decimal, read_u64};
use ndr_value::Wires;
use rpc_base::{NoMemory, WireHandle};
use std::alloc::Global;

/// What stands after an octet.
pub(crate) fn behind(octet: u8, text: &[u8]) -> Option<&[u8]>
    ensures { MatchOption result ((rest : List ℕ) → text.now ≡ octet ∷ rest → ⊥) (λ rest. text.now ≡ octet ∷ rest.now) }
{
    let (first, rest) = text.split_first()?;
    if *first == octet { Some(rest) } else { None }
}

/// What stands after a word.
pub(crate) fn behind_all<'a>(word: &[u8], text: &'a [u8]) -> Option<&'a [u8]>
    ensures { MatchOption result ((rest : List ℕ) → text.now ≡ word.now ++ rest → ⊥) (λ rest. text.now ≡ word.now ++ rest.now) }
{
    text.strip_prefix(word)
}

/// Whether a text begins with a digit.
fn heads_digit(text: &[u8]) -> bool
    ensures { result ≡ marks.heads_digit text.now }
{
    match text {
        [] => false,
        [first, ..] => first.is_ascii_digit(),
    }
}

/// The digits at the front of a text, and what stands after them.
fn cut_digits(text: &[u8]) -> (&[u8], &[u8])
    ensures text { text.now ≡ result.0.now ++ result.1.now }
    ensures digits { All (λ c. marks.is_digit c ≡ true) result.0.now }
    ensures behind { marks.heads_digit result.1.now ≡ false }
{
    match text.iter().position(|octet| !octet.is_ascii_digit()) {
        Some(at) => text.split_at(at),
        None => (text, &[]),
    }
}

/// The handle that came at the place that is written so, where that is its first.
fn came_at(known: &Handles, count: usize, digits: &[u8]) -> Option<WireHandle>
    requires { count ≡ length known.now }
    ensures few { length known.now < 2 ^ 64 }
    ensures found { MatchOption result (NoneCameAt known.now digits.now) (CameAt known.now digits.now) }
{
    let number = read_u64(digits)?;
    let at = number.checked_sub(1)? as usize;
    if at >= count {
        return None;
    }
    let wire = known.at(at);
    if wire.is_null() || !known.has_name(&wire) || known.place(&wire) != number {
        return None;
    }
    Some(wire)
}

/// The handle whose name stands at the front of a text, and what stands after it.
#[tactic(auto, unfolding(crate::specs::Handles::name))]
fn read_name<'a>(known: &Handles, text: &'a [u8]) -> Option<(WireHandle, &'a [u8])>
    ensures few { length known.now < 2 ^ 64 }
    ensures found { MatchOption result (HeadsNoName known.now text.now) (λ x. HeadsName known.now text.now x.0 x.1.now) }
{
    let count = known.len();
    if let Some(rest) = behind_all(b"null", text) {
        if heads_digit(rest) {
            return None;
        }
        return Some((WireHandle::NULL, rest));
    }
    let (digits, rest) = cut_digits(behind(b'h', text)?);
    let wire = came_at(known, count, digits)?;
    Some((wire, rest))
}

/// The text with the places of the handles that it names, and these handles. `None` where something else stands for a
/// handle, or a double quote isn't closed.
pub(crate) fn with_places(
    alloc: Global,
    known: &Handles,
    text: &[u8],
) -> Result<Option<(Vec<u8>, Wires)>, NoMemory>
    ensures { IfOk result (λ found. MatchOption found (IsUnnamed known.now text.now) (λ x. IsOnlyNamed known.now x.1 x.0.items text.now)) }
{
    let mut plain = Vec::new(alloc);
    let mut wires = Wires::new(alloc);
    let mut rest = text;
    while let Some((first, after)) = rest.split_first() {
        if *first == b'$' {
            let Some((wire, after)) = read_name(known, after) else {
                return Ok(None);
            };
            put(b"$", &mut plain)?;
            put_decimal(alloc, wires.len() as u64, &mut plain)?;
            wires.push(wire)?;
            rest = after;
        } else if *first == b'"' {
            let Some((inside, after)) = cut_at(b'"', after) else {
                return Ok(None);
            };
            put(b"\"", &mut plain)?;
            put(inside, &mut plain)?;
            put(b"\"", &mut plain)?;
            rest = after;
        } else {
            put(&[*first], &mut plain)?;
            rest = after;
        }
    }
    Ok(Some((plain, wires)))
}

/// Adds the text with the names of handles in place of their places. False where a place is none of theirs, or its handle has no
/// name.
pub(crate) fn put_named(
    alloc: Global,
    known: &Handles,
    wires: &[WireHandle],
    text: &[u8],
    into: &mut Vec<u8>,
) -> Result<bool, NoMemory>
    ensures { IfOk result (λ named. Renames named known.now wires.now text.now into.old.items into.new.items) }
{
    let mut rest = text;
    while let Some((first, after)) = rest.split_first() {
        if *first == b'$' {
            let (digits, after) = cut_digits(after);
            let Some(wire) = wire_at(wires, digits) else {
                return Ok(false);
            };
            if !known.has_name(&wire) {
                return Ok(false);
            }
            put(b"$", into)?;
            known.put_name(alloc, &wire, into)?;
            rest = after;
        } else if *first == b'"' {
            let Some((inside, after)) = cut_at(b'"', after) else {
                return Ok(false);
            };
            put(b"\"", into)?;
            put(inside, into)?;
            put(b"\"", into)?;
            rest = after;
        } else {
            put(&[*first], into)?;
            rest = after;
        }
    }
    Ok(true)
}

/// The handle at the place that is written so.
fn wire_at(wires: &[WireHandle], digits: &[u8]) -> Option<WireHandle>
    ensures few { length wires.now < 2 ^ 64 }
    ensures found { MatchOption result (NoWireAt wires.now digits.now) (IsWireAt wires.now digits.now) }
{
    let count = wires.len();
    let at = read_u64(digits)? as usize;
    if at < count { Some(wires[at]) } else { None }
}
