//! The token at the front of a text.
ghost use Rattle.std.specs.Prelude.{◌≡◌, ◌≢◌, ◌+◌, ◌<◌, ◌^◌, ℕ, List, true, MatchOption, IfOk, length};
ghost use Rattle.idl_tokens.specs.Tokens.{IsStringAt, IsUuidAt, Spells, is_letter as letter_test, starts};
ghost use Rattle.idl_tokens.specs.declared.kinds.Kind.{Kind};
ghost use Rattle.idl_tokens.specs.Firsts.{IsMarkOrBracket};

use crate::numbers::number;
use crate::runs::{Run, cut};
use crate::{Bracket, Kind, Mark, Word};
use rpc_base::{NoMemory, Octets};
use std::alloc::Global;
use uuid::Uuid;

fn octets(alloc: Global, text: &[u8]) -> Result<Octets, NoMemory>
    ensures { IfOk result (λ octets. octets ≡ text.now) }
{
    Ok(Octets::from_vec(Vec::from_slice(alloc, text)?))
}

/// The name or the reserved word at the front, and what is behind it.
fn name(alloc: Global, text: &[u8]) -> Result<(Kind, &[u8]), NoMemory>
    requires { starts letter_test text.now ≡ true }
    ensures { IfOk result (λ p. (depth : ℕ) → Spells depth text.now p.0 p.1.now) }
{
    let (name, rest) = cut(text, Run::Name);
    match Word::of_text(name) {
        Some(word) => Ok((Kind::Word(word), rest)),
        None => Ok((Kind::Name(octets(alloc, name)?), rest)),
    }
}

/// The string at the front, and what is behind it.
fn string(alloc: Global, text: &[u8]) -> Result<Option<(Octets, &[u8])>, NoMemory>
    ensures { IfOk result (λ found. MatchOption found
        ((inside rest : List ℕ) → IsStringAt text.now inside rest → ⊥)
        (λ p. IsStringAt text.now p.0 p.1.now)) }
{
    let Some((b'"', after)) = text.split_first() else {
        return Ok(None);
    };
    let (inside, end) = cut(after, Run::String);
    let Some((b'"', rest)) = end.split_first() else {
        return Ok(None);
    };
    Ok(Some((octets(alloc, inside)?, rest)))
}

/// The mark or bracket of that spelling.
fn mark_or_bracket(octet: u8, depth: usize) -> Option<Kind>
    requires { depth + 1 < 2 ^ 64 }
    ensures { MatchOption result ((kind : Kind) → IsMarkOrBracket depth octet kind → ⊥) (IsMarkOrBracket depth octet) }
{
    if let Some(mark) = Mark::of_octet(octet) {
        return Some(Kind::Mark(mark));
    }
    if let Some(bracket) = Bracket::of_open_octet(octet) {
        return Some(Kind::Open(bracket, depth + 1));
    }
    match Bracket::of_shut_octet(octet) {
        Some(bracket) => Some(Kind::Shut(bracket)),
        None => None,
    }
}

fn is_letter(octet: u8) -> bool
    ensures { result ≡ letter_test octet }
{
    octet.is_ascii_alphabetic() || octet == b'_'
}

/// The token at the front where so many brackets are open, and what is behind it.
///
/// # Errors
///
/// `NoMemory` where there is no memory for its text.
pub fn first_token(
    alloc: Global,
    depth: usize,
    text: &[u8],
) -> Result<Option<(Kind, &[u8])>, NoMemory>
    requires { depth + 1 < 2 ^ 64 }
    ensures { IfOk result (λ found. MatchOption found
        ((kind : Kind) (rest : List ℕ) → Spells depth text.now kind rest → ⊥)
        (λ p. Spells depth text.now p.0 p.1.now)) }
{
    let Some((first, after)) = text.split_first() else {
        return Ok(None);
    };
    if is_letter(*first) {
        return Ok(Some(name(alloc, text)?));
    }
    if first.is_ascii_digit() {
        return match number(text) {
            Some((value, rest)) => Ok(Some((Kind::Number(value), rest))),
            None => Ok(None),
        };
    }
    if *first == b'"' {
        return match string(alloc, text)? {
            Some((inside, rest)) => Ok(Some((Kind::Text(inside), rest))),
            None => Ok(None),
        };
    }
    match mark_or_bracket(*first, depth) {
        Some(kind) => Ok(Some((kind, after))),
        None => Ok(None),
    }
}

/// The UUID at the front, and what is behind it.
pub fn uuid(text: &[u8]) -> Option<(Uuid, &[u8])>
    ensures { MatchOption result
        ((id rest : List ℕ) → IsUuidAt text.now id rest → ⊥)
        (λ p. IsUuidAt text.now p.0 p.1.now) }
{
    if text.len() < 36 {
        return None;
    }
    let (form, rest) = text.split_at(36);
    match Uuid::try_parse_ascii(form) {
        Ok(id) => Some((id, rest)),
        Err(_) => None,
    }
}
