//! What separates tokens.
ghost use Rattle.std.specs.Prelude.{◌≡◌, ◌<◌, ◌≤◌, ℕ, List, length, MatchOption, IfSome};
ghost use Rattle.idl_tokens.specs.Tokens.{Gap, Separates, after_comment, is_blank as blank_test};
ghost use Rattle.std.specs.Option.{option_copied};

use crate::runs::{Run, cut};

/// What is behind a comment's first `*/`.
fn behind_comment(inside: &[u8]) -> Option<&[u8]>
    ensures value { option_copied result ≡ after_comment inside.now }
    ensures shorter { IfSome result (λ rest. length rest.now < length inside.now) }
{
    let mut text = inside;
    'octets: while let Some((first, after)) = text.split_first() {
        if *first == b'*' {
            if let Some((b'/', rest)) = after.split_first() {
                return Some(rest);
            }
        }
        text = after;
    }
    None
}

/// Space, tab, line feed and carriage return.
fn is_blank(octet: u8) -> bool
    ensures { result ≡ blank_test octet }
{
    matches!(octet, b' ' | b'\t' | b'\n' | b'\r')
}

/// What is behind the separator at the front of the text.
fn behind_separator(text: &[u8]) -> Option<&[u8]>
    ensures value { MatchOption result ((rest : List ℕ) → Separates text.now rest → ⊥) (λ rest. Separates text.now rest.now) }
    ensures shorter { IfSome result (λ rest. length rest.now < length text.now) }
{
    let (first, after) = text.split_first()?;
    if is_blank(*first) {
        return Some(after);
    }
    if *first != b'/' {
        return None;
    }
    let (second, inside) = after.split_first()?;
    match *second {
        b'*' => behind_comment(inside),
        b'/' => Some(cut(inside, Run::Line).1),
        _ => None,
    }
}

/// What is behind the separators at the front of the text.
pub fn behind_gap(text: &[u8]) -> &[u8]
    ensures gap { Gap result.now text.now }
    ensures no_more { (rest : List ℕ) → Separates result.now rest → ⊥ }
    ensures no_longer { length result.now ≤ length text.now }
{
    let mut here = text;
    'separators: while let Some(rest) = behind_separator(here) {
        here = rest;
    }
    here
}
