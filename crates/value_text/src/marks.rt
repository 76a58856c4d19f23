//! The signs of value texts.
ghost use Rattle.std.specs.Prelude.{◌≡◌, List, ℕ, length};
ghost use Rattle.value_text.specs.Marks as spec;
ghost use Rattle.value_text.specs.Gives.{Gives};

use crate::departure::{Departure, Stop};

// Whether a value text begins with the octet.
fn begins(octet: u8) -> bool
    ensures { result ≡ spec.begins octet }
{
    octet.is_ascii_digit()
        || matches!(
            octet,
            b'-' | b'"' | b't' | b'f' | b'n' | b'{' | b'[' | b'(' | b'&' | b'@' | b'$'
        )
}

/// Whether the text begins with the octet.
pub(crate) fn heads(octet: u8, text: &[u8]) -> bool
    ensures { result ≡ spec.heads octet text.now }
{
    match text {
        [] => false,
        [first, ..] => *first == octet,
    }
}

/// Whether the text begins with a digit.
pub(crate) fn heads_digit(text: &[u8]) -> bool
    ensures { result ≡ spec.heads_digit text.now }
{
    match text {
        [] => false,
        [first, ..] => first.is_ascii_digit(),
    }
}

/// The text behind its first octet.
pub(crate) fn behind(text: &[u8]) -> &[u8]
    ensures { result.now ≡ spec.behind text.now }
{
    match text {
        [] => text,
        [_, rest @ ..] => rest,
    }
}

/// How the text departs where values of the shape don't go on.
pub(crate) fn wrong(text: &[u8]) -> Departure
    ensures { result ≡ spec.wrong text.now }
{
    match text {
        [] => Departure::Syntax(0),
        [first, ..] => {
            if begins(*first) {
                Departure::Kind(text.len())
            } else {
                Departure::Syntax(text.len())
            }
        }
    }
}

/// Goes past the octet, where no other may stand.
pub(crate) fn mark(octet: u8, text: &[u8]) -> Result<&[u8], Stop>
    ensures { Gives (λ x. x.now) result (spec.mark octet text.now) }
{
    if heads(octet, text) {
        Ok(behind(text))
    } else {
        Err(Stop::Departs(Departure::Syntax(text.len())))
    }
}

/// Goes past a word, where no other may stand.
pub(crate) fn marks<'a>(word: &[u8], text: &'a [u8]) -> Result<&'a [u8], Stop>
    ensures { Gives (λ x. x.now) result (spec.marks word.now text.now) }
{
    match word.split_first() {
        None => Ok(text),
        Some((first, others)) => {
            let rest = mark(*first, text)?;
            marks(others, rest)
        }
    }
}

/// Goes past the octet with which values of the shape begin.
pub(crate) fn opened(octet: u8, text: &[u8]) -> Result<&[u8], Stop>
    ensures { Gives (λ x. x.now) result (spec.opened octet text.now) }
{
    if heads(octet, text) {
        Ok(behind(text))
    } else {
        Err(Stop::Departs(wrong(text)))
    }
}

/// Goes past a closing sign, where a value may end.
pub(crate) fn closed(may: bool, text: &[u8]) -> Result<&[u8], Stop>
    ensures { Gives (λ x. x.now) result (spec.closed may text.now) }
{
    if may {
        Ok(behind(text))
    } else {
        Err(Stop::Departs(Departure::Kind(text.len())))
    }
}
