//! Texts in double quotes.
ghost use Rattle.std.specs.Prelude.{◌≡◌, ◌+◌, ◌*◌, ◌<◌, ℕ, List, length, true};
ghost use Rattle.ndr_value.specs.Fits.{fits_text};
ghost use Rattle.value_text.specs.Texts.{is_plain};
ghost use Rattle.value_text.specs.Quoted as spec;
ghost use Rattle.value_text.specs.Gives.{Gives};

use crate::departure::{Departure, Stop};
use crate::marks::{closed, heads, mark, opened};
use rpc_base::Octets;
use std::alloc::Global;

/// Whether an octet of a text stands as it is.
pub(crate) fn stands_plain(octet: u8) -> bool
    ensures { result ≡ is_plain octet }
{
    (0x20..=0x7e).contains(&octet) && octet != b'"' && octet != b'\\'
}

// Whether the octet is a small hexadecimal digit.
fn hex_mark(octet: u8) -> bool
    ensures { result ≡ spec.is_hex_mark octet }
{
    matches!(octet, b'0'..=b'9' | b'a'..=b'f')
}

// What a small hexadecimal digit stands for.
fn digit_of(mark: u8) -> u8
    requires { spec.is_hex_mark mark ≡ true }
    ensures value { result ≡ spec.digit_of mark }
    ensures small { result < 16 }
{
    if mark <= b'9' {
        mark - b'0'
    } else {
        mark - b'a' + 10
    }
}

// Whether some octet stands by its number with that first digit.
fn begins_number(high: u8) -> bool
    ensures { result ≡ spec.is_high high }
{
    hex_mark(high) && !(high == b'3' || high == b'4' || high == b'6')
}

// The second digit of an octet that stands by its number.
fn low_digit(high: u8, text: &[u8]) -> Result<(u8, &[u8]), Stop>
    requires { spec.is_hex_mark high ≡ true }
    ensures { Gives (λ x. (x.0, x.1.now)) result (spec.low_at high text.now) }
{
    match text {
        [] => Err(Stop::Departs(Departure::Syntax(0))),
        [low, rest @ ..] => {
            if hex_mark(*low) {
                let octet = digit_of(high) * 16 + digit_of(*low);
                if !stands_plain(octet) {
                    return Ok((octet, rest));
                }
            }
            Err(Stop::Departs(Departure::Syntax(text.len())))
        }
    }
}

// The two digits of an octet that stands by its number.
fn high_digit(text: &[u8]) -> Result<(u8, &[u8]), Stop>
    ensures { Gives (λ x. (x.0, x.1.now)) result (spec.high_at text.now) }
{
    match text {
        [] => Err(Stop::Departs(Departure::Syntax(0))),
        [high, rest @ ..] => {
            if begins_number(*high) {
                return low_digit(*high, rest);
            }
            Err(Stop::Departs(Departure::Syntax(text.len())))
        }
    }
}

// One octet of a text.
fn one_char(text: &[u8]) -> Result<(u8, &[u8]), Stop>
    ensures { Gives (λ x. (x.0, x.1.now)) result (spec.char_at text.now) }
{
    match text {
        [] => Err(Stop::Departs(Departure::Syntax(0))),
        [first, rest @ ..] => {
            if stands_plain(*first) {
                return Ok((*first, rest));
            }
            if *first != b'\\' {
                return Err(Stop::Departs(Departure::Syntax(text.len())));
            }
            let digits = mark(b'x', rest)?;
            high_digit(digits)
        }
    }
}

// Whether a text of so many octets fits, with its NUL.
fn length_fits(most: Option<u32>, count: usize) -> bool
    ensures { result ≡ fits_text most count }
{
    match most {
        None => count < (1 << 32) - 1,
        Some(most) => count < most as usize,
    }
}

// Whether an octet of a text begins here.
fn begins_char(text: &[u8]) -> bool
    ensures { result ≡ spec.begins_char text.now }
{
    match text {
        [] => false,
        [first, ..] => stands_plain(*first) || *first == b'\\',
    }
}

// An octet of a text that isn't NUL.
fn char_in_text(text: &[u8]) -> Result<(u8, &[u8]), Stop>
    ensures { Gives (λ x. (x.0, x.1.now)) result (spec.char_in_text_at text.now) }
{
    let (octet, rest) = one_char(text)?;
    if octet == 0 {
        return Err(Stop::Departs(Departure::Range(text.len())));
    }
    Ok((octet, rest))
}

// An octet of a text, where the text may go on.
fn next_char(may: bool, text: &[u8]) -> Result<(u8, &[u8]), Stop>
    ensures { Gives (λ x. (x.0, x.1.now)) result (spec.next_at may text.now) }
{
    if !begins_char(text) {
        return Err(Stop::Departs(Departure::Syntax(text.len())));
    }
    if !may {
        return Err(Stop::Departs(Departure::Kind(text.len())));
    }
    char_in_text(text)
}

// The octets of a text, behind its quote.
fn chars(alloc: Global, most: Option<u32>, text: &[u8]) -> Result<(Octets, &[u8]), Stop>
    ensures { Gives (λ x. (x.0, x.1.now)) result (spec.chars_at (length text.now + 1) most 0 text.now) }
{
    let mut octets = Vec::new(alloc);
    let mut rest = text;
    for count in 0..text.len() + 1 {
        if heads(b'"', rest) {
            let rest = closed(length_fits(most, count), rest)?;
            return Ok((Octets::from_vec(octets), rest));
        }
        let (octet, after) = next_char(length_fits(most, count + 1), rest)?;
        octets.push(octet)?;
        rest = after;
    }
    Err(Stop::Departs(Departure::Syntax(rest.len())))
}

/// A text in quotes.
pub(crate) fn quoted(alloc: Global, most: Option<u32>, text: &[u8]) -> Result<(Octets, &[u8]), Stop>
    ensures { Gives (λ x. (x.0, x.1.now)) result (spec.text_at most text.now) }
{
    let rest = opened(b'"', text)?;
    chars(alloc, most, rest)
}
