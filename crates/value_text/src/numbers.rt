//! Numbers in decimal, of any size.
ghost use Rattle.std.specs.Prelude.{◌≡◌, ◌&&◌, MatchOption, ℕ, ℤ, Option, List, length, true, false};
ghost use Rattle.ndr_value.specs.Fits.{limit, fits_int, within};
ghost use Rattle.value_text.specs.Numbers as spec;
ghost use Rattle.value_text.specs.Gives.{Gives};
ghost use Rattle.value_text.specs.Marks.{is_digit};

use crate::departure::{Departure, Stop};
use crate::marks::{behind, heads, heads_digit, wrong};

/// A number as it is written.
#[derive(Clone, Copy, Debug, PartialEq, Eq)]
pub struct Numeral {
    pub minus: bool,
    /// The number without its sign, where it has 64 bits.
    pub size: Option<u64>,
}

// The number with one digit more, where it has 64 bits.
fn with_digit(number: Option<u64>, digit: u8) -> Option<u64>
    requires { is_digit digit ≡ true }
    ensures { result ≡ spec.with_digit number digit }
{
    match number {
        None => None,
        Some(number) => match number.checked_mul(10) {
            None => None,
            Some(tens) => tens.checked_add(u64::from(digit - b'0')),
        },
    }
}

// The number with the digits in front, and what stands behind them.
fn digits(text: &[u8]) -> (Option<u64>, &[u8])
    ensures { (result.0, result.1.now) ≡ spec.digits_from (Some 0) text.now }
{
    let mut number = Some(0);
    let mut rest = text;
    while let Some((first, after)) = rest.split_first() {
        if !first.is_ascii_digit() {
            return (number, rest);
        }
        number = with_digit(number, *first);
        rest = after;
    }
    (number, rest)
}

/// A number without a sign, and without leading zeros.
pub(crate) fn natural(text: &[u8]) -> Result<(Option<u64>, &[u8]), Stop>
    ensures { Gives (λ x. (x.0, x.1.now)) result (spec.natural_at text.now) }
{
    if heads(b'0', text) {
        return zero(behind(text));
    }
    if heads_digit(text) {
        return Ok(digits(text));
    }
    Err(Stop::Departs(Departure::Syntax(text.len())))
}

// No digit follows a zero.
fn zero(text: &[u8]) -> Result<(Option<u64>, &[u8]), Stop>
    ensures { Gives (λ x. (x.0, x.1.now)) result (spec.zero_at text.now) }
{
    if heads_digit(text) {
        return Err(Stop::Departs(Departure::Syntax(text.len())));
    }
    Ok((Some(0), text))
}

// What stands behind a minus.
fn negative(text: &[u8]) -> Result<(Numeral, &[u8]), Stop>
    ensures { Gives (λ x. (x.0, x.1.now)) result (spec.minus_at text.now) }
{
    if heads(b'0', text) {
        return Err(Stop::Departs(Departure::Syntax(text.len())));
    }
    let (size, rest) = natural(text)?;
    Ok((Numeral { minus: true, size }, rest))
}

/// A number, where nothing else may stand.
pub(crate) fn number(text: &[u8]) -> Result<(Numeral, &[u8]), Stop>
    ensures { Gives (λ x. (x.0, x.1.now)) result (spec.number_at text.now) }
{
    if heads(b'-', text) {
        return negative(behind(text));
    }
    let (size, rest) = natural(text)?;
    Ok((Numeral { minus: false, size }, rest))
}

/// A number, where other value texts could stand.
pub(crate) fn shape_number(text: &[u8]) -> Result<(Numeral, &[u8]), Stop>
    ensures { Gives (λ x. (x.0, x.1.now)) result (spec.numeral_at text.now) }
{
    if heads(b'-', text) || heads_digit(text) {
        return number(text);
    }
    Err(Stop::Departs(wrong(text)))
}

// Whether the number is there and below the limit.
fn is_below(limit: u128, size: Option<u64>) -> bool
    ensures { result ≡ spec.is_below limit size }
{
    match size {
        None => false,
        Some(size) => u128::from(size) < limit,
    }
}

// The number, where it is there.
fn size_of(size: Option<u64>) -> u64
    ensures { result ≡ spec.size_of size }
{
    match size {
        None => 0,
        Some(size) => size,
    }
}

/// An unsigned number below the limit.
pub(crate) fn unsigned(limit: u128, text: &[u8]) -> Result<(u64, &[u8]), Stop>
    ensures { Gives (λ x. (x.0, x.1.now)) result (spec.unsigned_at limit text.now) }
{
    let (number, rest) = shape_number(text)?;
    if !number.minus && is_below(limit, number.size) {
        return Ok((size_of(number.size), rest));
    }
    Err(Stop::Departs(Departure::Range(text.len())))
}

/// The number of an item or a slot, below the limit.
pub(crate) fn index(limit: u128, text: &[u8]) -> Result<(u64, &[u8]), Stop>
    ensures { Gives (λ x. (x.0, x.1.now)) result (spec.index_at limit text.now) }
{
    let (size, rest) = natural(text)?;
    if is_below(limit, size) {
        return Ok((size_of(size), rest));
    }
    Err(Stop::Departs(Departure::Range(text.len())))
}

// low ≤ number < high
fn is_within(low: i64, high: i64, number: i64) -> bool
    ensures { result ≡ within low high number }
{
    low <= number && number < high
}

// Whether a signed number has that many octets.
fn int_fits(size: u8, number: i64) -> bool
    ensures { result ≡ fits_int size number }
{
    match size {
        1 => is_within(-(1 << 7), 1 << 7, number),
        2 => is_within(-(1 << 15), 1 << 15, number),
        4 => is_within(-(1 << 31), 1 << 31, number),
        8 => true,
        _ => false,
    }
}

impl Numeral {
    /// The number, where it has 64 bits with its sign.
    pub(crate) fn signed(self) -> Option<i64>
        ensures { MatchOption result (spec.is_signed 8 self ≡ false) (λ z. (spec.is_signed 8 self ≡ true) × (z ≡ spec.signed self)) }
    {
        let size = i128::from(self.size?);
        let number = if self.minus { -size } else { size };
        i64::try_from(number).ok()
    }
}

/// A signed number of that many octets.
pub(crate) fn signed(size: u8, text: &[u8]) -> Result<(i64, &[u8]), Stop>
    ensures { Gives (λ x. (x.0, x.1.now)) result (spec.signed_at size text.now) }
{
    let (number, rest) = shape_number(text)?;
    match number.signed() {
        Some(number) if int_fits(size, number) => Ok((number, rest)),
        _ => Err(Stop::Departs(Departure::Range(text.len()))),
    }
}

/// The first number that so many octets can't hold.
pub(crate) fn limit_of(size: u8) -> u128
    ensures { result ≡ limit size }
{
    match size {
        1 => 1 << 8,
        2 => 1 << 16,
        4 => 1 << 32,
        8 => 1 << 64,
        _ => 0,
    }
}
