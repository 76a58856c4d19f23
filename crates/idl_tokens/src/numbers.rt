//! Numbers at the front of a text.
ghost use Rattle.std.specs.Prelude.{◌≡◌, ◌<◌, ℕ, List, Option, false, length, MatchOption};
ghost use Rattle.std.specs.Char.{is_digit};
ghost use Rattle.std.specs.Str.Parse.{AllDigits, digits_value};
ghost use Rattle.idl_tokens.specs.Runs.{radix_of};
ghost use Rattle.idl_tokens.specs.Tokens.{IsNumberAt, IsNumeralAt, fitting, starts};

use crate::runs::{Radix, Run, cut};

/// The number that digits stand for, if it fits.
fn value(digits: &[u8], radix: Radix) -> Option<u64>
    requires some { 0 < length digits.now }
    requires each { AllDigits (radix_of radix) digits.now }
    ensures { result ≡ fitting (digits_value (radix_of radix) digits.now) }
{
    let text = std::str::from_utf8(digits).ok()?;
    u64::from_str_radix(text, radix.value()).ok()
}

/// The value of the digits at the front, and what is behind them.
fn numeral(text: &[u8], radix: Radix) -> Option<(Option<u64>, &[u8])>
    ensures { MatchOption result (starts (λ c. is_digit c (radix_of radix)) text.now ≡ false) (λ p. IsNumeralAt (radix_of radix) text.now p.0 p.1.now) }
{
    let (digits, rest) = cut(text, Run::Digits(radix));
    if digits.is_empty() {
        return None;
    }
    Some((value(digits, radix), rest))
}

/// The number at the front, if it fits, and what is behind it.
pub fn number(text: &[u8]) -> Option<(Option<u64>, &[u8])>
    ensures { MatchOption result ((value : Option ℕ) (rest : List ℕ) → IsNumberAt text.now value rest → ⊥) (λ p. IsNumberAt text.now p.0 p.1.now) }
{
    if text.starts_with(b"0x") {
        numeral(&text[2..], Radix::Hexadecimal)
    } else {
        numeral(text, Radix::Decimal)
    }
}
