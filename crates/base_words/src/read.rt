//! Readers: each takes the whole text of one value, in the one spelling that the writers have.
ghost use Rattle.std.specs.Prelude.{◌≡◌, ◌≢◌, ◌≤◌, ◌<◌, ◌^◌, ◌↔◌, IsTrue, IfOk, OnOk, length, slice_index, decimal};
ghost use Rattle.std.specs.List.{list_all};
ghost use Rattle.hex.specs.Hex.{encode_lower, IsBytes};
ghost use Rattle.base_words.specs.Reads.{Reads};
ghost use Rattle.base_words.specs.Words.{octets_text, hex_u32, hex_u64, hex_u128, is_hex_mark, IsBetween};

use hex::{FromHex, FromHexError};
use rpc_base::{NoMemory, Octets};
use std::alloc::Global;

/// Whether the text begins as decimal numbers do: with no plus, and with a zero only where it is all.
fn begins_as_decimal(text: &[u8]) -> bool
    ensures { IsTrue result ↔ ((slice_index text.now 0 ≢ 43) × (slice_index text.now 0 ≡ 48 → length text.now ≡ 1)) }
{
    match text {
        [] => true,
        [digit] => *digit != b'+',
        [digit, ..] => *digit != b'+' && *digit != b'0',
    }
}

/// A number in decimal, without leading zeros.
pub fn read_u64(text: &[u8]) -> Option<u64>
    ensures { Reads (λ n. n < 2 ^ 64) decimal text.now result }
{
    if !begins_as_decimal(text) {
        return None;
    }
    let Ok(digits) = std::str::from_utf8(text) else {
        return None;
    };
    digits.parse::<u64>().ok()
}

/// A number in decimal, from the least to the most.
pub fn read_between(text: &[u8], least: u64, most: u64) -> Option<u64>
    ensures { Reads (IsBetween least most) decimal text.now result }
{
    let number = read_u64(text)?;
    if least <= number && number <= most {
        Some(number)
    } else {
        None
    }
}

/// A number of 32 bits in decimal.
pub fn read_u32(text: &[u8]) -> Option<u32>
    ensures { Reads (λ n. n < 2 ^ 32) decimal text.now result }
{
    let number = read_u64(text)?;
    u32::try_from(number).ok()
}

/// A number of 16 bits in decimal.
pub fn read_u16(text: &[u8]) -> Option<u16>
    ensures { Reads (λ n. n < 2 ^ 16) decimal text.now result }
{
    let number = read_u64(text)?;
    u16::try_from(number).ok()
}

/// A number of 8 bits in decimal.
pub fn read_u8(text: &[u8]) -> Option<u8>
    ensures { Reads (λ n. n < 2 ^ 8) decimal text.now result }
{
    let number = read_u64(text)?;
    u8::try_from(number).ok()
}

/// Whether each octet is a digit or a small letter up to f.
fn are_hex_marks(text: &[u8]) -> bool
    ensures { result ≡ list_all is_hex_mark text.now }
{
    text.iter()
        .all(|mark| matches!(*mark, b'0'..=b'9' | b'a'..=b'f'))
}

/// Hands want of memory on, and nothing else.
fn unless_memory(error: FromHexError) -> Result<(), NoMemory>
    ensures { OnOk result (error ≢ FromHexError.OutOfMemory) }
{
    match error {
        FromHexError::OutOfMemory => Err(NoMemory),
        _ => Ok(()),
    }
}

/// Octets in hexadecimal, two small digits each. The empty text has no octets.
///
/// # Errors
///
/// `NoMemory` where there is no memory for the octets.
pub fn read_hex(alloc: Global, text: &[u8]) -> Result<Option<Octets>, NoMemory>
    ensures { IfOk result (Reads IsBytes encode_lower text.now) }
{
    if !are_hex_marks(text) {
        return Ok(None);
    }
    match hex::decode(alloc, text) {
        Ok(octets) => Ok(Some(Octets::from_vec(octets))),
        Err(error) => {
            unless_memory(error)?;
            Ok(None)
        }
    }
}

/// Octets as a word: in hexadecimal, and `-` where there are none.
///
/// # Errors
///
/// `NoMemory` where there is no memory for the octets.
#[tactic(auto, unfolding(crate::specs::Words::octets_text))]
pub fn read_octets(alloc: Global, text: &[u8]) -> Result<Option<Octets>, NoMemory>
    ensures { IfOk result (Reads IsBytes octets_text text.now) }
{
    if text == b"-".as_slice() {
        Ok(Some(Octets::new(alloc)))
    } else if text.is_empty() {
        Ok(None)
    } else {
        read_hex(alloc, text)
    }
}

/// As many octets as the array has, in hexadecimal.
fn read_array<const N: usize>(text: &[u8]) -> Option<[u8; N]>
    ensures { Reads (λ xs. IsBytes xs × (length xs ≡ N)) encode_lower text.now result }
{
    if !are_hex_marks(text) {
        return None;
    }
    <[u8; N]>::from_hex(text).ok()
}

/// A number in 8 hexadecimal digits.
pub fn read_hex_u32(text: &[u8]) -> Option<u32>
    ensures { Reads (λ n. n < 2 ^ 32) hex_u32 text.now result }
{
    let octets = read_array::<4>(text)?;
    Some(u32::from_be_bytes(octets))
}

/// A number in 16 hexadecimal digits.
pub fn read_hex_u64(text: &[u8]) -> Option<u64>
    ensures { Reads (λ n. n < 2 ^ 64) hex_u64 text.now result }
{
    let octets = read_array::<8>(text)?;
    Some(u64::from_be_bytes(octets))
}

/// A number in 32 hexadecimal digits.
pub fn read_hex_u128(text: &[u8]) -> Option<u128>
    ensures { Reads (λ n. n < 2 ^ 128) hex_u128 text.now result }
{
    if text.len() != 32 {
        return None;
    }
    let high = read_hex_u64(&text[..16])?;
    let low = read_hex_u64(&text[16..])?;
    Some((high as u128) * (1 << 64) + low as u128)
}
