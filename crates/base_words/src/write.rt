//! Writers: each adds one text at the end of what is there.
ghost use Rattle.std.specs.Prelude.{◌≡◌, ◌++◌, OnOk, OnErr, decimal};
ghost use Rattle.hex.specs.Hex.{encode_lower};
ghost use Rattle.base_words.specs.Words.{octets_text, hex_u32, hex_u64, hex_u128};

use rpc_base::NoMemory;
use std::alloc::Global;

/// Adds octets as they are.
///
/// # Errors
///
/// `NoMemory` where there is no memory for the octets; nothing is added then.
pub fn put(text: &[u8], into: &mut Vec<u8>) -> Result<(), NoMemory>
    ensures ok { OnOk result (into.new.items ≡ into.old.items ++ text.now) }
    ensures err { OnErr result (into.new.items ≡ into.old.items) }
{
    into.extend_from_slice(text)?;
    Ok(())
}

/// Adds a number in decimal, without leading zeros.
///
/// # Errors
///
/// `NoMemory` where there is no memory for the text; nothing is added then.
pub fn put_decimal(alloc: Global, number: u64, into: &mut Vec<u8>) -> Result<(), NoMemory>
    ensures ok { OnOk result (into.new.items ≡ into.old.items ++ decimal number) }
    ensures err { OnErr result (into.new.items ≡ into.old.items) }
{
    let text = format!(in alloc; "{number}")?;
    put(text.as_bytes(), into)
}

/// Adds octets in hexadecimal, two small digits each. No octets have the empty text.
///
/// # Errors
///
/// `NoMemory` where there is no memory for the text; nothing is added then.
pub fn put_hex(alloc: Global, octets: &[u8], into: &mut Vec<u8>) -> Result<(), NoMemory>
    ensures ok { OnOk result (into.new.items ≡ into.old.items ++ encode_lower octets.now) }
    ensures err { OnErr result (into.new.items ≡ into.old.items) }
{
    let text = hex::encode(alloc, octets)?;
    put(text.as_bytes(), into)
}

/// Adds octets as a word: in hexadecimal, and `-` where there are none.
///
/// # Errors
///
/// `NoMemory` where there is no memory for the text; nothing is added then.
#[tactic(auto, unfolding(crate::specs::Words::octets_text))]
pub fn put_octets(alloc: Global, octets: &[u8], into: &mut Vec<u8>) -> Result<(), NoMemory>
    ensures ok { OnOk result (into.new.items ≡ into.old.items ++ octets_text octets.now) }
    ensures err { OnErr result (into.new.items ≡ into.old.items) }
{
    match octets {
        [] => put(b"-", into),
        _ => put_hex(alloc, octets, into),
    }
}

/// Adds a number in 8 hexadecimal digits.
///
/// # Errors
///
/// `NoMemory` where there is no memory for the text; nothing is added then.
#[tactic(auto, unfolding(crate::specs::Words::hex_u32))]
pub fn put_hex_u32(alloc: Global, number: u32, into: &mut Vec<u8>) -> Result<(), NoMemory>
    ensures ok { OnOk result (into.new.items ≡ into.old.items ++ hex_u32 number) }
    ensures err { OnErr result (into.new.items ≡ into.old.items) }
{
    let octets = number.to_be_bytes();
    put_hex(alloc, &octets, into)
}

/// Adds a number in 16 hexadecimal digits.
///
/// # Errors
///
/// `NoMemory` where there is no memory for the text; nothing is added then.
#[tactic(auto, unfolding(crate::specs::Words::hex_u64))]
pub fn put_hex_u64(alloc: Global, number: u64, into: &mut Vec<u8>) -> Result<(), NoMemory>
    ensures ok { OnOk result (into.new.items ≡ into.old.items ++ hex_u64 number) }
    ensures err { OnErr result (into.new.items ≡ into.old.items) }
{
    let octets = number.to_be_bytes();
    put_hex(alloc, &octets, into)
}

/// Adds a number in 32 hexadecimal digits.
///
/// # Errors
///
/// `NoMemory` where there is no memory for the text; nothing is added then.
#[tactic(auto, unfolding(crate::specs::Words::hex_u128))]
pub fn put_hex_u128(alloc: Global, number: u128, into: &mut Vec<u8>) -> Result<(), NoMemory>
    ensures ok { OnOk result (into.new.items ≡ into.old.items ++ hex_u128 number) }
    ensures err { OnErr result (into.new.items ≡ into.old.items) }
{
    let octets = number.to_be_bytes();
    put_hex(alloc, &octets, into)
}
