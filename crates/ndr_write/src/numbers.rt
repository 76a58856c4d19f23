//! Numbers and gaps.
ghost use Rattle.std.specs.Prelude.{◌≡◌, ◌<◌, ◌≤◌, ◌-◌, ◌^◌, true};
ghost use Rattle.ndr_table.specs.Ordered.{is_size};
ghost use Rattle.ndr_scalars.specs.Scalars.{up, holds_number, holds_signed};
ghost use Rattle.ndr_value.specs.Fits.{within};
ghost use Rattle.ndr_model.specs.Pieces as spec;
ghost use Rattle.ndr_write.specs.Views.{Puts};

use ndr_scalars::{write_int, write_uint};
use rpc_base::{NoMemory, Order};

// The number, where so many octets hold it; else 0.
fn fitting(size: u8, value: u64) -> u64
    ensures exact { result ≡ spec.fitting size value }
    ensures holds { holds_number size result }
{
    let fits = match size {
        1 => value < 1 << 8,
        2 => value < 1 << 16,
        4 => value < 1 << 32,
        _ => true,
    };
    if fits { value } else { 0 }
}

// low ≤ number < high
fn is_within(low: i64, high: i64, number: i64) -> bool
    ensures { result ≡ within low high number }
{
    low <= number && number < high
}

// The signed number, where so many octets hold it; else 0.
fn fitting_int(size: u8, value: i64) -> i64
    ensures exact { result ≡ spec.fitting_int size value }
    ensures holds { holds_signed size result }
{
    let fits = match size {
        1 => is_within(-(1 << 7), 1 << 7, value),
        2 => is_within(-(1 << 15), 1 << 15, value),
        4 => is_within(-(1 << 31), 1 << 31, value),
        _ => true,
    };
    if fits { value } else { 0 }
}

/// Adds a number at the next multiple of its size.
pub(crate) fn number(order: Order, size: u8, value: u64, into: &mut Vec<u8>) -> Result<(), NoMemory>
    ensures { Puts result into.old.items into.new.items (spec.number order size value) }
{
    write_uint(order, size, fitting(size, value), into)
}

/// Adds a signed number at the next multiple of its size.
pub(crate) fn signed(order: Order, size: u8, value: i64, into: &mut Vec<u8>) -> Result<(), NoMemory>
    ensures { Puts result into.old.items into.new.items (spec.signed_number order size value) }
{
    write_int(order, size, fitting_int(size, value), into)
}

// How many octets are left to the next multiple of an alignment.
fn gap_len(align: u8, len: usize) -> usize
    requires size { is_size align ≡ true }
    requires small { len < 2 ^ 63 }
    ensures exact { result ≡ up len align - len }
    ensures small { result ≤ 7 }
{
    match align {
        1 => 0,
        2 => (len + 1) / 2 * 2 - len,
        4 => (len + 3) / 4 * 4 - len,
        _ => (len + 7) / 8 * 8 - len,
    }
}

/// Adds zeros up to the next multiple of an alignment.
#[tactic(auto, using(ndr_scalars::proofs::Gaps::gap_is))]
pub(crate) fn gap(align: u8, into: &mut Vec<u8>) -> Result<(), NoMemory>
    requires { is_size align ≡ true }
    ensures { Puts result into.old.items into.new.items (spec.gap align) }
{
    let len = gap_len(align, into.len());
    into.extend_from_slice(&[0; 7][..len])?;
    Ok(())
}

/// A number that may be negative as one without a sign: 0 where it is.
pub(crate) fn natural(value: i64) -> u64
    ensures { result ≡ spec.natural value }
{
    if value < 0 { 0 } else { value as u64 }
}

/// A count of 32 bits; 0 where nothing is named, or another number.
pub(crate) fn counted(wanted: Option<i128>) -> u32
    ensures { result ≡ spec.counted wanted }
{
    match wanted {
        None => 0,
        Some(number) => {
            if 0 <= number && number < 1 << 32 {
                number as u32
            } else {
                0
            }
        }
    }
}

/// So many elements, as a count of 32 bits.
pub(crate) fn count_of(len: u64) -> u32
    ensures { result ≡ spec.fitting 4 len }
{
    if len < 1 << 32 { len as u32 } else { 0 }
}

/// The id of the pointer behind so many.
pub(crate) fn next_id(count: u32) -> u32
    ensures { (items : _) → result ≡ spec.next_id (record { count = count; items = items }) }
{
    count_of(0x0002_0000 + 4 * u64::from(count))
}
