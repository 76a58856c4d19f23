//! Numbers that are written.
ghost use Rattle.std.specs.Prelude.{◌≡◌, ◌<◌, ◌≤◌, ◌-◌, ◌++◌, length, replicate, OnOk, OnErr};
ghost use Rattle.std.specs.Int.{w16, w32, w64};
ghost use Rattle.rpc_base.specs.Fields.{number_octets};
ghost use Rattle.ndr_scalars.specs.Scalars.{octets_of, up, written, holds_number, holds_signed, unsigned};

use rpc_base::{NoMemory, Order};

/// Adds two pieces at the end, both or none.
fn put_both(first: &[u8], second: &[u8], into: &mut Vec<u8>) -> Result<(), NoMemory>
    ensures ok { OnOk result (into.new.items ≡ into.old.items ++ (first.now ++ second.now)) }
    ensures err { OnErr result (into.new.items ≡ into.old.items) }
{
    let start = into.len();
    into.extend_from_slice(first)?;
    if into.extend_from_slice(second).is_err() {
        into.truncate(start);
        return Err(NoMemory);
    }
    Ok(())
}

/// Adds a gap of that many zeros and a piece at the end, both or none.
#[tactic(auto, using(crate::proofs::Gaps::gap_is))]
fn put(gap: usize, piece: &[u8], into: &mut Vec<u8>) -> Result<(), NoMemory>
    requires { gap ≤ 7 }
    ensures ok { OnOk result (into.new.items ≡ into.old.items ++ (replicate gap 0 ++ piece.now)) }
    ensures err { OnErr result (into.new.items ≡ into.old.items) }
{
    put_both(&[0; 7][..gap], piece, into)
}

#[tactic(auto, unfolding(rpc_base::specs::Fields::number_octets))]
fn two(order: Order, number: u16) -> [u8; 2]
    ensures { result ≡ number_octets order w16 number }
{
    match order {
        Order::Big => number.to_be_bytes(),
        Order::Little => number.to_le_bytes(),
    }
}

#[tactic(auto, unfolding(rpc_base::specs::Fields::number_octets))]
fn four(order: Order, number: u32) -> [u8; 4]
    ensures { result ≡ number_octets order w32 number }
{
    match order {
        Order::Big => number.to_be_bytes(),
        Order::Little => number.to_le_bytes(),
    }
}

#[tactic(auto, unfolding(rpc_base::specs::Fields::number_octets))]
fn eight(order: Order, number: u64) -> [u8; 8]
    ensures { result ≡ number_octets order w64 number }
{
    match order {
        Order::Big => number.to_be_bytes(),
        Order::Little => number.to_le_bytes(),
    }
}

/// Adds the number, behind zeros up to the next multiple of its size, which is 1, 2, 4 or 8 octets.
///
/// # Errors
///
/// `NoMemory` where memory runs out: then nothing is added.
#[tactic(auto, unfolding(crate::specs::Scalars::written))]
pub fn write_uint(order: Order, size: u8, value: u64, into: &mut Vec<u8>) -> Result<(), NoMemory>
    requires { holds_number size value }
    ensures ok { OnOk result (into.new.items ≡ into.old.items ++ written order size value (length into.old.items)) }
    ensures err { OnErr result (into.new.items ≡ into.old.items) }
{
    let len = into.len();
    match size {
        1 => put(0, &[value as u8], into),
        2 => put((len + 1) / 2 * 2 - len, &two(order, value as u16), into),
        4 => put((len + 3) / 4 * 4 - len, &four(order, value as u32), into),
        _ => put((len + 7) / 8 * 8 - len, &eight(order, value), into),
    }
}

/// Adds the signed number in two's complement, behind zeros up to the next multiple of its size,
/// which is 1, 2, 4 or 8 octets.
///
/// # Errors
///
/// `NoMemory` where memory runs out: then nothing is added.
#[tactic(auto, unfolding(crate::specs::Scalars::written))]
pub fn write_int(order: Order, size: u8, value: i64, into: &mut Vec<u8>) -> Result<(), NoMemory>
    requires { holds_signed size value }
    ensures ok { OnOk result (into.new.items ≡ into.old.items ++ written order size (unsigned size value) (length into.old.items)) }
    ensures err { OnErr result (into.new.items ≡ into.old.items) }
{
    let len = into.len();
    match size {
        1 => put(0, &[(value as i8).cast_unsigned()], into),
        2 => put(
            (len + 1) / 2 * 2 - len,
            &two(order, (value as i16).cast_unsigned()),
            into,
        ),
        4 => put(
            (len + 3) / 4 * 4 - len,
            &four(order, (value as i32).cast_unsigned()),
            into,
        ),
        _ => put(
            (len + 7) / 8 * 8 - len,
            &eight(order, value.cast_unsigned()),
            into,
        ),
    }
}
