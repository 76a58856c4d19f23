//! Counts and texts that are written.
ghost use Rattle.std.specs.Prelude.{◌≡◌, ◌<◌, ◌+◌, ◌^◌, ◌++◌, ◌∷◌, [], length, OnOk, OnErr};
ghost use Rattle.ndr_arrays.specs.Written.{both, word, most_octets, actual_octets, counts_octets, size_octets, text_octets};

use crate::counts::Counts;
use ndr_scalars::write_uint;
use ndr_value::ArrayKind;
use rpc_base::{NoMemory, Order};

fn put_word(order: Order, number: u32, into: &mut Vec<u8>) -> Result<(), NoMemory>
    ensures ok { OnOk result (into.new.items ≡ into.old.items ++ word order number (length into.old.items)) }
    ensures err { OnErr result (into.new.items ≡ into.old.items) }
{
    write_uint(order, 4, u64::from(number), into)
}

// Offset 0 and an actual_count, both or none.
fn put_actual(order: Order, actual: u32, into: &mut Vec<u8>) -> Result<(), NoMemory>
    ensures ok { OnOk result (into.new.items ≡ into.old.items ++ actual_octets order actual (length into.old.items)) }
    ensures err { OnErr result (into.new.items ≡ into.old.items) }
{
    let start = into.len();
    put_word(order, 0, into)?;
    if put_word(order, actual, into).is_err() {
        into.truncate(start);
        return Err(NoMemory);
    }
    Ok(())
}

// A max_count, unless it stands in front.
fn put_most(order: Order, most: u32, with_most: bool, into: &mut Vec<u8>) -> Result<(), NoMemory>
    ensures ok { OnOk result (into.new.items ≡ into.old.items ++ most_octets order with_most most (length into.old.items)) }
    ensures err { OnErr result (into.new.items ≡ into.old.items) }
{
    if with_most {
        return put_word(order, most, into);
    }
    Ok(())
}

// All three, or none.
fn put_both(
    order: Order,
    counts: Counts,
    with_most: bool,
    into: &mut Vec<u8>,
) -> Result<(), NoMemory>
    ensures ok { OnOk result (into.new.items ≡ into.old.items ++ both (most_octets order with_most counts.most) (actual_octets order counts.actual) (length into.old.items)) }
    ensures err { OnErr result (into.new.items ≡ into.old.items) }
{
    let start = into.len();
    put_most(order, counts.most, with_most, into)?;
    if put_actual(order, counts.actual, into).is_err() {
        into.truncate(start);
        return Err(NoMemory);
    }
    Ok(())
}

/// Adds the counts of an array of that kind, each behind zeros up to the next multiple of four.
/// `with_most`: the max_count doesn't stand in front of the outermost structure.
///
/// # Errors
///
/// `NoMemory` where memory runs out: then nothing is added.
pub fn write_counts(
    kind: &ArrayKind,
    order: Order,
    counts: Counts,
    with_most: bool,
    into: &mut Vec<u8>,
) -> Result<(), NoMemory>
    ensures ok { OnOk result (into.new.items ≡ into.old.items ++ counts_octets order kind.now counts with_most (length into.old.items)) }
    ensures err { OnErr result (into.new.items ≡ into.old.items) }
{
    match kind {
        ArrayKind::Fixed(_) => Ok(()),
        ArrayKind::Varying(_, _) => put_actual(order, counts.actual, into),
        ArrayKind::Conformant(_) => put_most(order, counts.most, with_most, into),
        ArrayKind::ConformantVarying(_, _) => put_both(order, counts, with_most, into),
    }
}

// The counts of a text of so many octets with its NUL.
fn put_size(
    size: Option<u32>,
    order: Order,
    count: u32,
    with_most: bool,
    into: &mut Vec<u8>,
) -> Result<(), NoMemory>
    ensures ok { OnOk result (into.new.items ≡ into.old.items ++ size_octets order size count with_most (length into.old.items)) }
    ensures err { OnErr result (into.new.items ≡ into.old.items) }
{
    match size {
        Some(_) => put_actual(order, count, into),
        None => {
            let counts = Counts {
                most: count,
                actual: count,
            };
            put_both(order, counts, with_most, into)
        }
    }
}

// Octets and a NUL, or none.
fn put_chars(text: &[u8], into: &mut Vec<u8>) -> Result<(), NoMemory>
    ensures ok { OnOk result (into.new.items ≡ into.old.items ++ (text.now ++ 0 ∷ [])) }
    ensures err { OnErr result (into.new.items ≡ into.old.items) }
{
    let start = into.len();
    into.extend_from_slice(text)?;
    if into.push(0).is_err() {
        into.truncate(start);
        return Err(NoMemory);
    }
    Ok(())
}

/// Adds a text: its counts, its octets and one NUL, which is counted. Its max_count is its
/// actual_count. `size` is the size of its array where that is fixed. `with_most`: the max_count
/// doesn't stand in front of the outermost structure.
///
/// # Errors
///
/// `NoMemory` where memory runs out: then nothing is added.
pub fn write_text(
    size: Option<u32>,
    order: Order,
    text: &[u8],
    with_most: bool,
    into: &mut Vec<u8>,
) -> Result<(), NoMemory>
    requires { length text.now + 1 < 2 ^ 32 }
    ensures ok { OnOk result (into.new.items ≡ into.old.items ++ text_octets order size text.now with_most (length into.old.items)) }
    ensures err { OnErr result (into.new.items ≡ into.old.items) }
{
    let start = into.len();
    put_size(size, order, text.len() as u32 + 1, with_most, into)?;
    if put_chars(text, into).is_err() {
        into.truncate(start);
        return Err(NoMemory);
    }
    Ok(())
}
