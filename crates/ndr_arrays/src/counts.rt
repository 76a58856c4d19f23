//! The words in front of an array's elements.
ghost use Rattle.std.specs.Prelude.{◌≡◌, ◌<◌, ◌≤◌, ◌+◌, ℕ, length, IfOk, Result, Ok};
ghost use Rattle.ndr_scalars.specs.Scalars.{up};
ghost use Rattle.ndr_arrays.specs.Counted.{word_at, most_at, within_most, actual_at, counts_at, HasCounts};

use ndr_scalars::read_word;
use ndr_value::ArrayKind;
use rpc_base::Order;

/// How many elements an array may have, and how many travel.
#[derive(Clone, Copy, Debug, PartialEq, Eq)]
pub struct Counts {
    pub most: u32,
    pub actual: u32,
}

/// Why the counts of an array could not be read.
#[derive(Clone, Copy, Debug, PartialEq, Eq)]
pub enum CountFault {
    /// The octets end before the last word; how many there are.
    Short(usize),
    /// The word at that index is an offset that isn't 0, or an actual_count above the maximum.
    Bound(usize),
}

fn word(order: Order, octets: &[u8], at: usize) -> Result<(u32, usize), CountFault>
    ensures exact { result ≡ word_at order octets.now at }
    ensures place { IfOk result (λ x. x.1 ≡ up at 4 + 4) }
{
    match read_word(order, octets, at) {
        Err(_) => Err(CountFault::Short(octets.len())),
        Ok(found) => Ok(found),
    }
}

pub(crate) fn max_count(
    order: Order,
    octets: &[u8],
    at: usize,
    moved: Option<u32>,
) -> Result<(u32, usize), CountFault>
    ensures { result ≡ most_at order octets.now moved at }
{
    match moved {
        Some(most) => Ok((most, at)),
        None => word(order, octets, at),
    }
}

fn actual_count(
    order: Order,
    octets: &[u8],
    at: usize,
    most: u32,
) -> Result<(Counts, usize), CountFault>
    ensures exact { result ≡ within_most order octets.now most at }
    ensures place { IfOk result (λ x. 4 ≤ x.1) }
{
    let (actual, after) = word(order, octets, at)?;
    if actual > most {
        return Err(CountFault::Bound(after - 4));
    }
    Ok((Counts { most, actual }, after))
}

pub(crate) fn offset_and_count(
    order: Order,
    octets: &[u8],
    at: usize,
    most: u32,
) -> Result<(Counts, usize), CountFault>
    ensures exact { result ≡ actual_at order octets.now most at }
    ensures place { IfOk result (λ x. 4 ≤ x.1) }
{
    let (offset, after) = word(order, octets, at)?;
    if offset != 0 {
        return Err(CountFault::Bound(after - 4));
    }
    actual_count(order, octets, after, most)
}

/// The counts of an array of that kind, and the index after them, which is that of the elements
/// before their gap. `moved` is a max_count that stood in front of the outermost structure. It takes
/// no memory.
///
/// # Errors
///
/// `Short` where the octets end before a word's last: how many there are. `Bound` where an offset isn't 0
/// or the actual_count is above the maximum: the index of that word.
pub fn read_counts(
    kind: &ArrayKind,
    order: Order,
    octets: &[u8],
    at: usize,
    moved: Option<u32>,
) -> Result<(Counts, usize), CountFault>
    // What is read stands there, and what stands there is read.
    ensures found { IfOk result (λ x. HasCounts order octets.now moved kind.now x.0 at x.1) }
    ensures only { (c : _) (j : ℕ) → HasCounts order octets.now moved kind.now c at j → result ≡ Ok (c, j) }
    // Which departure it is.
    ensures exact { result ≡ counts_at order octets.now kind.now moved at }
{
    all_counts(kind, order, octets, at, moved)
}

fn all_counts(
    kind: &ArrayKind,
    order: Order,
    octets: &[u8],
    at: usize,
    moved: Option<u32>,
) -> Result<(Counts, usize), CountFault>
    ensures { result ≡ counts_at order octets.now kind.now moved at }
{
    match kind {
        ArrayKind::Fixed(count) => Ok((
            Counts {
                most: *count,
                actual: *count,
            },
            at,
        )),
        ArrayKind::Varying(most, _) => offset_and_count(order, octets, at, *most),
        ArrayKind::Conformant(_) => {
            let (most, after) = max_count(order, octets, at, moved)?;
            Ok((Counts { most, actual: most }, after))
        }
        ArrayKind::ConformantVarying(_, _) => {
            let (most, after) = max_count(order, octets, at, moved)?;
            offset_and_count(order, octets, after, most)
        }
    }
}
